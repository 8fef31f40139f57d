//! Stages of a pipeline, as they are read.

use crate::sorted::{Fields, SortKey};
use bson_base::DoubleBits;
use store_question::Question;

/// What is taken of a document: what a path leads to, or a value that is the same of each.
#[derive(Debug, Drop)]
pub enum Operand {
    /// What the path leads to, if anything is there. It goes through documents, and into each document of an array: then
    /// it leads to the array of what is found in these.
    Path(Vec<String>),
    Null,
    Boolean(bool),
    Int32(i32),
    Int64(i64),
    Double(DoubleBits),
    String(String),
}

/// What becomes of the values that the documents of a group have.
#[derive(Clone, Copy, Debug, PartialEq, Eq)]
pub enum Accumulator {
    /// `$sum`: the sum of those that are numbers, 0 of none.
    Sum,
    /// `$avg`: their average, null of none.
    Average,
    /// `$min`: the least of those that aren't null, else null.
    Least,
    /// `$max`: the greatest of them, else null.
    Greatest,
    /// `$first`: that of the first document, null if it has none.
    First,
    /// `$last`: that of the last document, null if it has none.
    Last,
    /// `$push`: an array of them, in the order of the documents.
    Push,
    /// `$addToSet`: an array of those that are equal to none before them.
    Include,
}

/// A field of a document that is made of a group.
#[derive(Debug, Drop)]
pub struct Accumulated {
    pub name: String,
    pub accumulator: Accumulator,
    pub operand: Operand,
}

/// How documents are put in groups, and what is made of each: a document whose `_id` is the key of the group, with a
/// field for each of these behind it.
#[derive(Debug, Drop)]
pub struct Grouping {
    /// The key of a document; null if it has none.
    pub key: Operand,
    pub fields: Vec<Accumulated>,
}

/// How a document is taken apart: one comes for each item of the array at the path, with the item in the array's place.
#[derive(Debug, Drop)]
pub struct Unwinding {
    pub path: Vec<String>,
    /// Whether a document without an item stays: one in which the path leads to nothing, to null or to an empty array,
    /// which it then loses.
    pub keeps: bool,
}

/// A stage of a pipeline. It makes documents of those that the stage before it made.
#[derive(Drop)]
pub enum Stage {
    /// `$match`: those that answer the question.
    Match(Question),
    /// `$sort`: all, in the order of the keys.
    Sort(Vec<SortKey>),
    /// `$skip`: those behind the first ones, of this number.
    Skip(usize),
    /// `$limit`: the first ones, at most of this number.
    Limit(usize),
    /// `$project`: what is left of each of them.
    Project(Fields),
    /// `$count`: a document that has their number under this name; none, if there are none.
    Count(String),
    /// `$unwind`: each of them taken apart.
    Unwind(Unwinding),
    /// `$group`: one for each group, in the order of their keys.
    Group(Grouping),
}
