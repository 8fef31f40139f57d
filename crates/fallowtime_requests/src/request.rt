//! What is asked of a store.

use bson_model::{Bson, Document};
use store_pipeline::Stage;
use store_pipeline::sorted::{Arrangement, Fields};
use store_question::Question;
use store_update::{Step, UpdateError};

/// What becomes of each document that a change by query means.
#[derive(Drop)]
pub enum Work {
    /// What these steps make of it.
    Update(Vec<Step>),
    /// This document takes its place, with the `_id` of the one that was there.
    Replace(Document),
    /// It is removed.
    Remove,
}

/// What becomes of a change by query that no document answers.
#[derive(Drop)]
pub enum Otherwise {
    /// A document is put in, which has this `_id`.
    Insert(Bson, Document),
    /// It is refused: why no document is made of the query's equality fields.
    Refuse(UpdateError),
}

/// What becomes of a document of an import whose `_id` the collection has, or an earlier document of the import.
#[derive(Clone, Copy, Debug, PartialEq, Eq)]
pub enum Existing {
    /// The import is refused.
    Refuse,
    /// It takes the place of the one that is there.
    Replace,
    /// It is left out.
    Skip,
}

/// What becomes of a whole collection.
#[derive(Clone, Copy, Debug, Drop)]
pub enum Transfer<'w> {
    /// All its documents are removed.
    Drop,
    /// Its documents go to the collection of this name, and take the place of those that this one has, if so; else it
    /// may have none.
    Rename(&'w str, bool),
    /// Its documents are in the collection of this name, too.
    Copy(&'w str),
}

impl<'w> Transfer<'w> {
    ghost use Rattle.std.specs.Prelude.{◌≡◌};
    ghost use Rattle.fallowtime_requests.specs.Requests.{dropping};

    /// The same, and whether the documents that the other collection has are removed.
    fn dropping(self, drops: bool) -> Transfer<'w>
        ensures { result ≡ dropping drops self.entry }
    {
        match self {
            Transfer::Rename(new, _) => Transfer::Rename(new, drops),
            other => other,
        }
    }
}

/// A part of documents, by their number.
#[derive(Clone, Copy, Debug)]
pub struct Part {
    /// How many are passed over.
    pub skip: usize,
    /// How many it has at most, if that is limited.
    pub limit: Option<usize>,
}

/// What is returned of the documents that are found.
#[derive(Drop)]
pub struct Wanted {
    /// In which order they are returned, and which of them.
    pub arrangement: Arrangement,
    /// Which fields of each of them, if not all.
    pub fields: Option<Fields>,
    /// Whether one that is changed is returned as it is afterwards; else as it was before.
    pub after: bool,
}

/// What is asked of one collection, or, with `Collections` and `Check`, of all, with every text of it read.
#[derive(Drop)]
pub enum Request<'w> {
    /// To put a document in, which has this `_id`.
    Insert(Bson, Document),
    /// To put a document in, or to replace the one with its `_id`.
    Put(Document),
    /// To replace the document with the `_id` of this one.
    Replace(Document),
    /// The document with an `_id`.
    Get(Bson),
    /// To put a value under a key of the document with an `_id`.
    Set(Bson, &'w str, Bson),
    /// To take a key out of the document with an `_id`.
    Unset(Bson, &'w str),
    /// To make an update of the document with an `_id`; if so, to say whether it is another one then.
    Alter(Bson, Vec<Step>, bool),
    /// To change the documents that answer a question: all of them, if so, or else the first.
    Change(Question, Work, bool),
    /// The same, and what is done if no document answers.
    Upsert(Question, Work, bool, Otherwise),
    /// To remove the document with an `_id`.
    Remove(Bson),
    /// The documents that answer a question: in an order, of that a part, and of each the fields that are wanted.
    Find(Question, Wanted),
    /// To change the first of the documents that are found so, and to return it.
    FindAndChange(Question, Wanted, Work),
    /// How many documents a part has of those that answer a question.
    Count(Question, Part),
    /// The different values at a path of the documents that answer a question; if so, with how many have each.
    Distinct(Vec<String>, Question, bool),
    /// The documents that the stages of a pipeline make of those that answer a question.
    Aggregate(Question, Vec<Stage>),
    /// To put in the documents of a stream of BSON, all or none, and what becomes of those whose `_id` is there.
    Import(Vec<u8>, Existing),
    /// To remove all documents, to give them to another collection, or to copy them there.
    Transfer(Transfer<'w>),
    /// To make an index on a path.
    Index(Vec<String>),
    /// To drop the index on a path.
    DropIndex(Vec<String>),
    /// The names of the collections.
    Collections,
    /// How many documents all collections have.
    Check,
}

impl<'w> Request<'w> {
    ghost use Rattle.std.specs.Prelude.{◌≡◌};
    ghost use Rattle.fallowtime_requests.specs.Requests.{with_counts, with_drops, with_many};

    /// The request with the option `--many`, if that is given: a change by query is then one of all documents that
    /// answer.
    pub fn with_many(self, many: bool) -> Request<'w>
        ensures { result ≡ with_many many self.entry }
    {
        match self {
            Request::Change(question, work, all) => Request::Change(question, work, many || all),
            Request::Upsert(question, work, all, otherwise) => {
                Request::Upsert(question, work, many || all, otherwise)
            }
            other => other,
        }
    }

    /// The request with the option `--count`, if that is given: different values are then counted.
    pub fn with_counts(self, counts: bool) -> Request<'w>
        ensures { result ≡ with_counts counts self.entry }
    {
        match self {
            Request::Distinct(path, question, all) => {
                Request::Distinct(path, question, counts || all)
            }
            other => other,
        }
    }

    /// The request with the option `--drop`, or without it: whether a collection may take the name of another one, which
    /// is removed.
    pub fn with_drops(self, drops: bool) -> Request<'w>
        ensures { result ≡ with_drops drops self.entry }
    {
        match self {
            Request::Transfer(how) => Request::Transfer(how.dropping(drops)),
            other => other,
        }
    }
}
