//! What a command asks of the store.

use crate::Statement;
use bson_model::{Bson, Document};

/// How what the store returns is told.
#[derive(Drop)]
pub enum Way {
    /// A number: how many are passed over, and how many are counted at most.
    Counted(u64, u64),
    /// Documents by batches, of this collection behind its database: how many are in the first one at most, and whether
    /// that is the only one that is wanted.
    Found(String, u64, bool),
    /// A number as the only document of a batch, of this collection behind its database, with an `_id`; how many are
    /// passed over, and how many are counted at most.
    Grouped(String, Bson, u64, u64),
    /// The document that was found and changed; whether it was removed.
    Modified(bool),
    /// Different values.
    Different,
    /// The names of collections, as those of a batch with this name: all, or one alone, if it is there.
    Named(String, Option<String>),
    /// How many documents the collection of this name behind its database had, which is removed.
    Dropped(String),
    /// The indexes of the collection of this name behind its database, if it has documents.
    Indexed(String),
    /// That indexes are dropped, if the collection has documents: all but that of the `_id`, or else one, which isn't
    /// there.
    Unindexed(bool),
    /// That a collection is made, if it has no documents, and else that it is there.
    Made,
}

/// What a command asks.
#[derive(Drop)]
pub enum Plan {
    /// Nothing of the store; this is the answer.
    Told(Document),
    /// One thing, which is told in a way.
    One(Statement, Way),
    /// More of what was found in this collection behind its database, by the number of the find; how many documents at
    /// most.
    More(String, i64, u64),
    /// To let finds in this collection behind its database go, by their numbers.
    Closes(String, Vec<i64>),
    /// To find a document and change it; if there is none, to put one in; and then to find that, if there is a third.
    Upserts(Vec<Statement>),
    /// To give the documents of a collection to another one.
    Renames(String, String),
    /// To put what is found into a collection that has no documents, whose name is first; the batch is one of a
    /// collection behind its database. The first statement counts, and the second finds.
    Outs(String, String, Vec<Statement>),
    /// To put documents into a collection; if they are ordered, none behind the first that is refused.
    Inserts(String, Vec<Vec<u8>>, bool),
    /// Changes, one after the other; if they are ordered, none behind the first that is refused. It is told, if so, how
    /// many documents are other ones then.
    Writes(Vec<Statement>, bool, bool),
}
