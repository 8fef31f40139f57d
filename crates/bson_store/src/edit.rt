//! Changes of which a list is made in one step, and why it isn't.

use crate::draft::Draft;
use bson_model::Bson;
use store_model::StoreError;

/// A change of the store.
#[derive(Drop)]
pub enum Edit {
    /// The call of its name.
    InsertRaw { name: String, bytes: Vec<u8> },
    /// The call of its name.
    ReplaceRaw { name: String, bytes: Vec<u8> },
    /// The document that the bytes mean takes the place of that with its `_id`, or, if there is none, goes in last.
    PutRaw { name: String, bytes: Vec<u8> },
    /// The document that the bytes mean goes in last, or, if one with its `_id` is there, nothing is done.
    KeepRaw { name: String, bytes: Vec<u8> },
    /// The call of its name.
    Remove { name: String, id: Bson },
}

/// Changes that wait to be made in one step, each in the state that those before it leave.
#[derive(Drop)]
pub struct DraftedEdits {
    // (hidden, so that no caller drafts rows that show no document)
    pub(crate) draft: Draft,
}

/// Why no change of a list was made: the position of the first that is refused, from 0, and its refusal; or, with no
/// position, the refusal of the list as a whole, by Memory or Database.
#[derive(Clone, Copy, Debug)]
pub struct ListRefusal {
    pub position: Option<u64>,
    pub error: StoreError,
}
