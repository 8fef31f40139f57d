//! An order of documents, and a part of them.

use crate::sorted::keys::SortKey;

/// In which order documents are returned, and which of them: those behind the first `skip`, and of these at most `limit`.
#[derive(Debug, PartialEq, Drop)]
pub struct Arrangement {
    /// The keys of the order. Documents that none of them tells apart stay as they came, and so do all without keys.
    pub keys: Vec<SortKey>,
    /// How many are passed over.
    pub skip: usize,
    /// How many there are at most, if that is limited.
    pub limit: Option<usize>,
}
