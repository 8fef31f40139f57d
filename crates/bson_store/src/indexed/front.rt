//! What is known of the documents that answer a question, before they are read.

use crate::indexed::range::Range;
use store_question::Filter;

/// What is in front of a question: a document that answers it is selected by the filter, and lies in each of the ranges,
/// by the value at the path of that or as the path meets an array or a decimal.
#[derive(Clone, Copy)]
pub struct Front<'a> {
    /// Selects each document that answers.
    pub filter: &'a Filter,
    /// Each document that answers lies in all of these.
    pub ranges: &'a [Range],
}
