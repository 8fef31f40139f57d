//! Keys of an order.

/// A path, and whether the greatest comes first. A document is sorted by the least of the values that the path leads to,
/// or by the greatest if the greatest comes first.
#[derive(Debug, PartialEq, Drop)]
pub struct SortKey {
    pub path: Vec<String>,
    pub descending: bool,
}
