//! Ranges of values.

/// Where on the line of values something lies: among the values of one rank (`bson_order::rank_of`) whose part
/// (`crate::indexed::parts::part_of`) is neither below `low` nor above `high`.
#[derive(Drop)]
pub struct Range {
    /// The path of the value in a document.
    pub path: Vec<String>,
    /// The rank of the value's kind.
    pub rank: u8,
    /// The least part.
    pub low: i64,
    /// The greatest part.
    pub high: i64,
}
