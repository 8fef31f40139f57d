//! Spans on the line of values.

/// Values of one rank, from one part to another, both with their ends.
#[derive(Clone, Copy)]
pub(crate) struct Span {
    pub rank: u8,
    pub low: i64,
    pub high: i64,
}
