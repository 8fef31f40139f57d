//! Changes of rows, of which a list is made in one step.

/// One change of the rows.
#[derive(Debug, Drop)]
pub enum Change {
    /// A row is added after all others, at this place.
    Add {
        place: i64,
        coll: String,
        idkey: Vec<u8>,
        body: Vec<u8>,
    },
    /// The row at this place, if there is one, gets another body. The old one is what an index has noted.
    Rewrite {
        place: i64,
        old: Vec<u8>,
        body: Vec<u8>,
    },
    /// The row at this place, if there is one, is removed. Its body is what an index has noted.
    Remove {
        place: i64,
        old: Vec<u8>,
    },
}
