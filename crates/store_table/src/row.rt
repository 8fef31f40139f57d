//! Rows as calls take and give them.

/// A row that was found: its place, from 1 upwards, and its body.
#[derive(Debug, Drop)]
pub struct Found {
    pub place: i64,
    pub body: Vec<u8>,
}

/// Another key for the row at a place.
#[derive(Debug, Drop)]
pub struct NewKey {
    pub place: i64,
    pub idkey: Vec<u8>,
}

/// A row to come: its written key and its body, which are the caller's.
#[derive(Clone, Copy, Debug)]
pub struct NewRow<'a> {
    pub idkey: &'a [u8],
    pub body: &'a [u8],
}
