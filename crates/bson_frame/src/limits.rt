//! The limits of lengths and levels.

/// The greatest number of bytes that a length can declare, since it is a signed number of 32 bits (bsonspec.org 1.1,
/// "int32").
pub const LENGTH_LIMIT: usize = 2147483647;

/// The greatest number of bytes of a document that is taken from a reader, tested or kept: 16 MiB.
pub const SIZE_LIMIT: usize = 16777216;

/// How many documents, arrays and scopes may be nested in each other in a document that is tested or kept, itself
/// counted.
pub const LEVEL_LIMIT: usize = 100;
