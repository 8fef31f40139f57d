//! The parts of a frame.

use bson_base::ElementType;

/// An element before its value is read (bsonspec.org 1.1, "element").
#[derive(Clone, Copy, Debug, PartialEq)]
pub struct Frame<'a> {
    /// The kind that its first byte stands for.
    pub tag: ElementType,
    /// Its key, without the 00 after it.
    pub key: &'a str,
    /// The bytes of its value.
    pub payload: &'a [u8],
    /// What follows it: from the next frame on, the document's final 00 included.
    pub rest: &'a [u8],
}
