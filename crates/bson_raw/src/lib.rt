//! Raw documents: views over the bytes of BSON documents, which read them without building trees (bsonspec.org 1.1).
//!
//! Bytes have one walk: their elements in order, down to the final 00, or as far as the first bytes that begin with no
//! element. Every read is defined by that walk, faults included.
#![tactic(auto)]

mod access;
mod append;
mod array;
mod array_buf;
mod array_iter;
mod bson;
mod bson_ref;
mod convert;
mod decode;
mod document;
mod document_buf;
mod element;
mod from;
mod from_owned;
mod from_trees;
mod iter;
mod kinds;
pub mod laws;
mod owned;
mod raw_iter;
mod read_error;
mod reader;
mod write_error;
mod writer;

pub use array::RawArray;
pub use array_buf::RawArrayBuf;
pub use array_iter::RawArrayIter;
pub use bson::{RawBson, RawJavaScriptCodeWithScope, raw_binary_of};
pub use bson_frame::{
    Error, ErrorKind, Result, ValueAccessError, ValueAccessErrorKind, ValueAccessResult,
};
pub use bson_ref::{
    RawBinaryRef, RawBsonRef, RawDbPointerRef, RawJavaScriptCodeWithScopeRef, RawRegexRef,
};
pub use document::RawDocument;
pub use document_buf::RawDocumentBuf;
pub use element::RawElement;
pub use iter::Iter;
pub use raw_iter::{RawIter, first_element};
pub use read_error::ReadError;
pub use reader::{from_reader, next_document, read_bytes};
pub use write_error::WriteError;
pub use writer::to_writer;
