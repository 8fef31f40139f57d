//! The bytes of document trees: what a tree is written as, what bytes mean as a tree (bsonspec.org 1.1), and whether
//! bytes are the written form of what they mean.
#![tactic(auto)]

mod elements;
mod form;
mod keys;
pub mod laws;
pub mod put;
mod write;

pub use form::{is_written_form, written_element};
pub use write::{
    encode_document, encode_items, write_document, write_items, write_scoped, write_value,
};
