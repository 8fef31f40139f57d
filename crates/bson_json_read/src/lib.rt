//! Documents of Extended JSON with all doubles (MongoDB Extended JSON v2), with their keys in order.
#![tactic(auto)]

mod bodies;
pub mod double_text;
mod error;
pub mod laws;
mod reading;
mod texts;

pub use bodies::read_wrapped;
pub use error::{Error, Result};
pub use json::Scratch;
pub use reading::{bson_of, bson_of_text, document_of, document_of_text};
