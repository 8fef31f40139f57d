//! The first frame of a byte list, what is wrong inside a payload, and the errors of raw documents (bsonspec.org 1.1).
//!
//! A frame is an element whose value isn't read yet. Nothing here takes memory.
#![tactic(auto)]

pub mod error;
mod extent;
mod first;
pub mod laws;
mod limits;
mod parts;
mod payload;

pub use error::{
    Error, ErrorKind, Result, ValueAccessError, ValueAccessErrorKind, ValueAccessResult,
};
pub use extent::name_at;
pub use first::{frame, is_end, sized_frame};
pub use limits::{LENGTH_LIMIT, LEVEL_LIMIT, SIZE_LIMIT};
pub use parts::Frame;
pub use payload::{is_envelope, payload_fault, text_at};
