//! Extended JSON v2, between values of BSON and JSON trees.

pub mod de;
mod ser;

pub use de::is_reserved_key;
pub use ser::{Mode, date_text, double_text, is_relaxed_date};
