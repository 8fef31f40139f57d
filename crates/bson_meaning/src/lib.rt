//! What documents mean: their normal form, keys that are equal if the meanings are, and the gate for bytes.
#![tactic(auto)]

mod compare;
mod facts;
mod forms;
mod gating;
pub mod json_laws;
mod key;
pub mod laws;
mod lengths;
mod levels;
mod options;
mod plain;
mod reserved;
mod scalars;
mod sorting;
mod views;
mod writing;

pub use compare::same_meaning;
pub use forms::{normalize, normalize_document};
pub use gating::{GateError, gate};
pub use key::{
    KeyError, meaning_key, meaning_key_before, meaning_key_before_of_element,
    meaning_key_of_element,
};
pub use levels::{depth, depth_of_document};
pub use plain::{is_plain, is_plain_document};
pub use reserved::{has_reserved_below, reserved_path_below};
pub use sorting::{sort_keys, sorted};
pub use views::same_as_raw;
