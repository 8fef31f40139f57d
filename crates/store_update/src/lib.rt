//! Updates in MongoDB's operators: what becomes of a document.
#![tactic(auto)]

mod alter;
mod arrays;
mod doubles;
mod error;
pub mod laws;
mod numbers;
mod operation;
mod sets;
mod update;

pub use alter::{altered, put_value};
pub use error::UpdateError;
pub use numbers::{is_number, quotient, sum};
pub use operation::{End, Operation, Place, Push, Step};
pub use sets::with_each;
pub use update::{found, is_of_id, updated};
