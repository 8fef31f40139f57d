//! The front of the programs, before and after a store is asked: what their words and their input ask for, which
//! requests change one document in the pages of a file, and what `fallowtime` reports as it ends.
#![tactic(auto)]

mod asking;
mod calls;
mod changing;
mod ending;
mod executing;
mod rows;
mod words;
mod writes;

pub use asking::{Asked, asked_of, count_of, form_of};
pub use calls::{get_raw, insert_raw, remove, replace_raw, unset};
pub use changing::{change, is_of_one};
pub use ending::{Ended, ended_of, tell};
pub use executing::execute_in_pages;
pub use words::{Program, copy_of, patience_of, program_of, words_of};
