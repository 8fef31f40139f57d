//! What a question keeps of a collection: over the readings of a store and of one that only reads, which hand on the
//! documents that a filter selects; and the filters and ranges in front of questions, by which indexes can serve them.
#![tactic(auto)]

mod answering;
mod arranging;
mod asking;
mod drafted;
mod equal;
mod filtering;
mod first;
mod front;
mod gathering;
mod joining;
pub mod laws;
mod names;
mod nearing;
mod opening;
mod ranges;
mod refusing;
mod selecting;
mod span;
mod spans;
mod store;

pub use answering::Answering;
pub use arranging::{find_arranged, find_drafted, look_up_arranged};
pub use asking::{look_up_answers, take_answers};
pub use drafted::take_drafted;
pub use filtering::prefilter;
pub use first::First;
pub use gathering::Gathering;
pub use opening::open_files;
pub use ranges::ranges_of;
pub use refusing::check_row;
pub use selecting::TakeRow;
pub use store::ReadOnlyStore;
