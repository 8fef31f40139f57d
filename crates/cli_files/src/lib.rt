//! What the programs do with a database file, and what they report if they can't use it.
#![tactic(auto)]

mod by_parts;
mod copying;
mod fault;
mod loaded;
mod looking;
mod opening;
mod parts;
mod reading;
mod reporting;

pub use by_parts::{Moment, open_parts};
pub use copying::{copy, reopened, whole, write_whole};
pub use fault::FileError;
pub use loaded::Loaded;
pub use opening::{close, lock_within, open, open_within, options_of_few};
pub use parts::FileParts;
pub use reading::read;
pub use reporting::{misuse, refuse, refuse_file, report_file, unread};
