//! The words of the program `fallowtime`: its commands, their options, what the words after the program's name ask for;
//! and what it says of itself: help, hints, what errors mean.
#![tactic(auto)]

mod advice;
mod arguments;
mod asked;
mod command;
mod explaining;
mod help;
mod hint;
mod kinds;
mod names;
mod nearest;
mod options;
mod packing;
mod table;
mod texts;
mod topic;
mod usage;
mod words;

pub use advice::advice_for;
pub use asked::{advice_on_document, advice_on_query, field_of};
pub use command::Command;
pub use explaining::kind_names;
pub use help::about;
pub use hint::hint_of;
pub use names::{hint_at_field, hint_at_name};
pub use options::Options;
pub use packing::{Packing, advice_on_packed, packing_of};
pub use table::{Allowed, Argument, Effect, Place, Signature, TABLE};
pub use topic::{Topic, topic_of};
pub use words::{Task, Words, is_session, read_words};
