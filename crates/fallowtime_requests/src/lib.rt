//! The requests of the program `fallowtime`: what a command with its arguments asks of a store, where the arguments are
//! words of a command line or the JSON of a line of a session.
#![tactic(auto)]

mod aggregating;
mod along;
mod arranging;
mod choosing;
mod counting;
mod fields;
mod grouping;
mod importing;
mod indexing;
mod input;
mod keying;
mod limiting;
mod options;
mod parts;
mod plain;
mod reading;
mod request;
mod returning;
mod staging;
mod stop;
mod stream;
mod transferring;
mod unread;
mod unwinding;
mod updates;
mod upserts;

pub use along::along_path;
pub use arranging::{question_of_line, want, wanted_of_words};
pub use reading::{Layout, Question, ask_for_all, question_of_items, question_of_words};
pub use request::{Existing, Otherwise, Part, Request, Transfer, Wanted, Work};
pub use stop::Stop;
pub use stream::items_of;
pub use unread::Unread;
pub use upserts::{has_other_id, upsert_by_words};
