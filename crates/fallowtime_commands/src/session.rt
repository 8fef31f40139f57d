//! The line mode of the program `fallowtime`: lines of JSON ask something of an open store, and the answer to each is a
//! line of JSON; and lists of requests, done whole or not at all.
mod altering;
mod answers;
mod asking;
mod bodies;
mod changing;
mod drafting;
mod error;
mod finding;
mod joining;
mod list_answers;
mod list_lines;
mod listing;
mod lists;
mod objects;
mod performing;
mod places;
mod questions;
mod serving;
mod turns;
mod upserting;

pub use error::{ListError, Reason};
pub use joining::{JoinStop, Joined, join_lines};
pub use list_lines::send_answers;
pub use listing::perform_all;
pub use lists::{ListStop, questions_in};
pub use places::Place;
pub use serving::{send, serve};
