//! The commands of the program `fallowtime`: what is requested of a store is done, and what that
//! returns is printed.
#![tactic(auto)]

mod aggregating;
mod altering;
pub mod answer;
mod asking;
mod changing;
mod differing;
mod executing;
mod finding;
mod ids;
mod importing;
pub mod laws;
mod looking;
mod meant;
mod performing;
mod printing;
mod refusal;
mod replacing;
pub mod session;
mod setting;
mod storing;
mod total;
mod transferring;
mod upserting;
mod wanting;

pub use altering::{alteration, altered};
pub use answer::Answer;
pub use asking::counted;
pub use changing::{Unmade, answer_to, edits_of};
pub use differing::Differing;
pub use executing::{execute, insert_text, print_outcome};
pub use finding::{Drafted, draft, head_of};
pub use looking::{export_all, look_up, print_found};
pub use meant::Meant;
pub use performing::perform;
pub use printing::Form;
pub use refusal::{Refusal, update_name};
pub use setting::{can_be_set, with_value};
pub use storing::{kept_bytes, written};
pub use wanting::left_by;
