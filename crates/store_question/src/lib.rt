//! Questions to documents with the meaning of MongoDB's queries: by range, into arrays, by count, by a pattern. They are
//! answered from the documents' bytes, and patterns alone take memory; so are filters, paths and the copies of some keys.
#![tactic(auto)]

mod answer;
mod filter;
mod lacking;
pub mod laws;
mod leaf;
mod paths;
mod projection;
mod question;
mod select;

pub use answer::{answers, look_in, value_of};
pub use filter::Filter;
pub use leaf::items_in;
pub use paths::look_up;
pub use projection::project;
pub use question::{Comparison, Question};
pub use select::selects;
