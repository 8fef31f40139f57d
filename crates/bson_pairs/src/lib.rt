//! Lists of pairs of a text and a value, in which no text occurs twice.
#![tactic(auto)]

mod ascending;
mod compared;
mod growing;
mod growing_keys;
mod iter;
mod keys;
mod pairs;

pub use ascending::Ascending;
pub use iter::{IntoIter, Iter};
pub use pairs::Pairs;
