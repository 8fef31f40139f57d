//! A table of rows over `sqlite`, seen as a list: each call is a change of that list.
#![tactic(auto)]

mod change;
mod check;
mod fault;
pub mod laws;
mod names;
mod opening;
mod own;
pub mod pages;
mod renewal;
mod row;
mod sql;
mod statements;
mod table;
mod visiting;
mod whole;

pub use change::Change;
pub use check::RowCheck;
pub use fault::Fault;
pub use opening::OpenError;
pub use own::is_own;
pub use row::{Found, NewKey, NewRow};
pub use table::Table;
pub use visiting::{Visit, VisitPlaced};
