//! What MongoDB's commands ask of a store, as messages hold them: each is what a line of a session of `fallowtime` asks for.
mod asked;
mod batches;
mod collections;
mod filling;
mod indexing;
mod lists;
mod planning;
mod spaces;
mod told;

pub use asked::{Plan, Way};
pub use lists::copy_of;
pub use planning::plan;
pub use told::{done, hello};
