//! MongoDB's commands, as messages ask for them, done on a store and answered as MongoDB does, one after the other from
//! a reader to a writer.
#![tactic(auto)]

mod answers;
mod batch;
mod batches;
mod carrying;
mod cursors;
mod database;
mod importing;
mod keeping;
mod moving;
mod numbers;
mod serving;
mod taking;
mod telling;
mod upserting;
pub mod wire;
mod writing;

pub use batch::Batch;
pub use cursors::Cursors;
pub use database::database_of;
pub use keeping::Cursor;
pub use serving::serve;
