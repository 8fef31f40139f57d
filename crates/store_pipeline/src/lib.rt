//! Pipelines, as MongoDB's `aggregate` has them: stages that make documents of documents, one after the other.
#![tactic(auto)]

mod accumulating;
mod counting;
mod error;
mod grouping;
mod matching;
mod operand;
mod projecting;
mod running;
mod skipping;
pub mod sorted;
mod sorting;
mod stage;
mod unwinding;
mod writing;

pub use error::PipelineError;
pub use projecting::{left_of_body, left_of_each};
pub use running::run;
pub use stage::{Accumulated, Accumulator, Grouping, Operand, Stage, Unwinding};
