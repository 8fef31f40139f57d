//! What commands of MongoDB ask of one collection, as lines of a session of `fallowtime` that ask for the same.
#![tactic(auto)]

mod changes;
mod counting;
mod fault;
mod fields;
mod finding;
mod lines;
mod modifying;
mod name;
mod options;
pub mod plans;
mod staging;
mod statement;

pub use changes::{changes_of, removals_of};
pub use counting::{Counting, counting_in, operand_of};
pub use fault::{Code, Fault, code_of, refuse, rename_code, update_code};
pub use fields::{allowed, is_empty};
pub use finding::finding_in;
pub use lines::{
    count_all, count_by, count_statement, find_statement, most_of, part_in, text_in, truth_in,
    value_in, whole_in,
};
pub use modifying::{
    collections_statement, distinct_statement, drop_statement, modify_statement, upsert_statements,
};
pub use name::{Name, first_key, name_of};
pub use options::{one_member, put};
pub use staging::pipeline_statement;
pub use statement::Statement;
