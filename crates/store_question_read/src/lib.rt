//! Queries in MongoDB's language as questions to documents, and updates in it as steps of store_update.
#![tactic(auto)]

mod conditions;
mod error;
mod kinds;
pub mod laws;
mod made;
mod patterns;
mod query;
mod seed;
mod update;
mod update_error;
mod update_operands;
mod update_paths;
mod update_values;
mod update_words;
mod values;
mod words;

pub use error::QueryError;
pub use made::keys_of;
pub use query::{query_of, read_query};
pub use seed::{Seed, seed_of};
pub use update::{read_update, update_of};
pub use update_error::{ReadError, Reason};
pub use update_paths::path_at;
pub use words::{begins_with_dollar, has_operators};
