//! Callers of documents and of stores with contracts of their own, each proved over the public contracts alone. The pages
//! CALLING.md of `bson` and `bson_store` show them.
#![tactic(auto)]

pub mod documents;
pub mod stores;
