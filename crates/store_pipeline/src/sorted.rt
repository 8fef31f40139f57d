//! Documents in an order, as MongoDB's `sort` has it, and a part of such a list; what is left of documents where paths
//! name fields, as its projections have it; the different values at a path.
mod arrangement;
mod compare;
mod copying;
mod counted;
mod distinct;
pub mod distinct_laws;
mod distinct_values;
mod error;
mod field_texts;
mod fields;
mod first;
mod keys;
pub mod laws;
mod parts;
mod paths;
mod places;
mod projection;
mod sorting;
mod texts;
mod values;

pub use arrangement::Arrangement;
pub use compare::compare_documents;
pub use counted::Counted;
pub use distinct::Distinct;
pub use error::PathsError;
pub use field_texts::{check_mixed, check_paths, paths_of};
pub use fields::{Fields, fields_alone, kept_fields, other_fields};
pub use first::TopN;
pub use keys::SortKey;
pub use parts::{into_window, window};
pub use projection::project;
pub use sorting::sort;
pub use texts::{sort_key_by, sort_keys_of};
pub use values::sort_value;
