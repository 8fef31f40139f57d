//! The order of values across their kinds, as MongoDB's documentation defines it (Comparison/Sort Order), from their
//! bytes or their trees. Numbers are compared by value, whatever their kinds, and exactly.
#![tactic(auto)]

mod digits;
mod doubles;
pub mod laws;
mod numbers;
mod ranks;
mod scalars;
mod sizes;
mod trees;
mod values;
mod wholes;

pub use doubles::double_of;
pub use numbers::{Number, compare_numbers, decimal, double, whole};
pub use ranks::rank_of;
pub use scalars::{is_not_a_number, whole_part_of};
pub use sizes::Size;
pub use trees::compare_trees;
pub use values::{LEVEL_LIMIT, compare};
pub use wholes::{whole_at, whole_part};
