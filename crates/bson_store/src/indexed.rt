//! Indexes of collections on paths: the places of the documents by the meaning of what is at the path.
mod ascending;
mod changing;
mod front;
mod gathering;
mod index;
mod indexes;
mod keys;
pub mod laws;
mod marks;
mod parts;
mod place_list;
mod places;
mod range;
mod ranks;
mod reading;
mod rising;
mod serving;
mod table;

pub use front::Front;
pub use index::Index;
pub use indexes::Indexes;
pub use keys::is_same_path;
pub use parts::part_of;
pub use places::Places;
pub use range::Range;
pub use table::IndexedTable;
