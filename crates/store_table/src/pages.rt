//! The rows of the store's table, straight in the pages of a database file: what is asked for is found in some pages,
//! what only reads is answered by them, and what changes the table is made in them.
mod cells;
mod edits;
mod from_key;
mod look;
mod names;
mod probe;
mod reader_laws;
mod reader_opening;
mod reading;
mod records;
mod roots;
mod rows;
mod scan;
mod snapshot;
mod writer;
mod writer_laws;
mod writer_opening;

pub use cells::RowRef;
pub use edits::{add_entry, put_row, remove_entry, remove_row};
pub use look::{body_named, place_named};
pub use names::each_name;
pub use reader_laws::holds_documents;
pub use reader_opening::open_rows;
pub use reading::{body_of, collections, visit_bodies};
pub use roots::{Roots, find_roots};
pub use scan::{VisitRows, visit};
pub use snapshot::Snapshot;
pub use writer::Writer;
pub use writer_laws::holds_rows;
