//! Documents as they come into a store and go out of it, apart from any table: what bytes and JSON are read as, one
//! document or a stream or list of them, how a document is written under the key of its `_id`, what a change of one
//! member makes of it, what it is as JSON, and whether a row can be one that a store wrote.
#![tactic(auto)]

mod answer;
mod change;
mod ids;
mod json_row;
mod key_order;
mod keys;
pub mod laws;
mod loading;
mod name;
mod read;
mod reading;
mod repeats;
mod row;
mod scalars;
mod stored;
mod stream;
mod text;
mod trees;
mod unread;
mod write;

pub use answer::json_of_body;
pub use change::{Unset, body_with, body_without};
pub use ids::{ID_KEY, key_of_id};
pub use json_row::row_of_json;
pub use key_order::{MOST_PAIRS, put};
pub use keys::Keys;
pub use loading::{Loader, judge_trees};
pub use name::Name;
pub use read::{document_of_body, document_of_bytes, value_of_json};
pub use reading::document_of_text;
pub use repeats::first_repeated;
pub use row::{RowKey, is_store_row, key_of_row};
pub use stored::row_of_bytes;
pub use stream::judge_stream;
pub use text::text_of_body;
pub use trees::check_json;
pub use unread::Unread;
pub use write::{KeptRow, body_of, row_of_document};
