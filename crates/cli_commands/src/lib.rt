//! The program `bson_store`: its words, what they ask of a store, the answer printed; and, without words, one document
//! in, kept, and out.
#![tactic(auto)]

mod answer;
mod call;
mod dumping;
mod filter;
mod input;
mod inputs;
mod lines;
mod piping;
mod printing;
mod program;
mod reads;
mod request;
mod stop;
mod texts;
mod word_texts;
mod words;

pub use call::{Call, RELAXED};
pub use filter::read_filter;
pub use input::read_line;
pub use lines::{UsageError, write_complaint, write_flag, write_line, write_number, write_refusal};
pub use piping::pipe;
pub use program::execute;
pub use word_texts::{TextError, parse_json, read_id};
pub use words::{Words, is_file, read_words};
