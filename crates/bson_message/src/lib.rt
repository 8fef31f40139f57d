//! Messages of MongoDB's wire protocol: OP_MSG, and the OP_QUERY and OP_REPLY of a driver's first question. A message is
//! taken from a source as it stands, read as a view that takes no memory, and an answer is made as bytes.
#![tactic(auto)]

mod checksum;
mod fault;
pub mod laws;
mod message;
mod op_msg;
mod op_query;
mod reading;
mod replying;
mod section;
mod words;

pub use fault::{Fault, ReadFault, WriteFault};
pub use message::{Body, Header, message_of};
pub use op_msg::OpMsg;
pub use op_query::OpQuery;
pub use reading::next_message;
pub use replying::{old_reply, reply};
pub use section::{Sequence, documents_of};
pub use words::{HEADER_SIZE, MESSAGE_LIMIT};
