//! OP_QUERY, in which a driver asks its first question.

ghost use Rattle.std.specs.Prelude.{◌≡◌, ◌↔◌, IsTrue, MatchOption};
ghost use Rattle.bson_message.specs.Messages.{Asks, IsSelection, NoQuestion};

use crate::section::{document_at, name_in};
use crate::words::word_at;
use bson_frame::is_envelope;
use bson_raw::RawDocument;

/// An OP_QUERY (MongoDB's legacy opcodes, "OP_QUERY"). The numbers of documents to skip and to return, and a selection
/// of fields, aren't kept.
#[derive(Clone, Copy, Debug)]
pub struct OpQuery<'a> {
    /// The bits of the flags.
    pub flags: u32,
    /// The database and what is asked of it, as `admin.$cmd`.
    pub collection: &'a str,
    /// The question.
    pub query: RawDocument<'a>,
}

/// Whether bytes are nothing, or a document.
fn is_selection(bytes: &[u8]) -> bool
    ensures { IsTrue result ↔ IsSelection bytes.now }
{
    bytes.is_empty() || is_envelope(bytes)
}

/// What the bytes after the header say.
pub(crate) fn op_query_of(bytes: &[u8]) -> Option<OpQuery<'_>>
    ensures { MatchOption result (NoQuestion bytes.now) (Asks bytes.now) }
{
    let (flags, rest) = word_at(bytes)?;
    let (collection, rest) = name_in(rest)?;
    let (_skipped, rest) = word_at(rest)?;
    let (_returned, rest) = word_at(rest)?;
    let (query, fields) = document_at(rest)?;
    if !is_selection(fields) {
        return None;
    }
    Some(OpQuery {
        flags,
        collection,
        query,
    })
}
