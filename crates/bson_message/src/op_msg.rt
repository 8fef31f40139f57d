//! OP_MSG, in which drivers ask and are answered.

ghost use Rattle.std.specs.Prelude.{◌≡◌, ◌<◌, ◌≤◌, ◌*◌, ◌%◌, ◌↔◌, IsTrue, MatchOption, MatchResult, IfOk};
ghost use Rattle.bson_raw.specs.View.{bytes_of};
ghost use Rattle.bson_message.specs.Parts.{HasBody, Lists, MsgFault, NoBody, Reads};

use crate::checksum::CHECKSUM;
use crate::fault::Fault;
use crate::section::{Section, Sequence, section_at};
use crate::words::word_at;
use bson_raw::RawDocument;
use std::alloc::{AllocError, Global};

/// An OP_MSG (MongoDB's wire protocol, "OP_MSG"): one body, and sequences of documents, each of which stands for a list
/// of the body.
#[derive(Clone, Copy, Debug)]
pub struct OpMsg<'a> {
    /// The bits of the flags ("Flag Bits").
    pub flags: u32,
    /// The body.
    pub body: RawDocument<'a>,
    /// The sections, one after the other.
    sections: &'a [u8],
}

/// The only body among sections.
fn body_of(sections: &[u8]) -> Option<RawDocument<'_>>
    ensures { MatchOption result (NoBody sections.now) (λ d. HasBody sections.now (bytes_of d)) }
{
    let mut rest = sections;
    let mut body = None;
    while !rest.is_empty() {
        let Some((section, behind)) = section_at(rest) else {
            return None;
        };
        if let Section::Body(document) = section {
            if body.is_some() {
                return None;
            }
            body = Some(document);
        }
        rest = behind;
    }
    body
}

/// The bit that says that no answer is wanted ("moreToCome").
const MORE_TO_COME: u32 = 2;

/// How many bytes the checksum has.
fn checksum_size(flags: u32) -> usize
    ensures { result ≡ (flags % 2) * 4 }
{
    if flags % 2 == CHECKSUM { 4 } else { 0 }
}

/// What the bytes after the header say.
pub(crate) fn op_msg_of(bytes: &[u8]) -> Result<OpMsg<'_>, Fault>
    ensures { MatchResult result (Reads bytes.now) (MsgFault bytes.now) }
{
    let Some((flags, rest)) = word_at(bytes) else {
        return Err(Fault::Sections);
    };
    if flags % 65536 > 3 {
        return Err(Fault::Flag);
    }
    let checksum = checksum_size(flags);
    if rest.len() < checksum {
        return Err(Fault::Sections);
    }
    let (sections, _) = rest.split_at(rest.len() - checksum);
    let Some(body) = body_of(sections) else {
        return Err(Fault::Sections);
    };
    Ok(OpMsg {
        flags,
        body,
        sections,
    })
}

impl<'a> OpMsg<'a> {
    /// Whether an answer is wanted: the flag "moreToCome" isn't set.
    pub fn is_answered(self) -> bool
        ensures { IsTrue result ↔ (self.entry.flags % 4 < 2) }
    {
        self.flags % 4 < MORE_TO_COME
    }

    /// The sequences, in their order. Two may have one name, and a name may be a key of the body, too.
    pub fn sequences(self, alloc: Global) -> Result<Vec<Sequence<'a>>, AllocError>
        ensures { IfOk result (λ found. Lists self.entry found.items) }
    {
        let mut found = Vec::new(alloc);
        let mut rest = self.sections;
        while let Some((section, behind)) = section_at(rest) {
            if let Section::Sequence(sequence) = section {
                found.push(sequence)?;
            }
            rest = behind;
        }
        Ok(found)
    }
}
