//! The bytes of answers.

ghost use Rattle.std.specs.Prelude.{◌≡◌, ◌+◌, ◌≤◌, ◌<◌, ◌++◌, IfOk, MatchResult, OnOk, length};
ghost use Rattle.bson_raw.specs.View.{bytes_of};
ghost use Rattle.bson_message.specs.Replies.{WriteRefusal, header_bytes, msg_bytes, reply_bytes, word};
ghost use Rattle.bson_message.specs.declared.fault.WriteFault.TheVariants.{TooLong};

use crate::fault::WriteFault;
use crate::message::OP_MSG;
use crate::words::MESSAGE_LIMIT;
use bson_raw::RawDocument;
use std::alloc::{AllocError, Global};

/// How many bytes an OP_MSG has around its body.
const MSG_FRAME: u32 = 21;

/// How many bytes an OP_REPLY has around its document.
const REPLY_FRAME: u32 = 36;

/// The number of OP_REPLY.
const OP_REPLY: u32 = 1;

/// The flag of OP_REPLY that servers always set ("AwaitCapable").
const AWAIT_CAPABLE: u32 = 8;

/// Appends a number.
fn put(out: &mut Vec<u8>, number: u32) -> Result<(), AllocError>
    ensures { OnOk result (out.new.items ≡ out.old.items ++ word number) }
{
    out.extend_from_slice(&number.to_le_bytes())
}

/// How many bytes a message has with so many around a document, if one may be as long.
fn length_around(frame: u32, document: &[u8]) -> Result<u32, WriteFault>
    requires { frame ≤ 48000000 }
    ensures { MatchResult result (λ n. (n ≡ length document.now + frame) × (n ≤ 48000000))
        (λ e. (e ≡ TooLong) × (48000000 < length document.now + frame)) }
{
    if document.len() > (MESSAGE_LIMIT - frame) as usize {
        return Err(WriteFault::TooLong);
    }
    Ok(document.len() as u32 + frame)
}

/// A header.
fn begun(
    alloc: Global,
    length: u32,
    number: u32,
    response_to: u32,
    operation: u32,
) -> Result<Vec<u8>, AllocError>
    ensures { IfOk result (λ out. out.items ≡ header_bytes length number response_to operation) }
{
    let mut out = Vec::new(alloc);
    put(&mut out, length)?;
    put(&mut out, number)?;
    put(&mut out, response_to)?;
    put(&mut out, operation)?;
    Ok(out)
}

/// The bytes of an OP_MSG with this number, which answers the message with the number `response_to` by one body, has no
/// flags and no checksum.
///
/// `TooLong` if they would be over 48000000, `Memory` if a growth was refused.
pub fn reply(
    alloc: Global,
    number: u32,
    response_to: u32,
    document: RawDocument<'_>,
) -> Result<Vec<u8>, WriteFault>
    ensures { MatchResult result (λ out. (length out.items ≤ 48000000)
        × (out.items ≡ msg_bytes number response_to (bytes_of document.entry)))
        (WriteRefusal (length (bytes_of document.entry) + 21)) }
{
    let body = document.as_bytes();
    let length = length_around(MSG_FRAME, body)?;
    let mut out = begun(alloc, length, number, response_to, OP_MSG)?;
    put(&mut out, 0)?;
    out.push(0)?;
    out.extend_from_slice(body)?;
    Ok(out)
}

/// The bytes of an OP_REPLY (MongoDB's legacy opcodes, "OP_REPLY") with this number, which answers the OP_QUERY with the
/// number `response_to` by one document, without a cursor.
///
/// `TooLong` if they would be over 48000000, `Memory` if a growth was refused.
pub fn old_reply(
    alloc: Global,
    number: u32,
    response_to: u32,
    document: RawDocument<'_>,
) -> Result<Vec<u8>, WriteFault>
    ensures { MatchResult result (λ out. (length out.items ≤ 48000000)
        × (out.items ≡ reply_bytes number response_to (bytes_of document.entry)))
        (WriteRefusal (length (bytes_of document.entry) + 36)) }
{
    let body = document.as_bytes();
    let length = length_around(REPLY_FRAME, body)?;
    let mut out = begun(alloc, length, number, response_to, OP_REPLY)?;
    put(&mut out, AWAIT_CAPABLE)?;
    put(&mut out, 0)?;
    put(&mut out, 0)?;
    put(&mut out, 0)?;
    put(&mut out, 1)?;
    out.extend_from_slice(body)?;
    Ok(out)
}
