//! A message, as its bytes say.

ghost use Rattle.std.specs.Prelude.{◌≡◌, ◌<◌, ◌≤◌, ℕ, List, MatchOption, MatchResult, drop, length};
ghost use Rattle.bson_message.specs.Messages.{HasHeader, Says};
ghost use Rattle.bson_message.specs.Taking.{AreDeclared};
ghost use Rattle.bson_message.specs.declared.fault.Fault.TheVariants as faults;

use crate::checksum::is_summed;
use crate::fault::Fault;
use crate::op_msg::{OpMsg, op_msg_of};
use crate::op_query::{OpQuery, op_query_of};
use crate::words::{is_message_length, word_at};

/// The number of OP_MSG.
pub(crate) const OP_MSG: u32 = 2013;

/// The number of OP_QUERY.
const OP_QUERY: u32 = 2004;

/// What a message says.
#[derive(Clone, Copy, Debug)]
pub enum Body<'a> {
    /// A question or an answer.
    Msg(OpMsg<'a>),
    /// A question in the old form.
    Query(OpQuery<'a>),
}

/// The numbers in front of a message (MongoDB's wire protocol, "Standard Message Header").
#[derive(Clone, Copy, Debug, PartialEq, Eq)]
pub struct Header {
    /// How many bytes the message has, with these 16 ("messageLength").
    pub length: u32,
    /// Its number ("requestID").
    pub request: u32,
    /// The number of the message that it answers ("responseTo").
    pub response_to: u32,
    /// The number of its operation ("opCode").
    pub operation: u32,
}

/// The header at the front, and what follows it.
fn header_at(bytes: &[u8]) -> Option<(Header, &[u8])>
    ensures { MatchOption result (length bytes.now < 16)
        (λ r. HasHeader bytes.now r.0 × (r.1.now ≡ drop 16 bytes.now)) }
{
    let (length, rest) = word_at(bytes)?;
    let (request, rest) = word_at(rest)?;
    let (response_to, rest) = word_at(rest)?;
    let (operation, rest) = word_at(rest)?;
    let header = Header {
        length,
        request,
        response_to,
        operation,
    };
    Some((header, rest))
}

/// What an OP_MSG says.
fn msg_in<'m>(whole: &[u8], bytes: &'m [u8]) -> Result<Body<'m>, Fault>
    requires { 4 ≤ length whole.now }
    ensures { Says whole.now OP_MSG bytes.now result }
{
    match op_msg_of(bytes) {
        Ok(message) => {
            if is_summed(message.flags, whole) {
                Ok(Body::Msg(message))
            } else {
                Err(Fault::Checksum)
            }
        }
        Err(fault) => Err(fault),
    }
}

/// What an OP_QUERY asks.
fn query_in(bytes: &[u8]) -> Result<Body<'_>, Fault>
    ensures { (whole : List ℕ) → Says whole OP_QUERY bytes.now result }
{
    match op_query_of(bytes) {
        Some(query) => Ok(Body::Query(query)),
        None => Err(Fault::Sections),
    }
}

/// What the bytes behind the header of a message say.
fn body_in<'m>(whole: &[u8], operation: u32, bytes: &'m [u8]) -> Result<Body<'m>, Fault>
    requires { 4 ≤ length whole.now }
    ensures { Says whole.now operation bytes.now result }
{
    match operation {
        OP_MSG => msg_in(whole, bytes),
        OP_QUERY => query_in(bytes),
        _ => Err(Fault::Operation),
    }
}

/// The header of a message, and what it says or why that isn't read, so that it can be answered.
///
/// `Header` if the bytes are under 16 or over 48000000, or don't declare their own number. Behind a header: `Operation`
/// if it is neither an OP_MSG nor an OP_QUERY; `Flag` if an OP_MSG has one of the flags 2 to 15; `Sections` if its
/// bytes aren't sections with exactly one body, or those of an OP_QUERY no question; `Checksum` if an OP_MSG with the flag
/// "checksumPresent" doesn't end in the checksum of all that is before it.
pub fn message_of(bytes: &[u8]) -> Result<(Header, Result<Body<'_>, Fault>), Fault>
    ensures { MatchResult result
        (λ r. AreDeclared bytes.now × HasHeader bytes.now r.0 × Says bytes.now r.0.operation (drop 16 bytes.now) r.1)
        (λ e. (e ≡ faults.Header) × (AreDeclared bytes.now → ⊥)) }
{
    let Some((header, rest)) = header_at(bytes) else {
        return Err(Fault::Header);
    };
    if header.length as usize != bytes.len() || !is_message_length(header.length) {
        return Err(Fault::Header);
    }
    let body = body_in(bytes, header.operation, rest);
    Ok((header, body))
}
