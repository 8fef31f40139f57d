//! The requests that the lines of an input are, as the text of an array of them.

ghost use Rattle.std.specs.Prelude.{◌≡◌, ◌++◌, ◌∷◌, [], ◌↔◌, IfErr, IfOk, IsTrue, IsUtf8, MatchResult, None, OnOk, length, string_bytes};
ghost use Rattle.json.specs.Json.{document as tree_of};
ghost use Rattle.fallowtime_commands.specs.Joining.{BeginsWithLine, IsJson, JoinsAll, StopsLine, TakesLine};
ghost use Rattle.fallowtime_commands.specs.Objects.{comma_before};
ghost use Rattle.fallowtime_commands.specs.Turns.{IsEmptyLine};
ghost use Rattle.fallowtime_commands.specs.declared.session.joining.JoinStop.TheVariants.{Memory};

use crate::session::places::Place;
use crate::session::turns::fault_in;
use json::{Scratch, Value};
use memchr::memchr;
use std::alloc::{AllocError, AllocFailed, Global};

/// The requests of lines.
#[derive(Drop)]
pub struct Joined {
    /// The lines that aren't empty as an array: with commas between them, in brackets.
    pub text: String,
    /// The number of each of these lines, counted from 1.
    pub lines: Vec<u64>,
}

/// Why no array is made of lines.
#[derive(Drop)]
pub enum JoinStop {
    /// The line with this number, counted from 1, is no JSON, as is seen at this place.
    Line(u64, Place),
    /// Out of memory, or there are 2⁶⁴ - 1 lines.
    Memory,
}

impl From<AllocError> for JoinStop {
    ghost use Rattle.fallowtime_commands.specs.declared.session.joining.JoinStop.TheVariants.{Memory};

    ghost from_gives = { λ _ s. s ≡ Memory };

    fn from(_error: AllocError) -> JoinStop {
        JoinStop::Memory
    }
}

impl<T: Drop> From<AllocFailed<T>> for JoinStop {
    ghost use Rattle.fallowtime_commands.specs.declared.session.joining.JoinStop.TheVariants.{Memory};

    ghost from_gives = { λ _ s. s ≡ Memory };

    fn from(failed: AllocFailed<T>) -> JoinStop {
        drop(failed);
        JoinStop::Memory
    }
}

/// Whether a line is empty: it has no byte, or a carriage return alone.
pub(crate) fn is_blank(line: &[u8]) -> bool
    ensures { IsTrue result ↔ IsEmptyLine line.now }
{
    matches!(line, [] | [b'\r'])
}

/// The first line of some bytes, and what is behind its line feed.
fn first_line(bytes: &[u8]) -> (&[u8], &[u8])
    ensures { BeginsWithLine bytes.now result.0.now result.1.now }
{
    match memchr(b'\n', bytes) {
        Some(length) => (&bytes[..length], &bytes[length + 1..]),
        None => (bytes, &bytes[bytes.len()..]),
    }
}

/// Why a text that is no JSON isn't read.
fn no_json(alloc: Global, number: u64, text: &str) -> JoinStop
    requires { tree_of text.now ≡ None }
    ensures { StopsLine number text.now result }
{
    let mut scratch = Scratch::new(alloc);
    match fault_in(text, &mut scratch) {
        Ok(index) => JoinStop::Line(number, Place::Byte(index)),
        Err(_) => JoinStop::Memory,
    }
}

/// Tests that the text of a line is JSON in which no object has a key twice.
fn test_text(alloc: Global, number: u64, text: &str) -> Result<(), JoinStop>
    ensures { MatchResult result (λ _. IsJson text.now) (StopsLine number text.now) }
{
    let mut scratch = Scratch::new(alloc);
    match Value::parse_strict(alloc, text, &mut scratch) {
        Ok(_tree) => Ok(()),
        Err(error) => match error {
            json::Error::OutOfMemory => Err(JoinStop::Memory),
            json::Error::DuplicateKey => Err(JoinStop::Line(number, Place::RepeatedKey)),
            _ => Err(no_json(alloc, number, text)),
        },
    }
}

/// Appends the text of a line to those of others.
fn push_text(text: &str, number: u64, joined: &mut Joined) -> Result<(), JoinStop>
    ensures text { OnOk result ((string_bytes joined.new.text ≡ string_bytes joined.old.text
        ++ (comma_before (length joined.old.lines.items) ++ text.now))
        × (joined.new.lines.items ≡ joined.old.lines.items ++ number ∷ [])) }
    ensures memory { IfErr result (λ stop. stop ≡ Memory) }
{
    if !joined.lines.is_empty() {
        joined.text.push_str(",")?;
    }
    joined.text.push_str(text)?;
    joined.lines.push(number)?;
    Ok(())
}

/// Appends a line to others, if it isn't empty.
fn take_line(alloc: Global, line: &[u8], number: u64, joined: &mut Joined) -> Result<(), JoinStop>
    ensures { TakesLine number line.now joined.old joined.new result }
{
    if is_blank(line) {
        return Ok(());
    }
    match str::from_utf8(line) {
        Ok(text) => {
            test_text(alloc, number, text)?;
            push_text(text, number, joined)
        }
        Err(error) => Err(JoinStop::Line(number, Place::Byte(error.valid_up_to()))),
    }
}

/// The array of no line yet.
fn begun(alloc: Global) -> Result<Joined, JoinStop>
    ensures empty { IfOk result (λ joined. (string_bytes joined.text ≡ 91 ∷ []) × (joined.lines.items ≡ [])) }
    ensures memory { IfErr result (λ stop. stop ≡ Memory) }
{
    Ok(Joined {
        text: String::from_str(alloc, "[")?,
        lines: Vec::new(alloc),
    })
}

/// The lines of an input as an array of JSON, each of which is an item; an empty one is skipped, and counts.
///
/// `Line` for the first that is no JSON, or in which an object has a key twice; `Memory` if a growth was refused.
pub fn join_lines(alloc: Global, input: &[u8]) -> Result<Joined, JoinStop>
    ensures { JoinsAll input.now result }
{
    let mut joined = begun(alloc)?;
    let mut rest = input;
    for before in 0..u64::MAX {
        if rest.is_empty() {
            joined.text.push_str("]")?;
            return Ok(joined);
        }
        let (line, behind) = first_line(rest);
        take_line(alloc, line, before + 1, &mut joined)?;
        rest = behind;
    }
    Err(JoinStop::Memory)
}
