//! Lines of bytes, read from a source in large pieces.

ghost use Rattle.std.specs.Prelude.{◌≤◌, ◌<◌, IfOk, vec_len};

use crate::line::Line;
use bson_base::{DeviceFault, Source};
use memchr::memchr;
use std::alloc::{AllocError, Global};

/// How many bytes are read at a time.
const CHUNK: usize = 65536;

/// What was read of a source.
#[derive(Clone, Copy, Debug, PartialEq, Eq)]
pub enum Next {
    /// A line, up to its line feed.
    Whole,
    /// A line with which the source ended.
    Last,
    /// The source had ended, and there is no line.
    End,
}

/// Room for the bytes of one read.
fn room(alloc: Global) -> Result<Vec<u8>, AllocError>
    ensures { IfOk result (λ room. 0 < vec_len room) }
{
    vec![in alloc; 0u8; CHUNK]
}

/// What was read of a source, and not yet handed out as lines.
#[derive(Drop)]
pub struct Lines {
    /// The bytes that were read last, and room for more.
    chunk: Vec<u8>,
    /// The place at which those that weren't handed out begin.
    at: usize,
    /// The place at which they end.
    until: usize,
    ghost order: { at ≤ until },
    ghost within: { until ≤ vec_len chunk },
    ghost room: { 0 < vec_len chunk },
}

impl Lines {
    ghost use Rattle.std.specs.Prelude.{◌≡◌, ◌⊎◌, ◌++◌, ◌↔◌, List, [], ℕ, length, IsTrue, OnErr};
    ghost use Rattle.bson_base.specs.Device.{Counts, Gives, IsExhausted, CanFail};
    ghost use Rattle.cli_convert.specs.Line.{IsUnbroken, Keeps};
    ghost use Rattle.cli_convert.specs.LineReader.{broken, waiting, ReadsNext};

    /// Nothing was read yet.
    pub fn new(alloc: Global) -> Result<Lines, AllocError>
        ensures { IfOk result (λ lines. waiting lines ≡ []) }
    {
        let chunk = room(alloc)?;
        Ok(Lines {
            chunk,
            at: 0,
            until: 0,
        })
    }

    /// Whether there is a byte that wasn't handed out. Reads some if all were.
    fn fill<S: Source>(&mut self, source: &mut S) -> Result<bool, DeviceFault>
        requires { CanFail (S.feed source.old) }
        ensures counts { Counts (S.feed source.old).failures (S.feed source.new).failures result }
        ensures bytes { (given : List ℕ) × Gives (S.feed source.old).supply (S.feed source.new).supply given × (waiting self.new ≡ waiting self.old ++ given) }
        ensures some { IfOk result (λ some. IsTrue some ↔ (0 < length (waiting self.new))) }
        ensures err { OnErr result ((waiting self.old ≡ []) × Gives (S.feed source.old).supply (S.feed source.new).supply []) }
        ensures end { IfOk result (λ some. (IsTrue some → ⊥) → IsExhausted (S.feed source.new).supply) }
    {
        if self.at == self.until {
            self.at = 0;
            self.until = 0;
            self.until = source.read(&mut self.chunk)?;
        }
        Ok(self.at < self.until)
    }

    /// Appends bytes to the line, up to the next line feed, and returns whether that was met.
    fn hand_out(&mut self, line: &mut Line) -> bool
        ensures whole { IsTrue result ⊎ (waiting self.new ≡ []) }
        ensures piece { (piece : List ℕ) × IsUnbroken piece × (waiting self.old ≡ piece ++ (broken result ++ waiting self.new))
            × ((text : List ℕ) → Keeps line.old text → Keeps line.new (text ++ piece)) }
    {
        let rest = &self.chunk[self.at..self.until];
        match memchr(b'\n', rest) {
            Some(length) => {
                line.take(&rest[..length]);
                self.at += length + 1;
                true
            }
            None => {
                line.take(rest);
                self.at = self.until;
                false
            }
        }
    }

    /// Reads the next line. The error is a read that failed, or a line of 2⁶⁴ - 1 bytes or more. A source is read no
    /// further than until it has given a line feed.
    pub fn read<S: Source>(&mut self, source: &mut S, line: &mut Line) -> Result<Next, DeviceFault>
        requires { CanFail (S.feed source.old) }
        ensures { ReadsNext result self.old self.new (S.feed source.old)
            (S.feed source.new) line.new }
    {
        line.clear();
        let mut begun = false;
        for _piece in 0..u64::MAX {
            if !self.fill(source)? {
                return Ok(if begun { Next::Last } else { Next::End });
            }
            begun = true;
            if self.hand_out(line) {
                return Ok(Next::Whole);
            }
        }
        Err(DeviceFault)
    }
}
