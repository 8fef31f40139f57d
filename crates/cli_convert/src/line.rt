//! A line of bytes.

use std::alloc::Global;

/// How many bytes a line may have: 64 MiB.
pub const MOST: usize = 67108864;

/// What is kept of a line.
#[derive(Clone, Copy, Debug, PartialEq, Eq)]
pub enum Kept {
    /// All of it.
    Whole,
    /// Not all of it, as it has more than `MOST` bytes.
    TooLong,
    /// Not all of it, as there was no memory.
    Memory,
}

/// A line without its line feed.
#[derive(Drop)]
pub struct Line {
    /// Its bytes, or some of them if not all of it is kept.
    pub bytes: Vec<u8>,
    /// What is kept of it.
    pub kept: Kept,
}

impl Line {
    ghost use Rattle.std.specs.Prelude.{List, [], ℕ, ◌++◌};
    ghost use Rattle.cli_convert.specs.Line.{Keeps};

    /// A line without a byte.
    pub fn new(alloc: Global) -> Line
        ensures { Keeps result [] }
    {
        Line {
            bytes: Vec::new(alloc),
            kept: Kept::Whole,
        }
    }

    /// Makes it a line without a byte again.
    pub(crate) fn clear(&mut self)
        ensures { Keeps self.new [] }
    {
        self.bytes.clear();
        self.kept = Kept::Whole;
    }

    /// Appends a piece.
    pub(crate) fn take(&mut self, piece: &[u8])
        ensures { (text : List ℕ) → Keeps self.old text → Keeps self.new (text ++ piece.now) }
    {
        if self.kept != Kept::Whole {
            return;
        }
        if piece.len() > MOST.saturating_sub(self.bytes.len()) {
            self.kept = Kept::TooLong;
        } else if self.bytes.extend_from_slice(piece).is_err() {
            self.kept = Kept::Memory;
        }
    }
}
