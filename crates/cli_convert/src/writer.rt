//! A writer to a terminal.

ghost use Rattle.std.specs.Prelude.{◌≡◌, ◌∷◌, ◌<◌, ◌≤◌, ◌==◌, ◌&&◌, ℕ, List, [], None, OnOk, OnErr, IfOk, length, not, slice_index, take, true};
ghost use Rattle.std.specs.Io.{WritesAtMost};
ghost use Rattle.std.specs.Io.KnownBytes.{WriteAppends, append_known};
ghost use Rattle.cli_convert.specs.Terminal.{at_terminal};

use crate::waiting::{DELETE, FIRST, Waiting, write_some};
use std::io;
use std::io::Write;

/// How many bytes at the front of a text are given as they are, whatever is behind them.
fn plain_len(text: &[u8]) -> usize
    ensures within { result ≤ length text.now }
    ensures plain { (k : ℕ) → k < result
        → (not (slice_index text.now k == 127) && not (slice_index text.now k == 194)) ≡ true }
{
    for (index, byte) in text.iter().enumerate() {
        if *byte == DELETE || *byte == FIRST {
            return index;
        }
    }
    text.len()
}

/// A writer that gives another one text as a terminal may have it: each character from U+007F to U+009F as JSON has it
/// in a string, `\u007f` to `\u009f`, and all else as it is.
///
/// What was written may end in the midst of a character: a last byte C2 is given with the byte behind it.
#[derive(Drop)]
pub struct TerminalWriter<W> {
    inner: W,
    waiting: Waiting,
    // Whether a byte C2 came last.
    is_begun: bool,
}

impl<W: Write> TerminalWriter<W> {
    ghost use Rattle.cli_convert.specs.Writing.{given_in_the_end};

    /// A writer to which nothing was written.
    pub fn new(inner: W) -> TerminalWriter<W>
        ensures { (rest : List ℕ) → given_in_the_end W.contents result rest
            ≡ append_known (W.contents inner) (at_terminal rest) }
    {
        TerminalWriter {
            inner,
            waiting: Waiting::nothing(),
            is_begun: false,
        }
    }
}

impl<W: Write> Write for TerminalWriter<W> {
    ghost use Rattle.cli_convert.specs.Writing.{Takes, text};

    /// Takes some of the bytes, at least one if there are any. An error is the inner writer's, or says that it took no
    /// byte; then none is taken here, and what it wasn't given yet, it is given by the next call.
    fn write(&mut self, buf: &[u8]) -> io::Result<usize>
        ensures bound { WritesAtMost result buf.now }
        ensures bytes { WriteAppends None None result buf.now }
        ensures ok { IfOk result (λ n. Takes W.contents self.old self.new (take n buf.now)) }
        ensures some { IfOk result (λ n. n ≡ 0 → length buf.now ≡ 0) }
        ensures err { OnErr result (Takes W.contents self.old self.new []) }
    {
        self.waiting.write_to(&mut self.inner)?;
        let plain = if self.is_begun { 0 } else { plain_len(buf) };
        if plain > 0 {
            return write_some(&mut self.inner, &buf[..plain]);
        }
        match buf.first() {
            Some(byte) => {
                self.waiting = Waiting::of(self.is_begun, *byte);
                self.is_begun = *byte == FIRST;
                Ok(1)
            }
            None => Ok(0),
        }
    }

    /// Gives the inner writer all, except for a last byte C2, and flushes it.
    fn flush(&mut self) -> io::Result<()>
        ensures all { OnOk result (text self.new.waiting ≡ []) }
        ensures same { Takes W.contents self.old self.new [] }
    {
        self.waiting.write_to(&mut self.inner)?;
        self.inner.flush()
    }
}
