//! An output whose reader has ended, as `head` does before it has read all: a program of a pipe ends then in silence.

ghost use Rattle.std.specs.Prelude.{◌≡◌, ◌⊎◌};

use std::cell::Cell;
use std::io;
use std::io::{ErrorKind, Write};

/// The status of a program that the signal SIGPIPE has ended, as a shell has it: 128 and the signal's number.
const CLOSED: u8 = 141;

/// Whether the reader of the output has ended.
#[derive(Drop)]
pub struct Reader {
    is_gone: Cell<bool>,
}

impl Reader {
    /// One that reads.
    pub fn new() -> Reader {
        Reader {
            is_gone: Cell::new(false),
        }
    }

    /// The status of a program: its own, or, without a reader, that of one whose output nobody reads.
    pub fn status(&self, own: u8) -> u8
        ensures { (result ≡ own) ⊎ (result ≡ 141) }
    {
        if self.is_gone.get() { CLOSED } else { own }
    }
}

/// The output: a writer that notes when its reader has ended.
#[derive(Drop)]
pub struct Watched<'r, W> {
    inner: W,
    reader: &'r Reader,
}

impl<'r, W: Write> Watched<'r, W> {
    /// Output over `inner` that notes in `reader` when the reader of it has gone.
    pub fn new(inner: W, reader: &'r Reader) -> Watched<'r, W> {
        Watched { inner, reader }
    }
}

impl<'r, W: Write> Write for Watched<'r, W> {
    ghost contents = { λ w. W.contents w.inner };

    fn write(&mut self, buf: &[u8]) -> io::Result<usize> {
        let done = self.inner.write(buf);
        if let Err(error) = &done {
            if error.kind() == ErrorKind::BrokenPipe {
                self.reader.is_gone.set(true);
            }
        }
        done
    }

    fn flush(&mut self) -> io::Result<()> {
        self.inner.flush()
    }
}

/// Where refusals are reported: nothing is said once the reader of the output has ended, as that is why.
#[derive(Drop)]
pub struct Hushed<'r, W> {
    inner: W,
    reader: &'r Reader,
}

impl<'r, W: Write> Hushed<'r, W> {
    /// Output over `inner` that takes what is written and writes nothing once `reader` says that the reader has gone.
    pub fn new(inner: W, reader: &'r Reader) -> Hushed<'r, W> {
        Hushed { inner, reader }
    }
}

impl<'r, W: Write> Write for Hushed<'r, W> {
    fn write(&mut self, buf: &[u8]) -> io::Result<usize> {
        if self.reader.is_gone.get() {
            Ok(buf.len())
        } else {
            self.inner.write(buf)
        }
    }

    fn flush(&mut self) -> io::Result<()> {
        self.inner.flush()
    }
}
