//! What a program prints on.

ghost use Rattle.std.specs.Prelude.{[], OnErr, OnOk, IfOk, take};
ghost use Rattle.std.specs.Io.{WritesAtMost};
ghost use Rattle.std.specs.Io.KnownBytes.{Keeps, WriteAppends};

use crate::writer::TerminalWriter;
use std::io;
use std::io::Write;

/// What a program prints on.
#[derive(Drop)]
pub enum Output<W> {
    /// A terminal, by a writer that says what it is given.
    Terminal(TerminalWriter<W>),
    /// Anything else, which is given the bytes as they are.
    Other(W),
}

impl<W: Write> Output<W> {
    ghost use Rattle.cli_convert.specs.Writing.{Begins};

    /// Over a writer, which is a terminal or isn't.
    pub fn new(inner: W, is_terminal: bool) -> Output<W>
        ensures { Begins W.contents result is_terminal (W.contents inner) }
    {
        if is_terminal {
            Output::Terminal(TerminalWriter::new(inner))
        } else {
            Output::Other(inner)
        }
    }
}

impl<W: Write> Write for Output<W> {
    ghost use Rattle.cli_convert.specs.Writing.{IsGiven, OutputTakes, output_contents};

    ghost contents = { output_contents W.contents };

    /// As the writer of that does.
    fn write(&mut self, buf: &[u8]) -> io::Result<usize>
        ensures bound { WritesAtMost result buf.now }
        ensures bytes { WriteAppends (output_contents W.contents self.old) (output_contents W.contents self.new) result buf.now }
        ensures ok { IfOk result (λ n. OutputTakes W.contents self.old self.new (take n buf.now)) }
        ensures err { OnErr result (OutputTakes W.contents self.old self.new []) }
    {
        match self {
            Output::Terminal(writer) => writer.write(buf),
            Output::Other(writer) => writer.write(buf),
        }
    }

    /// As the writer of that does.
    fn flush(&mut self) -> io::Result<()>
        ensures bytes { Keeps (output_contents W.contents self.old) (output_contents W.contents self.new) }
        ensures all { OnOk result (IsGiven self.new) }
        ensures same { OutputTakes W.contents self.old self.new [] }
    {
        match self {
            Output::Terminal(writer) => writer.flush(),
            Output::Other(writer) => writer.flush(),
        }
    }
}
