//! The answers to the requests of a list, each on a line of its own.

ghost use Rattle.std.specs.Prelude.{IfOk, OnOk};
ghost use Rattle.bson_base.specs.Device.{CanRefuse};
ghost use Rattle.fallowtime_commands.specs.ListLines.{AreLines, PutsLine, SendsAll};

use crate::Answer;
use crate::session::answers::told_line;
use crate::session::serving::send;
use bson_base::Sink;
use bson_store::ErrorKind;
use fallowtime_requests::Layout;
use std::alloc::{AllocError, Global};

/// Appends the line of an answer to those of others.
fn push_line(alloc: Global, answer: &Answer, lines: &mut Vec<u8>) -> Result<(), AllocError>
    ensures { OnOk result (PutsLine answer.now lines.old.items lines.new.items) }
{
    let line = told_line(alloc, None, Layout::Each, answer)?;
    lines.extend_from_slice(line.as_slice())
}

/// The lines of answers, one after the other.
fn lines_of(alloc: Global, answers: &[Answer]) -> Result<Vec<u8>, AllocError>
    ensures { IfOk result (λ lines. AreLines answers.now lines.items) }
{
    let mut lines = Vec::new(alloc);
    for answer in answers {
        push_line(alloc, answer, &mut lines)?;
    }
    Ok(lines)
}

/// Writes the answers to the requests of a list, each on a line of its own, as a session answers the request by itself.
///
/// `Memory` if there is none for the lines, and then nothing is written; `Writer` if the write failed.
pub fn send_answers<O: Sink>(
    alloc: Global,
    answers: &[Answer],
    output: &mut O,
) -> Result<(), ErrorKind>
    requires { CanRefuse (O.tally output.old) }
    ensures { SendsAll result answers.now (O.tally output.old) (O.tally output.new) }
{
    match lines_of(alloc, answers) {
        Ok(lines) => send(output, lines.as_slice()),
        Err(_) => Err(ErrorKind::Memory),
    }
}
