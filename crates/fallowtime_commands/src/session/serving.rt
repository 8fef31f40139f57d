//! The session, over any devices.

ghost use Rattle.std.specs.Prelude.{◌≡◌, ◌↔◌, ℕ, IsTrue, List};
ghost use Rattle.bson_base.specs.Device.{CanFail, CanRefuse};
ghost use Rattle.store_table.specs.Moves.{Moves};
ghost use Rattle.bson_store.specs.Calls.{Relates, store_state};
ghost use Rattle.cli_convert.specs.Line.{Keeps};
ghost use Rattle.fallowtime_commands.specs.Acts.{DoesOne};
ghost use Rattle.fallowtime_commands.specs.Leaving.{LeavesTurns};
ghost use Rattle.fallowtime_commands.specs.Sessions.{Ends, Holds, Sends, Turn};
ghost use Rattle.fallowtime_commands.specs.Turns.{AnswersLine, IsEmptyLine};
ghost use Rattle.cli_convert.specs.Made.{at_time};
ghost use Rattle.cli_convert.specs.declared.line.Kept.TheVariants.{Whole};

use crate::session::joining::is_blank;
use crate::session::turns::answer_of;
use bson_base::{Sink, Source, write_all};
use bson_store::{ErrorKind, Store};
use cli_convert::{Clock, IdMaker, Kept, Line, Lines, Next};
use json::Scratch;
use sqlite::Alter;
use std::alloc::Global;

/// The answer if there is no memory for another one.
const OUT_OF_MEMORY: &[u8; 19] = b"{\"error\":\"Memory\"}\n";

/// Writes an answer. `Writer` if the write failed, which may have written a beginning of it.
pub fn send<O: Sink>(output: &mut O, line: &[u8]) -> Result<(), ErrorKind>
    requires { CanRefuse (O.tally output.old) }
    ensures { Sends result line.now (O.tally output.old) (O.tally output.new) }
{
    match write_all(output, line) {
        Ok(()) => Ok(()),
        Err(_) => Err(ErrorKind::Writer),
    }
}

/// Whether a line is empty: it has no byte, or a carriage return alone.
fn is_empty(line: &Line) -> bool
    ensures { IsTrue result ↔ ((line.now.kept ≡ Whole) × IsEmptyLine line.now.bytes.items) }
{
    line.kept == Kept::Whole && is_blank(line.bytes.as_slice())
}

/// Does what a line asks for, and writes its answer. An empty line is passed over. `Writer` if the write failed.
fn reply<S: Alter + Drop, O: Sink>(
    alloc: Global,
    store: &mut Store<S>,
    maker: &mut IdMaker,
    scratch: &mut Scratch,
    line: &Line,
    output: &mut O,
) -> Result<(), ErrorKind>
    requires { CanRefuse (O.tally output.old) }
    ensures { (answer : List ℕ) × Sends result answer (O.tally output.old) (O.tally output.new)
        × ((text : List ℕ) → Keeps line.now text → DoesOne
        (AnswersLine maker.old maker.new text answer) (store_state S.Store store.old)
        (store_state S.Store store.new)) }
{
    if line.kept == Kept::Memory {
        return send(output, OUT_OF_MEMORY);
    }
    if is_empty(line) {
        return Ok(());
    }
    match answer_of(alloc, store, maker, scratch, line) {
        Ok(answer) => send(output, answer.as_slice()),
        Err(_) => send(output, OUT_OF_MEMORY),
    }
}

/// Does what a line asks for at the time of the clock, and writes its answer, as `reply` does.
fn reply_in_time<S: Alter + Drop, C: Clock, O: Sink>(
    alloc: Global,
    store: &mut Store<S>,
    clock: &mut C,
    maker: &mut IdMaker,
    scratch: &mut Scratch,
    line: &Line,
    output: &mut O,
) -> Result<(), ErrorKind>
    requires { CanRefuse (O.tally output.old) }
    ensures { (time : ℕ) × (answer : List ℕ) × Sends result answer (O.tally output.old) (O.tally output.new)
        × ((text : List ℕ) → Keeps line.now text → DoesOne
        (AnswersLine (at_time time maker.old) maker.new text answer) (store_state S.Store store.old)
        (store_state S.Store store.new)) }
{
    maker.set_time(clock.millis());
    reply(alloc, store, maker, scratch, line, output)
}

/// Does what the lines of `input` ask for on `store`, one after the other, and answers each on a line of `output`,
/// until the input ends. An empty line is passed over. `maker` makes the `_id`s of documents that come without one, and
/// the dates that updates ask for, each at the time that `clock` tells before the line is answered.
///
/// `Reader` if a read failed, or a line or the input has 2⁶⁴ - 2 bytes or more; `Writer` if a write failed, after which
/// nothing more is done; `Memory` if there is none for the session itself, and then no line is read.
pub fn serve<S: Alter + Drop, C: Clock, I: Source, O: Sink>(
    alloc: Global,
    store: &mut Store<S>,
    clock: &mut C,
    maker: &mut IdMaker,
    input: &mut I,
    output: &mut O,
) -> Result<(), ErrorKind>
    requires input { CanFail (I.feed input.old) }
    requires output { CanRefuse (O.tally output.old) }
    ensures step { (turns : List Turn) × Ends result turns (I.feed input.old) (I.feed input.new)
        (O.tally output.old) (O.tally output.new) × Relates S.Store store.old store.new
        (Holds maker.old maker.new turns) }
    // What a crash leaves now is left along the lines, from what it might leave before: after a request that was accepted what that
    // leaves; and after a fault that shut the connection none is accepted.
    ensures crash { (turns : List Turn) × Ends result turns (I.feed input.old) (I.feed input.new)
        (O.tally output.old) (O.tally output.new) × Moves (store_state S.Store store.old)
        (store_state S.Store store.new) (LeavesTurns maker.old maker.new turns
        (store_state S.Store store.old) (store_state S.Store store.new)) }
{
    let Ok(mut lines) = Lines::new(alloc) else {
        return Err(ErrorKind::Memory);
    };
    let mut line = Line::new(alloc);
    let mut scratch = Scratch::new(alloc);
    for _turn in 0..u64::MAX {
        match lines.read(input, &mut line) {
            Ok(Next::Whole) => {
                reply_in_time(alloc, store, clock, maker, &mut scratch, &line, output)?
            }
            Ok(Next::Last) => {
                return reply_in_time(alloc, store, clock, maker, &mut scratch, &line, output)
            }
            Ok(Next::End) => return Ok(()),
            Err(_) => return Err(ErrorKind::Reader),
        }
    }
    Err(ErrorKind::Reader)
}
