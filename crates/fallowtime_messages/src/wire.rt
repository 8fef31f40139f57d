//! Messages from a reader, answered on a writer.

ghost use Rattle.std.specs.Prelude.{◌≡◌, ◌%◌, ◌^◌};
ghost use Rattle.bson_base.specs.Device.{CanFail, CanRefuse};
ghost use Rattle.bson_store.specs.Calls.{store_state};
ghost use Rattle.fallowtime_messages.specs.Waiting.{waiting};
ghost use Rattle.fallowtime_messages.specs.Done.{DoesAll};
ghost use Rattle.fallowtime_messages.specs.Exchanges.{Ends, Exchanges, kind_of};

use crate::Cursors;
use bson_base::{Sink, Source};
use bson_message::{ReadFault, next_message};
use bson_store::{ErrorKind, Store};
use cli_convert::{Clock, IdMaker};
use fallowtime_commands::session::send;
use sqlite::Alter;
use std::alloc::Global;

/// Why no message can be taken, as the program reports it.
fn kind_of(fault: ReadFault) -> ErrorKind
    ensures { result ≡ kind_of fault }
{
    match fault {
        ReadFault::Reader => ErrorKind::Reader,
        ReadFault::EndInside => ErrorKind::EndInside,
        ReadFault::BadLength => ErrorKind::BadLength,
        ReadFault::Memory => ErrorKind::Memory,
    }
}

/// The number of the answer to a message before which so many came. It begins anew after 2³² of them.
fn number_behind(turns: u64) -> u32
    ensures { result ≡ turns % 2 ^ 32 }
{
    (turns % (1 << 32)) as u32
}

/// The number of the first find that waits: that of an id, so that it is another one than those of other runs, except by
/// chance. It is under 2⁶², so that as many are left behind it.
fn first_number(maker: &mut IdMaker) -> u64 {
    let [_, _, _, _, a, b, c, d, e, f, g, h] = maker.make().bytes();
    u64::from_be_bytes([a, b, c, d, e, f, g, h]) / 4
}

/// Does what a message asks at the time of the clock, and writes its answer, which has this number.
///
/// `Memory` if there is none for any answer, and then it wasn't done; `Writer` if the write failed.
fn exchange<S: Alter + Drop, C: Clock, O: Sink>(
    alloc: Global,
    store: &mut Store<S>,
    cursors: &mut Cursors,
    clock: &mut C,
    maker: &mut IdMaker,
    database: &str,
    number: u32,
    message: &[u8],
    output: &mut O,
) -> Result<(), ErrorKind>
    requires { CanRefuse (O.tally output.old) }
    ensures { DoesAll (Exchanges database.now number message.now (waiting cursors.old) (waiting cursors.new) result (O.tally output.old)
        (O.tally output.new)) (store_state S.Store store.old) (store_state S.Store store.new) }
{
    maker.set_time(clock.millis());
    match crate::serve(alloc, store, cursors, maker, database, number, message) {
        Ok(Some(answer)) => send(output, answer.as_slice()),
        Ok(None) => Ok(()),
        Err(_) => Err(ErrorKind::Memory),
    }
}

/// Does what the messages of `input` ask of `store`, which is the database of this name, one after the other, and writes
/// the answer to each on `output` before it reads the next, until the input ends. `maker` makes the `_id`s of documents
/// that are put in without one, and the dates that updates ask for, at the time that `clock` tells before each message is
/// answered. What was found and not told yet waits from one message to the next.
///
/// `Reader` if a read failed; `EndInside` if the input ends inside a message; `BadLength` if a message declares a length
/// under 16 or over 48000000 bytes; `Writer` if a write failed; `Memory` if there is none for the bytes of a message, or
/// for any answer to it, and then it wasn't done. After an error nothing more is read.
pub fn serve<S: Alter + Drop, C: Clock, I: Source, O: Sink>(
    alloc: Global,
    store: &mut Store<S>,
    clock: &mut C,
    maker: &mut IdMaker,
    database: &str,
    input: &mut I,
    output: &mut O,
) -> Result<(), ErrorKind>
    requires input { CanFail (I.feed input.old) }
    requires output { CanRefuse (O.tally output.old) }
    ensures { DoesAll (Ends database.now result (I.feed input.old) (I.feed input.new)
        (O.tally output.old) (O.tally output.new)) (store_state S.Store store.old) (store_state S.Store store.new) }
{
    let mut cursors = Cursors::new(alloc, first_number(maker));
    let mut message = Vec::new(alloc);
    for turn in 0..u64::MAX {
        match next_message(input, &mut message) {
            Ok(true) => exchange(
                alloc,
                store,
                &mut cursors,
                clock,
                maker,
                database,
                number_behind(turn),
                message.as_slice(),
                output,
            )?,
            Ok(false) => return Ok(()),
            Err(fault) => return Err(kind_of(fault)),
        }
    }
    Err(ErrorKind::Reader)
}
