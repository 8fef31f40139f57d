//! The program without words, over any devices.

ghost use Rattle.std.specs.Prelude.{◌≡◌, ◌⊎◌, [], IfOk, IfErr};
ghost use Rattle.bson_base.specs.Device.{CanFail, CanRefuse};
ghost use Rattle.sqlite.specs.Steps.{over_memory};
ghost use Rattle.store_model.specs.declared.error.ErrorKind.TheVariants.{Memory, Database};
ghost use Rattle.store_table.specs.Moves.{Stands};
ghost use Rattle.bson_store.specs.Calls.{store_state};
ghost use Rattle.store_model.specs.Refusal.{kind_of_reading};
ghost use Rattle.cli_commands.specs.Pipe.{KeepsInput, RefusesInput, Exchanges, Pipes};

use crate::write_refusal;
use bson_base::{ReadAllError, read_all};
use bson_store::{ErrorKind, Sink, Source, Store};
use sqlite::{Connection, MemStore};
use std::alloc::Global;

/// The collection that the document is kept in.
const NAME: &str = "c";

/// A new store in memory, without a document.
fn new_store(alloc: Global) -> Result<Store<MemStore>, ErrorKind>
    ensures empty { IfOk result (λ store. Stands (store_state over_memory store) []) }
    ensures denied { IfErr result (λ kind. (kind ≡ Memory) ⊎ (kind ≡ Database)) }
{
    let Ok(connection) = Connection::open_in_memory(alloc) else {
        return Err(ErrorKind::Memory);
    };
    match Store::open(alloc, connection) {
        Ok(store) => Ok(store),
        Err((error, connection)) => {
            drop(connection);
            Err(error.kind)
        }
    }
}

/// The kind that is reported if the input isn't read to its end.
fn kind_of_reading(error: ReadAllError) -> ErrorKind
    ensures { result ≡ kind_of_reading error }
{
    match error {
        ReadAllError::Reader => ErrorKind::Reader,
        ReadAllError::Memory => ErrorKind::Memory,
    }
}

/// Keeps the document of the input in a new store, which is there before the first byte is read.
fn keep<I: Source>(alloc: Global, input: &mut I) -> Result<Store<MemStore>, ErrorKind>
    requires { CanFail (I.feed input.old) }
    ensures ok { IfOk result (λ store. KeepsInput (I.feed input.old)
        (I.feed input.new) (store_state over_memory store)) }
    ensures err { IfErr result (λ kind. RefusesInput kind (I.feed input.old)
        (I.feed input.new)) }
{
    let mut store = new_store(alloc)?;
    let bytes = match read_all(alloc, input) {
        Ok(bytes) => bytes,
        Err(error) => return Err(kind_of_reading(error)),
    };
    match store.insert_raw(NAME, &bytes) {
        Ok(()) => Ok(store),
        Err(error) => Err(error.kind),
    }
}

/// Keeps the document of the input, and writes what the store exports.
fn exchange<I: Source, O: Sink>(
    alloc: Global,
    input: &mut I,
    output: &mut O,
) -> Result<(), ErrorKind>
    requires input { CanFail (I.feed input.old) }
    requires output { CanRefuse (O.tally output.old) }
    ensures { Exchanges (I.feed input.old)
        (I.feed input.new)
        (O.tally output.old)
        (O.tally output.new) result }
{
    let mut store = keep(alloc, input)?;
    match store.export(NAME, output) {
        Ok(()) => Ok(()),
        Err(error) => Err(error.kind),
    }
}

/// Opens a new store in memory, reads `input` to its end, keeps the document that its bytes mean, and writes what the
/// store exports to `output`. Returns the status of the program: 0, or 1 if this is refused, and then the line
/// `refused: KIND` is written to `faults`. If that fails, nothing more is done.
///
/// The kinds are Reader, if a read failed; EndInside, BadLength, NotTerminated, Faulty and TooDeep of the bytes; NoId
/// and TooLong of the document; Writer, if a write failed or took nothing; and Memory and Database, but never instead
/// of a refusal of bytes that were read.
pub fn pipe<I: Source, O: Sink, F: Sink>(
    alloc: Global,
    input: &mut I,
    output: &mut O,
    faults: &mut F,
) -> u8
    requires input { CanFail (I.feed input.old) }
    requires output { CanRefuse (O.tally output.old) }
    requires faults { CanRefuse (F.tally faults.old) }
    ensures { Pipes (record {
      input = I.feed input.old;
      output = O.tally output.old;
      faults = F.tally faults.old;
    })
        (record {
          input = I.feed input.new;
          output = O.tally output.new;
          faults = F.tally faults.new;
        }) result }
{
    match exchange(alloc, input, output) {
        Ok(()) => 0,
        Err(kind) => {
            let _ = write_refusal(faults, kind, None);
            1
        }
    }
}
