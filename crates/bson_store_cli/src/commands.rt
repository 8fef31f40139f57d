//! The program `bson_store`: commands over a database file, and its back-up.

ghost use Rattle.std.specs.Prelude.{◌≡◌, IfOk, None, Result, map, string_bytes};
ghost use Rattle.sqlite.specs.Files.{file_state};
ghost use Rattle.sqlite.specs.Held.{state};
ghost use Rattle.bson_base.specs.Device.{CanFail, CanRefuse, TakesText};
ghost use Rattle.store_model.specs.State.{State as Lists};
ghost use Rattle.bson_store.specs.Left.{FindsState, Holds, HoldsOnce};
ghost use Rattle.cli_commands.specs.Execute.{Reports, streams};
ghost use Rattle.cli_commands.specs.Outcome.{HasOutcome};
ghost use Rattle.cli_commands.specs.declared.stop.Failure.{Failure as Failed};
ghost use Rattle.cli_commands.specs.Lines.{complaint_line, refusal_line};
ghost use Rattle.cli_commands.specs.declared.lines.UsageError.TheVariants.{Usage};
ghost use Rattle.bson_store_cli.specs.Over.{OpensFor};
ghost use Rattle.bson_store_cli.specs.Serving.{AreNoLine, AskNothing, IsSoundCopy, ReportsSome};
ghost use Rattle.store_table.specs.Schema.{HasStoreTable};

use bson_store::{ErrorKind, Sink, Source, Store};
use cli_commands::{Words, execute, read_words};
use cli_files::{Loaded, close, copy, misuse, open_within, read, refuse, refuse_file};
use fallowtime_front::{copy_of, patience_of};
use sqlite::{Alter, Connection, FileStore};
use std::alloc::Global;

/// For how many seconds the files of a back-up are read again, if another process writes them and the words don't say.
const BACK_UP_PATIENCE: u64 = 5;

/// Does the command of the words over a connection, and gives it back with the program's status. It is over any store,
/// since what closing one of files does would otherwise be gone through at each of its ends.
fn over<S: Alter + Drop, I: Source, O: Sink, F: Sink>(
    alloc: Global,
    connection: Connection<S>,
    words: &Words<'_>,
    input: &mut I,
    output: &mut O,
    faults: &mut F,
) -> (u8, Connection<S>)
    requires input { CanFail (I.feed input.old) }
    requires output { CanRefuse (O.tally output.old) }
    requires faults { CanRefuse (F.tally faults.old) }
    // The outcome of the command is reported. A store that is refused is asked nothing: that is reported, and nothing is read or
    // printed.
    ensures done { OpensFor S.Store connection result.1 (λ opened. (outcome : Result (Unit {0}) Failed)
        × Reports outcome result.0 (F.tally faults.old) (F.tally faults.new)
        × HasOutcome words.now (streams (I.feed input.old) (I.feed input.new) (O.tally output.old)
        (O.tally output.new)) outcome (state S.Store opened) (state S.Store result.1))
        (λ e. (result.0 ≡ 1) × TakesText (F.tally faults.old) (F.tally faults.new)
        (refusal_line e.kind None) × (input.new ≡ input.old) × (output.new ≡ output.old)) }
    ensures told { ReportsSome (F.tally faults.old) (F.tally faults.new) result.0 }
    ensures silent { result.0 ≡ 0 → faults.new ≡ faults.old }
{
    match Store::open(alloc, connection) {
        Ok(mut store) => {
            let status = execute(alloc, &mut store, words, input, output, faults);
            (status, store.close())
        }
        Err((error, connection)) => (refuse(faults, error.kind), connection),
    }
}

/// Opens the store of a connection, and gives the connection back: what a back-up is made of is a sound store. If the
/// database held a state, under current or older keys, what is committed then holds it under current keys, beside the
/// other tables as they were. So do the bytes that `write_whole` writes of it, and an open over these finds that state
/// by the clause `finds` of `Store::open`.
pub(crate) fn judged(
    alloc: Global,
    connection: Connection<FileStore<Loaded>>,
) -> Result<Connection<FileStore<Loaded>>, ErrorKind>
    ensures holds { (x : Lists) → FindsState HoldsOnce (file_state connection) x
        → IfOk result (λ c. Holds (file_state c).now (file_state c).committed.trees x) }
    // And it does so beside the other tables that the file had.
    ensures beside { (x : Lists) → FindsState HoldsOnce (file_state connection) x
        → IfOk result (λ c. Holds (file_state connection).now (file_state c).committed.trees x) }
    // A store that isn't sound isn't copied: what is committed of the store's own table are rows of documents.
    ensures sound { HasStoreTable (file_state connection).now.schema
        → IfOk result (λ c. IsSoundCopy (file_state connection) (file_state c)) }
{
    match Store::open(alloc, connection) {
        Ok(store) => Ok(store.close()),
        Err((error, connection)) => {
            drop(connection);
            Err(error.kind)
        }
    }
}

/// `FILE backup PATH`: writes what the files hold at this moment into a new file, if that is a store. FILE and its log
/// stay as they are.
fn back_up<F: Sink>(rt: &HostRuntime, file: &str, path: &str, seconds: u64, faults: &mut F) -> u8
    requires { CanRefuse (F.tally faults.old) }
    ensures told { ReportsSome (F.tally faults.old) (F.tally faults.new) result }
    ensures silent { result ≡ 0 → faults.new ≡ faults.old }
{
    let connection = match read(rt, file, seconds) {
        Ok(connection) => connection,
        Err(error) => return refuse_file(rt, faults, error),
    };
    let connection = match judged(rt.alloc(), connection) {
        Ok(connection) => connection,
        Err(kind) => return refuse(faults, kind),
    };
    match copy(rt, connection, file, path) {
        Ok(()) => 0,
        Err(error) => refuse_file(rt, faults, error),
    }
}

/// Opens the file that the words name, does their command, closes the file, and returns the program's status. A file
/// that isn't there is made.
fn command<I: Source, O: Sink, F: Sink>(
    rt: &HostRuntime,
    words: &Words<'_>,
    seconds: u64,
    input: &mut I,
    output: &mut O,
    faults: &mut F,
) -> u8
    requires input { CanFail (I.feed input.old) }
    requires output { CanRefuse (O.tally output.old) }
    requires faults { CanRefuse (F.tally faults.old) }
    ensures told { ReportsSome (F.tally faults.old) (F.tally faults.new) result }
    ensures silent { result ≡ 0 → faults.new ≡ faults.old }
{
    match open_within(rt, words.file, seconds) {
        Ok(connection) => {
            let (status, connection) = over(rt.alloc(), connection, words, input, output, faults);
            close(connection);
            status
        }
        Err(error) => refuse_file(rt, faults, error),
    }
}

/// Does what the words behind those on waiting ask for, as `serve` does.
fn serve_words<I: Source, O: Sink, F: Sink>(
    rt: &HostRuntime,
    words: &[String],
    patience: Option<u64>,
    input: &mut I,
    output: &mut O,
    faults: &mut F,
) -> u8
    requires input { CanFail (I.feed input.old) }
    requires output { CanRefuse (O.tally output.old) }
    requires faults { CanRefuse (F.tally faults.old) }
    ensures told { ReportsSome (F.tally faults.old) (F.tally faults.new) result }
    ensures silent { result ≡ 0 → faults.new ≡ faults.old }
    ensures misuse { AskNothing (map string_bytes words.now) → (result ≡ 2)
        × TakesText (F.tally faults.old) (F.tally faults.new) (complaint_line Usage)
        × (input.new ≡ input.old) × (output.new ≡ output.old) }
{
    if let Some((file, path)) = copy_of(words) {
        return back_up(rt, file, path, patience.unwrap_or(BACK_UP_PATIENCE), faults);
    }
    match read_words(words) {
        Some(words) => command(rt, &words, patience.unwrap_or(0), input, output, faults),
        None => misuse(faults),
    }
}

/// Reads the words, does what they ask for, and returns the program's status. Words that are no line of the table are
/// reported before any file is opened.
pub fn serve<I: Source, O: Sink, F: Sink>(
    rt: &HostRuntime,
    words: &[String],
    input: &mut I,
    output: &mut O,
    faults: &mut F,
) -> u8
    requires input { CanFail (I.feed input.old) }
    requires output { CanRefuse (O.tally output.old) }
    requires faults { CanRefuse (F.tally faults.old) }
    // Status 0, and nothing is reported; or why the command failed, with the status of that.
    ensures told { ReportsSome (F.tally faults.old) (F.tally faults.new) result }
    ensures silent { result ≡ 0 → faults.new ≡ faults.old }
    // Words that ask for nothing touch nothing, and the usage is reported.
    ensures misuse { AreNoLine (map string_bytes words.now) → (result ≡ 2)
        × TakesText (F.tally faults.old) (F.tally faults.new) (complaint_line Usage)
        × (input.new ≡ input.old) × (output.new ≡ output.old) }
{
    match patience_of(words) {
        Some((seconds, words)) => serve_words(rt, words, Some(seconds), input, output, faults),
        None => serve_words(rt, words, None, input, output, faults),
    }
}
