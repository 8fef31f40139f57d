//! A command of the program, from its words to its status.

ghost use Rattle.std.specs.Prelude.{◌≡◌, ◌≤◌, Result};
ghost use Rattle.bson_base.specs.Device.{CanFail, CanRefuse};
ghost use Rattle.serde_json.specs.View.{view as data_of};
ghost use Rattle.store_model.specs.State.{in_json, insert as inserted};
ghost use Rattle.bson_store.specs.Calls.{DoesTree, Relates, store_state};
ghost use Rattle.bson_store.specs.Left.{LeavesTree};
ghost use Rattle.bson_store.specs.Refusals.{as_done, reply_by};
ghost use Rattle.cli_commands.specs.Commands.{Spares};
ghost use Rattle.store_table.specs.Moves.{WasOpen};
ghost use Rattle.cli_commands.specs.Execute.{Executes, Reports, ReportsFailures, ShowsAnswer, SilentUnread, Tells, line_of, streams};
ghost use Rattle.cli_commands.specs.Leaving.{LeavesCall};
ghost use Rattle.cli_commands.specs.Outcome.{HasOutcome};
ghost use Rattle.cli_commands.specs.Requests.{IsRequestOf};
ghost use Rattle.cli_commands.specs.declared.stop.Failure.{Failure as Outcome};

use crate::answer::{Answer, documents, flag, names, nothing, number, tree};
use crate::inputs::load;
use crate::printing::print;
use crate::reads::{dump, export};
use crate::request::{Request, request_of};
use crate::stop::Failure;
use crate::{Words, write_complaint, write_refusal};
use bson_store::{Sink, Source, Store, StoreError};
use serde_json::Value;
use sqlite::Alter;
use std::alloc::Global;

/// Prints what a command returns. Nothing is printed of one that isn't done.
fn print_outcome<O: Sink>(
    alloc: Global,
    outcome: Result<Answer, Failure>,
    output: &mut O,
) -> Result<(), Failure>
    requires { CanRefuse (O.tally output.old) }
    ensures told { Tells outcome result (O.tally output.old).failures
        (O.tally output.new).failures }
    ensures printed { ShowsAnswer outcome result (O.tally output.old) (O.tally output.new) }
    ensures unread { SilentUnread result output.old output.new }
{
    match outcome {
        Ok(answer) => match print(alloc, &answer, output) {
            Ok(()) => Ok(()),
            Err(error) => Err(Failure::Refused(error)),
        },
        Err(stop) => Err(stop),
    }
}

/// Puts a document in. It is separate from `perform`, so that a wrong body is refused in seconds.
fn insert<S: Alter + Drop>(store: &mut Store<S>, name: &str, json: Value) -> Result<(), StoreError>
    ensures moves { Relates S.Store store.old store.new
        (DoesTree name.now (inserted in_json) (data_of json) (reply_by as_done result)) }
    ensures open { WasOpen (store_state S.Store store.old) (store_state S.Store store.new) result }
    ensures crash { LeavesTree name.now (inserted in_json) (data_of json) (reply_by as_done result)
        (store_state S.Store store.old) (store_state S.Store store.new) }
{
    store.insert_json(name, json)
}

/// Does what is requested of the collection of the words, and prints the answer.
fn perform<S: Alter + Drop, I: Source, O: Sink>(
    alloc: Global,
    store: &mut Store<S>,
    words: &Words<'_>,
    request: &mut Request<'_>,
    input: &mut I,
    output: &mut O,
) -> Result<(), Failure>
    requires request { IsRequestOf words.now request.old }
    requires input { CanFail (I.feed input.old) }
    requires output { CanRefuse (O.tally output.old) }
    ensures step { Relates S.Store store.old store.new
        (Executes words.now (streams (I.feed input.old)
        (I.feed input.new) (O.tally output.old) (O.tally output.new)) result) }
    ensures open { WasOpen (store_state S.Store store.old) (store_state S.Store store.new) result }
    ensures crash { LeavesCall (line_of words.now) (streams (I.feed input.old)
        (I.feed input.new) (O.tally output.old) (O.tally output.new)) result (store_state S.Store store.old)
        (store_state S.Store store.new) }
    ensures devices { ReportsFailures words.now.call result (I.feed input.old).failures
        (I.feed input.new).failures (O.tally output.old).failures (O.tally output.new).failures }
    ensures unread { SilentUnread result output.old output.new }
    ensures spared { Spares words.now.call input.old input.new }
{
    let name = words.coll;
    match request {
        Request::Insert(json) => {
            let outcome = nothing(insert(store, name, json.take()));
            print_outcome(alloc, outcome, output)
        }
        Request::Replace(json) => {
            let outcome = nothing(store.replace_json(name, json.take()));
            print_outcome(alloc, outcome, output)
        }
        Request::Get(id, mode) => {
            print_outcome(alloc, tree(store.get_json(name, id, *mode)), output)
        }
        Request::Set(id, key, json) => {
            let outcome = nothing(store.set(name, id, key, json.take()));
            print_outcome(alloc, outcome, output)
        }
        Request::Unset(id, key) => print_outcome(alloc, flag(store.unset(name, id, key)), output),
        Request::Remove(id) => print_outcome(alloc, nothing(store.remove(name, id)), output),
        Request::Find(filter) => print_outcome(alloc, documents(store.find(name, filter)), output),
        Request::Count(filter) => print_outcome(alloc, number(store.count(name, filter)), output),
        Request::Import => print_outcome(alloc, number(store.import(name, input)), output),
        Request::Export => export(store, name, output),
        Request::Dump => dump(store, name, output),
        Request::Load => print_outcome(alloc, load(alloc, store, name, input), output),
        Request::Collections => print_outcome(alloc, names(store.collections()), output),
    }
}

/// Does what the words ask for, and prints the answer. The words are read before the store is asked anything.
fn obey<S: Alter + Drop, I: Source, O: Sink>(
    alloc: Global,
    store: &mut Store<S>,
    words: &Words<'_>,
    input: &mut I,
    output: &mut O,
) -> Result<(), Failure>
    requires input { CanFail (I.feed input.old) }
    requires output { CanRefuse (O.tally output.old) }
    ensures step { Relates S.Store store.old store.new
        (Executes words.now (streams (I.feed input.old)
        (I.feed input.new) (O.tally output.old) (O.tally output.new)) result) }
    ensures open { WasOpen (store_state S.Store store.old) (store_state S.Store store.new) result }
    ensures crash { LeavesCall (line_of words.now) (streams (I.feed input.old)
        (I.feed input.new) (O.tally output.old) (O.tally output.new)) result (store_state S.Store store.old)
        (store_state S.Store store.new) }
    ensures devices { ReportsFailures words.now.call result (I.feed input.old).failures
        (I.feed input.new).failures (O.tally output.old).failures (O.tally output.new).failures }
    ensures unread { SilentUnread result output.old output.new }
    ensures spared { Spares words.now.call input.old input.new }
{
    let mut request = request_of(alloc, words)?;
    let told = perform(alloc, store, words, &mut request, input, output);
    discard(request);
    told
}

/// Lets a request go.
fn discard(request: Request) {
    drop(request);
}

/// Does the command that the words ask for on `store`, and returns the program's status. Only the texts of the words
/// are left to read: the file is open.
///
/// With 0 the command was accepted and its answer printed to `output`. With 1 it was refused, or its answer couldn't be
/// printed, and the line `refused: KIND` was written to `faults`. With 2 a text of the words or a line of the input
/// can't be read, and the line that says so was written to `faults`; the store and `output` are as they were. If a
/// write to `faults` fails, nothing more is done.
pub fn execute<S: Alter + Drop, I: Source, O: Sink, F: Sink>(
    alloc: Global,
    store: &mut Store<S>,
    words: &Words<'_>,
    input: &mut I,
    output: &mut O,
    faults: &mut F,
) -> u8
    requires input { CanFail (I.feed input.old) }
    requires output { CanRefuse (O.tally output.old) }
    requires faults { CanRefuse (F.tally faults.old) }
    ensures status { result ≤ 2 }
    ensures silent { result ≡ 0 → faults.new ≡ faults.old }
    ensures unread { result ≡ 2 → output.new ≡ output.old }
    // Only `import` and `load` read the input.
    ensures spared { Spares words.now.call input.old input.new }
    // What was done, and that just this is reported: the refusal of the command's own step, or of a device exactly if that failed.
    // Whatever the disk does, a failed read or write is reported. After an accepted command a crash leaves what it leaves of that;
    // otherwise what it could leave before, or what it leaves of a refused one.
    ensures step { (outcome : Result (Unit {0}) Outcome)
        × Reports outcome result (F.tally faults.old) (F.tally faults.new)
        × HasOutcome words.now (streams (I.feed input.old) (I.feed input.new) (O.tally output.old)
        (O.tally output.new)) outcome (store_state S.Store store.old) (store_state S.Store store.new) }
{
    match obey(alloc, store, words, input, output) {
        Ok(()) => 0,
        Err(Failure::Refused(error)) => {
            let _ = write_refusal(faults, error.kind, error.document);
            1
        }
        Err(Failure::Words(complaint)) => {
            let _ = write_complaint(faults, complaint);
            2
        }
    }
}
