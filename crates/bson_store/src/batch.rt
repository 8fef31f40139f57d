//! Lists of commands.

ghost use Rattle.std.specs.Prelude.{◌≡◌, IfOk, OnErr};
ghost use Rattle.store_table.specs.Moves.{Moves};
ghost use Rattle.bson_store.specs.Calls.{store_state, Relates};
ghost use Rattle.bson_store.specs.Questions.{as_list, as_names};
ghost use Rattle.bson_store.specs.Refusals.{reply_by, as_done, as_flag, as_bytes, as_json, as_json_list, as_number};
ghost use Rattle.store_model.specs.Reading.{ReadsStream};
ghost use Rattle.store_model.specs.State.{export, on};
ghost use Rattle.bson_store.specs.Left.{Leaves, LeavesTheEnd, LeavesAsLists, LeavesCommand, LeavesMany};
ghost use Rattle.bson_store.specs.Runs.{Exported, Imported, IsLent, Obeys, AnswersAsLists, AnswersThroughTables, EndsOpen, WasOpenFor, reply_of};

use crate::command::{Command, Reply};
use crate::store::Store;
use bson_model::{SliceSource, VecSink};
use serde_json::Value;
use sqlite::Alter;
use std::alloc::AllocError;
use store_model::{ErrorKind, StoreError};

/// The reply to a write that returns nothing.
fn done(outcome: Result<(), StoreError>) -> Reply
    ensures { reply_of result ≡ reply_by as_done outcome }
{
    match outcome {
        Ok(()) => Reply::Done,
        Err(error) => Reply::Refused(error),
    }
}

/// The reply to a call that says whether a key was there.
fn flag(outcome: Result<bool, StoreError>) -> Reply
    ensures { reply_of result ≡ reply_by as_flag outcome }
{
    match outcome {
        Ok(flag) => Reply::Flag(flag),
        Err(error) => Reply::Refused(error),
    }
}

/// The reply to a call that returns one written document.
fn bytes_reply(outcome: Result<Vec<u8>, StoreError>) -> Reply
    ensures { reply_of result ≡ reply_by as_bytes outcome }
{
    match outcome {
        Ok(bytes) => Reply::Bytes(bytes),
        Err(error) => Reply::Refused(error),
    }
}

/// The reply to a call that returns one document as Extended JSON.
fn json(outcome: Result<Value, StoreError>) -> Reply
    ensures { reply_of result ≡ reply_by as_json outcome }
{
    match outcome {
        Ok(json) => Reply::Json(json),
        Err(error) => Reply::Refused(error),
    }
}

/// The reply to a call that returns a number of documents.
fn counted(outcome: Result<u64, StoreError>) -> Reply
    ensures { reply_of result ≡ reply_by as_number outcome }
{
    match outcome {
        Ok(count) => Reply::Count(count),
        Err(error) => Reply::Refused(error),
    }
}

/// The reply to a call that returns written documents, each by itself.
fn list(outcome: Result<Vec<Vec<u8>>, StoreError>) -> Reply
    ensures { reply_of result ≡ reply_by as_list outcome }
{
    match outcome {
        Ok(bodies) => Reply::BytesList(bodies),
        Err(error) => Reply::Refused(error),
    }
}

/// The reply to a call that returns names of collections.
fn names(outcome: Result<Vec<String>, StoreError>) -> Reply
    ensures { reply_of result ≡ reply_by as_names outcome }
{
    match outcome {
        Ok(names) => Reply::Names(names),
        Err(error) => Reply::Refused(error),
    }
}

/// The reply to a call that returns documents as Extended JSON, one after the other.
fn json_list(outcome: Result<Vec<Value>, StoreError>) -> Reply
    ensures { reply_of result ≡ reply_by as_json_list outcome }
{
    match outcome {
        Ok(trees) => Reply::JsonList(trees),
        Err(error) => Reply::Refused(error),
    }
}

/// The written documents of a collection, in memory.
fn exported<S: Alter + Drop>(store: &mut Store<S>, name: &str) -> Reply
    ensures moves { Relates S.Store store.old store.new (Exported name.now result) }
    ensures open { WasOpenFor result (store_state S.Store store.old)
        (store_state S.Store store.new) }
    ensures crash { Leaves (store_state S.Store store.old) (store_state S.Store store.new)
        (on name.now export) (reply_of result) }
{
    let mut sink = VecSink::new(store.allocator());
    match store.export(name, &mut sink) {
        Ok(()) => Reply::Bytes(sink.bytes),
        Err(error) => match error.kind {
            // A sink in memory fails only if out of memory.
            ErrorKind::Writer => Reply::Refused(StoreError::from(ErrorKind::Memory)),
            _ => Reply::Refused(error),
        },
    }
}

/// Documents that go into a collection from memory.
fn imported<S: Alter + Drop>(store: &mut Store<S>, name: &str, bytes: &[u8]) -> Reply
    ensures moves { Relates S.Store store.old store.new (Imported name.now bytes.now result) }
    ensures open { WasOpenFor result (store_state S.Store store.old)
        (store_state S.Store store.new) }
    ensures crash { LeavesMany name.now (ReadsStream bytes.now) (reply_of result)
        (store_state S.Store store.old) (store_state S.Store store.new) }
{
    let mut source = SliceSource::new(bytes);
    counted(store.import(name, &mut source))
}

/// One command. JSON is handed over to the call that keeps it; all else is lent.
fn execute<S: Alter + Drop>(store: &mut Store<S>, command: Command) -> Reply
    ensures moves { Relates S.Store store.old store.new (Obeys command result) }
    ensures open { WasOpenFor result (store_state S.Store store.old)
        (store_state S.Store store.new) }
    ensures crash { LeavesCommand command result (store_state S.Store store.old)
        (store_state S.Store store.new) }
{
    match command {
        Command::InsertJson { name, json } => done(store.insert_json(name.as_str(), json)),
        Command::ReplaceJson { name, json } => done(store.replace_json(name.as_str(), json)),
        Command::Set {
            name,
            id,
            key,
            value,
        } => done(store.set(name.as_str(), &id, key.as_str(), value)),
        Command::LoadJson { name, trees } => counted(store.load_json(name.as_str(), trees)),
        lent => {
            let reply = execute_lent(store, &lent);
            discard(lent);
            reply
        }
    }
}

/// Lets a command go. What a function that is generic over the database lets go is far dearer to prove.
fn discard(command: Command) {
    drop(command);
}

/// One command that hands no JSON over. It is lent, as what it holds would else be dropped anew in each of the cases.
fn execute_lent<S: Alter + Drop>(store: &mut Store<S>, command: &Command) -> Reply
    requires { IsLent command.now }
    ensures moves { Relates S.Store store.old store.new (Obeys command.now result) }
    ensures open { WasOpenFor result (store_state S.Store store.old)
        (store_state S.Store store.new) }
    ensures crash { LeavesCommand command.now result (store_state S.Store store.old)
        (store_state S.Store store.new) }
{
    match command {
        Command::InsertRaw { name, bytes } => done(store.insert_raw(
            name.as_str(),
            bytes.as_slice(),
        )),
        Command::ReplaceRaw { name, bytes } => done(store.replace_raw(
            name.as_str(),
            bytes.as_slice(),
        )),
        Command::Unset { name, id, key } => flag(store.unset(name.as_str(), id, key.as_str())),
        Command::Remove { name, id } => done(store.remove(name.as_str(), id)),
        Command::GetRaw { name, id } => bytes_reply(store.get_raw(name.as_str(), id)),
        Command::GetJson { name, id, mode } => json(store.get_json(name.as_str(), id, *mode)),
        Command::Collections => names(store.collections()),
        Command::Find { name, filter } => list(store.find(name.as_str(), filter)),
        Command::Count { name, filter } => counted(store.count(name.as_str(), filter)),
        Command::Project { name, filter, keys } => {
            list(store.project(name.as_str(), filter, keys.as_slice()))
        }
        Command::Export { name } => exported(store, name.as_str()),
        Command::Import { name, bytes } => imported(store, name.as_str(), bytes.as_slice()),
        Command::DumpJson { name } => json_list(store.dump_json(name.as_str())),
        Command::InsertJson { .. }
        | Command::ReplaceJson { .. }
        | Command::Set { .. }
        | Command::LoadJson { .. } => unreachable!(),
    }
}

/// Does the commands one after the other, and gives a reply for each.
///
/// The only error is out of memory for the replies, before the first command.
pub fn run<S: Alter + Drop>(
    store: &mut Store<S>,
    commands: Vec<Command>,
) -> Result<Vec<Reply>, AllocError>
    // Whatever table the rows showed, the replies and the table that they show now are those of a run through tables.
    ensures tables { IfOk result (λ replies. Relates S.Store store.old store.new
        (AnswersThroughTables commands.items replies.items)) }
    // So they are those of the commands on plain lists of documents, unless memory or places ran out or the database
    // refused.
    ensures lists { IfOk result (λ replies. Relates S.Store store.old store.new
        (AnswersAsLists commands.items replies.items)) }
    // If the last command was accepted the connection is open, so these rows are in its table.
    ensures open { IfOk result (λ replies. EndsOpen replies.items (store_state S.Store store.old)
        (store_state S.Store store.new)) }
    // What a crash leaves now is left along this run, from what it might leave before, with the other tables as they were.
    ensures crash { IfOk result (λ replies. Moves (store_state S.Store store.old)
        (store_state S.Store store.new) (LeavesAsLists commands.items replies.items
        (store_state S.Store store.old) (store_state S.Store store.new))) }
    // So if a crash could leave only one state before, it leaves the state at the end, or what one of the commands
    // makes of that.
    ensures ends { IfOk result (λ replies. Moves (store_state S.Store store.old)
        (store_state S.Store store.new) (LeavesTheEnd commands.items replies.items
        (store_state S.Store store.old) (store_state S.Store store.new))) }
    // If memory ran out for the replies, no command was done.
    ensures err { OnErr result (store.new ≡ store.old) }
{
    let mut replies = Vec::with_capacity(store.allocator(), commands.len())?;
    for command in commands {
        let reply = execute(store, command);
        replies.push(reply)?;
    }
    Ok(replies)
}
