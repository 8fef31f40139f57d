//! The answer to a message.

ghost use Rattle.std.specs.Prelude.{◌≡◌, IfOk};
ghost use Rattle.std.specs.Option.{ForSome};
ghost use Rattle.bson_base.specs.Value.{Members};
ghost use Rattle.bson_bytes.specs.Encode.{encode};
ghost use Rattle.bson_bytes.specs.Spells.{Means};
ghost use Rattle.bson_message.specs.Replies.{msg_bytes, reply_bytes};
ghost use Rattle.bson_model.specs.View.{content};
ghost use Rattle.bson_raw.specs.View.{bytes_of};
ghost use Rattle.bson_store.specs.Calls.{store_state};
ghost use Rattle.fallowtime_messages.specs.Waiting.{waiting};
ghost use Rattle.fallowtime_messages.specs.Answers as told;
ghost use Rattle.fallowtime_messages.specs.Done.{DoesAll};
ghost use Rattle.fallowtime_messages.specs.Outcomes.{Comes, TellsFault, told_by};
ghost use Rattle.fallowtime_messages.specs.Serving.{ComesOfMsg, ComesOfQuery, IsMsgOf, Serves, ServesMsg, damaged};

use crate::answers::{no_room, refused};
use crate::carrying::carry;
use crate::cursors::Cursors;
use bson_bytes::encode_document;
use bson_frame::ErrorKind;
use bson_message::{Body, OpMsg, OpQuery, Sequence, message_of, old_reply, reply};
use bson_model::Document;
use bson_raw::RawDocument;
use bson_store::Store;
use cli_convert::IdMaker;
use fallowtime_statements::plans::{hello, plan};
use fallowtime_statements::{Code, Fault, Name, first_key, name_of};
use sqlite::Alter;
use std::alloc::{AllocError, Global};

/// The answer to a message that is damaged.
fn damaged(alloc: Global) -> Result<Document, AllocError>
    ensures { IfOk result (λ d. content d ≡ damaged) }
{
    let why = String::from_str(alloc, "the message is damaged")?;
    refused(alloc, why, Code::ProtocolError)
}

/// The document that tells why nothing was done.
fn tell_fault(alloc: Global, fault: Fault) -> Result<Document, AllocError>
    ensures { TellsFault fault (told_by result) }
{
    match fault {
        Fault::Refused(code, why) => refused(alloc, why, code),
        Fault::Memory => no_room(alloc),
    }
}

/// Does what a command asks, with these sequences beside it, and tells what came of it.
///
/// After an error there is no room to tell it, and some of it may have been done.
fn answer_command<S: Alter + Drop>(
    alloc: Global,
    store: &mut Store<S>,
    cursors: &mut Cursors,
    maker: &mut IdMaker,
    database: &str,
    command: &Document,
    lists: &[Sequence<'_>],
) -> Result<Document, AllocError>
    ensures { DoesAll (Comes database.now (content command.now) lists.now (waiting cursors.old) (waiting cursors.new) (told_by result)) (store_state S.Store store.old) (store_state S.Store store.new) }
{
    match plan(alloc, maker, database, command, lists) {
        Ok(plan) => carry(alloc, store, cursors, plan),
        Err(fault) => tell_fault(alloc, fault),
    }
}

/// The document that a message's bytes mean, if they mean one.
fn command_of(alloc: Global, body: RawDocument<'_>) -> Result<Option<Document>, AllocError>
    ensures { IfOk result (λ found. ForSome found (λ d. Means (bytes_of body.entry) (content d))) }
{
    match body.to_document(alloc) {
        Ok(document) => Ok(Some(document)),
        Err(error) => match error.kind {
            ErrorKind::OutOfMemory => Err(AllocError),
            _ => Ok(None),
        },
    }
}

/// Does what an OP_MSG asks, and tells what came of it.
///
/// After an error there is no room to tell it, and some of it may have been done.
fn answer_msg<S: Alter + Drop>(
    alloc: Global,
    store: &mut Store<S>,
    cursors: &mut Cursors,
    maker: &mut IdMaker,
    database: &str,
    message: OpMsg<'_>,
) -> Result<Document, AllocError>
    ensures { DoesAll (ComesOfMsg database.now message.entry (waiting cursors.old) (waiting cursors.new) (told_by result)) (store_state S.Store store.old) (store_state S.Store store.new) }
{
    let lists = message.sequences(alloc)?;
    match command_of(alloc, message.body)? {
        Some(command) => {
            answer_command(
                alloc,
                store,
                cursors,
                maker,
                database,
                &command,
                lists.as_slice(),
            )
        }
        None => damaged(alloc),
    }
}

/// The answer to an OP_QUERY.
fn answer_query(alloc: Global, query: OpQuery<'_>) -> Result<Document, AllocError>
    ensures { ComesOfQuery query.entry (told_by result) }
{
    let Some(command) = command_of(alloc, query.query)? else {
        return damaged(alloc);
    };
    let Some(key) = first_key(&command) else {
        return damaged(alloc);
    };
    if name_of(key) == Some(Name::Hello) {
        hello(alloc)
    } else {
        damaged(alloc)
    }
}

/// The bytes of an OP_MSG that answers a message by a document. None if there is no memory for it, or it would be longer
/// than a message may be.
fn reply_by(alloc: Global, number: u32, request: u32, answer: &Document) -> Option<Vec<u8>>
    ensures { ForSome result (λ out. out.items ≡ msg_bytes number request (encode (content answer.now))) }
{
    let bytes = encode_document(alloc, answer).ok()?;
    let document = RawDocument::from_bytes(bytes.as_slice()).ok()?;
    reply(alloc, number, request, document).ok()
}

/// The same of an OP_REPLY.
fn old_reply_by(alloc: Global, number: u32, request: u32, answer: &Document) -> Option<Vec<u8>>
    ensures { ForSome result (λ out. out.items ≡ reply_bytes number request (encode (content answer.now))) }
{
    let bytes = encode_document(alloc, answer).ok()?;
    let document = RawDocument::from_bytes(bytes.as_slice()).ok()?;
    old_reply(alloc, number, request, document).ok()
}

/// The bytes of an OP_MSG that says that there is no room for the answer.
fn spare(alloc: Global, number: u32, request: u32) -> Result<Vec<u8>, AllocError>
    ensures { IfOk result (λ out. out.items ≡ msg_bytes number request (encode told.no_room)) }
{
    let answer = no_room(alloc)?;
    match reply_by(alloc, number, request, &answer) {
        Some(bytes) => Ok(bytes),
        None => Err(AllocError),
    }
}

/// The bytes of an OP_MSG of an answer; others if there is no room for it.
fn finished(
    alloc: Global,
    number: u32,
    request: u32,
    answer: Result<Document, AllocError>,
    spare: Vec<u8>,
) -> Vec<u8>
    requires { spare.items ≡ msg_bytes number request (encode told.no_room) }
    ensures { IsMsgOf number request (told_by answer) result.items }
{
    match answer {
        Ok(document) => match reply_by(alloc, number, request, &document) {
            Some(bytes) => bytes,
            None => spare,
        },
        Err(_) => spare,
    }
}

/// Does what an OP_MSG asks, and returns the bytes of its answer, unless it wants none. The answer for no room is made
/// first, so that it is there if something was done.
fn serve_msg<S: Alter + Drop>(
    alloc: Global,
    store: &mut Store<S>,
    cursors: &mut Cursors,
    maker: &mut IdMaker,
    database: &str,
    number: u32,
    request: u32,
    message: OpMsg<'_>,
) -> Result<Option<Vec<u8>>, AllocError>
    ensures { DoesAll (ServesMsg database.now number request message.entry (waiting cursors.old) (waiting cursors.new) result) (store_state S.Store store.old) (store_state S.Store store.new) }
{
    let spare = spare(alloc, number, request)?;
    let answer = answer_msg(alloc, store, cursors, maker, database, message);
    if !message.is_answered() {
        return Ok(None);
    }
    Ok(Some(finished(alloc, number, request, answer, spare)))
}

/// The bytes of the answer to an OP_QUERY.
fn serve_query(
    alloc: Global,
    number: u32,
    request: u32,
    query: OpQuery<'_>,
) -> Result<Vec<u8>, AllocError>
    ensures { IfOk result (λ out. (answer : Members) × (out.items ≡ reply_bytes number request (encode answer)) × ComesOfQuery query.entry answer) }
{
    let answer = answer_query(alloc, query)?;
    match old_reply_by(alloc, number, request, &answer) {
        Some(bytes) => Ok(bytes),
        None => Err(AllocError),
    }
}

/// The bytes of the answer to a message that is damaged.
fn serve_damaged(alloc: Global, number: u32, request: u32) -> Result<Vec<u8>, AllocError>
    ensures { IfOk result (λ out. out.items ≡ msg_bytes number request (encode damaged)) }
{
    let answer = damaged(alloc)?;
    match reply_by(alloc, number, request, &answer) {
        Some(bytes) => Ok(bytes),
        None => Err(AllocError),
    }
}

/// Does what a message asks of the store, which is the database of this name, and returns the bytes of its answer, which
/// has this number: an OP_MSG, or an OP_REPLY to an OP_QUERY. None for a message that wants no answer ("moreToCome"), and
/// for bytes that aren't the one message that they declare. What is asked and can't be read is refused in the answer, and
/// nothing is done then; so is a message that is damaged. The maker makes the `_id` of a document that is put in without
/// one as none answered. What was found and not told yet waits in `cursors`.
///
/// Fails if there is no memory even for the answer that says so; then nothing was done.
pub fn serve<S: Alter + Drop>(
    alloc: Global,
    store: &mut Store<S>,
    cursors: &mut Cursors,
    maker: &mut IdMaker,
    database: &str,
    number: u32,
    bytes: &[u8],
) -> Result<Option<Vec<u8>>, AllocError>
    ensures { DoesAll (Serves database.now number bytes.now (waiting cursors.old) (waiting cursors.new) result) (store_state S.Store store.old) (store_state S.Store store.new) }
{
    let Ok((header, said)) = message_of(bytes) else {
        return Ok(None);
    };
    match said {
        Ok(Body::Msg(message)) => {
            serve_msg(
                alloc,
                store,
                cursors,
                maker,
                database,
                number,
                header.request,
                message,
            )
        }
        Ok(Body::Query(query)) => { Ok(Some(serve_query(alloc, number, header.request, query)?)) }
        Err(_) => Ok(Some(serve_damaged(alloc, number, header.request)?)),
    }
}
