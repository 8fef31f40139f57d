//! `fallowtime FILE apply`: the requests of the input, a line each, done as one list.

ghost use Rattle.std.specs.Prelude.{◌≡◌, Err, unwrap_or};
ghost use Rattle.std.specs.List.{slice_get};
ghost use Rattle.sqlite.specs.Held.{state};
ghost use Rattle.bson_base.specs.Device.{CanFail, CanRefuse};
ghost use Rattle.bson_store.specs.Calls.{store_state};
ghost use Rattle.fallowtime_commands.specs.Reports.{plain};
ghost use Rattle.fallowtime_front.specs.declared.ending.Ended.TheVariants.{Refused};
ghost use Rattle.bson_store_cli.specs.Applying.{Applies, Finishes, end_of_list};
ghost use Rattle.bson_store_cli.specs.Over.{OpensFor};
ghost use Rattle.store_model.specs.Refusal.{refusal};

use crate::clock::maker_of;
use crate::fallowtime::PATIENCE;
use bson_base::{ReadAllError, read_all};
use bson_store::{ErrorKind, Sink, Source, Store, StoreError};
use cli_files::{close, open_within};
use fallowtime_commands::session::{
    JoinStop, Joined, ListError, ListStop, Place, Reason, join_lines, perform_all, questions_in,
    send_answers,
};
use fallowtime_commands::{Answer, Refusal};
use fallowtime_front::{Ended, ended_of};
use fallowtime_requests::{Question, Unread, items_of};
use fallowtime_words::Words;
use json::{Scratch, Value};
use sqlite::{Alter, Connection};
use std::alloc::Global;

/// An end by a refusal without further details.
fn refused(kind: ErrorKind) -> Ended
    ensures { result ≡ Refused (plain (refusal kind)) }
{
    Ended::Refused(Refusal::from(kind))
}

/// The line of the request at a position; 0 if there is none.
fn line_of(lines: &[u64], position: u64) -> u64
    ensures { result ≡ unwrap_or (slice_get lines.now position) 0 }
{
    lines.get(position as usize).copied().unwrap_or(0)
}

/// How the refusal of a list ends the program, whose requests are these lines.
fn end_of_list(error: ListError, lines: &[u64]) -> Result<(), Ended>
    ensures { result ≡ end_of_list lines.now error }
{
    let position = error.request;
    match error.reason {
        Reason::Refused(own) => {
            let placed = StoreError {
                kind: own.kind,
                document: position,
            };
            ended_of(Err(Refusal::from(placed)), lines)
        }
        Reason::NotUpdated(_, update) | Reason::NotUpserted(update) => {
            let mut refusal = Refusal::from(StoreError {
                kind: ErrorKind::BadKey,
                document: position,
            });
            refusal.update = Some(update);
            ended_of(Err(refusal), lines)
        }
        Reason::NotInLists => Err(Ended::Line(
            line_of(lines, position.unwrap_or(0)),
            Place::Request(Unread::Command),
        )),
    }
}

/// Prints the answers of a list that is done, or ends by its refusal.
fn finish<O: Sink>(
    alloc: Global,
    outcome: Result<Vec<Answer>, ListError>,
    lines: &[u64],
    output: &mut O,
) -> Result<(), Ended>
    requires { CanRefuse (O.tally output.old) }
    ensures { Finishes lines.now outcome (O.tally output.old) (O.tally output.new) result }
{
    match outcome {
        Ok(answers) => match send_answers(alloc, answers.as_slice(), output) {
            Ok(()) => Ok(()),
            Err(kind) => Err(refused(kind)),
        },
        Err(error) => end_of_list(error, lines),
    }
}

/// Does what questions ask over an open store, as one list.
fn apply_in<S: Alter + Drop, O: Sink>(
    alloc: Global,
    store: &mut Store<S>,
    questions: &[Question<'_>],
    lines: &[u64],
    output: &mut O,
) -> Result<(), Ended>
    requires { CanRefuse (O.tally output.old) }
    ensures { Applies questions.now lines.now (O.tally output.old) (O.tally output.new) result
        (store_state S.Store store.old) (store_state S.Store store.new) }
{
    let outcome = perform_all(alloc, store, questions);
    finish(alloc, outcome, lines, output)
}

/// Does it over a connection, which it gives back. It is over any store, for the reason that `over` is.
fn apply_over<S: Alter + Drop, O: Sink>(
    alloc: Global,
    connection: Connection<S>,
    questions: &[Question<'_>],
    lines: &[u64],
    output: &mut O,
) -> (Result<(), Ended>, Connection<S>)
    requires { CanRefuse (O.tally output.old) }
    // A store that is refused is asked nothing, and nothing is printed.
    ensures { OpensFor S.Store connection result.1 (λ opened. Applies questions.now lines.now
        (O.tally output.old) (O.tally output.new) result.0 (state S.Store opened)
        (state S.Store result.1)) (λ e. (result.0 ≡ Err (Refused (plain e)))
        × (output.new ≡ output.old)) }
{
    match Store::open(alloc, connection) {
        Ok(mut store) => {
            let ended = apply_in(alloc, &mut store, questions, lines, output);
            (ended, store.close())
        }
        Err((error, connection)) => (Err(Ended::Refused(Refusal::from(error))), connection),
    }
}

/// Does what questions ask over the file of the words, as one list.
fn apply_questions<O: Sink>(
    rt: &HostRuntime,
    words: &Words<'_>,
    questions: &[Question<'_>],
    lines: &[u64],
    output: &mut O,
) -> Result<(), Ended>
    requires { CanRefuse (O.tally output.old) }
{
    let seconds = words.options.seconds.unwrap_or(PATIENCE);
    match open_within(rt, words.file, seconds) {
        Ok(connection) => {
            let (ended, connection) = apply_over(rt.alloc(), connection, questions, lines, output);
            close(connection);
            ended
        }
        Err(error) => Err(Ended::File(error)),
    }
}

/// Does what requests ask over the file of the words, as one list.
fn apply_requests<O: Sink>(
    rt: &HostRuntime,
    words: &Words<'_>,
    requests: &[Value<'_>],
    lines: &[u64],
    output: &mut O,
) -> Result<(), Ended>
    requires { CanRefuse (O.tally output.old) }
{
    let mut maker = maker_of(rt)?;
    match questions_in(rt.alloc(), requests, &mut maker) {
        Ok(questions) => { apply_questions(rt, words, questions.as_slice(), lines, output) }
        Err(ListStop::Request(position, unread)) => Err(Ended::Line(
            line_of(lines, position),
            Place::Request(unread),
        )),
        Err(ListStop::Memory) => Err(refused(ErrorKind::Memory)),
    }
}

/// The lines of the input, to its end, as an array of requests.
fn requests_in<I: Source>(alloc: Global, input: &mut I) -> Result<Joined, Ended>
    requires { CanFail (I.feed input.old) }
{
    let bytes = match read_all(alloc, input) {
        Ok(bytes) => bytes,
        Err(ReadAllError::Reader) => return Err(refused(ErrorKind::Reader)),
        Err(ReadAllError::Memory) => return Err(refused(ErrorKind::Memory)),
    };
    match join_lines(alloc, bytes.as_slice()) {
        Ok(joined) => Ok(joined),
        Err(JoinStop::Line(number, place)) => Err(Ended::Line(number, place)),
        Err(JoinStop::Memory) => Err(refused(ErrorKind::Memory)),
    }
}

/// Does the requests of the input as one list, over the file of the words, and prints their answers.
pub fn apply<I: Source, O: Sink>(
    rt: &HostRuntime,
    words: &Words<'_>,
    input: &mut I,
    output: &mut O,
) -> Result<(), Ended>
    requires input { CanFail (I.feed input.old) }
    requires output { CanRefuse (O.tally output.old) }
{
    let joined = requests_in(rt.alloc(), input)?;
    let mut scratch = Scratch::new(rt.alloc());
    // Each line is JSON, so if the array of them isn't read, memory ran out, or it is nested too deep.
    let Ok(tree) = Value::parse_strict(rt.alloc(), joined.text.as_str(), &mut scratch) else {
        return Err(refused(ErrorKind::Memory));
    };
    match items_of(&tree) {
        Some(requests) => { apply_requests(rt, words, requests, joined.lines.as_slice(), output) }
        None => Err(Ended::Words(Unread::Arguments)),
    }
}
