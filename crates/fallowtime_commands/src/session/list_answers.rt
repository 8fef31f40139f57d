//! The line that answers a list of requests.

ghost use Rattle.std.specs.Prelude.{◌≡◌, ◌++◌, OnOk, Some, None, codes};
ghost use Rattle.fallowtime_commands.specs.Answers.{refusal, words};
ghost use Rattle.fallowtime_commands.specs.ListAnswers.{MakesStop, PutsAnswer, PutsAnswers, ShowsAll, TellsAll, at_request, list_refusal, words_at};
ghost use Rattle.fallowtime_commands.specs.Objects.{IsWritable, Makes, MakesLine, id_tree};
ghost use Rattle.fallowtime_requests.specs.Reports.{at_text};

use crate::session::answers::told_line;
use crate::session::bodies::push;
use crate::session::lists::ListStop;
use crate::session::objects::{begin, end, put_number};
use crate::session::{ListError, Reason};
use crate::{Answer, update_name};
use bson_json::parts::put_text;
use fallowtime_requests::{Layout, Unread};
use json::Value;
use std::alloc::{AllocError, Global};

/// Appends the text of an answer to the line, after a comma if there are others before it: what its own line would be,
/// without the line feed.
fn push_answer(
    alloc: Global,
    index: usize,
    answer: &Answer,
    line: &mut Vec<u8>,
) -> Result<(), AllocError>
    ensures { OnOk result (PutsAnswer index answer.now line.old.items line.new.items) }
{
    let mut own = told_line(alloc, None, Layout::Each, answer)?;
    let end = own.len().saturating_sub(1);
    own.truncate(end);
    push(line, index, own.as_slice())
}

/// Appends the texts of answers to the line, with commas between them.
fn push_answers(alloc: Global, answers: &[Answer], line: &mut Vec<u8>) -> Result<(), AllocError>
    ensures { OnOk result (PutsAnswers answers.now line.old.items line.new.items) }
{
    for (index, answer) in answers.iter().enumerate() {
        push_answer(alloc, index, answer, line)?;
    }
    Ok(())
}

/// The line of the answers to all requests.
fn answers_line(
    alloc: Global,
    id: Option<&Value<'_>>,
    answers: &[Answer],
) -> Result<Vec<u8>, AllocError>
    requires { IsWritable id }
    ensures { Makes (TellsAll (id_tree id.entry) answers.now) result }
{
    let mut out = begin(alloc, id)?;
    out.key("all")?;
    let mut line = out.into_inner();
    line.push(b'[')?;
    push_answers(alloc, answers, &mut line)?;
    line.extend_from_slice(b"]}\n")?;
    Ok(line)
}

/// The line of a refusal, of the request at a position, or of the list as a whole.
fn refused_line(
    alloc: Global,
    id: Option<&Value<'_>>,
    request: Option<u64>,
    kind: &str,
    document: Option<u64>,
) -> Result<Vec<u8>, AllocError>
    requires { IsWritable id }
    ensures { MakesLine (id_tree id.entry) (at_request request (refusal kind.now document None))
        result }
{
    let mut out = begin(alloc, id)?;
    put_text(&mut out, "error", kind)?;
    if let Some(request) = request {
        put_number(&mut out, "request", request)?;
    }
    if let Some(document) = document {
        put_number(&mut out, "document", document)?;
    }
    end(out)
}

/// The line for what is no request, as is seen at this place of it.
fn place_line(
    alloc: Global,
    id: Option<&Value<'_>>,
    request: Option<u64>,
    place: &str,
) -> Result<Vec<u8>, AllocError>
    requires { IsWritable id }
    ensures { MakesLine (id_tree id.entry) (at_request request (words place.now)) result }
{
    let mut out = begin(alloc, id)?;
    put_text(&mut out, "error", "Usage")?;
    if let Some(request) = request {
        put_number(&mut out, "request", request)?;
    }
    put_text(&mut out, "at", place)?;
    end(out)
}

/// The line for a list of which a request can't be read.
fn unread_line(
    alloc: Global,
    id: Option<&Value<'_>>,
    request: u64,
    unread: &Unread,
) -> Result<Vec<u8>, AllocError>
    requires { IsWritable id }
    ensures { MakesLine (id_tree id.entry) (words_at request (at_text unread.now)) result }
{
    let place = unread.place(alloc)?;
    place_line(alloc, id, Some(request), place.as_str())
}

/// The line of why a list isn't read; none if memory ran out.
pub(crate) fn stop_line(
    alloc: Global,
    id: Option<&Value<'_>>,
    stop: &ListStop,
) -> Result<Vec<u8>, AllocError>
    requires { IsWritable id }
    ensures { MakesStop (id_tree id.entry) stop.now result }
{
    match stop {
        ListStop::Request(request, unread) => unread_line(alloc, id, *request, unread),
        ListStop::Memory => Err(AllocError),
    }
}

/// The line of why nothing of a list is done.
fn error_line(
    alloc: Global,
    id: Option<&Value<'_>>,
    error: &ListError,
) -> Result<Vec<u8>, AllocError>
    requires { IsWritable id }
    ensures { MakesLine (id_tree id.entry) (list_refusal error.now) result }
{
    match &error.reason {
        Reason::Refused(refused) => refused_line(
            alloc,
            id,
            error.request,
            refused.kind.name(),
            refused.document,
        ),
        Reason::NotUpdated(at, update) => {
            refused_line(alloc, id, error.request, update_name(*update), Some(*at))
        }
        Reason::NotUpserted(update) => {
            refused_line(alloc, id, error.request, update_name(*update), None)
        }
        Reason::NotInLists => place_line(alloc, id, error.request, "command"),
    }
}

/// The line that answers a list.
pub(crate) fn list_line(
    alloc: Global,
    id: Option<&Value<'_>>,
    outcome: &Result<Vec<Answer>, ListError>,
) -> Result<Vec<u8>, AllocError>
    requires { IsWritable id }
    ensures { Makes (ShowsAll (id_tree id.entry) outcome.now) result }
{
    match outcome {
        Ok(answers) => answers_line(alloc, id, answers.as_slice()),
        Err(error) => error_line(alloc, id, error),
    }
}
