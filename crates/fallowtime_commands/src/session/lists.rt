//! What a list of requests asks for.

ghost use Rattle.std.specs.Prelude.{◌≡◌, ◌++◌};
ghost use Rattle.json.specs.Value.{items_view, value_view as data_of};
ghost use Rattle.fallowtime_commands.specs.Lists.{ReadsAll, ReadsMore, ReadsOne, stop_at};

use crate::session::questions::question_in;
use cli_convert::IdMaker;
use fallowtime_requests::{Question, Stop, Unread};
use json::Value;
use std::alloc::Global;

/// Why the requests of a list ask for nothing.
#[derive(Drop)]
pub enum ListStop {
    /// The request at this position, counted from 0, is no request, or one of its arguments can't be read; those before
    /// it can.
    Request(u64, Unread),
    /// Out of memory, or more than 1000 levels are nested in each other.
    Memory,
}

/// Appends the question of a request to those of others.
fn push_question<'w>(
    alloc: Global,
    request: &Value<'w>,
    maker: &mut IdMaker,
    questions: &mut Vec<Question<'w>>,
) -> Result<(), Stop>
    ensures { ReadsOne maker.old maker.new (data_of request.now) questions.old.items
        questions.new.items result }
{
    let question = question_in(alloc, request, maker)?;
    questions.push(question)?;
    Ok(())
}

/// Why a list isn't read of which the request at this position can't be.
fn stop_at(position: u64, stop: Stop) -> ListStop
    ensures { result ≡ stop_at position stop }
{
    match stop {
        Stop::Words(unread) => ListStop::Request(position, unread),
        Stop::Memory => ListStop::Memory,
    }
}

/// Appends the questions of requests to others.
fn push_questions<'w>(
    alloc: Global,
    requests: &[Value<'w>],
    maker: &mut IdMaker,
    questions: &mut Vec<Question<'w>>,
) -> Result<(), ListStop>
    ensures { ReadsMore maker.old maker.new (items_view requests.now) questions.old.items
        questions.new.items result }
{
    for (index, request) in requests.iter().enumerate() {
        if let Err(stop) = push_question(alloc, request, maker, questions) {
            return Err(stop_at(index as u64, stop));
        }
    }
    Ok(())
}

/// Lets questions go. What a function that is generic over the database lets go is far dearer to prove.
pub(crate) fn discard_all(questions: Vec<Question<'_>>) {
    drop(questions);
}

/// The questions of the requests of a list, in their order: each is an array of a command's name and its arguments, as a
/// line of a session has it, and none is a list itself. A document without an `_id` gets one of the maker, and so on
/// from request to request.
///
/// `Request` for the first that can't be read, and why; `Memory` if a growth was refused.
pub fn questions_in<'w>(
    alloc: Global,
    requests: &[Value<'w>],
    maker: &mut IdMaker,
) -> Result<Vec<Question<'w>>, ListStop>
    ensures { ReadsAll maker.old maker.new (items_view requests.now) result }
{
    let mut questions = Vec::new(alloc);
    match push_questions(alloc, requests, maker, &mut questions) {
        Ok(()) => Ok(questions),
        Err(stop) => {
            discard_all(questions);
            Err(stop)
        }
    }
}
