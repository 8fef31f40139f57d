//! What `set` and `unset` ask for where a path stands in the place of a key.

ghost use Rattle.std.specs.Prelude.{◌≡◌, ◌∷◌, [], ℕ, List, IfOk, MatchResult};
ghost use Rattle.std.specs.List.{list_any};
ghost use Rattle.fallowtime_requests.specs.Along.{Along, AlongUnless, IsPathOf, IsPlanned, StopsAlong, StopsPath, StopsUnless, is_dot};
ghost use Rattle.fallowtime_requests.specs.declared.request.Request.TheVariants as request;
ghost use Rattle.store_update.specs.Plan.{change_of, path_of, plan_of};
ghost use Rattle.store_question_read.specs.UpdateOutcome.{plans_of};

use crate::reading::Question;
use crate::request::Request;
use crate::stop::{Stop, given_up};
use crate::unread::Unread;
use bson_model::Bson;
use std::alloc::{AllocError, Global};
use store_question_read::{ReadError, path_at};
use store_update::{Operation, Step};

/// Whether a byte is a dot.
fn is_dot(byte: u8) -> bool
    ensures { result ≡ is_dot byte }
{
    matches!(byte, b'.')
}

/// Whether one of the bytes is a dot.
fn has_dot(bytes: &[u8]) -> bool
    ensures { result ≡ list_any is_dot bytes.now }
{
    for byte in bytes {
        if is_dot(*byte) {
            return true;
        }
    }
    false
}

/// The keys of the path of an operator that has no other one. `Words`, of `Update`, if it can't be one.
fn keys_at(alloc: Global, operator: &str, path: &str) -> Result<Vec<String>, Stop>
    ensures { MatchResult result (λ keys. IsPathOf operator.now path.now (path_of keys.items))
        (StopsPath operator.now path.now) }
{
    let none: [Step; 0] = [];
    match path_at(alloc, operator, path, &none) {
        Ok(keys) => Ok(keys),
        Err(ReadError::Memory) => Err(Stop::Memory),
        Err(error) => Err(Stop::Words(Unread::Update(error))),
    }
}

/// A step, by itself.
fn alone(alloc: Global, step: Step) -> Result<Vec<Step>, AllocError>
    ensures { IfOk result (λ steps. plans_of steps ≡ plan_of step ∷ []) }
{
    let mut one = Vec::new(alloc);
    one.push(step)?;
    Ok(one)
}

/// The one step that makes a change at these keys.
fn step_at(alloc: Global, keys: Vec<String>, operation: Operation) -> Result<Vec<Step>, AllocError>
    ensures { (operator text : List ℕ) → IsPathOf operator text (path_of keys.items)
        → IfOk result (λ steps. IsPlanned operator text (change_of operation) (plans_of steps)) }
{
    alone(alloc, Step::At(keys, operation))
}

/// The one step of an operation at the path of its operator.
fn steps_along(
    alloc: Global,
    operator: &str,
    path: &str,
    operation: Operation,
) -> Result<Vec<Step>, Stop>
    ensures { MatchResult result
        (λ steps. IsPlanned operator.now path.now (change_of operation) (plans_of steps))
        (StopsPath operator.now path.now) }
{
    match keys_at(alloc, operator, path) {
        Ok(keys) => Ok(step_at(alloc, keys, operation)?),
        Err(stop) => Err(given_up(operation, stop)),
    }
}

/// To put a value at a path of several keys, or under a key.
fn set_along<'w>(alloc: Global, id: Bson, key: &'w str, value: Bson) -> Result<Request<'w>, Stop>
    ensures { MatchResult result (Along (request.Set id key.entry value)) (StopsAlong (request.Set id key.entry value)) }
{
    if !has_dot(key.as_bytes()) {
        return Ok(Request::Set(id, key, value));
    }
    match steps_along(alloc, "$set", key, Operation::Set(value)) {
        Ok(steps) => Ok(Request::Alter(id, steps, false)),
        Err(stop) => Err(given_up(id, stop)),
    }
}

/// To take away what is at a path of several keys, or under a key.
fn unset_along<'w>(alloc: Global, id: Bson, key: &'w str) -> Result<Request<'w>, Stop>
    ensures { MatchResult result (Along (request.Unset id key.entry)) (StopsAlong (request.Unset id key.entry)) }
{
    if !has_dot(key.as_bytes()) {
        return Ok(Request::Unset(id, key));
    }
    match steps_along(alloc, "$unset", key, Operation::Unset) {
        Ok(steps) => Ok(Request::Alter(id, steps, true)),
        Err(stop) => Err(given_up(id, stop)),
    }
}

/// A request with a path in the place of its key; any other stays.
fn along<'w>(alloc: Global, request: Request<'w>) -> Result<Request<'w>, Stop>
    ensures { MatchResult result (Along request.entry) (StopsAlong request.entry) }
{
    match request {
        Request::Set(id, key, value) => set_along(alloc, id, key, value),
        Request::Unset(id, key) => unset_along(alloc, id, key),
        other => Ok(other),
    }
}

/// What is asked for, where the key of `set` and `unset` is a path if it has a dot; or, if `literal`, as it is.
///
/// `Words`, of `Update`, if the path can't be one of `$set` or `$unset`: one of its keys is empty or begins with `$`, or
/// it is one of the `_id`. `Memory` if a growth was refused.
pub fn along_path<'w>(
    alloc: Global,
    literal: bool,
    question: Question<'w>,
) -> Result<Question<'w>, Stop>
    ensures { MatchResult result
        (λ q. AlongUnless literal question.entry.request q.request × (q.collection ≡ question.entry.collection)
        × (q.layout ≡ question.entry.layout))
        (StopsUnless literal question.entry.request) }
{
    if literal {
        return Ok(question);
    }
    let request = along(alloc, question.request)?;
    Ok(Question {
        collection: question.collection,
        request,
        layout: question.layout,
    })
}
