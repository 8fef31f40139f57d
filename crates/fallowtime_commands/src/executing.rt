//! A request over a store, and what is printed of it.

ghost use Rattle.std.specs.Prelude.{◌≡◌, string_bytes, MatchResult, option_map};
ghost use Rattle.bson_base.specs.Device.{CanRefuse};
ghost use Rattle.bson_model.specs.View.{view};
ghost use Rattle.bson_store.specs.Calls.{store_state};
ghost use Rattle.fallowtime_commands.specs.Executing.{Executes};
ghost use Rattle.fallowtime_commands.specs.Performing.{IsStoppedEarly, inserted_id};
ghost use Rattle.fallowtime_commands.specs.Printing.{IsInsertText, IsOutcomeText, Tells};

use crate::answer::Answer;
use crate::ids::id_of_refusal;
use crate::performing::perform;
use crate::printing::{Form, mode_of, print};
use crate::refusal::Refusal;
use bson_base::Sink;
use bson_json::write_value;
use bson_store::{Bson, ErrorKind, Store, StoreError};
use fallowtime_requests::{Otherwise, Request};
use sqlite::Alter;
use std::alloc::Global;
use store_documents::Name;

/// A refusal of a request, with the `_id` that it is about, if it is about one.
fn refusal_with(alloc: Global, request: &Request<'_>, error: StoreError) -> Refusal
    ensures { result.error ≡ error }
{
    Refusal {
        id: id_of_refusal(alloc, request, &error),
        ..Refusal::from(error)
    }
}

/// The `_id` of the document that is to go in, or that may.
fn inserted_id<'a>(request: &'a Request<'_>) -> Option<&'a Bson>
    ensures { option_map (λ id. view id.now) result ≡ inserted_id request.now }
{
    match request {
        Request::Insert(id, _) => Some(id),
        Request::Upsert(_, _, _, Otherwise::Insert(id, _)) => Some(id),
        _ => None,
    }
}

/// The text of the `_id` of a document that is to go into the collection `name`, or that may, made before it goes in,
/// so that it is there to be printed whatever memory there is then. Empty for another request.
pub fn insert_text(
    alloc: Global,
    name: &str,
    request: &Request<'_>,
    form: Form,
) -> Result<String, ErrorKind>
    ensures { MatchResult result (λ text. IsInsertText form request.now (string_bytes text))
        (IsStoppedEarly name.now request.now) }
{
    let mut text = String::new(alloc);
    if let Some(id) = inserted_id(request) {
        if Name::new(name).is_none() {
            return Err(ErrorKind::BadName);
        }
        if write_value(alloc, id, mode_of(form), &mut text).is_err() {
            return Err(ErrorKind::Memory);
        }
    }
    Ok(text)
}

/// Prints what a request returned, with the text `id` of the `_id` of what went in. Nothing is printed of one that was
/// refused.
pub fn print_outcome<O: Sink>(
    alloc: Global,
    request: &Request<'_>,
    outcome: Result<Answer, StoreError>,
    id: &str,
    form: Form,
    output: &mut O,
) -> Result<(), Refusal>
    requires sink { CanRefuse (O.tally output.old) }
    requires text { IsOutcomeText form outcome id.now }
    ensures { Tells form outcome (O.tally output.old) (O.tally output.new) result }
{
    match outcome {
        Ok(answer) => print(alloc, &answer, id, form, output),
        Err(error) => Err(refusal_with(alloc, request, error)),
    }
}

/// Does what is requested of the collection `name`, and prints what that returns.
///
/// Refused as `perform` is, and then nothing is printed; or as `print` is, and then what was requested is done: after a
/// change by Writer alone.
pub fn execute<S: Alter + Drop, O: Sink>(
    alloc: Global,
    store: &mut Store<S>,
    name: &str,
    request: &mut Request<'_>,
    form: Form,
    output: &mut O,
) -> Result<(), Refusal>
    requires { CanRefuse (O.tally output.old) }
    ensures { Executes name.now request.old form (O.tally output.old) (O.tally output.new) result
        (store_state S.Store store.old) (store_state S.Store store.new) }
{
    let id = match insert_text(alloc, name, request, form) {
        Ok(text) => text,
        Err(kind) => return Err(Refusal::from(kind)),
    };
    let outcome = perform(alloc, store, name, request);
    print_outcome(alloc, request, outcome, id.as_str(), form, output)
}
