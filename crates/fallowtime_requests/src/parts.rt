//! What each argument is read as.

ghost use Rattle.std.specs.Prelude.{◌≡◌, ◌⊎◌, ℕ, List, MatchOption, MatchResult};
ghost use Rattle.bson_model.specs.View.{content, view};
ghost use Rattle.store_question.specs.Filters.{path_of as path_view};
ghost use Rattle.store_question.specs.Asked.{Asked};
ghost use Rattle.store_question_read.specs.Outcome.{Asks as StandsFor};
ghost use Rattle.fallowtime_requests.specs.Inputs.{IsAsked, IsDocument, IsId, IsPath, IsText, IsValue, seen};
ghost use Rattle.fallowtime_requests.specs.Reading.{StopsDocument, StopsId, StopsQuery, StopsText, StopsValue};
ghost use Rattle.fallowtime_requests.specs.declared.stop.Stop.TheVariants.{Memory};
ghost use Rattle.fallowtime_requests.specs.declared.unread.Unread.TheVariants as unread;

use crate::input::Input;
use crate::stop::Stop;
use crate::unread::Unread;
use bson_json_read::{Error, Scratch, bson_of_text, document_of_text};
use bson_model::{Bson, Document};
use cli_convert::id_of_word;
use json::Value;
use std::alloc::Global;
use store_question::Question;
use store_question_read::{QueryError, keys_of, query_of, read_query};

/// The text that an argument is, if it is one.
fn text_of<'w>(input: Input<'_, 'w>) -> Option<&'w str>
    ensures text { MatchOption result ((t : List ℕ) → IsText (seen input.entry) t → ⊥) (λ t. IsText (seen input.entry) t.now) }
{
    match input {
        Input::Word(text) => Some(text),
        Input::Tree(Value::String(text)) => Some(*text),
        Input::Tree(_) => None,
    }
}

/// The name of a collection.
pub(crate) fn collection_of<'w>(input: Input<'_, 'w>) -> Result<&'w str, Stop>
    ensures { MatchResult result (λ t. IsText (seen input.entry) t.now)
        (StopsText unread.Collection (seen input.entry)) }
{
    match text_of(input) {
        Some(name) => Ok(name),
        None => Err(Stop::Words(Unread::Collection)),
    }
}

/// A key.
pub(crate) fn key_of<'w>(input: Input<'_, 'w>) -> Result<&'w str, Stop>
    ensures { MatchResult result (λ t. IsText (seen input.entry) t.now) (StopsText unread.Key (seen input.entry)) }
{
    match text_of(input) {
        Some(key) => Ok(key),
        None => Err(Stop::Words(Unread::Key)),
    }
}

/// The keys of a path.
pub(crate) fn path_of(alloc: Global, input: Input<'_, '_>) -> Result<Vec<String>, Stop>
    ensures { MatchResult result (λ p. IsPath (seen input.entry) (path_view p.items))
        (λ s. (s ≡ Memory) ⊎ StopsText unread.Path (seen input.entry) s) }
{
    match text_of(input) {
        Some(path) => match keys_of(alloc, path) {
            Ok(keys) => Ok(keys),
            Err(_) => Err(Stop::Memory),
        },
        None => Err(Stop::Words(Unread::Path)),
    }
}

/// A document.
pub(crate) fn document_of(
    alloc: Global,
    input: Input<'_, '_>,
    scratch: &mut Scratch,
) -> Result<Document, Stop>
    ensures { MatchResult result (λ d. IsDocument (seen input.entry) (content d))
        (StopsDocument (seen input.entry)) }
{
    let read = match input {
        Input::Word(text) => document_of_text(alloc, text, scratch),
        Input::Tree(tree) => bson_json_read::document_of(alloc, tree),
    };
    match read {
        Ok(document) => Ok(document),
        Err(Error::Memory) => Err(Stop::Memory),
        Err(error) => Err(Stop::Words(Unread::Document(error))),
    }
}

/// A value.
pub(crate) fn value_of(
    alloc: Global,
    input: Input<'_, '_>,
    scratch: &mut Scratch,
) -> Result<Bson, Stop>
    ensures { MatchResult result (λ v. IsValue (seen input.entry) (view v)) (StopsValue (seen input.entry)) }
{
    let read = match input {
        Input::Word(text) => bson_of_text(alloc, text, scratch),
        Input::Tree(tree) => bson_json_read::bson_of(alloc, tree),
    };
    match read {
        Ok(value) => Ok(value),
        Err(Error::Memory) => Err(Stop::Memory),
        Err(error) => Err(Stop::Words(Unread::Value(error))),
    }
}

/// An `_id`.
pub(crate) fn id_of(
    alloc: Global,
    input: Input<'_, '_>,
    scratch: &mut Scratch,
) -> Result<Bson, Stop>
    ensures { MatchResult result (λ id. IsId (seen input.entry) (view id)) (StopsId (seen input.entry)) }
{
    let read = match input {
        Input::Word(text) => id_of_word(alloc, text, scratch),
        Input::Tree(tree) => bson_json_read::bson_of(alloc, tree),
    };
    match read {
        Ok(id) => Ok(id),
        Err(Error::Memory) => Err(Stop::Memory),
        Err(error) => Err(Stop::Words(Unread::Id(error))),
    }
}

/// The question of a query.
pub(crate) fn query_in(
    alloc: Global,
    input: Input<'_, '_>,
    scratch: &mut Scratch,
) -> Result<Question, Stop>
    ensures { MatchResult result (λ q. (a : Asked) × IsAsked (seen input.entry) a × StandsFor q a)
        (StopsQuery (seen input.entry)) }
{
    let read = match input {
        Input::Word(text) => read_query(alloc, text, scratch),
        Input::Tree(tree) => query_of(alloc, tree),
    };
    match read {
        Ok(question) => Ok(question),
        Err(QueryError::Memory) => Err(Stop::Memory),
        Err(error) => Err(Stop::Words(Unread::Query(error))),
    }
}
