//! What a change by query puts in if no document answers.

ghost use Rattle.std.specs.Prelude.{◌≡◌, ◌⊎◌, ◌↔◌, IfErr, IfOk, IsTrue, MatchResult, Err, Ok, Some, map, option_map, string_bytes, true};
ghost use Rattle.bson_model.specs.View.{content, view};
ghost use Rattle.fallowtime_requests.specs.Inputs.{seen, texts, word};
ghost use Rattle.fallowtime_requests.specs.Reading.{KeepsMaker};
ghost use Rattle.fallowtime_requests.specs.Upserts.{HasOtherId, IsByQuery, IsFixed, IsFixedText, IsOtherwise, Makes, StopsByWords, StopsFixed, Takes, Upserting, UpsertsByWords, base, fronted, made_by, query_in, upserted_query};
ghost use Rattle.fallowtime_requests.specs.declared.stop.Stop.TheVariants.{Memory as NoMemory};
ghost use Rattle.store_update.specs.Answer.{viewed_document};
ghost use Rattle.store_update.specs.Plan.{plan_of};
ghost use Rattle.store_update.specs.Update.{Tells, updated};
ghost use Rattle.store_update.specs.declared.error.UpdateError.TheVariants.{Memory};
ghost use Rattle.store_question_read.specs.Seed.{Fixed, fixed_by};

use crate::input::{Input, of_word};
use crate::reading::{Question, own_id};
use crate::request::{Otherwise, Request, Work};
use crate::stop::{Stop, given_up};
use crate::unread::Unread;
use bson_json_read::Scratch;
use bson_meaning::same_meaning;
use bson_model::{Bson, Document};
use cli_convert::{IdMaker, with_front_id, with_id};
use fallowtime_words::Words;
use json::{MAX_DEPTH, Reader, Value};
use std::alloc::{AllocError, Global};
use store_question_read::{ReadError, Seed, seed_of};
use store_update::{Step, UpdateError, updated};

const ID_KEY: &str = "_id";

/// Whether a document has an `_id` that doesn't mean the same as this one.
pub fn has_other_id(document: &Document, id: &Bson) -> bool
    ensures { IsTrue result ↔ HasOtherId (view id.now) (content document.now) }
{
    match document.get(ID_KEY) {
        Some(own) => !same_meaning(own, id),
        None => false,
    }
}

/// A document with this `_id` alone, if there is one.
fn base_of(alloc: Global, id: Option<Bson>) -> Result<Document, AllocError>
    ensures { IfOk result (λ d. content d ≡ base (option_map view id)) }
{
    let document = Document::new(alloc);
    match id {
        Some(id) => with_front_id(alloc, id, document),
        None => Ok(document),
    }
}

/// What an update makes of a document, as of one that is inserted.
fn inserted(alloc: Global, document: Document, steps: &[Step]) -> Result<Document, UpdateError>
    ensures { Tells (updated true (map plan_of steps.now) (content document)) (viewed_document result) }
{
    updated(alloc, true, document, steps)
}

/// What an update makes of the fields that a query fixes, as of a document that is inserted.
fn updated_seed(alloc: Global, seed: Seed, steps: &[Step]) -> Result<Document, UpdateError>
    ensures { Tells (made_by (fixed_by seed) (map plan_of steps.now)) (viewed_document result) }
{
    let first = seed.steps;
    let document = base_of(alloc, seed.id)?;
    let document = inserted(alloc, document, first.as_slice())?;
    inserted(alloc, document, steps)
}

/// The document with its own `_id`, or with this one in front.
fn fronted(alloc: Global, document: Document, id: Bson) -> Result<Document, AllocError>
    ensures { IfOk result (λ d. content d ≡ fronted (view id) (content document)) }
{
    if document.contains_key(ID_KEY) {
        drop(id);
        return Ok(document);
    }
    with_front_id(alloc, id, document)
}

/// A copy of a document.
fn copied(document: &Document) -> Result<Document, AllocError>
    ensures { IfOk result (λ d. content d ≡ content document.now) }
{
    document.try_clone()
}

/// The document that takes the place of none, with this `_id`; it has no other one.
fn with_its_id(alloc: Global, id: Bson, by: Document) -> Result<Document, UpdateError>
    ensures { MatchResult result (λ m. Takes (Some (view id)) (content by) (Ok (content m)))
        (λ e. Takes (Some (view id)) (content by) (Err e) ⊎ (e ≡ Memory)) }
{
    if has_other_id(&by, &id) {
        drop(by);
        drop(id);
        return Err(UpdateError::Id);
    }
    Ok(fronted(alloc, by, id)?)
}

/// The document that takes the place of none, with the `_id` of the query, if there is one.
fn replacement(alloc: Global, id: Option<Bson>, by: Document) -> Result<Document, UpdateError>
    ensures { MatchResult result (λ m. Takes (option_map view id) (content by) (Ok (content m)))
        (λ e. Takes (option_map view id) (content by) (Err e) ⊎ (e ≡ Memory)) }
{
    match id {
        Some(id) => with_its_id(alloc, id, by),
        None => Ok(by),
    }
}

/// What is made of the fields that a query fixes.
fn made(alloc: Global, seed: Seed, work: &Work) -> Result<Document, UpdateError>
    ensures { MatchResult result (λ m. Makes (fixed_by seed) work.now (Ok (content m)))
        (λ e. Makes (fixed_by seed) work.now (Err e) ⊎ (e ≡ Memory)) }
{
    match work {
        Work::Update(steps) => updated_seed(alloc, seed, steps.as_slice()),
        Work::Replace(document) => {
            let copy = copied(document)?;
            replacement(alloc, seed.id, copy)
        }
        Work::Remove => Err(UpdateError::Id),
    }
}

/// What is put in if no document answers: what is made of the fields that the query fixes.
fn otherwise_of(
    alloc: Global,
    seed: Seed,
    work: &Work,
    maker: &mut IdMaker,
) -> Result<Otherwise, Stop>
    ensures { MatchResult result (IsOtherwise maker.old maker.new (fixed_by seed) work.now)
        (λ s. s ≡ NoMemory) }
{
    match made(alloc, seed, work) {
        Ok(document) => {
            let document = with_id(alloc, document, maker)?;
            let id = own_id(alloc, &document)?;
            Ok(Otherwise::Insert(id, document))
        }
        Err(error) => match error {
            UpdateError::Memory => Err(Stop::Memory),
            _ => Ok(Otherwise::Refuse(error)),
        },
    }
}

/// The byte at which a text is seen to be no JSON.
fn fault_in(text: &str, scratch: &mut Scratch) -> Result<usize, AllocError> {
    let mut reader = Reader::new(text, scratch)?;
    let _passed = reader.skip_value(MAX_DEPTH);
    Ok(reader.offset())
}

/// What a text fixes as a query.
fn seed_of_text(alloc: Global, text: &str, scratch: &mut Scratch) -> Result<Seed, ReadError>
    ensures { IsFixedText text.now result }
{
    match Value::parse_strict(alloc, text, scratch) {
        Ok(tree) => return seed_of(alloc, &tree),
        Err(json::Error::OutOfMemory) => return Err(ReadError::Memory),
        Err(json::Error::DuplicateKey) => return Err(ReadError::RepeatedKey),
        Err(_) => {}
    }
    Err(ReadError::Json(fault_in(text, scratch)?))
}

/// What a query fixes.
fn seed_in(alloc: Global, query: Input<'_, '_>, scratch: &mut Scratch) -> Result<Seed, Stop>
    ensures { MatchResult result (λ seed. IsFixed (seen query.entry) (fixed_by seed))
        (StopsFixed (seen query.entry)) }
{
    let read = match query {
        Input::Word(text) => seed_of_text(alloc, text, scratch),
        Input::Tree(tree) => seed_of(alloc, tree),
    };
    match read {
        Ok(seed) => Ok(seed),
        Err(ReadError::Memory) => Err(Stop::Memory),
        Err(error) => Err(Stop::Words(Unread::Equalities(error))),
    }
}

/// What is put in if no document answers a query: what is made of the fields that it fixes.
fn otherwise_by(
    alloc: Global,
    query: Input<'_, '_>,
    work: &Work,
    maker: &mut IdMaker,
    scratch: &mut Scratch,
) -> Result<Otherwise, Stop>
    ensures made { MatchResult result
        (λ o. (f : Fixed) × IsFixed (seen query.entry) f × IsOtherwise maker.old maker.new f work.now o)
        (StopsFixed (seen query.entry)) }
    ensures maker { IfErr result (KeepsMaker maker.old maker.new) }
{
    let seed = seed_in(alloc, query, scratch)?;
    otherwise_of(alloc, seed, work, maker)
}

/// A change by query, with what is put in if no document answers. Any other request stays.
fn upserting_request<'w>(
    alloc: Global,
    request: Request<'w>,
    query: Input<'_, '_>,
    maker: &mut IdMaker,
    scratch: &mut Scratch,
) -> Result<Request<'w>, Stop>
    ensures upserts { MatchResult result
        (λ r. Upserting maker.old maker.new (seen query.entry) request.entry r)
        (λ s. IsByQuery request.entry × StopsFixed (seen query.entry) s) }
    ensures maker { IfErr result (KeepsMaker maker.old maker.new) }
{
    match request {
        Request::Change(found, work, many) => {
            match otherwise_by(alloc, query, &work, maker, scratch) {
                Ok(otherwise) => Ok(Request::Upsert(found, work, many, otherwise)),
                Err(stop) => {
                    drop(work);
                    Err(given_up(found, stop))
                }
            }
        }
        other => Ok(other),
    }
}

/// What is asked for, with what is put in if no document answers, if that is a change by query.
pub(crate) fn upserting<'w>(
    alloc: Global,
    question: Question<'w>,
    query: Input<'_, '_>,
    maker: &mut IdMaker,
    scratch: &mut Scratch,
) -> Result<Question<'w>, Stop>
    ensures upserts { MatchResult result
        (λ q. Upserting maker.old maker.new (seen query.entry) question.entry.request q.request
        × (q.collection ≡ question.entry.collection) × (q.layout ≡ question.entry.layout))
        (λ s. IsByQuery question.entry.request × StopsFixed (seen query.entry) s) }
    ensures maker { IfErr result (KeepsMaker maker.old maker.new) }
{
    let request = upserting_request(alloc, question.request, query, maker, scratch)?;
    Ok(Question {
        collection: question.collection,
        request,
        layout: question.layout,
    })
}

/// The second of some words.
fn second(words: &[String]) -> Option<&String>
    ensures { option_map (λ q. word (string_bytes q.now)) result ≡ query_in (texts words.now) }
{
    match words {
        [_, query, ..] => Some(query),
        _ => None,
    }
}

/// The query of a command line whose option `--upsert` asks for a document that is put in if none answers.
fn upserted_query<'w>(words: &Words<'w>) -> Option<&'w String>
    ensures { option_map (λ q. word (string_bytes q.now)) result ≡ upserted_query words.now }
{
    if words.options.upsert {
        second(words.arguments)
    } else {
        None
    }
}

/// What a command line asks for, and with its option `--upsert`, if that is a change by query, what is put in if no
/// document answers: what an update makes of the query's equality fields, as of a document that is inserted, or the
/// replacement, with an `_id` of the maker if there is none.
///
/// `Words`, of `Equalities`, if the query's equality fields can't be set beside each other. `Memory` if a growth was
/// refused.
pub fn upsert_by_words<'w>(
    alloc: Global,
    words: &Words<'w>,
    question: Question<'w>,
    maker: &mut IdMaker,
    scratch: &mut Scratch,
) -> Result<Question<'w>, Stop>
    ensures upserts { MatchResult result
        (λ q. UpsertsByWords maker.old maker.new words.now question.entry.request q.request
        × (q.collection ≡ question.entry.collection) × (q.layout ≡ question.entry.layout))
        (StopsByWords words.now question.entry.request) }
    ensures maker { IfErr result (KeepsMaker maker.old maker.new) }
{
    match upserted_query(words) {
        Some(query) => upserting(alloc, question, of_word(query), maker, scratch),
        None => Ok(question),
    }
}
