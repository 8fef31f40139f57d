//! A change by query whose options on a line say whether a document is put in if none answers.

ghost use Rattle.std.specs.Prelude.{◌≡◌, ◌≢◌, IfErr, MatchResult};
ghost use Rattle.json.specs.Value.{items_view, members_view, value_view as data_of};
ghost use Rattle.fallowtime_requests.specs.Arranging.{AsksChange, ReadsByOptions, StopsChange, TakesNoId};
ghost use Rattle.fallowtime_requests.specs.Inputs.{tree};
ghost use Rattle.fallowtime_requests.specs.Reading.{KeepsMaker};
ghost use Rattle.fallowtime_requests.specs.Requests.{with_many};
ghost use Rattle.fallowtime_requests.specs.Upserts.{IsByQuery, StopsFixed, UpsertingIf, choice_among, choice_of, chosen, names_upsert, no_choice};
ghost use Rattle.fallowtime_words.specs.declared.command.Command.TheVariants as commands;

use crate::input::of_value;
use crate::options::boolean_of;
use crate::reading::{Question, question_of_items};
use crate::stop::{Stop, given_up};
use crate::unread::Unread;
use crate::upserts::upserting;
use bson_json_read::Scratch;
use cli_convert::IdMaker;
use fallowtime_words::Command;
use json::Value;
use std::alloc::Global;

/// What the options of a change by query say.
#[derive(Clone, Copy)]
pub(crate) struct Choice {
    /// All documents are meant that answer; else the first of them.
    pub many: bool,
    /// A document is put in if none answers.
    pub upsert: bool,
}

/// Neither.
fn no_choice() -> Choice
    ensures { result ≡ no_choice }
{
    Choice {
        many: false,
        upsert: false,
    }
}

/// Whether options say whether a document is put in.
fn names_upsert(options: &Value<'_>) -> bool
    ensures { result ≡ names_upsert (data_of options.now) }
{
    options.get("upsert").is_some()
}

/// The choice, and one more option; none if there is no such option. `many` is one if several documents can be meant.
fn chosen(several: bool, choice: Choice, key: &str, value: &Value<'_>) -> Option<Choice>
    ensures { result ≡ chosen several choice key.now (data_of value.now) }
{
    if key == "upsert" {
        let upsert = boolean_of(value)?;
        return Some(Choice { upsert, ..choice });
    }
    if several && key == "many" {
        let many = boolean_of(value)?;
        return Some(Choice { many, ..choice });
    }
    None
}

/// What the members of an object of options say; none if they are no options.
fn choice_among(several: bool, members: &[(&str, Value<'_>)]) -> Option<Choice>
    ensures { result ≡ choice_among several (members_view members.now) }
{
    match members {
        [(key, value)] => chosen(several, no_choice(), *key, value),
        [(key, value), (name, other)] => {
            let choice = chosen(several, no_choice(), *key, value)?;
            chosen(several, choice, *name, other)
        }
        _ => None,
    }
}

/// What an object of options says; none if it is none.
fn choice_of(several: bool, options: &Value<'_>) -> Option<Choice>
    ensures { result ≡ choice_of several (data_of options.now) }
{
    match options {
        Value::Object(members) => choice_among(several, members.as_slice()),
        _ => None,
    }
}

/// The question, of all documents that answer, if so.
fn of_many<'w>(question: Question<'w>, many: bool) -> Question<'w>
    ensures { (result.request ≡ with_many many question.entry.request) × (result.collection ≡ question.entry.collection)
        × (result.layout ≡ question.entry.layout) }
{
    Question {
        collection: question.collection,
        request: question.request.with_many(many),
        layout: question.layout,
    }
}

/// The question, with what is put in if no document answers, if so.
fn upserting_if<'w>(
    alloc: Global,
    upsert: bool,
    question: Question<'w>,
    query: &Value<'_>,
    maker: &mut IdMaker,
    scratch: &mut Scratch,
) -> Result<Question<'w>, Stop>
    ensures upserts { MatchResult result
        (λ q. UpsertingIf upsert maker.old maker.new (tree (data_of query.now)) question.entry.request q.request
        × (q.collection ≡ question.entry.collection) × (q.layout ≡ question.entry.layout))
        (λ s. IsByQuery question.entry.request × StopsFixed (tree (data_of query.now)) s) }
    ensures maker { IfErr result (KeepsMaker maker.old maker.new) }
{
    if upsert {
        upserting(alloc, question, of_value(query), maker, scratch)
    } else {
        Ok(question)
    }
}

/// What a change by query asks for by a collection, a query, a third value and these options.
fn change_by_options<'w>(
    alloc: Global,
    command: Command,
    several: bool,
    items: &[Value<'w>],
    query: &Value<'_>,
    options: &Value<'_>,
    maker: &mut IdMaker,
    scratch: &mut Scratch,
) -> Result<Question<'w>, Stop>
    requires takes { TakesNoId command }
    requires other { command ≢ commands.Import }
    ensures asked { MatchResult result
        (λ q. AsksChange several maker.old maker.new command (items_view items.now) (data_of query.now) (data_of options.now) q.collection.now q.request q.layout)
        (StopsChange several maker.old maker.new command (items_view items.now) (data_of query.now) (data_of options.now)) }
    ensures maker { IfErr result (KeepsMaker maker.old maker.new) }
{
    let question = question_of_items(alloc, command, items, maker, scratch)?;
    match choice_of(several, options) {
        Some(choice) => {
            let question = of_many(question, choice.many);
            upserting_if(alloc, choice.upsert, question, query, maker, scratch)
        }
        None => Err(given_up(question, Stop::Words(Unread::Options))),
    }
}

/// What a change by query asks for by the values of a line.
pub(crate) fn change_of_line<'w>(
    alloc: Global,
    command: Command,
    several: bool,
    items: &[Value<'w>],
    maker: &mut IdMaker,
    scratch: &mut Scratch,
) -> Result<Question<'w>, Stop>
    requires takes { TakesNoId command }
    requires other { command ≢ commands.Import }
    ensures asked { ReadsByOptions several maker.old maker.new command (items_view items.now) result }
    ensures maker { IfErr result (KeepsMaker maker.old maker.new) }
{
    match items {
        [_, query, _, options] => {
            if names_upsert(options) {
                change_by_options(
                    alloc,
                    command,
                    several,
                    &items[..3],
                    query,
                    options,
                    maker,
                    scratch,
                )
            } else {
                question_of_items(alloc, command, items, maker, scratch)
            }
        }
        _ => question_of_items(alloc, command, items, maker, scratch),
    }
}
