//! Whether `distinct` counts the documents that have a value, by the values of a line.

ghost use Rattle.std.specs.Prelude.{◌≡◌, ◌⊎◌, IfErr, Err, MatchResult, None, Some};
ghost use Rattle.json.specs.Value.{items_view, value_view as data_of};
ghost use Rattle.fallowtime_requests.specs.Arranging.{AsksCounted, ReadsLine, StopsOptions, counts_of};
ghost use Rattle.fallowtime_requests.specs.Inputs.{trees};
ghost use Rattle.fallowtime_requests.specs.Reading.{KeepsMaker, Reads};
ghost use Rattle.fallowtime_requests.specs.Requests.{with_counts};
ghost use Rattle.fallowtime_words.specs.declared.command.Command.TheVariants as commands;

use crate::options::flag_of;
use crate::reading::{Question, question_of_items};
use crate::stop::{Stop, given_up};
use crate::unread::Unread;
use bson_json_read::Scratch;
use cli_convert::IdMaker;
use fallowtime_words::Command;
use json::Value;
use std::alloc::Global;

/// The question, with counts, if so. (What lets a request go in one of its arms is dear to prove.)
fn counted<'w>(question: Question<'w>, counts: bool) -> Question<'w>
    ensures { (result.request ≡ with_counts counts question.entry.request)
        × (result.collection ≡ question.entry.collection) × (result.layout ≡ question.entry.layout) }
{
    Question {
        collection: question.collection,
        request: question.request.with_counts(counts),
        layout: question.layout,
    }
}

/// What `distinct` asks for by a collection, a path, a query and an object of options.
fn distinct_by_options<'w>(
    alloc: Global,
    items: &[Value<'w>],
    options: &Value<'_>,
    maker: &mut IdMaker,
    scratch: &mut Scratch,
) -> Result<Question<'w>, Stop>
    ensures asked { MatchResult result
        (λ q. AsksCounted maker.old maker.new (items_view items.now) (data_of options.now) q.collection.now q.request q.layout)
        (λ s. Reads maker.old maker.new commands.Distinct (trees (items_view items.now)) (Err s)
        ⊎ StopsOptions (counts_of (data_of options.now) ≡ None) s) }
    ensures maker { IfErr result (KeepsMaker maker.old maker.new) }
{
    let question = question_of_items(alloc, Command::Distinct, items, maker, scratch)?;
    match flag_of("count", options) {
        Some(counts) => Ok(counted(question, counts)),
        None => Err(given_up(question, Stop::Words(Unread::Options))),
    }
}

/// What `distinct` asks for by the values of a line.
pub(crate) fn distinct_of_line<'w>(
    alloc: Global,
    items: &[Value<'w>],
    maker: &mut IdMaker,
    scratch: &mut Scratch,
) -> Result<Question<'w>, Stop>
    ensures asked { ReadsLine maker.old maker.new commands.Distinct (items_view items.now) result }
    ensures maker { IfErr result (KeepsMaker maker.old maker.new) }
{
    match items {
        [_, _, _, options] => distinct_by_options(alloc, &items[..3], options, maker, scratch),
        _ => question_of_items(alloc, Command::Distinct, items, maker, scratch),
    }
}
