//! Which part of the documents `count` counts, by the values of a line.

ghost use Rattle.std.specs.Prelude.{◌≡◌, IfErr, MatchResult};
ghost use Rattle.json.specs.Json.{item, no_items};
ghost use Rattle.json.specs.Value.{items_view, members_view, value_view as data_of};
ghost use Rattle.fallowtime_requests.specs.Arranging.{IsPart, ReadsLine, ReadsSaid, StopsOptions, are_bounds, has_bounds, is_bound, with_part};
ghost use Rattle.fallowtime_requests.specs.Reading.{KeepsMaker};
ghost use Rattle.fallowtime_requests.specs.declared.request.Part.{Part as Share};
ghost use Rattle.cli_convert.specs.declared.made.IdMaker.{IdMaker as Maker};
ghost use Rattle.fallowtime_words.specs.declared.command.Command.TheVariants as commands;

use crate::arranging::{part_of, wanted_of};
use crate::input::of_value;
use crate::reading::{Question, plain, question_of_items, with_query};
use crate::request::{Part, Request};
use crate::stop::Stop;
use crate::unread::Unread;
use bson_json_read::Scratch;
use cli_convert::IdMaker;
use fallowtime_words::Command;
use json::Value;
use std::alloc::Global;

/// Whether an option says how many documents a part has.
fn is_bound(name: &str) -> bool
    ensures { result ≡ is_bound name.now }
{
    name == "skip" || name == "limit"
}

/// Whether each of the options does.
fn are_bounds(members: &[(&str, Value<'_>)]) -> bool
    ensures { result ≡ are_bounds (members_view members.now) }
{
    for (name, _) in members {
        if !is_bound(*name) {
            return false;
        }
    }
    true
}

/// Whether an object of options has no others than these.
fn has_bounds(options: &Value<'_>) -> bool
    ensures { result ≡ has_bounds (data_of options.now) }
{
    match options {
        Value::Object(members) => are_bounds(members.as_slice()),
        _ => false,
    }
}

/// Which part an object of options says.
fn part_in(alloc: Global, options: &Value<'_>) -> Result<Part, Stop>
    ensures { MatchResult result (IsPart (data_of options.now))
        (StopsOptions ((p : Share) → IsPart (data_of options.now) p → ⊥)) }
{
    if !has_bounds(options) {
        return Err(Stop::Words(Unread::Options));
    }
    let wanted = wanted_of(alloc, false, options)?;
    Ok(part_of(&wanted))
}

/// What `count` asks for by a collection, a query and an object of options.
fn count_by_options<'w>(
    alloc: Global,
    name: &Value<'w>,
    query: &Value<'w>,
    options: &Value<'_>,
    scratch: &mut Scratch,
) -> Result<Question<'w>, Stop>
    ensures { (m : Maker) → ReadsSaid IsPart with_part m m commands.Count (item (data_of name.now) (item (data_of query.now) no_items)) (data_of options.now) result }
{
    let (collection, query) = with_query(alloc, &[of_value(name), of_value(query)], scratch)?;
    let part = part_in(alloc, options)?;
    Ok(plain(collection, Request::Count(query, part)))
}

/// What `count` asks for by the values of a line.
pub(crate) fn count_of_line<'w>(
    alloc: Global,
    items: &[Value<'w>],
    maker: &mut IdMaker,
    scratch: &mut Scratch,
) -> Result<Question<'w>, Stop>
    ensures asked { ReadsLine maker.old maker.new commands.Count (items_view items.now) result }
    ensures maker { IfErr result (KeepsMaker maker.old maker.new) }
{
    match items {
        [name, query, options] => count_by_options(alloc, name, query, options, scratch),
        _ => question_of_items(alloc, Command::Count, items, maker, scratch),
    }
}
