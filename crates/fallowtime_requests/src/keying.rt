//! What `set` and `unset` ask for by the values of a line, whose options say whether the key is one as it is.

ghost use Rattle.std.specs.Prelude.{◌≡◌, ◌≢◌, IfErr, MatchResult, option_map};
ghost use Rattle.json.specs.Value.{items_view, value_view as data_of};
ghost use Rattle.fallowtime_requests.specs.Along.{literal_in};
ghost use Rattle.fallowtime_requests.specs.Arranging.{AsksKeyed, ReadsLine, StopsKeyed, TakesNoId};
ghost use Rattle.fallowtime_requests.specs.Reading.{KeepsMaker};
ghost use Rattle.fallowtime_words.specs.declared.command.Command.TheVariants as commands;

use crate::along::along_path;
use crate::options::flag_of;
use crate::reading::{Question, question_of_items};
use crate::stop::{Stop, given_up};
use crate::unread::Unread;
use bson_json_read::Scratch;
use cli_convert::IdMaker;
use fallowtime_words::Command;
use json::Value;
use std::alloc::Global;

/// Whether options say that the key is one as it is; none if they are no options.
fn literal_in(options: Option<&Value<'_>>) -> Option<bool>
    ensures { result ≡ literal_in (option_map (λ o. data_of o.now) options.entry) }
{
    match options {
        Some(options) => flag_of("key", options),
        None => Some(false),
    }
}

/// What a command with a key asks for by its arguments, and by an object of options, if there is one.
fn keyed<'w>(
    alloc: Global,
    command: Command,
    items: &[Value<'w>],
    options: Option<&Value<'_>>,
    maker: &mut IdMaker,
    scratch: &mut Scratch,
) -> Result<Question<'w>, Stop>
    requires takes { TakesNoId command }
    requires other { command ≢ commands.Import }
    ensures asked { MatchResult result
        (λ q. AsksKeyed maker.old maker.new command (items_view items.now) (option_map (λ o. data_of o.now) options.entry) q.collection.now q.request q.layout)
        (StopsKeyed maker.old maker.new command (items_view items.now) (option_map (λ o. data_of o.now) options.entry)) }
    ensures maker { IfErr result (KeepsMaker maker.old maker.new) }
{
    let question = question_of_items(alloc, command, items, maker, scratch)?;
    match literal_in(options) {
        Some(literal) => along_path(alloc, literal, question),
        None => Err(given_up(question, Stop::Words(Unread::Options))),
    }
}

/// What `set` asks for by the values of a line.
pub(crate) fn set_of_line<'w>(
    alloc: Global,
    items: &[Value<'w>],
    maker: &mut IdMaker,
    scratch: &mut Scratch,
) -> Result<Question<'w>, Stop>
    ensures asked { ReadsLine maker.old maker.new commands.Set (items_view items.now) result }
    ensures maker { IfErr result (KeepsMaker maker.old maker.new) }
{
    match items {
        [_, _, _, _, options] => keyed(
            alloc,
            Command::Set,
            &items[..4],
            Some(options),
            maker,
            scratch,
        ),
        _ => keyed(alloc, Command::Set, items, None, maker, scratch),
    }
}

/// What `unset` asks for by the values of a line.
pub(crate) fn unset_of_line<'w>(
    alloc: Global,
    items: &[Value<'w>],
    maker: &mut IdMaker,
    scratch: &mut Scratch,
) -> Result<Question<'w>, Stop>
    ensures asked { ReadsLine maker.old maker.new commands.Unset (items_view items.now) result }
    ensures maker { IfErr result (KeepsMaker maker.old maker.new) }
{
    match items {
        [_, _, _, options] => keyed(
            alloc,
            Command::Unset,
            &items[..3],
            Some(options),
            maker,
            scratch,
        ),
        _ => keyed(alloc, Command::Unset, items, None, maker, scratch),
    }
}
