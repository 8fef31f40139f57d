//! What is asked of whole collections.

ghost use Rattle.std.specs.Prelude.{◌≡◌, ◌∷◌, [], IfErr, MatchResult, map};
ghost use Rattle.json.specs.Json.{item, no_items};
ghost use Rattle.json.specs.Value.{items_view, value_view as data_of};
ghost use Rattle.fallowtime_requests.specs.Arranging.{ReadsLine, ReadsSaid, SaysDrops};
ghost use Rattle.fallowtime_requests.specs.Inputs.{seen};
ghost use Rattle.fallowtime_requests.specs.Reading.{IsUnread, KeepsMaker, Reads};
ghost use Rattle.fallowtime_requests.specs.Requests.{NameAndNew, with_drops};
ghost use Rattle.cli_convert.specs.declared.made.IdMaker.{IdMaker as Maker};
ghost use Rattle.fallowtime_words.specs.declared.command.Command.TheVariants as commands;
ghost use Rattle.fallowtime_words.specs.declared.table.Argument.TheVariants as argument;

use crate::input::{Input, of_value};
use crate::options::flag_of;
use crate::parts::collection_of;
use crate::reading::{Question, name_of, plain, question_of_items};
use crate::request::{Request, Transfer};
use crate::stop::Stop;
use crate::unread::Unread;
use bson_json_read::Scratch;
use cli_convert::IdMaker;
use fallowtime_words::Command;
use json::Value;
use std::alloc::Global;

/// A collection, and the name of another one.
fn with_new_name<'w>(arguments: &[Input<'_, 'w>]) -> Result<(&'w str, &'w str), Stop>
    ensures { (m : Maker) → MatchResult result
        (λ p. NameAndNew (map seen arguments.now) p.0.now p.1.now)
        (IsUnread m (argument.Collection ∷ argument.NewName ∷ []) (map seen arguments.now)) }
{
    match arguments {
        [name, new] => {
            let name = collection_of(*name)?;
            Ok((name, collection_of(*new)?))
        }
        _ => Err(Stop::Words(Unread::Arguments)),
    }
}

/// To remove a collection.
pub(crate) fn drop_collection<'w>(arguments: &[Input<'_, 'w>]) -> Result<Question<'w>, Stop>
    ensures { (m : Maker) → Reads m m commands.Drop (map seen arguments.now) result }
{
    let collection = name_of(arguments)?;
    Ok(plain(collection, Request::Transfer(Transfer::Drop)))
}

/// To give a collection another name.
pub(crate) fn rename<'w>(arguments: &[Input<'_, 'w>]) -> Result<Question<'w>, Stop>
    ensures { (m : Maker) → Reads m m commands.Rename (map seen arguments.now) result }
{
    let (collection, new) = with_new_name(arguments)?;
    let request = Request::Transfer(Transfer::Rename(new, false));
    Ok(plain(collection, request))
}

/// What `rename` asks for by a collection, the name of another one and an object of options.
fn rename_by_options<'w>(
    name: &Value<'w>,
    new: &Value<'w>,
    options: &Value<'_>,
) -> Result<Question<'w>, Stop>
    ensures { (m : Maker) → ReadsSaid SaysDrops with_drops m m commands.Rename (item (data_of name.now) (item (data_of new.now) no_items)) (data_of options.now) result }
{
    let (collection, new) = with_new_name(&[of_value(name), of_value(new)])?;
    match flag_of("drop", options) {
        Some(drops) => {
            let request = Request::Transfer(Transfer::Rename(new, drops));
            Ok(plain(collection, request))
        }
        None => Err(Stop::Words(Unread::Options)),
    }
}

/// What `rename` asks for by the values of a line.
pub(crate) fn rename_of_line<'w>(
    alloc: Global,
    items: &[Value<'w>],
    maker: &mut IdMaker,
    scratch: &mut Scratch,
) -> Result<Question<'w>, Stop>
    ensures asked { ReadsLine maker.old maker.new commands.Rename (items_view items.now) result }
    ensures maker { IfErr result (KeepsMaker maker.old maker.new) }
{
    match items {
        [name, new, options] => rename_by_options(name, new, options),
        _ => question_of_items(alloc, Command::Rename, items, maker, scratch),
    }
}

/// To copy a collection.
pub(crate) fn copy<'w>(arguments: &[Input<'_, 'w>]) -> Result<Question<'w>, Stop>
    ensures { (m : Maker) → Reads m m commands.Copy (map seen arguments.now) result }
{
    let (collection, new) = with_new_name(arguments)?;
    let request = Request::Transfer(Transfer::Copy(new));
    Ok(plain(collection, request))
}
