//! What is asked of indexes.

ghost use Rattle.std.specs.Prelude.{◌∷◌, [], MatchResult, map};
ghost use Rattle.fallowtime_requests.specs.Inputs.{seen};
ghost use Rattle.fallowtime_requests.specs.Reading.{IsUnread, Reads};
ghost use Rattle.fallowtime_requests.specs.Requests.{NameAndPath};
ghost use Rattle.cli_convert.specs.declared.made.IdMaker.{IdMaker as Maker};
ghost use Rattle.fallowtime_words.specs.declared.command.Command.TheVariants as commands;
ghost use Rattle.fallowtime_words.specs.declared.table.Argument.TheVariants as argument;
ghost use Rattle.store_question.specs.Filters.{path_of as path_view};

use crate::input::Input;
use crate::parts::{collection_of, path_of};
use crate::reading::{Question, plain};
use crate::request::Request;
use crate::stop::Stop;
use crate::unread::Unread;
use std::alloc::Global;

/// A collection, and a path.
fn with_path<'w>(alloc: Global, arguments: &[Input<'_, 'w>]) -> Result<(&'w str, Vec<String>), Stop>
    ensures { (m : Maker) → MatchResult result
        (λ p. NameAndPath (map seen arguments.now) p.0.now (path_view p.1.items))
        (IsUnread m (argument.Collection ∷ argument.IndexPath ∷ []) (map seen arguments.now)) }
{
    match arguments {
        [name, path] => {
            let name = collection_of(*name)?;
            Ok((name, path_of(alloc, *path)?))
        }
        _ => Err(Stop::Words(Unread::Arguments)),
    }
}

/// To make an index.
pub(crate) fn index<'w>(alloc: Global, arguments: &[Input<'_, 'w>]) -> Result<Question<'w>, Stop>
    ensures { (m : Maker) → Reads m m commands.Index (map seen arguments.now) result }
{
    let (collection, path) = with_path(alloc, arguments)?;
    Ok(plain(collection, Request::Index(path)))
}

/// To drop an index.
pub(crate) fn drop_index<'w>(
    alloc: Global,
    arguments: &[Input<'_, 'w>],
) -> Result<Question<'w>, Stop>
    ensures { (m : Maker) → Reads m m commands.DropIndex (map seen arguments.now) result }
{
    let (collection, path) = with_path(alloc, arguments)?;
    Ok(plain(collection, Request::DropIndex(path)))
}
