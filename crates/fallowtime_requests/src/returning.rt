//! Commands that change the first document that answers a query, and return it.

ghost use Rattle.std.specs.Prelude.{◌∷◌, [], MatchResult, map};
ghost use Rattle.fallowtime_requests.specs.Inputs.{seen};
ghost use Rattle.fallowtime_requests.specs.Reading.{IsUnread, Reads};
ghost use Rattle.fallowtime_requests.specs.Requests.{NameAndSelection, NameQueryAndUpdate};
ghost use Rattle.cli_convert.specs.declared.made.IdMaker.{IdMaker as Maker};
ghost use Rattle.fallowtime_words.specs.declared.command.Command.TheVariants as commands;
ghost use Rattle.fallowtime_words.specs.declared.table.Argument.TheVariants as argument;
ghost use Rattle.store_question_read.specs.UpdateOutcome.{plans_of};

use crate::arranging::all_of;
use crate::input::Input;
use crate::parts::{collection_of, query_in};
use crate::reading::{Question, plain, with_replacement};
use crate::request::{Request, Work};
use crate::stop::Stop;
use crate::unread::Unread;
use crate::updates::parts_of;
use bson_json_read::Scratch;
use cli_convert::IdMaker;
use std::alloc::Global;
use store_update::Step;

/// A collection, the question of the query, and the steps of the update.
fn with_steps<'w>(
    alloc: Global,
    maker: &IdMaker,
    arguments: &[Input<'_, 'w>],
    scratch: &mut Scratch,
) -> Result<(&'w str, store_question::Question, Vec<Step>), Stop>
    ensures { MatchResult result
        (λ p. NameQueryAndUpdate maker.now (map seen arguments.now) p.0.now p.1 (plans_of p.2))
        (IsUnread maker.now (argument.Collection ∷ argument.Selection ∷ argument.Update ∷ [])
        (map seen arguments.now)) }
{
    match arguments {
        [name, query, update] => parts_of(alloc, maker, *name, *query, *update, scratch),
        _ => Err(Stop::Words(Unread::Arguments)),
    }
}

/// A collection, and the question of the query.
fn with_question<'w>(
    alloc: Global,
    arguments: &[Input<'_, 'w>],
    scratch: &mut Scratch,
) -> Result<(&'w str, store_question::Question), Stop>
    ensures { (m : Maker) → MatchResult result
        (λ p. NameAndSelection (map seen arguments.now) p.0.now p.1)
        (IsUnread m (argument.Collection ∷ argument.Selection ∷ []) (map seen arguments.now)) }
{
    match arguments {
        [name, query] => {
            let name = collection_of(*name)?;
            let question = query_in(alloc, *query, scratch)?;
            Ok((name, question))
        }
        _ => Err(Stop::Words(Unread::Arguments)),
    }
}

/// The request of `find-and-update`: a query, steps, and what is returned of the document that is changed.
pub(crate) fn find_and_update<'w>(
    alloc: Global,
    arguments: &[Input<'_, 'w>],
    maker: &IdMaker,
    scratch: &mut Scratch,
) -> Result<Question<'w>, Stop>
    ensures { Reads maker.now maker.now commands.FindAndUpdate (map seen arguments.now) result }
{
    let (collection, question, steps) = with_steps(alloc, maker, arguments, scratch)?;
    let work = Work::Update(steps);
    Ok(plain(
        collection,
        Request::FindAndChange(question, all_of(alloc), work),
    ))
}

/// The request of `find-and-replace`: a query, a document, and what is returned of the one that is replaced.
pub(crate) fn find_and_replace<'w>(
    alloc: Global,
    arguments: &[Input<'_, 'w>],
    scratch: &mut Scratch,
) -> Result<Question<'w>, Stop>
    ensures { (m : Maker) → Reads m m commands.FindAndReplace (map seen arguments.now) result }
{
    let (collection, question, document) = with_replacement(alloc, arguments, scratch)?;
    let work = Work::Replace(document);
    Ok(plain(
        collection,
        Request::FindAndChange(question, all_of(alloc), work),
    ))
}

/// The request of `find-and-delete`: a query, and what is returned of the document that is removed.
pub(crate) fn find_and_delete<'w>(
    alloc: Global,
    arguments: &[Input<'_, 'w>],
    scratch: &mut Scratch,
) -> Result<Question<'w>, Stop>
    ensures { (m : Maker) → Reads m m commands.FindAndDelete (map seen arguments.now) result }
{
    let (collection, question) = with_question(alloc, arguments, scratch)?;
    let request = Request::FindAndChange(question, all_of(alloc), Work::Remove);
    Ok(plain(collection, request))
}
