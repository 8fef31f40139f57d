//! Updates, at the time of the maker.

ghost use Rattle.std.specs.Prelude.{◌∷◌, [], MatchResult};
ghost use Rattle.fallowtime_requests.specs.Inputs.{IsUpdate, seen};
ghost use Rattle.fallowtime_requests.specs.Reading.{IsFirst, StopsUpdate};
ghost use Rattle.fallowtime_requests.specs.Requests.{NameQueryAndUpdate};
ghost use Rattle.fallowtime_words.specs.declared.table.Argument.TheVariants as argument;
ghost use Rattle.store_question_read.specs.UpdateOutcome.{plans_of};

use crate::input::Input;
use crate::parts::{collection_of, query_in};
use crate::stop::Stop;
use crate::unread::Unread;
use cli_convert::IdMaker;
use json::Scratch;
use std::alloc::Global;
use store_question::Question;
use store_question_read::{ReadError, read_update, update_of};
use store_update::Step;

/// The steps of an update. The date that one asks for is the time of the maker.
fn update_in(
    alloc: Global,
    maker: &IdMaker,
    input: Input<'_, '_>,
    scratch: &mut Scratch,
) -> Result<Vec<Step>, Stop>
    ensures { MatchResult result (λ steps. IsUpdate maker.now (seen input.entry) (plans_of steps))
        (StopsUpdate maker.now (seen input.entry)) }
{
    let now = maker.now();
    let read = match input {
        Input::Word(text) => read_update(alloc, now, text, scratch),
        Input::Tree(tree) => update_of(alloc, now, tree),
    };
    match read {
        Ok(steps) => Ok(steps),
        Err(ReadError::Memory) => Err(Stop::Memory),
        Err(error) => Err(Stop::Words(Unread::Update(error))),
    }
}

/// A collection, the question of a query, and the steps of an update.
pub(crate) fn parts_of<'w>(
    alloc: Global,
    maker: &IdMaker,
    name: Input<'_, 'w>,
    query: Input<'_, '_>,
    update: Input<'_, '_>,
    scratch: &mut Scratch,
) -> Result<(&'w str, Question, Vec<Step>), Stop>
    ensures { MatchResult result
        (λ p. NameQueryAndUpdate maker.now (seen name.entry ∷ seen query.entry ∷ seen update.entry ∷ [])
        p.0.now p.1 (plans_of p.2))
        (IsFirst maker.now (argument.Collection ∷ argument.Selection ∷ argument.Update ∷ [])
        (seen name.entry ∷ seen query.entry ∷ seen update.entry ∷ [])) }
{
    let name = collection_of(name)?;
    let question = query_in(alloc, query, scratch)?;
    Ok((name, question, update_in(alloc, maker, update, scratch)?))
}
