//! Questions about a collection, asked of a store and of one that only reads.

ghost use Rattle.std.specs.Prelude.{◌≡◌};
ghost use Rattle.store_table.specs.Crash.{AddsNothing};
ghost use Rattle.store_table.specs.Moves.{WasOpen};
ghost use Rattle.store_question.specs.Reads.{form_of};
ghost use Rattle.bson_store.specs.Calls.{KeepsIndexes, Relates, store_state};
ghost use Rattle.store_asked.specs.Asking.{AskedFrom};
ghost use Rattle.store_asked.specs.Reads.{Reads, Stays};
ghost use Rattle.fallowtime_commands.specs.Asking.{HasPart, IsNumberOf, counted};

use bson_store::{Count, Store, StoreError};
use fallowtime_requests::Part;
use sqlite::Alter;
use sqlite_pages::Pages;
use std::alloc::Global;
use store_asked::{ReadOnlyStore, look_up_answers, take_answers};
use store_question::Question;

/// How many documents of the collection `name` answer a question.
///
/// Refused by BadName, Memory and Database.
pub(crate) fn count<S: Alter + Drop>(
    alloc: Global,
    store: &mut Store<S>,
    name: &str,
    question: &Question,
) -> Result<u64, StoreError>
    ensures moves { Relates S.Store store.old store.new
        (AskedFrom IsNumberOf name.now (form_of question.now) result) }
    ensures open { WasOpen (store_state S.Store store.old)
        (store_state S.Store store.new) result }
    ensures indexes { KeepsIndexes store.old store.new }
    ensures crash { AddsNothing (store_state S.Store store.old) (store_state S.Store store.new) }
{
    let count = take_answers(alloc, store, name, question, Count { number: 0 })?;
    Ok(count.number)
}

/// How many of so many documents a part has.
pub fn counted(part: &Part, number: u64) -> u64
    ensures { result ≡ counted part.now number }
{
    let left = number.saturating_sub(part.skip as u64);
    match part.limit {
        Some(limit) => left.min(limit as u64),
        None => left,
    }
}

/// How many documents a part has of those that `count` counts.
///
/// Refused as `count` is.
pub(crate) fn count_part<S: Alter + Drop>(
    alloc: Global,
    store: &mut Store<S>,
    name: &str,
    question: &Question,
    part: &Part,
) -> Result<u64, StoreError>
    ensures moves { Relates S.Store store.old store.new
        (AskedFrom (HasPart part.now) name.now (form_of question.now) result) }
    ensures open { WasOpen (store_state S.Store store.old)
        (store_state S.Store store.new) result }
    ensures indexes { KeepsIndexes store.old store.new }
    ensures crash { AddsNothing (store_state S.Store store.old) (store_state S.Store store.new) }
{
    let number = count(alloc, store, name, question)?;
    Ok(counted(part, number))
}

/// As `count_part`, of a store that only reads.
pub(crate) fn count_in_pages<P: Pages + Drop>(
    alloc: Global,
    store: &mut ReadOnlyStore<P>,
    name: &str,
    question: &Question,
    part: &Part,
) -> Result<u64, StoreError>
    ensures reads { Reads P.Pages store.old store.new
        (AskedFrom (HasPart part.now) name.now (form_of question.now) result) }
    ensures stays { Stays P.Pages store.old store.new }
{
    let taker = Count { number: 0 };
    let count = look_up_answers(alloc, store, name, question, taker)?;
    Ok(counted(part, count.number))
}
