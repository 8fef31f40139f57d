//! What is wanted of the documents of a collection that answer a question.

ghost use Rattle.std.specs.Prelude.{IfOk, map};
ghost use Rattle.bson_store.specs.Calls.{KeepsIndexes, Relates, store_state};
ghost use Rattle.store_asked.specs.Asking.{AskedFrom};
ghost use Rattle.store_asked.specs.Reads.{Reads, Stays};
ghost use Rattle.store_model.specs.Reading.{Documents};
ghost use Rattle.store_question.specs.Reads.{form_of};
ghost use Rattle.store_pipeline.specs.Bodies.{AreBodies};
ghost use Rattle.store_table.specs.Crash.{AddsNothing};
ghost use Rattle.store_table.specs.Moves.{WasOpen};
ghost use Rattle.fallowtime_commands.specs.Asking.{AreWanted};
ghost use Rattle.fallowtime_requests.specs.Fields.{left_by};

use bson_store::{Store, StoreError};
use fallowtime_requests::Wanted;
use sqlite::Alter;
use sqlite_pages::Pages;
use std::alloc::{AllocError, Global};
use store_asked::{ReadOnlyStore, find_arranged, look_up_arranged};
use store_pipeline::left_of_each;
use store_pipeline::sorted::Fields;
use store_question::Question;

/// The bodies of what is wanted of each document: of the fields that are given, or of all.
pub fn left_by(
    alloc: Global,
    bodies: Vec<Vec<u8>>,
    fields: &Option<Fields>,
) -> Result<Vec<Vec<u8>>, AllocError>
    ensures { (ds : Documents) → AreBodies bodies.items ds
        → IfOk result (λ left. AreBodies left.items (map (left_by fields.now) ds)) }
{
    match fields {
        Some(fields) => left_of_each(alloc, bodies.as_slice(), fields),
        None => Ok(bodies),
    }
}

/// The bodies of what is wanted of the documents of the collection `name` that answer a question, as `find_arranged`
/// finds them.
///
/// Refused by BadName, Memory and Database.
pub(crate) fn find_wanted<S: Alter + Drop>(
    alloc: Global,
    store: &mut Store<S>,
    name: &str,
    question: &Question,
    wanted: &Wanted,
) -> Result<Vec<Vec<u8>>, StoreError>
    ensures moves { Relates S.Store store.old store.new
        (AskedFrom (AreWanted wanted.now) name.now (form_of question.now) result) }
    ensures open { WasOpen (store_state S.Store store.old)
        (store_state S.Store store.new) result }
    ensures indexes { KeepsIndexes store.old store.new }
    ensures crash { AddsNothing (store_state S.Store store.old) (store_state S.Store store.new) }
{
    let bodies = find_arranged(alloc, store, name, question, &wanted.arrangement)?;
    let left = left_by(alloc, bodies, &wanted.fields)?;
    Ok(left)
}

/// The same of a store that only reads, as `look_up_arranged` finds them.
pub(crate) fn look_up_wanted<P: Pages + Drop>(
    alloc: Global,
    store: &mut ReadOnlyStore<P>,
    name: &str,
    question: &Question,
    wanted: &Wanted,
) -> Result<Vec<Vec<u8>>, StoreError>
    ensures reads { Reads P.Pages store.old store.new
        (AskedFrom (AreWanted wanted.now) name.now (form_of question.now) result) }
    ensures stays { Stays P.Pages store.old store.new }
{
    let bodies = look_up_arranged(alloc, store, name, question, &wanted.arrangement)?;
    let left = left_by(alloc, bodies, &wanted.fields)?;
    Ok(left)
}
