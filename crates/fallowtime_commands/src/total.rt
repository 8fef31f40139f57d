//! How many documents a store has.

ghost use Rattle.store_table.specs.Crash.{AddsNothing};
ghost use Rattle.store_table.specs.Moves.{WasOpen};
ghost use Rattle.bson_store.specs.Calls.{Relates, store_state};
ghost use Rattle.fallowtime_commands.specs.Asking.{Totals};

use crate::asking::count;
use bson_store::{ErrorKind, Store, StoreError};
use fallowtime_requests::ask_for_all;
use sqlite::Alter;
use std::alloc::Global;

/// How many documents all collections have.
///
/// Refused by Memory and Database.
pub(crate) fn total<S: Alter + Drop>(alloc: Global, store: &mut Store<S>) -> Result<u64, StoreError>
    ensures moves { Relates S.Store store.old store.new (Totals result) }
    ensures open { WasOpen (store_state S.Store store.old)
        (store_state S.Store store.new) result }
    ensures crash { AddsNothing (store_state S.Store store.old) (store_state S.Store store.new) }
{
    let names = store.collections()?;
    let everything = ask_for_all(alloc);
    let mut total: u64 = 0;
    for name in names.as_slice() {
        let number = count(alloc, store, name.as_str(), &everything)?;
        match total.checked_add(number) {
            Some(sum) => total = sum,
            // There are fewer places for rows than numbers.
            None => return Err(StoreError::from(ErrorKind::Database)),
        }
    }
    Ok(total)
}
