//! The bodies of a collection, as they are after the changes of a draft.

ghost use Rattle.std.specs.Prelude.{◌≡◌, IfOk, map};
ghost use Rattle.store_table.specs.Crash.{AddsNothing};
ghost use Rattle.store_table.specs.Moves.{WasOpen};
ghost use Rattle.bson_store.specs.Calls.{store_state, KeepsIndexes, Relates};
ghost use Rattle.bson_store.specs.Drafting.{HoldsDrafted, HoldsRows};

use crate::edit::DraftedEdits;
use crate::error::fault_refusal;
use crate::rows::push_row;
use crate::store::{Store, good_name};
use sqlite::Alter;
use std::alloc::{AllocError, Global};
use store_model::StoreError;
use store_table::{Fault, Found, VisitPlaced};

/// Copies of rows, until memory is refused.
#[derive(Drop)]
pub struct RowCopies {
    pub rows: Vec<Found>,
    pub failed: bool,
    pub alloc: Global,
}

impl VisitPlaced for RowCopies {
    ghost use Rattle.std.specs.Prelude.{◌≡◌, false, true};
    ghost use Rattle.bson_store.specs.Draft.{parts_of};

    ghost took = { λ _ v rows. v.failed ≡ false → parts_of v.rows.items ≡ rows };

    ghost is_done = { λ v. v.failed ≡ true };

    fn visit(&mut self, place: i64, body: &[u8]) -> bool {
        match push_row(self.alloc, &mut self.rows, place, body) {
            Ok(()) => !self.failed,
            Err(_) => {
                self.failed = true;
                false
            }
        }
    }
}

/// The rows of a collection, in order of place.
fn held_rows<S: Alter + Drop>(store: &mut Store<S>, collection: &str) -> Result<Vec<Found>, Fault>
    ensures moves { Relates S.Store store.old store.new (HoldsRows collection.now result) }
    ensures open { WasOpen (store_state S.Store store.old) (store_state S.Store store.new) result }
    ensures indexes { KeepsIndexes store.old store.new }
    ensures crash { AddsNothing (store_state S.Store store.old) (store_state S.Store store.new) }
{
    let mut copies = RowCopies {
        rows: Vec::new(store.alloc),
        failed: false,
        alloc: store.alloc,
    };
    store.table.visit_placed(collection, &mut copies)?;
    if copies.failed {
        return Err(Fault::Memory);
    }
    Ok(copies.rows)
}

/// The bodies of rows.
fn bodies_of(alloc: Global, rows: Vec<Found>) -> Result<Vec<Vec<u8>>, AllocError>
    ensures { IfOk result (λ v. v.items ≡ map (λ r. r.body) rows.items) }
{
    rows.into_iter().map(|row| row.body).collect(alloc)
}

/// The written forms of the documents of the collection `name` as they are after these changes, in the collection's
/// order. All are held, and the rows of before are read one after the other.
///
/// Refused by BadName, Memory and Database.
pub fn drafted_bodies<S: Alter + Drop>(
    store: &mut Store<S>,
    edits: &DraftedEdits,
    name: &str,
) -> Result<Vec<Vec<u8>>, StoreError>
    ensures moves { Relates S.Store store.old store.new
        (HoldsDrafted edits.now.draft name.now result) }
    ensures open { WasOpen (store_state S.Store store.old) (store_state S.Store store.new) result }
    ensures indexes { KeepsIndexes store.old store.new }
    ensures crash { AddsNothing (store_state S.Store store.old) (store_state S.Store store.new) }
{
    let name = good_name(name)?;
    let collection = name.as_str();
    let rows = match held_rows(store, collection) {
        Ok(rows) => rows,
        Err(fault) => return Err(fault_refusal(fault)),
    };
    let rows = edits.draft.rows(collection, rows)?;
    let bodies = bodies_of(store.alloc, rows)?;
    Ok(bodies)
}
