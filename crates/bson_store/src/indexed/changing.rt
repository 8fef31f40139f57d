//! Changes of rows that are noted in the indexes.

ghost use Rattle.std.specs.Prelude.{◌+ℤ◌, ℕ, ℤ, pos, List};
ghost use Rattle.sqlite.specs.State.{Survives};
ghost use Rattle.bson_store.specs.Find.{Finds, HasNone, Misses};
ghost use Rattle.store_table.specs.Rows.{TableRow, docs_from, with_body_at};
ghost use Rattle.store_table.specs.Change.{with_change, with_changes};
ghost use Rattle.store_table.specs.Moves.{MayLeave, Moves, Settles, WasOpen};
ghost use Rattle.store_table.specs.Table.{table_state};
ghost use Rattle.bson_store.specs.Changing.{Forgets, ForgetsRemoved, GivesBody, NoneGives, Rewrites};
ghost use Rattle.bson_store.specs.Gathering.{HasNoneAt};
ghost use Rattle.bson_store.specs.Kept.{FindsRows, StayOrGo};

use crate::indexed::indexes::Indexes;
use sqlite::Alter;
use store_table::{Change, Fault, Found, NewRow, Table};

/// Notes rows of a collection at the places after `last`.
pub(crate) fn note_rows(indexes: &mut Indexes, coll: &str, last: i64, rows: &[NewRow<'_>])
    ensures noted { FindsRows indexes.new (docs_from (last +ℤ pos 1) coll.now rows.now) }
    ensures kept { (c : List ℕ) (p : ℤ) (b : List ℕ) → Finds indexes.old c p b
        → Finds indexes.new c p b }
    ensures others { (p : ℤ) (b : List ℕ)
        → HasNoneAt p (docs_from (last +ℤ pos 1) coll.now rows.now) → Misses indexes.old p b
        → Misses indexes.new p b }
    ensures none { HasNone indexes.old → HasNone indexes.new }
    ensures same { StayOrGo indexes.old indexes.new }
{
    let mut place = last;
    for row in rows {
        let Some(next) = place.checked_add(1) else {
            // No row can have such a place.
            indexes.clear();
            return;
        };
        // If it is refused, no index is left that could miss the row.
        let _ = indexes.note(coll.as_bytes(), next, row.body);
        place = next;
    }
}

/// Notes a change of the rows.
fn note_change(indexes: &mut Indexes, change: &Change)
    ensures noted { (docs : List TableRow) → FindsRows indexes.old docs
        → FindsRows indexes.new (with_change change.now docs) }
    ensures gone { Forgets change.now indexes.new }
    ensures others { (p : ℤ) (b : List ℕ) → (GivesBody p change.now → ⊥) → Misses indexes.old p b
        → Misses indexes.new p b }
    ensures none { HasNone indexes.old → HasNone indexes.new }
    ensures same { StayOrGo indexes.old indexes.new }
{
    // If one is refused, no index is left that could miss a row.
    match change {
        Change::Add {
            place,
            coll,
            idkey: _,
            body,
        } => {
            let _ = indexes.note(coll.as_bytes(), *place, body.as_slice());
        }
        Change::Rewrite { place, old, body } => {
            let _ = indexes.renew_all(*place, old.as_slice(), body.as_slice());
        }
        Change::Remove { place, old } => {
            let _ = indexes.forget(*place, old.as_slice());
        }
    }
}

/// Notes changes of the rows, one after the other.
pub(crate) fn note_changes(indexes: &mut Indexes, changes: &[Change])
    ensures noted { (docs : List TableRow) → FindsRows indexes.old docs
        → FindsRows indexes.new (with_changes changes.now docs) }
    ensures gone { ForgetsRemoved changes.now indexes.new }
    ensures others { (p : ℤ) (b : List ℕ) → NoneGives p changes.now → Misses indexes.old p b
        → Misses indexes.new p b }
    ensures none { HasNone indexes.old → HasNone indexes.new }
    ensures same { StayOrGo indexes.old indexes.new }
{
    for change in changes {
        note_change(indexes, change);
    }
}

/// Puts another body in the place of a row's, and returns the collection of the row. None: there is no such row.
pub(crate) fn rewrite_placed<S: Alter + Drop>(
    table: &mut Table<S>,
    found: &Found,
    body: &[u8],
) -> Result<Option<Vec<u8>>, Fault>
    ensures moves { Moves (table_state S.Store table.old) (table_state S.Store table.new)
        (Rewrites found.now.place body.now result) }
    ensures open { WasOpen (table_state S.Store table.old) (table_state S.Store table.new) result }
    ensures crash { Survives (table_state S.Store table.old) (table_state S.Store table.new)
        (MayLeave (with_body_at found.now.place body.now) (table_state S.Store table.old)) }
    ensures settled { Settles (with_body_at found.now.place body.now)
        (table_state S.Store table.old) (table_state S.Store table.new) result }
{
    let coll = table.collection_at(found.place)?;
    table.rewrite_at(found, body)?;
    Ok(coll)
}
