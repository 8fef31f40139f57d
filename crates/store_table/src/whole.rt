//! A list of changes of the rows, all of them or none.

ghost use Rattle.std.specs.Prelude.{◌≡◌, ◌+ℤ◌, pos, List, IsTrue, IfOk, OnOk, OnErr};
ghost use Rattle.sqlite.specs.Held.{state};
ghost use Rattle.sqlite.specs.State.{HasCleanDisk, Survives};
ghost use Rattle.store_table.specs.Crash.{AddsNothing, MayChange};
ghost use Rattle.store_table.specs.Rows.{TableRow, AreBelow, HoldsRows, Inside, KeepsCommitted, without_place, with_body_at};
ghost use Rattle.store_table.specs.Open.{IsSettled, KeepsAll, HasCommitted};
ghost use Rattle.store_table.specs.Beside.{SparesOthers};
ghost use Rattle.store_table.specs.Change.{with_change, with_changes};

use crate::change::Change;
use crate::sql;
use crate::statements::put;
use sqlite::types::ValueRef;
use sqlite::{Alter, Connection, Error, ErrorCode, Transaction};

/// Puts another body at a place, in a transaction.
fn rewrite_in<'a, 't, S: Alter>(
    tx: &mut Transaction<'t, S>,
    place: i64,
    body: &'a [u8],
) -> Result<usize, Error>
    ensures same_reference { tx.new.conn.ghost_name ≡ tx.old.conn.ghost_name }
    ensures done { HasCleanDisk (state S.Store tx.new.conn.now) → (first docs : List TableRow)
        → Inside (state S.Store tx.old.conn.now) first docs
        → OnOk result (Inside (state S.Store tx.new.conn.now) first
        (with_body_at place body.now docs)) }
    ensures refused { HasCleanDisk (state S.Store tx.new.conn.now) → (first docs : List TableRow)
        → Inside (state S.Store tx.old.conn.now) first docs
        → IsTrue (state S.Store tx.new.conn.now).is_open
        → OnErr result (KeepsCommitted (state S.Store tx.new.conn.now) first) }
    ensures spared { HasCleanDisk (state S.Store tx.new.conn.now) → (first docs : List TableRow)
        → Inside (state S.Store tx.old.conn.now) first docs
        → OnOk result (SparesOthers (state S.Store tx.old.conn.now).now
        (state S.Store tx.new.conn.now).now) }
    ensures inside { HasCleanDisk (state S.Store tx.new.conn.now)
        → IsTrue (state S.Store tx.old.conn.now).in_transaction
        → OnOk result (IsTrue (state S.Store tx.new.conn.now).in_transaction) }
    ensures committed { HasCleanDisk (state S.Store tx.new.conn.now)
        → IsTrue (state S.Store tx.old.conn.now).in_transaction
        → HasCommitted (state S.Store tx.old.conn.now) (state S.Store tx.new.conn.now) }
    ensures crash { AddsNothing (state S.Store tx.old.conn.now) (state S.Store tx.new.conn.now) }
{
    tx.execute(sql::PUT_BODY, &[ValueRef::Int(place), ValueRef::Blob(body)])
}

/// Removes the row at a place, in a transaction.
fn remove_in<'t, S: Alter>(tx: &mut Transaction<'t, S>, place: i64) -> Result<usize, Error>
    ensures same_reference { tx.new.conn.ghost_name ≡ tx.old.conn.ghost_name }
    ensures done { HasCleanDisk (state S.Store tx.new.conn.now) → (first docs : List TableRow)
        → Inside (state S.Store tx.old.conn.now) first docs
        → OnOk result (Inside (state S.Store tx.new.conn.now) first
        (without_place place docs)) }
    ensures refused { HasCleanDisk (state S.Store tx.new.conn.now) → (first docs : List TableRow)
        → Inside (state S.Store tx.old.conn.now) first docs
        → IsTrue (state S.Store tx.new.conn.now).is_open
        → OnErr result (KeepsCommitted (state S.Store tx.new.conn.now) first) }
    ensures spared { HasCleanDisk (state S.Store tx.new.conn.now) → (first docs : List TableRow)
        → Inside (state S.Store tx.old.conn.now) first docs
        → OnOk result (SparesOthers (state S.Store tx.old.conn.now).now
        (state S.Store tx.new.conn.now).now) }
    ensures inside { HasCleanDisk (state S.Store tx.new.conn.now)
        → IsTrue (state S.Store tx.old.conn.now).in_transaction
        → OnOk result (IsTrue (state S.Store tx.new.conn.now).in_transaction) }
    ensures committed { HasCleanDisk (state S.Store tx.new.conn.now)
        → IsTrue (state S.Store tx.old.conn.now).in_transaction
        → HasCommitted (state S.Store tx.old.conn.now) (state S.Store tx.new.conn.now) }
    ensures crash { AddsNothing (state S.Store tx.old.conn.now) (state S.Store tx.new.conn.now) }
{
    tx.execute(sql::REMOVE_ROW, &[ValueRef::Int(place)])
}

/// Makes one change, in a transaction. Every row is at most at `last`, and then at most at the place that is returned.
fn change_in<'t, S: Alter>(
    tx: &mut Transaction<'t, S>,
    last: i64,
    change: &Change,
) -> Result<i64, Error>
    ensures same_reference { tx.new.conn.ghost_name ≡ tx.old.conn.ghost_name }
    ensures done { HasCleanDisk (state S.Store tx.new.conn.now) → (first docs : List TableRow)
        → Inside (state S.Store tx.old.conn.now) first docs → AreBelow (last +ℤ pos 1) docs
        → OnOk result (Inside (state S.Store tx.new.conn.now) first
        (with_change change.now docs)) }
    ensures below { (docs : List TableRow) → AreBelow (last +ℤ pos 1) docs
        → IfOk result (λ next. AreBelow (next +ℤ pos 1) (with_change change.now docs)) }
    ensures refused { HasCleanDisk (state S.Store tx.new.conn.now) → (first docs : List TableRow)
        → Inside (state S.Store tx.old.conn.now) first docs
        → IsTrue (state S.Store tx.new.conn.now).is_open
        → OnErr result (KeepsCommitted (state S.Store tx.new.conn.now) first) }
    ensures spared { HasCleanDisk (state S.Store tx.new.conn.now) → (first docs : List TableRow)
        → Inside (state S.Store tx.old.conn.now) first docs → AreBelow (last +ℤ pos 1) docs
        → OnOk result (SparesOthers (state S.Store tx.old.conn.now).now
        (state S.Store tx.new.conn.now).now) }
    ensures inside { HasCleanDisk (state S.Store tx.new.conn.now)
        → IsTrue (state S.Store tx.old.conn.now).in_transaction
        → OnOk result (IsTrue (state S.Store tx.new.conn.now).in_transaction) }
    ensures committed { HasCleanDisk (state S.Store tx.new.conn.now)
        → IsTrue (state S.Store tx.old.conn.now).in_transaction
        → HasCommitted (state S.Store tx.old.conn.now) (state S.Store tx.new.conn.now) }
    ensures crash { AddsNothing (state S.Store tx.old.conn.now) (state S.Store tx.new.conn.now) }
{
    match change {
        Change::Add {
            place,
            coll,
            idkey,
            body,
        } => {
            let place = *place;
            if place <= last {
                return Err(Error::SqliteFailure(ErrorCode::TransactionState));
            }
            put(tx, place, coll.as_str(), idkey.as_slice(), body.as_slice())?;
            Ok(place)
        }
        Change::Rewrite {
            place,
            old: _,
            body,
        } => {
            rewrite_in(tx, *place, body.as_slice())?;
            Ok(last)
        }
        Change::Remove { place, old: _ } => {
            remove_in(tx, *place)?;
            Ok(last)
        }
    }
}

/// Makes the changes one after the other, and commits them: all of them, or none. Every row is at most at `last`. A row
/// that doesn't come after all others is refused.
pub(crate) fn change_all<S: Alter>(
    conn: &mut Connection<S>,
    last: i64,
    changes: &[Change],
) -> Result<(), Error>
    requires last { HasCleanDisk (state S.Store conn.old) → (docs : List TableRow)
        → HoldsRows (state S.Store conn.old) docs → AreBelow (last +ℤ pos 1) docs }
    ensures done { HasCleanDisk (state S.Store conn.new) → (docs : List TableRow)
        → HoldsRows (state S.Store conn.old) docs → OnOk result
        (HoldsRows (state S.Store conn.new) (with_changes changes.now docs)) }
    ensures refused { HasCleanDisk (state S.Store conn.new) → (docs : List TableRow)
        → HoldsRows (state S.Store conn.old) docs → IsTrue (state S.Store conn.new).is_open
        → OnErr result (HoldsRows (state S.Store conn.new) docs) }
    ensures spared { HasCleanDisk (state S.Store conn.new) → (docs : List TableRow)
        → HoldsRows (state S.Store conn.old) docs → OnOk result
        (SparesOthers (state S.Store conn.old).now (state S.Store conn.new).now) }
    ensures kept { HasCleanDisk (state S.Store conn.new) → IsSettled (state S.Store conn.old)
        → OnErr result (KeepsAll (state S.Store conn.old) (state S.Store conn.new)) }
    ensures crash { Survives (state S.Store conn.old) (state S.Store conn.new)
        (MayChange (with_changes changes.now) (state S.Store conn.old)) }
{
    if !conn.is_autocommit() {
        return Err(Error::SqliteFailure(ErrorCode::TransactionState));
    }
    let mut tx = conn.transaction();
    let mut greatest = last;
    for change in changes {
        greatest = change_in(&mut tx, greatest, change)?;
    }
    tx.commit()
}
