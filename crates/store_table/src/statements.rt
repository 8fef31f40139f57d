//! The statements, each with what it does to the rows.

ghost use Rattle.std.specs.Prelude.{◌≡◌, ◌≢◌, ◌+ℤ◌, ◌<ℤ◌, ◌^◌, pos, length, List, [], ◌∷◌, ◌++◌, map, filter, false, IsTrue, IfOk, OnOk, OnErr, MatchOption};
ghost use Rattle.sqlite.specs.declared.types.Value.TheVariants.{Int, Text, Blob};
ghost use Rattle.sqlite.specs.Held.{state};
ghost use Rattle.sqlite.specs.State.{HasCleanDisk, Survives};
ghost use Rattle.store_table.specs.Crash.{AddsNothing, MayChange};
ghost use Rattle.store_table.specs.Rows.{TableRow, IsBlank, AreBelow, HoldsRows, Inside, KeepsCommitted, docs_from, without_place, with_body_at, with_key_at, with_keys_at, is_at, is_row_named, last_place};
ghost use Rattle.store_table.specs.Moves.{MayLeave};
ghost use Rattle.store_table.specs.Open.{IsSettled, KeepsAll, HasCommitted};
ghost use Rattle.store_table.specs.Beside.{StandsBeside, AreBeside, SparesOthers};
ghost use Rattle.store_table.specs.Keys.{PutsKey, PutsKeys};
ghost use Rattle.store_table.specs.Renewal.{MayPut};
ghost use Rattle.sqlite.specs.State.{Shows as Sees};
ghost use Rattle.store_table.specs.Visit.{ReadsRows};
ghost use Rattle.store_table.specs.Written.{WritesRows};

use crate::opening::place_in;
use crate::row::{NewKey, NewRow};
use crate::sql;
use sqlite::types::ValueRef;
use sqlite::{Alter, Connection, Error, ErrorCode, Row, Transaction};

/// Makes the table in a database that has none.
pub(crate) fn create<S: Alter>(conn: &mut Connection<S>) -> Result<usize, Error>
    ensures made { HasCleanDisk (state S.Store conn.new) → IsBlank (state S.Store conn.old)
        → OnOk result (HoldsRows (state S.Store conn.new) []) }
    ensures beside { HasCleanDisk (state S.Store conn.new)
        → (state S.Store conn.old).in_transaction ≡ false
        → OnOk result (StandsBeside (state S.Store conn.old) (state S.Store conn.new)) }
    ensures kept { HasCleanDisk (state S.Store conn.new) → IsSettled (state S.Store conn.old)
        → OnErr result (KeepsAll (state S.Store conn.old) (state S.Store conn.new)) }
    ensures crash { Survives (state S.Store conn.old) (state S.Store conn.new)
        (AreBeside (state S.Store conn.old).now) }
{
    conn.execute(sql::MAKE_TABLE, &[])
}

/// Adds a row after all others.
fn insert_row<'a, S: Alter>(
    conn: &mut Connection<S>,
    place: i64,
    coll: &'a str,
    idkey: &'a [u8],
    body: &'a [u8],
) -> Result<usize, Error>
    requires last { HasCleanDisk (state S.Store conn.old) → (docs : List TableRow)
        → HoldsRows (state S.Store conn.old) docs → AreBelow place docs }
    ensures written { HasCleanDisk (state S.Store conn.new)
        → IsTrue (state S.Store conn.old).is_open → WritesRows (state S.Store conn.old)
        (state S.Store conn.new) (λ docs. docs ++ record
        { place = place; coll = coll.now; idkey = idkey.now; body = body.now } ∷ []) result }
    ensures crash { Survives (state S.Store conn.old) (state S.Store conn.new)
        (MayChange (λ docs. docs ++ record {
          place = place;
          coll = coll.now;
          idkey = idkey.now;
          body
              = body.now;
        } ∷ []) (state S.Store conn.old)) }
{
    conn.execute(
        sql::ADD_ROW,
        &[
            ValueRef::Int(place),
            ValueRef::Text(coll.as_bytes()),
            ValueRef::Blob(idkey),
            ValueRef::Blob(body),
        ],
    )
}

/// Adds a row after all others, and commits it. It is separate from `insert_row`, so that a wrong body is refused in
/// seconds.
pub(crate) fn add_committed<'a, S: Alter>(
    conn: &mut Connection<S>,
    place: i64,
    coll: &'a str,
    idkey: &'a [u8],
    body: &'a [u8],
) -> Result<usize, Error>
    requires last { HasCleanDisk (state S.Store conn.old) → (docs : List TableRow)
        → HoldsRows (state S.Store conn.old) docs → AreBelow place docs }
    ensures written { HasCleanDisk (state S.Store conn.new)
        → IsTrue (state S.Store conn.old).is_open → WritesRows (state S.Store conn.old)
        (state S.Store conn.new) (λ docs. docs ++ record
        { place = place; coll = coll.now; idkey = idkey.now; body = body.now } ∷ []) result }
    ensures crash { Survives (state S.Store conn.old) (state S.Store conn.new)
        (MayChange (λ docs. docs ++ record {
          place = place;
          coll = coll.now;
          idkey = idkey.now;
          body
              = body.now;
        } ∷ []) (state S.Store conn.old)) }
{
    insert_row(conn, place, coll, idkey, body)
}

/// Removes the row at a place.
pub(crate) fn remove_at<S: Alter>(conn: &mut Connection<S>, place: i64) -> Result<usize, Error>
    ensures written { HasCleanDisk (state S.Store conn.new)
        → WritesRows (state S.Store conn.old) (state S.Store conn.new)
        (without_place place) result }
    ensures crash { Survives (state S.Store conn.old) (state S.Store conn.new)
        (MayLeave (without_place place) (state S.Store conn.old)) }
{
    let statement = conn.prepare(sql::REMOVE_ROW)?;
    statement.execute(conn, &[ValueRef::Int(place)])
}

/// Puts another body at a place.
pub(crate) fn rewrite_at<S: Alter>(
    conn: &mut Connection<S>,
    place: i64,
    body: &[u8],
) -> Result<usize, Error>
    ensures written { HasCleanDisk (state S.Store conn.new)
        → WritesRows (state S.Store conn.old) (state S.Store conn.new)
        (with_body_at place body.now) result }
    ensures crash { Survives (state S.Store conn.old) (state S.Store conn.new)
        (MayLeave (with_body_at place body.now) (state S.Store conn.old)) }
{
    let statement = conn.prepare(sql::PUT_BODY)?;
    statement.execute(conn, &[ValueRef::Int(place), ValueRef::Blob(body)])
}

/// The places and bodies of the rows with this collection and key, in order of place.
pub(crate) fn named<'a, S: Alter>(
    conn: &mut Connection<S>,
    coll: &'a str,
    idkey: &'a [u8],
) -> Result<Vec<Row>, Error>
    ensures rows { HasCleanDisk (state S.Store conn.new) → (docs : List TableRow)
        → HoldsRows (state S.Store conn.old) docs → IfOk result
        (λ rows. rows.items ≡ map (λ d. Int d.place ∷ Blob d.body ∷ [])
        (filter (is_row_named coll.now idkey.now) docs)) }
    ensures read { HasCleanDisk (state S.Store conn.new)
        → ReadsRows (state S.Store conn.old) (state S.Store conn.new) result }
    ensures crash { AddsNothing (state S.Store conn.old) (state S.Store conn.new) }
{
    conn.query_all(
        sql::NAMED,
        &[ValueRef::Text(coll.as_bytes()), ValueRef::Blob(idkey)],
    )
}

/// The places of the rows with this collection and key, ascending.
pub(crate) fn places<'a, S: Alter>(
    conn: &mut Connection<S>,
    coll: &'a str,
    idkey: &'a [u8],
) -> Result<Vec<Row>, Error>
    ensures rows { HasCleanDisk (state S.Store conn.new) → (docs : List TableRow)
        → HoldsRows (state S.Store conn.old) docs → IfOk result
        (λ rows. rows.items ≡ map (λ d. Int d.place ∷ [])
        (filter (is_row_named coll.now idkey.now) docs)) }
    ensures read { HasCleanDisk (state S.Store conn.new)
        → ReadsRows (state S.Store conn.old) (state S.Store conn.new) result }
    ensures crash { AddsNothing (state S.Store conn.old) (state S.Store conn.new) }
{
    conn.query_all(
        sql::PLACES,
        &[ValueRef::Text(coll.as_bytes()), ValueRef::Blob(idkey)],
    )
}

/// The collection and the body of the row at a place.
pub(crate) fn at_place<S: Alter>(conn: &mut Connection<S>, place: i64) -> Result<Vec<Row>, Error>
    ensures rows { HasCleanDisk (state S.Store conn.new) → (docs : List TableRow)
        → HoldsRows (state S.Store conn.old) docs → IfOk result
        (λ rows. rows.items ≡ map (λ d. Text d.coll ∷ Blob d.body ∷ [])
        (filter (is_at place) docs)) }
    ensures read { HasCleanDisk (state S.Store conn.new)
        → ReadsRows (state S.Store conn.old) (state S.Store conn.new) result }
    ensures crash { AddsNothing (state S.Store conn.old) (state S.Store conn.new) }
{
    conn.query_all(sql::AT_PLACE, &[ValueRef::Int(place)])
}

/// The greatest place, if the table has a row.
pub(crate) fn greatest_if_any<S: Alter>(conn: &mut Connection<S>) -> Result<Option<i64>, Error>
    ensures place { HasCleanDisk (state S.Store conn.new) → (docs : List TableRow)
        → HoldsRows (state S.Store conn.old) docs → IfOk result
        (λ place. MatchOption place (docs ≡ []) (λ p. (docs ≢ []) × (p ≡ last_place docs))) }
    ensures read { HasCleanDisk (state S.Store conn.new)
        → ReadsRows (state S.Store conn.old) (state S.Store conn.new) result }
    ensures crash { AddsNothing (state S.Store conn.old) (state S.Store conn.new) }
{
    match conn.query_row(sql::GREATEST_PLACE, &[]) {
        Ok(row) => Ok(Some(place_in(&row))),
        Err(Error::QueryReturnedNoRows) => Ok(None),
        Err(error) => Err(error),
    }
}

/// The greatest place, or 0 for a table with no rows.
pub(crate) fn greatest<S: Alter>(conn: &mut Connection<S>) -> Result<i64, Error>
    ensures place { HasCleanDisk (state S.Store conn.new) → (docs : List TableRow)
        → HoldsRows (state S.Store conn.old) docs → IfOk result (λ place. place ≡ last_place docs) }
    ensures read { HasCleanDisk (state S.Store conn.new)
        → ReadsRows (state S.Store conn.old) (state S.Store conn.new) result }
    ensures crash { AddsNothing (state S.Store conn.old) (state S.Store conn.new) }
{
    let place = greatest_if_any(conn)?;
    Ok(place.unwrap_or(0))
}

/// Adds a row after all others, in a transaction.
pub(crate) fn put<'a, 't, S: Alter>(
    tx: &mut Transaction<'t, S>,
    place: i64,
    coll: &'a str,
    idkey: &'a [u8],
    body: &'a [u8],
) -> Result<usize, Error>
    ensures same_reference { tx.new.conn.ghost_name ≡ tx.old.conn.ghost_name }
    ensures added { HasCleanDisk (state S.Store tx.new.conn.now) → (first docs : List TableRow)
        → Inside (state S.Store tx.old.conn.now) first docs → AreBelow place docs
        → OnOk result (Inside (state S.Store tx.new.conn.now) first
        (docs ++ record {
          place = place;
          coll = coll.now;
          idkey = idkey.now;
          body =
              body.now;
        } ∷ [])) }
    ensures refused { HasCleanDisk (state S.Store tx.new.conn.now) → (first docs : List TableRow)
        → Inside (state S.Store tx.old.conn.now) first docs
        → IsTrue (state S.Store tx.new.conn.now).is_open
        → OnErr result (KeepsCommitted (state S.Store tx.new.conn.now) first) }
    ensures spared { HasCleanDisk (state S.Store tx.new.conn.now) → (first docs : List TableRow)
        → Inside (state S.Store tx.old.conn.now) first docs → AreBelow place docs
        → OnOk result (SparesOthers (state S.Store tx.old.conn.now).now
        (state S.Store tx.new.conn.now).now) }
    ensures inside { HasCleanDisk (state S.Store tx.new.conn.now)
        → IsTrue (state S.Store tx.old.conn.now).in_transaction
        → OnOk result (IsTrue (state S.Store tx.new.conn.now).in_transaction) }
    ensures committed { HasCleanDisk (state S.Store tx.new.conn.now)
        → IsTrue (state S.Store tx.old.conn.now).in_transaction
        → HasCommitted (state S.Store tx.old.conn.now) (state S.Store tx.new.conn.now) }
    ensures crash { AddsNothing (state S.Store tx.old.conn.now) (state S.Store tx.new.conn.now) }
{
    tx.execute(
        sql::ADD_ROW,
        &[
            ValueRef::Int(place),
            ValueRef::Text(coll.as_bytes()),
            ValueRef::Blob(idkey),
            ValueRef::Blob(body),
        ],
    )
}

/// Adds rows to a collection, after the last place: all of them, or none.
pub(crate) fn add_all<S: Alter>(
    conn: &mut Connection<S>,
    last: i64,
    coll: &str,
    rows: &[NewRow<'_>],
) -> Result<(), Error>
    requires fits { (last +ℤ pos (length rows.now)) <ℤ pos (2 ^ 63) }
    requires last { HasCleanDisk (state S.Store conn.old) → (docs : List TableRow)
        → HoldsRows (state S.Store conn.old) docs → AreBelow (last +ℤ pos 1) docs }
    ensures added { HasCleanDisk (state S.Store conn.new) → (docs : List TableRow)
        → HoldsRows (state S.Store conn.old) docs → OnOk result
        (HoldsRows (state S.Store conn.new) (docs ++ docs_from (last +ℤ pos 1) coll.now rows.now)) }
    ensures refused { HasCleanDisk (state S.Store conn.new) → (docs : List TableRow)
        → HoldsRows (state S.Store conn.old) docs → IsTrue (state S.Store conn.new).is_open
        → OnErr result (HoldsRows (state S.Store conn.new) docs) }
    ensures spared { HasCleanDisk (state S.Store conn.new) → (docs : List TableRow)
        → HoldsRows (state S.Store conn.old) docs → OnOk result
        (SparesOthers (state S.Store conn.old).now (state S.Store conn.new).now) }
    ensures kept { HasCleanDisk (state S.Store conn.new) → IsSettled (state S.Store conn.old)
        → OnErr result (KeepsAll (state S.Store conn.old) (state S.Store conn.new)) }
    ensures crash { Survives (state S.Store conn.old) (state S.Store conn.new)
        (MayChange (λ docs. docs ++ docs_from (last +ℤ pos 1) coll.now rows.now)
        (state S.Store conn.old)) }
{
    if !conn.is_autocommit() {
        return Err(Error::SqliteFailure(ErrorCode::TransactionState));
    }
    let mut tx = conn.transaction();
    let mut place = last;
    for row in rows {
        place += 1;
        put(&mut tx, place, coll, row.idkey, row.body)?;
    }
    tx.commit()
}

/// Puts another key at a place, in a transaction.
fn rekey<'a, 't, S: Alter>(
    tx: &mut Transaction<'t, S>,
    place: i64,
    idkey: &'a [u8],
) -> Result<usize, Error>
    ensures same_reference { tx.new.conn.ghost_name ≡ tx.old.conn.ghost_name }
    ensures done { HasCleanDisk (state S.Store tx.new.conn.now) → (first docs : List TableRow)
        → Inside (state S.Store tx.old.conn.now) first docs
        → OnOk result (Inside (state S.Store tx.new.conn.now) first
        (with_key_at place idkey.now docs)) }
    ensures refused { HasCleanDisk (state S.Store tx.new.conn.now) → (first docs : List TableRow)
        → Inside (state S.Store tx.old.conn.now) first docs
        → IsTrue (state S.Store tx.new.conn.now).is_open
        → OnErr result (KeepsCommitted (state S.Store tx.new.conn.now) first) }
    ensures spared { HasCleanDisk (state S.Store tx.new.conn.now) → (first docs : List TableRow)
        → Inside (state S.Store tx.old.conn.now) first docs
        → OnOk result (SparesOthers (state S.Store tx.old.conn.now).now
        (state S.Store tx.new.conn.now).now) }
    ensures puts { HasCleanDisk (state S.Store tx.new.conn.now)
        → IsTrue (state S.Store tx.old.conn.now).in_transaction
        → OnOk result (PutsKey (state S.Store tx.old.conn.now).step_limit place idkey.now
        (state S.Store tx.old.conn.now).now (state S.Store tx.new.conn.now).now) }
    ensures inside { HasCleanDisk (state S.Store tx.new.conn.now)
        → IsTrue (state S.Store tx.old.conn.now).in_transaction
        → OnOk result (IsTrue (state S.Store tx.new.conn.now).in_transaction) }
    ensures committed { HasCleanDisk (state S.Store tx.new.conn.now)
        → IsTrue (state S.Store tx.old.conn.now).in_transaction
        → HasCommitted (state S.Store tx.old.conn.now) (state S.Store tx.new.conn.now) }
    ensures crash { AddsNothing (state S.Store tx.old.conn.now) (state S.Store tx.new.conn.now) }
{
    tx.execute(sql::PUT_KEY, &[ValueRef::Int(place), ValueRef::Blob(idkey)])
}

/// Puts other keys at some places: all of them, or none.
pub(crate) fn rekey_all<S: Alter>(conn: &mut Connection<S>, keys: &[NewKey]) -> Result<(), Error>
    ensures done { HasCleanDisk (state S.Store conn.new) → (docs : List TableRow)
        → HoldsRows (state S.Store conn.old) docs → OnOk result
        (HoldsRows (state S.Store conn.new) (with_keys_at keys.now docs)) }
    ensures refused { HasCleanDisk (state S.Store conn.new) → (docs : List TableRow)
        → HoldsRows (state S.Store conn.old) docs → IsTrue (state S.Store conn.new).is_open
        → OnErr result (HoldsRows (state S.Store conn.new) docs) }
    ensures spared { HasCleanDisk (state S.Store conn.new) → (docs : List TableRow)
        → HoldsRows (state S.Store conn.old) docs → OnOk result
        (SparesOthers (state S.Store conn.old).now (state S.Store conn.new).now) }
    ensures puts { HasCleanDisk (state S.Store conn.new)
        → OnOk result (Sees (state S.Store conn.old) (state S.Store conn.new)
        (state S.Store conn.new).now (state S.Store conn.new).now false
        × PutsKeys (state S.Store conn.old).step_limit keys.now (state S.Store conn.old).now
        (state S.Store conn.new).now) }
    ensures kept { HasCleanDisk (state S.Store conn.new) → IsSettled (state S.Store conn.old)
        → OnErr result (KeepsAll (state S.Store conn.old) (state S.Store conn.new)) }
    ensures crash { Survives (state S.Store conn.old) (state S.Store conn.new)
        (MayPut keys.now (state S.Store conn.old)) }
{
    if !conn.is_autocommit() {
        return Err(Error::SqliteFailure(ErrorCode::TransactionState));
    }
    let mut tx = conn.transaction();
    for key in keys {
        rekey(&mut tx, key.place, key.idkey.as_slice())?;
    }
    tx.commit()
}
