//! The table: a list of rows, of which each call is a change.

ghost use Rattle.std.specs.Prelude.{◌≡◌, ◌+ℤ◌, ◌++◌, ◌∷◌, ℕ, pos, List, [], length, false, if◌then◌else◌, bytes_eq, IsTrue, IfOk, IfErr, OnErr, IsErrAnd, IsErrOf};
ghost use Rattle.sqlite.specs.Held.{state};
ghost use Rattle.sqlite.specs.State.{HasCleanDisk, Survives};
ghost use Rattle.store_table.specs.Crash.{AddsNothing};
ghost use Rattle.store_table.specs.Rows.{TableRow, HoldsRows, last_place, without_place, with_body_at};
ghost use Rattle.store_table.specs.Moves.{Moves, Stands, WasOpen, MayLeave, Settles, FindsNone, FindsRow, FindsPlace, FindsCollection, Changes, AddsBehind, Keeps, Lists, Visits, VisitsAt, VisitsPlaced, with_row, with_rows};
ghost use Rattle.store_table.specs.Change.{FindsLast, with_changes};
ghost use Rattle.store_table.specs.Renewal.{Opened, Unopened, Makes};
ghost use Rattle.store_table.specs.Open.{KeepsAll, HasNoTable, IsNameTaken};
ghost use Rattle.sqlite_value.specs.Order.{column};
ghost use Rattle.store_table.specs.Cells.{int_in, bytes_in};

use crate::change::Change;
use crate::check::{RowCheck, survey};
use crate::fault::Fault;
use crate::names::Names;
use crate::opening::{OpenError, bytes_at, place_in, prepare};
use crate::own::{EveryRow, is_own};
use crate::row::{Found, NewRow};
use crate::visiting::{Bodies, PlacedBodies, Visit, VisitPlaced, visit_rows};
use crate::{sql, statements, whole};
use sqlite::types::ValueRef;
use sqlite::{Alter, Connection, Row};
use std::alloc::{AllocError, Global};
use std::collections::BTreeSet;

/// A table of rows in a database: each row has a place, a collection, a written key and a body.
///
/// Every call is refused once the connection is shut, which a fault of the disk may do.
#[derive(Drop)]
pub struct Table<S: Alter> {
    conn: Connection<S>,
    alloc: Global,
}

impl<S: Alter + Drop> Table<S> {
    ghost use Rattle.store_table.specs.Table.{connection_of, table_state};

    /// Opens the table, which is made if the database has none. Keys that `check` replaces by others are replaced in
    /// one transaction; a table that has none is not written to. A refusal gives the connection back, with its rows as
    /// they were.
    ///
    /// Refused by NotAStore, if `documents` can't be read by the four columns with their types or is no table; by
    /// BadRow, with the place of the first row that isn't good under any key; by IdsCollide, if two rows of one
    /// collection would have one key, with the place of the first and the least place that has such a row before it;
    /// and by Memory and Database.
    pub fn open<C: RowCheck>(
        alloc: Global,
        mut connection: Connection<S>,
        check: &C,
    ) -> Result<Table<S>, (OpenError, Connection<S>)>
        ensures opened { IfOk result (λ t. HasCleanDisk (table_state S.Store t)
            → Opened (C.renews check.now) (state S.Store connection) (table_state S.Store t)) }
        ensures refused { IfErr result (λ e. HasCleanDisk (state S.Store e.1)
            → Unopened (C.renews check.now) (state S.Store connection) (state S.Store e.1) e.0) }
        ensures kept { IfErr result (λ e. HasCleanDisk (state S.Store e.1)
            → KeepsAll (state S.Store connection) (state S.Store e.1)) }
        ensures taken { (state S.Store connection).in_transaction ≡ false
            → HasNoTable (state S.Store connection) → IsNameTaken (state S.Store connection)
            → IsErrAnd result (λ e. (e.0 ≡ OpenError.NotAStore) × (e.1 ≡ connection)) }
        ensures busy { IsTrue (state S.Store connection).in_transaction
            → IsErrAnd result (λ e. (e.0 ≡ OpenError.Database) × (e.1 ≡ connection)) }
        ensures crash { IfOk result (λ t. Survives (state S.Store connection)
            (table_state S.Store t) (Makes (C.renews check.now) (state S.Store connection))) }
        ensures crash_refused { IfErr result (λ e. Survives (state S.Store connection)
            (state S.Store e.1) (Makes (C.renews check.now) (state S.Store connection))) }
    {
        match prepare(alloc, &mut connection, check) {
            Ok(()) => Ok(Table {
                conn: connection,
                alloc,
            }),
            Err(error) => Err((error, connection)),
        }
    }

    /// Gives the connection back.
    pub fn close(self) -> Connection<S>
        ensures { result ≡ connection_of self }
    {
        let Table { conn, alloc: _ } = self;
        conn
    }

    /// The first row of the collection with this key.
    pub fn named(&mut self, coll: &str, idkey: &[u8]) -> Result<Option<Found>, Fault>
        ensures moves { Moves (table_state S.Store self.old) (table_state S.Store self.new)
            (FindsRow coll.now idkey.now result) }
        ensures open { WasOpen (table_state S.Store self.old)
            (table_state S.Store self.new) result }
        ensures crash { AddsNothing (table_state S.Store self.old) (table_state S.Store self.new) }
    {
        let rows = statements::named(&mut self.conn, coll, idkey)?;
        match rows.first() {
            Some(row) => Ok(Some(found_in(self.alloc, row)?)),
            None => Ok(None),
        }
    }

    /// The place of the first row of the collection with this key.
    pub fn place_of(&mut self, coll: &str, idkey: &[u8]) -> Result<Option<i64>, Fault>
        ensures moves { Moves (table_state S.Store self.old) (table_state S.Store self.new)
            (FindsPlace coll.now idkey.now result) }
        ensures open { WasOpen (table_state S.Store self.old)
            (table_state S.Store self.new) result }
        ensures crash { AddsNothing (table_state S.Store self.old) (table_state S.Store self.new) }
    {
        let rows = statements::places(&mut self.conn, coll, idkey)?;
        match rows.first() {
            Some(row) => Ok(Some(place_in(row))),
            None => Ok(None),
        }
    }

    /// The collection of the row at a place.
    pub fn collection_at(&mut self, place: i64) -> Result<Option<Vec<u8>>, Fault>
        ensures moves { Moves (table_state S.Store self.old) (table_state S.Store self.new)
            (FindsCollection place result) }
        ensures open { WasOpen (table_state S.Store self.old)
            (table_state S.Store self.new) result }
        ensures crash { AddsNothing (table_state S.Store self.old) (table_state S.Store self.new) }
    {
        let rows = statements::at_place(&mut self.conn, place)?;
        match rows.first() {
            Some(row) => Ok(Some(Vec::from_slice(self.alloc, bytes_at(row, 0))?)),
            None => Ok(None),
        }
    }

    /// Hands the body at a place to a visitor, if the row there is one of the collection. False: the visitor asks for
    /// no more.
    pub fn visit_at<V: Visit>(
        &mut self,
        coll: &str,
        place: i64,
        visitor: &mut V,
    ) -> Result<bool, Fault>
        ensures moves { Moves (table_state S.Store self.old) (table_state S.Store self.new)
            (VisitsAt V.took visitor.old visitor.new coll.now place result) }
        ensures stopped { IfOk result (λ more. more ≡ false → V.is_done visitor.new) }
        ensures refused { OnErr result (visitor.new ≡ visitor.old) }
        ensures open { WasOpen (table_state S.Store self.old)
            (table_state S.Store self.new) result }
        ensures crash { AddsNothing (table_state S.Store self.old) (table_state S.Store self.new) }
    {
        let rows = statements::at_place(&mut self.conn, place)?;
        match rows.first() {
            Some(row) => Ok(visit_row(row, coll, visitor)),
            None => Ok(true),
        }
    }

    /// Whether the table has no row.
    pub fn is_empty(&mut self) -> Result<bool, Fault>
        ensures moves { Moves (table_state S.Store self.old) (table_state S.Store self.new)
            (FindsNone result) }
        ensures open { WasOpen (table_state S.Store self.old)
            (table_state S.Store self.new) result }
        ensures crash { AddsNothing (table_state S.Store self.old) (table_state S.Store self.new) }
    {
        let place = statements::greatest_if_any(&mut self.conn)?;
        Ok(place.is_none())
    }

    /// Whether the table is the one that the store makes, alone in its database: then it has rows. Each is looked at.
    pub fn shows_rows(&mut self) -> Result<bool, Fault>
        ensures moves { Moves (table_state S.Store self.old) (table_state S.Store self.new)
            (Keeps result) }
        ensures shows { HasCleanDisk (table_state S.Store self.new)
            → IfOk result (λ shown. IsTrue shown → (docs : List TableRow)
            × HoldsRows (table_state S.Store self.new) docs) }
        ensures open { WasOpen (table_state S.Store self.old)
            (table_state S.Store self.new) result }
        ensures crash { AddsNothing (table_state S.Store self.old) (table_state S.Store self.new) }
    {
        // Even if nothing is to be read, it is refused once the connection is shut.
        statements::greatest_if_any(&mut self.conn)?;
        if !self.conn.is_autocommit() {
            return Ok(false);
        }
        if !is_own(self.alloc, self.conn.schema())? {
            return Ok(false);
        }
        match survey(self.alloc, &mut self.conn, &EveryRow {}) {
            Ok(()) => Ok(true),
            Err(OpenError::Memory) => Err(Fault::Memory),
            Err(_) => Err(Fault::Database),
        }
    }

    /// Adds a row to the collection, at the place after the greatest one, and returns this place.
    pub fn append(&mut self, coll: &str, idkey: &[u8], body: &[u8]) -> Result<i64, Fault>
        ensures moves { Moves (table_state S.Store self.old) (table_state S.Store self.new)
            (AddsBehind 1 (with_row coll.now idkey.now body.now) result) }
        ensures open { WasOpen (table_state S.Store self.old)
            (table_state S.Store self.new) result }
        ensures crash { Survives (table_state S.Store self.old) (table_state S.Store self.new)
            (MayLeave (with_row coll.now idkey.now body.now) (table_state S.Store self.old)) }
        ensures settled { Settles (with_row coll.now idkey.now body.now)
            (table_state S.Store self.old) (table_state S.Store self.new) result }
        ensures full { IsErrOf result Fault.Places
            → AddsNothing (table_state S.Store self.old) (table_state S.Store self.new) }
        ensures place { HasCleanDisk (table_state S.Store self.new) → (docs : List TableRow)
            → Stands (table_state S.Store self.old) docs
            → IfOk result (λ place. place ≡ (last_place docs +ℤ pos 1)) }
    {
        let last = statements::greatest(&mut self.conn)?;
        let Some(place) = last.checked_add(1) else {
            return Err(Fault::Places);
        };
        statements::add_committed(&mut self.conn, place, coll, idkey, body)?;
        Ok(place)
    }

    /// Adds rows to the collection, at the places after the greatest one, which it returns: all of them or, if the
    /// call is refused, none.
    pub fn append_all(&mut self, coll: &str, rows: &[NewRow<'_>]) -> Result<i64, Fault>
        ensures moves { Moves (table_state S.Store self.old) (table_state S.Store self.new)
            (AddsBehind (length rows.now) (with_rows coll.now rows.now) result) }
        ensures open { WasOpen (table_state S.Store self.old)
            (table_state S.Store self.new) result }
        ensures crash { Survives (table_state S.Store self.old) (table_state S.Store self.new)
            (MayLeave (with_rows coll.now rows.now) (table_state S.Store self.old)) }
        ensures settled { Settles (with_rows coll.now rows.now) (table_state S.Store self.old)
            (table_state S.Store self.new) result }
        ensures full { IsErrOf result Fault.Places
            → AddsNothing (table_state S.Store self.old) (table_state S.Store self.new) }
        ensures place { HasCleanDisk (table_state S.Store self.new) → (docs : List TableRow)
            → Stands (table_state S.Store self.old) docs
            → IfOk result (λ last. last ≡ last_place docs) }
    {
        let last = statements::greatest(&mut self.conn)?;
        if last.checked_add(rows.len() as i64).is_none() {
            return Err(Fault::Places);
        }
        statements::add_all(&mut self.conn, last, coll, rows)?;
        Ok(last)
    }

    /// Puts another body in the place of a row's.
    pub fn rewrite_at(&mut self, found: &Found, body: &[u8]) -> Result<(), Fault>
        ensures moves { Moves (table_state S.Store self.old) (table_state S.Store self.new)
            (Changes (with_body_at found.now.place body.now) result) }
        ensures open { WasOpen (table_state S.Store self.old)
            (table_state S.Store self.new) result }
        ensures crash { Survives (table_state S.Store self.old) (table_state S.Store self.new)
            (MayLeave (with_body_at found.now.place body.now) (table_state S.Store self.old)) }
        ensures settled { Settles (with_body_at found.now.place body.now)
            (table_state S.Store self.old) (table_state S.Store self.new) result }
    {
        statements::rewrite_at(&mut self.conn, found.place, body)?;
        Ok(())
    }

    /// Removes a row. The others keep their places.
    pub fn remove_at(&mut self, found: &Found) -> Result<(), Fault>
        ensures moves { Moves (table_state S.Store self.old) (table_state S.Store self.new)
            (Changes (without_place found.now.place) result) }
        ensures open { WasOpen (table_state S.Store self.old)
            (table_state S.Store self.new) result }
        ensures crash { Survives (table_state S.Store self.old) (table_state S.Store self.new)
            (MayLeave (without_place found.now.place) (table_state S.Store self.old)) }
        ensures settled { Settles (without_place found.now.place) (table_state S.Store self.old)
            (table_state S.Store self.new) result }
    {
        statements::remove_at(&mut self.conn, found.place)?;
        Ok(())
    }

    /// The greatest place, or 0 if there is no row.
    pub fn last_place(&mut self) -> Result<i64, Fault>
        ensures moves { Moves (table_state S.Store self.old) (table_state S.Store self.new)
            (FindsLast result) }
        ensures open { WasOpen (table_state S.Store self.old)
            (table_state S.Store self.new) result }
        ensures crash { AddsNothing (table_state S.Store self.old) (table_state S.Store self.new) }
    {
        let place = statements::greatest(&mut self.conn)?;
        Ok(place)
    }

    /// Makes changes of the rows, one after the other, in one transaction: all of them or, if the call is refused, none.
    ///
    /// A row is added behind all others: at a place that isn't greater than those of the rows and of what the list added
    /// before, the call is refused by Database.
    pub fn change_all(&mut self, changes: &[Change]) -> Result<(), Fault>
        ensures moves { Moves (table_state S.Store self.old) (table_state S.Store self.new)
            (Changes (with_changes changes.now) result) }
        ensures open { WasOpen (table_state S.Store self.old)
            (table_state S.Store self.new) result }
        ensures crash { Survives (table_state S.Store self.old) (table_state S.Store self.new)
            (MayLeave (with_changes changes.now) (table_state S.Store self.old)) }
        ensures settled { Settles (with_changes changes.now) (table_state S.Store self.old)
            (table_state S.Store self.new) result }
    {
        let last = statements::greatest(&mut self.conn)?;
        whole::change_all(&mut self.conn, last, changes)?;
        Ok(())
    }

    /// The collections that have a row, ascending by the bytes of their names.
    pub fn collections(&mut self) -> Result<BTreeSet<Vec<u8>>, Fault>
        ensures moves { Moves (table_state S.Store self.old) (table_state S.Store self.new)
            (Lists result) }
        ensures open { WasOpen (table_state S.Store self.old)
            (table_state S.Store self.new) result }
        ensures crash { AddsNothing (table_state S.Store self.old) (table_state S.Store self.new) }
    {
        let mut visitor = Names {
            names: BTreeSet::new(self.alloc),
            failed: false,
            alloc: self.alloc,
        };
        let ended = visit_rows::<S, Names, Bodies>(&mut self.conn, sql::NAMES, &[], &mut visitor)?;
        let Names {
            names,
            failed,
            alloc: _,
        } = visitor;
        if failed || !ended {
            return Err(Fault::Memory);
        }
        Ok(names)
    }

    /// Hands each body of a collection to a visitor, in order of place, until it asks for no more: one row is read at a
    /// time, outside any transaction. True: all were taken. Other calls come after it only.
    pub fn visit_bodies<V: Visit>(&mut self, coll: &str, visitor: &mut V) -> Result<bool, Fault>
        ensures moves { Moves (table_state S.Store self.old) (table_state S.Store self.new)
            (Visits (V.took visitor.old) visitor.old visitor.new coll.now result) }
        ensures stopped { IfOk result (λ all. all ≡ false → V.is_done visitor.new) }
        // Whatever the database did, the visitor took some bodies, and nothing else was done with it.
        ensures taken { V.took visitor.old visitor.old [] → (bodies : List (List ℕ))
            × V.took visitor.old visitor.new bodies }
        ensures open { WasOpen (table_state S.Store self.old)
            (table_state S.Store self.new) result }
        ensures crash { AddsNothing (table_state S.Store self.old) (table_state S.Store self.new) }
    {
        let all = visit_rows::<S, V, Bodies>(
            &mut self.conn,
            sql::BODIES,
            &[ValueRef::Text(coll.as_bytes())],
            visitor,
        )?;
        Ok(all)
    }

    /// Hands the place and the body of each row of a collection to a visitor, in order of place, until it asks for no
    /// more: one row is read at a time, outside any transaction. True: all were taken.
    pub fn visit_placed<V: VisitPlaced>(
        &mut self,
        coll: &str,
        visitor: &mut V,
    ) -> Result<bool, Fault>
        ensures moves { Moves (table_state S.Store self.old) (table_state S.Store self.new)
            (VisitsPlaced (V.took visitor.old) visitor.old visitor.new coll.now result) }
        ensures stopped { IfOk result (λ all. all ≡ false → V.is_done visitor.new) }
        ensures open { WasOpen (table_state S.Store self.old)
            (table_state S.Store self.new) result }
        ensures crash { AddsNothing (table_state S.Store self.old) (table_state S.Store self.new) }
    {
        let all = visit_rows::<S, V, PlacedBodies>(
            &mut self.conn,
            sql::PLACED_BODIES,
            &[ValueRef::Text(coll.as_bytes())],
            visitor,
        )?;
        Ok(all)
    }
}

/// What was found, of a row with the place in its first column and the body, which is copied, in its second. The error
/// is a refused growth.
fn found_in(alloc: Global, row: &Row) -> Result<Found, AllocError>
    ensures { IfOk result (λ f. (f.place ≡ int_in (column row.now 0))
        × (f.body.items ≡ bytes_in (column row.now 1))) }
{
    Ok(Found {
        place: place_in(row),
        body: Vec::from_slice(alloc, bytes_at(row, 1))?,
    })
}

/// Hands the body of a row to a visitor, if the row is one of the collection. False: the visitor asks for no more.
fn visit_row<V: Visit>(row: &Row, coll: &str, visitor: &mut V) -> bool
    ensures on { (first : V) (bodies : List (List ℕ)) → V.took first visitor.old bodies
        → V.took first visitor.new (bodies ++ (if bytes_eq
        (bytes_in (column row.now 0)) coll.now then bytes_in (column row.now 1) ∷ [] else [])) }
    ensures stopped { result ≡ false → V.is_done visitor.new }
{
    if bytes_at(row, 0) != coll.as_bytes() {
        return true;
    }
    visitor.visit(bytes_at(row, 1))
}
