//! The table with indexes: calls are those of the table, with the same promises.

ghost use Rattle.std.specs.Prelude.{◌≡◌, ◌≢◌, ◌↔◌, ◌≤ℤ◌, ◌+ℤ◌, ℕ, ℤ, pos, List, [], filter, length, false, IsTrue, IfOk, IfErr, IfSome, IsErrAnd, IsErrOf, OnOk};
ghost use Rattle.sqlite.specs.Held.{state};
ghost use Rattle.sqlite.specs.State.{HasCleanDisk, Survives};
ghost use Rattle.store_table.specs.Crash.{AddsNothing};
ghost use Rattle.store_question.specs.Filters.{path_of};
ghost use Rattle.bson_store.specs.Fronts.{Passes};
ghost use Rattle.store_model.specs.Filter.{Path};
ghost use Rattle.store_table.specs.Rows.{TableRow, docs_from, is_in, last_place, without_place, with_body_at};
ghost use Rattle.store_table.specs.Moves.{Moves, Stands, WasOpen, MayLeave, Settles, FindsNone, FindsRow, FindsPlace, Changes, AddsRows, Keeps, Lists, Visits, VisitsPlaced, with_row, with_rows};
ghost use Rattle.store_table.specs.Change.{FindsLast, with_changes};
ghost use Rattle.store_table.specs.Renewal.{Opened, Unopened, Makes};
ghost use Rattle.store_table.specs.Open.{KeepsAll, HasNoTable, IsNameTaken};
ghost use Rattle.store_table.specs.Table.{table_state};
ghost use Rattle.bson_store.specs.Asking.{VisitsAsked};
ghost use Rattle.bson_store.specs.Changing.{NoneGives};
ghost use Rattle.bson_store.specs.Gathering.{HasNoneAt};
ghost use Rattle.bson_store.specs.Kept.{HasKept};

use crate::indexed::changing::{note_changes, note_rows, rewrite_placed};
use crate::indexed::front::Front;
use crate::indexed::gathering::gather;
use crate::indexed::indexes::Indexes;
use crate::indexed::range::Range;
use crate::indexed::reading::visit_places;
use sqlite::{Alter, Connection};
use std::alloc::Global;
use std::collections::BTreeSet;
use store_table::{
    Change, Fault, Found, NewRow, OpenError, RowCheck, Table, Visit, VisitPlaced, is_own,
};

/// A table with indexes, which find the documents of its rows, whatever is done to them. A refusal of memory while a
/// change is noted drops them, and a question is then answered by all rows of the collection.
#[derive(Drop)]
pub struct IndexedTable<S: Alter> {
    table: Table<S>,
    indexes: Indexes,
    // Whether it is known that the table is the store's own, with rows.
    shown: bool,
    alloc: Global,
    ghost kept: { ∥ HasKept (table_state S.Store table) shown indexes ∥₁ },
}

impl<S: Alter + Drop> IndexedTable<S> {
    ghost use Rattle.bson_store.specs.Table.{AddsIndex, ForgetsGone, ForgetsRow, HasIndex, KeepsIndexes, LeavesIndexes, RenewsRow, StaysForgotten, connection_of, indexed_state};

    /// Opens the table, which is made if the database has none. Keys that `check` replaces by others are replaced in
    /// one transaction; a table that has none is not written to. A refusal gives the connection back, with its rows as
    /// they were.
    ///
    /// Refused by NotAStore, if `documents` can't be read by the four columns with their types or is no table; by
    /// BadRow, with the place of the first row that isn't good under any key; by IdsCollide, if two rows of one
    /// collection would have one key, with the place of the first and the least place that has such a row before it;
    /// and by Memory and Database.
    pub fn open<C: RowCheck>(
        alloc: Global,
        connection: Connection<S>,
        check: &C,
    ) -> Result<IndexedTable<S>, (OpenError, Connection<S>)>
        ensures opened { IfOk result (λ t. HasCleanDisk (indexed_state S.Store t)
            → Opened (C.renews check.now) (state S.Store connection) (indexed_state S.Store t)) }
        ensures refused { IfErr result (λ e. HasCleanDisk (state S.Store e.1)
            → Unopened (C.renews check.now) (state S.Store connection) (state S.Store e.1) e.0) }
        ensures kept { IfErr result (λ e. HasCleanDisk (state S.Store e.1)
            → KeepsAll (state S.Store connection) (state S.Store e.1)) }
        ensures taken { (state S.Store connection).in_transaction ≡ false
            → HasNoTable (state S.Store connection) → IsNameTaken (state S.Store connection)
            → IsErrAnd result (λ e. (e.0 ≡ OpenError.NotAStore) × (e.1 ≡ connection)) }
        ensures busy { IsTrue (state S.Store connection).in_transaction
            → IsErrAnd result (λ e. (e.0 ≡ OpenError.Database) × (e.1 ≡ connection)) }
        ensures none { IfOk result (λ t. (c : List ℕ) (p : Path) → HasIndex t c p → ⊥) }
        ensures crash { IfOk result (λ t. Survives (state S.Store connection)
            (indexed_state S.Store t) (Makes (C.renews check.now) (state S.Store connection))) }
        ensures crash_refused { IfErr result (λ e. Survives (state S.Store connection)
            (state S.Store e.1) (Makes (C.renews check.now) (state S.Store connection))) }
    {
        let shown = is_own(alloc, connection.schema()).unwrap_or(false);
        match Table::open(alloc, connection, check) {
            Ok(table) => Ok(IndexedTable {
                table,
                indexes: Indexes::new(alloc),
                shown,
                alloc,
            }),
            Err(refused) => Err(refused),
        }
    }

    /// Gives the connection back.
    pub fn close(self) -> Connection<S>
        ensures { result ≡ connection_of self }
    {
        let IndexedTable {
            table,
            indexes: _,
            shown: _,
            alloc: _,
        } = self;
        table.close()
    }

    /// The first row of the collection with this key.
    pub fn named(&mut self, coll: &str, idkey: &[u8]) -> Result<Option<Found>, Fault>
        ensures moves { Moves (indexed_state S.Store self.old) (indexed_state S.Store self.new)
            (FindsRow coll.now idkey.now result) }
        ensures open { WasOpen (indexed_state S.Store self.old)
            (indexed_state S.Store self.new) result }
        ensures crash { AddsNothing (indexed_state S.Store self.old)
            (indexed_state S.Store self.new) }
        ensures indexes { KeepsIndexes self.old self.new }
    {
        self.table.named(coll, idkey)
    }

    /// The place of the first row of the collection with this key.
    pub fn place_of(&mut self, coll: &str, idkey: &[u8]) -> Result<Option<i64>, Fault>
        ensures moves { Moves (indexed_state S.Store self.old) (indexed_state S.Store self.new)
            (FindsPlace coll.now idkey.now result) }
        ensures open { WasOpen (indexed_state S.Store self.old)
            (indexed_state S.Store self.new) result }
        ensures crash { AddsNothing (indexed_state S.Store self.old)
            (indexed_state S.Store self.new) }
        ensures indexes { KeepsIndexes self.old self.new }
    {
        self.table.place_of(coll, idkey)
    }

    /// Whether the table has no row.
    pub fn is_empty(&mut self) -> Result<bool, Fault>
        ensures moves { Moves (indexed_state S.Store self.old) (indexed_state S.Store self.new)
            (FindsNone result) }
        ensures open { WasOpen (indexed_state S.Store self.old)
            (indexed_state S.Store self.new) result }
        ensures crash { AddsNothing (indexed_state S.Store self.old)
            (indexed_state S.Store self.new) }
        ensures indexes { KeepsIndexes self.old self.new }
    {
        self.table.is_empty()
    }

    /// Adds a row to the collection, at the place after the greatest one.
    pub fn append(&mut self, coll: &str, idkey: &[u8], body: &[u8]) -> Result<(), Fault>
        ensures moves { Moves (indexed_state S.Store self.old) (indexed_state S.Store self.new)
            (AddsRows 1 (with_row coll.now idkey.now body.now) result) }
        ensures open { WasOpen (indexed_state S.Store self.old)
            (indexed_state S.Store self.new) result }
        ensures crash { Survives (indexed_state S.Store self.old) (indexed_state S.Store self.new)
            (MayLeave (with_row coll.now idkey.now body.now) (indexed_state S.Store self.old)) }
        ensures settled { Settles (with_row coll.now idkey.now body.now)
            (indexed_state S.Store self.old) (indexed_state S.Store self.new) result }
        ensures full { IsErrOf result Fault.Places
            → AddsNothing (indexed_state S.Store self.old) (indexed_state S.Store self.new) }
        ensures indexes { LeavesIndexes self.old self.new }
        ensures forgotten { HasCleanDisk (indexed_state S.Store self.new) → (docs : List TableRow)
            → Stands (indexed_state S.Store self.old) docs
            → StaysForgotten self.old self.new (λ p. p ≢ (last_place docs +ℤ pos 1)) }
        ensures renewed { (p : ℤ) (b : List ℕ) → ForgetsRow self.old p b
            → RenewsRow self.new p b body.now }
    {
        let place = self.table.append(coll, idkey, body)?;
        let _ = self.indexes.note(coll.as_bytes(), place, body);
        Ok(())
    }

    /// Adds rows to the collection, at the places after the greatest one: all of them or, if the
    /// call is refused, none.
    pub fn append_all(&mut self, coll: &str, rows: &[NewRow<'_>]) -> Result<(), Fault>
        ensures moves { Moves (indexed_state S.Store self.old) (indexed_state S.Store self.new)
            (AddsRows (length rows.now) (with_rows coll.now rows.now) result) }
        ensures open { WasOpen (indexed_state S.Store self.old)
            (indexed_state S.Store self.new) result }
        ensures crash { Survives (indexed_state S.Store self.old) (indexed_state S.Store self.new)
            (MayLeave (with_rows coll.now rows.now) (indexed_state S.Store self.old)) }
        ensures settled { Settles (with_rows coll.now rows.now) (indexed_state S.Store self.old)
            (indexed_state S.Store self.new) result }
        ensures full { IsErrOf result Fault.Places
            → AddsNothing (indexed_state S.Store self.old) (indexed_state S.Store self.new) }
        ensures indexes { LeavesIndexes self.old self.new }
        ensures forgotten { HasCleanDisk (indexed_state S.Store self.new) → (docs : List TableRow)
            → Stands (indexed_state S.Store self.old) docs → StaysForgotten self.old self.new
            (λ p. HasNoneAt p (docs_from (last_place docs +ℤ pos 1) coll.now rows.now)) }
    {
        let last = self.table.append_all(coll, rows)?;
        note_rows(&mut self.indexes, coll, last, rows);
        Ok(())
    }

    /// Puts another body in the place of a row's.
    pub fn rewrite_at(&mut self, found: &Found, body: &[u8]) -> Result<(), Fault>
        ensures moves { Moves (indexed_state S.Store self.old) (indexed_state S.Store self.new)
            (Changes (with_body_at found.now.place body.now) result) }
        ensures open { WasOpen (indexed_state S.Store self.old)
            (indexed_state S.Store self.new) result }
        ensures crash { Survives (indexed_state S.Store self.old) (indexed_state S.Store self.new)
            (MayLeave (with_body_at found.now.place body.now) (indexed_state S.Store self.old)) }
        ensures settled { Settles (with_body_at found.now.place body.now)
            (indexed_state S.Store self.old) (indexed_state S.Store self.new) result }
        ensures renewed { OnOk result (RenewsRow self.new found.now.place found.now.body.items
            body.now) }
        ensures indexes { LeavesIndexes self.old self.new }
        ensures forgotten { StaysForgotten self.old self.new (λ p. p ≢ found.now.place) }
        ensures still { (p : ℤ) (b : List ℕ) → ForgetsRow self.old p b
            → RenewsRow self.new p b body.now }
    {
        if self.indexes.is_empty() {
            return self.table.rewrite_at(found, body);
        }
        match rewrite_placed(&mut self.table, found, body)? {
            Some(coll) => {
                let _ = self
                    .indexes
                    .renew(coll.as_slice(), found.place, found.body.as_slice(), body);
            }
            // The row is gone, and nothing was changed.
            None => self.indexes.clear(),
        }
        Ok(())
    }

    /// Removes a row. The others keep their places.
    pub fn remove_at(&mut self, found: &Found) -> Result<(), Fault>
        ensures moves { Moves (indexed_state S.Store self.old) (indexed_state S.Store self.new)
            (Changes (without_place found.now.place) result) }
        ensures open { WasOpen (indexed_state S.Store self.old)
            (indexed_state S.Store self.new) result }
        ensures crash { Survives (indexed_state S.Store self.old) (indexed_state S.Store self.new)
            (MayLeave (without_place found.now.place) (indexed_state S.Store self.old)) }
        ensures settled { Settles (without_place found.now.place) (indexed_state S.Store self.old)
            (indexed_state S.Store self.new) result }
        ensures gone { OnOk result (ForgetsRow self.new found.now.place found.now.body.items) }
        ensures indexes { LeavesIndexes self.old self.new }
        ensures forgotten { (p : ℤ) (b : List ℕ) → ForgetsRow self.old p b
            → ForgetsRow self.new p b }
    {
        self.table.remove_at(found)?;
        let _ = self.indexes.forget(found.place, found.body.as_slice());
        Ok(())
    }

    /// The greatest place, or 0 if there is no row.
    pub fn last_place(&mut self) -> Result<i64, Fault>
        ensures moves { Moves (indexed_state S.Store self.old) (indexed_state S.Store self.new)
            (FindsLast result) }
        ensures open { WasOpen (indexed_state S.Store self.old)
            (indexed_state S.Store self.new) result }
        ensures crash { AddsNothing (indexed_state S.Store self.old)
            (indexed_state S.Store self.new) }
        ensures indexes { KeepsIndexes self.old self.new }
    {
        self.table.last_place()
    }

    /// Makes changes of the rows, one after the other: all of them or, if the call is refused, none.
    pub fn change_all(&mut self, changes: &[Change]) -> Result<(), Fault>
        ensures moves { Moves (indexed_state S.Store self.old) (indexed_state S.Store self.new)
            (Changes (with_changes changes.now) result) }
        ensures open { WasOpen (indexed_state S.Store self.old)
            (indexed_state S.Store self.new) result }
        ensures crash { Survives (indexed_state S.Store self.old) (indexed_state S.Store self.new)
            (MayLeave (with_changes changes.now) (indexed_state S.Store self.old)) }
        ensures settled { Settles (with_changes changes.now) (indexed_state S.Store self.old)
            (indexed_state S.Store self.new) result }
        ensures gone { OnOk result (ForgetsGone self.new changes.now) }
        ensures indexes { LeavesIndexes self.old self.new }
        ensures forgotten { StaysForgotten self.old self.new (λ p. NoneGives p changes.now) }
    {
        self.table.change_all(changes)?;
        note_changes(&mut self.indexes, changes);
        Ok(())
    }

    /// The collections that have a row, ascending by the bytes of their names.
    pub fn collections(&mut self) -> Result<BTreeSet<Vec<u8>>, Fault>
        ensures moves { Moves (indexed_state S.Store self.old) (indexed_state S.Store self.new)
            (Lists result) }
        ensures open { WasOpen (indexed_state S.Store self.old)
            (indexed_state S.Store self.new) result }
        ensures crash { AddsNothing (indexed_state S.Store self.old)
            (indexed_state S.Store self.new) }
        ensures indexes { KeepsIndexes self.old self.new }
    {
        self.table.collections()
    }

    /// Hands each body of a collection to a visitor, in order of place, until it asks for no more: one row is read at a
    /// time, outside any transaction. True: all were taken. Other calls come after it only.
    pub fn visit_bodies<V: Visit>(&mut self, coll: &str, visitor: &mut V) -> Result<bool, Fault>
        ensures moves { Moves (indexed_state S.Store self.old) (indexed_state S.Store self.new)
            (Visits (V.took visitor.old) visitor.old visitor.new coll.now result) }
        ensures stopped { IfOk result (λ all. all ≡ false → V.is_done visitor.new) }
        // Whatever the database did, the visitor took some bodies, and nothing else was done with it.
        ensures taken { V.took visitor.old visitor.old [] → (bodies : List (List ℕ))
            × V.took visitor.old visitor.new bodies }
        ensures open { WasOpen (indexed_state S.Store self.old)
            (indexed_state S.Store self.new) result }
        ensures crash { AddsNothing (indexed_state S.Store self.old)
            (indexed_state S.Store self.new) }
        ensures indexes { KeepsIndexes self.old self.new }
    {
        self.table.visit_bodies(coll, visitor)
    }

    /// Hands the place and the body of each row of a collection to a visitor, as `visit_bodies`.
    pub fn visit_placed<V: VisitPlaced>(
        &mut self,
        coll: &str,
        visitor: &mut V,
    ) -> Result<bool, Fault>
        ensures moves { Moves (indexed_state S.Store self.old) (indexed_state S.Store self.new)
            (VisitsPlaced (V.took visitor.old) visitor.old visitor.new coll.now result) }
        ensures stopped { IfOk result (λ all. all ≡ false → V.is_done visitor.new) }
        ensures open { WasOpen (indexed_state S.Store self.old)
            (indexed_state S.Store self.new) result }
        ensures crash { AddsNothing (indexed_state S.Store self.old)
            (indexed_state S.Store self.new) }
        ensures indexes { KeepsIndexes self.old self.new }
    {
        self.table.visit_placed(coll, visitor)
    }

    /// Whether the table is the store's own, with rows. If that isn't known, each row is looked at.
    fn shows_rows(&mut self) -> Result<bool, Fault>
        ensures moves { Moves (indexed_state S.Store self.old) (indexed_state S.Store self.new)
            (Keeps result) }
        ensures shown { IfOk result (λ shows. IsTrue shows → IsTrue self.new.shown) }
        ensures open { WasOpen (indexed_state S.Store self.old)
            (indexed_state S.Store self.new) result }
        ensures crash { AddsNothing (indexed_state S.Store self.old)
            (indexed_state S.Store self.new) }
        ensures indexes { KeepsIndexes self.old self.new }
    {
        if self.shown {
            // Even if nothing is to be read, it is refused once the connection is shut.
            self.table.is_empty()?;
            return Ok(true);
        }
        self.shown = self.table.shows_rows()?;
        Ok(self.shown)
    }

    /// Makes an index of a collection on a path, if there is none. A table that a store can't have made, or not alone
    /// in its database, gets none.
    pub fn index(&mut self, coll: &str, path: Vec<String>) -> Result<(), Fault>
        ensures moves { Moves (indexed_state S.Store self.old) (indexed_state S.Store self.new)
            (Keeps result) }
        ensures open { WasOpen (indexed_state S.Store self.old)
            (indexed_state S.Store self.new) result }
        ensures crash { AddsNothing (indexed_state S.Store self.old)
            (indexed_state S.Store self.new) }
        ensures indexes { (c : List ℕ) (p : Path) → HasIndex self.old c p
            → HasIndex self.new c p }
        ensures only { HasCleanDisk (indexed_state S.Store self.new) → (docs : List TableRow)
            → Stands (indexed_state S.Store self.old) docs
            → AddsIndex self.old self.new coll.now (path_of path.items) }
        ensures forgotten { HasCleanDisk (indexed_state S.Store self.new) → (docs : List TableRow)
            → Stands (indexed_state S.Store self.old) docs → StaysForgotten self.old self.new
            (λ p. HasNoneAt p (filter (is_in coll.now) docs)) }
    {
        if !self.shows_rows()? {
            return Ok(());
        }
        if self.indexes.has(coll.as_bytes(), path.as_slice()) {
            return Ok(());
        }
        let index = gather(self.alloc, &mut self.table, coll, path)?;
        self.indexes.add(index)?;
        Ok(())
    }

    /// Drops the index of a collection on a path, if there is one.
    pub fn drop_index(&mut self, coll: &str, path: &[String])
        ensures same { connection_of self.new ≡ connection_of self.old }
        ensures gone { HasIndex self.new coll.now (path_of path.now) → ⊥ }
        ensures others { (c : List ℕ) (p : Path) → ((c ≡ coll.now) × (p ≡ path_of path.now) → ⊥)
            → HasIndex self.old c p ↔ HasIndex self.new c p }
        ensures forgotten { (p : ℤ) (b : List ℕ) → ForgetsRow self.old p b
            → ForgetsRow self.new p b }
    {
        self.indexes.remove(coll.as_bytes(), path);
    }

    /// Whether there is an index of a collection on a path.
    pub fn has_index(&self, coll: &str, path: &[String]) -> bool
        ensures { IsTrue result ↔ HasIndex self.now coll.now (path_of path.now) }
    {
        self.indexes.has(coll.as_bytes(), path)
    }

    /// Hands the bodies of a collection to a visitor, in order of place, until it asks for no more: all of them, or by
    /// an index those that may pass the front. True: all were taken.
    pub fn visit_asked<V: Visit>(
        &mut self,
        coll: &str,
        front: &Front<'_>,
        visitor: &mut V,
    ) -> Result<bool, Fault>
        ensures moves { Moves (indexed_state S.Store self.old) (indexed_state S.Store self.new)
            (VisitsAsked (V.took visitor.old) visitor.old visitor.new coll.now
            (Passes front.now) result) }
        ensures stopped { IfOk result (λ all. all ≡ false → V.is_done visitor.new) }
        ensures open { WasOpen (indexed_state S.Store self.old)
            (indexed_state S.Store self.new) result }
        ensures crash { AddsNothing (indexed_state S.Store self.old)
            (indexed_state S.Store self.new) }
        ensures indexes { KeepsIndexes self.old self.new }
    {
        match self.indexes.places_for(coll.as_bytes(), front)? {
            Some(places) => visit_places(&mut self.table, coll, places.as_slice(), visitor),
            None => self.table.visit_bodies(coll, visitor),
        }
    }

    /// The part of the document that comes behind `count` others of those of a collection that lie in a range, as
    /// `Indexes::part_behind` returns it.
    pub fn part_behind(
        &self,
        coll: &str,
        range: &Range,
        count: usize,
        descending: bool,
    ) -> Option<i64>
        ensures { IfSome result (λ q. (range.now.low ≤ℤ q) × (q ≤ℤ range.now.high)) }
    {
        self.indexes
            .part_behind(coll.as_bytes(), range, count, descending)
    }
}
