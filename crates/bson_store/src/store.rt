//! The store.

ghost use Rattle.std.specs.Prelude.{◌≡◌, ◌↔◌, false, IsTrue, IfOk, IfErr, IsErrAnd, IsErrOf, IsSome, ℕ, List, MatchResult, Ok, Some};
ghost use Rattle.bson_base.specs.Device.{CanRefuse};
ghost use Rattle.sqlite.specs.Held.{state};
ghost use Rattle.sqlite.specs.State.{HasCleanDisk, Survives};
ghost use Rattle.store_table.specs.Crash.{AddsNothing};
ghost use Rattle.store_table.specs.Open.{HasNoTable, IsNameTaken, KeepsAll};
ghost use Rattle.store_table.specs.Renewal.{Makes};
ghost use Rattle.bson_store.specs.Opening.{IsRowUnder, Opens, RefusesToOpen};
ghost use Rattle.serde_json.specs.View.{view as data_of};
ghost use Rattle.bson_base.specs.Value.{Members};
ghost use Rattle.bson_model.specs.View.{view};
ghost use Rattle.store_table.specs.Moves.{AddsRows, Changes, MayLeave, Stands, WasOpen, with_row};
ghost use Rattle.store_model.specs.State.{State as Lists};
ghost use Rattle.bson_store.specs.Left.{FindsState, Holds, HoldsOnce, Keeps, Leaves, LeavesBytes, LeavesOnly, LeavesRead, LeavesTree};
ghost use Rattle.store_table.specs.Rows.{TableRow, with_body_at};
ghost use Rattle.bson_store.specs.Calls.{store_connection, store_state, Does, DoesBytes, DoesTree, DoesRead, HasIndex, KeepsIndexes, Looks, MayDropIndexes, Relates};
ghost use Rattle.bson_store.specs.Export.{SendsCollection};
ghost use Rattle.bson_store.specs.Refusals.{ReportsFailure, reply_by, as_done, as_flag, as_bytes, as_json};
ghost use Rattle.store_model.specs.Filter.{Path};
ghost use Rattle.store_model.specs.Refusal.{refusal};
ghost use Rattle.store_documents.specs.Bodies.{AnswersWritten};
ghost use Rattle.store_documents.specs.Names.{name_bytes};
ghost use Rattle.store_model.specs.Reading.{IsRead, read_value};
ghost use Rattle.store_model.specs.State.{IsName, IsFreeKey, in_bytes, in_json, insert, replace, set, unset, remove, get_raw, get_json, on};
ghost use Rattle.store_model.specs.declared.error.ErrorKind.TheVariants.{BadName, Database, NotAStore, Writer};

use crate::error::{fault_refusal, opening_refusal};
use crate::export::ExportVisitor;
use crate::indexed::IndexedTable;
use crate::row_test::RowTest;
use bson_bytes::put::has_no_zero;
use bson_meaning::KeyError;
use bson_model::extjson::Mode;
use bson_model::{Bson, Sink};
use serde_json::Value;
use sqlite::{Alter, Connection};
use std::alloc::Global;
use std::mem;
use store_documents::{
    ID_KEY, KeptRow, Name, body_with, body_without, json_of_body, key_of_id, row_of_bytes,
    row_of_json, value_of_json,
};
use store_model::{ErrorKind, StoreError};
use store_table::{Fault, Found};

/// The name of a collection. BadName if it can't be one.
pub(crate) fn good_name(name: &str) -> Result<Name<'_>, StoreError>
    ensures { MatchResult result (λ n. (name_bytes n ≡ name.now) × IsName name.now)
        (λ e. (e ≡ refusal BadName) × (IsName name.now → ⊥)) }
{
    match Name::new(name) {
        Some(name) => Ok(name),
        None => Err(StoreError::from(ErrorKind::BadName)),
    }
}

/// Whether a key can be set: it isn't `_id` and holds no 00.
fn is_free(key: &str) -> bool
    ensures { IsTrue result ↔ IsFreeKey key.now }
{
    key != ID_KEY && has_no_zero(key.as_bytes())
}

/// Named collections of documents, one document for each `_id` in a collection.
#[derive(Drop)]
pub struct Store<S: Alter + Drop> {
    pub(crate) table: IndexedTable<S>,
    pub(crate) alloc: Global,
}

impl<S: Alter + Drop> Store<S> {
    /// Opens the store of a database: its table of documents, which is made if there is none. Keys from before the
    /// two zeros of a double meant the same are replaced by current ones, all in one transaction; a table that has none
    /// is not written to. A refusal gives the connection back, with every row as it was.
    ///
    /// Refused by NotAStore, if `documents` can't be read by the four columns; by BadRow, with the place of the
    /// first row that no store can have written, under either key; by IdsCollide, if two documents of one collection
    /// have `_id`s that mean the same now, with the place of the first and the least place that has such a document
    /// before it; and by Memory and Database.
    pub fn open(
        alloc: Global,
        connection: Connection<S>,
    ) -> Result<Store<S>, (StoreError, Connection<S>)>
        ensures opened { IfOk result (λ s. HasCleanDisk (store_state S.Store s)
            → Opens (state S.Store connection) (store_state S.Store s)) }
        ensures refused { IfErr result (λ e. HasCleanDisk (state S.Store e.1)
            → RefusesToOpen (state S.Store connection) (state S.Store e.1) e.0) }
        ensures kept { IfErr result (λ e. HasCleanDisk (state S.Store e.1)
            → KeepsAll (state S.Store connection) (state S.Store e.1)) }
        ensures taken { (state S.Store connection).in_transaction ≡ false
            → HasNoTable (state S.Store connection) → IsNameTaken (state S.Store connection)
            → IsErrAnd result (λ e. (e.0 ≡ refusal NotAStore) × (e.1 ≡ connection)) }
        ensures busy { IsTrue (state S.Store connection).in_transaction
            → IsErrAnd result (λ e. (e.0 ≡ refusal Database) × (e.1 ≡ connection)) }
        ensures none { IfOk result (λ s. (n : List ℕ) (p : Path) → HasIndex s n p → ⊥) }
        // A crash leaves what it could leave before, or what the open makes: the empty table, or rows under their current keys.
        ensures crash { IfOk result (λ s. Survives (state S.Store connection)
            (store_state S.Store s) (Makes IsRowUnder (state S.Store connection))) }
        ensures crash_refused { IfErr result (λ e. Survives (state S.Store connection)
            (state S.Store e.1) (Makes IsRowUnder (state S.Store connection))) }
        // If `sqlite` opened the connection over a database that holds a state, under current keys or keys from before, whatever a
        // crash did to it, the store has that state, and a crash leaves only that. A crash in the open leaves the old keys or the
        // new ones, and both stand for the state; only current keys are left if the database had no others. The other tables stay.
        ensures finds { (x : Lists) → FindsState HoldsOnce (state S.Store connection) x
            → IfOk result (λ s. HasCleanDisk (store_state S.Store s)
            → Keeps (store_state S.Store s) x × LeavesOnly (Holds (state S.Store connection).now)
            (store_state S.Store s) x) }
        ensures leaves { (x : Lists) → FindsState Holds (state S.Store connection) x
            → IfErr result (λ e. HasCleanDisk (state S.Store e.1)
            → LeavesOnly (Holds (state S.Store connection).now) (state S.Store e.1) x) }
        ensures leaves_old { (x : Lists) → FindsState HoldsOnce (state S.Store connection) x
            → IfErr result (λ e. HasCleanDisk (state S.Store e.1)
            → LeavesOnly (HoldsOnce (state S.Store connection).now) (state S.Store e.1) x) }
    {
        match IndexedTable::open(alloc, connection, &RowTest { alloc }) {
            Ok(table) => Ok(Store { table, alloc }),
            Err((error, connection)) => Err((opening_refusal(error), connection)),
        }
    }

    /// Gives the connection back.
    pub fn close(self) -> Connection<S>
        ensures { result ≡ store_connection self }
    {
        let Store { table, alloc: _ } = self;
        table.close()
    }

    /// Writes a row after all others.
    fn put_last(&mut self, collection: &str, key: &[u8], body: &[u8]) -> Result<(), Fault>
        ensures moves { Relates S.Store self.old self.new
            (AddsRows 1 (with_row collection.now key.now body.now) result) }
        ensures open { WasOpen (store_state S.Store self.old)
            (store_state S.Store self.new) result }
        ensures indexes { MayDropIndexes self.old self.new }
        ensures crash { Survives (store_state S.Store self.old) (store_state S.Store self.new)
            (MayLeave (with_row collection.now key.now body.now) (store_state S.Store self.old)) }
        ensures full { IsErrOf result Fault.Places
            → AddsNothing (store_state S.Store self.old) (store_state S.Store self.new) }
    {
        self.table.append(collection, key, body)
    }

    /// Writes a body in the place of a row's.
    fn put_back(&mut self, found: &Found, body: &[u8]) -> Result<(), Fault>
        ensures moves { Relates S.Store self.old self.new
            (Changes (with_body_at found.now.place body.now) result) }
        ensures open { WasOpen (store_state S.Store self.old)
            (store_state S.Store self.new) result }
        ensures indexes { MayDropIndexes self.old self.new }
        ensures crash { Survives (store_state S.Store self.old) (store_state S.Store self.new)
            (MayLeave (with_body_at found.now.place body.now) (store_state S.Store self.old)) }
    {
        self.table.rewrite_at(found, body)
    }

    /// Puts a document last in a collection, whose row this is.
    fn insert_row(&mut self, name: Name<'_>, row: &KeptRow<'_>) -> Result<(), StoreError>
        ensures moves { (d : Members) → IsRead d → AnswersWritten d (Ok row.now)
            → Relates S.Store self.old self.new (DoesRead (name_bytes name.entry) insert d
            (reply_by as_done result)) }
        ensures open { WasOpen (store_state S.Store self.old)
            (store_state S.Store self.new) result }
        ensures indexes { MayDropIndexes self.old self.new }
        ensures crash { (d : Members) → IsRead d → AnswersWritten d (Ok row.now)
            → LeavesRead (name_bytes name.entry) insert d (reply_by as_done result)
            (store_state S.Store self.old) (store_state S.Store self.new) }
    {
        let collection = name.as_str();
        let key = row.key.as_slice();
        let found = match self.table.place_of(collection, key) {
            Ok(found) => found,
            Err(fault) => return Err(fault_refusal(fault)),
        };
        if let Some(_) = found {
            return Err(StoreError::from(ErrorKind::DuplicateId));
        }
        let body = row.body.as_slice();
        match self.put_last(collection, key, body) {
            Ok(()) => Ok(()),
            Err(fault) => Err(fault_refusal(fault)),
        }
    }

    /// Puts a document, whose row this is, in the place of that of a collection with its `_id`.
    fn replace_row(&mut self, name: Name<'_>, row: &KeptRow<'_>) -> Result<(), StoreError>
        ensures moves { (d : Members) → IsRead d → AnswersWritten d (Ok row.now)
            → Relates S.Store self.old self.new (DoesRead (name_bytes name.entry) replace d
            (reply_by as_done result)) }
        ensures open { WasOpen (store_state S.Store self.old)
            (store_state S.Store self.new) result }
        ensures indexes { MayDropIndexes self.old self.new }
        ensures crash { (d : Members) → IsRead d → AnswersWritten d (Ok row.now)
            → LeavesRead (name_bytes name.entry) replace d (reply_by as_done result)
            (store_state S.Store self.old) (store_state S.Store self.new) }
    {
        let collection = name.as_str();
        let key = row.key.as_slice();
        let found = match self.table.named(collection, key) {
            Ok(found) => found,
            Err(fault) => return Err(fault_refusal(fault)),
        };
        let Some(found) = found else {
            return Err(StoreError::from(ErrorKind::NotFound));
        };
        let body = row.body.as_slice();
        match self.put_back(&found, body) {
            Ok(()) => Ok(()),
            Err(fault) => Err(fault_refusal(fault)),
        }
    }

    /// The row of the document of a collection whose `_id` means the same as `id`.
    fn row_of(&mut self, name: Name<'_>, id: &Bson) -> Result<Option<Found>, StoreError>
        ensures moves { Relates S.Store self.old self.new
            (Looks (name_bytes name.entry) (view id.now) result) }
        ensures open { HasCleanDisk (store_state S.Store self.new) → (docs : List TableRow)
            → Stands (store_state S.Store self.old) docs
            → IfOk result (λ found. IsSome found → IsTrue (store_state S.Store self.old).is_open
            × IsTrue (store_state S.Store self.new).is_open) }
        ensures indexes { KeepsIndexes self.old self.new }
        ensures crash { AddsNothing (store_state S.Store self.old) (store_state S.Store self.new) }
    {
        let key = match key_of_id(self.alloc, id) {
            Ok(key) => key,
            // No document has an id that can't be written.
            Err(KeyError::NotPlain) => return Ok(None),
            Err(KeyError::TooLong) => return Ok(None),
            Err(KeyError::Memory) => return Err(StoreError::from(ErrorKind::Memory)),
        };
        let collection = name.as_str();
        let key = key.as_slice();
        match self.table.named(collection, key) {
            Ok(found) => Ok(found),
            Err(fault) => Err(fault_refusal(fault)),
        }
    }

    /// Puts the document that `bytes` mean last in the collection `name`, and makes the collection if it isn't
    /// there. The document is kept as it means: of a repeated key the last value, in the place of the first.
    ///
    /// Refused, in this order, by BadName; by EndInside, BadLength, NotTerminated, Faulty and TooDeep of the bytes; by
    /// NoId, TooLong, DuplicateId, Places; and by Memory and Database, but never in the place of a refusal by the name
    /// or the bytes.
    pub fn insert_raw(&mut self, name: &str, bytes: &[u8]) -> Result<(), StoreError>
        ensures moves { Relates S.Store self.old self.new
            (DoesBytes name.now (insert in_bytes) bytes.now (reply_by as_done result)) }
        ensures open { WasOpen (store_state S.Store self.old)
            (store_state S.Store self.new) result }
        ensures indexes { MayDropIndexes self.old self.new }
        ensures crash { LeavesBytes name.now (insert in_bytes) bytes.now (reply_by as_done result)
            (store_state S.Store self.old) (store_state S.Store self.new) }
    {
        let name = good_name(name)?;
        let row = row_of_bytes(self.alloc, bytes)?;
        self.insert_row(name, &row)
    }

    /// Puts the document that `json` stands for last in the collection `name`, in normal form with its keys in order.
    ///
    /// Refused, in this order, by BadName; NotAnObject; JsonRefused, TooDeep and Nul; NoId, TooLong, DuplicateId,
    /// Places; and by Memory and Database, but never in the place of BadName or NotAnObject.
    pub fn insert_json(&mut self, name: &str, json: Value) -> Result<(), StoreError>
        ensures moves { Relates S.Store self.old self.new
            (DoesTree name.now (insert in_json) (data_of json) (reply_by as_done result)) }
        ensures open { WasOpen (store_state S.Store self.old)
            (store_state S.Store self.new) result }
        ensures indexes { MayDropIndexes self.old self.new }
        ensures crash { LeavesTree name.now (insert in_json) (data_of json)
            (reply_by as_done result) (store_state S.Store self.old)
            (store_state S.Store self.new) }
    {
        let name = good_name(name)?;
        let row = row_of_json(self.alloc, json)?;
        self.insert_row(name, &row)
    }

    /// Puts the document that `bytes` mean in the place of that of the collection `name` whose `_id` means the same.
    ///
    /// Refused as `insert_raw`, but by NotFound if that is refused by DuplicateId, and never by Places.
    pub fn replace_raw(&mut self, name: &str, bytes: &[u8]) -> Result<(), StoreError>
        ensures moves { Relates S.Store self.old self.new
            (DoesBytes name.now (replace in_bytes) bytes.now (reply_by as_done result)) }
        ensures open { WasOpen (store_state S.Store self.old)
            (store_state S.Store self.new) result }
        ensures indexes { MayDropIndexes self.old self.new }
        ensures crash { LeavesBytes name.now (replace in_bytes) bytes.now (reply_by as_done result)
            (store_state S.Store self.old) (store_state S.Store self.new) }
    {
        let name = good_name(name)?;
        let row = row_of_bytes(self.alloc, bytes)?;
        self.replace_row(name, &row)
    }

    /// Puts the document that `json` stands for, in normal form with its keys in order, in the place of that of the
    /// collection `name` whose `_id` means the same.
    ///
    /// Refused as `insert_json`, but by NotFound if that is refused by DuplicateId, and never by Places.
    pub fn replace_json(&mut self, name: &str, json: Value) -> Result<(), StoreError>
        ensures moves { Relates S.Store self.old self.new
            (DoesTree name.now (replace in_json) (data_of json) (reply_by as_done result)) }
        ensures open { WasOpen (store_state S.Store self.old)
            (store_state S.Store self.new) result }
        ensures indexes { MayDropIndexes self.old self.new }
        ensures crash { LeavesTree name.now (replace in_json) (data_of json)
            (reply_by as_done result) (store_state S.Store self.old)
            (store_state S.Store self.new) }
    {
        let name = good_name(name)?;
        let row = row_of_json(self.alloc, json)?;
        self.replace_row(name, &row)
    }

    /// Puts a value, in normal form with its keys in order, under a top key of the document of the collection `name`
    /// whose `_id` means the same as `id`: in the key's place, or last if the key isn't there.
    ///
    /// Refused, in this order, by BadName; BadKey, if the key is `_id` or holds a 00; JsonRefused of the value;
    /// NotFound; TooDeep, Nul and TooLong of the changed document; and by Memory and Database, but never in the place
    /// of BadName or BadKey.
    pub fn set(&mut self, name: &str, id: &Bson, key: &str, value: Value) -> Result<(), StoreError>
        ensures moves { Relates S.Store self.old self.new
            (Does (on name.now (set (view id.now) key.now (read_value (data_of value))))
            (reply_by as_done result)) }
        ensures open { WasOpen (store_state S.Store self.old)
            (store_state S.Store self.new) result }
        ensures indexes { MayDropIndexes self.old self.new }
        ensures crash { Leaves (store_state S.Store self.old) (store_state S.Store self.new)
            (on name.now (set (view id.now) key.now (read_value (data_of value))))
            (reply_by as_done result) }
    {
        good_name(name)?;
        if !is_free(key) {
            return Err(StoreError::from(ErrorKind::BadKey));
        }
        let value = value_of_json(self.alloc, value)?;
        self.set_value(name, id, key, value)
    }

    /// Puts a value, in normal form with its keys in order, under a top key of a document, as `set` does with the value
    /// that JSON stands for.
    ///
    /// Refused as `set`, but never by JsonRefused.
    pub fn set_value(
        &mut self,
        name: &str,
        id: &Bson,
        key: &str,
        value: Bson,
    ) -> Result<(), StoreError>
        ensures moves { Relates S.Store self.old self.new
            (Does (on name.now (set (view id.now) key.now (Some (view value))))
            (reply_by as_done result)) }
        ensures open { WasOpen (store_state S.Store self.old)
            (store_state S.Store self.new) result }
        ensures indexes { MayDropIndexes self.old self.new }
        ensures crash { Leaves (store_state S.Store self.old) (store_state S.Store self.new)
            (on name.now (set (view id.now) key.now (Some (view value))))
            (reply_by as_done result) }
    {
        let mut value = value;
        let done = self.set_taken(name, id, key, &mut value);
        drop(value);
        done
    }

    /// Puts a value under a top key, as `set_value` does. It is taken from where it lies once the document is found, so
    /// that a refusal before that leaves it there.
    fn set_taken(
        &mut self,
        name: &str,
        id: &Bson,
        key: &str,
        value: &mut Bson,
    ) -> Result<(), StoreError>
        ensures moves { Relates S.Store self.old self.new
            (Does (on name.now (set (view id.now) key.now (Some (view value.old))))
            (reply_by as_done result)) }
        ensures open { WasOpen (store_state S.Store self.old)
            (store_state S.Store self.new) result }
        ensures indexes { MayDropIndexes self.old self.new }
        ensures crash { Leaves (store_state S.Store self.old) (store_state S.Store self.new)
            (on name.now (set (view id.now) key.now (Some (view value.old))))
            (reply_by as_done result) }
    {
        let name = good_name(name)?;
        if !is_free(key) {
            return Err(StoreError::from(ErrorKind::BadKey));
        }
        let Some(found) = self.row_of(name, id)? else {
            return Err(StoreError::from(ErrorKind::NotFound));
        };
        let old = found.body.as_slice();
        let value = mem::replace(value, Bson::Null);
        let body = body_with(self.alloc, old, key, value)?;
        let body = body.as_slice();
        match self.put_back(&found, body) {
            Ok(()) => Ok(()),
            Err(fault) => Err(fault_refusal(fault)),
        }
    }

    /// Takes a top key out of the document of the collection `name` whose `_id` means the same as `id`, and says
    /// whether it was there. The rest keeps its order.
    ///
    /// Refused, in this order, by BadName; BadKey, if the key is `_id` or holds a 00; NotFound; and by Memory and
    /// Database, but never in the place of BadName or BadKey.
    pub fn unset(&mut self, name: &str, id: &Bson, key: &str) -> Result<bool, StoreError>
        ensures moves { Relates S.Store self.old self.new
            (Does (on name.now (unset (view id.now) key.now)) (reply_by as_flag result)) }
        ensures open { WasOpen (store_state S.Store self.old)
            (store_state S.Store self.new) result }
        ensures indexes { MayDropIndexes self.old self.new }
        ensures crash { Leaves (store_state S.Store self.old) (store_state S.Store self.new)
            (on name.now (unset (view id.now) key.now)) (reply_by as_flag result) }
    {
        let name = good_name(name)?;
        if !is_free(key) {
            return Err(StoreError::from(ErrorKind::BadKey));
        }
        let Some(found) = self.row_of(name, id)? else {
            return Err(StoreError::from(ErrorKind::NotFound));
        };
        let old = found.body.as_slice();
        let unset = body_without(self.alloc, old, key)?;
        if !unset.was_there {
            return Ok(false);
        }
        let body = unset.body.as_slice();
        match self.put_back(&found, body) {
            Ok(()) => Ok(true),
            Err(fault) => Err(fault_refusal(fault)),
        }
    }

    /// Takes the document of the collection `name` whose `_id` means the same as `id` away.
    ///
    /// Refused by BadName, NotFound, Memory and Database.
    pub fn remove(&mut self, name: &str, id: &Bson) -> Result<(), StoreError>
        ensures moves { Relates S.Store self.old self.new
            (Does (on name.now (remove (view id.now))) (reply_by as_done result)) }
        ensures open { WasOpen (store_state S.Store self.old)
            (store_state S.Store self.new) result }
        ensures indexes { MayDropIndexes self.old self.new }
        ensures crash { Leaves (store_state S.Store self.old) (store_state S.Store self.new)
            (on name.now (remove (view id.now))) (reply_by as_done result) }
    {
        let name = good_name(name)?;
        let Some(found) = self.row_of(name, id)? else {
            return Err(StoreError::from(ErrorKind::NotFound));
        };
        match self.table.remove_at(&found) {
            Ok(()) => Ok(()),
            Err(fault) => Err(fault_refusal(fault)),
        }
    }

    /// The written form of the document of the collection `name` whose `_id` means the same as `id`.
    ///
    /// Refused by BadName, NotFound, Memory and Database.
    pub fn get_raw(&mut self, name: &str, id: &Bson) -> Result<Vec<u8>, StoreError>
        ensures moves { Relates S.Store self.old self.new
            (Does (on name.now (get_raw (view id.now))) (reply_by as_bytes result)) }
        ensures open { WasOpen (store_state S.Store self.old)
            (store_state S.Store self.new) result }
        ensures indexes { KeepsIndexes self.old self.new }
        ensures crash { AddsNothing (store_state S.Store self.old) (store_state S.Store self.new) }
    {
        let name = good_name(name)?;
        let Some(found) = self.row_of(name, id)? else {
            return Err(StoreError::from(ErrorKind::NotFound));
        };
        Ok(found.body)
    }

    /// The document of the collection `name` whose `_id` means the same as `id`, as Extended JSON.
    ///
    /// Refused, in this order, by BadName; NotFound; ReservedKey, if a document below the top has a key that
    /// Extended JSON reserves; FiniteDouble, if a double is finite and no zero; and by Memory and Database.
    pub fn get_json(&mut self, name: &str, id: &Bson, mode: Mode) -> Result<Value, StoreError>
        ensures moves { Relates S.Store self.old self.new
            (Does (on name.now (get_json mode (view id.now))) (reply_by as_json result)) }
        ensures open { WasOpen (store_state S.Store self.old)
            (store_state S.Store self.new) result }
        ensures indexes { KeepsIndexes self.old self.new }
        ensures crash { AddsNothing (store_state S.Store self.old) (store_state S.Store self.new) }
    {
        let name = good_name(name)?;
        let Some(found) = self.row_of(name, id)? else {
            return Err(StoreError::from(ErrorKind::NotFound));
        };
        let body = found.body.as_slice();
        let json = json_of_body(self.alloc, body, mode)?;
        Ok(json)
    }

    /// Writes the written documents of the collection `name` to `writer`, one after the other.
    ///
    /// Refused by BadName, and then nothing is written; by Writer, if a write failed or took nothing; and by Memory
    /// and Database. A beginning may have been written.
    pub fn export<W: Sink>(&mut self, name: &str, writer: &mut W) -> Result<(), StoreError>
        requires { CanRefuse (W.tally writer.old) }
        ensures moves { Relates S.Store self.old self.new
            (SendsCollection name.now (W.tally writer.old) (W.tally writer.new) result) }
        ensures open { WasOpen (store_state S.Store self.old)
            (store_state S.Store self.new) result }
        // `Writer` is reported exactly if a write failed, whatever the disk does.
        ensures device { ReportsFailure Writer result (W.tally writer.old).failures
            (W.tally writer.new).failures }
        ensures indexes { KeepsIndexes self.old self.new }
        ensures crash { AddsNothing (store_state S.Store self.old) (store_state S.Store self.new) }
    {
        let name = good_name(name)?;
        let mut visitor = ExportVisitor {
            writer,
            failed: false,
        };
        let sent = self.table.visit_bodies(name.as_str(), &mut visitor);
        if visitor.failed {
            return Err(StoreError::from(ErrorKind::Writer));
        }
        match sent {
            Ok(_) => Ok(()),
            Err(fault) => Err(fault_refusal(fault)),
        }
    }

    /// The allocator that the store takes its memory from.
    pub(crate) fn allocator(&self) -> Global {
        self.alloc
    }
}
