//! Many documents at once: all of them go into a collection, or none.

ghost use Rattle.std.specs.Prelude.{◌≡◌, ◌||◌, ℕ, List, length, map, false, Some, None, IfOk, IfErr, IsErrOf, IsTrue};
ghost use Rattle.bson_base.specs.Device.{CanFail};
ghost use Rattle.std.specs.List.{AllZip};
ghost use Rattle.std.specs.Str.{bytes_eq};
ghost use Rattle.serde_json.specs.Data.{Data};
ghost use Rattle.serde_json.specs.View.{view as data_of};
ghost use Rattle.sqlite.specs.State.{HasCleanDisk, Survives};
ghost use Rattle.store_table.specs.Crash.{AddsNothing};
ghost use Rattle.store_table.specs.Moves.{AddsRows, MayLeave, Stands, WasOpen, with_rows};
ghost use Rattle.store_table.specs.Rows.{TableRow};
ghost use Rattle.bson_store.specs.Left.{LeavesImport, LeavesMany, LeavesRows};
ghost use Rattle.store_documents.specs.Names.{name_bytes};
ghost use Rattle.bson_base.specs.Kinds.{AreBytes};
ghost use Rattle.store_model.specs.Reading.{ReadsStream, ReadsTrees};
ghost use Rattle.store_documents.specs.Judging.{Judges};
ghost use Rattle.store_documents.specs.Keys.{has_met};
ghost use Rattle.store_documents.specs.Loading.{HasTaken};
ghost use Rattle.bson_store.specs.Calls.{store_state, Relates};
ghost use Rattle.bson_store.specs.Many.{AddsAll, DoesMany, FindsTaken, Imports, IsAddFault, Lends, Meets};
ghost use Rattle.bson_store.specs.Refusals.{ReportsFailure, as_number, reply_by};
ghost use Rattle.store_model.specs.declared.error.ErrorKind.TheVariants.{Reader};

use crate::error::fault_refusal;
use crate::store::{Store, good_name};
use bson_base::read_all;
use bson_model::Source;
use serde_json::Value;
use sqlite::Alter;
use std::alloc::{AllocError, Global};
use store_documents::{KeptRow, Keys, Loader, Name, first_repeated, judge_stream, judge_trees};
use store_model::{ErrorKind, StoreError};
use store_table::{Fault, NewRow};

/// The rows of the documents of a stream.
fn judged(alloc: Global, stream: &[u8]) -> Result<Vec<KeptRow<'_>>, StoreError>
    ensures rows { Judges (ReadsStream stream.now) result }
    ensures range { AreBytes stream.now }
{
    judge_stream(alloc, stream)
}

/// The rows in the table's terms. No bytes are copied.
fn new_rows<'a>(alloc: Global, rows: &'a [KeptRow<'_>]) -> Result<Vec<NewRow<'a>>, AllocError>
    ensures { IfOk result (λ new. AllZip Lends new.items rows.now) }
{
    let mut new = Vec::new(alloc);
    for row in rows {
        new.push(NewRow {
            idkey: row.key.as_slice(),
            body: row.body.as_slice(),
        })?;
    }
    Ok(new)
}

impl<S: Alter + Drop> Store<S> {
    /// Whether a key is in the collection or was met before. If it wasn't, it is met now.
    fn is_taken<'a>(
        &mut self,
        collection: &str,
        met: &mut Keys<'a>,
        key: &'a [u8],
    ) -> Result<bool, StoreError>
        ensures moves { Relates S.Store self.old self.new
            (Meets collection.now key.now met.old result) }
        ensures open { WasOpen (store_state S.Store self.old)
            (store_state S.Store self.new) result }
        ensures crash { AddsNothing (store_state S.Store self.old) (store_state S.Store self.new) }
        ensures own { IfErr result IsAddFault }
        ensures met { IfOk result (λ taken. taken ≡ false → (k : List ℕ)
            → has_met met.new k ≡ bytes_eq k key.now || has_met met.old k) }
    {
        let found = match self.table.place_of(collection, key) {
            Ok(found) => found,
            Err(fault) => return Err(fault_refusal(fault)),
        };
        if let Some(_) = found {
            return Ok(true);
        }
        let is_new = met.meet(key)?;
        Ok(!is_new)
    }

    /// The place of the first row whose key is in the collection or that of a row before; each is looked up.
    fn first_looked_up(
        &mut self,
        collection: &str,
        rows: &[KeptRow<'_>],
    ) -> Result<Option<u64>, StoreError>
        ensures moves { Relates S.Store self.old self.new
            (FindsTaken collection.now rows.now result) }
        ensures own { IfErr result IsAddFault }
        ensures open { HasCleanDisk (store_state S.Store self.new) → (docs : List TableRow)
            → Stands (store_state S.Store self.old) docs
            → IfOk result (λ _. IsTrue (store_state S.Store self.new).is_open
            → IsTrue (store_state S.Store self.old).is_open) }
        ensures crash { AddsNothing (store_state S.Store self.old) (store_state S.Store self.new) }
    {
        let mut met = Keys::new(self.alloc);
        for at in 0..rows.len() {
            let row = &rows[at];
            let key = row.key.as_slice();
            if self.is_taken(collection, &mut met, key)? {
                return Ok(Some(at as u64));
            }
        }
        Ok(None)
    }

    /// The place of the first row whose key is in the collection or that of a row before. In a table without rows no
    /// key is looked up.
    fn first_taken(
        &mut self,
        collection: &str,
        rows: &[KeptRow<'_>],
    ) -> Result<Option<u64>, StoreError>
        ensures moves { Relates S.Store self.old self.new
            (FindsTaken collection.now rows.now result) }
        ensures own { IfErr result IsAddFault }
        ensures open { HasCleanDisk (store_state S.Store self.new) → (docs : List TableRow)
            → Stands (store_state S.Store self.old) docs
            → IfOk result (λ _. IsTrue (store_state S.Store self.new).is_open
            → IsTrue (store_state S.Store self.old).is_open) }
        ensures crash { AddsNothing (store_state S.Store self.old) (store_state S.Store self.new) }
    {
        let is_empty = match self.table.is_empty() {
            Ok(is_empty) => is_empty,
            Err(fault) => return Err(fault_refusal(fault)),
        };
        if is_empty {
            let place = first_repeated(self.alloc, rows)?;
            return Ok(place);
        }
        self.first_looked_up(collection, rows)
    }

    /// Writes all rows, in one transaction.
    fn write_all(&mut self, collection: &str, rows: &[NewRow<'_>]) -> Result<(), Fault>
        ensures moves { Relates S.Store self.old self.new
            (AddsRows (length rows.now) (with_rows collection.now rows.now) result) }
        ensures open { WasOpen (store_state S.Store self.old)
            (store_state S.Store self.new) result }
        ensures crash { Survives (store_state S.Store self.old) (store_state S.Store self.new)
            (MayLeave (with_rows collection.now rows.now) (store_state S.Store self.old)) }
        ensures full { IsErrOf result Fault.Places
            → AddsNothing (store_state S.Store self.old) (store_state S.Store self.new) }
    {
        self.table.append_all(collection, rows)
    }

    /// Puts the documents that these rows are last in a collection, and says how many they are.
    fn add_all(&mut self, name: Name<'_>, rows: &[KeptRow<'_>]) -> Result<u64, StoreError>
        ensures moves { Relates S.Store self.old self.new
            (AddsAll (name_bytes name.entry) rows.now result) }
        ensures open { WasOpen (store_state S.Store self.old)
            (store_state S.Store self.new) result }
        ensures own { IfErr result IsAddFault }
        ensures crash { LeavesRows (name_bytes name.entry) rows.now result
            (store_state S.Store self.old) (store_state S.Store self.new) }
    {
        let collection = name.as_str();
        let taken = self.first_taken(collection, rows)?;
        if let Some(document) = taken {
            return Err(StoreError::at(ErrorKind::DuplicateId, document));
        }
        let new = new_rows(self.alloc, rows)?;
        match self.write_all(collection, new.as_slice()) {
            Ok(()) => Ok(new.len() as u64),
            Err(fault) => Err(fault_refusal(fault)),
        }
    }

    /// Puts the documents of a stream last in the collection `name`, in their order, and returns how many they are: the
    /// bytes that `reader` has up to its end, one document after the other. Either all are put in or none.
    ///
    /// Refused by BadName, before anything is read; by Reader, if a read failed; by EndInside, BadLength,
    /// NotTerminated, Faulty, TooDeep, NoId and TooLong of the first document that is refused for one of these; else by
    /// DuplicateId of the first whose `_id` is in the collection or in an earlier document of the stream; by Places;
    /// and by Memory and Database, but never in the place of BadName. `document` says which document was refused. Of
    /// the reader nothing is said after Reader; with any other refusal none of its reads failed.
    pub fn import<R: Source>(&mut self, name: &str, reader: &mut R) -> Result<u64, StoreError>
        requires { CanFail (R.feed reader.old) }
        ensures moves { Relates S.Store self.old self.new (Imports name.now (R.feed reader.old)
            (R.feed reader.new) result) }
        ensures open { WasOpen (store_state S.Store self.old)
            (store_state S.Store self.new) result }
        // `Reader` is reported exactly if a read failed, whatever the disk does.
        ensures device { ReportsFailure Reader result (R.feed reader.old).failures
            (R.feed reader.new).failures }
        ensures crash { LeavesImport name.now (R.feed reader.old) (R.feed reader.new) result
            (store_state S.Store self.old) (store_state S.Store self.new) }
    {
        let name = good_name(name)?;
        let bytes = read_all(self.alloc, reader)?;
        let stream = bytes.as_slice();
        let rows = judged(self.alloc, stream)?;
        self.add_all(name, rows.as_slice())
    }

    /// Puts the documents of a stream in memory last in the collection `name`, as `import` does with what a reader has.
    ///
    /// Refused as `import`, but never by Reader.
    pub fn import_bytes(&mut self, name: &str, stream: &[u8]) -> Result<u64, StoreError>
        ensures moves { Relates S.Store self.old self.new
            (DoesMany name.now (ReadsStream stream.now) (reply_by as_number result)) }
        ensures open { WasOpen (store_state S.Store self.old)
            (store_state S.Store self.new) result }
        ensures crash { LeavesMany name.now (ReadsStream stream.now) (reply_by as_number result)
            (store_state S.Store self.old) (store_state S.Store self.new) }
    {
        let name = good_name(name)?;
        let rows = judged(self.alloc, stream)?;
        self.add_all(name, rows.as_slice())
    }

    /// Puts the documents that JSON trees stand for (MongoDB Extended JSON v2) last in the collection `name`, in their
    /// order and each in normal form with its keys in order, and returns how many they are. Either all are put in or
    /// none.
    ///
    /// Refused by BadName; by NotAnObject, JsonRefused, TooDeep, Nul, NoId and TooLong of the first document that is
    /// refused for one of these; else by DuplicateId of the first whose `_id` is in the collection or in an earlier
    /// tree; by Places; and by Memory and Database, but never in the place of BadName. `document` says which document
    /// was refused.
    pub fn load_json(&mut self, name: &str, trees: Vec<Value>) -> Result<u64, StoreError>
        ensures moves { Relates S.Store self.old self.new
            (DoesMany name.now (ReadsTrees (map data_of trees.items)) (reply_by as_number result)) }
        ensures open { WasOpen (store_state S.Store self.old)
            (store_state S.Store self.new) result }
        ensures crash { LeavesMany name.now (ReadsTrees (map data_of trees.items))
            (reply_by as_number result) (store_state S.Store self.old)
            (store_state S.Store self.new) }
    {
        let name = good_name(name)?;
        let rows = judge_trees(self.alloc, trees)?;
        self.add_all(name, rows.as_slice())
    }

    /// Puts the documents whose trees a loader took last in the collection `name`, as `load_json` does with the trees,
    /// and returns how many they are. So trees that come one after the other needn't be there at once.
    ///
    /// Refused as `load_json`.
    pub fn load(&mut self, name: &str, loader: Loader) -> Result<u64, StoreError>
        ensures moves { (js : List Data) → HasTaken loader js
            → Relates S.Store self.old self.new (DoesMany name.now (ReadsTrees js)
            (reply_by as_number result)) }
        ensures open { WasOpen (store_state S.Store self.old)
            (store_state S.Store self.new) result }
        ensures crash { (js : List Data) → HasTaken loader js
            → LeavesMany name.now (ReadsTrees js) (reply_by as_number result)
            (store_state S.Store self.old) (store_state S.Store self.new) }
    {
        let name = good_name(name)?;
        let rows = loader.finish()?;
        self.add_all(name, rows.as_slice())
    }
}
