//! Documents put into a store and found again, in one store and by way of a stream.

ghost use Rattle.std.specs.Prelude.{◌≡◌, List};
ghost use Rattle.sqlite.specs.State.{HasCleanDisk};
ghost use Rattle.bson_model.specs.View.{view};
ghost use Rattle.store_table.specs.Moves.{Stands};
ghost use Rattle.store_table.specs.Rows.{TableRow};
ghost use Rattle.store_model.specs.Table.{DocumentTable};
ghost use Rattle.bson_store.specs.Calls.{store_state, Relates};
ghost use Rattle.bson_store.specs.Shown.{Represents};
ghost use Rattle.usage_callers.specs.Found.{Copies, PutsAndGets};

use bson_store::{Bson, SliceSource, Store, StoreError, VecSink};
use sqlite::Alter;
use std::alloc::Global;

/// Puts the document that `bytes` mean into the collection `name`, and gets the one whose `_id` means the same as `id`:
/// if that is its own `_id`, what comes back is the document, in its written form. Refused as `insert_raw`, and then as
/// `get_raw`.
pub fn put_and_get<S: Alter + Drop>(
    store: &mut Store<S>,
    name: &str,
    bytes: &[u8],
    id: &Bson,
) -> Result<Vec<u8>, StoreError>
    ensures { Relates S.Store store.old store.new (PutsAndGets name.now bytes.now (view id.now) result) }
{
    store.insert_raw(name, bytes)?;
    store.get_raw(name, id)
}

/// Copies the collection `name` of one store into another one, and returns how many documents it has: if that one had no
/// document of the name, it has the same list then. Refused as `export`, and then as `import`.
pub fn copy_collection<S: Alter + Drop, T: Alter + Drop>(
    alloc: Global,
    from: &mut Store<S>,
    to: &mut Store<T>,
    name: &str,
) -> Result<u64, StoreError>
    ensures stays { Relates S.Store from.old from.new (λ docs after. after ≡ docs) }
    ensures copies { HasCleanDisk (store_state S.Store from.new) → (docs : List TableRow) → Stands (store_state S.Store from.old) docs
        → (a : DocumentTable) → Represents docs a → Relates T.Store to.old to.new (Copies name.now a result) }
{
    let mut sink = VecSink::new(alloc);
    from.export(name, &mut sink)?;
    let mut source = SliceSource::new(sink.bytes.as_slice());
    to.import(name, &mut source)
}
