//! A list of changes, done whole or not at all.

ghost use Rattle.std.specs.Prelude.{◌≡◌, None, OnOk};
ghost use Rattle.sqlite.specs.State.{Survives};
ghost use Rattle.bson_store.specs.Drafted.{drafted};
ghost use Rattle.store_table.specs.Crash.{AddsNothing};
ghost use Rattle.store_table.specs.Moves.{MayLeave, WasOpen};
ghost use Rattle.bson_store.specs.Calls.{store_state, KeepsIndexes, MayDropIndexes, Relates};
ghost use Rattle.bson_store.specs.Drafting.{BeginsDraft, MakesDrafted, SettlesDrafted};
ghost use Rattle.bson_store.specs.Whole.{DoesAll, EditsAll, EditsOne, LeavesWhole};

use crate::draft::Draft;
use crate::drafting::{insert_raw, keep_raw, put_raw, remove, replace_raw};
use crate::edit::{DraftedEdits, Edit, ListRefusal};
use crate::error::fault_refusal;
use crate::store::Store;
use sqlite::Alter;
use store_model::StoreError;

/// No changes yet of the documents of the store: those that are put here by `draft_edit` are made in one step, by
/// `make_drafted`. Until then the store has to stay as it is.
///
/// Refused by Memory and Database.
pub fn begin_draft<S: Alter + Drop>(store: &mut Store<S>) -> Result<DraftedEdits, StoreError>
    ensures moves { Relates S.Store store.old store.new (BeginsDraft result) }
    ensures indexes { KeepsIndexes store.old store.new }
    ensures crash { AddsNothing (store_state S.Store store.old) (store_state S.Store store.new) }
{
    match store.table.last_place() {
        Ok(last) => Ok(DraftedEdits {
            draft: Draft::new(store.alloc, last),
        }),
        Err(fault) => Err(fault_refusal(fault)),
    }
}

/// Puts one change behind the others. It is refused as it would be if these were made, and they are then of no more use.
pub fn draft_edit<S: Alter + Drop>(
    store: &mut Store<S>,
    drafted: &mut DraftedEdits,
    edit: &Edit,
) -> Result<(), StoreError>
    ensures moves { Relates S.Store store.old store.new
        (EditsOne edit.now result drafted.old.draft drafted.new.draft) }
    ensures indexes { KeepsIndexes store.old store.new }
    ensures crash { AddsNothing (store_state S.Store store.old) (store_state S.Store store.new) }
{
    let draft = &mut drafted.draft;
    match edit {
        Edit::InsertRaw { name, bytes } => {
            insert_raw(store, draft, name.as_str(), bytes.as_slice())
        }
        Edit::ReplaceRaw { name, bytes } => {
            replace_raw(store, draft, name.as_str(), bytes.as_slice())
        }
        Edit::PutRaw { name, bytes } => put_raw(store, draft, name.as_str(), bytes.as_slice()),
        Edit::KeepRaw { name, bytes } => keep_raw(store, draft, name.as_str(), bytes.as_slice()),
        Edit::Remove { name, id } => remove(store, draft, name.as_str(), id),
    }
}

/// Puts changes behind the others, in their order. Each is refused as by `draft_edit`, and those behind it are not looked at;
/// the refusal has its position.
pub fn draft_edits<S: Alter + Drop>(
    store: &mut Store<S>,
    drafted: &mut DraftedEdits,
    edits: &[Edit],
) -> Result<(), ListRefusal>
    ensures moves { Relates S.Store store.old store.new
        (EditsAll edits.now result drafted.old.draft drafted.new.draft) }
    ensures indexes { KeepsIndexes store.old store.new }
    ensures crash { AddsNothing (store_state S.Store store.old) (store_state S.Store store.new) }
{
    for (at, edit) in edits.iter().enumerate() {
        match draft_edit(store, drafted, edit) {
            Ok(()) => {}
            Err(error) => {
                return Err(ListRefusal {
                    position: Some(at as u64),
                    error,
                });
            }
        }
    }
    Ok(())
}

/// Makes the changes in one step: all of them or, if the call is refused, none.
///
/// Refused by Memory and Database.
pub fn make_drafted<S: Alter + Drop>(
    store: &mut Store<S>,
    edits: &DraftedEdits,
) -> Result<(), StoreError>
    ensures moves { Relates S.Store store.old store.new (MakesDrafted edits.now.draft result) }
    ensures open { WasOpen (store_state S.Store store.old) (store_state S.Store store.new) result }
    ensures indexes { MayDropIndexes store.old store.new }
    ensures crash { Survives (store_state S.Store store.old) (store_state S.Store store.new)
        (MayLeave (drafted edits.now.draft) (store_state S.Store store.old)) }
    ensures settled { OnOk result (SettlesDrafted edits.now.draft (store_state S.Store store.old)
        (store_state S.Store store.new)) }
{
    match store.table.change_all(edits.draft.changes()) {
        Ok(()) => Ok(()),
        Err(fault) => Err(fault_refusal(fault)),
    }
}

/// The refusal of the list as a whole.
fn of_all(error: StoreError) -> ListRefusal
    ensures { result ≡ record { position = None; error = error } }
{
    ListRefusal {
        position: None,
        error,
    }
}

/// Makes the changes one after the other, each in the state that those before it leave, and commits them once. If one is
/// refused, none is made, and the refusal says which and why.
///
/// A change is refused as the call of its name; `PutRaw` by neither NotFound nor DuplicateId, and `KeepRaw` not by
/// DuplicateId. The list as a whole is refused by Memory and Database, with no position.
pub fn apply_all<S: Alter + Drop>(store: &mut Store<S>, edits: &[Edit]) -> Result<(), ListRefusal>
    ensures lists { Relates S.Store store.old store.new (DoesAll edits.now result) }
    ensures open { WasOpen (store_state S.Store store.old) (store_state S.Store store.new) result }
    ensures indexes { MayDropIndexes store.old store.new }
    ensures crash { LeavesWhole edits.now result (store_state S.Store store.old)
        (store_state S.Store store.new) }
{
    let mut drafted = match begin_draft(store) {
        Ok(drafted) => drafted,
        Err(error) => return Err(of_all(error)),
    };
    match draft_edits(store, &mut drafted, edits) {
        Ok(()) => {}
        Err(refusal) => return Err(refusal),
    }
    match make_drafted(store, &drafted) {
        Ok(()) => Ok(()),
        Err(error) => Err(of_all(error)),
    }
}
