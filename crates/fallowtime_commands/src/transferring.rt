//! Whole collections: dropped, renamed, copied.

ghost use Rattle.std.specs.Prelude.{◌≡◌, ◌++◌, ◌∷◌, [], ◌&&◌, ◌==◌, IfOk, List, Bool, MatchResult, map, not};
ghost use Rattle.bson_base.specs.Value.{Members};
ghost use Rattle.bson_bytes.specs.Encode.{encode};
ghost use Rattle.store_model.specs.Reading.{Documents};
ghost use Rattle.store_model.specs.Refusal.{refusal};
ghost use Rattle.store_model.specs.State.{AreKept, IsKept};
ghost use Rattle.store_model.specs.declared.error.ErrorKind.TheVariants.{Memory};
ghost use Rattle.store_table.specs.Crash.{AddsNothing};
ghost use Rattle.store_table.specs.Moves.{WasOpen};
ghost use Rattle.bson_store.specs.Calls.{Relates, store_state};
ghost use Rattle.bson_store.specs.Export.{bytes_of_each};
ghost use Rattle.bson_store.specs.declared.edit.Edit.{Edit as Change};
ghost use Rattle.fallowtime_commands.specs.Changing.{AreEdits, IsRemoval};
ghost use Rattle.fallowtime_commands.specs.Left.{LeavesApplied, LeavesTransfer};
ghost use Rattle.fallowtime_commands.specs.Performing.{IsNumber as IsCount, reply_of};
ghost use Rattle.fallowtime_commands.specs.Transferring.{AreInsertions, Carries, Displaces, Gathers, HasBodies, IsDraft, IsInsertion, IsNumber, Learns, LeavesCarried, MakesAll, Readies, Transfers, gives_way};
ghost use Rattle.fallowtime_requests.specs.declared.request.Transfer.TheVariants as transfers;
ghost use Rattle.fallowtime_requests.specs.declared.request.Work.TheVariants as works;

use crate::answer::Answer;
use crate::asking::count;
use crate::changing::{discard, removal_of_body};
use crate::meant::find_meant;
use bson_store::{Edit, ErrorKind, Store, StoreError, apply_all};
use fallowtime_requests::{Transfer, ask_for_all};
use sqlite::Alter;
use std::alloc::{AllocError, Global};

/// How many documents the collection `name` has.
fn number_in<S: Alter + Drop>(
    alloc: Global,
    store: &mut Store<S>,
    name: &str,
) -> Result<u64, StoreError>
    ensures moves { Relates S.Store store.old store.new (Learns IsNumber name.now result) }
    ensures crash { AddsNothing (store_state S.Store store.old) (store_state S.Store store.new) }
{
    let everything = ask_for_all(alloc);
    count(alloc, store, name, &everything)
}

/// The written forms of the documents of the collection `name`, in its order.
fn bodies_in<S: Alter + Drop>(
    alloc: Global,
    store: &mut Store<S>,
    name: &str,
) -> Result<Vec<Vec<u8>>, StoreError>
    ensures moves { Relates S.Store store.old store.new (Learns HasBodies name.now result) }
    ensures crash { AddsNothing (store_state S.Store store.old) (store_state S.Store store.new) }
{
    let everything = ask_for_all(alloc);
    find_meant(alloc, store, name, &everything, true)
}

/// Whether the documents of the collection `new` are removed for those of the collection `name`, which isn't the same.
fn gives_way(drops: bool, name: &str, new: &str) -> bool
    ensures { result ≡ gives_way drops name.now new.now }
{
    drops && new != name
}

/// Whether documents can't go to the collection `new`, as it has this number of others, which aren't removed.
fn is_taken(others: u64, drops: bool, name: &str, new: &str) -> bool
    ensures { result ≡ (not (others == 0) && not (gives_way drops name.now new.now)) }
{
    others != 0 && !gives_way(drops, name, new)
}

/// Whether there are documents in the collection `name`, and none in `new`, to which they are to go, or such that are
/// removed.
fn may_go<S: Alter + Drop>(
    alloc: Global,
    store: &mut Store<S>,
    name: &str,
    new: &str,
    drops: bool,
) -> Result<(), StoreError>
    ensures moves { Relates S.Store store.old store.new (Readies (transfers.Rename new.entry drops) name.now result) }
    ensures crash { AddsNothing (store_state S.Store store.old) (store_state S.Store store.new) }
{
    let number = number_in(alloc, store, name)?;
    if number == 0 {
        return Err(StoreError::from(ErrorKind::NotFound));
    }
    let others = number_in(alloc, store, new)?;
    if is_taken(others, drops, name, new) {
        return Err(StoreError::from(ErrorKind::DuplicateId));
    }
    Ok(())
}

/// Whether the documents of the collection `name` may go.
fn test<S: Alter + Drop>(
    alloc: Global,
    store: &mut Store<S>,
    name: &str,
    how: Transfer<'_>,
) -> Result<(), StoreError>
    ensures moves { Relates S.Store store.old store.new (Readies how.entry name.now result) }
    ensures crash { AddsNothing (store_state S.Store store.old) (store_state S.Store store.new) }
{
    match how {
        Transfer::Drop => Ok(()),
        Transfer::Rename(new, drops) => may_go(alloc, store, name, new, drops),
        Transfer::Copy(new) => may_go(alloc, store, name, new, false),
    }
}

/// The written forms of the documents that are where others take their place.
fn displaced_bodies<S: Alter + Drop>(
    alloc: Global,
    store: &mut Store<S>,
    how: Transfer<'_>,
) -> Result<Vec<Vec<u8>>, StoreError>
    ensures moves { Relates S.Store store.old store.new (Displaces how.entry result) }
    ensures crash { AddsNothing (store_state S.Store store.old) (store_state S.Store store.new) }
{
    match how {
        Transfer::Rename(new, _) => bodies_in(alloc, store, new),
        Transfer::Drop => Ok(Vec::new(alloc)),
        Transfer::Copy(_) => Ok(Vec::new(alloc)),
    }
}

/// The written forms of the documents of the collection `name`, and of those that are where others take their place.
fn gather<S: Alter + Drop>(
    alloc: Global,
    store: &mut Store<S>,
    name: &str,
    how: Transfer<'_>,
) -> Result<(Vec<Vec<u8>>, Vec<Vec<u8>>), StoreError>
    ensures moves { Relates S.Store store.old store.new (Gathers how.entry name.now result) }
    ensures crash { AddsNothing (store_state S.Store store.old) (store_state S.Store store.new) }
{
    let bodies = bodies_in(alloc, store, name)?;
    let others = displaced_bodies(alloc, store, how)?;
    Ok((bodies, others))
}

/// The change that puts a document into the collection `name`.
fn insertion(alloc: Global, name: &str, body: &[u8]) -> Result<Edit, AllocError>
    ensures { (d : Members) → body.now ≡ encode d → IfOk result (λ x. IsInsertion name.now x d) }
{
    let name = String::from_str(alloc, name)?;
    let bytes = Vec::from_slice(alloc, body)?;
    Ok(Edit::InsertRaw { name, bytes })
}

/// Puts one more insertion behind the other changes.
fn push_insertion(
    alloc: Global,
    name: &str,
    body: &[u8],
    edits: &mut Vec<Edit>,
) -> Result<(), StoreError>
    ensures { MatchResult result (λ _. (x : Change) × (edits.new.items ≡ edits.old.items ++ x ∷ [])
        × ((d : Members) → body.now ≡ encode d → IsInsertion name.now x d)) (λ e. e ≡ refusal Memory) }
{
    let edit = insertion(alloc, name, body)?;
    edits.push(edit)?;
    Ok(())
}

/// Puts the insertions of the documents of these bodies into the collection `name` behind the other changes.
fn push_insertions(
    alloc: Global,
    name: &str,
    bodies: &[Vec<u8>],
    edits: &mut Vec<Edit>,
) -> Result<(), StoreError>
    ensures { (ds : Documents) → bytes_of_each bodies.now ≡ map encode ds → MatchResult result
        (λ _. (xs : List Change) × AreInsertions name.now xs ds × (edits.new.items ≡ edits.old.items ++ xs))
        (λ e. e ≡ refusal Memory) }
{
    for body in bodies {
        push_insertion(alloc, name, body.as_slice(), edits)?;
    }
    Ok(())
}

/// Puts one more removal behind the other changes.
fn push_removal(
    alloc: Global,
    name: &str,
    body: &[u8],
    edits: &mut Vec<Edit>,
) -> Result<(), StoreError>
    ensures { MatchResult result (λ _. (x : Change) × (edits.new.items ≡ edits.old.items ++ x ∷ [])
        × ((d : Members) → IsKept d → body.now ≡ encode d → IsRemoval name.now d x))
        (λ e. (d : Members) → IsKept d → body.now ≡ encode d → e ≡ refusal Memory) }
{
    let removal = removal_of_body(alloc, name, body)?;
    edits.push(removal)?;
    Ok(())
}

/// Puts the removals of the documents of these bodies from the collection `name` behind the other changes.
fn push_removals(
    alloc: Global,
    name: &str,
    bodies: &[Vec<u8>],
    edits: &mut Vec<Edit>,
) -> Result<(), StoreError>
    ensures { (ds : Documents) → AreKept ds → bytes_of_each bodies.now ≡ map encode ds → MatchResult result
        (λ _. (xs : List Change) × AreEdits name.now works.Remove ds xs × (edits.new.items ≡ edits.old.items ++ xs))
        (λ e. e ≡ refusal Memory) }
{
    for body in bodies {
        push_removal(alloc, name, body.as_slice(), edits)?;
    }
    Ok(())
}

/// Puts the changes that rename the collection `name` behind the others: its documents go to the collection `new`, where
/// `others` are removed.
fn push_renaming(
    alloc: Global,
    name: &str,
    new: &str,
    bodies: &[Vec<u8>],
    others: &[Vec<u8>],
    edits: &mut Vec<Edit>,
) -> Result<(), StoreError>
    ensures { (drops : Bool) (ds es : Documents) → AreKept ds → bytes_of_each bodies.now ≡ map encode ds
        → AreKept es → bytes_of_each others.now ≡ map encode es → edits.old.items ≡ [] → MatchResult result
        (λ _. IsDraft (transfers.Rename new.entry drops) name.now ds es edits.new.items) (λ e. e ≡ refusal Memory) }
{
    push_removals(alloc, name, bodies, edits)?;
    push_removals(alloc, new, others, edits)?;
    push_insertions(alloc, new, bodies, edits)
}

/// Puts the changes that are to be made of the documents of these bodies, which are those of the collection `name`, and
/// of those that are where others take their place, where no changes are yet.
fn push_changes(
    alloc: Global,
    name: &str,
    how: Transfer<'_>,
    bodies: &[Vec<u8>],
    others: &[Vec<u8>],
    edits: &mut Vec<Edit>,
) -> Result<(), StoreError>
    ensures { (ds es : Documents) → AreKept ds → bytes_of_each bodies.now ≡ map encode ds
        → AreKept es → bytes_of_each others.now ≡ map encode es → edits.old.items ≡ [] → MatchResult result
        (λ _. IsDraft how.entry name.now ds es edits.new.items) (λ e. e ≡ refusal Memory) }
{
    match how {
        Transfer::Drop => push_removals(alloc, name, bodies, edits),
        Transfer::Rename(new, _) => push_renaming(alloc, name, new, bodies, others, edits),
        Transfer::Copy(new) => push_insertions(alloc, new, bodies, edits),
    }
}

/// These changes.
fn draft(
    alloc: Global,
    name: &str,
    how: Transfer<'_>,
    bodies: &[Vec<u8>],
    others: &[Vec<u8>],
) -> Result<Vec<Edit>, StoreError>
    ensures { (ds es : Documents) → AreKept ds → bytes_of_each bodies.now ≡ map encode ds
        → AreKept es → bytes_of_each others.now ≡ map encode es → MatchResult result
        (λ edits. IsDraft how.entry name.now ds es edits.items) (λ e. e ≡ refusal Memory) }
{
    let mut edits = Vec::new(alloc);
    push_changes(alloc, name, how, bodies, others, &mut edits)?;
    Ok(edits)
}

/// Makes the changes of so many documents in one step.
pub(crate) fn make<S: Alter + Drop>(
    store: &mut Store<S>,
    edits: &[Edit],
    number: u64,
) -> Result<Answer, StoreError>
    ensures moves { Relates S.Store store.old store.new (MakesAll edits.now number result) }
    ensures open { WasOpen (store_state S.Store store.old) (store_state S.Store store.new) result }
    ensures crash { LeavesApplied edits.now result (store_state S.Store store.old)
        (store_state S.Store store.new) }
    ensures shape { IfOk result IsCount }
{
    match apply_all(store, edits) {
        Ok(()) => Ok(Answer::Number(number)),
        Err(refusal) => Err(refusal.error),
    }
}

/// What `transfer` does once the documents may go.
fn carry<S: Alter + Drop>(
    alloc: Global,
    store: &mut Store<S>,
    name: &str,
    how: Transfer<'_>,
) -> Result<Answer, StoreError>
    ensures moves { Relates S.Store store.old store.new (Carries name.now how.entry result) }
    ensures open { WasOpen (store_state S.Store store.old) (store_state S.Store store.new) result }
    ensures crash { LeavesCarried name.now how.entry (reply_of result)
        (store_state S.Store store.old) (store_state S.Store store.new) }
    ensures shape { IfOk result IsCount }
{
    let (bodies, others) = gather(alloc, store, name, how)?;
    match draft(alloc, name, how, bodies.as_slice(), others.as_slice()) {
        Ok(edits) => {
            let done = make(store, edits.as_slice(), bodies.len() as u64);
            discard(edits);
            done
        }
        Err(error) => Err(error),
    }
}

/// Drops the collection `name`, or gives its documents to another one, or copies them there, in their order. It is one
/// step: all of them, or none. The answer is how many documents the collection had.
///
/// Refused by BadName; if they are to go to another collection, in this order, by NotFound, if there is none of them, by
/// BadName for the other name, and by DuplicateId, if the other collection has a document that isn't removed, as it is
/// by a renaming that drops, except of a collection to its own name; and by Memory, Database and Places.
pub(crate) fn transfer<S: Alter + Drop>(
    alloc: Global,
    store: &mut Store<S>,
    name: &str,
    how: Transfer<'_>,
) -> Result<Answer, StoreError>
    ensures moves { Relates S.Store store.old store.new (Transfers name.now how.entry result) }
    ensures open { WasOpen (store_state S.Store store.old) (store_state S.Store store.new) result }
    ensures crash { LeavesTransfer name.now how.entry (reply_of result)
        (store_state S.Store store.old) (store_state S.Store store.new) }
    ensures shape { IfOk result IsCount }
{
    test(alloc, store, name, how)?;
    carry(alloc, store, name, how)
}
