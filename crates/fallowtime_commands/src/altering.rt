//! An update of the document with an `_id`.

ghost use Rattle.std.specs.Prelude.{◌≡◌, IfOk, MatchResult, map};
ghost use Rattle.bson_base.specs.Value.{Members};
ghost use Rattle.bson_bytes.specs.Encode.{encode};
ghost use Rattle.bson_model.specs.View.{view};
ghost use Rattle.store_model.specs.State.{IsKept};
ghost use Rattle.store_table.specs.Moves.{WasOpen};
ghost use Rattle.store_update.specs.Plan.{plan_of};
ghost use Rattle.bson_store.specs.Calls.{store_state, Relates};
ghost use Rattle.fallowtime_commands.specs.Altering.{Alters, AppliesAltered, IsAlteration, IsAltered, altered_by};
ghost use Rattle.fallowtime_commands.specs.Changing.{IsUnrenewedAt, Updates};
ghost use Rattle.fallowtime_commands.specs.Left.{LeavesAltered, LeavesApplied};
ghost use Rattle.fallowtime_commands.specs.Performing.{reply_of};

use crate::answer::Answer;
use crate::changing::{Unmade, discard, outcome_of, push, update_of_body};
use bson_store::{Bson, Edit, Store, StoreError, apply_all};
use sqlite::Alter;
use std::alloc::Global;
use store_update::Step;

/// The change that is to be made of the document of a body, as a list; an empty one if it stays as it is.
pub fn alteration(
    alloc: Global,
    name: &str,
    body: &[u8],
    steps: &[Step],
) -> Result<Vec<Edit>, Unmade>
    ensures { (d : Members) → IsKept d → body.now ≡ encode d → MatchResult result
        (λ edits. IsAlteration name.now (map plan_of steps.now) d edits.items)
        (IsUnrenewedAt (Updates (map plan_of steps.now) d) 0) }
{
    let edit = update_of_body(alloc, name, 0, body, steps)?;
    let mut edits = Vec::new(alloc);
    push(edit, &mut edits)?;
    Ok(edits)
}

/// What is returned after these changes: if `told`, whether there was one.
pub fn altered(told: bool, edits: &[Edit]) -> Answer
    ensures { result ≡ altered_by told edits.now }
{
    if !told {
        return Answer::Nothing;
    }
    match edits {
        [] => Answer::Flag(false),
        _ => Answer::Flag(true),
    }
}

/// Makes the change.
fn make<S: Alter + Drop>(
    store: &mut Store<S>,
    edits: &[Edit],
    told: bool,
) -> Result<Answer, StoreError>
    ensures moves { Relates S.Store store.old store.new (AppliesAltered edits.now told result) }
    ensures open { WasOpen (store_state S.Store store.old) (store_state S.Store store.new) result }
    ensures crash { LeavesApplied edits.now result (store_state S.Store store.old)
        (store_state S.Store store.new) }
    ensures shape { IfOk result (λ a. a ≡ altered_by told edits.now) }
{
    match apply_all(store, edits) {
        Ok(()) => Ok(altered(told, edits)),
        Err(refusal) => Err(refusal.error),
    }
}

/// Makes of the document of the collection `name` whose `_id` means the same as `id` what the steps say, in one step. It
/// keeps its `_id`, its place, and what is under keys that they don't name, to the bit. If `told`, the answer is whether
/// it is another one then; else there is none. If the steps can't be made on it, the answer says why.
///
/// Refused by BadName and NotFound; TooDeep, Nul and TooLong of what becomes of it; and by Memory and Database.
pub(crate) fn alter<S: Alter + Drop>(
    alloc: Global,
    store: &mut Store<S>,
    name: &str,
    id: &Bson,
    steps: &[Step],
    told: bool,
) -> Result<Answer, StoreError>
    ensures moves { Relates S.Store store.old store.new
        (Alters name.now (view id.now) (map plan_of steps.now) told result) }
    ensures open { WasOpen (store_state S.Store store.old) (store_state S.Store store.new) result }
    ensures crash { LeavesAltered name.now (view id.now) (map plan_of steps.now) (reply_of result)
        (store_state S.Store store.old) (store_state S.Store store.new) }
    ensures shape { IfOk result (IsAltered told) }
{
    let body = store.get_raw(name, id)?;
    match alteration(alloc, name, body.as_slice(), steps) {
        Ok(edits) => {
            let done = make(store, edits.as_slice(), told);
            discard(edits);
            done
        }
        Err(unmade) => outcome_of(unmade),
    }
}
