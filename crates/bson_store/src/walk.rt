//! The documents of a collection, one at a time.

ghost use Rattle.std.specs.Prelude.{◌≡◌, [], List};
ghost use Rattle.serde_json.specs.Data.{Data};
ghost use Rattle.bson_base.specs.Value.{Members};
ghost use Rattle.bson_bytes.specs.Encode.{encode};
ghost use Rattle.bson_model.specs.declared.extjson.ser.Mode.TheVariants.{Canonical};
ghost use Rattle.store_table.specs.Moves.{WasOpen};
ghost use Rattle.store_model.specs.State.{IsKept, json_of};
ghost use Rattle.store_table.specs.Crash.{AddsNothing};
ghost use Rattle.bson_store.specs.Calls.{store_state, Relates};
ghost use Rattle.bson_store.specs.Dump.{GivesBack, HandsOn, HandsTrees, Outlasts, StepsOn};

use crate::error::fault_refusal;
use crate::store::{Store, good_name};
use sqlite::Alter;
use std::alloc::Global;
use store_model::{ErrorKind, StoreError};
use store_table::Visit;

/// What is done with the trees of a collection's documents, each of which is asked for by the document's body.
pub(crate) trait Step {
    ghost use Rattle.store_model.specs.declared.error.StoreError.{StoreError};

    /// Between the first state and the second, the step took these trees, in this order.
    ghost took: { Self → Self → List Data → Type 0 };

    /// Between the first state and the second, the step took these trees, and refused the next one with this error.
    ghost refused: { Self → Self → List Data → StoreError → Type 0 };

    /// Between the first state and the second, the step took whatever it was handed.
    ghost stands: { Self → Self → Type 0 } = { λ _ _. Unit {0} };

    /// Between the first state and the second, the step refused with this error what it was handed last.
    ghost stopped: { Self → Self → StoreError → Type 0 } = { λ _ _ _. Unit {0} };

    /// Takes the tree of the body at a place of the collection.
    fn step(&mut self, alloc: Global, body: &[u8], place: u64) -> Result<(), StoreError>
        ensures steps { (first : Self) (out : List Data) (d : Members) → IsKept d
            → body.now ≡ encode d → took first self.old out
            → StepsOn (took first self.new) (refused first self.new) out place
            (json_of Canonical d) result }
        ensures stands { (first : Self) → stands first self.old
            → Outlasts (stands first self.new) (stopped first self.new) result };
}

/// Takes the tree of the body at a place, and returns the next place.
fn advance<T: Step>(step: &mut T, alloc: Global, body: &[u8], place: u64) -> Result<u64, StoreError>
    ensures hands { (first : T) (out : List Data) (d : Members) → IsKept d → body.now ≡ encode d
        → T.took first step.old out → HandsOn (T.took first step.new)
        (T.refused first step.new) out place (json_of Canonical d) result }
    ensures stands { (first : T) → T.stands first step.old
        → Outlasts (T.stands first step.new) (T.stopped first step.new) result }
{
    let Some(next) = place.checked_add(1) else {
        // There are fewer places for rows than numbers.
        return Err(StoreError::from(ErrorKind::Database));
    };
    step.step(alloc, body, place)?;
    Ok(next)
}

/// Takes the trees of the bodies that the table hands out. After the first that has no tree, or that is refused, it asks
/// for no more.
#[derive(Drop)]
pub(crate) struct Walk<T> {
    pub step: T,
    pub alloc: Global,
    pub place: u64,
    pub refusal: Option<StoreError>,
}

impl<T: Step> Visit for Walk<T> {
    ghost use Rattle.std.specs.Prelude.{IsSome};
    ghost use Rattle.bson_store.specs.Dump.{HandedOn, Lasts};
    ghost use Rattle.std.specs.Prelude.{[]};

    ghost took = { λ first w bodies.
        (T.took first.step first.step [] → HandedOn (T.took first.step w.step) (T.refused first.step w.step) w.place bodies w.refusal)
        × (T.stands first.step first.step → Lasts (T.stands first.step w.step) (T.stopped first.step w.step) w.refusal) };

    ghost is_done = { λ w. IsSome w.refusal };

    fn visit(&mut self, body: &[u8]) -> bool {
        if self.refusal.is_some() {
            return false;
        }
        match advance(&mut self.step, self.alloc, body, self.place) {
            Ok(next) => {
                self.place = next;
                true
            }
            Err(error) => {
                self.refusal = Some(error);
                false
            }
        }
    }
}

impl<S: Alter + Drop> Store<S> {
    /// Hands the bodies of the collection `name` to a step, one after the other, and gives the step back.
    ///
    /// Refused by BadName; by the error with which the step refuses a body, and then no more are handed to it; and by
    /// Memory and Database.
    pub(crate) fn walk<T: Step + Drop>(&mut self, name: &str, step: T) -> Result<T, (StoreError, T)>
        ensures moves { T.took step step [] → Relates S.Store self.old self.new
            (HandsTrees (T.took step) (T.refused step) name.now result) }
        ensures open { WasOpen (store_state S.Store self.old)
            (store_state S.Store self.new) result }
        ensures stands { T.stands step step → GivesBack (T.stands step) (T.stopped step) result }
        ensures crash { AddsNothing (store_state S.Store self.old) (store_state S.Store self.new) }
    {
        let name = match good_name(name) {
            Ok(name) => name,
            Err(error) => return Err((error, step)),
        };
        let mut walk = Walk {
            step,
            alloc: self.alloc,
            place: 0,
            refusal: None,
        };
        let visited = self.table.visit_bodies(name.as_str(), &mut walk);
        let Walk {
            step,
            alloc: _,
            place: _,
            refusal,
        } = walk;
        if let Some(error) = refusal {
            return Err((error, step));
        }
        match visited {
            Ok(_) => Ok(step),
            Err(fault) => Err((fault_refusal(fault), step)),
        }
    }
}
