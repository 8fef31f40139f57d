//! All documents of a collection as Extended JSON, one at a time or all at once.

ghost use Rattle.std.specs.Prelude.{◌≡◌, ◌++◌, ◌∷◌, [], List, IfErr, OnOk};
ghost use Rattle.serde_json.specs.Data.{Data};
ghost use Rattle.serde_json.specs.View.{view as data_of};
ghost use Rattle.bson_base.specs.Value.{Members};
ghost use Rattle.bson_bytes.specs.Encode.{encode};
ghost use Rattle.bson_model.specs.declared.extjson.ser.Mode.TheVariants.{Canonical};
ghost use Rattle.store_table.specs.Moves.{WasOpen};
ghost use Rattle.store_model.specs.State.{IsKept, dump, on, json_of};
ghost use Rattle.store_table.specs.Crash.{AddsNothing};
ghost use Rattle.bson_store.specs.Calls.{store_state, Does, Relates};
ghost use Rattle.bson_store.specs.Dump.{HandsTrees, TellsTree};
ghost use Rattle.bson_store.specs.Refusals.{as_json_list, reply_by};

use crate::store::Store;
use crate::walk::Step;
use bson_model::extjson::Mode;
use serde_json::Value;
use sqlite::Alter;
use std::alloc::Global;
use store_documents::json_of_body;
use store_model::StoreError;

/// What is done with the trees of a collection's documents, which come one at a time.
pub trait TakeJson {
    ghost use Rattle.store_model.specs.declared.error.StoreError.{StoreError};

    /// Between the first state and the second, the taker took these trees, in this order.
    ghost took: { Self → Self → List Data → Type 0 };

    /// Between the first state and the second, the taker took these trees, and refused the next one with this error.
    ghost refused: { Self → Self → List Data → StoreError → Type 0 };

    /// Takes a tree.
    fn take(&mut self, tree: Value) -> Result<(), StoreError>
        ensures took { (first : Self) (out : List Data) → took first self.old out
            → OnOk result (took first self.new (out ++ data_of tree ∷ [])) }
        ensures refused { (first : Self) (out : List Data) → took first self.old out
            → IfErr result (refused first self.new out) };
}

/// The tree of the body at a place of the collection.
fn tree_at(alloc: Global, body: &[u8], place: u64) -> Result<Value, StoreError>
    ensures { (d : Members) → IsKept d → body.now ≡ encode d
        → TellsTree (json_of Canonical d) place result }
{
    match json_of_body(alloc, body, Mode::Canonical) {
        Ok(json) => Ok(json),
        Err(kind) => Err(StoreError::at(kind, place)),
    }
}

/// Hands trees to a taker.
#[derive(Drop)]
struct JsonStep<T> {
    taker: T,
}

impl<T: TakeJson> Step for JsonStep<T> {
    ghost took = { λ first step out. T.took first.taker step.taker out };

    ghost refused = { λ first step out e. T.refused first.taker step.taker out e };

    fn step(&mut self, alloc: Global, body: &[u8], place: u64) -> Result<(), StoreError> {
        let tree = tree_at(alloc, body, place)?;
        self.taker.take(tree)
    }
}

/// All trees.
#[derive(Drop)]
pub struct Trees {
    pub trees: Vec<Value>,
}

impl TakeJson for Trees {
    ghost use Rattle.std.specs.Prelude.{◌≡◌, map};
    ghost use Rattle.serde_json.specs.View.{view as data_of};
    ghost use Rattle.bson_store.specs.Refusals.{IsDenied};

    ghost took = { λ _ t out. map data_of t.trees.items ≡ out };

    ghost refused = { λ _ _ _ e. IsDenied e };

    fn take(&mut self, tree: Value) -> Result<(), StoreError> {
        self.trees.push(tree)?;
        Ok(())
    }
}

impl<S: Alter + Drop> Store<S> {
    /// Hands the documents of the collection `name` to `taker`, one after the other, as Extended JSON in canonical mode
    /// (MongoDB Extended JSON v2), and gives the taker back. One document is held at a time.
    ///
    /// Refused by BadName; by ReservedKey or FiniteDouble of the first document that has no such tree (by ReservedKey
    /// if both hold), and `document` says which document it is; by the error with which the taker refuses a tree; and
    /// by Memory and Database. The taker, which is given back with the refusal, was then handed the first of the trees.
    pub fn each_json<T: TakeJson + Drop>(
        &mut self,
        name: &str,
        taker: T,
    ) -> Result<T, (StoreError, T)>
        ensures moves { T.took taker taker [] → Relates S.Store self.old self.new
            (HandsTrees (T.took taker) (T.refused taker) name.now result) }
        ensures open { WasOpen (store_state S.Store self.old)
            (store_state S.Store self.new) result }
        ensures crash { AddsNothing (store_state S.Store self.old) (store_state S.Store self.new) }
    {
        match self.walk(name, JsonStep { taker }) {
            Ok(step) => Ok(step.taker),
            Err((error, step)) => Err((error, step.taker)),
        }
    }

    /// The documents of the collection `name` as Extended JSON in canonical mode (MongoDB Extended JSON v2), in order.
    ///
    /// Refused by BadName; by ReservedKey or FiniteDouble of the first document that has no such tree (by ReservedKey
    /// if both hold), and `document` says which document it is; and by Memory and Database.
    pub fn dump_json(&mut self, name: &str) -> Result<Vec<Value>, StoreError>
        ensures moves { Relates S.Store self.old self.new
            (Does (on name.now dump) (reply_by as_json_list result)) }
        ensures open { WasOpen (store_state S.Store self.old)
            (store_state S.Store self.new) result }
        ensures crash { AddsNothing (store_state S.Store self.old) (store_state S.Store self.new) }
    {
        let trees = Vec::new(self.alloc);
        match self.each_json(name, Trees { trees }) {
            Ok(all) => Ok(all.trees),
            Err((error, _)) => Err(error),
        }
    }
}
