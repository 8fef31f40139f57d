//! Whether the documents of a collection have JSON trees, without the trees.

ghost use Rattle.std.specs.Prelude.{IfErr};
ghost use Rattle.store_table.specs.Moves.{WasOpen};
ghost use Rattle.store_table.specs.Crash.{AddsNothing};
ghost use Rattle.bson_store.specs.Calls.{store_state, Relates};
ghost use Rattle.bson_store.specs.Dump.{ChecksTrees};
ghost use Rattle.store_documents.specs.Answers.{IsOfStore};

use crate::store::Store;
use crate::walk::Step;
use bson_model::extjson::Mode;
use sqlite::Alter;
use std::alloc::Global;
use store_documents::check_json;
use store_model::StoreError;

/// Tests whether a body's document has a tree, and makes none.
#[derive(Drop)]
struct Checking;

impl Step for Checking {
    ghost took = { λ _ _ _. Unit {0} };

    ghost refused = { λ _ _ _ _. ⊥ };

    ghost stopped = { λ _ _ _. ⊥ };

    #[tactic(auto, using(crate::proofs::StandLemmas::at_of_store))]
    fn step(&mut self, alloc: Global, body: &[u8], place: u64) -> Result<(), StoreError> {
        match check_json(alloc, body, Mode::Canonical) {
            Ok(()) => Ok(()),
            Err(kind) => Err(StoreError::at(kind, place)),
        }
    }
}

impl<S: Alter + Drop> Store<S> {
    /// Whether each document of the collection `name` has a tree in canonical Extended JSON, as `each_json` makes it.
    /// Most are seen to have one from their bytes alone.
    ///
    /// Refused by BadName; by ReservedKey or FiniteDouble of the first document that has no such tree (by ReservedKey
    /// if both hold), and `document` says which document it is; and by Memory and Database.
    pub fn check_json(&mut self, name: &str) -> Result<(), StoreError>
        ensures moves { Relates S.Store self.old self.new (ChecksTrees name.now result) }
        ensures open { WasOpen (store_state S.Store self.old)
            (store_state S.Store self.new) result }
        ensures kind { IfErr result (λ e. IsOfStore e.kind) }
        ensures crash { AddsNothing (store_state S.Store self.old) (store_state S.Store self.new) }
    {
        match self.walk(name, Checking) {
            Ok(_) => Ok(()),
            Err((error, _)) => Err(error),
        }
    }
}
