//! All documents of a collection as the text of their Extended JSON, one at a time.

ghost use Rattle.std.specs.Prelude.{◌≡◌, ◌++◌, ◌∷◌, [], List, IfErr, MatchResult, OnOk, string_bytes};
ghost use Rattle.serde_json.specs.Data.{Data};
ghost use Rattle.serde_json.specs.Written.{compact_text};
ghost use Rattle.bson_base.specs.Value.{Members};
ghost use Rattle.bson_bytes.specs.Encode.{encode};
ghost use Rattle.bson_model.specs.declared.extjson.ser.Mode.TheVariants.{Canonical};
ghost use Rattle.store_table.specs.Moves.{WasOpen};
ghost use Rattle.store_model.specs.State.{IsKept, json_of};
ghost use Rattle.store_table.specs.Crash.{AddsNothing};
ghost use Rattle.bson_store.specs.Calls.{store_state, Relates};
ghost use Rattle.bson_store.specs.Dump.{GivesBack, HandsTrees, TellsText};
ghost use Rattle.store_documents.specs.Answers.{IsOfStore};

use crate::store::Store;
use crate::walk::Step;
use sqlite::Alter;
use std::alloc::Global;
use store_documents::text_of_body;
use store_model::StoreError;

/// What is done with the texts of the trees of a collection's documents, which come one at a time.
pub trait TakeText {
    ghost use Rattle.store_model.specs.declared.error.StoreError.{StoreError};

    /// Between the first state and the second, the taker took the texts of these trees, in this order.
    ghost took: { Self → Self → List Data → Type 0 };

    /// Between the first state and the second, the taker took the texts of these trees, and refused that of the next
    /// one with this error.
    ghost refused: { Self → Self → List Data → StoreError → Type 0 };

    /// Between the first state and the second, the taker took the texts that it was handed, whatever they are.
    ghost stands: { Self → Self → Type 0 } = { λ _ _. Unit {0} };

    /// Between the first state and the second, the taker refused the last text that it was handed with this error.
    ghost stopped: { Self → Self → StoreError → Type 0 } = { λ _ _ _. Unit {0} };

    /// Takes the text of a tree. The keys of each object ascend by their bytes, and there is no space between its
    /// parts.
    fn take_text(&mut self, text: &str) -> Result<(), StoreError>
        ensures took { (first : Self) (out : List Data) (tree : Data) → text.now ≡ compact_text tree
            → took first self.old out → OnOk result (took first self.new (out ++ tree ∷ [])) }
        ensures refused { (first : Self) (out : List Data) → took first self.old out
            → IfErr result (refused first self.new out) }
        ensures stands { (first : Self) → stands first self.old
            → MatchResult result (λ _. stands first self.new) (stopped first self.new) };
}

/// The text of the tree of the body at a place of the collection.
#[tactic(auto, using(crate::proofs::StandLemmas::at_of_store))]
fn text_at(alloc: Global, body: &[u8], place: u64, text: &mut String) -> Result<(), StoreError>
    ensures text { (d : Members) → IsKept d → body.now ≡ encode d
        → TellsText (json_of Canonical d) place (string_bytes text.new) result }
    ensures kind { IfErr result (λ e. IsOfStore e.kind) }
{
    match text_of_body(alloc, body, text) {
        Ok(()) => Ok(()),
        Err(kind) => Err(StoreError::at(kind, place)),
    }
}

/// Hands the texts of trees to a taker.
#[derive(Drop)]
struct TextStep<T> {
    taker: T,
    /// Where each text is made, in the memory of the one before it.
    text: String,
}

impl<T: TakeText> Step for TextStep<T> {
    ghost took = { λ first step out. T.took first.taker step.taker out };

    ghost refused = { λ first step out e. T.refused first.taker step.taker out e };

    ghost stands = { λ first step. T.stands first.taker step.taker };

    ghost stopped = { λ first step e. T.stopped first.taker step.taker e };

    fn step(&mut self, alloc: Global, body: &[u8], place: u64) -> Result<(), StoreError> {
        text_at(alloc, body, place, &mut self.text)?;
        self.taker.take_text(self.text.as_str())?;
        Ok(())
    }
}

impl<S: Alter + Drop> Store<S> {
    /// Hands the documents of the collection `name` to `taker`, one after the other, as the text of their Extended JSON
    /// in canonical mode (MongoDB Extended JSON v2), and gives the taker back: `each_json` without the trees. One
    /// document is held at a time.
    ///
    /// Refused as `each_json` is, and by the error with which the taker refuses a text. The taker, which is given back
    /// with the refusal, was then handed the first of the texts.
    pub fn each_text<T: TakeText + Drop>(
        &mut self,
        name: &str,
        taker: T,
    ) -> Result<T, (StoreError, T)>
        ensures moves { T.took taker taker [] → Relates S.Store self.old self.new
            (HandsTrees (T.took taker) (T.refused taker) name.now result) }
        ensures open { WasOpen (store_state S.Store self.old)
            (store_state S.Store self.new) result }
        // Whatever the disk does: an error is the taker's exactly if it refused, and else of no device's kind.
        ensures stands { T.stands taker taker
            → GivesBack (T.stands taker) (T.stopped taker) result }
        ensures crash { AddsNothing (store_state S.Store self.old) (store_state S.Store self.new) }
    {
        let text = String::new(self.alloc);
        match self.walk(name, TextStep { taker, text }) {
            Ok(step) => Ok(step.taker),
            Err((error, step)) => Err((error, step.taker)),
        }
    }
}
