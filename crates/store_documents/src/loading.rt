//! JSON trees as they come in, judged one at a time or all at once.

ghost use Rattle.std.specs.Prelude.{◌≡◌, ◌++◌, ◌∷◌, [], List, map, Some, Ok, Err, MatchResult, false, IsTrue};
ghost use Rattle.serde_json.specs.Data.{Data};
ghost use Rattle.serde_json.specs.Read.{read as data_of_text};
ghost use Rattle.serde_json.specs.View.{view as data_of};
ghost use Rattle.store_model.specs.Reading.{ReadsTree, ReadsTrees};
ghost use Rattle.store_documents.specs.Judging.{AnswersRow, Judges};

use crate::json_row::{row_in_order, row_of_json};
use crate::reading::document_of_text;
use crate::write::KeptRow;
use json::Scratch;
use serde_json::Value;
use std::alloc::Global;
use store_model::{ErrorKind, StoreError};

/// The row of the document that a tree stands for.
#[tactic(auto, using(crate::proofs::ManyLemmas::input_row))]
fn row_of(alloc: Global, json: Value) -> Result<KeptRow<'static>, ErrorKind>
    ensures { AnswersRow (ReadsTree (data_of json)) result }
{
    row_of_json(alloc, json)
}

/// Appends the row of the next tree to the rows.
fn keep(
    rows: &mut Vec<KeptRow<'static>>,
    row: Result<KeptRow<'static>, ErrorKind>,
) -> Result<(), StoreError>
    ensures { (j : Data) → AnswersRow (ReadsTree j) row.entry → (js : List Data)
        → Judges (ReadsTrees js) (Ok rows.old) → MatchResult result
        (λ _. Judges (ReadsTrees (js ++ j ∷ [])) (Ok rows.new)) (λ e. (more : List Data)
        → Judges (ReadsTrees ((js ++ j ∷ []) ++ more)) (Err e)) }
{
    match row {
        Ok(row) => {
            rows.push(row)?;
            Ok(())
        }
        Err(kind) => Err(StoreError::at(kind, rows.len() as u64)),
    }
}

/// Judges the documents that JSON trees stand for (MongoDB Extended JSON v2), which come one after the other, and keeps
/// the rows that they are kept as. No tree is kept.
#[derive(Drop)]
pub struct Loader {
    rows: Vec<KeptRow<'static>>,
    /// The first refusal, after which nothing is judged.
    refusal: Option<StoreError>,
    alloc: Global,
    /// Room for reading texts.
    scratch: Scratch,
}

impl Loader {
    ghost use Rattle.store_documents.specs.Loading.{HasTaken};

    /// No tree was taken.
    pub fn new(alloc: Global) -> Loader
        ensures { HasTaken result [] }
    {
        Loader {
            rows: Vec::new(alloc),
            refusal: None,
            alloc,
            scratch: Scratch::new(alloc),
        }
    }

    /// Takes the row of the next tree. After the first that is refused, rows are dropped.
    fn take_row(&mut self, row: Result<KeptRow<'static>, ErrorKind>)
        ensures { (j : Data) → AnswersRow (ReadsTree j) row.entry → (js : List Data)
            → HasTaken self.old js → HasTaken self.new (js ++ j ∷ []) }
    {
        if self.refusal.is_some() {
            return;
        }
        if let Err(error) = keep(&mut self.rows, row) {
            self.refusal = Some(error);
        }
    }

    /// Takes the next tree. After the first that is refused, trees are dropped.
    pub fn take(&mut self, json: Value)
        ensures { (js : List Data) → HasTaken self.old js
            → HasTaken self.new (js ++ data_of json ∷ []) }
    {
        if self.refusal.is_some() {
            return;
        }
        let row = row_of(self.alloc, json);
        self.take_row(row);
    }

    /// Takes the tree of a text (RFC 8259), which isn't made. False, and nothing was taken, for texts that have to be
    /// read by their tree: those that have none, and some others.
    pub fn take_text(&mut self, text: &str) -> bool
        ensures taken { IsTrue result → (j : Data) × (data_of_text text.now ≡ Some j)
            × ((js : List Data) → HasTaken self.old js → HasTaken self.new (js ++ j ∷ [])) }
        ensures untaken { result ≡ false → (js : List Data) → HasTaken self.old js
            → HasTaken self.new js }
    {
        let Ok(document) = document_of_text(self.alloc, text, &mut self.scratch) else {
            return false;
        };
        let row = row_in_order(self.alloc, &document);
        self.take_row(row);
        true
    }

    /// The rows of the trees that were taken.
    ///
    /// The first document that is refused decides: `NotAnObject`, `JsonRefused`, `TooDeep` and `Nul` of its tree, then
    /// `NoId` and `TooLong`. `Memory` if a growth was refused.
    pub fn finish(self) -> Result<Vec<KeptRow<'static>>, StoreError>
        ensures { (js : List Data) → HasTaken self js → Judges (ReadsTrees js) result }
    {
        let Loader {
            rows,
            refusal,
            alloc: _,
            scratch: _,
        } = self;
        match refusal {
            None => Ok(rows),
            Some(error) => Err(error),
        }
    }
}

/// Judges the documents that JSON trees stand for (MongoDB Extended JSON v2), and returns the rows that they are kept
/// as.
///
/// The first document that is refused decides: `NotAnObject`, `JsonRefused`, `TooDeep` and `Nul` of its tree, then
/// `NoId` and `TooLong`. `Memory` if a growth was refused.
pub fn judge_trees(alloc: Global, trees: Vec<Value>) -> Result<Vec<KeptRow<'static>>, StoreError>
    ensures { Judges (ReadsTrees (map data_of trees.items)) result }
{
    let mut loader = Loader::new(alloc);
    for json in trees {
        loader.take(json);
    }
    loader.finish()
}
