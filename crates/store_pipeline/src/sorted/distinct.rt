//! The different values of documents that come one at a time.

use crate::sorted::counted::{Counted, count};
use crate::sorted::distinct_values::values_of;
use bson_raw::RawDocument;
use std::alloc::{AllocError, Global};

/// The different values at a path of the documents that it took, each with the number of documents that have it. One
/// of each is held, and no document.
#[derive(Drop)]
pub struct Distinct<'a> {
    alloc: Global,
    path: &'a [String],
    number: u64,
    counted: Vec<Counted>,
}

impl<'a> Distinct<'a> {
    ghost use Rattle.std.specs.Prelude.{◌≡◌, ◌∷◌, [], ◌++◌, List, OnOk};
    ghost use Rattle.bson_base.specs.Value.{Members};
    ghost use Rattle.bson_raw.specs.View.{bytes_of};
    ghost use Rattle.store_pipeline.specs.Counted.{AreDistinct, Holds, path_in};
    ghost use Rattle.store_question.specs.Filters.{path_of};
    ghost use Rattle.store_pipeline.specs.Bodies.{OfBody};

    /// Nothing was taken yet.
    pub fn new(alloc: Global, path: &'a [String]) -> Distinct<'a>
        ensures holds { Holds result [] }
        ensures path { path_in result ≡ path_of path.now }
    {
        Distinct {
            alloc,
            path,
            number: 0,
            counted: Vec::new(alloc),
        }
    }

    /// Takes a document. The error is a refused growth, or more documents than numbers of 64 bits; what is counted then
    /// means nothing.
    pub fn take(&mut self, document: RawDocument<'_>) -> Result<(), AllocError>
        ensures holds { (ds : List Members) → Holds self.old ds → OfBody (bytes_of document.entry)
            (λ d. OnOk result (Holds self.new (ds ++ d ∷ []))) }
        ensures path { path_in self.new ≡ path_in self.old }
    {
        let Some(number) = self.number.checked_add(1) else {
            return Err(AllocError);
        };
        self.number = number;
        let values = values_of(self.alloc, document, self.path)?;
        for value in &values {
            count(self.alloc, &mut self.counted, value, number)?;
        }
        Ok(())
    }

    /// The values, in their order.
    pub fn into_counted(self) -> Vec<Counted>
        ensures { (ds : List Members) → Holds self.entry ds → AreDistinct (path_in self.entry) ds result.items }
    {
        self.counted
    }
}
