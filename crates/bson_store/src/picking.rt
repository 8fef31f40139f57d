//! What a filter selects of a collection, taken while the rows come: one body is held at a time.

ghost use Rattle.std.specs.Prelude.{◌≡◌, ◌++◌, ◌∷◌, [], IfErr, IsTrue, OnOk};
ghost use Rattle.bson_base.specs.Value.{Members};
ghost use Rattle.bson_bytes.specs.Encode.{encode};
ghost use Rattle.store_question.specs.Filters.{filter_of, path_of};
ghost use Rattle.store_question.specs.Views.{OfWritten};
ghost use Rattle.bson_raw.specs.View.{bytes_of as view_bytes};
ghost use Rattle.store_model.specs.Filter.{all_of, no_filters};
ghost use Rattle.store_model.specs.Reading.{Documents};
ghost use Rattle.store_model.specs.State.{IsKept, only};
ghost use Rattle.bson_store.specs.Export.{bytes_of_each};
ghost use Rattle.bson_store.specs.Questions.{IsPick, IsSettled, Turns};
ghost use Rattle.bson_store.specs.Refusals.{IsDenied};

use crate::export::push_copy;
use bson_raw::RawDocument;
use std::alloc::{AllocError, Global};
use store_model::{ErrorKind, StoreError};
use store_question::{Filter, project, selects};
use store_table::Visit;

/// The filter that selects everything.
pub fn select_all(alloc: Global) -> Filter
    ensures { filter_of result ≡ all_of no_filters }
{
    Filter::And(Vec::new(alloc))
}

/// What is kept of the documents that a filter selects.
///
/// `took` says what a taker has taken since it was another one: it holds of the two and the documents, in their order,
/// that were taken between them.
pub trait Take {
    ghost took: { Self → Self → Documents → Type 0 };

    /// Takes a document from its written form. A refusal ends the reading, and is handed on.
    fn take(&mut self, document: RawDocument<'_>) -> Result<(), StoreError>
        ensures took { (first : Self) (out : Documents) (d : Members) → IsKept d
            → view_bytes document.entry ≡ encode d → took first self.old out
            → OnOk result (took first self.new (out ++ d ∷ [])) }
        ensures denied { IfErr result IsDenied };

    /// Whether whatever document may come changes nothing of what was taken: then the reading ends early.
    fn is_done(&self) -> bool
        ensures { IsTrue result → (first : Self) → IsSettled (took first self.now) };
}

/// The written forms.
#[derive(Drop)]
pub struct Copies {
    pub bodies: Vec<Vec<u8>>,
    pub alloc: Global,
}

impl Take for Copies {
    ghost use Rattle.std.specs.Prelude.{◌≡◌, map};
    ghost use Rattle.bson_bytes.specs.Encode.{encode};
    ghost use Rattle.bson_store.specs.Export.{bytes_of_each};

    ghost took = { λ _ t out. bytes_of_each t.bodies.items ≡ map encode out };

    fn take(&mut self, document: RawDocument<'_>) -> Result<(), StoreError> {
        push_copy(&mut self.bodies, self.alloc, document.as_bytes())?;
        Ok(())
    }

    fn is_done(&self) -> bool {
        false
    }
}

/// How many there are. No body is kept.
#[derive(Clone, Copy, Drop)]
pub struct Count {
    pub number: u64,
}

impl Take for Count {
    ghost use Rattle.std.specs.Prelude.{◌≡◌, length};

    ghost took = { λ _ t out. t.number ≡ length out };

    fn take(&mut self, _document: RawDocument<'_>) -> Result<(), StoreError> {
        match self.number.checked_add(1) {
            Some(number) => {
                self.number = number;
                Ok(())
            }
            // There are fewer places for rows than numbers.
            None => Err(StoreError::from(ErrorKind::Database)),
        }
    }

    fn is_done(&self) -> bool {
        false
    }
}

/// The elements under listed keys, each document's as a document.
#[derive(Drop)]
pub struct Projections<'a> {
    pub keys: &'a [String],
    pub bodies: Vec<Vec<u8>>,
    pub alloc: Global,
}

impl<'a> Take for Projections<'a> {
    ghost use Rattle.std.specs.Prelude.{◌≡◌, map};
    ghost use Rattle.bson_bytes.specs.Encode.{encode};
    ghost use Rattle.store_question.specs.Filters.{path_of};
    ghost use Rattle.store_model.specs.State.{only};
    ghost use Rattle.bson_store.specs.Export.{bytes_of_each};

    ghost took = { λ first t out. (t.keys.now ≡ first.keys.now)
        × (bytes_of_each t.bodies.items ≡ map (λ d. encode (only (path_of t.keys.now) d)) out) };

    fn take(&mut self, document: RawDocument<'_>) -> Result<(), StoreError> {
        add_projection(&mut self.bodies, self.alloc, document, self.keys)?;
        Ok(())
    }

    fn is_done(&self) -> bool {
        false
    }
}

/// Puts the elements of a document under listed keys last, as a document.
fn add_projection(
    bodies: &mut Vec<Vec<u8>>,
    alloc: Global,
    document: RawDocument<'_>,
    keys: &[String],
) -> Result<(), AllocError>
    ensures { OfWritten (view_bytes document.entry)
        (λ d. OnOk result (bytes_of_each bodies.new.items ≡ bytes_of_each bodies.old.items ++ encode
        (only (path_of keys.now) d) ∷ [])) }
{
    let body = project(alloc, document, keys)?;
    bodies.push(body)?;
    Ok(())
}

/// The document of a body, if the filter selects it. A body that isn't framed as a document is refused by Database.
pub fn selected<'a>(filter: &Filter, body: &'a [u8]) -> Result<Option<RawDocument<'a>>, StoreError>
    ensures { (d : Members) → IsKept d → body.now ≡ encode d
        → IsPick (filter_of filter.now) d body.now result }
{
    let Ok(document) = RawDocument::from_bytes(body) else {
        // No store wrote such a body: the disk returns another than was written.
        return Err(StoreError::from(ErrorKind::Database));
    };
    if selects(document, filter) {
        Ok(Some(document))
    } else {
        Ok(None)
    }
}

/// Passes on the document of a body, if the filter selects it.
fn pick_row<T: Take>(taker: &mut T, filter: &Filter, body: &[u8]) -> Result<(), StoreError>
    ensures picked { (first : T) (out : Documents) (d : Members) → IsKept d → body.now ≡ encode d
        → T.took first taker.old out → OnOk result
        (Turns (T.took first taker.new) (filter_of filter.now) out d) }
    ensures denied { (d : Members) → IsKept d → body.now ≡ encode d → IfErr result IsDenied }
{
    if let Some(document) = selected(filter, body)? {
        taker.take(document)?;
    }
    Ok(())
}

/// Passes on the documents that a filter selects, until the taker is done, or a refusal.
#[derive(Drop)]
pub struct FilterVisitor<'a, T> {
    pub filter: &'a Filter,
    pub taker: T,
    pub fault: Option<StoreError>,
}

impl<'a, T: Take> Visit for FilterVisitor<'a, T> {
    ghost use Rattle.std.specs.Prelude.{◌≡◌, ◌≢◌, ◌⊎◌, None};
    ghost use Rattle.store_question.specs.Filters.{filter_of};
    ghost use Rattle.bson_store.specs.Questions.{GivesPicked, IsSettled};

    ghost took = { λ first v bodies. (v.filter.now ≡ first.filter.now)
        × GivesPicked (T.took first.taker v.taker) (filter_of v.filter.now) bodies v.fault };

    ghost is_done = { λ v. (v.fault ≢ None) ⊎ ((first : T) → IsSettled (T.took first v.taker)) };

    fn visit(&mut self, body: &[u8]) -> bool {
        match pick_row(&mut self.taker, self.filter, body) {
            Ok(()) => !self.taker.is_done(),
            Err(error) => {
                self.fault = Some(error);
                false
            }
        }
    }
}
