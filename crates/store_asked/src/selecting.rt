//! What a filter selects of a collection, handed on while the rows come.

ghost use Rattle.std.specs.Prelude.{◌≡◌, ◌++◌, ◌∷◌, [], IfErr, OnOk};
ghost use Rattle.bson_base.specs.Value.{Members};
ghost use Rattle.bson_bytes.specs.Encode.{encode};
ghost use Rattle.bson_raw.specs.View.{bytes_of as view_bytes};
ghost use Rattle.store_question.specs.Filters.{filter_of};
ghost use Rattle.store_model.specs.Reading.{Documents};
ghost use Rattle.store_model.specs.State.{IsKept};
ghost use Rattle.bson_store.specs.Questions.{Turns};
ghost use Rattle.bson_store.specs.Refusals.{IsDenied};

use crate::refusing::check_row;
use bson_raw::RawDocument;
use bson_store::{Copies, Count, Take, selected};
use std::alloc::Global;
use store_model::StoreError;
use store_question::Filter;
use store_table::pages::{RowRef, VisitRows};

/// A taker of documents whose rows come with them. It tests the row of each document that it hands out: as the document
/// comes, or at its end, if only some of those that came are handed out. What is only counted has rows that aren't
/// tested.
pub trait TakeRow: Take {
    /// Takes the document of a row, as `take` does. A row that is tested, and that no store can have written, is refused
    /// by Database.
    fn take_row(
        &mut self,
        alloc: Global,
        row: &RowRef<'_>,
        document: RawDocument<'_>,
    ) -> Result<(), StoreError>
        ensures took { (first : Self) (out : Documents) (d : Members) → IsKept d
            → view_bytes document.entry ≡ encode d → Self.took first self.old out
            → OnOk result (Self.took first self.new (out ++ d ∷ [])) }
        ensures denied { IfErr result IsDenied };
}

impl TakeRow for Copies {
    fn take_row(
        &mut self,
        alloc: Global,
        row: &RowRef<'_>,
        document: RawDocument<'_>,
    ) -> Result<(), StoreError> {
        check_row(alloc, row.coll, row.idkey, row.body)?;
        self.take(document)
    }
}

impl TakeRow for Count {
    fn take_row(
        &mut self,
        _alloc: Global,
        _row: &RowRef<'_>,
        document: RawDocument<'_>,
    ) -> Result<(), StoreError> {
        self.take(document)
    }
}

/// Hands on the document of a row, if the filter selects it. A body that isn't framed as a document is refused by
/// Database.
fn hand_on<T: TakeRow>(
    alloc: Global,
    taker: &mut T,
    filter: &Filter,
    row: &RowRef<'_>,
) -> Result<(), StoreError>
    ensures picked { (first : T) (out : Documents) (d : Members) → IsKept d → row.now.body.now ≡ encode d
        → T.took first taker.old out → OnOk result
        (Turns (T.took first taker.new) (filter_of filter.now) out d) }
    ensures denied { (d : Members) → IsKept d → row.now.body.now ≡ encode d → IfErr result IsDenied }
{
    if let Some(document) = selected(filter, row.body)? {
        taker.take_row(alloc, row, document)?;
    }
    Ok(())
}

/// Hands on the documents that a filter selects of the rows that it is handed, until the taker is done, or a refusal.
#[derive(Drop)]
pub struct SelectVisitor<'a, T> {
    pub filter: &'a Filter,
    pub taker: T,
    pub alloc: Global,
    pub fault: Option<StoreError>,
}

impl<'a, T: TakeRow> VisitRows for SelectVisitor<'a, T> {
    ghost use Rattle.std.specs.Prelude.{◌≡◌, ◌≢◌, ◌⊎◌, None, map};
    ghost use Rattle.store_table.specs.Documents.{Doc};
    ghost use Rattle.store_question.specs.Filters.{filter_of};
    ghost use Rattle.bson_store.specs.Questions.{GivesPicked, IsSettled};

    ghost took = { λ first v docs. (v.filter.now ≡ first.filter.now)
        × GivesPicked (T.took first.taker v.taker) (filter_of v.filter.now)
        (map (λ (d : Doc). d.body) docs) v.fault };

    ghost is_done = { λ v. (v.fault ≢ None) ⊎ ((first : T) → IsSettled (T.took first v.taker)) };

    fn visit(&mut self, _place: i64, row: &RowRef<'_>) -> bool {
        match hand_on(self.alloc, &mut self.taker, self.filter, row) {
            Ok(()) => !self.taker.is_done(),
            Err(error) => {
                self.fault = Some(error);
                false
            }
        }
    }
}
