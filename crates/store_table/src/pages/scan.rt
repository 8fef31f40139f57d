//! The rows of the table, one after the other.

ghost use Rattle.std.specs.Prelude.{◌≡◌, ◌+ℤ◌, ◌-◌, ◌^◌, ◌++◌, ◌∷◌, [], ℕ, ℤ, pos, negsuc, List, false, true, Some, IfOk, IsTrue, MatchOption};
ghost use Rattle.sqlite_pages.specs.Calls.{IsClean, Continues};
ghost use Rattle.sqlite_btree.specs.Batch.{left_in, IsBatchOf};
ghost use Rattle.sqlite_btree.specs.Chain.{Layout};
ghost use Rattle.sqlite_btree.specs.Stored.{IsLaidIn, IsTable};
ghost use Rattle.store_table.specs.Documents.{AreDocuments, Doc, of_collection};
ghost use Rattle.store_table.specs.PageRows.{doc_at, HandsOn};

use crate::pages::cells::{RowRef, row_of};
use crate::pages::look::is_same;
use crate::pages::roots::Roots;
use sqlite_btree::{Batch, Scratch, table};
use sqlite_pages::{Error, Pages};
use std::alloc::Global;

/// What is done with each row of a collection.
pub trait VisitRows {
    /// Since it was the first visitor, the second has taken these rows, in this order.
    ghost took: { Self → Self → List Doc → Type 0 };

    /// It asks for no further row.
    ghost is_done: { Self → Type 0 } = { λ _. Unit {0} };

    /// Takes the row at a place, and says whether it asks for another.
    fn visit(&mut self, place: i64, row: &RowRef<'_>) -> bool
        ensures took { (first : Self) (docs : List Doc) → took first self.old docs
            → took first self.new (docs ++ doc_at place row.now ∷ []) }
        ensures more { result ≡ false → is_done self.new };
}

/// The rows of a table, in the order of their rowids. One page is copied at a time.
#[derive(Drop)]
pub(crate) struct Rows {
    root: u32,
    /// The rowid from which on rows are left; none if there can be none.
    from: Option<i64>,
    batch: Batch,
}

/// The rowid behind another.
fn behind(rowid: i64) -> Option<i64>
    ensures { MatchOption result (rowid ≡ pos (2 ^ 63 - 1)) (λ next. next ≡ (rowid +ℤ pos 1)) }
{
    rowid.checked_add(1)
}

impl Rows {
    ghost use Rattle.store_table.specs.PageRows.{IsAmong, Steps, Takes};

    /// All rows of the table that begins at a page.
    fn new(alloc: Global, root: u32) -> Rows
        ensures root { result.root ≡ root }
        ensures from { result.from ≡ Some (negsuc (2 ^ 63 - 1)) }
        ensures valid { (layout : Layout) (size : ℕ) → IsBatchOf layout size result.batch }
        ensures empty { (pages : _) → left_in pages result.batch ≡ [] }
    {
        Rows {
            root,
            from: Some(i64::MIN),
            batch: Batch::new(alloc),
        }
    }

    /// Takes the next row of the page that was copied. On a damaged page it may lie before one that was taken.
    fn take<P: Pages>(&mut self, from: i64, pages: &mut P) -> Result<bool, Error>
        requires { self.old.from ≡ Some from }
        ensures done { IsClean P.Pages pages.new → (layout : Layout) (rows : List (ℤ × List ℕ)) → IsLaidIn layout (P.Pages.pages pages.old)
            → IsTable (P.Pages.size pages.old) layout self.old.root rows → IsAmong layout (P.Pages.size pages.old) (P.Pages.pages pages.old) rows self.old
            → IfOk result (Takes layout (P.Pages.size pages.old) (P.Pages.pages pages.old) rows self.old self.new) }
        ensures from { IfOk result (λ some. some ≡ false → self.new.from ≡ self.old.from) }
        ensures root { self.new.root ≡ self.old.root }
        ensures kept { Continues P.Pages pages.old pages.new }
        ensures pages { P.Pages.pages pages.new ≡ P.Pages.pages pages.old }
    {
        if !self.batch.next(pages)? {
            return Ok(false);
        }
        let rowid = self.batch.rowid();
        if rowid < from {
            return Err(Error::Corrupt);
        }
        self.from = behind(rowid);
        Ok(true)
    }

    /// Takes the next row, or says that there is none.
    fn next<P: Pages>(&mut self, pages: &mut P, scratch: &mut Scratch) -> Result<bool, Error>
        ensures done { IsClean P.Pages pages.new → (layout : Layout) (rows : List (ℤ × List ℕ)) → IsLaidIn layout (P.Pages.pages pages.old)
            → IsTable (P.Pages.size pages.old) layout self.old.root rows → IsAmong layout (P.Pages.size pages.old) (P.Pages.pages pages.old) rows self.old
            → IfOk result (Steps layout (P.Pages.size pages.old) (P.Pages.pages pages.old) rows self.old self.new) }
        ensures root { self.new.root ≡ self.old.root }
        ensures kept { Continues P.Pages pages.old pages.new }
        ensures pages { P.Pages.pages pages.new ≡ P.Pages.pages pages.old }
    {
        let Some(from) = self.from else {
            return Ok(false);
        };
        if self.take(from, pages)? {
            return Ok(true);
        }
        table::fill(pages, scratch, self.root, from, &mut self.batch)?;
        let some = self.take(from, pages)?;
        Ok(some)
    }
}

/// Hands a row on if it is one of the collection, and says whether another is asked for.
fn hand_on<V: VisitRows>(visitor: &mut V, coll: &[u8], place: i64, row: &RowRef<'_>) -> bool
    ensures took { (first : V) (docs : List Doc) → V.took first visitor.old docs
        → V.took first visitor.new (docs ++ of_collection coll.now (doc_at place row.now ∷ [])) }
    ensures more { result ≡ false → V.is_done visitor.new }
{
    if !is_same(row.coll, coll) {
        return true;
    }
    visitor.visit(place, row)
}

/// Hands each row of a collection to a visitor, in the order of their places, until it asks for no more. True: all were
/// taken. A record that isn't that of a row is `Corrupt`.
pub fn visit<P: Pages, V: VisitRows>(
    alloc: Global,
    pages: &mut P,
    scratch: &mut Scratch,
    roots: Roots,
    coll: &[u8],
    visitor: &mut V,
) -> Result<bool, Error>
    ensures whole { IsClean P.Pages pages.new → (docs : List Doc) → AreDocuments (P.Pages.size pages.old) (P.Pages.pages pages.old) roots.table roots.index docs
        → V.took visitor.old visitor.old [] → IfOk result (λ all. IsTrue all → V.took visitor.old visitor.new (of_collection coll.now docs)) }
    ensures some { V.took visitor.old visitor.old [] → HandsOn P.Pages pages.old pages.new roots.table roots.index coll.now (V.took visitor.old visitor.new) }
    ensures stopped { IfOk result (λ all. all ≡ false → V.is_done visitor.new) }
    ensures kept { Continues P.Pages pages.old pages.new }
    ensures pages { P.Pages.pages pages.new ≡ P.Pages.pages pages.old }
{
    let mut rows = Rows::new(alloc, roots.table);
    'scan: for _ in 0..u64::MAX {
        if !rows.next(pages, scratch)? {
            return Ok(true);
        }
        let Some(row) = row_of(rows.batch.payload()) else {
            return Err(Error::Corrupt);
        };
        if !hand_on(visitor, coll, rows.batch.rowid(), &row) {
            return Ok(false);
        }
    }
    Err(Error::Corrupt)
}
