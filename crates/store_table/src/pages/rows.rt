//! Changes of one row, in the table's tree and in the index.

ghost use Rattle.std.specs.Prelude.{◌≡◌, ◌++◌, ◌∷◌, [], ℕ, List, None, find, IfOk, OnOk};
ghost use Rattle.sqlite_pages.specs.Calls.{IsClean, Continues};
ghost use Rattle.sqlite_btree.specs.Cut.{IsIn};
ghost use Rattle.sqlite.specs.Effect.{Database};
ghost use Rattle.store_table.specs.Rows.{TableRow, AreBelow, is_row_named, last_place, with_body_at, without_place};
ghost use Rattle.store_table.specs.Store.{HasStore, row_at};

use crate::pages::Roots;
use crate::pages::edits::{add_entry, put_row, remove_entry, remove_row};
use crate::pages::records::{entry_of, record_of, row_record};
use sqlite_btree::{Batch, Scratch, table};
use sqlite_pages::{Error, Pages};
use std::alloc::Global;

/// The greatest place, or 0 if there is no row.
pub(crate) fn last_row<P: Pages>(
    alloc: Global,
    pages: &mut P,
    scratch: &mut Scratch,
    roots: Roots,
) -> Result<i64, Error>
    ensures found { IfOk result (λ place. IsClean P.Pages pages.new → (first : Database) (version : ℕ) (docs : List TableRow)
        → HasStore first (P.Pages.size pages.old) (P.Pages.pages pages.old) version roots.table roots.index docs
        → place ≡ last_place docs) }
    ensures kept { Continues P.Pages pages.old pages.new }
    ensures pages { P.Pages.pages pages.new ≡ P.Pages.pages pages.old }
{
    let mut batch = Batch::new(alloc);
    table::fill_back(pages, scratch, roots.table, i64::MAX, &mut batch)?;
    let some = batch.next_back(pages)?;
    if !some {
        return Ok(0);
    }
    Ok(batch.rowid())
}

/// Adds a row at a place behind those of all others.
pub(crate) fn add<P: Pages>(
    alloc: Global,
    pages: &mut P,
    scratch: &mut Scratch,
    roots: Roots,
    place: i64,
    coll: &[u8],
    idkey: &[u8],
    body: &[u8],
) -> Result<(), Error>
    ensures done { IsClean P.Pages pages.new → (first : Database) (version : ℕ) (docs : List TableRow)
        → HasStore first (P.Pages.size pages.old) (P.Pages.pages pages.old) version roots.table roots.index docs
        → AreBelow place docs → find (is_row_named coll.now idkey.now) docs ≡ None
        → OnOk result (HasStore first (P.Pages.size pages.old) (P.Pages.pages pages.new) version roots.table roots.index
        (docs ++ row_at place coll.now idkey.now body.now ∷ [])) }
    ensures kept { Continues P.Pages pages.old pages.new }
{
    let bytes = row_record(alloc, coll, idkey, body)?;
    put_row(pages, scratch, roots.table, place, bytes.as_slice())?;
    let entry = entry_of(alloc, coll, idkey, place)?;
    let bytes = record_of(alloc, &entry)?;
    add_entry(pages, scratch, roots.index, &entry, bytes.as_slice())
}

/// Puts another body in the place of a row's.
pub(crate) fn rewrite<P: Pages>(
    alloc: Global,
    pages: &mut P,
    scratch: &mut Scratch,
    roots: Roots,
    place: i64,
    coll: &[u8],
    idkey: &[u8],
    body: &[u8],
) -> Result<(), Error>
    ensures done { IsClean P.Pages pages.new → (first : Database) (version : ℕ) (docs : List TableRow) (old : List ℕ)
        → HasStore first (P.Pages.size pages.old) (P.Pages.pages pages.old) version roots.table roots.index docs
        → IsIn (row_at place coll.now idkey.now old) docs
        → OnOk result (HasStore first (P.Pages.size pages.old) (P.Pages.pages pages.new) version roots.table roots.index
        (with_body_at place body.now docs)) }
    ensures kept { Continues P.Pages pages.old pages.new }
{
    let bytes = row_record(alloc, coll, idkey, body)?;
    put_row(pages, scratch, roots.table, place, bytes.as_slice())
}

/// Removes a row.
pub(crate) fn remove<P: Pages>(
    alloc: Global,
    pages: &mut P,
    scratch: &mut Scratch,
    roots: Roots,
    place: i64,
    coll: &[u8],
    idkey: &[u8],
) -> Result<(), Error>
    ensures done { IsClean P.Pages pages.new → (first : Database) (version : ℕ) (docs : List TableRow) (body : List ℕ)
        → HasStore first (P.Pages.size pages.old) (P.Pages.pages pages.old) version roots.table roots.index docs
        → IsIn (row_at place coll.now idkey.now body) docs
        → OnOk result (HasStore first (P.Pages.size pages.old) (P.Pages.pages pages.new) version roots.table roots.index
        (without_place place docs)) }
    ensures kept { Continues P.Pages pages.old pages.new }
{
    let entry = entry_of(alloc, coll, idkey, place)?;
    remove_row(pages, scratch, roots.table, place)?;
    remove_entry(pages, scratch, roots.index, &entry)
}
