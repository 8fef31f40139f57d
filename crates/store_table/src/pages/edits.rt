//! Edits of one tree, said of the rows that the pages read as.

ghost use Rattle.std.specs.Prelude.{◌≡◌, ℕ, ◌^◌, ◌<◌, List, length, OnOk};
ghost use Rattle.sqlite_pages.specs.Calls.{IsClean, Continues};
ghost use Rattle.sqlite_value.specs.Keys.{plain};
ghost use Rattle.sqlite_trees.specs.Tree.{put_row, without_rowid, insert_entry, remove_entry};
ghost use Rattle.sqlite_record.specs.Record.{decode};
ghost use Rattle.sqlite_record.specs.Strict.{IsRecord};
ghost use Rattle.sqlite_record.specs.Affinity.{widen};
ghost use Rattle.sqlite_store.specs.declared.catalog.Wanted.{Wanted};
ghost use Rattle.sqlite_store.specs.Catalog.{reals_at};
ghost use Rattle.sqlite_store.specs.Db.{shown, table_row, IsDb, Names, Edits};
ghost use Rattle.sqlite_trees.specs.declared.store.Shape.TheVariants.{Table, Index};

use crate::pages::probe::AtEntry;
use sqlite_btree::{Scratch, index, table};
use sqlite_pages::{Error, Pages};
use sqlite_value::row::Row;

/// Puts a row into a table, in the place of the one with its rowid.
pub fn put_row<P: Pages>(
    pages: &mut P,
    scratch: &mut Scratch,
    root: u32,
    rowid: i64,
    bytes: &[u8],
) -> Result<(), Error>
    requires short { length bytes.now < 2 ^ 31 }
    requires strict { IsRecord bytes.now }
    ensures done { IsClean P.Pages pages.new → (schema : List Wanted) (tree : ℕ)
        → IsDb (P.Pages.size pages.old) schema (P.Pages.pages pages.old)
        → Names (P.Pages.size pages.old) schema (P.Pages.pages pages.old) tree Table root
        → shown Table (reals_at schema tree) (table_row (rowid, bytes.now)) ≡ table_row (rowid, bytes.now)
        → OnOk result (Edits (P.Pages.size pages.old) schema (P.Pages.pages pages.old) (P.Pages.pages pages.new) tree
        (put_row (table_row (rowid, bytes.now)))) }
    ensures kept { Continues P.Pages pages.old pages.new }
{
    table::insert(pages, scratch, root, rowid, bytes)?;
    Ok(())
}

/// Takes the row with a rowid out of a table, if there is one.
pub fn remove_row<P: Pages>(
    pages: &mut P,
    scratch: &mut Scratch,
    root: u32,
    rowid: i64,
) -> Result<(), Error>
    ensures done { IsClean P.Pages pages.new → (schema : List Wanted) (tree : ℕ)
        → IsDb (P.Pages.size pages.old) schema (P.Pages.pages pages.old)
        → Names (P.Pages.size pages.old) schema (P.Pages.pages pages.old) tree Table root
        → OnOk result (Edits (P.Pages.size pages.old) schema (P.Pages.pages pages.old) (P.Pages.pages pages.new) tree
        (without_rowid rowid)) }
    ensures kept { Continues P.Pages pages.old pages.new }
{
    table::remove(pages, scratch, root, rowid)?;
    Ok(())
}

/// Adds an entry to an index, unless it has it.
pub fn add_entry<P: Pages>(
    pages: &mut P,
    scratch: &mut Scratch,
    root: u32,
    entry: &Row,
    bytes: &[u8],
) -> Result<(), Error>
    requires short { length bytes.now < 2 ^ 31 }
    requires strict { IsRecord bytes.now }
    requires encoded { decode bytes.now ≡ entry.now }
    ensures done { IsClean P.Pages pages.new → (schema : List Wanted) (tree : ℕ)
        → IsDb (P.Pages.size pages.old) schema (P.Pages.pages pages.old)
        → Names (P.Pages.size pages.old) schema (P.Pages.pages pages.old) tree (Index plain) root
        → widen (reals_at schema tree) entry.now ≡ entry.now
        → OnOk result (Edits (P.Pages.size pages.old) schema (P.Pages.pages pages.old) (P.Pages.pages pages.new) tree
        (insert_entry plain entry.now)) }
    ensures kept { Continues P.Pages pages.old pages.new }
{
    index::insert(pages, scratch, root, &AtEntry(entry), bytes)?;
    Ok(())
}

/// Takes an entry out of an index, if it has it.
pub fn remove_entry<P: Pages>(
    pages: &mut P,
    scratch: &mut Scratch,
    root: u32,
    entry: &Row,
) -> Result<(), Error>
    ensures done { IsClean P.Pages pages.new → (schema : List Wanted) (tree : ℕ)
        → IsDb (P.Pages.size pages.old) schema (P.Pages.pages pages.old)
        → Names (P.Pages.size pages.old) schema (P.Pages.pages pages.old) tree (Index plain) root
        → OnOk result (Edits (P.Pages.size pages.old) schema (P.Pages.pages pages.old) (P.Pages.pages pages.new) tree
        (remove_entry plain entry.now)) }
    ensures kept { Continues P.Pages pages.old pages.new }
{
    index::remove(pages, scratch, root, &AtEntry(entry))?;
    Ok(())
}
