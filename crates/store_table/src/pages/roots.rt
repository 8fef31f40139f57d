//! Where the table and its index begin.

ghost use Rattle.std.specs.Prelude.{◌≡◌, ℕ, ℤ, pos, List, IfOk, IfSome, IsTrue};
ghost use Rattle.sqlite_format.specs.Bytes.{u32_at};
ghost use Rattle.sqlite_btree.specs.Batch.{taken};
ghost use Rattle.sqlite_btree.specs.Stored.{as_row};
ghost use Rattle.sqlite_record.specs.Record.{decode};
ghost use Rattle.sqlite_pages.specs.Calls.{IsClean, Continues};
ghost use Rattle.store_table.specs.Roots.{FindsEntry, FindsFirstRow, ListsTwo, SaysPlain, index_entry, schema_row, table_entry, text_or_null};

use crate::pages::cells::{EntryRef, entry_of};
use crate::pages::look::is_same;
use sqlite_btree::{Batch, Scratch, table};
use sqlite_pages::{Error, Pages};
use std::alloc::Global;

/// The text by which the store makes its table.
const TABLE_TEXT: &str =
    "CREATE TABLE documents (place INTEGER PRIMARY KEY, coll TEXT NOT NULL, idkey BLOB NOT NULL, body BLOB NOT NULL, UNIQUE (coll, idkey)) STRICT";

/// The page at which the schema begins.
const SCHEMA: u32 = 1;

/// The first pages of the table of documents and of the index on collections and keys.
#[derive(Clone, Copy, Debug, PartialEq, Eq)]
pub struct Roots {
    pub table: u32,
    pub index: u32,
}

/// A number as that of a page.
fn page_of(root: i64) -> Option<u32>
    ensures { IfSome result (λ page. root ≡ pos page) }
{
    u32::try_from(root).ok()
}

/// The root of the entry of the table, if it is that.
fn table_root(it: &EntryRef<'_>) -> Option<u32>
    ensures { IfSome result (λ page. schema_row it.now.kind.now it.now.name.now it.now.table.now it.now.root (text_or_null it.now.text) ≡ table_entry page) }
{
    let text = it.text?;
    if !is_same(it.kind, "table".as_bytes()) {
        return None;
    }
    if !is_same(it.name, "documents".as_bytes()) {
        return None;
    }
    if !is_same(it.table, "documents".as_bytes()) {
        return None;
    }
    if !is_same(text, TABLE_TEXT.as_bytes()) {
        return None;
    }
    page_of(it.root)
}

/// The root of the entry of its index, if it is that.
fn index_root(it: &EntryRef<'_>) -> Option<u32>
    ensures { IfSome result (λ page. schema_row it.now.kind.now it.now.name.now it.now.table.now it.now.root (text_or_null it.now.text) ≡ index_entry page) }
{
    if it.text.is_some() {
        return None;
    }
    if !is_same(it.kind, "index".as_bytes()) {
        return None;
    }
    if !is_same(it.name, "sqlite_autoindex_documents_1".as_bytes()) {
        return None;
    }
    if !is_same(it.table, "documents".as_bytes()) {
        return None;
    }
    page_of(it.root)
}

/// The root that a record of the schema gives of the table, if it is that of the table.
fn table_in(bytes: &[u8]) -> Option<u32>
    ensures { IfSome result (λ page. decode bytes.now ≡ table_entry page) }
{
    let it = entry_of(bytes)?;
    table_root(&it)
}

/// The root that a record of the schema gives of the index, if it is that of the index.
fn index_in(bytes: &[u8]) -> Option<u32>
    ensures { IfSome result (λ page. decode bytes.now ≡ index_entry page) }
{
    let it = entry_of(bytes)?;
    index_root(&it)
}

/// The first row of a table from a rowid on, if there is one. It is that of the batch.
fn first_row<P: Pages>(
    pages: &mut P,
    scratch: &mut Scratch,
    root: u32,
    from: i64,
    batch: &mut Batch,
) -> Result<bool, Error>
    ensures done { IfOk result (FindsFirstRow P.Pages pages.old pages.new from root (as_row (taken batch.new))) }
    ensures kept { Continues P.Pages pages.old pages.new }
    ensures pages { P.Pages.pages pages.new ≡ P.Pages.pages pages.old }
{
    table::fill(pages, scratch, root, from, batch)?;
    let some = batch.next(pages)?;
    Ok(some)
}

/// The root that the first row of the schema from a rowid on gives of the table.
fn next_table<P: Pages>(
    pages: &mut P,
    scratch: &mut Scratch,
    from: i64,
    batch: &mut Batch,
) -> Result<Option<u32>, Error>
    ensures done { IfOk result (λ found. IfSome found (λ page. FindsEntry P.Pages pages.old pages.new from (as_row (taken batch.new)) (table_entry page))) }
    ensures kept { Continues P.Pages pages.old pages.new }
    ensures pages { P.Pages.pages pages.new ≡ P.Pages.pages pages.old }
{
    if !first_row(pages, scratch, SCHEMA, from, batch)? {
        return Ok(None);
    }
    Ok(table_in(batch.payload()))
}

/// The root that the first row of the schema from a rowid on gives of the index.
fn next_index<P: Pages>(
    pages: &mut P,
    scratch: &mut Scratch,
    from: i64,
    batch: &mut Batch,
) -> Result<Option<u32>, Error>
    ensures done { IfOk result (λ found. IfSome found (λ page. FindsEntry P.Pages pages.old pages.new from (as_row (taken batch.new)) (index_entry page))) }
    ensures kept { Continues P.Pages pages.old pages.new }
    ensures pages { P.Pages.pages pages.new ≡ P.Pages.pages pages.old }
{
    if !first_row(pages, scratch, SCHEMA, from, batch)? {
        return Ok(None);
    }
    Ok(index_in(batch.payload()))
}

/// How many bytes the header of a database file has.
const HEADER: usize = 100;

/// Whether a file begins as one of UTF-8 texts, of no reserved bytes and with no pages that move.
fn is_plain(first: &[u8]) -> bool
    ensures { IsTrue result → u32_at first.now 20 ≡ 0x0040_2020 }
{
    if first.len() < HEADER {
        return false;
    }
    if first[20] != 0 || first[21] != 64 || first[22] != 32 || first[23] != 32 {
        return false;
    }
    &first[..16] == b"SQLite format 3\0".as_slice()
        && &first[52..60] == [0, 0, 0, 0, 0, 0, 0, 1].as_slice()
}

/// Where the schema's table and index begin, if these two are all that it has.
fn roots_in<P: Pages>(
    pages: &mut P,
    scratch: &mut Scratch,
    batch: &mut Batch,
) -> Result<Option<Roots>, Error>
    ensures found { IfOk result (λ found. IfSome found (λ roots. IsClean P.Pages pages.new → ListsTwo (P.Pages.size pages.old) (P.Pages.pages pages.old) roots.table roots.index)) }
    ensures kept { Continues P.Pages pages.old pages.new }
    ensures pages { P.Pages.pages pages.new ≡ P.Pages.pages pages.old }
{
    let Some(table) = next_table(pages, scratch, i64::MIN, batch)? else {
        return Ok(None);
    };
    let Some(second) = batch.rowid().checked_add(1) else {
        return Ok(None);
    };
    let Some(index) = next_index(pages, scratch, second, batch)? else {
        return Ok(None);
    };
    let Some(third) = batch.rowid().checked_add(1) else {
        return Ok(None);
    };
    if first_row(pages, scratch, SCHEMA, third, batch)? {
        return Ok(None);
    }
    Ok(Some(Roots { table, index }))
}

/// Where the table and its index begin, if the schema has these two alone, as the store makes them, in a plain file.
pub fn find_roots<P: Pages>(
    alloc: Global,
    pages: &mut P,
    scratch: &mut Scratch,
) -> Result<Option<Roots>, Error>
    ensures found { IfOk result (λ found. IfSome found (λ roots. IsClean P.Pages pages.new → ListsTwo (P.Pages.size pages.old) (P.Pages.pages pages.old) roots.table roots.index)) }
    ensures plain { IfOk result (λ found. IfSome found (λ _. IsClean P.Pages pages.new → SaysPlain (P.Pages.pages pages.old))) }
    ensures kept { Continues P.Pages pages.old pages.new }
    ensures pages { P.Pages.pages pages.new ≡ P.Pages.pages pages.old }
{
    pages.load(SCHEMA)?;
    if !is_plain(pages.loaded()) {
        return Ok(None);
    }
    let mut batch = Batch::new(alloc);
    let found = roots_in(pages, scratch, &mut batch)?;
    Ok(found)
}
