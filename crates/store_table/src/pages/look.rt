//! One row, found by its collection and key.

ghost use Rattle.std.specs.Prelude.{◌≡◌, ◌↔◌, ℕ, List, [], ◌∷◌, option_map, IfOk, IsTrue, Vec};
ghost use Rattle.std.specs.declared.alloc.Global.{Global as GlobalType};
ghost use Rattle.sqlite_value.specs.declared.value.Value.TheVariants.{Text, Blob};
ghost use Rattle.sqlite_btree.specs.Batch.{taken};
ghost use Rattle.sqlite_pages.specs.Calls.{IsClean, Continues};
ghost use Rattle.sqlite_btree.specs.Cut.{IsIn};
ghost use Rattle.store_table.specs.Documents.{AreDocuments, Doc, named_in};
ghost use Rattle.store_table.specs.Scans.{FindsFirst};

use crate::pages::cells::{key_of, row_of};
use crate::pages::from_key::FromKey;
use crate::pages::roots::Roots;
use sqlite_btree::{Batch, Probe, Scratch, index, table};
use sqlite_pages::{Error, Pages};
use sqlite_value::row::Row;
use sqlite_value::value::ValueRef;
use std::alloc::{AllocError, Global};

/// The first record of an index from a place on, if there is one. It is that of the batch.
pub(crate) fn find_first<P: Pages, C: Probe>(
    pages: &mut P,
    scratch: &mut Scratch,
    root: u32,
    probe: &C,
    batch: &mut Batch,
) -> Result<bool, Error>
    ensures done { IfOk result (FindsFirst P.Pages pages.old pages.new (C.Probe.side probe.now) root (taken batch.new).payload) }
    ensures kept { Continues P.Pages pages.old pages.new }
    ensures pages { P.Pages.pages pages.new ≡ P.Pages.pages pages.old }
{
    index::fill(pages, scratch, root, probe, batch)?;
    let some = batch.next(pages)?;
    Ok(some)
}

/// Whether two texts are one.
pub(crate) fn is_same(bytes: &[u8], others: &[u8]) -> bool
    ensures { IsTrue result ↔ (bytes.now ≡ others.now) }
{
    bytes == others
}

/// A collection and a key, as a row.
fn key_row(alloc: Global, coll: &[u8], idkey: &[u8]) -> Result<Row, AllocError>
    ensures { IfOk result (λ r. r ≡ Text coll.now ∷ Blob idkey.now ∷ []) }
{
    let mut key = Row::new(alloc);
    key.push(ValueRef::Text(coll))?;
    key.push(ValueRef::Blob(idkey))?;
    Ok(key)
}

/// The place of the row with a collection and key, or none if no row has them.
pub fn place_named<P: Pages>(
    alloc: Global,
    pages: &mut P,
    scratch: &mut Scratch,
    roots: Roots,
    coll: &[u8],
    idkey: &[u8],
) -> Result<Option<i64>, Error>
    ensures found { IfOk result (λ place. IsClean P.Pages pages.new → (docs : List Doc) → AreDocuments (P.Pages.size pages.old) (P.Pages.pages pages.old) roots.table roots.index docs
        → place ≡ option_map (λ (d : Doc). d.place) (named_in coll.now idkey.now docs)) }
    ensures kept { Continues P.Pages pages.old pages.new }
    ensures pages { P.Pages.pages pages.new ≡ P.Pages.pages pages.old }
{
    let key = key_row(alloc, coll, idkey)?;
    let mut batch = Batch::new(alloc);
    let some = find_first(pages, scratch, roots.index, &FromKey(&key), &mut batch)?;
    if !some {
        return Ok(None);
    }
    let Some(entry) = key_of(batch.payload()) else {
        return Err(Error::Corrupt);
    };
    if !is_same(entry.coll, coll) {
        return Ok(None);
    }
    if !is_same(entry.idkey, idkey) {
        return Ok(None);
    }
    Ok(Some(entry.place))
}

/// The body of the row at a place, which has this collection and key.
fn body_at<P: Pages>(
    alloc: Global,
    pages: &mut P,
    scratch: &mut Scratch,
    roots: Roots,
    place: i64,
    coll: &[u8],
    idkey: &[u8],
) -> Result<Vec<u8>, Error>
    ensures found { IfOk result (λ body. IsClean P.Pages pages.new → (docs : List Doc) → AreDocuments (P.Pages.size pages.old) (P.Pages.pages pages.old) roots.table roots.index docs
        → (d : Doc) × IsIn d docs × (d.coll ≡ coll.now) × (d.idkey ≡ idkey.now) × (d.body ≡ body.items)) }
    ensures kept { Continues P.Pages pages.old pages.new }
    ensures pages { P.Pages.pages pages.new ≡ P.Pages.pages pages.old }
{
    let mut record = Vec::new(alloc);
    let some = table::get(pages, scratch, roots.table, place, &mut record)?;
    if !some {
        return Err(Error::Corrupt);
    }
    let Some(row) = row_of(record.as_slice()) else {
        return Err(Error::Corrupt);
    };
    if !is_same(row.coll, coll) {
        return Err(Error::Corrupt);
    }
    if !is_same(row.idkey, idkey) {
        return Err(Error::Corrupt);
    }
    Ok(Vec::from_slice(alloc, row.body)?)
}

/// The body of the row with a collection and key, or none if no row has them.
pub fn body_named<P: Pages>(
    alloc: Global,
    pages: &mut P,
    scratch: &mut Scratch,
    roots: Roots,
    coll: &[u8],
    idkey: &[u8],
) -> Result<Option<Vec<u8>>, Error>
    ensures found { IfOk result (λ found. IsClean P.Pages pages.new → (docs : List Doc) → AreDocuments (P.Pages.size pages.old) (P.Pages.pages pages.old) roots.table roots.index docs
        → option_map (λ (v : Vec ℕ GlobalType). v.items) found ≡ option_map (λ (d : Doc). d.body) (named_in coll.now idkey.now docs)) }
    ensures kept { Continues P.Pages pages.old pages.new }
    ensures pages { P.Pages.pages pages.new ≡ P.Pages.pages pages.old }
{
    match place_named(alloc, pages, scratch, roots, coll, idkey)? {
        Some(place) => {
            let body = body_at(alloc, pages, scratch, roots, place, coll, idkey)?;
            Ok(Some(body))
        }
        None => Ok(None),
    }
}
