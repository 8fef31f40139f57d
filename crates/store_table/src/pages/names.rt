//! The names of the collections, by the index alone.

ghost use Rattle.std.specs.Prelude.{◌≡◌, List, [], ◌∷◌, option_map, MatchOption, ⊤, IfOk, OnOk, Vec, ℕ};
ghost use Rattle.std.specs.declared.alloc.Global.{Global as GlobalType};
ghost use Rattle.sqlite_value.specs.declared.value.Value.{Value};
ghost use Rattle.sqlite_value.specs.declared.value.Value.TheVariants.{Text};
ghost use Rattle.sqlite_pages.specs.Calls.{IsClean, Continues};
ghost use Rattle.store_table.specs.Documents.{AreDocuments, Doc};
ghost use Rattle.store_table.specs.PageNames.{AreNames, IsNext, names_in};

use crate::pages::cells::key_of;
use crate::pages::from_key::PastKey;
use crate::pages::look::find_first;
use crate::pages::roots::Roots;
use sqlite_btree::{Batch, Scratch};
use sqlite_pages::{Error, Pages};
use sqlite_value::row::Row;
use sqlite_value::value::ValueRef;
use std::alloc::{AllocError, Global};

/// Whether a name comes behind the one that a key has, if it has one.
fn is_behind(name: &[u8], key: &Row) -> bool {
    match key.get(0) {
        ValueRef::Text(last) => name > last,
        _ => true,
    }
}

/// Makes a name the key.
fn rename(key: &mut Row, name: &[u8]) -> Result<(), AllocError>
    ensures { OnOk result (key.new ≡ Text name.now ∷ []) }
{
    key.clear();
    key.push(ValueRef::Text(name))
}

/// The first name behind the one that the key has, which becomes the key, if there is one.
fn next_name<P: Pages>(
    alloc: Global,
    pages: &mut P,
    scratch: &mut Scratch,
    root: u32,
    key: &mut Row,
    batch: &mut Batch,
) -> Result<Option<Vec<u8>>, Error>
    ensures found { IfOk result (λ found. IsClean P.Pages pages.new → (last : Value) (table : ℕ) (docs : List Doc) → key.old ≡ last ∷ []
        → AreDocuments (P.Pages.size pages.old) (P.Pages.pages pages.old) table root docs → IsNext last docs (option_map (λ (v : Vec ℕ GlobalType). v.items) found)) }
    ensures key { IfOk result (λ found. MatchOption found ⊤ (λ name. key.new ≡ Text name.items ∷ [])) }
    ensures kept { Continues P.Pages pages.old pages.new }
    ensures pages { P.Pages.pages pages.new ≡ P.Pages.pages pages.old }
{
    if !find_first(pages, scratch, root, &PastKey(key), batch)? {
        return Ok(None);
    }
    let Some(entry) = key_of(batch.payload()) else {
        return Err(Error::Corrupt);
    };
    if !is_behind(entry.coll, key) {
        return Err(Error::Corrupt);
    }
    rename(key, entry.coll)?;
    Ok(Some(Vec::from_slice(alloc, entry.coll)?))
}

/// The names of all collections that have a document, each once, ascending by their bytes.
pub fn each_name<P: Pages>(
    alloc: Global,
    pages: &mut P,
    scratch: &mut Scratch,
    roots: Roots,
) -> Result<Vec<Vec<u8>>, Error>
    ensures names { IfOk result (λ names. IsClean P.Pages pages.new → (docs : List Doc)
        → AreDocuments (P.Pages.size pages.old) (P.Pages.pages pages.old) roots.table roots.index docs → AreNames (names_in names.items) docs) }
    ensures kept { Continues P.Pages pages.old pages.new }
    ensures pages { P.Pages.pages pages.new ≡ P.Pages.pages pages.old }
{
    let mut names = Vec::new(alloc);
    let mut batch = Batch::new(alloc);
    let mut key = Row::new(alloc);
    key.push(ValueRef::Null)?;
    'names: for _ in 0..u64::MAX {
        match next_name(alloc, pages, scratch, roots.index, &mut key, &mut batch)? {
            Some(name) => names.push(name)?,
            None => return Ok(names),
        }
    }
    Err(Error::Corrupt)
}
