//! The calls of the table that only read, over pages that have its rows.

ghost use Rattle.std.specs.Prelude.{◌≡◌, ◌≢◌, ℕ, List, [], find, map, option_map, false, IfErr, IfOk, Vec};
ghost use Rattle.std.specs.List.{list_any};
ghost use Rattle.std.specs.declared.alloc.Global.{Global as GlobalType};
ghost use Rattle.sqlite_pages.specs.Calls.{Continues, IsClean};
ghost use Rattle.store_table.specs.declared.fault.Fault.TheVariants.{Places};
ghost use Rattle.store_table.specs.Moves.{Visits};
ghost use Rattle.store_table.specs.Names.{has_name};
ghost use Rattle.store_table.specs.Rows.{TableRow, is_in, is_row_named};
ghost use Rattle.sqlite_btree.specs.Cut.{Ascends};
ghost use Rattle.store_table.specs.Documents.{AreDocuments};
ghost use Rattle.store_table.specs.PageNames.{is_before, names_in};
ghost use Rattle.store_table.specs.Bridge.{as_doc};

use crate::pages::{Roots, RowRef, VisitRows, body_named, each_name, visit};
use crate::{Fault, Visit};
use sqlite_btree::Scratch;
use sqlite_pages::{Error, Pages};
use std::alloc::Global;

/// Why pages give no answer, in the words of the table.
fn fault_of(error: Error) -> Fault
    ensures { result ≢ Places }
{
    match error {
        Error::OutOfMemory => Fault::Memory,
        _ => Fault::Database,
    }
}

/// Hands on the bodies of rows.
#[derive(Drop)]
struct Bodies<V> {
    visitor: V,
}

impl<V: Visit> VisitRows for Bodies<V> {
    ghost use Rattle.std.specs.Prelude.{map};
    ghost use Rattle.store_table.specs.Documents.{Doc};

    ghost took = { λ first it docs. V.took first.visitor it.visitor (map (λ (d : Doc). d.body) docs) };

    ghost is_done = { λ it. V.is_done it.visitor };

    fn visit(&mut self, _place: i64, row: &RowRef<'_>) -> bool {
        self.visitor.visit(row.body)
    }
}

/// The body of the first row with a collection and a key, as the table's `named` finds it.
///
/// Refused by Memory and Database.
pub fn body_of<P: Pages>(
    alloc: Global,
    pages: &mut P,
    scratch: &mut Scratch,
    roots: Roots,
    coll: &[u8],
    idkey: &[u8],
) -> Result<Option<Vec<u8>>, Fault>
    ensures found { IsClean P.Pages pages.new → (docs : List TableRow)
        → AreDocuments (P.Pages.size pages.old) (P.Pages.pages pages.old) roots.table roots.index (map as_doc docs)
        → IfOk result (λ body. option_map (λ (v : Vec ℕ GlobalType). v.items) body
        ≡ option_map (λ (d : TableRow). d.body) (find (is_row_named coll.now idkey.now) docs)) }
    ensures faults { IfErr result (λ e. e ≢ Places) }
    ensures kept { Continues P.Pages pages.old pages.new }
    ensures pages { P.Pages.pages pages.new ≡ P.Pages.pages pages.old }
{
    match body_named(alloc, pages, scratch, roots, coll, idkey) {
        Ok(body) => Ok(body),
        Err(error) => Err(fault_of(error)),
    }
}

/// Hands each body of a collection to a visitor, in order of place, until it asks for no more, as the table's
/// `visit_bodies` does, and gives the visitor back. True: all were taken.
///
/// Refused by Memory and Database.
pub fn visit_bodies<P: Pages, V: Visit + Drop>(
    alloc: Global,
    pages: &mut P,
    scratch: &mut Scratch,
    roots: Roots,
    coll: &[u8],
    visitor: V,
) -> (V, Result<bool, Fault>)
    ensures visits { IsClean P.Pages pages.new → (docs : List TableRow)
        → AreDocuments (P.Pages.size pages.old) (P.Pages.pages pages.old) roots.table roots.index (map as_doc docs)
        → Visits (V.took visitor) visitor result.0 coll.now result.1 docs docs }
    ensures stopped { IfOk result.1 (λ all. all ≡ false → V.is_done result.0) }
    // Whatever the pages hold, the visitor took some bodies, and nothing else was done with it.
    ensures taken { V.took visitor visitor [] → (bodies : List (List ℕ)) × V.took visitor result.0 bodies }
    ensures kept { Continues P.Pages pages.old pages.new }
    ensures pages { P.Pages.pages pages.new ≡ P.Pages.pages pages.old }
{
    let mut bodies = Bodies { visitor };
    let visited = visit(alloc, pages, scratch, roots, coll, &mut bodies);
    let Bodies { visitor } = bodies;
    match visited {
        Ok(all) => (visitor, Ok(all)),
        Err(error) => (visitor, Err(fault_of(error))),
    }
}

/// The collections that have a row, ascending by the bytes of their names, as the table's `collections` finds them.
///
/// Refused by Memory and Database.
pub fn collections<P: Pages>(
    alloc: Global,
    pages: &mut P,
    scratch: &mut Scratch,
    roots: Roots,
) -> Result<Vec<Vec<u8>>, Fault>
    ensures names { IsClean P.Pages pages.new → (docs : List TableRow)
        → AreDocuments (P.Pages.size pages.old) (P.Pages.pages pages.old) roots.table roots.index (map as_doc docs)
        → IfOk result (λ names. (c : List ℕ) → has_name names.items c ≡ list_any (is_in c) docs) }
    ensures order { IsClean P.Pages pages.new → (docs : List TableRow)
        → AreDocuments (P.Pages.size pages.old) (P.Pages.pages pages.old) roots.table roots.index (map as_doc docs)
        → IfOk result (λ names. Ascends is_before (names_in names.items)) }
    ensures faults { IfErr result (λ e. e ≢ Places) }
    ensures kept { Continues P.Pages pages.old pages.new }
    ensures pages { P.Pages.pages pages.new ≡ P.Pages.pages pages.old }
{
    match each_name(alloc, pages, scratch, roots) {
        Ok(names) => Ok(names),
        Err(error) => Err(fault_of(error)),
    }
}
