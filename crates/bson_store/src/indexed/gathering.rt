//! An index is made of the rows of a collection, one after the other.

ghost use Rattle.std.specs.Prelude.{◌≡◌, IfOk, string_bytes};
ghost use Rattle.store_question.specs.Filters.{path_of};
ghost use Rattle.store_table.specs.Crash.{AddsNothing};
ghost use Rattle.store_table.specs.Moves.{Moves, WasOpen};
ghost use Rattle.store_table.specs.Table.{table_state};
ghost use Rattle.bson_store.specs.Gathering.{MakesIndex};

use crate::indexed::index::Index;
use sqlite::Alter;
use std::alloc::{AllocError, Global};
use store_table::{Fault, Table, VisitPlaced};

/// Notes rows, until memory is refused.
#[derive(Drop)]
pub struct Gatherer {
    pub index: Index,
    pub failed: bool,
    pub alloc: Global,
}

impl VisitPlaced for Gatherer {
    ghost use Rattle.std.specs.Prelude.{IsTrue};
    ghost use Rattle.bson_store.specs.Find.{IsAsBefore};
    ghost use Rattle.bson_store.specs.Gathering.{Gathers, NotesOnly};

    ghost took = { λ first v rows. IsAsBefore first.index v.index × Gathers v.index rows v.failed
        × NotesOnly first.index v.index rows v.failed };

    ghost is_done = { λ v. IsTrue v.failed };

    fn visit(&mut self, place: i64, body: &[u8]) -> bool {
        match self.index.note(self.alloc, place, body) {
            Ok(()) => !self.failed,
            Err(_) => {
                self.failed = true;
                false
            }
        }
    }
}

/// A text as one of its own.
fn owned(alloc: Global, text: &str) -> Result<String, AllocError>
    ensures { IfOk result (λ own. string_bytes own ≡ text.now) }
{
    String::from_str(alloc, text)
}

/// An index of a collection on a path.
pub(crate) fn gather<S: Alter + Drop>(
    alloc: Global,
    table: &mut Table<S>,
    coll: &str,
    path: Vec<String>,
) -> Result<Index, Fault>
    ensures moves { Moves (table_state S.Store table.old) (table_state S.Store table.new)
        (MakesIndex coll.now (path_of path.items) result) }
    ensures open { WasOpen (table_state S.Store table.old) (table_state S.Store table.new) result }
    ensures crash { AddsNothing (table_state S.Store table.old) (table_state S.Store table.new) }
{
    let mut gatherer = Gatherer {
        index: Index::new(alloc, owned(alloc, coll)?, path),
        failed: false,
        alloc,
    };
    let all = table.visit_placed(coll, &mut gatherer)?;
    if !all {
        return Err(Fault::Memory);
    }
    if gatherer.failed {
        return Err(Fault::Memory);
    }
    Ok(gatherer.index)
}
