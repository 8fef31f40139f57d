//! Rows by their places.

ghost use Rattle.std.specs.Prelude.{◌≡◌, false, IfOk};
ghost use Rattle.store_table.specs.Crash.{AddsNothing};
ghost use Rattle.store_table.specs.Moves.{Moves, VisitsAt, WasOpen};
ghost use Rattle.store_table.specs.Table.{table_state};
ghost use Rattle.bson_store.specs.Asking.{VisitsPlaces};

use sqlite::Alter;
use store_table::{Fault, Table, Visit};

/// Hands the body at a place to a visitor, if the row there is one of the collection. False: the visitor asks for no
/// more.
fn visit_place<S: Alter + Drop, V: Visit>(
    table: &mut Table<S>,
    coll: &str,
    place: &i64,
    visitor: &mut V,
) -> Result<bool, Fault>
    ensures moves { Moves (table_state S.Store table.old) (table_state S.Store table.new)
        (VisitsAt V.took visitor.old visitor.new coll.now place.now result) }
    ensures stopped { IfOk result (λ more. more ≡ false → V.is_done visitor.new) }
    ensures open { WasOpen (table_state S.Store table.old) (table_state S.Store table.new) result }
    ensures crash { AddsNothing (table_state S.Store table.old) (table_state S.Store table.new) }
{
    table.visit_at(coll, *place, visitor)
}

/// Hands the bodies of the rows of a collection at some places to a visitor, in the order of these, until it asks for no
/// more. True: all were taken.
pub(crate) fn visit_places<S: Alter + Drop, V: Visit>(
    table: &mut Table<S>,
    coll: &str,
    places: &[i64],
    visitor: &mut V,
) -> Result<bool, Fault>
    ensures moves { Moves (table_state S.Store table.old) (table_state S.Store table.new)
        (VisitsPlaces (V.took visitor.old) visitor.old visitor.new coll.now places.now result) }
    ensures stopped { IfOk result (λ all. all ≡ false → V.is_done visitor.new) }
    ensures open { WasOpen (table_state S.Store table.old) (table_state S.Store table.new) result }
    ensures crash { AddsNothing (table_state S.Store table.old) (table_state S.Store table.new) }
{
    // Even if nothing is to be read, it is refused once the connection is shut.
    table.is_empty()?;
    for i in 0..places.len() {
        if !visit_place(table, coll, &places[i], visitor)? {
            return Ok(false);
        }
    }
    Ok(true)
}
