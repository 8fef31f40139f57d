//! One change, made of rows that are held.

ghost use Rattle.std.specs.Prelude.{◌≡◌, ◌++◌, ◌∷◌, [], List, filter, map, OnOk};
ghost use Rattle.bson_store.specs.Draft.{ShowRows, is_elsewhere, parts_of, with_part};
ghost use Rattle.store_table.specs.Change.{with_change};
ghost use Rattle.store_table.specs.Moves.{parts_of_found};
ghost use Rattle.store_table.specs.Rows.{TableRow};

use std::alloc::{AllocError, Global};
use store_table::{Change, Found};

/// Puts a row last. The error is a refused growth.
pub fn push_row(
    alloc: Global,
    rows: &mut Vec<Found>,
    place: i64,
    body: &[u8],
) -> Result<(), AllocError>
    ensures { OnOk result (parts_of rows.new.items ≡ parts_of rows.old.items
        ++ (place, body.now) ∷ []) }
{
    let body = Vec::from_slice(alloc, body)?;
    rows.push(Found { place, body })?;
    Ok(())
}

/// Gives a row another body, if it is at this place.
fn renew_row(alloc: Global, row: &mut Found, place: i64, body: &[u8]) -> Result<(), AllocError>
    ensures { OnOk result (parts_of_found row.new ≡ with_part place body.now
        (parts_of_found row.old)) }
{
    if row.place == place {
        row.body = Vec::from_slice(alloc, body)?;
    }
    Ok(())
}

/// Gives what is at a place another body.
fn set_body(alloc: Global, rows: &mut Vec<Found>, place: i64, body: &[u8]) -> Result<(), AllocError>
    ensures { OnOk result (parts_of rows.new.items ≡ map (with_part place body.now)
        (parts_of rows.old.items)) }
{
    for row in rows.iter_mut() {
        renew_row(alloc, row, place, body)?;
    }
    Ok(())
}

/// Takes away what is at a place.
fn drop_row(rows: &mut Vec<Found>, place: i64)
    ensures { parts_of rows.new.items ≡ filter (is_elsewhere place) (parts_of rows.old.items) }
{
    rows.retain(|row| row.place != place);
}

/// The rows of a collection after a change. A row that is added comes last.
pub(crate) fn change_rows(
    alloc: Global,
    coll: &str,
    rows: &mut Vec<Found>,
    change: &Change,
) -> Result<(), AllocError>
    ensures { (docs : List TableRow) → ShowRows coll.now rows.old.items docs
        → OnOk result (ShowRows coll.now rows.new.items (with_change change.now docs)) }
{
    match change {
        Change::Add {
            place,
            coll: name,
            idkey: _,
            body,
        } => {
            if name.as_str() != coll {
                return Ok(());
            }
            push_row(alloc, rows, *place, body.as_slice())
        }
        Change::Rewrite {
            place,
            old: _,
            body,
        } => set_body(alloc, rows, *place, body.as_slice()),
        Change::Remove { place, old: _ } => {
            drop_row(rows, *place);
            Ok(())
        }
    }
}
