//! Rows of the table and entries of its index, as the trees store them.

ghost use Rattle.std.specs.Prelude.{◌≡◌, ◌^◌, ◌<◌, ◌≤◌, length, IfOk};
ghost use Rattle.sqlite_record.specs.Record.{decode};
ghost use Rattle.sqlite_record.specs.Strict.{IsRecord};
ghost use Rattle.store_table.specs.Documents.{columns, entry};

use sqlite_pages::Error;
use sqlite_record::encode::encode;
use sqlite_trees::error::StoreError;
use sqlite_value::row::Row;
use sqlite_value::value::ValueRef;
use std::alloc::{AllocError, Global};

/// What the table has of a row under its place.
fn columns_of(alloc: Global, coll: &[u8], idkey: &[u8], body: &[u8]) -> Result<Row, AllocError>
    ensures { IfOk result (λ r. r ≡ columns coll.now idkey.now body.now) }
{
    let mut row = Row::new(alloc);
    row.push(ValueRef::Null)?;
    row.push(ValueRef::Text(coll))?;
    row.push(ValueRef::Blob(idkey))?;
    row.push(ValueRef::Blob(body))?;
    Ok(row)
}

/// What the index has of a row.
pub(crate) fn entry_of(
    alloc: Global,
    coll: &[u8],
    idkey: &[u8],
    place: i64,
) -> Result<Row, AllocError>
    ensures { IfOk result (λ r. r ≡ entry coll.now idkey.now place) }
{
    let mut row = Row::new(alloc);
    row.push(ValueRef::Text(coll))?;
    row.push(ValueRef::Blob(idkey))?;
    row.push(ValueRef::Int(place))?;
    Ok(row)
}

/// The record of some values.
///
/// Refused by OutOfMemory, and by Full if it would be longer than a record may be.
pub(crate) fn record_of(alloc: Global, row: &Row) -> Result<Vec<u8>, Error>
    requires some { 0 < length row.now }
    requires few { length row.now ≤ 10000 }
    ensures reads { IfOk result (λ r. decode r.items ≡ row.now) }
    ensures strict { IfOk result (λ r. IsRecord r.items) }
    ensures short { IfOk result (λ r. length r.items < 2 ^ 31) }
{
    let mut types = Vec::new(alloc);
    let mut bytes = Vec::new(alloc);
    match encode(row, 0, &mut types, &mut bytes) {
        Ok(()) => Ok(bytes),
        Err(StoreError::OutOfMemory) => Err(Error::OutOfMemory),
        Err(_) => Err(Error::Full),
    }
}

/// The record that the table has of a row.
///
/// Refused as `record_of`.
pub(crate) fn row_record(
    alloc: Global,
    coll: &[u8],
    idkey: &[u8],
    body: &[u8],
) -> Result<Vec<u8>, Error>
    ensures reads { IfOk result (λ r. decode r.items ≡ columns coll.now idkey.now body.now) }
    ensures strict { IfOk result (λ r. IsRecord r.items) }
    ensures short { IfOk result (λ r. length r.items < 2 ^ 31) }
{
    let row = columns_of(alloc, coll, idkey, body)?;
    record_of(alloc, &row)
}
