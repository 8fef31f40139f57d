//! Opening a database, whose table is tested row by row.

ghost use Rattle.std.specs.Prelude.{◌≡◌, ◌⊎◌, [], false, Err, IsTrue, IfErr, OnOk, OnErr, is_some};
ghost use Rattle.sqlite_value.specs.Order.{column};
ghost use Rattle.sqlite.specs.Held.{state};
ghost use Rattle.sqlite.specs.State.{HasCleanDisk, Survives, IsLive};
ghost use Rattle.sqlite_schema.specs.Names.{table_named, index_named, view_named};
ghost use Rattle.store_table.specs.Cells.{is_listed, int_in, bytes_in};
ghost use Rattle.store_table.specs.Renewal.{Opened, Unopened, Makes};
ghost use Rattle.store_table.specs.Rows.{IsBlank, HoldsRows};
ghost use Rattle.store_table.specs.Beside.{StandsBeside, AreBeside};
ghost use Rattle.store_table.specs.Open.{IsSettled, KeepsAll, table_name, HasNoTable, IsNameTaken};

use crate::check::RowCheck;
use crate::renewal::settle_keys;
use crate::sql;
use crate::statements::create;
use sqlite::types::ValueRef;
use sqlite::{Alter, Connection, Error, ErrorCode, Row};
use std::alloc::Global;

/// Why a database is not opened.
#[derive(Clone, Copy, Debug, PartialEq, Eq)]
pub enum OpenError {
    /// `documents` can't be read by the four columns with their types, or is no table.
    NotAStore,
    /// The place of the first row that a store can't have written.
    BadRow(i64),
    /// Two rows of one collection have `_id`s that mean the same now: the place of the first, and the least place that
    /// has a twin before it.
    IdsCollide(i64, i64),
    /// Memory ran out, here or in the database.
    Memory,
    /// The database refused: its disk, a limit on steps, an open transaction.
    Database,
}

/// Memory if the database ran out of it, and Database for any other error.
pub(crate) fn refusal(error: Error) -> OpenError
    ensures other { (result ≡ OpenError.Memory) ⊎ (result ≡ OpenError.Database) }
    ensures memory { error ≡ Error.SqliteFailure ErrorCode.OutOfMemory → result ≡ OpenError.Memory }
{
    match error {
        Error::SqliteFailure(ErrorCode::OutOfMemory) => OpenError::Memory,
        _ => OpenError::Database,
    }
}

/// Whether the columns place, coll, idkey and body of a row are an integer, a text and two blobs.
pub(crate) fn has_row_types(row: &Row) -> bool
    ensures { result ≡ is_listed row.now }
{
    matches!(row.get_ref(0), Ok(ValueRef::Int(_)))
        && matches!(row.get_ref(1), Ok(ValueRef::Text(_)))
        && matches!(row.get_ref(2), Ok(ValueRef::Blob(_)))
        && matches!(row.get_ref(3), Ok(ValueRef::Blob(_)))
}

/// The integer in a row's first column.
pub(crate) fn place_in(row: &Row) -> i64
    ensures { result ≡ int_in (column row.now 0) }
{
    match row.get_ref(0) {
        Ok(ValueRef::Int(place)) => place,
        _ => 0,
    }
}

/// The bytes in a row's column.
pub(crate) fn bytes_at(row: &Row, at: usize) -> &[u8]
    ensures { result.now ≡ bytes_in (column row.now at) }
{
    match row.get_ref(at) {
        Ok(ValueRef::Text(bytes)) | Ok(ValueRef::Blob(bytes)) => bytes,
        _ => &[],
    }
}

/// Makes the table if the database has no object of the name, and tests it if it has one.
pub(crate) fn prepare<S: Alter, C: RowCheck>(
    alloc: Global,
    conn: &mut Connection<S>,
    check: &C,
) -> Result<(), OpenError>
    ensures opened { HasCleanDisk (state S.Store conn.new)
        → OnOk result (Opened (C.renews check.now) (state S.Store conn.old)
        (state S.Store conn.new)) }
    ensures refused { HasCleanDisk (state S.Store conn.new)
        → IfErr result (λ e. Unopened (C.renews check.now) (state S.Store conn.old)
        (state S.Store conn.new) e) }
    ensures kept { HasCleanDisk (state S.Store conn.new)
        → OnErr result (KeepsAll (state S.Store conn.old) (state S.Store conn.new)) }
    ensures taken { (state S.Store conn.old).in_transaction ≡ false
        → HasNoTable (state S.Store conn.old) → IsNameTaken (state S.Store conn.old)
        → (result ≡ Err OpenError.NotAStore) × (conn.new ≡ conn.old) }
    ensures busy { IsTrue (state S.Store conn.old).in_transaction
        → (result ≡ Err OpenError.Database) × (conn.new ≡ conn.old) }
    ensures crash { Survives (state S.Store conn.old) (state S.Store conn.new)
        (Makes (C.renews check.now) (state S.Store conn.old)) }
{
    if !conn.is_autocommit() {
        return Err(OpenError::Database);
    }
    if has_table(conn) {
        return settle_keys(alloc, conn, check);
    }
    if is_taken(conn) {
        return Err(OpenError::NotAStore);
    }
    make_table(conn)
}

/// Makes the table in a database that has no object of the name.
fn make_table<S: Alter>(conn: &mut Connection<S>) -> Result<(), OpenError>
    ensures made { HasCleanDisk (state S.Store conn.new) → IsBlank (state S.Store conn.old)
        → OnOk result (HoldsRows (state S.Store conn.new) []) }
    ensures beside { HasCleanDisk (state S.Store conn.new)
        → (state S.Store conn.old).in_transaction ≡ false
        → OnOk result (StandsBeside (state S.Store conn.old) (state S.Store conn.new)) }
    ensures told { IfErr result (λ e. (e ≡ OpenError.Memory) ⊎ (e ≡ OpenError.Database)) }
    ensures kept { HasCleanDisk (state S.Store conn.new) → IsSettled (state S.Store conn.old)
        → OnErr result (KeepsAll (state S.Store conn.old) (state S.Store conn.new)) }
    ensures crash { Survives (state S.Store conn.old) (state S.Store conn.new)
        (AreBeside (state S.Store conn.old).now) }
{
    match create(conn) {
        Ok(_) => Ok(()),
        Err(error) => Err(refusal(error)),
    }
}

/// Whether the database has a table `documents`, whatever its columns are.
fn has_table<S: Alter>(conn: &Connection<S>) -> bool
    ensures there { result ≡ is_some (table_named (state S.Store conn.now).now.schema table_name) }
    ensures live { IsLive (state S.Store conn.now) }
{
    conn.schema().table_named(sql::TABLE).is_some()
}

/// Whether a view or an index has the name.
fn is_taken<S: Alter>(conn: &Connection<S>) -> bool
    ensures taken { IsTrue result → IsNameTaken (state S.Store conn.now) }
    ensures free { result ≡ false → ¬ IsNameTaken (state S.Store conn.now) }
{
    let schema = conn.schema();
    schema.view_named(sql::TABLE).is_some() || schema.index_named(sql::TABLE).is_some()
}
