//! Whether the table is the one that this store makes.

ghost use Rattle.std.specs.Prelude.{◌≡◌, ◌^◌, [], ◌∷◌, nat_le, false, IsTrue, IfOk};
ghost use Rattle.store_table.specs.Schema.{HasStoreTable, column_of, documents, documents_at};

use crate::check::TestsRows;
use crate::sql;
use sqlite_schema::schema::{Column, Kind, Schema, Table};
use sqlite_value::keys::Collation;
use sqlite_value::value::Value;
use std::alloc::{AllocError, Global};

/// How many columns it has.
const COLUMNS: usize = 4;

/// Whether a column is this one.
fn is_column(column: &Column, name: &[u8], kind: Kind, not_null: bool) -> bool
    ensures { IsTrue result → column.now ≡ column_of name.now kind not_null }
{
    column.name.as_slice() == name
        && column.kind == kind
        && column.is_strict
        && column.not_null == not_null
        && matches!(column.default, Value::Null)
        && column.collation == Collation::Binary
}

/// Whether these are the table's columns.
fn are_columns(columns: &[Column]) -> bool
    ensures { IsTrue result → columns.now ≡ documents.columns }
{
    columns.len() == COLUMNS
        && is_column(&columns[0], b"place", Kind::Integer, false)
        && is_column(&columns[1], b"coll", Kind::Text, true)
        && is_column(&columns[2], b"idkey", Kind::Blob, true)
        && is_column(&columns[3], b"body", Kind::Blob, true)
}

/// Whether these are the places of the collection and the key.
fn are_name_and_key(places: &[usize]) -> bool
    ensures { IsTrue result → places.now ≡ 2 ∷ 3 ∷ [] }
{
    places == [2, 3].as_slice()
}

/// Whether a table has the rule UNIQUE of ours alone.
fn has_unique(table: &Table) -> bool
    ensures { IsTrue result → table.now.uniques ≡ documents.uniques }
{
    match table.uniques.as_slice() {
        [places] => are_name_and_key(places.as_slice()),
        _ => false,
    }
}

/// Whether a table has the keys of ours.
fn has_keys(table: &Table) -> bool
    ensures key { IsTrue result → table.now.key ≡ documents.key }
    ensures primary { IsTrue result → table.now.primary ≡ documents.primary }
    ensures uniques { IsTrue result → table.now.uniques ≡ documents.uniques }
    ensures orders { IsTrue result → table.now.orders ≡ documents.orders }
{
    table.key == Some(0)
        && table.primary.as_slice() == [0].as_slice()
        && has_unique(table)
        && table.orders.len() == 1
        && table.orders.as_slice()[0].digits == 0
}

/// Whether a table has no rule beside the types and the keys.
fn has_no_rules(alloc: Global, table: &Table) -> Result<bool, AllocError>
    ensures checks { IfOk result (λ none. IsTrue none → table.now.checks ≡ documents.checks) }
    ensures references { IfOk result (λ none. IsTrue none
        → table.now.references ≡ documents.references) }
    ensures computed { IfOk result (λ none. IsTrue none → table.now.computed ≡ documents.computed) }
    ensures stamps { IfOk result (λ none. IsTrue none → table.now.stamps ≡ documents.stamps) }
    ensures counted { IfOk result (λ none. IsTrue none
        → table.now.is_counted ≡ documents.is_counted) }
{
    let checks = table.checks.lend(alloc)?;
    let terms = table.stamps.terms.lend(alloc)?;
    Ok(
        checks.roots.is_empty()
            && terms.roots.is_empty()
            && table.stamps.places.is_empty()
            && table.stamps.formats.is_empty()
            && table.references.is_empty()
            && table.computed.is_empty()
            && !table.is_counted,
    )
}

/// Whether a table is ours.
fn is_ours(alloc: Global, table: &Table) -> Result<bool, AllocError>
    ensures table { IfOk result (λ own. IsTrue own → table.now ≡ documents_at table.now.tree) }
    ensures tree { IfOk result (λ own. IsTrue own → nat_le (2 ^ 31) table.now.tree ≡ false) }
{
    if table.name.as_slice() != sql::TABLE || table.tree >= 1 << 31 {
        return Ok(false);
    }
    if !are_columns(table.columns.as_slice()) || !has_keys(table) {
        return Ok(false);
    }
    has_no_rules(alloc, table)
}

/// Whether ours is the only table of a schema. Refused if memory is.
pub fn is_own(alloc: Global, schema: &Schema) -> Result<bool, AllocError>
    ensures { IfOk result (λ own. IsTrue own → HasStoreTable schema.now) }
{
    match schema.tables.as_slice() {
        [table] => is_ours(alloc, table),
        _ => Ok(false),
    }
}

/// Accepts every row.
#[derive(Drop)]
pub(crate) struct EveryRow {}

impl TestsRows for EveryRow {
    ghost accepts = { λ _ _ _ _. Unit {0} };

    fn accepts_row(&self, _coll: &[u8], _idkey: &[u8], _body: &[u8]) -> Result<bool, AllocError> {
        Ok(true)
    }
}
