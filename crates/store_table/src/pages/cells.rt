//! The values of a record, as the rows of the table have them.

ghost use Rattle.std.specs.Prelude.{◌≡◌, IfSome};
ghost use Rattle.sqlite_record.specs.Record.{decode};
ghost use Rattle.store_table.specs.Documents.{columns, entry};
ghost use Rattle.store_table.specs.Roots.{schema_row, text_or_null};

use sqlite_record::fields::Fields;
use sqlite_value::value::ValueRef;

/// A row of the table: its place is the key of its record, and NULL stands in its column.
#[derive(Clone, Copy, Debug)]
pub struct RowRef<'a> {
    pub coll: &'a [u8],
    pub idkey: &'a [u8],
    pub body: &'a [u8],
}

/// The row that a record of the table has, if it has the types of one.
pub fn row_of(bytes: &[u8]) -> Option<RowRef<'_>>
    ensures { IfSome result (λ r. decode bytes.now ≡ columns r.coll.now r.idkey.now r.body.now) }
{
    let mut fields = Fields::new(bytes);
    let Some(ValueRef::Null) = fields.next() else {
        return None;
    };
    let Some(ValueRef::Text(coll)) = fields.next() else {
        return None;
    };
    let Some(ValueRef::Blob(idkey)) = fields.next() else {
        return None;
    };
    let Some(ValueRef::Blob(body)) = fields.next() else {
        return None;
    };
    match fields.next() {
        None => Some(RowRef { coll, idkey, body }),
        Some(_) => None,
    }
}

/// An entry of the index.
#[derive(Clone, Copy, Debug)]
pub struct KeyRef<'a> {
    pub coll: &'a [u8],
    pub idkey: &'a [u8],
    pub place: i64,
}

/// The entry that a record of the index has, if it has the types of one.
pub fn key_of(bytes: &[u8]) -> Option<KeyRef<'_>>
    ensures { IfSome result (λ r. decode bytes.now ≡ entry r.coll.now r.idkey.now r.place) }
{
    let mut fields = Fields::new(bytes);
    let Some(ValueRef::Text(coll)) = fields.next() else {
        return None;
    };
    let Some(ValueRef::Blob(idkey)) = fields.next() else {
        return None;
    };
    let Some(ValueRef::Int(place)) = fields.next() else {
        return None;
    };
    match fields.next() {
        None => Some(KeyRef { coll, idkey, place }),
        Some(_) => None,
    }
}

/// An entry of the schema.
#[derive(Clone, Copy, Debug)]
pub struct EntryRef<'a> {
    pub kind: &'a [u8],
    pub name: &'a [u8],
    pub table: &'a [u8],
    pub root: i64,
    /// The text, or none of an index that a rule of its table made.
    pub text: Option<&'a [u8]>,
}

/// The entry that a record of the schema has, if it has the types of one.
pub fn entry_of(bytes: &[u8]) -> Option<EntryRef<'_>>
    ensures { IfSome result (λ e. decode bytes.now ≡ schema_row e.kind.now e.name.now e.table.now e.root (text_or_null e.text)) }
{
    let mut fields = Fields::new(bytes);
    let Some(ValueRef::Text(kind)) = fields.next() else {
        return None;
    };
    let Some(ValueRef::Text(name)) = fields.next() else {
        return None;
    };
    let Some(ValueRef::Text(table)) = fields.next() else {
        return None;
    };
    let Some(ValueRef::Int(root)) = fields.next() else {
        return None;
    };
    match fields.next() {
        Some(ValueRef::Text(text)) => match fields.next() {
            None => Some(EntryRef {
                kind,
                name,
                table,
                root,
                text: Some(text),
            }),
            Some(_) => None,
        },
        Some(ValueRef::Null) => match fields.next() {
            None => Some(EntryRef {
                kind,
                name,
                table,
                root,
                text: None,
            }),
            Some(_) => None,
        },
        _ => None,
    }
}
