//! The indexes of `createIndexes`.

ghost use Rattle.std.specs.Prelude.{◌≡◌, IfOk, Some, codes, map};
ghost use Rattle.std.specs.List.{AllByRecursion};
ghost use Rattle.bson_base.specs.Value.{look_up};
ghost use Rattle.bson_model.specs.View.{content, view};
ghost use Rattle.fallowtime_statements.specs.Indexing.{ArePlainIndexes, IsOrder, IsPlainIndex, are_numbers, is_number};

use crate::{Code, Fault, Name, allowed, refuse, value_in};
use bson_model::{Bson, Document};
use std::alloc::Global;

/// Whether a value is a number, as of an order.
fn is_number(value: &Bson) -> bool
    ensures { result ≡ is_number (view value.now) }
{
    matches!(value, Bson::Int32(_) | Bson::Int64(_) | Bson::Double(_))
}

/// Whether all values of a document are numbers.
fn are_numbers(document: &Document) -> bool
    ensures { result ≡ are_numbers (content document.now) }
{
    for (_, value) in document.iter() {
        if !is_number(value) {
            return false;
        }
    }
    true
}

/// Refuses what isn't an order by numbers. `NotImplemented` for an index of another kind.
fn order_in_value(alloc: Global, value: &Bson) -> Result<(), Fault>
    ensures { IfOk result (λ _. IsOrder (Some (view value.now))) }
{
    match value {
        Bson::Document(document) => {
            if are_numbers(document) {
                Ok(())
            } else {
                Err(refuse(alloc, Code::NotImplemented, "key"))
            }
        }
        _ => Err(refuse(alloc, Code::BadValue, "key")),
    }
}

/// Refuses an index without an order by numbers.
fn order_in(alloc: Global, index: &Document) -> Result<(), Fault>
    ensures { IfOk result (λ _. IsOrder (look_up (codes "key") (content index.now))) }
{
    match value_in(index, "key") {
        Some(value) => order_in_value(alloc, value),
        None => Err(refuse(alloc, Code::BadValue, "key")),
    }
}

/// Refuses an index that isn't plain. A key that it may not have is refused, as one of a command.
fn plain_index(alloc: Global, item: &Bson) -> Result<(), Fault>
    ensures { IfOk result (λ _. IsPlainIndex (view item.now)) }
{
    match item {
        Bson::Document(index) => {
            allowed(alloc, Name::Index, index)?;
            order_in(alloc, index)
        }
        _ => Err(refuse(alloc, Code::BadValue, "indexes")),
    }
}

/// Refuses indexes that aren't all plain.
fn plain_indexes(alloc: Global, items: &[Bson]) -> Result<(), Fault>
    ensures { IfOk result (λ _. AllByRecursion IsPlainIndex (map view items.now)) }
{
    for item in items {
        plain_index(alloc, item)?;
    }
    Ok(())
}

/// The same of a value that is an array. `BadValue` if it is none.
fn plain_indexes_of(alloc: Global, value: &Bson) -> Result<(), Fault>
    ensures { IfOk result (λ _. ArePlainIndexes (Some (view value.now))) }
{
    match value {
        Bson::Array(items) => plain_indexes(alloc, items.as_slice()),
        _ => Err(refuse(alloc, Code::BadValue, "indexes")),
    }
}

/// The same of the indexes of a command.
pub(crate) fn plain_indexes_in(alloc: Global, command: &Document) -> Result<(), Fault>
    ensures { IfOk result (λ _. ArePlainIndexes (look_up (codes "indexes") (content command.now))) }
{
    match value_in(command, "indexes") {
        Some(value) => plain_indexes_of(alloc, value),
        None => Err(refuse(alloc, Code::BadValue, "indexes")),
    }
}
