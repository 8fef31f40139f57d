//! How many documents are told at once, and the numbers of finds.

ghost use Rattle.std.specs.Prelude.{◌≡◌, IfOk, Some, codes, map, pos};
ghost use Rattle.std.specs.List.{AllZip};
ghost use Rattle.bson_base.specs.Value.{look_up};
ghost use Rattle.bson_model.specs.View.{content, view};
ghost use Rattle.bson_model.specs.declared.bson.Bson.{Bson as AnyValue};
ghost use Rattle.fallowtime_statements.specs.Batches.{AreNumbers, IsFurther, IsSize, IsSizeIn};
ghost use Rattle.fallowtime_statements.specs.Lines.{IsWhole};

use crate::{Code, Fault, most_of, refuse, value_in, whole_in};
use bson_model::{Bson, Document};
use std::alloc::Global;

/// The whole number that a value is. `BadValue` if it is none.
fn whole_of(alloc: Global, value: &Bson, about: &str) -> Result<i64, Fault>
    ensures { IfOk result (λ z. IsWhole (Some (view value.now)) z) }
{
    match value {
        Bson::Int32(number) => Ok(*number as i64),
        Bson::Int64(number) => Ok(*number),
        _ => Err(refuse(alloc, Code::BadValue, about)),
    }
}

/// The number from 0 that a value is. `BadValue` if it is none.
fn number_of(alloc: Global, value: &Bson) -> Result<u64, Fault>
    ensures { IfOk result (λ n. IsWhole (Some (view value.now)) (pos n)) }
{
    let number = whole_of(alloc, value, "batchSize")?;
    match u64::try_from(number) {
        Ok(number) => Ok(number),
        Err(_) => Err(refuse(alloc, Code::BadValue, "batchSize")),
    }
}

/// How many documents are in a first batch at most.
pub(crate) fn size_in(alloc: Global, document: &Document) -> Result<u64, Fault>
    ensures { IfOk result (λ n. IsSize (look_up (codes "batchSize") (content document.now)) n) }
{
    match value_in(document, "batchSize") {
        None => Ok(101),
        Some(value) => number_of(alloc, value),
    }
}

/// The same of a value that is a document.
fn size_of_value(alloc: Global, value: &Bson) -> Result<u64, Fault>
    ensures { IfOk result (λ n. IsSizeIn (Some (view value.now)) n) }
{
    match value {
        Bson::Document(document) => size_in(alloc, document),
        _ => Err(refuse(alloc, Code::BadValue, "cursor")),
    }
}

/// The same of the `cursor` of a command.
pub(crate) fn size_of_cursor(alloc: Global, command: &Document) -> Result<u64, Fault>
    ensures { IfOk result (λ n. IsSizeIn (look_up (codes "cursor") (content command.now)) n) }
{
    match value_in(command, "cursor") {
        None => Ok(101),
        Some(value) => size_of_value(alloc, value),
    }
}

/// How many documents are in a further batch at most.
pub(crate) fn further_in(alloc: Global, command: &Document) -> Result<u64, Fault>
    ensures { IfOk result (λ n. IsFurther (look_up (codes "batchSize") (content command.now)) n) }
{
    let size = whole_in(alloc, command, "batchSize")?;
    Ok(most_of(size))
}

/// The number that each value is.
fn numbers_of(alloc: Global, items: &[Bson]) -> Result<Vec<i64>, Fault>
    ensures { IfOk result (λ ids. AllZip (λ (v : AnyValue) z. IsWhole (Some (view v)) z) items.now ids.items) }
{
    let mut ids = Vec::new(alloc);
    for item in items {
        let id = whole_of(alloc, item, "cursors")?;
        ids.push(id)?;
    }
    Ok(ids)
}

/// The same of a value that is an array. `BadValue` if it is none.
fn numbers_in_value(alloc: Global, value: &Bson) -> Result<Vec<i64>, Fault>
    ensures { IfOk result (λ ids. AreNumbers (Some (view value.now)) ids.items) }
{
    match value {
        Bson::Array(items) => numbers_of(alloc, items.as_slice()),
        _ => Err(refuse(alloc, Code::BadValue, "cursors")),
    }
}

/// The numbers under `cursors`. `BadValue` if they aren't an array of whole numbers.
pub(crate) fn numbers_in(alloc: Global, command: &Document) -> Result<Vec<i64>, Fault>
    ensures { IfOk result (λ ids. AreNumbers (look_up (codes "cursors") (content command.now)) ids.items) }
{
    match value_in(command, "cursors") {
        Some(value) => numbers_in_value(alloc, value),
        None => Err(refuse(alloc, Code::BadValue, "cursors")),
    }
}
