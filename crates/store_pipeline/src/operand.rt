//! What is taken of documents.

ghost use Rattle.std.specs.Prelude.{◌≡◌, IfOk, OnOk, option_map};
ghost use Rattle.bson_base.specs.Value.{Value, array, document, double, scalar};
ghost use Rattle.bson_model.specs.View.{items_of, view};
ghost use Rattle.bson_raw.specs.View.{bytes_of, parts_of};
ghost use Rattle.store_pipeline.specs.Counted.{Adds};
ghost use Rattle.store_pipeline.specs.Distinct.{each_of};
ghost use Rattle.store_question.specs.Filters.{path_of};
ghost use Rattle.store_pipeline.specs.Operands.{inside as is_inside, key_in as key_of_members, led_to as leads, taken as is_taken, under as under_key};
ghost use Rattle.store_pipeline.specs.Taken.{IsTree, IsTreeIfAny, through as goes_through};
ghost use Rattle.store_question.specs.Reads.{FindsMember, Found, OfElement, OfMembers};
ghost use Rattle.store_pipeline.specs.Bodies.{OfBody};

use crate::stage::Operand;
use bson_base::DoubleBits;
use bson_model::Bson;
use bson_raw::{RawBsonRef, RawDocument, RawElement};
use std::alloc::{AllocError, Global};
use store_question::{items_in, look_in, value_of};

/// What an operand takes of the document of a body, if anything is there. The error is a refused growth, or a fault in
/// the bytes.
pub(crate) fn taken(
    alloc: Global,
    operand: &Operand,
    body: &[u8],
) -> Result<Option<Bson>, AllocError>
    ensures { OfBody body.now (λ d. IfOk result (λ found. IsTreeIfAny found (is_taken operand.now d))) }
{
    match operand {
        Operand::Path(path) => taken_at(alloc, path.as_slice(), body),
        Operand::Null => Ok(Some(Bson::Null)),
        Operand::Boolean(flag) => Ok(Some(Bson::Boolean(*flag))),
        Operand::Int32(number) => Ok(Some(Bson::Int32(*number))),
        Operand::Int64(number) => Ok(Some(Bson::Int64(*number))),
        Operand::Double(number) => Ok(Some(double_of(number.to_bits()))),
        Operand::String(text) => Ok(Some(Bson::String(String::from_str(alloc, text.as_str())?))),
    }
}

/// The double of a pattern as a value.
fn double_of(pattern: u64) -> Bson
    ensures { IsTree result (scalar (double pattern)) }
{
    Bson::Double(DoubleBits::from_bits(pattern))
}

/// The key of the document of a body; what is absent is null. The error is a refused growth, or a fault in the bytes.
pub(crate) fn key_in(alloc: Global, operand: &Operand, body: &[u8]) -> Result<Bson, AllocError>
    ensures { OfBody body.now (λ d. IfOk result (λ key. IsTree key (key_of_members operand.now d))) }
{
    match taken(alloc, operand, body)? {
        Some(key) => Ok(key),
        None => Ok(Bson::Null),
    }
}

/// What a path leads to in the document of a body. Errors as of `taken`.
fn taken_at(alloc: Global, path: &[String], body: &[u8]) -> Result<Option<Bson>, AllocError>
    ensures { OfBody body.now (λ d. IfOk result (λ found. option_map view found ≡ leads (path_of path.now) (document d))) }
{
    let Ok(document) = RawDocument::from_bytes(body) else {
        return Err(AllocError);
    };
    led_to(alloc, RawBsonRef::Document(document), path)
}

/// What a path leads to from a value.
#[cycle(leading)]
fn led_to(alloc: Global, value: RawBsonRef<'_>, path: &[String]) -> Result<Option<Bson>, AllocError>
    ensures { (v : Value) → Found value.entry v
        → IfOk result (λ found. option_map view found ≡ leads (path_of path.now) v) }
{
    let Some((key, rest)) = path.split_first() else {
        return Ok(Some(tree_of(alloc, value)?));
    };
    match items_in(Some(value)) {
        Some(items) => Ok(Some(in_items(alloc, items, key.as_str(), rest)?)),
        None => under(alloc, value, key.as_str(), rest),
    }
}

/// What a path leads to from what is under a key of a value, if that is a document.
#[cycle(leading)]
fn under(
    alloc: Global,
    value: RawBsonRef<'_>,
    key: &str,
    rest: &[String],
) -> Result<Option<Bson>, AllocError>
    ensures { (v : Value) → Found value.entry v
        → IfOk result (λ found. option_map view found ≡ under_key key.now (leads (path_of rest.now)) v) }
{
    match inside(value, key) {
        Some(found) => led_to(alloc, found, rest),
        None => Ok(None),
    }
}

/// The array of what the documents among the items of an array lead to.
#[cycle(leading)]
fn in_items(
    alloc: Global,
    items: RawDocument<'_>,
    key: &str,
    rest: &[String],
) -> Result<Bson, AllocError>
    ensures { OfMembers (bytes_of items.entry) (λ ms. IfOk result (λ found. view found
        ≡ array (items_of (each_of (goes_through key.now (leads (path_of rest.now))) ms)))) }
{
    let mut found = Vec::new(alloc);
    for item in items.iter_elements() {
        let Ok(element) = item else {
            return Err(AllocError);
        };
        through(alloc, &element, key, rest, &mut found)?;
    }
    Ok(Bson::Array(found))
}

/// Adds what an item leads to.
#[cycle(leading)]
fn through(
    alloc: Global,
    element: &RawElement<'_>,
    key: &str,
    rest: &[String],
    found: &mut Vec<Bson>,
) -> Result<(), AllocError>
    ensures { OfElement (parts_of element.now) (λ k v. OnOk result (Adds found.old.items found.new.items
        (goes_through key.now (leads (path_of rest.now)) k v))) }
{
    let Some(value) = value_of(element) else {
        return Ok(());
    };
    if let Some(tree) = under(alloc, value, key, rest)? {
        found.push(tree)?;
    }
    Ok(())
}

/// What is under a key of a value, if that is a document.
fn inside<'a>(value: RawBsonRef<'a>, key: &str) -> Option<RawBsonRef<'a>>
    ensures { (v : Value) → Found value.entry v → FindsMember result (is_inside key.now v) }
{
    if value.as_document().is_some() {
        look_in(value, key)
    } else {
        None
    }
}

/// The tree of a value.
fn tree_of(alloc: Global, value: RawBsonRef<'_>) -> Result<Bson, AllocError>
    ensures { (v : Value) → Found value.entry v → IfOk result (λ tree. view tree ≡ v) }
{
    let Ok(tree) = value.to_bson(alloc) else {
        return Err(AllocError);
    };
    Ok(tree)
}
