//! From bytes to trees. Elements are read from the front, once each, and the reader goes into an array, a document or a
//! scope when it meets one; so the fault that is reported is the first in the order of the bytes. The stack is memory
//! too: if more than `STACK_LEVELS` are nested in each other, a call returns out of memory before it goes deeper.

ghost use Rattle.std.specs.Prelude.{◌≡◌, ◌≢◌, ℕ, List, ◌<◌, ◌↔◌, ◌∷◌, ◌+◌, [], drop, length, string_bytes, IfOk, IsTrue, MatchResult, OnOk};
ghost use Rattle.bson_base.specs.Options.{sorted_text};
ghost use Rattle.bson_base.specs.Value.{Value};
ghost use Rattle.bson_frame.specs.Frame.{IsFirstFrame, IsStructuralFault};
ghost use Rattle.bson_frame.specs.Payload.{IsPayload};
ghost use Rattle.bson_frame.specs.View.{element_of, fault_key};
ghost use Rattle.bson_model.specs.Extend.{put_all};
ghost use Rattle.bson_model.specs.Keyed.{put};
ghost use Rattle.bson_model.specs.View.{pairs_of, view};
ghost use Rattle.bson_raw.specs.Convert.{ConvertsMembers, ConvertsItems, ConvertsElement, ConvertsValue, IsScopedOf, HasFault, TellsFault};
ghost use Rattle.bson_raw.specs.Raw.{ref_value};
ghost use Rattle.bson_raw.specs.View.{bytes_of};

use crate::bson_ref::{RawBsonRef, RawDbPointerRef, RawJavaScriptCodeWithScopeRef, RawRegexRef};
use crate::decode::value_of;
use crate::document::RawDocument;
use crate::element::fault_under;
use bson_frame::{Error, Frame, frame, is_end};
use bson_model::{Array, Bson, DbPointer, Document, JavaScriptCodeWithScope, Regex, levels_inside};
use std::alloc::{AllocError, Global};

/// The next element, or the structural fault.
fn next_frame(bytes: &[u8]) -> Result<Frame<'_>, Error>
    ensures { MatchResult result (λ f. IsFirstFrame bytes.now (element_of f) f.rest.now)
        (λ e. IsStructuralFault bytes.now e.kind × (fault_key e ≡ None)) }
{
    frame(bytes).map_err(|kind| Error::new(None, kind))
}

/// The bytes from the first element on.
pub(crate) fn elements(document: RawDocument<'_>) -> &[u8]
    ensures value { result.now ≡ drop 4 (bytes_of document.entry) }
    ensures shorter { length result.now + 4 ≡ length (bytes_of document.entry) }
{
    let (_, elements) = document.as_bytes().split_at(4);
    elements
}

// How many pairs are put into a document as they come.
const FIRST_PAIRS: usize = 64;

/// Puts a value under a key. A key that is there keeps its place, and its old value is dropped.
fn put_pair(
    alloc: Global,
    document: &mut Document,
    key: &str,
    value: Bson,
) -> Result<(), AllocError>
    ensures { OnOk result (pairs_of document.new ≡ put key.now (view value) (pairs_of document.old)) }
{
    let key = String::from_str(alloc, key)?;
    document.put(key, value)
}

/// Puts a pair last, to be put into a document with the others.
fn keep_pair(
    alloc: Global,
    pairs: &mut Vec<(String, Bson)>,
    key: &str,
    value: Bson,
) -> Result<(), AllocError>
    ensures { OnOk result ((ps : List (List ℕ × Value)) → put_all pairs.new.items ps ≡ put key.now (view value) (put_all pairs.old.items ps)) }
{
    let key = String::from_str(alloc, key)?;
    pairs.push((key, value))?;
    Ok(())
}

/// Puts a pair into the document, or keeps it for the end if the document has many already.
fn take_pair(
    alloc: Global,
    document: &mut Document,
    more: &mut Vec<(String, Bson)>,
    key: &str,
    value: Bson,
) -> Result<(), AllocError>
    requires { length (pairs_of document.old) < 64 → more.old.items ≡ [] }
    ensures taken { OnOk result (put_all more.new.items (pairs_of document.new) ≡ put key.now (view value) (put_all more.old.items (pairs_of document.old))) }
    ensures kept { OnOk result (length (pairs_of document.new) < 64 → more.new.items ≡ []) }
{
    if document.len() < FIRST_PAIRS {
        put_pair(alloc, document, key, value)
    } else {
        keep_pair(alloc, more, key, value)
    }
}

/// The document of these elements, among which `levels` levels may be. Many pairs are put in together at the end, so
/// that they take no longer than their sorting, whatever the order of their keys.
#[cycle(convert)]
pub(crate) fn document_of(alloc: Global, elements: &[u8], levels: u32) -> Result<Document, Error>
    ensures { ConvertsMembers elements.now result }
{
    bson_frame::laws::payload_by_itself();
    let mut document = Document::new(alloc);
    let mut more = Vec::new(alloc);
    let mut rest = elements;
    while !is_end(rest) {
        let frame = next_frame(rest)?;
        let value = element_tree(alloc, &frame, levels)?;
        take_pair(alloc, &mut document, &mut more, frame.key, value)?;
        rest = frame.rest;
    }
    document.extend(more)?;
    Ok(document)
}

/// The array of these elements, whatever their keys, among which `levels` levels may be.
#[cycle(convert)]
pub(crate) fn array_of(alloc: Global, elements: &[u8], levels: u32) -> Result<Array, Error>
    ensures { ConvertsItems elements.now result }
{
    bson_frame::laws::payload_by_itself();
    let mut items = Vec::new(alloc);
    let mut rest = elements;
    while !is_end(rest) {
        let frame = next_frame(rest)?;
        let value = element_tree(alloc, &frame, levels)?;
        items.push(value)?;
        rest = frame.rest;
    }
    Ok(items)
}

/// The tree of an element's value, of at most `levels` levels.
#[cycle(convert)]
fn element_tree(alloc: Global, frame: &Frame<'_>, levels: u32) -> Result<Bson, Error>
    requires { IsPayload frame.now.tag frame.now.payload.now }
    ensures { ConvertsElement (element_of frame.now) result }
{
    match value_of(frame.tag, frame.payload) {
        Ok(value) => tree_of(alloc, value, levels),
        Err(kind) => Err(fault_under(alloc, frame.key, kind)),
    }
}

/// The tree of a value that was read, of at most `levels` levels.
#[cycle(convert)]
pub(crate) fn tree_of(alloc: Global, value: RawBsonRef<'_>, levels: u32) -> Result<Bson, Error>
    ensures { ConvertsValue (ref_value value.entry) result }
{
    match value {
        RawBsonRef::Double(x) => Ok(Bson::Double(x)),
        RawBsonRef::String(text) => Ok(Bson::String(String::from_str(alloc, text)?)),
        RawBsonRef::Array(x) => {
            let inside = levels_inside(levels)?;
            Ok(Bson::Array(array_of(alloc, elements(x.document), inside)?))
        }
        RawBsonRef::Document(x) => {
            let inside = levels_inside(levels)?;
            Ok(Bson::Document(document_of(alloc, elements(x), inside)?))
        }
        RawBsonRef::Boolean(x) => Ok(Bson::Boolean(x)),
        RawBsonRef::Null => Ok(Bson::Null),
        RawBsonRef::RegularExpression(x) => Ok(Bson::RegularExpression(regex_of(alloc, x)?)),
        RawBsonRef::JavaScriptCode(text) => {
            Ok(Bson::JavaScriptCode(String::from_str(alloc, text)?))
        }
        RawBsonRef::JavaScriptCodeWithScope(x) => {
            let inside = levels_inside(levels)?;
            Ok(Bson::JavaScriptCodeWithScope(scoped_of(alloc, x, inside)?))
        }
        RawBsonRef::Int32(x) => Ok(Bson::Int32(x)),
        RawBsonRef::Int64(x) => Ok(Bson::Int64(x)),
        RawBsonRef::Timestamp(x) => Ok(Bson::Timestamp(x)),
        RawBsonRef::Binary(x) => Ok(Bson::Binary(x.to_binary(alloc)?)),
        RawBsonRef::ObjectId(x) => Ok(Bson::ObjectId(x)),
        RawBsonRef::DateTime(x) => Ok(Bson::DateTime(x)),
        RawBsonRef::Symbol(text) => Ok(Bson::Symbol(String::from_str(alloc, text)?)),
        RawBsonRef::Decimal128(x) => Ok(Bson::Decimal128(x)),
        RawBsonRef::Undefined => Ok(Bson::Undefined),
        RawBsonRef::MaxKey => Ok(Bson::MaxKey),
        RawBsonRef::MinKey => Ok(Bson::MinKey),
        RawBsonRef::DbPointer(x) => Ok(Bson::DbPointer(pointer_of(alloc, x)?)),
    }
}

/// Code with the tree of its scope, among whose elements `levels` levels may be.
#[cycle(convert)]
fn scoped_of(
    alloc: Global,
    value: RawJavaScriptCodeWithScopeRef<'_>,
    levels: u32,
) -> Result<JavaScriptCodeWithScope, Error>
    ensures { MatchResult result (IsScopedOf value.entry) (TellsFault (HasFault (drop 4 (bytes_of value.entry.scope)))) }
{
    let scope = document_of(alloc, elements(value.scope), levels)?;
    let code = String::from_str(alloc, value.code)?;
    Ok(JavaScriptCodeWithScope { code, scope })
}

/// A copy, with the options in the order of their characters.
fn regex_of(alloc: Global, value: RawRegexRef<'_>) -> Result<Regex, AllocError>
    ensures pattern { IfOk result (λ r. string_bytes r.pattern ≡ value.entry.pattern.now) }
    ensures options { IfOk result (λ r. string_bytes r.options ≡ sorted_text value.entry.options.now) }
{
    let pattern = String::from_str(alloc, value.pattern)?;
    let options = String::from_str(alloc, value.options)?;
    Regex::new(alloc, pattern, options)
}

/// A copy with memory of its own for the namespace. The error is a refused growth.
fn pointer_of(alloc: Global, value: RawDbPointerRef<'_>) -> Result<DbPointer, AllocError>
    ensures namespace { IfOk result (λ p. string_bytes p.namespace ≡ value.entry.namespace.now) }
    ensures id { IfOk result (λ p. p.id ≡ value.entry.id) }
{
    let namespace = String::from_str(alloc, value.namespace)?;
    Ok(DbPointer::new(namespace, value.id))
}
