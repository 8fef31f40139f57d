//! Look-ups along a path.

ghost use Rattle.std.specs.Prelude.{◌≡◌, ◌≤◌, ◌+◌, ◌-◌, ◌*◌, ◌/◌, length};
ghost use Rattle.bson_base.specs.Value.{document as tree, look_up as member_under, Members, Value};
ghost use Rattle.bson_bytes.specs.Encode.{encode};
ghost use Rattle.bson_raw.specs.View.{bytes_of, parts_of};
ghost use Rattle.store_question.specs.Filters.{path_of};
ghost use Rattle.store_question.specs.Views.{ComeBack, ComesBack, document_room, Encodes, Finds, FindsElement, HoldsPairs, IsWrittenFor, OfWritten, room, room_of, payload_length};
ghost use Rattle.store_model.specs.Filter.{at, frames, pairs, place_among};

use bson_raw::{RawBsonRef, RawDocument, RawElement};

/// The value at a path of keys, and how many elements were met at all steps of the path together: up to and with the
/// one that was found, or all if none has the key. A step looks in a document, or in an array for the key of a
/// position; in any other value it finds nothing and meets none. The empty path is the document itself.
///
/// Takes no memory. In bytes that are no document's written form, a step takes the first element with the key and ends
/// at the first fault.
pub fn look_up<'a>(document: RawDocument<'a>, path: &[String]) -> (Option<RawBsonRef<'a>>, u64)
    ensures found { OfWritten (bytes_of document.entry) (λ d. Finds result.0 (at (tree d) (path_of path.now))) }
    ensures met { OfWritten (bytes_of document.entry) (λ d. result.1 ≡ frames (tree d) (path_of path.now)) }
    ensures few { result.1 ≤ (length (bytes_of document.entry) - 4) / 2 }
{
    let mut here = RawBsonRef::Document(document);
    let mut met = 0;
    for key in path {
        let (found, more) = look_in(here, key.as_str());
        met += more;
        let Some(next) = found else {
            return (None, met);
        };
        here = next;
    }
    (Some(here), met)
}

/// One step of a path: the value under the key, and how many elements were met.
fn look_in<'a>(value: RawBsonRef<'a>, key: &str) -> (Option<RawBsonRef<'a>>, u64)
    ensures found { (v : Value) → Encodes value.entry v → ComesBack v → Finds result.0 (member_under key.now (pairs v)) }
    ensures met { (v : Value) → Encodes value.entry v → ComesBack v → result.1 ≡ place_among key.now (pairs v) }
    ensures few { 2 * result.1 + room_of result.0 ≤ room value.entry }
{
    let Some(document) = elements_of(value) else {
        return (None, 0);
    };
    let (found, met) = find(document, key);
    match found {
        Some(element) => (value_of(&element), met),
        None => (None, met),
    }
}

/// The document whose elements a step looks through, if the value has any.
fn elements_of(value: RawBsonRef<'_>) -> Option<RawDocument<'_>>
    ensures held { (v : Value) → Encodes value.entry v → HoldsPairs result v }
    ensures room { document_room result ≡ room value.entry }
{
    if let Some(document) = value.as_document() {
        return Some(document);
    }
    let array = value.as_array()?;
    RawDocument::from_bytes(array.as_bytes()).ok()
}

/// The first element with the key, and how many elements were met.
fn find<'a>(document: RawDocument<'a>, key: &str) -> (Option<RawElement<'a>>, u64)
    ensures found { (ms : Members) → bytes_of document.entry ≡ encode ms → ComeBack ms → FindsElement result.0 (member_under key.now ms) }
    ensures met { (ms : Members) → bytes_of document.entry ≡ encode ms → ComeBack ms → result.1 ≡ place_among key.now ms }
    ensures few { 2 * result.1 + 4 + payload_length result.0 ≤ length (bytes_of document.entry) }
{
    let mut met = 0;
    for item in document.iter_elements() {
        let Ok(element) = item else {
            return (None, met);
        };
        met += 1;
        if key == element.key() {
            return (Some(element), met);
        }
    }
    (None, met)
}

/// The value of an element, unless its payload has a fault.
fn value_of<'a>(element: &RawElement<'a>) -> Option<RawBsonRef<'a>>
    ensures written { (v : Value) → IsWrittenFor (parts_of element.now) v → ComesBack v → Finds result (Some v) }
    ensures room { room_of result ≤ length (parts_of element.now).payload }
{
    bson_raw::laws::payload_of_an_element(element);
    match element.value_or_kind() {
        Ok(value) => Some(value),
        Err(_) => None,
    }
}
