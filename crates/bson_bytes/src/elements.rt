//! Elements, one after the other, down to the final 00.

ghost use Rattle.std.specs.Prelude.{◌≡◌, decimal, false, IsTrue, IfSome};
ghost use Rattle.bson_base.specs.Options.{sorted_text};
ghost use Rattle.bson_frame.specs.Payload.{IsFaultless, IsPayload};
ghost use Rattle.bson_frame.specs.View.{element_of};
ghost use Rattle.bson_bytes.specs.Written.{AreItemsSpelled, AreItemsWritten, AreSpelled, AreWritten, HasOneForm, HasOrderedOptions, IsFirstUnder, IsNewBinary, IsSpelled, IsWritten};

use crate::keys::{KeptKeys, MetKeys};
use bson_base::ElementType;
use bson_frame::{Frame, is_end, name_at, payload_fault, sized_frame};
use itoa::Buffer;

/// The subtype of old binaries, which have their length twice (bsonspec.org 1.1, "subtype").
const OLD: u8 = 2;

/// The first element with a key.
pub(crate) fn first_under<'a>(key: &str, elements: &'a [u8]) -> Option<Frame<'a>>
    ensures { IfSome result (λ f. IsFirstUnder key.now elements.now (element_of f) × IsPayload f.tag f.payload.now) }
{
    let mut rest = elements;
    for _ in 0..elements.len() {
        let frame = sized_frame(rest)?;
        if frame.key == key {
            return Some(frame);
        }
        rest = frame.rest;
    }
    None
}

/// Whether a key is a place in decimal.
fn is_place(key: &str, place: usize) -> bool
    ensures { IsTrue result → key.now ≡ decimal place }
{
    let mut buffer = Buffer::new();
    buffer.format(place) == key
}

/// Whether a scalar of the kind has one payload.
fn has_one_form(tag: ElementType) -> bool
    ensures { IsTrue result → HasOneForm tag }
{
    !matches!(
        tag,
        ElementType::EmbeddedDocument
            | ElementType::Array
            | ElementType::Binary
            | ElementType::RegularExpression
            | ElementType::DbPointer
            | ElementType::JavaScriptCodeWithScope
    )
}

/// Whether a binary has its length only once, in front of it.
fn is_new_binary(payload: &[u8]) -> bool
    ensures { IsTrue result → IsNewBinary payload.now }
{
    payload.len() > 4 && payload[4] != OLD
}

/// Whether options are ASCII, and their characters in order.
fn are_in_order(options: &str) -> bool
    ensures { IsTrue result → sorted_text options.now ≡ options.now }
{
    options.is_ascii() && options.as_bytes().is_sorted()
}

/// Whether the options of a regular expression are in order.
fn has_ordered_options(payload: &[u8]) -> bool
    ensures { IsTrue result → HasOrderedOptions payload.now }
{
    let Ok((_, rest)) = name_at(payload) else {
        return false;
    };
    let Ok((options, _)) = name_at(rest) else {
        return false;
    };
    are_in_order(options)
}

/// Whether a payload has a fault. Documents and arrays inside aren't looked into.
fn has_fault(frame: &Frame<'_>) -> bool
    requires { IsPayload frame.now.tag frame.now.payload.now }
    ensures { result ≡ false → IsFaultless frame.now.tag frame.now.payload.now }
{
    payload_fault(frame).is_some()
}

/// True: the payload is as it is written, of a kind with nothing inside.
pub(crate) fn is_scalar_written(tag: ElementType, payload: &[u8]) -> bool
    requires { IsPayload tag payload.now }
    ensures written { IsTrue result → IsWritten tag payload.now }
    ensures spelled { IsTrue result → IsFaultless tag payload.now → IsSpelled tag payload.now 0 }
{
    match tag {
        ElementType::Binary => is_new_binary(payload),
        ElementType::RegularExpression => has_ordered_options(payload),
        _ => has_one_form(tag),
    }
}

/// True: the elements of a document are as they are written, have no fault, and at most `inner` levels among them.
#[cycle(written)]
pub(crate) fn are_written<'a>(elements: &'a [u8], inner: usize, kept: &mut KeptKeys<'a>) -> bool
    ensures { IsTrue result → AreWritten elements.now × AreSpelled elements.now inner × (kept.new.items ≡ kept.old.items) }
{
    let mut keys = MetKeys::new(kept);
    let mut rest = elements;
    while !is_end(rest) {
        let Some(frame) = sized_frame(rest) else {
            return false;
        };
        if !is_written(&frame, inner, kept) || !keys.meet(kept, frame.key) {
            return false;
        }
        rest = frame.rest;
    }
    keys.end(kept);
    true
}

/// True: the elements of an array are as they are written, and have no fault.
#[cycle(written)]
fn are_items_written<'a>(elements: &'a [u8], inner: usize, kept: &mut KeptKeys<'a>) -> bool
    ensures { IsTrue result → AreItemsWritten 0 elements.now × AreItemsSpelled elements.now inner × (kept.new.items ≡ kept.old.items) }
{
    let mut rest = elements;
    for place in 0..elements.len() {
        if is_end(rest) {
            return true;
        }
        let Some(frame) = sized_frame(rest) else {
            return false;
        };
        if !is_written(&frame, inner, kept) || !is_place(frame.key, place) {
            return false;
        }
        rest = frame.rest;
    }
    false
}

/// True: the payload of a frame is as it is written, and has no fault.
#[cycle(written)]
pub(crate) fn is_written<'a>(frame: &Frame<'a>, inner: usize, kept: &mut KeptKeys<'a>) -> bool
    requires { IsPayload frame.now.tag frame.now.payload.now }
    ensures { IsTrue result → IsWritten frame.now.tag frame.now.payload.now × IsSpelled frame.now.tag frame.now.payload.now inner
        × (kept.new.items ≡ kept.old.items) }
{
    if has_fault(frame) {
        return false;
    }
    match frame.tag {
        ElementType::EmbeddedDocument | ElementType::Array => {
            holds_written(frame.tag, frame.payload, inner, kept)
        }
        _ => is_scalar_written(frame.tag, frame.payload),
    }
}

/// True: the document or array of a payload is as it is written, and has no fault.
#[cycle(written)]
fn holds_written<'a>(
    tag: ElementType,
    payload: &'a [u8],
    inner: usize,
    kept: &mut KeptKeys<'a>,
) -> bool
    requires { IsPayload tag payload.now }
    ensures { IsTrue result → IsWritten tag payload.now × IsSpelled tag payload.now inner × (kept.new.items ≡ kept.old.items) }
{
    let [_, _, _, _, elements @ ..] = payload else {
        return false;
    };
    if inner == 0 {
        return false;
    }
    match tag {
        ElementType::EmbeddedDocument => are_written(elements, inner - 1, kept),
        ElementType::Array => are_items_written(elements, inner - 1, kept),
        _ => false,
    }
}
