//! What is left of a value, written anew from its bytes.

ghost use Rattle.std.specs.Prelude.{◌≡◌, ◌≤◌, ◌<◌, ◌+◌, ◌^◌, ◌++◌, ◌∷◌, IfOk, IfSome, OnOk, length, ℕ, List};
ghost use Rattle.bson_base.specs.Tags.{tag_byte};
ghost use Rattle.bson_base.specs.Value.{Items, Members, Value, levels as levels_of, members_levels};
ghost use Rattle.bson_bytes.specs.Encode.{cstring_of, frame_of, items_bytes, members_bytes};
ghost use Rattle.bson_frame.specs.View.{element_of};
ghost use Rattle.store_pipeline.specs.Fields.{fields, inside, items_inside, named, rests as rests_below, unless};
ghost use Rattle.store_pipeline.specs.Views.{Appends, elements_left, Grows, HasElements, HasInside, Lends, next_place, paths_lent};
ghost use Rattle.store_question.specs.Views.{ComeBack, ComesBack, IsWrittenFor};
ghost use Rattle.store_model.specs.Filter.{under_places};

use crate::sorted::paths::{names_it, rests};
use bson_base::ElementType;
use bson_bytes::put::put_length;
use bson_frame::{Frame, LENGTH_LIMIT, frame};
use itoa::Buffer;
use std::alloc::{AllocError, Global};

/// Appends what is left of a document or of an array, made of the elements in it, where up to `levels` levels may lie
/// inside. The error is a refused growth.
#[cycle(copying)]
pub(crate) fn copy_framed(
    alloc: Global,
    tag: ElementType,
    elements: &[u8],
    paths: &[&[String]],
    kept: bool,
    levels: usize,
    out: &mut Vec<u8>,
) -> Result<(), AllocError>
    requires { length elements.now + 5 < 2 ^ 31 }
    ensures told { (v : Value) → HasElements tag elements.now v levels
        → OnOk result (out.new.items ≡ out.old.items ++ frame_of (elements_left kept (paths_lent paths.now) v)) }
    ensures few { OnOk result (Grows out.old.items out.new.items (length elements.now + 5)) }
{
    let start = out.len();
    out.extend_from_slice(&[0; 4])?;
    copy_elements(alloc, tag, elements, paths, kept, levels, out)?;
    out.push(0)?;
    let Ok(()) = put_length(out, start) else {
        unreachable!()
    };
    Ok(())
}

/// Appends what is left of these elements, without the length in front and the 00 behind.
#[cycle(copying)]
fn copy_elements(
    alloc: Global,
    tag: ElementType,
    elements: &[u8],
    paths: &[&[String]],
    kept: bool,
    levels: usize,
    out: &mut Vec<u8>,
) -> Result<(), AllocError>
    requires { length elements.now + 5 < 2 ^ 31 }
    ensures told { (v : Value) → HasElements tag elements.now v levels
        → OnOk result (out.new.items ≡ out.old.items ++ elements_left kept (paths_lent paths.now) v) }
    ensures few { OnOk result (Grows out.old.items out.new.items (length elements.now)) }
{
    if tag == ElementType::Array {
        copy_items(alloc, elements, paths, kept, levels, out)
    } else {
        copy_fields(alloc, elements, paths, kept, levels, out)
    }
}

/// Appends what is left of the elements of a document.
#[cycle(copying)]
fn copy_fields(
    alloc: Global,
    elements: &[u8],
    paths: &[&[String]],
    kept: bool,
    levels: usize,
    out: &mut Vec<u8>,
) -> Result<(), AllocError>
    ensures told { (ms : Members) → elements.now ≡ members_bytes ms → ComeBack ms → members_levels ms ≤ levels
        → OnOk result (out.new.items ≡ out.old.items ++ members_bytes (fields kept (paths_lent paths.now) ms)) }
    ensures few { OnOk result (Grows out.old.items out.new.items (length elements.now)) }
{
    let mut left = elements;
    while let Ok(first) = frame(left) {
        copy_field(alloc, first, paths, kept, levels, out)?;
        left = first.rest;
    }
    Ok(())
}

/// Appends what is left of the elements of an array, under the keys of their places.
#[cycle(copying)]
fn copy_items(
    alloc: Global,
    elements: &[u8],
    paths: &[&[String]],
    kept: bool,
    levels: usize,
    out: &mut Vec<u8>,
) -> Result<(), AllocError>
    requires { length elements.now + 5 < 2 ^ 31 }
    ensures told { (vs : Items) → elements.now ≡ members_bytes (under_places 0 vs) → ComeBack (under_places 0 vs)
        → members_levels (under_places 0 vs) ≤ levels
        → OnOk result (out.new.items ≡ out.old.items ++ items_bytes 0 (items_inside kept (paths_lent paths.now) vs)) }
    ensures few { OnOk result (Grows out.old.items out.new.items (length elements.now)) }
{
    let mut left = elements;
    let mut place = 0;
    while let Ok(first) = frame(left) {
        let mut digits = Buffer::new();
        let key = not_longer(digits.format(place), first.key);
        let stays = copy_inside(alloc, key, first, paths, kept, levels, out)?;
        place = place_after(place, stays);
        left = first.rest;
    }
    Ok(())
}

/// Appends what is left of a field, if anything is, and says whether.
#[cycle(copying)]
fn copy_field(
    alloc: Global,
    field: Frame<'_>,
    paths: &[&[String]],
    kept: bool,
    levels: usize,
    out: &mut Vec<u8>,
) -> Result<bool, AllocError>
    ensures told { (v : Value) → IsWrittenFor (element_of field.entry) v → ComesBack v → levels_of v ≤ levels
        → IfOk result (λ b. Appends field.entry.key.now (named kept (rests_below field.entry.key.now (paths_lent paths.now)) v
        (inside kept (rests_below field.entry.key.now (paths_lent paths.now)) v)) b out.old.items out.new.items) }
    ensures few { OnOk result (Grows out.old.items out.new.items (length field.entry.key.now + length field.entry.payload.now + 2)) }
{
    let rests = rests(alloc, field.key, paths)?;
    if rests.is_empty() {
        return copy_unless(kept, field.key, field, out);
    }
    if names_it(&rests) {
        return copy_unless(!kept, field.key, field, out);
    }
    copy_inside(alloc, field.key, field, &rests, kept, levels, out)
}

/// Appends what is left inside of a value, under this key, if the value stays, and says whether.
#[cycle(copying)]
fn copy_inside(
    alloc: Global,
    key: &str,
    value: Frame<'_>,
    paths: &[&[String]],
    kept: bool,
    levels: usize,
    out: &mut Vec<u8>,
) -> Result<bool, AllocError>
    ensures told { (v : Value) → IsWrittenFor (element_of value.entry) v → ComesBack v → levels_of v ≤ levels
        → IfOk result (λ b. Appends key.now (inside kept (paths_lent paths.now) v) b out.old.items out.new.items) }
    ensures few { OnOk result (Grows out.old.items out.new.items (length key.now + length value.entry.payload.now + 2)) }
{
    if levels == 0 {
        return copy_unless(kept, key, value, out);
    }
    let Some(elements) = elements_in(value) else {
        return copy_unless(kept, key, value, out);
    };
    copy_front(value.tag, key, out)?;
    copy_framed(alloc, value.tag, elements, paths, kept, levels - 1, out)?;
    Ok(true)
}

/// Appends the whole of a value, unless it goes, and says whether.
fn copy_unless(
    goes: bool,
    key: &str,
    value: Frame<'_>,
    out: &mut Vec<u8>,
) -> Result<bool, AllocError>
    ensures told { (v : Value) → IsWrittenFor (element_of value.entry) v
        → IfOk result (λ b. Appends key.now (unless goes v) b out.old.items out.new.items) }
    ensures few { OnOk result (Grows out.old.items out.new.items (length key.now + length value.entry.payload.now + 2)) }
{
    if goes {
        return Ok(false);
    }
    copy_front(value.tag, key, out)?;
    out.extend_from_slice(value.payload)?;
    Ok(true)
}

/// Appends a tag, a key and its 00.
#[tactic(auto, unfolding(bson_bytes::specs::Encode::cstring_of))]
fn copy_front(tag: ElementType, key: &str, out: &mut Vec<u8>) -> Result<(), AllocError>
    ensures { OnOk result (out.new.items ≡ out.old.items ++ tag_byte tag ∷ cstring_of key.now) }
{
    out.push(tag.tag())?;
    out.extend_from_slice(key.as_bytes())?;
    out.push(0)?;
    Ok(())
}

/// The bytes of the elements in a document or in an array.
fn elements_in(value: Frame<'_>) -> Option<&[u8]>
    ensures told { (v : Value) → IsWrittenFor (element_of value.entry) v → ComesBack v → HasInside result v }
    ensures few { IfSome result (λ elements. (length elements.now + 5 ≤ length value.entry.payload.now) × (length elements.now + 5 < 2 ^ 31)) }
{
    match value.tag {
        ElementType::EmbeddedDocument | ElementType::Array => within(value.payload),
        _ => None,
    }
}

/// The bytes between the length of a document and its final 00.
fn within(payload: &[u8]) -> Option<&[u8]>
    ensures told { (elements : List ℕ) → payload.now ≡ frame_of elements → length elements + 5 < 2 ^ 31
        → Lends result elements }
    ensures few { IfSome result (λ elements. (length elements.now + 5 ≤ length payload.now) × (length elements.now + 5 < 2 ^ 31)) }
{
    if payload.len() < 5 || payload.len() > LENGTH_LIMIT {
        return None;
    }
    Some(&payload[4..payload.len() - 1])
}

/// The key of a place, unless it is longer than the key that an item has, which it is in no written form.
fn not_longer<'a>(key: &'a str, own: &'a str) -> &'a str
    ensures few { length result.now ≤ length own.now }
    ensures same { length key.now ≤ length own.now → result.now ≡ key.now }
{
    if key.len() <= own.len() { key } else { own }
}

/// The place of the next item that stays.
fn place_after(place: usize, stays: bool) -> usize
    requires { place + 1 < 2 ^ 64 }
    ensures { result ≡ next_place place stays }
{
    if stays { place + 1 } else { place }
}
