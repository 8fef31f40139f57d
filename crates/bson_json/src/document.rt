//! Documents, with what is in them, and the whole text.

ghost use Rattle.std.specs.Prelude.{◌≡◌, drop, false, string_bytes, IfErr, IfOk, IsTrue, OnOk};
ghost use Rattle.bson_base.specs.Value.{Items, Members, Value, array as array_value, document as tree, scoped_code};
ghost use Rattle.bson_bytes.specs.Spells.{SpellsItems, SpellsMembers};
ghost use Rattle.bson_frame.specs.Payload.{IsEnvelope};
ghost use Rattle.bson_meaning.specs.JsonReserved.{has_reserved};
ghost use Rattle.bson_raw.specs.Convert.{SpellsRawValue};
ghost use Rattle.bson_raw.specs.Raw.{ref_value};
ghost use Rattle.bson_raw.specs.View.{array_bytes, bytes_of};
ghost use Rattle.bson_json.specs.Added.{AddsDocument, AddsValue, HasKeys};
ghost use Rattle.bson_json.specs.Settling.{ShowsSettled, SpellsSettled, SpellsSettledItems};
ghost use Rattle.bson_json.specs.Straight.{IfUnseen, IsStraight, IsStraightAtTop};
ghost use Rattle.bson_json.specs.Styles.{HasText};
ghost use Rattle.bson_json.specs.declared.style.Style.TheVariants.{Full, Stored};

use crate::keys::{Keys, is_among};
use crate::leaves::print_settled_leaf;
use crate::met::{MetKeys, both, meet};
use crate::order::{sorted_pairs, value_in};
use crate::parts::{begin, text_of, writer_over};
use crate::style::Style;
use crate::unwritten::Unwritten;
use bson_frame::LEVEL_LIMIT;
use bson_model::extjson::Mode;
use bson_raw::{RawArray, RawBsonRef, RawDocument, RawJavaScriptCodeWithScopeRef};
use json::Writer;
use std::alloc::Global;

/// A value with all that is inside. `inner` levels may be nested, the value among them if it is a level itself. True: it
/// is known that nothing of it is to be settled.
/// `Unseen` if there are more, if the bytes have a fault, or if a document that is no scope has a reserved key.
/// `Memory` if a growth was refused.
#[cycle(print)]
fn print_value<'a>(
    alloc: Global,
    value: RawBsonRef<'a>,
    style: Style,
    inner: usize,
    out: &mut Writer,
    met: &mut MetKeys<'a>,
) -> Result<bool, Unwritten>
    ensures form { OnOk result ((v : Value) → SpellsRawValue (ref_value value.entry) v
        → AddsValue style v out.old out.new) }
    ensures settled { IfOk result (λ is_settled. IsTrue is_settled → ShowsSettled (ref_value value.entry)
        × (met.new.items ≡ met.old.items)) }
    ensures before { OnOk result (out.new.before ≡ out.old.before) }
    ensures seen { IfErr result (IfUnseen ((v : Value) → SpellsRawValue (ref_value value.entry) v
        → IsStraight style inner v → ⊥)) }
{
    match value {
        RawBsonRef::Document(document) => {
            print_members(alloc, document, Keys::Unreserved, style, inner, out, met)
        }
        RawBsonRef::Array(array) => print_items(alloc, array, style, inner, out, met),
        RawBsonRef::JavaScriptCodeWithScope(code) => {
            print_scoped(alloc, code, style, inner, out, met)
        }
        leaf => print_settled_leaf(alloc, leaf, style, out),
    }
}

/// The members in the order of the style. `inner` levels may lie inside, this one among them.
#[cycle(print)]
fn print_members<'a>(
    alloc: Global,
    document: RawDocument<'a>,
    keys: Keys,
    style: Style,
    inner: usize,
    out: &mut Writer,
    met: &mut MetKeys<'a>,
) -> Result<bool, Unwritten>
    ensures form { OnOk result ((ms : Members) → SpellsMembers (drop 4 (bytes_of document.entry)) ms
        → AddsDocument style keys ms out.old out.new) }
    ensures settled { IfOk result (λ is_settled. IsTrue is_settled → SpellsSettled (drop 4 (bytes_of document.entry))
        × (met.new.items ≡ met.old.items)) }
    ensures before { OnOk result (out.new.before ≡ out.old.before) }
    ensures seen { IfErr result (IfUnseen ((ms : Members) → SpellsMembers (drop 4 (bytes_of document.entry)) ms
        → HasKeys keys ms → IsStraightAtTop style inner ms → ⊥)) }
{
    match style {
        Style::Stored => print_sorted(alloc, document, keys, inner, out, met),
        Style::Full(mode) => print_in_turn(alloc, document, keys, mode, inner, out, met),
    }
}

/// The members with their keys ascending.
#[cycle(print)]
fn print_sorted<'a>(
    alloc: Global,
    document: RawDocument<'a>,
    keys: Keys,
    inner: usize,
    out: &mut Writer,
    met: &mut MetKeys<'a>,
) -> Result<bool, Unwritten>
    ensures form { OnOk result ((ms : Members) → SpellsMembers (drop 4 (bytes_of document.entry)) ms
        → AddsDocument Stored keys ms out.old out.new) }
    ensures settled { IfOk result (λ is_settled. IsTrue is_settled → SpellsSettled (drop 4 (bytes_of document.entry))
        × (met.new.items ≡ met.old.items)) }
    ensures before { OnOk result (out.new.before ≡ out.old.before) }
    ensures seen { IfErr result (IfUnseen ((ms : Members) → SpellsMembers (drop 4 (bytes_of document.entry)) ms
        → HasKeys keys ms → IsStraightAtTop Stored inner ms → ⊥)) }
{
    if inner == 0 {
        return Err(Unwritten::Unseen);
    }
    let pairs = sorted_pairs(alloc, document, keys)?;
    out.begin_object()?;
    for pair in pairs.as_slice() {
        out.key(pair.0)?;
        print_value(alloc, pair.1, Style::Stored, inner - 1, out, met)?;
    }
    out.end_object()?;
    Ok(false)
}

/// The members in their order.
#[cycle(print)]
fn print_in_turn<'a>(
    alloc: Global,
    document: RawDocument<'a>,
    keys: Keys,
    mode: Mode,
    inner: usize,
    out: &mut Writer,
    met: &mut MetKeys<'a>,
) -> Result<bool, Unwritten>
    ensures form { OnOk result ((ms : Members) → SpellsMembers (drop 4 (bytes_of document.entry)) ms
        → AddsDocument (Full mode) keys ms out.old out.new) }
    ensures settled { IfOk result (λ is_settled. IsTrue is_settled → SpellsSettled (drop 4 (bytes_of document.entry))
        × (met.new.items ≡ met.old.items)) }
    ensures before { OnOk result (out.new.before ≡ out.old.before) }
    ensures seen { IfErr result (IfUnseen ((ms : Members) → SpellsMembers (drop 4 (bytes_of document.entry)) ms
        → HasKeys keys ms → IsStraightAtTop (Full mode) inner ms → ⊥)) }
{
    if inner == 0 {
        return Err(Unwritten::Unseen);
    }
    out.begin_object()?;
    let outer = met.as_slice().len();
    let mut is_settled = true;
    for item in document.iter_elements() {
        let Ok(element) = item else {
            return Err(Unwritten::Unseen);
        };
        let key = element.key();
        if !is_among(key, keys) {
            return Err(Unwritten::Unseen);
        }
        let Some(value) = value_in(&element) else {
            return Err(Unwritten::Unseen);
        };
        out.key(key)?;
        let value_is_settled = print_value(alloc, value, Style::Full(mode), inner - 1, out, met)?;
        is_settled = meet(met, outer, key, is_settled, value_is_settled);
    }
    out.end_object()?;
    met.truncate(outer);
    Ok(is_settled)
}

/// An array, its items in their order. `inner` levels may be nested, this one among them. `Unseen` as in `print_value`.
#[cycle(print)]
fn print_items<'a>(
    alloc: Global,
    array: RawArray<'a>,
    style: Style,
    inner: usize,
    out: &mut Writer,
    met: &mut MetKeys<'a>,
) -> Result<bool, Unwritten>
    ensures form { OnOk result ((vs : Items) → SpellsItems (drop 4 (array_bytes array.entry)) vs
        → AddsValue style (array_value vs) out.old out.new) }
    ensures settled { IfOk result (λ is_settled. IsTrue is_settled → SpellsSettledItems (drop 4 (array_bytes array.entry))
        × (met.new.items ≡ met.old.items)) }
    ensures before { OnOk result (out.new.before ≡ out.old.before) }
    ensures seen { IfErr result (IfUnseen ((vs : Items) → SpellsItems (drop 4 (array_bytes array.entry)) vs
        → IsStraight style inner (array_value vs) → ⊥)) }
{
    if inner == 0 {
        return Err(Unwritten::Unseen);
    }
    let Ok(document) = RawDocument::from_bytes(array.as_bytes()) else {
        return Err(Unwritten::Unseen);
    };
    out.begin_array()?;
    let mut is_settled = true;
    for item in document.iter_elements() {
        let Ok(element) = item else {
            return Err(Unwritten::Unseen);
        };
        let Some(value) = value_in(&element) else {
            return Err(Unwritten::Unseen);
        };
        let value_is_settled = print_value(alloc, value, style, inner - 1, out, met)?;
        is_settled = both(is_settled, value_is_settled);
    }
    out.end_array()?;
    Ok(is_settled)
}

/// A code and its scope, under `$code` and then `$scope`. The scope's own keys may be reserved ones. `inner` levels may
/// be nested, the scope among them. `Unseen` as in `print_value`.
#[cycle(print)]
fn print_scoped<'a>(
    alloc: Global,
    code: RawJavaScriptCodeWithScopeRef<'a>,
    style: Style,
    inner: usize,
    out: &mut Writer,
    met: &mut MetKeys<'a>,
) -> Result<bool, Unwritten>
    ensures form { OnOk result ((ms : Members) → SpellsMembers
        (drop 4 (bytes_of code.entry.scope)) ms → AddsValue style
        (scoped_code code.entry.code.now ms) out.old out.new) }
    ensures settled { IfOk result (λ is_settled. is_settled ≡ false) }
    ensures before { OnOk result (out.new.before ≡ out.old.before) }
    ensures seen { IfErr result (IfUnseen ((ms : Members) → SpellsMembers (drop 4 (bytes_of code.entry.scope)) ms
        → IsStraightAtTop style inner ms → ⊥)) }
{
    begin(out, "$code")?;
    out.string(code.code)?;
    out.key("$scope")?;
    print_members(alloc, code.scope, Keys::Free, style, inner, out, met)?;
    out.end_object()?;
    Ok(false)
}

/// Puts the text of a document in Extended JSON in the place of what `text` held, whose room is used again: the text
/// that `write` writes of its tree. `bytes` are those of the document; no tree is made. True: the bytes spell a document
/// in which no key occurs twice and all options are in order, so that nothing of it is settled. False decides nothing:
/// it is also returned for a regular expression, a code with scope and over 96 keys of a document, in a store, and if
/// the list of the keys that were met can't grow: the text is whole.
///
/// `Unseen` if the bytes have a fault or more than 100 levels, or if a document below the top has a reserved key such
/// as `$oid`, and only then.
/// `Memory` if a growth was refused that the text needs. What `text` holds then isn't said.
pub fn write_settled(
    alloc: Global,
    bytes: &[u8],
    style: Style,
    text: &mut String,
) -> Result<bool, Unwritten>
    ensures text { OnOk result ((ms : Members) → SpellsMembers (drop 4 bytes.now) ms
        → (has_reserved ms ≡ false) × HasText style (tree ms) (string_bytes text.new)) }
    ensures settled { IfOk result (λ is_settled. IsTrue is_settled → SpellsSettled (drop 4 bytes.now)) }
    ensures seen { IfErr result (IfUnseen (IsEnvelope bytes.now → (ms : Members) → SpellsMembers (drop 4 bytes.now) ms
        → IsStraightAtTop style LEVEL_LIMIT ms → ⊥)) }
{
    let Ok(document) = RawDocument::from_bytes(bytes) else {
        return Err(Unwritten::Unseen);
    };
    let mut out = writer_over(alloc, text);
    let mut met = Vec::new(alloc);
    let is_settled = print_members(
        alloc,
        document,
        Keys::Free,
        style,
        LEVEL_LIMIT,
        &mut out,
        &mut met,
    )?;
    *text = text_of(out);
    Ok(is_settled)
}

/// Puts the text of a document in Extended JSON in the place of what `text` held, whose room is used again: the text
/// that `write` writes of its tree. `bytes` are those of the document; no tree is made.
///
/// `Unseen` if the bytes have a fault or more than 100 levels, or if a document below the top has a reserved key such
/// as `$oid`, and only then.
/// `Memory` if a growth was refused that the text needs. What `text` holds then isn't said.
pub fn write_raw(
    alloc: Global,
    bytes: &[u8],
    style: Style,
    text: &mut String,
) -> Result<(), Unwritten>
    ensures text { OnOk result ((ms : Members) → SpellsMembers (drop 4 bytes.now) ms
        → (has_reserved ms ≡ false) × HasText style (tree ms) (string_bytes text.new)) }
    ensures seen { IfErr result (IfUnseen (IsEnvelope bytes.now → (ms : Members) → SpellsMembers (drop 4 bytes.now) ms
        → IsStraightAtTop style LEVEL_LIMIT ms → ⊥)) }
{
    match write_settled(alloc, bytes, style, text) {
        Ok(_) => Ok(()),
        Err(unwritten) => Err(unwritten),
    }
}
