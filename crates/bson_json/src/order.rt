//! The members of a document with their keys ascending.

ghost use Rattle.std.specs.Prelude.{◌≡◌, ℕ, drop, map, IfErr, IfNone, IfOk, IfSome, IsTrue};
ghost use Rattle.std.specs.Cmp.Lexicographic.{slice_cmp};
ghost use Rattle.std.specs.List.{IsAllAdjacentAnswer};
ghost use Rattle.std.specs.List.Sorted.{IsPermutation, IsSortedByKey};
ghost use Rattle.std.specs.Ordering.{is_lt, nat_cmp};
ghost use Rattle.bson_base.specs.Value.{Members, Value, value_kind};
ghost use Rattle.bson_bytes.specs.Spells.{SpellsMembers, SpellsValue};
ghost use Rattle.bson_raw.specs.Convert.{SpellsRawValue};
ghost use Rattle.bson_raw.specs.Raw.{ref_value};
ghost use Rattle.bson_raw.specs.View.{bytes_of, parts_of};
ghost use Rattle.bson_json.specs.Added.{HasKeys};
ghost use Rattle.bson_json.specs.InOrder.{ShowsInOrder, ShowsInTurn};
ghost use Rattle.bson_json.specs.Straight.{IfUnseen, IsStraightAtTop};
ghost use Rattle.bson_json.specs.declared.style.Style.TheVariants.{Stored};

use crate::keys::{Keys, is_among};
use crate::unwritten::Unwritten;
use bson_raw::{RawBsonRef, RawDocument, RawElement};
use std::alloc::Global;

/// The value of an element, if its payload has no fault.
pub(crate) fn value_in<'a>(element: &RawElement<'a>) -> Option<RawBsonRef<'a>>
    ensures shown { IfSome result (λ r. (v : Value) → value_kind v ≡ (parts_of element.now).tag
        → SpellsValue (parts_of element.now).payload v → SpellsRawValue (ref_value r) v) }
    ensures spelled { IfSome result (λ r. (v : Value) → SpellsRawValue (ref_value r) v
        → (value_kind v ≡ (parts_of element.now).tag) × SpellsValue (parts_of element.now).payload v) }
    ensures fault { IfNone result ((v : Value) → value_kind v ≡ (parts_of element.now).tag
        → SpellsValue (parts_of element.now).payload v → ⊥) }
{
    bson_raw::laws::payload_of_an_element(element);
    match element.value_or_kind() {
        Ok(value) => Some(value),
        Err(_) => None,
    }
}

/// The keys and values of a document in its order. `Unseen` if it has a fault, or another key than it may have.
fn pairs_of<'a>(
    alloc: Global,
    document: RawDocument<'a>,
    keys: Keys,
) -> Result<Vec<(&'a str, RawBsonRef<'a>)>, Unwritten>
    ensures shown { IfOk result (λ pairs. ShowsInTurn keys (drop 4 (bytes_of document.entry)) pairs.items) }
    ensures seen { IfErr result (IfUnseen ((inner : ℕ) (ms : Members) → SpellsMembers (drop 4 (bytes_of document.entry)) ms
        → HasKeys keys ms → IsStraightAtTop Stored inner ms → ⊥)) }
{
    let mut pairs = Vec::new(alloc);
    for item in document.iter_elements() {
        let Ok(element) = item else {
            return Err(Unwritten::Unseen);
        };
        let key = element.key();
        if !is_among(key, keys) {
            return Err(Unwritten::Unseen);
        }
        let Some(value) = value_in(&element) else {
            return Err(Unwritten::Unseen);
        };
        pairs.push((key, value))?;
    }
    Ok(pairs)
}

/// Puts pairs in the order of their keys.
fn sort<'a>(pairs: &mut Vec<(&'a str, RawBsonRef<'a>)>)
    ensures permutation { IsPermutation pairs.old.items pairs.new.items }
    ensures sorted { IsSortedByKey (λ p. p.0.now) (slice_cmp nat_cmp) pairs.new.items }
{
    pairs.sort_unstable_by(|a, b| a.0.cmp(b.0));
}

/// True: each key is less than the next.
fn ascends(pairs: &[(&str, RawBsonRef<'_>)]) -> bool
    ensures { IsAllAdjacentAnswer (λ x y b. b ≡ is_lt (slice_cmp nat_cmp x.0.now y.0.now)) pairs.now result }
{
    pairs.is_sorted_by(|a, b| a.0.cmp(b.0).is_lt())
}

/// The keys and values of a document with the keys ascending by their bytes. `Unseen` if it has a fault, another key
/// than it may have, or a key twice.
pub(crate) fn sorted_pairs<'a>(
    alloc: Global,
    document: RawDocument<'a>,
    keys: Keys,
) -> Result<Vec<(&'a str, RawBsonRef<'a>)>, Unwritten>
    ensures order { IfOk result (λ pairs. ShowsInOrder keys (drop 4 (bytes_of document.entry)) pairs.items) }
    ensures seen { IfErr result (IfUnseen ((inner : ℕ) (ms : Members) → SpellsMembers (drop 4 (bytes_of document.entry)) ms
        → HasKeys keys ms → IsStraightAtTop Stored inner ms → ⊥)) }
{
    let mut pairs = pairs_of(alloc, document, keys)?;
    sort(&mut pairs);
    if !ascends(pairs.as_slice()) {
        return Err(Unwritten::Unseen);
    }
    Ok(pairs)
}
