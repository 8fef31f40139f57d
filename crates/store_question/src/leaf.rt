//! What is asked of one value.

ghost use Rattle.std.specs.Prelude.{ℕ, List, Some, ◌≡◌, ◌↔◌, ◌≤◌, IfOk, IsTrue, IsSomeAnd, option_and_then, option_map, unwrap_or};
ghost use Rattle.bson_base.specs.Value.{Value, scalar, null, value_kind, levels};
ghost use Rattle.bson_order.specs.Wholes.{part_of};
ghost use Rattle.bson_raw.specs.Convert.{SpellsRawValue};
ghost use Rattle.bson_raw.specs.Raw.{ref_value};
ghost use Rattle.bson_raw.specs.View.{bytes_of};
ghost use Rattle.std.specs.Prelude.{Option as Maybe};
ghost use Rattle.store_question.specs.Asked.{lies_to, lies_apart, holds as holds_so, HasSize, count as count_of, leaves_so, begins_so, text_in};
ghost use Rattle.regex.specs.Strings.{regex_pattern};
ghost use Rattle.store_question.specs.Patterns.{IsReadFrom, matches_so};
ghost use Rattle.store_question.specs.Reads.{Shows, HoldsItems, OfMembers};

use crate::question::Comparison;
use bson_base::ElementType;
use bson_order::{compare, is_not_a_number, rank_of, whole_part_of};
use bson_raw::{RawBsonRef, RawDocument};
use regex::Regex;
use std::alloc::{AllocError, Global};
use std::cmp::Ordering;

/// Whether a value lies so to another. What is absent lies as null does. Only what has one rank is compared, but every
/// value lies above the least key and below the greatest. What is no number is equal to what is none, and neither less
/// nor greater.
pub(crate) fn lies(
    value: Option<RawBsonRef<'_>>,
    comparison: Comparison,
    other: RawBsonRef<'_>,
) -> bool
    ensures { (o : Maybe Value) (w : Value) → Shows value.entry o → SpellsRawValue (ref_value other.entry) w
        → result ≡ lies_to comparison (unwrap_or o (scalar null)) w }
{
    match value {
        Some(found) => lies_so(found, comparison, other),
        None => lies_so(RawBsonRef::Null, comparison, other),
    }
}

/// What `lies` says of a value that is there.
fn lies_so(here: RawBsonRef<'_>, comparison: Comparison, other: RawBsonRef<'_>) -> bool
    ensures { (v w : Value) → SpellsRawValue (ref_value here.entry) v → SpellsRawValue (ref_value other.entry) w
        → levels v ≤ 200 → result ≡ lies_to comparison v w }
{
    if rank_of(here) == rank_of(other) {
        if is_not_a_number(here) == is_not_a_number(other) {
            holds(comparison, compare(here, other))
        } else {
            false
        }
    } else {
        apart(comparison, other)
    }
}

/// How a value of another rank lies.
fn apart(comparison: Comparison, other: RawBsonRef<'_>) -> bool
    ensures { (w : Value) → SpellsRawValue (ref_value other.entry) w → result ≡ lies_apart comparison w }
{
    match other {
        RawBsonRef::MinKey => holds(comparison, Ordering::Greater),
        RawBsonRef::MaxKey => holds(comparison, Ordering::Less),
        _ => false,
    }
}

/// Whether the comparison admits this order of the value to the one it is compared with.
fn holds(comparison: Comparison, order: Ordering) -> bool
    ensures { result ≡ holds_so comparison order }
{
    match comparison {
        Comparison::Less => order.is_lt(),
        Comparison::AtMost => order.is_le(),
        Comparison::Equal => order.is_eq(),
        Comparison::AtLeast => order.is_ge(),
        Comparison::Greater => order.is_gt(),
    }
}

/// Whether there is a value, of exactly this element type: an integer of 64 bits is none of 32, whatever its size.
pub(crate) fn has_kind(value: Option<RawBsonRef<'_>>, kind: ElementType) -> bool
    ensures { (o : Maybe Value) → Shows value.entry o → IsTrue result ↔ IsSomeAnd o (λ v. value_kind v ≡ kind) }
{
    match value {
        Some(found) => found.element_type() == kind,
        None => false,
    }
}

/// Whether a value is a number that leaves this remainder: of its whole part, with the sign of the number. MongoDB's
/// `$mod` cuts a number off toward zero, and has no match for one beyond 64 bits, an infinity and NaN.
pub(crate) fn leaves(value: Option<RawBsonRef<'_>>, divisor: i64, remainder: i64) -> bool
    ensures { (o : Maybe Value) → Shows value.entry o
        → result ≡ leaves_so divisor remainder (option_and_then part_of o) }
{
    match value {
        Some(found) => leaves_by(whole_part_of(found), divisor, remainder),
        None => false,
    }
}

/// Whether a whole part leaves the remainder, which has the sign of the part. False without a whole part, and for a
/// divisor of 0.
fn leaves_by(part: Option<i64>, divisor: i64, remainder: i64) -> bool
    ensures { result ≡ leaves_so divisor remainder part }
{
    match part {
        Some(part) => divisor != 0 && part.wrapping_rem(divisor) == remainder,
        None => false,
    }
}

/// Whether there is a text, or a symbol, that begins with these bytes. Takes no memory.
pub(crate) fn begins(value: Option<RawBsonRef<'_>>, beginning: &[u8]) -> bool
    ensures { (o : Maybe Value) → Shows value.entry o
        → result ≡ begins_so beginning.now (option_and_then text_in o) }
{
    match value {
        Some(found) => begins_by(text_of(found), beginning),
        None => false,
    }
}

/// The text that a value is. None of what is neither a text nor a symbol.
pub(crate) fn text_of(value: RawBsonRef<'_>) -> Option<&str>
    ensures { (v : Value) → SpellsRawValue (ref_value value.entry) v → option_map (λ t. t.now) result ≡ text_in v }
{
    match value {
        RawBsonRef::String(text) => Some(text),
        RawBsonRef::Symbol(text) => Some(text),
        _ => None,
    }
}

/// Whether a text begins with these bytes. False without a text.
fn begins_by(text: Option<&str>, beginning: &[u8]) -> bool
    ensures { result ≡ begins_so beginning.now (option_map (λ t. t.now) text.entry) }
{
    match text {
        Some(text) => text.as_bytes().starts_with(beginning),
        None => false,
    }
}

/// Whether there is a text, or a symbol, in which a pattern finds something. The error is a refused growth.
pub(crate) fn matches(
    alloc: Global,
    value: Option<RawBsonRef<'_>>,
    pattern: &Regex,
) -> Result<bool, AllocError>
    ensures { (options source : List ℕ) → IsReadFrom options source (regex_pattern pattern.now)
        → (o : Maybe Value) → Shows value.entry o
        → IfOk result (λ b. b ≡ matches_so options source (option_and_then text_in o)) }
{
    match value {
        Some(found) => matches_in(alloc, text_of(found), pattern),
        None => Ok(false),
    }
}

/// Whether a pattern finds something in a text. False without a text.
fn matches_in(alloc: Global, text: Option<&str>, pattern: &Regex) -> Result<bool, AllocError>
    ensures { (options source : List ℕ) → IsReadFrom options source (regex_pattern pattern.now)
        → IfOk result (λ b. b ≡ matches_so options source (option_map (λ t. t.now) text.entry)) }
{
    match text {
        Some(text) => finds(alloc, text, pattern),
        None => Ok(false),
    }
}

/// Whether a pattern finds something in a text.
// A matcher takes 30 kB of the stack: they stay out of the frame of `fits`, which calls itself for each level.
#[inline(never)]
fn finds(alloc: Global, text: &str, pattern: &Regex) -> Result<bool, AllocError>
    ensures { (options source : List ℕ) → IsReadFrom options source (regex_pattern pattern.now)
        → IfOk result (λ b. b ≡ matches_so options source (Some text.now)) }
{
    let mut matcher = pattern.matcher(alloc)?;
    Ok(matcher.is_match(text))
}

/// The document of an array's elements, each under the key of its place. None of what is no array. Takes no memory.
pub fn items_in(value: Option<RawBsonRef<'_>>) -> Option<RawDocument<'_>>
    ensures { (o : Maybe Value) → Shows value.entry o → HoldsItems result o }
{
    let found = value?;
    let array = found.as_array()?;
    RawDocument::from_bytes(array.as_bytes()).ok()
}

/// Whether there is an array of exactly this many items. One whose bytes have a fault has no size.
pub(crate) fn has_size(value: Option<RawBsonRef<'_>>, size: u64) -> bool
    ensures { (o : Maybe Value) → Shows value.entry o → IsTrue result ↔ HasSize size o }
{
    match items_in(value) {
        Some(items) => has_so_many(items, size),
        None => false,
    }
}

/// Whether a document has exactly this many elements. One whose elements have a fault has no such number.
fn has_so_many(items: RawDocument<'_>, size: u64) -> bool
    ensures { OfMembers (bytes_of items.entry) (λ ms. IsTrue result ↔ (count_of ms ≡ size)) }
{
    let mut left = size;
    for item in items.iter_elements() {
        let Ok(_element) = item else {
            return false;
        };
        if left == 0 {
            return false;
        }
        left -= 1;
    }
    left == 0
}
