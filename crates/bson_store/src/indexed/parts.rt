//! The part of a value.

ghost use Rattle.std.specs.Prelude.{◌≡◌, ◌+◌, ◌*◌, ◌^◌, ◌<◌, ℕ, suc, drop, pos};
ghost use Rattle.bson_base.specs.Scalars.{millis_of};
ghost use Rattle.bson_base.specs.Value.{Value};
ghost use Rattle.bson_order.specs.Line.{whole_place};
ghost use Rattle.bson_order.specs.Wholes.{toward_zero};
ghost use Rattle.bson_raw.specs.Convert.{SpellsRawValue};
ghost use Rattle.bson_raw.specs.Raw.{ref_value};
ghost use Rattle.bson_store.specs.Parts.{IsNumeric, head, held, part as part_spec};

use bson_base::DateTime;
use bson_order::{compare, whole_part_of};
use bson_raw::RawBsonRef;
use std::cmp::Ordering;

/// How many bytes of a text its part is made of.
const TEXT_BYTES: usize = 7;

/// Where a value lies among those of its rank (`bson_order::rank_of`): a greater value has no smaller part. Of a number
/// it is the number without its fraction, or the nearest that 64 bits have room for, and the least of what is no number;
/// of a date its milliseconds; of a text or a symbol the number of its first bytes; and 0 of all others.
///
/// If the value has a fault, the answer means nothing.
pub fn part_of(value: RawBsonRef<'_>) -> i64
    ensures { (v : Value) → SpellsRawValue (ref_value value.entry) v → result ≡ part_spec v }
{
    match value {
        RawBsonRef::Double(_) => number_part(value),
        RawBsonRef::Int32(_) => number_part(value),
        RawBsonRef::Int64(_) => number_part(value),
        RawBsonRef::Decimal128(_) => number_part(value),
        RawBsonRef::DateTime(date) => date_part(date),
        RawBsonRef::String(text) => text_part(text.as_bytes()),
        RawBsonRef::Symbol(text) => text_part(text.as_bytes()),
        _ => 0,
    }
}

/// The part of a number.
fn number_part(value: RawBsonRef<'_>) -> i64
    ensures { (v : Value) → SpellsRawValue (ref_value value.entry) v → IsNumeric v → result ≡ part_spec v }
{
    match whole_part_of(value) {
        Some(whole) => whole,
        None => match compare(value, RawBsonRef::Int32(0)) {
            Ordering::Less => i64::MIN,
            _ => i64::MAX,
        },
    }
}

/// The part of a date.
fn date_part(date: DateTime) -> i64
    ensures { result ≡ held (toward_zero (whole_place (millis_of date))) }
{
    date.timestamp_millis()
}

/// The first bytes of a text as a number, the first one the highest; those that aren't there count as 0.
fn text_part(text: &[u8]) -> i64
    ensures { result ≡ pos (head 7 text.now) }
{
    let mut part: u64 = 0;
    for i in 0..TEXT_BYTES {
        part = part * 256 + byte_at(text, i);
    }
    part as i64
}

/// A byte of a text, or 0 behind its end.
fn byte_at(text: &[u8], i: usize) -> u64
    ensures small { result < 256 }
    ensures step { (n : ℕ) → head (suc n) (drop i text.now) ≡ result * 256 ^ n + head n (drop (i + 1) text.now) }
{
    match text.get(i) {
        Some(byte) => *byte as u64,
        None => 0,
    }
}
