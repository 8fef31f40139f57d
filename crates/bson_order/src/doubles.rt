//! Doubles that are whole numbers.

ghost use Rattle.std.specs.Prelude.{◌≡◌, ◌+◌, ◌-◌, ◌*◌, ◌^◌, ◌<◌, ◌≤◌, ℕ, MatchOption, if◌then◌else◌};
ghost use Rattle.bson_order.specs.Line.{double_place, whole_place};
ghost use Rattle.bson_order.specs.Wholes.{HasNoDouble, IsDoubleOf};

use bson_base::DoubleBits;

/// The double that a whole number is, if there is one: if from the first bit that is set to the last there are 53 at most.
pub fn double_of(whole: i64) -> Option<DoubleBits>
    ensures { MatchOption result ((n : ℕ) → double_place n ≡ whole_place whole → ⊥)
        (λ d. double_place d.0 ≡ whole_place whole) }
{
    match bits_of(whole.unsigned_abs()) {
        Some(bits) => Some(with_sign(whole.is_negative(), bits)),
        None => None,
    }
}

/// The double with these lower 63 bits, and with its sign bit (IEEE 754-2008, 3.4) set if `negative` says so.
fn with_sign(negative: bool, bits: u64) -> DoubleBits
    requires { bits < 2 ^ 63 }
    ensures { result.0 ≡ (if negative then bits + 2 ^ 63 else bits) }
{
    if negative {
        DoubleBits::from_bits(bits + (1 << 63))
    } else {
        DoubleBits::from_bits(bits)
    }
}

/// The bits of the double that a size is.
fn bits_of(size: u64) -> Option<u64>
    ensures { MatchOption result (HasNoDouble size) (IsDoubleOf size) }
{
    if size == 0 {
        return Some(0);
    }
    let top = top_of(size);
    if top <= 52 {
        return Some(bits_with(top, size * 2u64.pow(52 - top)));
    }
    let unit = 2u64.pow(top - 52);
    if size % unit == 0 {
        Some(bits_with(top, size / unit))
    } else {
        None
    }
}

/// The place of the first bit that is set, counted from the last.
fn top_of(size: u64) -> u32
    requires { 0 < size }
    ensures within { result < 64 }
    ensures first { 2 ^ result ≤ size }
    ensures beyond { size < 2 ^ (result + 1) }
{
    63 - size.leading_zeros()
}

/// The bits of a double of this significand, whose first bit is worth 2^`top`.
fn bits_with(top: u32, significand: u64) -> u64
    requires top { top < 64 }
    requires first { 2 ^ 52 ≤ significand }
    requires last { significand < 2 ^ 53 }
    ensures { result ≡ (1023 + top) * 2 ^ 52 + (significand - 2 ^ 52) }
{
    (1023 + top as u64) * (1 << 52) + (significand - (1 << 52))
}
