//! Doubles written as texts, and read from them.

ghost use Rattle.std.specs.Prelude.{◌≡◌, ◌&&◌, option_map};
ghost use Rattle.bson_json_read.specs.DoubleText.{IsDoubleText, double_of, has_digit as some_digit, is_finite as is_number, begins_with_minus, no_number};

use bson_base::DoubleBits;
use ryu::Buffer;

// The bit of the sign, and the pattern of what is not a number without it.
const SIGN: u64 = 0x8000_0000_0000_0000;

const QUIET: u64 = 0x7FF8_0000_0000_0000;

/// Whether a double is a number: no infinity, and not what is no number.
pub fn is_finite(double: DoubleBits) -> bool
    ensures { result ≡ is_number double.0 }
{
    !(double.is_infinite() || double.is_nan())
}

/// The text of a double, in the room of `buffer`: a numeral with a point or an exponent, which reads as this double and
/// no other, or `Infinity` or `NaN`, after a minus if the sign is set.
pub fn write(double: DoubleBits, buffer: &mut Buffer) -> &str
    ensures { IsDoubleText double.0 result.now }
{
    let negative = double.is_negative();
    if double.is_nan() {
        if negative { "-NaN" } else { "NaN" }
    } else if double.is_infinite() {
        if negative { "-Infinity" } else { "Infinity" }
    } else {
        buffer.format_finite(f64::from_bits(double.to_bits()))
    }
}

/// The 64 bits of a quiet NaN with no other payload (IEEE 754-2008, 6.2.1), its sign bit set if `negative` says so.
fn no_number_of(negative: bool) -> u64
    ensures { result ≡ no_number negative }
{
    if negative { SIGN + QUIET } else { QUIET }
}

/// Whether the first byte is a minus. False for an empty text.
fn begins_negative(text: &str) -> bool
    ensures { result ≡ begins_with_minus text.now }
{
    let bytes = text.as_bytes();
    bytes.len() > 0 && bytes[0] == b'-'
}

/// Whether one of the bytes is a decimal digit of ASCII, as in every numeral, and in no `inf` or `nan`.
fn has_digit(text: &[u8]) -> bool
    ensures { result ≡ some_digit text.now }
{
    for c in text {
        if c.is_ascii_digit() {
            return true;
        }
    }
    false
}

/// Whether a text that is read as an infinity is a numeral: one above the greatest double.
fn is_too_large(text: &[u8], infinite: bool) -> bool
    ensures { result ≡ (infinite && some_digit text.now) }
{
    infinite && has_digit(text)
}

/// The double that a text stands for: a numeral, `inf`, `infinity` or `nan` in any case, with an optional sign. A
/// numeral gives the double nearest to it, and none if that is an infinity; what is not a number has the sign of its
/// text, and the least payload that is quiet.
pub fn read(text: &str) -> Option<DoubleBits>
    ensures { option_map (λ d. d.0) result ≡ double_of text.now }
{
    let Ok(x) = fast_float::parse::<f64, _>(text) else {
        return None;
    };
    if x.is_nan() {
        Some(DoubleBits::from_bits(no_number_of(begins_negative(text))))
    } else if is_too_large(text.as_bytes(), x.is_infinite()) {
        None
    } else {
        Some(DoubleBits::from_bits(x.to_bits()))
    }
}
