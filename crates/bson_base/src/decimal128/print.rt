//! The text of a decimal.

ghost use Rattle.std.specs.Prelude.{◌≡◌, ◌<◌, ◌≤◌, ◌^◌, ◌+◌, ◌-◌, ◌∷◌, ◌++◌, length, replicate, Some};
ghost use Rattle.std.specs.Fmt.{WritesOnOk, decimal};
ghost use Rattle.std.specs.Str.{IsAscii};
ghost use Rattle.bson_base.specs.Decimal.{digits_text, exponent_text, is_plain as is_plain_at, mantissa, minus_if as minus_of, print, with_dot};
ghost use Rattle.bson_base.specs.DecimalParts.{decimal_of_parts};

use super::parts::{BIAS, Parts};
use std::fmt;

/// At most five zeros, since a plain text has no more in front.
fn zeros(count: usize) -> &'static str
    requires { count ≤ 5 }
    ensures { result.now ≡ replicate count 48 }
{
    match count {
        0 => "",
        1 => "0",
        2 => "00",
        3 => "000",
        4 => "0000",
        _ => "00000",
    }
}

/// Writes digits, the last `places` of them after a dot and at least one digit, if need be a 0, before it. There is no
/// dot if `places` is 0.
fn write_dotted<W: fmt::Write>(
    f: &mut fmt::Formatter<W>,
    digits: &str,
    places: usize,
) -> fmt::Result
    requires ascii { IsAscii digits.now }
    requires near { places ≤ length digits.now + 5 }
    ensures { WritesOnOk W.write_str_gives f.old result (with_dot places digits.now) f.new }
{
    if places == 0 {
        f.write_str(digits)
    } else if digits.len() <= places {
        let front = zeros(places - digits.len());
        write!(f, "0.{front}{digits}")
    } else {
        let (whole, part) = digits.split_at(digits.len() - places);
        write!(f, "{whole}.{part}")
    }
}

/// Writes `E`, a sign and the exponent in decimal; `exponent` has the bias 6176. An exponent of 0 is `E+0`.
fn write_exponent<W: fmt::Write>(f: &mut fmt::Formatter<W>, exponent: usize) -> fmt::Result
    ensures { WritesOnOk W.write_str_gives f.old result (69 ∷ exponent_text exponent) f.new }
{
    if exponent >= BIAS {
        write!(f, "E+{}", exponent - BIAS)
    } else {
        write!(f, "E-{}", BIAS - exponent)
    }
}

/// Whether a coefficient of `len` digits is shown without `E`: its exponent (with the bias 6176) is at most 0 and that
/// of its first digit at least -6.
fn is_plain(exponent: usize, len: usize) -> bool
    requires { len + exponent < 2 ^ 32 }
    ensures { result ≡ is_plain_at exponent len }
{
    exponent <= BIAS && BIAS <= exponent + len + 5
}

/// Writes one digit, the others after a dot if there are any, and `E` with the exponent of the first digit. `exponent`
/// is that of the last digit, with the bias 6176.
fn write_scientific<W: fmt::Write>(
    f: &mut fmt::Formatter<W>,
    digits: &str,
    exponent: usize,
) -> fmt::Result
    requires ascii { IsAscii digits.now }
    requires some { 0 < length digits.now }
    requires fits { length digits.now + exponent < 2 ^ 32 }
    ensures { WritesOnOk W.write_str_gives f.old result (mantissa digits.now ++ 69 ∷ exponent_text (exponent + length digits.now - 1)) f.new }
{
    let len = digits.len();
    write_dotted(f, digits, len - 1)?;
    write_exponent(f, exponent + len - 1)
}

/// Writes all digits of a coefficient, plain or with `E` as `is_plain` says. `exponent` has the bias 6176.
fn write_number<W: fmt::Write>(
    f: &mut fmt::Formatter<W>,
    digits: &str,
    exponent: usize,
) -> fmt::Result
    requires ascii { IsAscii digits.now }
    requires some { 0 < length digits.now }
    requires fits { length digits.now + exponent < 2 ^ 32 }
    ensures { WritesOnOk W.write_str_gives f.old result (digits_text exponent digits.now) f.new }
{
    if is_plain(exponent, digits.len()) {
        write_dotted(f, digits, BIAS - exponent)
    } else {
        write_scientific(f, digits, exponent)
    }
}

/// The sign of a decimal's text, which a positive one doesn't have. A negative zero has it.
fn minus_if(negative: bool) -> &'static str
    ensures { result.now ≡ minus_of negative }
{
    if negative { "-" } else { "" }
}

/// Writes the sign, if negative, and all digits of the coefficient; `exponent` has the bias 6176. Zeros at the end and
/// the sign of a zero are kept, so the text tells apart decimals of equal value.
fn write_finite<W: fmt::Write>(
    f: &mut fmt::Formatter<W>,
    negative: bool,
    coefficient: u128,
    exponent: u16,
) -> fmt::Result
    ensures { WritesOnOk W.write_str_gives f.old result (minus_of negative ++ digits_text exponent (decimal coefficient)) f.new }
{
    f.write_str(minus_if(negative))?;
    let mut buffer = itoa::Buffer::new();
    let digits = buffer.format(coefficient);
    write_number(f, digits, exponent as usize)
}

/// The text of a decimal.
impl fmt::Display for Parts {
    ghost output = { λ parts. Some (print (decimal_of_parts parts)) };

    fn fmt<W: fmt::Write>(&self, f: &mut fmt::Formatter<W>) -> fmt::Result {
        write_parts(f, *self)
    }
}

/// Writes `NaN` for each NaN, whatever its sign, `Infinity` or `-Infinity`, or the text of a finite decimal.
fn write_parts<W: fmt::Write>(f: &mut fmt::Formatter<W>, parts: Parts) -> fmt::Result
    ensures { WritesOnOk W.write_str_gives f.old result (print (decimal_of_parts parts)) f.new }
{
    match parts {
        Parts::NotANumber { .. } => f.write_str("NaN"),
        Parts::Infinite { negative } => {
            let minus = minus_if(negative);
            write!(f, "{minus}Infinity")
        }
        Parts::Finite {
            negative,
            coefficient,
            exponent,
        } => { write_finite(f, negative, coefficient, exponent) }
    }
}
