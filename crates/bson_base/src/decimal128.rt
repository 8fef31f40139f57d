//! Decimal numbers of 128 bits.

ghost use Rattle.std.specs.Prelude.{◌≡◌, Some};
ghost use Rattle.bson_base.specs.Answer.{result_map};
ghost use Rattle.bson_base.specs.Decimal.{decimal_text, number_of, read, sixteen_bytes, unpack};
ghost use Rattle.bson_base.specs.DecimalParts.{decimal_of_parts};

mod digits;
mod parse;
mod parts;
mod print;

use crate::plain::write_plainly;
use parse::read_decimal;
use parts::Parts;
pub use parts::{bytes_of_number, limited, number_of_bytes};
use std::fmt;
use std::str::FromStr;
use thiserror::Error;

/// Why a text is no decimal.
#[derive(Clone, Copy, Debug, PartialEq, Error)]
pub enum ParseError {
    /// Nothing follows the `e`.
    #[error("the exponent is empty")]
    EmptyExponent,
    /// What follows the `e` is no whole number of 16 bits.
    #[error("the exponent is no number from -32768 to 32767")]
    InvalidExponent,
    /// The coefficient has no digit, two dots, or anything but digits and a dot.
    #[error("the coefficient is not digits with at most one dot")]
    InvalidCoefficient,
    /// The exponent is too great.
    #[error("overflow")]
    Overflow,
    /// The exponent is too low.
    #[error("underflow")]
    Underflow,
    /// A digit other than 0 would be dropped.
    #[error("the decimal has no exact form")]
    InexactRounding,
    /// Never returned here.
    #[error("unparseable")]
    Unparseable,
    /// No memory. Reading takes none, so it is never returned here.
    #[error("out of memory")]
    Memory,
}

/// A decimal number of IEEE 754-2008, as its 16 bytes, the lowest first (bsonspec.org 1.1, element type 13). Two are
/// equal if their bytes are.
#[derive(Clone, Copy, Debug, PartialEq, Eq, Hash)]
pub struct Decimal128 {
    pub(crate) bytes: [u8; 16],
}

impl Decimal128 {
    ghost use Rattle.bson_base.specs.Scalars.{decimal_bytes};

    /// The decimal of 16 bytes, the lowest first.
    pub fn from_bytes(bytes: [u8; 16]) -> Decimal128
        ensures { decimal_bytes result ≡ bytes }
    {
        Decimal128 { bytes }
    }

    /// The 16 bytes, the lowest first.
    pub fn bytes(&self) -> [u8; 16]
        ensures { result ≡ decimal_bytes self.now }
    {
        self.bytes
    }

    /// What the 16 bytes encode, the lowest first (IEEE 754-2008, 3.5.2): a NaN, an infinity, or a sign, a coefficient
    /// and an exponent. A coefficient of more than 34 digits counts as 0.
    fn parts(&self) -> Parts
        ensures { decimal_of_parts result ≡ unpack (number_of (decimal_bytes self.now)) }
    {
        Parts::of_bits(number_of_bytes(&self.bytes))
    }
}

/// Reads an optional sign and then `nan`, `snan`, `inf` or `infinity` in any case, or digits with at most one dot and
/// optionally `e` and an exponent. It takes no memory.
impl FromStr for Decimal128 {
    ghost use Rattle.bson_base.specs.Scalars.{decimal_bytes};

    type Err = ParseError;

    ghost from_str_gives = { λ text answer. result_map decimal_bytes answer ≡ result_map sixteen_bytes (read text) };

    fn from_str(text: &str) -> Result<Decimal128, ParseError> {
        let parts = read_decimal(text)?;
        Ok(Decimal128 {
            bytes: bytes_of_number(parts.to_bits()),
        })
    }
}

/// `NaN` without a sign, `Infinity` and `-Infinity`, else all digits of the coefficient: plain if the exponent is at
/// most 0 and that of the first digit at least -6, else with `E`.
impl fmt::Display for Decimal128 {
    ghost use Rattle.bson_base.specs.Scalars.{decimal_bytes};

    ghost output = { λ d. Some (decimal_text (decimal_bytes d)) };

    ghost styled_output = { λ d s. Some (decimal_text (decimal_bytes d)) };

    fn fmt<W: fmt::Write>(&self, f: &mut fmt::Formatter<W>) -> fmt::Result {
        write_plainly(f, self.parts())
    }
}
