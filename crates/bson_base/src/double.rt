//! Doubles, as patterns of bits.

ghost use Rattle.std.specs.Prelude.{◌≡◌};
ghost use Rattle.bson_base.specs.Doubles.{is_nan, is_infinite, is_zero, is_negative};

/// A double as the 64 bits of its IEEE 754 pattern (bsonspec.org 1.1, element type 01). Two doubles are equal if
/// their patterns are: the two zeros differ, and a NaN equals itself.
#[derive(Clone, Copy, Debug, PartialEq, Eq, Hash)]
pub struct DoubleBits(pub u64);

// The bit of the sign, and the patterns of the infinities without it.
const SIGN: u64 = 0x8000_0000_0000_0000;

const INFINITY: u64 = 0x7FF0_0000_0000_0000;

impl DoubleBits {
    /// The double with a pattern.
    pub fn from_bits(bits: u64) -> DoubleBits
        ensures { result.0 ≡ bits }
    {
        DoubleBits(bits)
    }

    /// The pattern.
    pub fn to_bits(self) -> u64
        ensures { result ≡ self.0 }
    {
        self.0
    }

    /// Whether it is one of the patterns that are not a number (IEEE 754, 6.2.1).
    pub fn is_nan(self) -> bool
        ensures { result ≡ is_nan self.0 }
    {
        self.0 % SIGN > INFINITY
    }

    /// Whether it is one of the two zeros.
    pub fn is_zero(self) -> bool
        ensures { result ≡ is_zero self.0 }
    {
        self.0 % SIGN == 0
    }

    /// Whether it is one of the two infinities.
    pub fn is_infinite(self) -> bool
        ensures { result ≡ is_infinite self.0 }
    {
        self.0 % SIGN == INFINITY
    }

    /// Whether the top bit is set, the sign; also of a zero and of a NaN.
    pub fn is_negative(self) -> bool
        ensures { result ≡ is_negative self.0 }
    {
        self.0 >= SIGN
    }
}
