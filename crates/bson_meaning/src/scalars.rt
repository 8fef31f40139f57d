//! The normal form of scalars.

ghost use Rattle.std.specs.Prelude.{◌≡◌, if◌then◌else◌};
ghost use Rattle.bson_base.specs.Doubles.{is_zero};
ghost use Rattle.bson_base.specs.Decimal.{pack, unpack};
ghost use Rattle.bson_base.specs.Scalars.{decimal_bytes};
ghost use Rattle.bson_base.specs.Tags.{subtype_of, subtype_byte};
ghost use Rattle.bson_meaning.specs.Forms.{normal_double as double_normal, normal_decimal as decimal_normal, quiet as quiet_of};

use bson_base::decimal128::{bytes_of_number, limited, number_of_bytes};
use bson_model::{BinarySubtype, Decimal128, DoubleBits};

const QUIET: u64 = 0x7FF8_0000_0000_0000;

const NEGATIVE_QUIET: u64 = 0xFFF8_0000_0000_0000;

/// Whether the two zeros of a double mean the same.
#[derive(Clone, Copy)]
pub(crate) enum Zeros {
    /// They don't, as in the files of the first stores.
    Apart,
    /// They do.
    Joined,
}

/// The quiet NaN of a double's sign.
fn quiet(double: DoubleBits) -> DoubleBits
    ensures { result.0 ≡ quiet_of double.0 }
{
    if double.is_negative() {
        DoubleBits::from_bits(NEGATIVE_QUIET)
    } else {
        DoubleBits::from_bits(QUIET)
    }
}

/// The double, or the quiet NaN of its sign if it is a NaN, or the positive zero if it is a zero and the zeros
/// are one.
#[tactic(auto, unfolding(crate::specs::Forms::normal_double))]
pub(crate) fn normal_double(zeros: Zeros, double: DoubleBits) -> DoubleBits
    ensures { result.0 ≡ double_normal zeros double.0 }
{
    if double.is_nan() {
        return quiet(double);
    }
    match zeros {
        Zeros::Apart => double,
        Zeros::Joined => joined(double),
    }
}

/// The double, or the positive zero if it is a zero.
fn joined(double: DoubleBits) -> DoubleBits
    ensures { result.0 ≡ (if is_zero double.0 then 0 else double.0) }
{
    if double.is_zero() {
        DoubleBits::from_bits(0)
    } else {
        double
    }
}

/// What the byte of a subtype stands for.
pub(crate) fn normal_subtype(subtype: BinarySubtype) -> BinarySubtype
    ensures { result ≡ subtype_of (subtype_byte subtype) }
{
    BinarySubtype::from(u8::from(subtype))
}

/// The first form of what a decimal means.
#[tactic(auto, unfolding(crate::specs::Forms::normal_decimal))]
pub(crate) fn normal_decimal(decimal: &Decimal128) -> Decimal128
    ensures { decimal_bytes result ≡ decimal_normal (decimal_bytes decimal.now) }
{
    Decimal128::from_bytes(bytes_of_number(normal_bits(number_of_bytes(&decimal.bytes()))))
}

/// The first form of 128 bits: if the coefficient is over its limit it is 0, and every NaN is the quiet positive one
/// (IEEE 754-2008, 3.5.2, binary encoding).
#[tactic(auto, unfolding(bson_base::specs::Decimal::unpack))]
fn normal_bits(bits: u128) -> u128
    ensures { result ≡ pack (unpack bits) }
{
    let sign = bits / (1 << 127) * (1 << 127);
    if bits / (1 << 123) % 16 == 15 {
        if bits / (1 << 122) % 2 == 1 {
            31 << 122
        } else {
            sign + (30 << 122)
        }
    } else if bits / (1 << 125) % 4 == 3 {
        sign + bits / (1 << 111) % (1 << 14) * (1 << 113)
    } else {
        sign + bits / (1 << 113) % (1 << 14) * (1 << 113) + limited(bits % (1 << 113))
    }
}
