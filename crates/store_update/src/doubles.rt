//! Doubles and their patterns.

ghost use Rattle.std.specs.Prelude.{◌≡◌, from_bits, to_bits};
ghost use Rattle.std.specs.Float.{binary64};

const SIGN: u64 = 0x8000_0000_0000_0000;

const INFINITY: u64 = 0x7FF0_0000_0000_0000;

/// What is not a number, without a sign.
const QUIET: u64 = 0x7FF8_0000_0000_0000;

/// The double of a pattern.
pub(crate) fn double_of(pattern: u64) -> f64
    ensures { result ≡ from_bits binary64 pattern }
{
    if pattern % SIGN > INFINITY {
        0.0 / 0.0
    } else {
        f64::from_bits(pattern)
    }
}

/// The pattern of a double.
pub(crate) fn pattern_of(double: f64) -> u64
    ensures { result ≡ to_bits binary64 double }
{
    if double.is_nan() {
        QUIET
    } else {
        double.to_bits()
    }
}
