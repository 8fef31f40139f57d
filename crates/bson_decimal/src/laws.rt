//! What the definitions come to. A law has no body: its contract is proved, and a caller that knows it calls it.

ghost use Rattle.std.specs.Prelude.{◌≡◌, ◌^◌, ◌<◌, ◌≤◌, ℕ, Bool};
ghost use Rattle.bson_decimal.specs.Arithmetic.{decimal_of, nearest, quotient};
ghost use Rattle.bson_decimal.specs.Nearest.{IsNearestDecimal, IsNearestMultiple};

/// `nearest` is the nearest whole number to a fraction, and the even one of two that are equally near.
pub fn fractions()
    ensures { (n d : ℕ) → 0 < d → IsNearestMultiple n d (nearest n d) }
{}

/// No decimal is nearer to a whole number of any size, times a power of ten, than the one that `decimal_of` gives for it:
/// so none is nearer to an exact sum, difference or product. If one of another value is as near, the result is even.
pub fn whole_numbers()
    ensures { (s : Bool) (n x : ℕ) → IsNearestDecimal n 1 x (decimal_of s n x) }
{}

/// No decimal is nearer to the exact quotient of two coefficients, times a power of ten, than `quotient`.
pub fn quotients()
    ensures { (s : Bool) (c d x : ℕ) → 0 < d → d < 10 ^ 34 → 68 ≤ x
        → IsNearestDecimal c d x (quotient s c d x) }
{}
