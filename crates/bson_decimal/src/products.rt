//! Products of decimals.

ghost use Rattle.std.specs.Prelude.{◌≡◌, ◌+◌, ◌*◌, ◌^◌, ◌<◌};
ghost use Rattle.bson_decimal.specs.Arithmetic.{IsDecimal, multiply};

use crate::decimal::{Decimal, infinity_times, signs_differ};
use crate::rounding::{BIAS, decimal_of};
use crate::wide::product;

/// The product of two decimals (IEEE 754-2008, 5.4.1, multiplication): the exact one, with the sum of the exponents if
/// it has room there, and else the decimal nearest to it, the even one at a tie. A product that is too great is an
/// infinity, one that is too small a zero. A product with NaN is NaN, and so is zero times an infinity; any other
/// product with an infinity is an infinity. Its sign, also a zero's, is negative if the signs differ.
pub fn multiply(a: Decimal, b: Decimal) -> Decimal
    requires first { IsDecimal a }
    requires second { IsDecimal b }
    ensures equal { result ≡ multiply a b }
    ensures decimal { IsDecimal result }
{
    match a {
        Decimal::NotANumber => Decimal::NotANumber,
        Decimal::Infinite(s) => match b {
            Decimal::NotANumber => Decimal::NotANumber,
            Decimal::Infinite(t) => Decimal::Infinite(signs_differ(s, t)),
            Decimal::Finite(t, d, _) => infinity_times(signs_differ(s, t), d),
        },
        Decimal::Finite(s, c, e) => match b {
            Decimal::NotANumber => Decimal::NotANumber,
            Decimal::Infinite(t) => infinity_times(signs_differ(s, t), c),
            Decimal::Finite(t, d, f) => {
                decimal_of(signs_differ(s, t), product(c, d), e + f + BIAS)
            }
        },
    }
}
