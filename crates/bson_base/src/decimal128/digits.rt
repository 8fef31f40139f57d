//! The digits of a decimal's text, which are on both sides of the dot.

ghost use Rattle.std.specs.Prelude.{◌≡◌, ◌<◌, ◌≤◌, ◌^◌, ◌+◌, ◌-◌, ◌++◌, ℕ, true, min, length, take, drop, replicate};
ghost use Rattle.bson_base.specs.Decimal.{all_digits as are_digits, all_zeros as are_zeros, strip as stripped, value as number_of, value_after as value_behind};
ghost use Rattle.bson_base.specs.DecimalParts.{digits_of};

use crate::texts::{all_digits, all_zeros};

/// Digits in two runs, one after the other.
#[derive(Clone, Copy)]
pub(crate) struct Digits<'a> {
    pub(crate) whole: &'a [u8],
    pub(crate) part: &'a [u8],
}

/// The digits without leading zeros, of which the last is kept if there is no other digit. No digits stay none.
fn strip(text: &[u8]) -> &[u8]
    ensures { result.now ≡ stripped text.now }
{
    for (i, c) in text.iter().enumerate() {
        if *c != b'0' || i + 1 == text.len() {
            return &text[i..];
        }
    }
    text
}

/// A number followed by digits, at most 34 in all.
fn value_after(start: u128, before: usize, digits: &[u8]) -> u128
    requires few { before + length digits.now ≤ 34 }
    requires low { start < 10 ^ before }
    requires all { are_digits digits.now ≡ true }
    ensures value { result ≡ value_behind start digits.now }
    ensures bound { result < 10 ^ (before + length digits.now) }
{
    let mut n = start;
    for c in digits {
        n = n * 10 + (*c - b'0') as u128;
    }
    n
}

impl<'a> Digits<'a> {
    /// How many digits there are.
    pub(crate) fn len(self) -> usize
        ensures { result ≡ length (digits_of self.entry) }
    {
        self.whole.len() + self.part.len()
    }

    /// Whether both runs have nothing but ASCII digits. That is so of empty runs.
    pub(crate) fn all_digits(self) -> bool
        ensures { result ≡ are_digits (digits_of self.entry) }
    {
        all_digits(self.whole) && all_digits(self.part)
    }

    /// Without leading zeros, but with at least one digit.
    pub(crate) fn strip(self) -> Digits<'a>
        ensures { digits_of result ≡ stripped (digits_of self.entry) }
    {
        if self.part.is_empty() {
            Digits {
                whole: strip(self.whole),
                part: self.part,
            }
        } else if all_zeros(self.whole) {
            Digits {
                whole: &self.whole[self.whole.len()..],
                part: strip(self.part),
            }
        } else {
            Digits {
                whole: strip(self.whole),
                part: self.part,
            }
        }
    }

    /// The first `count` digits.
    pub(crate) fn first(self, count: usize) -> Digits<'a>
        requires { count ≤ length (digits_of self) }
        ensures { digits_of result ≡ take count (digits_of self.entry) }
    {
        if count <= self.whole.len() {
            Digits {
                whole: &self.whole[..count],
                part: b"",
            }
        } else {
            Digits {
                whole: self.whole,
                part: &self.part[..count - self.whole.len()],
            }
        }
    }

    /// Whether all digits from a place on are zeros.
    pub(crate) fn are_zeros_from(self, place: usize) -> bool
        requires { place ≤ length (digits_of self) }
        ensures { result ≡ are_zeros (drop place (digits_of self.entry)) }
    {
        if place <= self.whole.len() {
            all_zeros(&self.whole[place..]) && all_zeros(self.part)
        } else {
            all_zeros(&self.part[place - self.whole.len()..])
        }
    }

    /// The value of at most 34 digits.
    pub(crate) fn value(self) -> u128
        requires few { length (digits_of self) ≤ 34 }
        requires all { are_digits (digits_of self) ≡ true }
        ensures value { result ≡ number_of (digits_of self.entry) }
        ensures bound { result < 10 ^ 34 }
        ensures small { result < 10 ^ length (digits_of self.entry) }
    {
        let front = value_after(0, 0, self.whole);
        value_after(front, self.whole.len(), self.part)
    }
}
