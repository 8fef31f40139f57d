//! Parts of the texts of numbers, which decimals and doubles are read by.

ghost use Rattle.std.specs.Prelude.{◌≡◌, option_map};
ghost use Rattle.std.specs.Str.{str_to_ascii_lowercase};
ghost use Rattle.bson_base.specs.Decimal.{all_digits as are_digits, all_zeros as are_zeros, cut, is_named as is_named_by, marks};

/// What is before the first of two marks, and what is after it; of a text without a mark all is before.
pub fn cut_at(text: &[u8], mark: u8, other: u8) -> (&[u8], Option<&[u8]>)
    ensures { (result.0.now, option_map (λ s. s.now) result.1) ≡ cut (marks mark other) text.now }
{
    for (i, c) in text.iter().enumerate() {
        if *c == mark || *c == other {
            return (&text[..i], Some(&text[i + 1..]));
        }
    }
    (text, None)
}

/// Whether a text has nothing but digits.
pub fn all_digits(text: &[u8]) -> bool
    ensures { result ≡ are_digits text.now }
{
    for c in text {
        if !c.is_ascii_digit() {
            return false;
        }
    }
    true
}

/// Whether a text has nothing but the digit 0.
pub fn all_zeros(text: &[u8]) -> bool
    ensures { result ≡ are_zeros text.now }
{
    for c in text {
        if *c != b'0' {
            return false;
        }
    }
    true
}

/// Whether a text is a name in any case. The name is given in small letters.
pub fn is_named(text: &[u8], name: &[u8]) -> bool
    requires { str_to_ascii_lowercase name.now ≡ name.now }
    ensures { result ≡ is_named_by text.now name.now }
{
    text.eq_ignore_ascii_case(name)
}
