//! Laws of the texts of doubles.

ghost use Rattle.std.specs.Prelude.{◌≡◌, ℕ, ◌<◌, ◌^◌, List, Some};
ghost use Rattle.bson_json_read.specs.DoubleText.{IsDoubleText, double_of, settled};

/// What was written as a text is read again: the same pattern, and of what is not a number the sign alone.
pub fn texts_are_read_again()
    ensures { (n : ℕ) (t : List ℕ) → n < 2 ^ 64 → IsDoubleText n t → double_of t ≡ Some (settled n) }
{}
