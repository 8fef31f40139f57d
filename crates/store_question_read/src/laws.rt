//! Laws of reading. Each function below does nothing, and its contract is the law.

ghost use Rattle.std.specs.Prelude.{◌≡◌, ◌↔◌, ℕ, List, Some};
ghost use Rattle.store_question_read.specs.Patterns.{IsBeginning, beginning_in};

/// A pattern is taken, and asks for these bytes, if it is `^` and then each of them, as it is or behind a backslash, and
/// only then.
pub fn fixed_beginnings()
    ensures { (bytes pattern : List ℕ) → (beginning_in pattern ≡ Some bytes) ↔ IsBeginning bytes pattern }
{}
