//! What holds of text as a terminal is given it.

ghost use Rattle.std.specs.Prelude.{◌≡◌, ℕ, List, true};
ghost use Rattle.cli_convert.specs.Terminal.{at_terminal, is_harmless};

/// Whatever was written, a terminal is given no character from U+007F to U+009F.
pub fn harmless_at_terminal()
    ensures { (bytes : List ℕ) → is_harmless (at_terminal bytes) ≡ true }
{}

/// What has no such character is given as it is.
pub fn harmless_as_it_is()
    ensures { (bytes : List ℕ) → is_harmless bytes ≡ true → at_terminal bytes ≡ bytes }
{}
