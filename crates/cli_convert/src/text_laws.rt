//! What follows of how ids are made.

ghost use Rattle.std.specs.Prelude.{◌≡◌, ◌<◌, ◌^◌, ℕ};
ghost use Rattle.cli_convert.specs.Made.{made_bytes, maker_at};

/// Ids of the same time whose numbers differ are different. The numbers of a maker go round, so its first 2⁶⁴ ids
/// differ.
pub fn made_ids_differ()
    ensures { (time m n : ℕ) → m < 2 ^ 64 → n < 2 ^ 64
        → made_bytes (maker_at time m) ≡ made_bytes (maker_at time n) → m ≡ n }
{}
