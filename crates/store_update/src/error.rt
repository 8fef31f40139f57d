//! Why a document isn't updated.

use std::alloc::AllocError;

/// Why a document isn't updated.
#[derive(Clone, Copy, Debug, PartialEq, Eq)]
pub enum UpdateError {
    /// Memory ran out.
    Memory,
    /// The `_id` would be changed, or a path has no key.
    Id,
    /// A path leads through a value that is no document.
    Through,
    /// A value is no number.
    NotANumber,
    /// A number is a decimal, with which nothing is computed.
    Decimal,
    /// An integer doesn't fit in 64 bits.
    Overflow,
    /// A value is no array.
    NotAnArray,
}

impl From<AllocError> for UpdateError {
    ghost use Rattle.std.specs.Prelude.{◌≡◌};
    ghost use Rattle.store_update.specs.declared.error.UpdateError.TheVariants.{Memory};

    ghost from_gives = { λ _ fault. fault ≡ Memory };

    fn from(_error: AllocError) -> UpdateError {
        UpdateError::Memory
    }
}
