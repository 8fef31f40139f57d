//! Why no text was written.

ghost use Rattle.std.specs.Prelude.{◌≡◌};

use std::alloc::{AllocError, AllocFailed};

/// Why no text was written.
#[derive(Clone, Copy, Debug, PartialEq, Eq)]
pub enum Unwritten {
    /// A growth was refused.
    Memory,
    /// The document has a fault, or no text: its tree tells which.
    Unseen,
}

impl From<AllocError> for Unwritten {
    ghost use Rattle.bson_json.specs.declared.unwritten.Unwritten.TheVariants.{Memory};

    ghost from_gives = { λ _ e. e ≡ Memory };

    fn from(_: AllocError) -> Unwritten {
        Unwritten::Memory
    }
}

impl<T: Drop> From<AllocFailed<T>> for Unwritten {
    ghost use Rattle.bson_json.specs.declared.unwritten.Unwritten.TheVariants.{Memory};

    ghost from_gives = { λ _ e. e ≡ Memory };

    fn from(failed: AllocFailed<T>) -> Unwritten {
        drop(failed);
        Unwritten::Memory
    }
}
