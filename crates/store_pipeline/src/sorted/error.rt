//! Why paths can't name fields.

use std::alloc::{AllocError, AllocFailed};
use thiserror::Error;

/// Why paths can't name fields.
#[derive(Clone, Copy, Debug, PartialEq, Error)]
pub enum PathsError {
    /// A key of a path is empty, or begins with `$`.
    #[error("a key of a path is empty or begins with $")]
    Key,
    /// One path is the beginning of another, or the same.
    #[error("one path is the beginning of another")]
    Collision,
    /// Fields are kept, and others than the `_id` are left out.
    #[error("beside fields that are kept, the _id alone can be left out")]
    Mixed,
    /// A growth was refused.
    #[error("out of memory")]
    Memory,
}

impl From<AllocError> for PathsError {
    ghost use Rattle.std.specs.Prelude.{◌≡◌};
    ghost use Rattle.store_pipeline.specs.declared.sorted.error.PathsError.TheVariants.{Memory};

    ghost from_gives = { λ _ e. e ≡ Memory };

    fn from(_error: AllocError) -> PathsError {
        PathsError::Memory
    }
}

impl<T: Drop> From<AllocFailed<T>> for PathsError {
    ghost use Rattle.std.specs.Prelude.{◌≡◌};
    ghost use Rattle.store_pipeline.specs.declared.sorted.error.PathsError.TheVariants.{Memory};

    ghost from_gives = { λ _ e. e ≡ Memory };

    /// Drops the value for which there was no room.
    fn from(failed: AllocFailed<T>) -> PathsError {
        drop(failed);
        PathsError::Memory
    }
}
