//! Why no document was read.

ghost use Rattle.std.specs.Prelude.{◌≡◌};
ghost use Rattle.bson_raw.specs.declared.read_error.ReadError.TheVariants.{Memory};

use bson_frame::Error;
use std::alloc::{AllocError, AllocFailed};

/// Why no document was read from a reader.
#[derive(Debug, Drop, PartialEq, thiserror::Error)]
pub enum ReadError {
    /// A read failed. It isn't known how far the reader was read.
    #[error("the reader failed")]
    Reader,
    /// The reader came to its end inside the document; all that it had left was read.
    #[error("the bytes end inside the document")]
    EndInside,
    /// The declared length is under 5 or over 16777216; four bytes were read.
    #[error("the declared length is under 5 or over 16777216")]
    BadLength,
    /// The bytes mean no document; as many as are declared were read. The kind isn't out of memory.
    #[error("{0}")]
    Raw(Error),
    /// A growth was refused. It isn't known how far the reader was read.
    #[error("out of memory")]
    Memory,
}

impl From<AllocError> for ReadError {
    ghost from_gives = { λ _ e. e ≡ Memory };

    fn from(_e: AllocError) -> ReadError {
        ReadError::Memory
    }
}

impl<T: Drop> From<AllocFailed<T>> for ReadError {
    ghost from_gives = { λ _ e. e ≡ Memory };

    fn from(_e: AllocFailed<T>) -> ReadError {
        ReadError::Memory
    }
}
