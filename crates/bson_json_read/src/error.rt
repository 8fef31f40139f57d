//! Why a text was refused.

ghost use Rattle.std.specs.Prelude.{◌≡◌};

use bson_model::oid;
use std::alloc::{AllocError, AllocFailed};
use thiserror::Error as ThisError;

/// Why a text, or a tree of JSON, was refused.
#[derive(Clone, Copy, Debug, PartialEq, ThisError)]
pub enum Error {
    /// The text is no JSON (RFC 8259), or its objects and arrays are nested more than 128 deep. The number is the byte,
    /// counted from 0, at which that is seen.
    #[error("no JSON at byte {0}")]
    NotJson(usize),
    /// An object that is a document has a key twice.
    #[error("a key comes twice")]
    RepeatedKey,
    /// The text under `$oid` is no object id.
    #[error("the text is no object id")]
    InvalidObjectId(oid::Error),
    /// A number without a wrapper is whole and not in the range of 64 bits, or too large for a double.
    #[error("the number is out of range")]
    NumberOutOfRange,
    /// The text is no object, a wrapper has another key, its body has another form or is out of range, or a key of the
    /// body is absent or unknown.
    #[error("the tree is no Extended JSON")]
    NotExtendedJson,
    /// A growth of memory was refused, or more than 1000 levels are nested in each other.
    #[error("out of memory")]
    Memory,
}

/// What a call of this crate returns.
pub type Result<T> = std::result::Result<T, Error>;

impl From<AllocError> for Error {
    ghost use Rattle.bson_json_read.specs.declared.error.Error.TheVariants.{Memory as memory};

    ghost from_gives = { λ _ e. e ≡ memory };

    fn from(_: AllocError) -> Error {
        Error::Memory
    }
}

impl<T: Drop> From<AllocFailed<T>> for Error {
    ghost use Rattle.bson_json_read.specs.declared.error.Error.TheVariants.{Memory as memory};

    ghost from_gives = { λ _ e. e ≡ memory };

    fn from(failed: AllocFailed<T>) -> Error {
        drop(failed);
        Error::Memory
    }
}

impl From<oid::Error> for Error {
    ghost use Rattle.bson_json_read.specs.Outcome.{of_object_id};

    ghost from_gives = { λ x e. e ≡ of_object_id x };

    /// `Memory` stays `Memory`; every other error goes into `InvalidObjectId`.
    fn from(error: oid::Error) -> Error {
        match error {
            oid::Error::Memory => Error::Memory,
            other => Error::InvalidObjectId(other),
        }
    }
}
