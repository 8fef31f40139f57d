//! Why a command isn't done.

ghost use Rattle.std.specs.Prelude.{◌≡◌};
ghost use Rattle.store_model.specs.Refusal.{refusal};
ghost use Rattle.store_model.specs.declared.error.ErrorKind.TheVariants.{Memory};
ghost use Rattle.cli_commands.specs.declared.stop.Failure.TheVariants.{Refused};

use crate::UsageError;
use bson_store::{ErrorKind, StoreError};
use std::alloc::AllocError;

/// Why a command isn't done, or its answer not printed.
#[derive(Clone, Copy, Debug, PartialEq, Eq)]
pub enum Failure {
    /// A text among the words, or a line of the input, can't be read. The store was asked nothing.
    Words(UsageError),
    /// A refusal: of the store, of the reader or the writer, or out of memory.
    Refused(StoreError),
}

impl From<StoreError> for Failure {
    ghost from_gives = { λ e s. s ≡ Refused e };

    fn from(error: StoreError) -> Failure {
        Failure::Refused(error)
    }
}

impl From<AllocError> for Failure {
    ghost from_gives = { λ _ s. s ≡ Refused (refusal Memory) };

    fn from(error: AllocError) -> Failure {
        Failure::Refused(StoreError::from(error))
    }
}

/// A refusal of a call of many documents or of none.
pub fn refuse(kind: ErrorKind) -> Failure
    ensures { result ≡ Refused (refusal kind) }
{
    Failure::Refused(StoreError::from(kind))
}
