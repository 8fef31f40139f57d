//! Why a call is refused.

use sqlite::{Error, ErrorCode};
use std::alloc::AllocError;

/// Why the table refuses a call.
#[derive(Clone, Copy, Debug, PartialEq, Eq)]
pub enum Fault {
    /// Memory ran out, here or in the database.
    Memory,
    /// The database refused: its disk, a limit on steps, or a connection that an earlier fault shut.
    Database,
    /// There are too few places after the greatest one.
    Places,
}

impl From<Error> for Fault {
    ghost use Rattle.std.specs.Prelude.{◌≡◌};
    ghost use Rattle.store_table.specs.Fault.{fault_of};

    ghost from_gives = { λ error fault. fault ≡ fault_of error };

    /// Memory if the database ran out of it, and Database for any other error.
    fn from(error: Error) -> Fault {
        match error {
            Error::SqliteFailure(ErrorCode::OutOfMemory) => Fault::Memory,
            _ => Fault::Database,
        }
    }
}

impl From<AllocError> for Fault {
    ghost use Rattle.std.specs.Prelude.{◌≡◌};
    ghost use Rattle.store_table.specs.declared.fault.Fault.TheVariants.{Memory};

    ghost from_gives = { λ _ fault. fault ≡ Memory };

    fn from(_error: AllocError) -> Fault {
        Fault::Memory
    }
}
