//! Why arguments ask for nothing.

ghost use Rattle.std.specs.Prelude.{◌≡◌};
ghost use Rattle.fallowtime_requests.specs.declared.stop.Stop.TheVariants.{Memory};

use crate::unread::Unread;
use std::alloc::{AllocError, AllocFailed};

/// Why a command with its arguments asks for nothing.
#[derive(Debug, Drop)]
pub enum Stop {
    /// One of them can't be read.
    Words(Unread),
    /// Out of memory, or more than 1000 levels are nested in each other.
    Memory,
}

/// Why nothing is asked for after all, once a value was read that is let go here. (A function that lets go a value of many
/// kinds in one of its arms, or at a `?`, is dear to prove.)
pub(crate) fn given_up<T: Drop>(read: T, stop: Stop) -> Stop
    ensures { result ≡ stop }
{
    drop(read);
    stop
}

impl From<AllocError> for Stop {
    ghost from_gives = { λ _ s. s ≡ Memory };

    fn from(_error: AllocError) -> Stop {
        Stop::Memory
    }
}

impl<T: Drop> From<AllocFailed<T>> for Stop {
    ghost from_gives = { λ _ s. s ≡ Memory };

    fn from(failed: AllocFailed<T>) -> Stop {
        drop(failed);
        Stop::Memory
    }
}
