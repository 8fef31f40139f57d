//! Why no message was taken from a source, why bytes are no message, and why none was written.

ghost use Rattle.std.specs.Prelude.{◌≡◌};
ghost use Rattle.bson_message.specs.declared.fault.ReadFault.TheVariants.{Memory};
ghost use Rattle.bson_message.specs.declared.fault.WriteFault.TheVariants as writing;

use std::alloc::{AllocError, AllocFailed};
use thiserror::Error;

/// Why no message was taken from a source.
#[derive(Clone, Copy, Debug, PartialEq, Eq, Error)]
pub enum ReadFault {
    /// A read failed. It isn't known how far the source was read.
    #[error("the reader failed")]
    Reader,
    /// The source came to its end inside the message; all that it had left was taken.
    #[error("the bytes end inside the message")]
    EndInside,
    /// The declared length is under 16 or over 48000000; four bytes were taken.
    #[error("the declared length is under 16 or over 48000000")]
    BadLength,
    /// A growth was refused; four bytes were taken.
    #[error("out of memory")]
    Memory,
}

impl From<AllocError> for ReadFault {
    ghost from_gives = { λ _ e. e ≡ Memory };

    fn from(_error: AllocError) -> ReadFault {
        ReadFault::Memory
    }
}

impl<T: Drop> From<AllocFailed<T>> for ReadFault {
    ghost from_gives = { λ _ e. e ≡ Memory };

    fn from(_error: AllocFailed<T>) -> ReadFault {
        ReadFault::Memory
    }
}

/// Why bytes are no message that is read here.
#[derive(Clone, Copy, Debug, PartialEq, Eq, Error)]
pub enum Fault {
    /// They are under 16 or over 48000000, or don't declare their own number.
    #[error("the header is damaged")]
    Header,
    /// The operation isn't OP_MSG or OP_QUERY.
    #[error("the operation is unknown")]
    Operation,
    /// A bit of an OP_MSG is set that has to be understood and isn't known: one of 2 to 15.
    #[error("a flag is unknown")]
    Flag,
    /// A section is cut off, of an unknown kind, or not documents; or there isn't exactly one body. Of an OP_QUERY: the
    /// name or the document is damaged, or bytes follow that are no document.
    #[error("the sections are damaged")]
    Sections,
    /// An OP_MSG that says that it has a checksum doesn't end in that of all that is before it.
    #[error("the checksum is wrong")]
    Checksum,
}

/// Why no message was written.
#[derive(Clone, Copy, Debug, PartialEq, Eq, Error)]
pub enum WriteFault {
    /// It would have over 48000000 bytes.
    #[error("the message would have over 48000000 bytes")]
    TooLong,
    /// A growth was refused.
    #[error("out of memory")]
    Memory,
}

impl From<AllocError> for WriteFault {
    ghost from_gives = { λ _ e. e ≡ writing.Memory };

    fn from(_error: AllocError) -> WriteFault {
        WriteFault::Memory
    }
}

impl<T: Drop> From<AllocFailed<T>> for WriteFault {
    ghost from_gives = { λ _ e. e ≡ writing.Memory };

    fn from(_error: AllocFailed<T>) -> WriteFault {
        WriteFault::Memory
    }
}
