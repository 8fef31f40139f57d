//! Why a document was not written to a device.

use bson_frame::Error;

/// Why a document was not written.
#[derive(Debug, PartialEq, Drop, thiserror::Error)]
pub enum WriteError {
    /// A write failed, or took none of some bytes. A prefix of the document was written.
    #[error("a write failed")]
    Writer,
    /// The document has no written form: a 00 is in a key, a pattern or options, or it would be over 2147483647 bytes.
    /// Nothing was written.
    #[error("{0}")]
    Raw(Error),
    /// A growth of memory was refused. Nothing was written.
    #[error("out of memory")]
    Memory,
}
