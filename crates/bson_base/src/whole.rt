//! All that a source gives.

ghost use Rattle.std.specs.Prelude.{◌<◌, IfOk, IfErr, vec_len};
ghost use Rattle.bson_base.specs.Device.{StopsReading, TookAll, CanFail};

use crate::device::{Source, read_full};
use std::alloc::{AllocError, Global};
use thiserror::Error;

/// How many bytes are read at a time.
const CHUNK: usize = 65536;

/// Why a source wasn't read to its end.
#[derive(Clone, Copy, Debug, PartialEq, Eq, Error)]
pub enum ReadAllError {
    /// A read failed.
    #[error("a read failed")]
    Reader,
    /// A growth was refused.
    #[error("out of memory")]
    Memory,
}

impl From<AllocError> for ReadAllError {
    ghost use Rattle.std.specs.Prelude.{◌≡◌};
    ghost use Rattle.bson_base.specs.declared.whole.ReadAllError.TheVariants.{Memory};

    ghost from_gives = { λ _ e. e ≡ Memory };

    fn from(_error: AllocError) -> ReadAllError {
        ReadAllError::Memory
    }
}

/// Room for the bytes of one read.
fn room(alloc: Global) -> Result<Vec<u8>, AllocError>
    ensures { IfOk result (λ room. 0 < vec_len room) }
{
    vec![in alloc; 0u8; CHUNK]
}

/// Reads a source to its end, and returns all that it had left. An interrupted call is a failure like any other. After
/// `Reader` it isn't known how far the source was read; with `Memory` no read failed.
pub fn read_all<S: Source>(alloc: Global, source: &mut S) -> Result<Vec<u8>, ReadAllError>
    requires { CanFail (S.feed source.old) }
    ensures ok { IfOk result (λ bytes. TookAll (S.feed source.old)
        (S.feed source.new) bytes.items) }
    ensures err { IfErr result (λ error. StopsReading error (S.feed source.old)
        (S.feed source.new)) }
{
    let mut chunk = room(alloc)?;
    let mut bytes = Vec::new(alloc);
    loop {
        let Ok(n) = read_full(source, &mut chunk) else {
            return Err(ReadAllError::Reader);
        };
        bytes.extend_from_slice(&chunk[..n])?;
        if n < chunk.len() {
            return Ok(bytes);
        }
    }
}
