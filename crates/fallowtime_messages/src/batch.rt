//! Batches of documents.

ghost use Rattle.std.specs.Prelude.{IfOk};
ghost use Rattle.fallowtime_messages.specs.Waiting.{IsBatch, bodies_of};

use std::alloc::{AllocError, Global};
use std::collections::VecDeque;

/// How many bytes fill a batch.
const ROOM: u64 = 16777216;

/// Some of what was found.
#[derive(Drop)]
pub struct Batch {
    /// The number by which more of it is asked for, or 0 if there is no more.
    pub id: i64,
    /// The documents, as bytes.
    pub bodies: Vec<Vec<u8>>,
}

/// Takes the documents of a batch from those that are left: as many as are asked for, but none behind those that fill 16
/// MiB. After an error some of them are gone.
pub(crate) fn batch_of(
    alloc: Global,
    size: u64,
    rest: &mut VecDeque<Vec<u8>>,
) -> Result<Vec<Vec<u8>>, AllocError>
    ensures { IfOk result (λ batch. IsBatch size (bodies_of rest.old.items) (bodies_of batch.items) (bodies_of rest.new.items)) }
{
    let mut batch = Vec::new(alloc);
    let mut wanted = size;
    let mut room = ROOM;
    while wanted > 0 && room > 0 {
        let Some(body) = rest.pop_front() else {
            return Ok(batch);
        };
        wanted -= 1;
        room = room.saturating_sub(body.len() as u64);
        batch.push(body)?;
    }
    Ok(batch)
}
