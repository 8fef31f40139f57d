//! What waits, and what is let go.

ghost use Rattle.std.specs.Prelude.{◌≡◌, IfOk, map};
ghost use Rattle.fallowtime_messages.specs.Waiting.{bodies_of, cost_of, fit, kept, total, wait_of};

use std::alloc::{AllocError, Global};
use std::collections::VecDeque;

/// How much may wait.
const MOST: u64 = 268435456;
/// What a find counts, besides the bytes that it returned.
const LEAST: u64 = 262144;

/// What waits of one find.
#[derive(Drop)]
pub struct Cursor {
    /// Its number.
    pub(crate) id: i64,
    /// The collection behind its database.
    pub(crate) space: String,
    /// What it counts.
    pub(crate) cost: u64,
    /// The documents that weren't told yet, as bytes.
    pub(crate) rest: VecDeque<Vec<u8>>,
}

/// How many bytes documents have. It fails beyond 64 bits.
fn total(bodies: &[Vec<u8>]) -> Result<u64, AllocError>
    ensures { IfOk result (λ n. n ≡ total (bodies_of bodies.now)) }
{
    let mut sum: u64 = 0;
    for body in bodies {
        sum = sum.checked_add(body.len() as u64).ok_or(AllocError)?;
    }
    Ok(sum)
}

/// What a find counts that returned these documents. It fails beyond 64 bits.
pub(crate) fn cost_of(bodies: &[Vec<u8>]) -> Result<u64, AllocError>
    ensures { IfOk result (λ n. n ≡ cost_of (bodies_of bodies.now)) }
{
    let sum = total(bodies)?;
    LEAST.checked_add(sum).ok_or(AllocError)
}

/// Whether no more waits than may.
fn fit(cursors: &[Cursor]) -> bool
    ensures { result ≡ fit 268435456 (map wait_of cursors.now) }
{
    let mut left = MOST;
    for cursor in cursors {
        if cursor.cost > left {
            return false;
        }
        left -= cursor.cost;
    }
    true
}

/// Lets the oldest go, until no more waits than may, or the newest alone.
pub(crate) fn let_go(cursors: &mut Vec<Cursor>)
    ensures { map wait_of cursors.new.items ≡ kept (map wait_of cursors.old.items) }
{
    while cursors.len() > 1 && !fit(cursors.as_slice()) {
        cursors.remove(0);
    }
}
