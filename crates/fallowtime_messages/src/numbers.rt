//! The numbers of finds.

ghost use Rattle.std.specs.Prelude.{◌≡◌, ◌<◌, ◌+◌, MatchResult, pos};

use std::alloc::AllocError;

/// The last number with which a run may begin, so that 2⁶² of them are left.
const LAST_START: u64 = 1 << 62;

/// The first number of a run: this one, or 1 in the place of 0 and of one that leaves too few behind it.
pub(crate) fn start_of(first: u64) -> u64
    ensures { 0 < result }
{
    if first == 0 || first > LAST_START {
        return 1;
    }
    first
}

/// Takes the next number. It fails if there is none, and then nothing changes.
pub(crate) fn take_number(next: &mut u64) -> Result<i64, AllocError>
    ensures { MatchResult result (λ id. (id ≡ pos next.old) × (next.new ≡ next.old + 1)) (λ _. next.new ≡ next.old) }
{
    let id = i64::try_from(*next).ok().ok_or(AllocError)?;
    *next = next.checked_add(1).ok_or(AllocError)?;
    Ok(id)
}
