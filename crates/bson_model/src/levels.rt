//! How deep the calls go that make trees of what comes from outside.

ghost use Rattle.std.specs.Prelude.{◌≡◌, ◌+◌, MatchResult};

use std::alloc::AllocError;

/// How many documents, arrays and scopes may be nested in each other in what is made into a tree, of bytes or of JSON.
/// The calls that make it call themselves for each level, and the stack is memory too; so they return out of memory if
/// there are more, before they go deeper.
pub const STACK_LEVELS: u32 = 1000;

/// How many levels are left inside one of `levels` levels; out of memory if there is none. Takes no memory.
pub fn levels_inside(levels: u32) -> Result<u32, AllocError>
    ensures { MatchResult result (λ inside. inside + 1 ≡ levels) (λ _. levels ≡ 0) }
{
    if levels == 0 {
        Err(AllocError)
    } else {
        Ok(levels - 1)
    }
}
