//! Pairs with their keys ascending by their bytes, put in one after the other.

ghost use Rattle.std.specs.Prelude.{◌≡◌, ◌≤◌, ◌↔◌, ◌⊎◌, false, length, IfNone, IfOk, IfSome, IsTrue, OnErr};
ghost use Rattle.std.specs.Bool.{OnFalse};
ghost use Rattle.store_documents.specs.Order.{Ascends, GoesAt, HasKey, IsPutInOrder};

use std::alloc::AllocError;
use std::cmp::Ordering;

/// So many pairs are taken: each is looked for among those that are there, from the last to the first.
pub const MOST_PAIRS: usize = 64;

/// How many of the pairs have their key before this one. None if one has this key.
fn place_of<T>(pairs: &[(&str, T)], key: &str) -> Option<usize>
    requires { Ascends pairs.now }
    ensures goes { IfSome result (λ at. GoesAt key.now at pairs.now) }
    ensures within { IfSome result (λ at. at ≤ length pairs.now) }
    ensures here { IfNone result (HasKey key.now pairs.now) }
{
    let mut at = pairs.len();
    while at > 0 {
        match key.cmp(pairs[at - 1].0) {
            Ordering::Less => at -= 1,
            Ordering::Equal => return None,
            Ordering::Greater => return Some(at),
        }
    }
    Some(0)
}

/// Puts a pair in its place among pairs whose keys ascend. False, and nothing was put, if there are 64 already, or if
/// one of them has the key. Out of memory, too, the pairs are as they were.
pub fn put<'a, T: Copy>(
    pairs: &mut Vec<(&'a str, T)>,
    key: &'a str,
    value: T,
) -> Result<bool, AllocError>
    requires { Ascends pairs.old.items }
    ensures put { IfOk result (λ b. IsTrue b → IsPutInOrder key.entry value pairs.old.items pairs.new.items) }
    ensures refused { IfOk result
        (λ b. (b ≡ false) ↔ (MOST_PAIRS ≤ length pairs.old.items ⊎ HasKey key.now pairs.old.items)) }
    ensures left { IfOk result (λ b. OnFalse b (pairs.new.items ≡ pairs.old.items)) }
    ensures err { OnErr result (pairs.new.items ≡ pairs.old.items) }
{
    if pairs.len() >= MOST_PAIRS {
        return Ok(false);
    }
    let Some(at) = place_of(pairs.as_slice(), key) else {
        return Ok(false);
    };
    match pairs.insert(at, (key, value)) {
        Ok(()) => Ok(true),
        Err(_) => Err(AllocError),
    }
}
