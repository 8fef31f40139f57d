//! The written keys of a call's rows.

use std::alloc::{AllocError, Global};
use std::collections::BTreeSet;

/// The keys that rows before have, to find the first row that comes again.
#[derive(Drop)]
pub struct Keys<'a> {
    met: BTreeSet<&'a [u8]>,
}

impl<'a> Keys<'a> {
    ghost use Rattle.std.specs.Prelude.{◌≡◌, ◌||◌, ℕ, List, not, IsTrue, IfOk, OnErr, false};
    ghost use Rattle.std.specs.Str.{bytes_eq};
    ghost use Rattle.store_documents.specs.Keys.{has_met};

    /// No keys.
    pub fn new(alloc: Global) -> Keys<'a>
        ensures { (k : List ℕ) → has_met result k ≡ false }
    {
        Keys {
            met: BTreeSet::new(alloc),
        }
    }

    /// Adds a key, and says whether it wasn't there yet. If memory runs out, the keys are as before.
    pub fn meet(&mut self, key: &'a [u8]) -> Result<bool, AllocError>
        ensures new { IfOk result (λ is_new. is_new ≡ not (has_met self.old key.now)) }
        ensures added { IfOk result (λ is_new. IsTrue is_new
            → (k : List ℕ) → has_met self.new k ≡ bytes_eq k key.now || has_met self.old k) }
        ensures err { OnErr result ((k : List ℕ) → has_met self.new k ≡ has_met self.old k) }
    {
        let is_new = self.met.insert(key)?;
        Ok(is_new)
    }
}
