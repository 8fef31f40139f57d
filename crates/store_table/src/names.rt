//! The names of the collections.

ghost use Rattle.std.specs.Prelude.{◌≡◌, ◌||◌, ℕ, List, IsTrue, IfOk, bytes_eq};
ghost use Rattle.store_table.specs.Names.{has_name};

use crate::visiting::Visit;
use std::alloc::{AllocError, Global};
use std::collections::BTreeSet;

/// Adds a copy of a name, which may be there already. The error is a refused growth.
fn add_name(names: &mut BTreeSet<Vec<u8>>, alloc: Global, name: &[u8]) -> Result<(), AllocError>
    ensures { IfOk result (λ _. (c : List ℕ) → has_name names.new.keys c ≡ bytes_eq c name.now ||
        has_name names.old.keys c) }
{
    let key = Vec::from_slice(alloc, name)?;
    names.insert(key)?;
    Ok(())
}

/// Takes each value as a name. It stops when memory runs out.
#[derive(Drop)]
pub(crate) struct Names {
    pub(crate) names: BTreeSet<Vec<u8>>,
    pub(crate) failed: bool,
    pub(crate) alloc: Global,
}

impl Visit for Names {
    ghost use Rattle.std.specs.Prelude.{◌≡◌, ℕ, List, false, IsTrue};
    ghost use Rattle.std.specs.List.{list_any};
    ghost use Rattle.store_table.specs.Names.{has_name, is_same_name};

    ghost took = { λ _ v names. v.failed ≡ false → (c : List ℕ) → has_name v.names.keys c ≡ list_any (is_same_name c) names };

    ghost is_done = { λ v. IsTrue v.failed };

    fn visit(&mut self, name: &[u8]) -> bool {
        match add_name(&mut self.names, self.alloc, name) {
            Ok(()) => true,
            Err(_) => {
                self.failed = true;
                false
            }
        }
    }
}
