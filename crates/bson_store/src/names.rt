//! The names of collections, as texts.

ghost use Rattle.std.specs.Prelude.{◌≡◌, ◌++◌, ◌∷◌, [], ℕ, List, IsTrue, IsUtf8, map, string_bytes, IfOk, IfErr, OnOk};
ghost use Rattle.store_table.specs.Names.{has_name};
ghost use Rattle.store_model.specs.State.{AreAscending};
ghost use Rattle.store_model.specs.declared.error.ErrorKind.TheVariants.{Memory};
ghost use Rattle.bson_store.specs.Export.{bytes_of_each};
ghost use Rattle.store_model.specs.Refusal.{refusal};

use std::alloc::Global;
use std::collections::BTreeSet;
use store_model::{ErrorKind, StoreError};

/// Puts a name last.
fn add_name(names: &mut Vec<String>, name: Vec<u8>) -> Result<(), StoreError>
    ensures added { OnOk result (map string_bytes names.new.items ≡ map string_bytes names.old.items
        ++ name.items ∷ []) }
    ensures refused { IsUtf8 name.items → IfErr result (λ e. e ≡ refusal Memory) }
{
    let Ok(text) = String::from_utf8(name) else {
        // No store wrote such a name: the disk returns another than was written.
        return Err(StoreError::from(ErrorKind::Database));
    };
    match names.push(text) {
        Ok(()) => Ok(()),
        Err(_) => Err(StoreError::from(ErrorKind::Memory)),
    }
}

/// The names of a set in its order, which is that of their bytes.
pub(crate) fn names_of(alloc: Global, set: BTreeSet<Vec<u8>>) -> Result<Vec<String>, StoreError>
    ensures same { IfOk result (λ names. map string_bytes names.items ≡ bytes_of_each set.keys) }
    ensures ascending { IfOk result (λ names. AreAscending (map string_bytes names.items)) }
    ensures refused { ((n : List ℕ) → IsTrue (has_name set.keys n) → IsUtf8 n)
        → IfErr result (λ e. e ≡ refusal Memory) }
{
    let mut names = Vec::new(alloc);
    for name in set {
        add_name(&mut names, name)?;
    }
    Ok(names)
}
