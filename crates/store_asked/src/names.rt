//! The names of collections, as texts.

ghost use Rattle.std.specs.Prelude.{◌≡◌, ◌++◌, ◌∷◌, [], ℕ, List, OnOk, IsTrue, IsUtf8, IfOk, IfErr, map, string_bytes};
ghost use Rattle.store_table.specs.Names.{has_name};
ghost use Rattle.store_model.specs.Refusal.{refusal};
ghost use Rattle.store_model.specs.declared.error.ErrorKind.TheVariants.{Memory};
ghost use Rattle.bson_store.specs.Export.{bytes_of_each};

use std::alloc::Global;
use store_model::{ErrorKind, StoreError};

/// Puts a name last. Memory if a growth is refused, Database if the name isn't a text.
fn push_text(texts: &mut Vec<String>, name: Vec<u8>) -> Result<(), StoreError>
    ensures added { OnOk result (map string_bytes texts.new.items ≡ map string_bytes texts.old.items
        ++ name.items ∷ []) }
    ensures refused { IsUtf8 name.items → IfErr result (λ e. e ≡ refusal Memory) }
{
    let Ok(text) = String::from_utf8(name) else {
        return Err(StoreError::from(ErrorKind::Database));
    };
    match texts.push(text) {
        Ok(()) => Ok(()),
        Err(_) => Err(StoreError::from(ErrorKind::Memory)),
    }
}

/// Names as texts, in their order.
pub(crate) fn texts_of(alloc: Global, names: Vec<Vec<u8>>) -> Result<Vec<String>, StoreError>
    ensures same { IfOk result (λ texts. map string_bytes texts.items ≡ bytes_of_each names.items) }
    ensures refused { ((n : List ℕ) → IsTrue (has_name names.items n) → IsUtf8 n)
        → IfErr result (λ e. e ≡ refusal Memory) }
{
    let mut texts = Vec::new(alloc);
    for name in names {
        push_text(&mut texts, name)?;
    }
    Ok(texts)
}
