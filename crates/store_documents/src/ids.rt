//! Keys of ids.

ghost use Rattle.std.specs.Prelude.{◌≡◌, ◌<◌, length, IfOk, Err};
ghost use Rattle.bson_base.specs.Kinds.{IsPlain, IsSound};
ghost use Rattle.bson_frame.specs.Frame.{length_limit};
ghost use Rattle.bson_meaning.specs.Meaning.{key};
ghost use Rattle.bson_meaning.specs.declared.key.KeyError.TheVariants as key_errors;
ghost use Rattle.bson_model.specs.View.{view};
ghost use Rattle.store_model.specs.Table.{only_id};
ghost use Rattle.store_documents.specs.Bodies.{IsKeyOf};

use bson_meaning::{KeyError, meaning_key_of_element};
use bson_model::Bson;
use std::alloc::Global;

/// The key that the identity of a document is under.
pub const ID_KEY: &str = "_id";

/// The key of an id: the bytes of the normal form of a document that has this `_id` alone, with its keys in order. A
/// kept document has the id exactly if the key of its own is the same.
///
/// `NotPlain` if a 00 is in a key, a pattern or options of the id, `TooLong` if the key would be over 2147483647
/// bytes; no kept document has such an id. `Memory` if a growth was refused.
pub fn key_of_id(alloc: Global, id: &Bson) -> Result<Vec<u8>, KeyError>
    ensures ok { IfOk result (λ k. IsKeyOf k.items (view id.now)) }
    ensures sound { IsSound (view id.now) }
    ensures not_plain { result ≡ Err key_errors.NotPlain → IsPlain (view id.now) → ⊥ }
    ensures too_long { result ≡ Err key_errors.TooLong
        → length_limit < length (key (only_id (view id.now))) }
{
    meaning_key_of_element(alloc, ID_KEY, id)
}
