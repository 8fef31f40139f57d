//! Which keys the elements of a document may have.

ghost use Rattle.std.specs.Prelude.{◌≡◌, false, true, IsTrue};
ghost use Rattle.bson_model.specs.JsonKeys.{is_reserved};
ghost use Rattle.bson_json.specs.declared.keys.Keys.TheVariants.{Unreserved};

use bson_model::extjson::is_reserved_key;

/// What the keys of a document may be.
#[derive(Clone, Copy)]
pub(crate) enum Keys {
    /// All that there are: at the top, and in a scope.
    Free,
    /// None that is reserved, such as `$oid`: below the top.
    Unreserved,
}

/// True: the key is one of them.
pub(crate) fn is_among(key: &str, keys: Keys) -> bool
    ensures among { IsTrue result → keys ≡ Unreserved → is_reserved key.now ≡ false }
    ensures other { result ≡ false → (keys ≡ Unreserved) × (is_reserved key.now ≡ true) }
{
    match keys {
        Keys::Free => true,
        Keys::Unreserved => !is_reserved_key(key),
    }
}
