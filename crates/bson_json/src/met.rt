//! The keys of the documents around what is printed, and what is known of their members.

ghost use Rattle.std.specs.Prelude.{◌≡◌, ◌∷◌, ◌++◌, [], drop, false, bytes_eq, IsTrue};
ghost use Rattle.bson_bytes.specs.Met.{IsNew};

/// How many keys of one document are compared with later ones.
const MOST_KEYS: usize = 96;

/// The keys that were met, of all documents around a place, the innermost last. There is one of them, since making one
/// for each document inside would take longer than printing it.
pub(crate) type MetKeys<'a> = Vec<&'a str>;

/// Whether two keys may be the same. Nearly all that differ have another length, or another first or last byte.
fn is_like(key: &[u8], other: &[u8]) -> bool
    ensures { result ≡ false → other.now ≡ key.now → ⊥ }
{
    let len = key.len();
    if len != other.len() {
        return false;
    }
    if len == 0 {
        return true;
    }
    if key[0] != other[0] {
        return false;
    }
    key[len - 1] == other[len - 1]
}

/// Whether two keys are the same.
fn is_same(key: &str, other: &str) -> bool
    ensures { result ≡ false → bytes_eq other.now key.now ≡ false }
{
    if !is_like(key.as_bytes(), other.as_bytes()) {
        return false;
    }
    other == key
}

/// Whether none of the keys is this one.
fn is_new(key: &str, keys: &[&str]) -> bool
    ensures { IsTrue result → IsNew key.now keys.now }
{
    for other in keys {
        if is_same(key, other) {
            return false;
        }
    }
    true
}

/// Takes the next key of a document, behind `outer` keys of those around it. True: nothing of what came before it is to
/// be settled, nor of its value, and the key is none of those before it.
pub(crate) fn meet<'a>(
    met: &mut MetKeys<'a>,
    outer: usize,
    key: &'a str,
    is_settled: bool,
    value_is_settled: bool,
) -> bool
    ensures { IsTrue result → IsTrue is_settled × IsTrue value_is_settled × IsNew key.now (drop outer met.old.items)
        × (met.new.items ≡ met.old.items ++ key.entry ∷ []) }
{
    if !is_settled || !value_is_settled {
        return false;
    }
    let Some((_, own)) = met.as_slice().split_at_checked(outer) else {
        return false;
    };
    if own.len() >= MOST_KEYS || !is_new(key, own) {
        return false;
    }
    match met.push(key) {
        Ok(()) => true,
        Err(_) => false,
    }
}

/// Whether both are.
pub(crate) fn both(is_settled: bool, value_is_settled: bool) -> bool
    ensures { IsTrue result → IsTrue is_settled × IsTrue value_is_settled }
{
    is_settled && value_is_settled
}
