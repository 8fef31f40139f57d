//! Which paths the options of a command line take: what is likely to be meant as something else than a path is refused.

ghost use Rattle.std.specs.Prelude.{◌≡◌, ◌&&◌};
ghost use Rattle.std.specs.List.{list_all, list_any};
ghost use Rattle.store_pipeline.specs.Views.{paths_of as paths_seen};
ghost use Rattle.store_question.specs.Filters.{path_of as path_view};
ghost use Rattle.store_pipeline.specs.Bodies.{keys_of};
ghost use Rattle.fallowtime_requests.specs.Plain.{are_plain, are_plainly, begins_signed, is_odd, is_plain, is_plain_key, is_sign};

use store_pipeline::sorted::SortKey;

/// Whether a byte is one that no key of a plain path has: a space, a double quote, a colon or a brace.
fn is_odd(byte: u8) -> bool
    ensures { result ≡ is_odd byte }
{
    matches!(byte, b' ' | b'"' | b':' | b'{' | b'}')
}

/// Whether one of the bytes is odd.
fn has_odd(bytes: &[u8]) -> bool
    ensures { result ≡ list_any is_odd bytes.now }
{
    for byte in bytes {
        if is_odd(*byte) {
            return true;
        }
    }
    false
}

/// Whether a key isn't empty, and has no odd byte.
fn is_plain_key(key: &str) -> bool
    ensures { result ≡ is_plain_key key.now }
{
    !key.is_empty() && !has_odd(key.as_bytes())
}

/// Whether each of the keys is plain.
fn are_plain_keys(keys: &[String]) -> bool
    ensures { result ≡ list_all is_plain_key (path_view keys.now) }
{
    for key in keys {
        if !is_plain_key(key.as_str()) {
            return false;
        }
    }
    true
}

/// Whether a byte is a hyphen or a plus.
fn is_sign(byte: u8) -> bool
    ensures { result ≡ is_sign byte }
{
    matches!(byte, b'-' | b'+')
}

/// Whether a key begins with a hyphen or a plus.
fn begins_signed(key: &str) -> bool
    ensures { result ≡ begins_signed key.now }
{
    match key.as_bytes() {
        [] => false,
        [first, ..] => is_sign(*first),
    }
}

/// Whether a path is plain: it doesn't begin with a hyphen or a plus, no key of it is empty, and none has a space, a
/// double quote, a colon or a brace.
fn is_plain(path: &[String]) -> bool
    ensures { result ≡ is_plain (path_view path.now) }
{
    let Some((first, _)) = path.split_first() else {
        return false;
    };
    !begins_signed(first.as_str()) && are_plain_keys(path)
}

/// Whether each of the paths is plain.
fn are_plain(paths: &[Vec<String>]) -> bool
    ensures { result ≡ are_plain (paths_seen paths.now) }
{
    for path in paths {
        if !is_plain(path.as_slice()) {
            return false;
        }
    }
    true
}

/// Whether the paths of fields that are kept, and of those that are left out, are all plain.
pub(crate) fn both_plain(kept: &[Vec<String>], left_out: &[Vec<String>]) -> bool
    ensures { result ≡ (are_plain (paths_seen kept.now) && are_plain (paths_seen left_out.now)) }
{
    are_plain(kept) && are_plain(left_out)
}

/// Whether the path of each key of an order is plain.
pub(crate) fn are_plainly(keys: &[SortKey]) -> bool
    ensures { result ≡ are_plainly (keys_of keys.now) }
{
    for key in keys {
        if !is_plain(key.path.as_slice()) {
            return false;
        }
    }
    true
}
