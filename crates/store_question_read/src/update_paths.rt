//! Paths of an update.

ghost use Rattle.std.specs.Prelude.{◌≡◌, ◌&&◌, map};
ghost use Rattle.std.specs.List.{list_all, list_any};
ghost use Rattle.store_update.specs.Plan.{path_of, plan_of};
ghost use Rattle.store_question_read.specs.UpdateOutcome.{Gives};
ghost use Rattle.store_question_read.specs.Read.{is_key, meets, path as path_at, touches};

use crate::keys_of;
use crate::update_error::{ReadError, Reason, at};
use std::alloc::Global;
use store_update::{Step, is_of_id};

/// Whether one of two paths is the beginning of the other.
pub(crate) fn meets(path: &[String], other: &[String]) -> bool
    ensures { result ≡ meets (path_of path.now) (path_of other.now) }
{
    let Some((key, rest)) = path.split_first() else {
        return true;
    };
    let Some((name, others)) = other.split_first() else {
        return true;
    };
    key.as_str() == name.as_str() && meets(rest, others)
}

/// Whether a step is for a path that meets this one.
fn touches(path: &[String], step: &Step) -> bool
    ensures { result ≡ touches (path_of path.now) (plan_of step.now) }
{
    match step {
        Step::At(first, _) => meets(first.as_slice(), path),
        Step::Rename(first, to) => meets(first.as_slice(), path) || meets(to.as_slice(), path),
    }
}

/// Whether one of the steps is for a path that is this one, its beginning, or one that begins with it.
fn is_touched(path: &[String], steps: &[Step]) -> bool
    ensures { result ≡ list_any (touches (path_of path.now)) (map plan_of steps.now) }
{
    for step in steps {
        if touches(path, step) {
            return true;
        }
    }
    false
}

/// Whether a key can stand in the path of an update: it isn't empty, and doesn't begin with `$`.
fn is_key(key: &str) -> bool
    ensures { result ≡ is_key key.now }
{
    match key.as_bytes() {
        [] => false,
        [first, ..] => *first != b'$',
    }
}

/// Whether each of the keys can stand in the path of an update: none is empty or begins with `$`.
fn are_keys(keys: &[String]) -> bool
    ensures { result ≡ list_all is_key (path_of keys.now) }
{
    for key in keys {
        if !is_key(key.as_str()) {
            return false;
        }
    }
    true
}

/// The keys of a text, under an operator, if they are a path that no step touches. `At`, with the reason, if one of them
/// is empty or begins with `$`, if it is a path of the `_id`, or if a step touches it; `Memory` if a growth was refused.
pub fn path_at(
    alloc: Global,
    name: &str,
    path: &str,
    steps: &[Step],
) -> Result<Vec<String>, ReadError>
    ensures { Gives (λ v. path_of v.items) result (path_at name.now path.now (map plan_of steps.now)) }
{
    let Ok(keys) = keys_of(alloc, path) else {
        return Err(ReadError::Memory);
    };
    if !are_keys(keys.as_slice()) {
        return Err(at(alloc, Reason::Path, name, path));
    }
    if is_of_id(keys.as_slice()) {
        return Err(at(alloc, Reason::Id, name, path));
    }
    if is_touched(keys.as_slice(), steps) {
        return Err(at(alloc, Reason::Conflict, name, path));
    }
    Ok(keys)
}
