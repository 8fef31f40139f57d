//! Paths as a text.

ghost use Rattle.std.specs.Prelude.{◌≡◌, ◌==◌, IfErr, IfOk, OnOk, map};
ghost use Rattle.std.specs.List.{list_all, list_any, slice_split};
ghost use Rattle.store_pipeline.specs.FieldTexts.{AreNames, AreNoNames, CanMix, CannotMix, have_keys as all_keys, is_id as is_of_id, is_key as is_name, lie_apart as all_apart, meets as meet, OrMemory, paths_in};
ghost use Rattle.store_pipeline.specs.Views.{paths_of as paths_seen};
ghost use Rattle.store_question.specs.Filters.{path_of};
ghost use Rattle.store_pipeline.specs.Texts.{path_in as keys_in};

use crate::sorted::error::PathsError;
use crate::sorted::paths::begins;
use crate::sorted::sort_key_by;
use std::alloc::{AllocError, Global};

/// The paths of a text such as `name,address.city`, with a comma between them and a dot between the keys of a path.
/// Errors as of `check_paths`, and `Memory` if a growth is refused.
pub fn paths_of(alloc: Global, text: &str) -> Result<Vec<Vec<String>>, PathsError>
    ensures paths { IfOk result (λ paths. paths_seen paths.items ≡ paths_in text.now) }
    ensures names { OnOk result (AreNames (paths_in text.now)) }
    ensures refused { IfErr result (OrMemory (AreNoNames (paths_in text.now))) }
{
    let paths = read_paths(alloc, text)?;
    check_paths(paths.as_slice())?;
    Ok(paths)
}

/// Whether paths can name fields. `Key` if a key is empty or begins with `$`, or else `Collision` if one path is the
/// beginning of another, or the same. Takes no memory.
pub fn check_paths(paths: &[Vec<String>]) -> Result<(), PathsError>
    ensures names { OnOk result (AreNames (paths_seen paths.now)) }
    ensures refused { IfErr result (AreNoNames (paths_seen paths.now)) }
{
    if !have_keys(paths) {
        return Err(PathsError::Key);
    }
    if !lie_apart(paths) {
        return Err(PathsError::Collision);
    }
    Ok(())
}

/// Whether fields can be kept and others left out. `Mixed` if others than the `_id` are left out, or else `Collision` if
/// a path of the kept ones begins there. Takes no memory.
pub fn check_mixed(kept: &[Vec<String>], left_out: &[Vec<String>]) -> Result<(), PathsError>
    ensures mix { OnOk result (CanMix (paths_seen kept.now) (paths_seen left_out.now)) }
    ensures refused { IfErr result (CannotMix (paths_seen kept.now) (paths_seen left_out.now)) }
{
    if !is_id(left_out) {
        return Err(PathsError::Mixed);
    }
    if begins("_id", kept) {
        return Err(PathsError::Collision);
    }
    Ok(())
}

/// Whether there is one path, and it is `_id` itself: no path below it counts.
fn is_id(paths: &[Vec<String>]) -> bool
    ensures { result ≡ is_of_id (paths_seen paths.now) }
{
    match paths {
        [path] => match path.as_slice() {
            [key] => key.as_str() == "_id",
            _ => false,
        },
        _ => false,
    }
}

/// The paths of a text, not yet tested: some keys may be empty, and paths may meet. The error is a refused growth.
fn read_paths(alloc: Global, text: &str) -> Result<Vec<Vec<String>>, AllocError>
    ensures { IfOk result (λ paths. paths_seen paths.items ≡ paths_in text.now) }
{
    let parts = parts_at_commas(alloc, text)?;
    let mut paths = Vec::new(alloc);
    for part in &parts {
        paths.push(path_in(alloc, part)?)?;
    }
    Ok(paths)
}

/// The parts of a text between its commas, at least one; a part can be empty. The error is a refused growth.
fn parts_at_commas(alloc: Global, text: &str) -> Result<Vec<&str>, AllocError>
    ensures { IfOk result (λ parts. map (λ x. x.now) parts.items ≡ slice_split (λ b. b == 0x2C) text.now) }
{
    text.split(',').collect(alloc)
}

/// The keys of one path, split at its dots; a key can be empty. The error is a refused growth.
fn path_in(alloc: Global, text: &str) -> Result<Vec<String>, AllocError>
    ensures { IfOk result (λ path. path_of path.items ≡ keys_in text.now) }
{
    Ok(sort_key_by(alloc, text, false)?.path)
}

/// Whether a key can be part of a path: it isn't empty, and doesn't begin with `$`.
fn is_key(key: &str) -> bool
    ensures { result ≡ is_name key.now }
{
    match key.as_bytes() {
        [] => false,
        [first, ..] => *first != b'$',
    }
}

/// Whether each of these can be a key of a path. A path without keys passes.
fn are_keys(keys: &[String]) -> bool
    ensures { result ≡ list_all is_name (path_of keys.now) }
{
    for key in keys {
        if !is_key(key.as_str()) {
            return false;
        }
    }
    true
}

/// Whether no path has a key that is empty or begins with `$`.
fn have_keys(paths: &[Vec<String>]) -> bool
    ensures { result ≡ all_keys (paths_seen paths.now) }
{
    for path in paths {
        if !are_keys(path.as_slice()) {
            return false;
        }
    }
    true
}

/// Whether one of two paths is the beginning of the other.
fn meets(path: &[String], other: &[String]) -> bool
    ensures { result ≡ meet (path_of path.now) (path_of other.now) }
{
    let Some((key, rest)) = path.split_first() else {
        return true;
    };
    let Some((name, others)) = other.split_first() else {
        return true;
    };
    key.as_str() == name.as_str() && meets(rest, others)
}

/// Whether a path and one of the others are the same, or one of the two is the beginning of the other.
fn meets_any(path: &[String], others: &[Vec<String>]) -> bool
    ensures { result ≡ list_any (meet (path_of path.now)) (paths_seen others.now) }
{
    for other in others {
        if meets(path, other.as_slice()) {
            return true;
        }
    }
    false
}

/// Whether no two of the paths meet.
fn lie_apart(paths: &[Vec<String>]) -> bool
    ensures { result ≡ all_apart (paths_seen paths.now) }
{
    let mut left = paths;
    while let Some((path, others)) = left.split_first() {
        if meets_any(path.as_slice(), others) {
            return false;
        }
        left = others;
    }
    true
}
