//! Paths, and their rests below a key.

ghost use Rattle.std.specs.Prelude.{◌≡◌, IfOk};
ghost use Rattle.std.specs.Option.{option_map};
ghost use Rattle.store_pipeline.specs.Fields.{is_begun, names_it as names, rest_of as rest_below, rests as rests_below};
ghost use Rattle.store_pipeline.specs.Views.{paths_lent, paths_of};
ghost use Rattle.store_question.specs.Filters.{path_of};

use std::alloc::{AllocError, Global};

/// The paths, each lent. The error is a refused growth.
pub(crate) fn lent<'a>(
    alloc: Global,
    paths: &'a [Vec<String>],
) -> Result<Vec<&'a [String]>, AllocError>
    ensures { IfOk result (λ all. paths_lent all.items ≡ paths_of paths.now) }
{
    let mut all = Vec::new(alloc);
    for path in paths {
        all.push(path.as_slice())?;
    }
    Ok(all)
}

/// The rest of a path that begins with the key.
fn rest_of<'a>(key: &str, path: &'a [String]) -> Option<&'a [String]>
    ensures { option_map (λ rest. path_of rest.now) result ≡ rest_below key.now (path_of path.now) }
{
    let (first, rest) = path.split_first()?;
    if key == first.as_str() {
        Some(rest)
    } else {
        None
    }
}

/// The rests of the paths that begin with the key. The error is a refused growth.
pub(crate) fn rests<'a>(
    alloc: Global,
    key: &str,
    paths: &[&'a [String]],
) -> Result<Vec<&'a [String]>, AllocError>
    ensures { IfOk result (λ found. paths_lent found.items ≡ rests_below key.now (paths_lent paths.now)) }
{
    let mut found = Vec::new(alloc);
    for path in paths {
        if let Some(rest) = rest_of(key, path) {
            found.push(rest)?;
        }
    }
    Ok(found)
}

/// Whether one of the rests has no key.
pub(crate) fn names_it(rests: &[&[String]]) -> bool
    ensures { result ≡ names (paths_lent rests.now) }
{
    for rest in rests {
        if rest.is_empty() {
            return true;
        }
    }
    false
}

/// Whether one of the paths begins with the key.
pub(crate) fn begins(key: &str, paths: &[Vec<String>]) -> bool
    ensures { result ≡ is_begun key.now (paths_of paths.now) }
{
    for path in paths {
        if rest_of(key, path.as_slice()).is_some() {
            return true;
        }
    }
    false
}
