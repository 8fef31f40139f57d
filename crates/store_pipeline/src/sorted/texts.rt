//! Keys of an order as a text.

ghost use Rattle.std.specs.Prelude.{◌≡◌, ◌==◌, IfOk, map};
ghost use Rattle.std.specs.List.{slice_split};
ghost use Rattle.store_question.specs.Filters.{path_of as path_keys};
ghost use Rattle.store_pipeline.specs.Bodies.{key_of as key_in, keys_of};
ghost use Rattle.store_pipeline.specs.Texts.{key_by, path_in, ReadsKey, ReadsKeys};

use crate::sorted::keys::SortKey;
use std::alloc::{AllocError, Global};

/// The keys of a text such as `price:-1,name`: paths with a comma between them, and a dot between the keys of a path.
/// Behind a path, `:-1` says that the greatest comes first, and `:1`, or nothing, that the least does. Every text is one
/// of keys, the empty one of the empty key. The error is a refused growth.
pub fn sort_keys_of(alloc: Global, text: &str) -> Result<Vec<SortKey>, AllocError>
    ensures { IfOk result (λ keys. ReadsKeys text.now (keys_of keys.items)) }
{
    let parts = parts_at_commas(alloc, text)?;
    let mut keys = Vec::new(alloc);
    for part in &parts {
        keys.push(key_of(alloc, part)?)?;
    }
    Ok(keys)
}

/// The parts of a text between its commas, at least one; a part can be empty. The error is a refused growth.
fn parts_at_commas(alloc: Global, text: &str) -> Result<Vec<&str>, AllocError>
    ensures { IfOk result (λ parts. map (λ x. x.now) parts.items ≡ slice_split (λ b. b == 0x2C) text.now) }
{
    text.split(',').collect(alloc)
}

/// The parts of a text between its dots, at least one; a part can be empty. The error is a refused growth.
fn parts_at_dots(alloc: Global, text: &str) -> Result<Vec<&str>, AllocError>
    ensures { IfOk result (λ parts. map (λ x. x.now) parts.items ≡ path_in text.now) }
{
    text.split('.').collect(alloc)
}

/// The key of one part of the text: a path, and behind it `:-1`, `:1` or nothing. The error is a refused growth.
fn key_of(alloc: Global, text: &str) -> Result<SortKey, AllocError>
    ensures { IfOk result (λ key. ReadsKey text.now (key_in key)) }
{
    if let Some(path) = text.strip_suffix(":-1") {
        return sort_key_by(alloc, path, true);
    }
    match text.strip_suffix(":1") {
        Some(path) => sort_key_by(alloc, path, false),
        None => sort_key_by(alloc, text, false),
    }
}

/// The key of a path, with a dot between its keys. The error is a refused growth.
pub fn sort_key_by(alloc: Global, text: &str, descending: bool) -> Result<SortKey, AllocError>
    ensures { IfOk result (λ key. key_in key ≡ key_by text.now descending) }
{
    let path = path_of(alloc, text)?;
    Ok(SortKey { path, descending })
}

/// The keys of a path, of which each can be empty: the empty text has one such key. The error is a refused growth.
fn path_of(alloc: Global, text: &str) -> Result<Vec<String>, AllocError>
    ensures { IfOk result (λ path. path_keys path.items ≡ path_in text.now) }
{
    let parts = parts_at_dots(alloc, text)?;
    let mut path = Vec::new(alloc);
    for part in &parts {
        path.push(String::from_str(alloc, part)?)?;
    }
    Ok(path)
}
