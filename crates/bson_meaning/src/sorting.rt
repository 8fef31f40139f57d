//! Documents with their keys in order.

ghost use Rattle.std.specs.Prelude.{◌≡◌, map, string_bytes, IfOk};
ghost use Rattle.std.specs.Cmp.Lexicographic.{slice_cmp};
ghost use Rattle.std.specs.List.Sorted.{IsPermutation, IsSortedByKey};
ghost use Rattle.std.specs.Ordering.{nat_cmp};
ghost use Rattle.bson_model.specs.Rest.{owned_member};
ghost use Rattle.bson_model.specs.View.{view, pairs_of, items_of, content};
ghost use Rattle.bson_meaning.specs.Meaning.{asc, asc_items, asc_members};
ghost use Rattle.bson_meaning.specs.Pairs.{sorted_pair};

use bson_model::{Bson, Document, JavaScriptCodeWithScope};
use std::alloc::{AllocError, Global};

/// The document with its keys ascending by their bytes, and the same of each document and scope inside; arrays keep
/// their order. The error is a refused growth; the document is dropped then.
#[cycle(sorted)]
pub fn sorted(alloc: Global, document: Document) -> Result<Document, AllocError>
    ensures { IfOk result (λ d. content d ≡ asc_members (content document)) }
{
    bson_model::laws::distinct_keys_of_level(&document);
    let mut pairs = sorted_pairs(alloc, document)?;
    sort_by_keys(&mut pairs);
    Document::from_pairs(alloc, pairs)
}

/// The pairs in their order, with the keys inside their values ascending.
#[cycle(sorted)]
fn sorted_pairs(alloc: Global, document: Document) -> Result<Vec<(String, Bson)>, AllocError>
    ensures { IfOk result (λ v. map owned_member v.items ≡ map sorted_pair (pairs_of document)) }
{
    let mut pairs = Vec::with_capacity(alloc, document.len())?;
    for (key, value) in document {
        pairs.push((key, sort_keys(alloc, value)?))?;
    }
    Ok(pairs)
}

/// The value with the keys of each document and scope in it ascending by their bytes; arrays keep their order. The
/// error is a refused growth; the value is dropped then.
#[cycle(sorted)]
pub fn sort_keys(alloc: Global, value: Bson) -> Result<Bson, AllocError>
    ensures { IfOk result (λ v. view v ≡ asc (view value)) }
{
    match value {
        Bson::Array(items) => Ok(Bson::Array(sorted_items(alloc, items)?)),
        Bson::Document(document) => Ok(Bson::Document(sorted(alloc, document)?)),
        Bson::JavaScriptCodeWithScope(code) => {
            let JavaScriptCodeWithScope { code, scope } = code;
            let scope = sorted(alloc, scope)?;
            Ok(Bson::JavaScriptCodeWithScope(JavaScriptCodeWithScope { code, scope }))
        }
        scalar => Ok(scalar),
    }
}

/// The items in their order, the keys inside them ascending. The error is a refused growth; the items are dropped then.
#[cycle(sorted)]
fn sorted_items(alloc: Global, items: Vec<Bson>) -> Result<Vec<Bson>, AllocError>
    ensures { IfOk result (λ v. items_of (map view v.items) ≡ asc_items (items_of (map view items.items))) }
{
    let mut sorted = Vec::with_capacity(alloc, items.len())?;
    for item in items {
        sorted.push(sort_keys(alloc, item)?)?;
    }
    Ok(sorted)
}

/// Puts the pairs in the order of their keys, ascending by their bytes. Pairs of equal keys may end up in any order.
fn sort_by_keys(pairs: &mut Vec<(String, Bson)>)
    ensures permutation { IsPermutation pairs.old.items pairs.new.items }
    ensures sorted { IsSortedByKey (λ p. string_bytes p.0) (slice_cmp nat_cmp) pairs.new.items }
{
    pairs.sort_unstable_by(|a, b| a.0.cmp(&b.0));
}
