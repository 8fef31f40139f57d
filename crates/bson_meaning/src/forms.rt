//! The normal form of a tree.

ghost use Rattle.std.specs.Prelude.{◌≡◌, map, IfOk, IsUtf8};
ghost use Rattle.bson_base.specs.Kinds.{IsRangedScalar, IsSound};
ghost use Rattle.bson_base.specs.Value.{document as tree, EachItem, EachMember, ItemsHaveDistinctKeys, MembersHaveDistinctKeys};
ghost use Rattle.bson_model.specs.Rest.{owned_member};
ghost use Rattle.bson_model.specs.View.{view, pairs_of, items_of, content};
ghost use Rattle.bson_meaning.specs.Meaning.{norm, norm_items, norm_members};
ghost use Rattle.bson_meaning.specs.Pairs.{normal_pair};
ghost use Rattle.bson_meaning.specs.Sames.{IsScalar};

use crate::facts;
use crate::scalars::{Zeros, normal_decimal, normal_double, normal_subtype};
use bson_model::{Binary, Bson, Document, JavaScriptCodeWithScope, Regex};
use std::alloc::{AllocError, Global};

/// The normal form of a value: a NaN is the quiet one of its sign, a decimal the first form of what it means, the
/// options of a regular expression are in order, and a subtype is what its byte stands for. The error is a refused
/// growth; the value is dropped then. As it goes through the whole value, it shows that the value is sound.
#[cycle(normal)]
pub fn normalize(alloc: Global, value: Bson) -> Result<Bson, AllocError>
    ensures normal { IfOk result (λ v. view v ≡ norm (view value)) }
    ensures sound { IfOk result (λ _. IsSound (view value)) }
{
    match value {
        Bson::Array(items) => Ok(Bson::Array(normal_items(alloc, items)?)),
        Bson::Document(document) => Ok(Bson::Document(normalize_document(alloc, document)?)),
        Bson::JavaScriptCodeWithScope(code) => {
            let JavaScriptCodeWithScope { code, scope } = code;
            facts::is_utf8(code.as_str());
            let scope = normalize_document(alloc, scope)?;
            Ok(Bson::JavaScriptCodeWithScope(JavaScriptCodeWithScope { code, scope }))
        }
        scalar => {
            facts::ranged_scalar(&scalar);
            normal_scalar(alloc, scalar)
        }
    }
}

/// The normal forms of the items, in their order. The error is a refused growth; the items are dropped then.
#[cycle(normal)]
fn normal_items(alloc: Global, items: Vec<Bson>) -> Result<Vec<Bson>, AllocError>
    ensures normal { IfOk result (λ v. items_of (map view v.items) ≡ norm_items (items_of (map view items.items))) }
    ensures ranged { IfOk result (λ _. EachItem IsUtf8 IsRangedScalar (items_of (map view items.items))) }
    ensures distinct { IfOk result (λ _. ItemsHaveDistinctKeys (items_of (map view items.items))) }
{
    let mut normal = Vec::with_capacity(alloc, items.len())?;
    for item in items {
        normal.push(normalize(alloc, item)?)?;
    }
    Ok(normal)
}

/// The normal form of a document, which is one too. The error is a refused growth; the document is dropped then. As it
/// goes through the whole document, it shows that the document is sound.
#[cycle(normal)]
pub fn normalize_document(alloc: Global, document: Document) -> Result<Document, AllocError>
    ensures normal { IfOk result (λ d. content d ≡ norm_members (content document)) }
    ensures sound { IfOk result (λ _. IsSound (tree (content document))) }
{
    let pairs = normal_pairs(alloc, document)?;
    Document::from_pairs(alloc, pairs)
}

/// The keys of a document in their order, each with the normal form of its value. The error is a refused growth; the
/// document is dropped then.
#[cycle(normal)]
fn normal_pairs(alloc: Global, document: Document) -> Result<Vec<(String, Bson)>, AllocError>
    ensures normal { IfOk result (λ v. map owned_member v.items ≡ map normal_pair (pairs_of document)) }
    ensures ranged { IfOk result (λ _. EachMember IsUtf8 IsRangedScalar (content document)) }
    ensures distinct { IfOk result (λ _. MembersHaveDistinctKeys (content document)) }
{
    bson_model::laws::distinct_keys_of_level(&document);
    let mut pairs = Vec::with_capacity(alloc, document.len())?;
    for (key, value) in document {
        facts::is_utf8(key.as_str());
        pairs.push((key, normalize(alloc, value)?))?;
    }
    Ok(pairs)
}

/// The normal form of a value that is no array, document or code with scope; only that of a double, a regular
/// expression, a binary or a decimal can differ from the value. The error is a refused growth; the value is dropped
/// then.
fn normal_scalar(alloc: Global, value: Bson) -> Result<Bson, AllocError>
    requires { IsScalar (view value) }
    ensures { IfOk result (λ v. view v ≡ norm (view value)) }
{
    match value {
        Bson::Double(double) => Ok(Bson::Double(normal_double(Zeros::Joined, double))),
        Bson::RegularExpression(regex) => {
            let Regex { pattern, options } = regex;
            Ok(Bson::RegularExpression(Regex::new(alloc, pattern, options)?))
        }
        Bson::Binary(binary) => {
            let Binary { subtype, bytes } = binary;
            let subtype = normal_subtype(subtype);
            Ok(Bson::Binary(Binary { subtype, bytes }))
        }
        Bson::Decimal128(decimal) => Ok(Bson::Decimal128(normal_decimal(&decimal))),
        other => Ok(other),
    }
}
