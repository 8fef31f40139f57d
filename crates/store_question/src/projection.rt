//! The elements of a document under listed keys.

ghost use Rattle.std.specs.Prelude.{◌≡◌, ◌≤◌, ◌++◌, length, List, ℕ, string_bytes, IfOk, OnOk};
ghost use Rattle.std.specs.List.{list_any};
ghost use Rattle.std.specs.Str.{bytes_eq};
ghost use Rattle.bson_base.specs.Value.{Members};
ghost use Rattle.bson_bytes.specs.Encode.{encode, members_bytes};
ghost use Rattle.bson_raw.specs.View.{bytes_of};
ghost use Rattle.store_question.specs.Filters.{path_of};
ghost use Rattle.store_question.specs.Views.{ComeBack, OfWritten};
ghost use Rattle.store_model.specs.State.{only};

use bson_bytes::put::put_length;
use bson_frame::frame;
use bson_raw::RawDocument;
use std::alloc::{AllocError, Global};

/// The bytes of a document of the elements whose keys are listed, in the order that they have in this one. The error is
/// a refused growth.
///
/// In bytes that are no document's written form, the elements before the first fault count, repeated keys included.
pub fn project(
    alloc: Global,
    document: RawDocument<'_>,
    keys: &[String],
) -> Result<Vec<u8>, AllocError>
    ensures { OfWritten (bytes_of document.entry) (λ d. IfOk result (λ out. out.items ≡ encode (only (path_of keys.now) d))) }
{
    let bytes = document.as_bytes();
    let mut out = Vec::from_slice(alloc, &[0; 4])?;
    copy_listed(&bytes[4..bytes.len() - 1], keys, &mut out)?;
    out.push(0)?;
    let Ok(()) = put_length(&mut out, 0) else {
        unreachable!()
    };
    Ok(out)
}

/// Appends the elements whose keys are listed. The error is a refused growth.
fn copy_listed(elements: &[u8], keys: &[String], out: &mut Vec<u8>) -> Result<(), AllocError>
    ensures listed { (ms : Members) → elements.now ≡ members_bytes ms → ComeBack ms
        → OnOk result (out.new.items ≡ out.old.items ++ members_bytes (only (path_of keys.now) ms)) }
    ensures few { OnOk result ((more : List ℕ) × (out.new.items ≡ out.old.items ++ more) × (length more ≤ length elements.now)) }
{
    let mut left = elements;
    while let Ok(first) = frame(left) {
        if is_listed(first.key, keys) {
            let (element, _) = left.split_at(left.len() - first.rest.len());
            out.extend_from_slice(element)?;
        }
        left = first.rest;
    }
    Ok(())
}

/// Whether the list has the key, byte for byte: a dot in it is a byte like any other.
fn is_listed(key: &str, keys: &[String]) -> bool
    ensures { result ≡ list_any (λ k. bytes_eq key.now (string_bytes k)) keys.now }
{
    keys.iter().any(|listed| key == listed.as_str())
}
