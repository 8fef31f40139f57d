//! Whether a kept document has a JSON tree, if that is seen from its bytes, without the tree.

ghost use Rattle.std.specs.Prelude.{◌≡◌, drop, false, IfErr, IsTrue};
ghost use Rattle.bson_base.specs.Value.{Members};
ghost use Rattle.bson_bytes.specs.Encode.{encode};
ghost use Rattle.bson_model.specs.JsonKeys.{is_reserved};
ghost use Rattle.bson_model.specs.declared.extjson.ser.Mode.{Mode as Form};
ghost use Rattle.store_model.specs.State.{IsKept, json_of};
ghost use Rattle.store_documents.specs.Answers.{AnswersChecked, HasTree, IsOfStore};
ghost use Rattle.store_documents.specs.Trees.{AreTold, HasNoDouble, IsTold};
ghost use Rattle.store_documents.specs.declared.trees.Keys.TheVariants.{Unreserved};

use crate::answer::json_of_body;
use bson_base::ElementType;
use bson_frame::{LEVEL_LIMIT, is_end, sized_frame};
use bson_model::extjson::Mode;
use std::alloc::Global;
use store_model::ErrorKind;

/// What the keys of the elements of a document may be.
#[derive(Clone, Copy)]
pub(crate) enum Keys {
    /// All that there are.
    Free,
    /// None that is reserved.
    Unreserved,
}

/// True: the key isn't reserved. All reserved keys begin with `$`.
fn is_unreserved(key: &str) -> bool
    ensures { IsTrue result → is_reserved key.now ≡ false }
{
    match key.as_bytes() {
        [first, ..] => *first != b'$',
        [] => true,
    }
}

/// True: the key may be there.
fn may_stand(key: &str, keys: Keys) -> bool
    ensures { IsTrue result → keys ≡ Unreserved → is_reserved key.now ≡ false }
{
    match keys {
        Keys::Free => true,
        Keys::Unreserved => is_unreserved(key),
    }
}

/// Whether a value of the kind is neither a double nor holds values.
fn has_no_double(tag: ElementType) -> bool
    ensures { IsTrue result → HasNoDouble tag }
{
    !matches!(
        tag,
        ElementType::Double
            | ElementType::EmbeddedDocument
            | ElementType::Array
            | ElementType::JavaScriptCodeWithScope
    )
}

/// True: the elements of a document or an array have no double in them, no reserved key below them, and only such keys
/// as they may. So many levels may lie among them.
#[cycle(told)]
fn are_told(elements: &[u8], keys: Keys, inner: usize) -> bool
    ensures { IsTrue result → AreTold keys elements.now }
{
    let mut rest = elements;
    while !is_end(rest) {
        let Some(frame) = sized_frame(rest) else {
            return false;
        };
        if !may_stand(frame.key, keys) || !is_told(frame.tag, frame.payload, inner) {
            return false;
        }
        rest = frame.rest;
    }
    true
}

/// True: a payload has no double in it, and no reserved key.
#[cycle(told)]
fn is_told(tag: ElementType, payload: &[u8], inner: usize) -> bool
    ensures { IsTrue result → IsTold tag payload.now }
{
    match tag {
        ElementType::EmbeddedDocument => holds_told(payload, Keys::Unreserved, inner),
        ElementType::Array => holds_told(payload, Keys::Free, inner),
        _ => has_no_double(tag),
    }
}

/// True: the elements in the bytes of a document or an array have no double in them, no reserved key below them, and
/// only such keys as they may.
#[cycle(told)]
fn holds_told(bytes: &[u8], keys: Keys, inner: usize) -> bool
    ensures { IsTrue result → AreTold keys (drop 4 bytes.now) }
{
    let [_, _, _, _, elements @ ..] = bytes else {
        return false;
    };
    inner > 0 && are_told(elements, keys, inner - 1)
}

/// True: the kept document whose written form these bytes are has a tree. False says nothing: that is returned, too,
/// for documents with any double, with code with scope, or with another key that begins with `$` below the top.
pub(crate) fn has_tree(body: &[u8]) -> bool
    ensures { IsTrue result → (d : Members) → IsKept d → body.now ≡ encode d → (m : Form)
        → HasTree (json_of m d) }
{
    holds_told(body, Keys::Free, LEVEL_LIMIT)
}

/// Whether a kept document, of which `body` is the written form, has a JSON tree: `json_of_body` without the tree. Most
/// documents are seen to have one from their bytes alone, without memory; of others the tree is made.
///
/// Refuses what `json_of_body` refuses, by the same kinds.
pub fn check_json(alloc: Global, body: &[u8], mode: Mode) -> Result<(), ErrorKind>
    ensures checked { (d : Members) → IsKept d → body.now ≡ encode d
        → AnswersChecked (json_of mode d) result }
    ensures kind { IfErr result IsOfStore }
{
    if has_tree(body) {
        return Ok(());
    }
    let tree = json_of_body(alloc, body, mode)?;
    drop(tree);
    Ok(())
}
