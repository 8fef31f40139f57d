//! Whether a tree can be written.

ghost use Rattle.std.specs.Prelude.{◌↔◌, map, IsTrue};
ghost use Rattle.bson_base.specs.Kinds.{HasNo00, IsPlain, IsPlainScalar};
ghost use Rattle.bson_base.specs.Value.{document as tree, EachItem, EachMember};
ghost use Rattle.bson_model.specs.View.{view, items_of, content};
ghost use Rattle.bson_meaning.specs.Keys.{alone};

use bson_bytes::put::has_no_zero;
use bson_model::{Bson, Document};

/// Whether no key, no pattern and no options in the value hold a byte 00, which would end them when they are written
/// (bsonspec.org 1.1, "cstring").
#[cycle(plain)]
pub fn is_plain(value: &Bson) -> bool
    ensures { IsTrue result ↔ IsPlain (view value.now) }
{
    match value {
        Bson::Array(items) => are_plain(items.as_slice()),
        Bson::Document(document) => has_plain_members(document),
        Bson::JavaScriptCodeWithScope(code) => has_plain_members(&code.scope),
        Bson::RegularExpression(regex) => {
            has_no_zero(regex.pattern.as_bytes()) && has_no_zero(regex.options.as_bytes())
        }
        _ => true,
    }
}

/// Whether no key, no pattern and no options in the document hold a byte 00.
pub fn is_plain_document(document: &Document) -> bool
    ensures { IsTrue result ↔ IsPlain (tree (content document.now)) }
{
    has_plain_members(document)
}

/// Whether no key, no pattern and no options in the document that has this element alone hold a byte 00.
pub(crate) fn is_plain_element(name: &str, value: &Bson) -> bool
    ensures { IsTrue result ↔ IsPlain (tree (alone name.now (view value.now))) }
{
    has_no_zero(name.as_bytes()) && is_plain(value)
}

/// Whether no key, no pattern and no options inside the items hold a byte 00.
#[cycle(plain)]
fn are_plain(items: &[Bson]) -> bool
    ensures { IsTrue result ↔ EachItem HasNo00 IsPlainScalar (items_of (map view items.now)) }
{
    for item in items {
        if !is_plain(item) {
            return false;
        }
    }
    true
}

/// Whether none of a document's keys, and no key, pattern or options inside its values, hold a byte 00.
#[cycle(plain)]
pub(crate) fn has_plain_members(document: &Document) -> bool
    ensures { IsTrue result ↔ EachMember HasNo00 IsPlainScalar (content document.now) }
{
    for (key, value) in document {
        if !has_no_zero(key.as_bytes()) || !is_plain(value) {
            return false;
        }
    }
    true
}
