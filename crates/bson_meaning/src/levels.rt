//! How deep a tree is.

ghost use Rattle.std.specs.Prelude.{◌≡◌, ◌^◌, ◌-◌, map, min};
ghost use Rattle.bson_base.specs.Value.{document as tree, levels, items_levels, members_levels};
ghost use Rattle.bson_model.specs.View.{view, items_of, content};

use bson_model::{Bson, Document};

/// How many documents, arrays and scopes are nested in each other: 0 for a scalar, 1 for a document or array of
/// scalars. No tree that fits into a machine has more than `usize::MAX`; it would be returned for such.
#[cycle(depth)]
pub fn depth(value: &Bson) -> usize
    ensures { result ≡ min (levels (view value.now)) (2 ^ 64 - 1) }
{
    match value {
        Bson::Array(items) => depth_of_items(items.as_slice()).saturating_add(1),
        Bson::Document(document) => depth_of_members(document).saturating_add(1),
        Bson::JavaScriptCodeWithScope(code) => depth_of_members(&code.scope).saturating_add(1),
        _ => 0,
    }
}

/// How many documents, arrays and scopes are nested in each other, the document itself counted. Else as `depth`.
pub fn depth_of_document(document: &Document) -> usize
    ensures { result ≡ min (levels (tree (content document.now))) (2 ^ 64 - 1) }
{
    depth_of_members(document).saturating_add(1)
}

/// The greatest `depth` of the items, the array around them not counted; 0 if there are none.
#[cycle(depth)]
fn depth_of_items(items: &[Bson]) -> usize
    ensures { result ≡ min (items_levels (items_of (map view items.now))) (2 ^ 64 - 1) }
{
    let mut greatest = 0;
    for item in items {
        greatest = depth(item).max(greatest);
    }
    greatest
}

/// The greatest `depth` of the values in a document, the document itself not counted; 0 if there are none.
#[cycle(depth)]
fn depth_of_members(document: &Document) -> usize
    ensures { result ≡ min (members_levels (content document.now)) (2 ^ 64 - 1) }
{
    let mut greatest = 0;
    for (_, value) in document {
        greatest = depth(value).max(greatest);
    }
    greatest
}
