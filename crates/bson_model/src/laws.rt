//! What no single call promises: the laws of equality and hashing, and that no key occurs twice. Each function is
//! called for its fact alone.
ghost use Rattle.std.specs.Prelude.{◌≡◌, ◌↔◌, IsTrue, bytes_eq, map};
ghost use Rattle.bson_model.specs.Equal.{Equal};
ghost use Rattle.std.specs.Cmp.{IsEquivalence};
ghost use Rattle.std.specs.List.{IsDistinct};
ghost use Rattle.std.specs.Map.{keys_of};
ghost use Rattle.bson_base.specs.Value.{document, HasDistinctKeys, ItemsHaveDistinctKeys, MembersHaveDistinctKeys};
ghost use Rattle.bson_model.specs.Laws.{bson_eq, document_eq, bson_writes, document_writes};
ghost use Rattle.bson_model.specs.View.{view, pairs_of, items_of, content};
ghost use Rattle.bson_model.specs.declared.bson.Bson.{Bson as Tree};
ghost use Rattle.bson_model.specs.declared.document.Document.{Document as Pairs};

mod errors;
mod feeding;
mod grammar;
mod written;

use crate::bson::Bson;
use crate::document::Document;
pub use errors::{equal_errors, equal_modes};
pub use feeding::{what_documents_feed, what_values_feed};
pub use grammar::reading_is_the_grammar;
use std::hash::Hash;
pub use written::{date_texts, written_values};

/// The law behind every type with `Eq`: its `==` is an equivalence.
fn equality<T: Eq>()
    ensures { IsEquivalence T.eq }
{}

/// The law behind every type with `Hash`: values that are equal by `==` are fed alike to a hasher.
fn hashing<T: Hash>()
    ensures { (x y : T) → IsTrue (T.eq x y) → T.hash_input x ≡ T.hash_input y }
{}

/// `==` on values is an equivalence.
pub fn equality_of_values()
    ensures { IsEquivalence bson_eq }
{
    equality::<Bson>();
}

/// `==` on documents is an equivalence.
pub fn equality_of_documents()
    ensures { IsEquivalence document_eq }
{
    equality::<Document>();
}

/// Equal values are fed alike to a hasher.
pub fn hashing_of_values()
    ensures { (x y : Tree) → IsTrue (bson_eq x y) → bson_writes x ≡ bson_writes y }
{
    hashing::<Bson>();
}

/// Equal documents are fed alike to a hasher.
pub fn hashing_of_documents()
    ensures { (x y : Pairs) → IsTrue (document_eq x y) → document_writes x ≡ document_writes y }
{
    hashing::<Document>();
}

/// Two values are equal exactly if their trees are, with documents compared as maps at every depth. It goes through
/// both values for the fact that no key occurs twice.
pub fn equality_of_trees(a: &Bson, b: &Bson) -> bool
    ensures { IsTrue result ↔ Equal (view a.now) (view b.now) }
{
    distinct_keys(a);
    distinct_keys(b);
    a == b
}

/// Two documents are equal exactly if each has the other's keys, and equal trees under them.
pub fn equality_of_members(a: &Document, b: &Document) -> bool
    ensures { IsTrue result ↔ Equal (document (content a.now)) (document (content b.now)) }
{
    distinct_keys_of_document(a);
    distinct_keys_of_document(b);
    a == b
}

/// No key occurs twice in any document of the value. It goes through the whole value.
#[cycle(distinct)]
pub fn distinct_keys(value: &Bson)
    ensures { HasDistinctKeys (view value.now) }
{
    match value {
        Bson::Array(items) => distinct_keys_of_items(items.as_slice()),
        Bson::Document(document) => distinct_keys_of_document(document),
        Bson::JavaScriptCodeWithScope(code) => distinct_keys_of_document(&code.scope),
        _ => (),
    }
}

/// No key occurs twice in any document of the items. It goes through all of them.
#[cycle(distinct)]
pub fn distinct_keys_of_items(items: &[Bson])
    ensures { ItemsHaveDistinctKeys (items_of (map view items.now)) }
{
    for item in items {
        distinct_keys(item);
    }
}

/// No key occurs twice in the document, nor in any document inside. It goes through the whole document.
#[cycle(distinct)]
pub fn distinct_keys_of_document(document: &Document)
    ensures { MembersHaveDistinctKeys (content document.now) }
{
    let _keys = document.pairs.keys();
    distinct_keys_of_items(document.pairs.values());
}

/// No key occurs twice among the document's own; this says nothing of the documents inside. It looks at no pair.
pub fn distinct_keys_of_level(document: &Document)
    ensures { IsDistinct bytes_eq (keys_of (pairs_of document.now)) }
{
    let _keys = document.pairs.keys();
}
