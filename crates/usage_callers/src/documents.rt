//! A key of a document, read and written.

ghost use Rattle.std.specs.Prelude.{◌≡◌, Some, codes, OnOk, OnErr};
ghost use Rattle.std.specs.Option.{option_map, option_and_then};
ghost use Rattle.bson_base.specs.Value.{scalar, string};
ghost use Rattle.bson_model.specs.Accessors.{as_str};
ghost use Rattle.bson_model.specs.Keyed.{get};
ghost use Rattle.bson_model.specs.View.{pairs_of};

use bson_model::{Bson, Document};
use std::alloc::{AllocError, Global};

/// The text under `city`, if the document has the key and its value is a text.
pub fn city_of(document: &Document) -> Option<&str>
    ensures { option_map (λ s. s.now) result ≡ option_and_then as_str (get (codes "city") (pairs_of document.now)) }
{
    document.get("city").and_then(Bson::as_str)
}

/// Puts a text under `city`, where a look-up then finds it. Out of memory changes nothing.
pub fn move_to(alloc: Global, document: &mut Document, city: &str) -> Result<(), AllocError>
    ensures found { OnOk result (get (codes "city") (pairs_of document.new) ≡ Some (scalar (string city.now))) }
    ensures kept { OnErr result (document.new ≡ document.old) }
{
    let text = Bson::from_text(alloc, city)?;
    let key = String::from_str(alloc, "city")?;
    document.put(key, text)
}
