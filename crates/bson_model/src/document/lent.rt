//! The document under a key of a list of pairs, to be written to.
ghost use Rattle.std.specs.Prelude.{◌≡◌, map};
ghost use Rattle.std.specs.Borrow.{sem};
ghost use Rattle.bson_base.specs.Answer.{result_map};
ghost use Rattle.bson_model.specs.Accessors.{of_kind, as_document};
ghost use Rattle.bson_model.specs.Keyed.{get};
ghost use Rattle.bson_model.specs.Lending.{LendsDocumentIn};
ghost use Rattle.bson_model.specs.View.{pair_view, content};

use crate::bson::Bson;
use crate::document::{Document, ValueAccessError, ValueAccessResult};
use bson_pairs::Pairs;

/// The document under a key, to be written to. `NotPresent` if the key isn't there, `UnexpectedType` if its value is no
/// document.
pub(crate) fn document_in<'a>(
    pairs: &'a mut Pairs<Bson>,
    key: &str,
) -> ValueAccessResult<&'a mut Document>
    ensures* writes_back { sem 𝓛 (LendsDocumentIn pairs.entry key.now result) }
    ensures value { result_map (λ d. content d.now) result ≡ of_kind as_document (get key.now (map pair_view pairs.old)) }
{
    match pairs.get_mut(key) {
        Some(value) => match value.as_document_mut() {
            Some(lent) => Ok(lent),
            None => Err(ValueAccessError::UnexpectedType),
        },
        None => Err(ValueAccessError::NotPresent),
    }
}
