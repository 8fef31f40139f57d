//! Written documents as the text of their JSON.

ghost use Rattle.std.specs.Prelude.{◌≡◌, ◌⊎◌, Err, string_bytes, IfErr};
ghost use Rattle.bson_base.specs.Value.{Members};
ghost use Rattle.bson_bytes.specs.Encode.{encode};
ghost use Rattle.bson_model.specs.declared.extjson.ser.Mode.TheVariants.{Canonical};
ghost use Rattle.store_model.specs.State.{IsKept, json_of};
ghost use Rattle.store_model.specs.declared.error.ErrorKind.TheVariants.{Memory};
ghost use Rattle.store_documents.specs.Answers.{AnswersText, HasTree, IsOfStore};

use crate::read::document_of_body;
use bson_json::{Style, Unwritten, write_raw};
use bson_meaning::has_reserved_below;
use std::alloc::Global;
use store_model::ErrorKind;

/// Why a kept document that has no text has none, by way of its tree: `ReservedKey` if it has a reserved key below its
/// top, else `FiniteDouble`, or `Memory`.
fn fault_of(alloc: Global, body: &[u8]) -> ErrorKind
    ensures why { (d : Members) → IsKept d → body.now ≡ encode d → (HasTree (json_of Canonical d) → ⊥)
        → (json_of Canonical d ≡ Err result) ⊎ (result ≡ Memory) }
    ensures kind { IsOfStore result }
{
    match document_of_body(alloc, body) {
        Ok(document) => {
            if has_reserved_below(&document) {
                ErrorKind::ReservedKey
            } else {
                ErrorKind::FiniteDouble
            }
        }
        Err(kind) => kind,
    }
}

/// Puts the text of a kept document's tree, as `json_of_body` makes it in canonical mode, in the place of what `text`
/// held, whose room is used again. It is written straight from the bytes; only of a document that has none the tree is
/// made, to say why.
///
/// Refuses what `json_of_body` refuses, by the same kinds; what `text` holds then isn't said.
pub fn text_of_body(alloc: Global, body: &[u8], text: &mut String) -> Result<(), ErrorKind>
    ensures text { (d : Members) → IsKept d → body.now ≡ encode d
        → AnswersText (json_of Canonical d) (string_bytes text.new) result }
    ensures kind { IfErr result IsOfStore }
{
    match write_raw(alloc, body, Style::Stored, text) {
        Ok(()) => Ok(()),
        Err(Unwritten::Memory) => Err(ErrorKind::Memory),
        Err(Unwritten::Unseen) => Err(fault_of(alloc, body)),
    }
}
