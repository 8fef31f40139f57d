//! What follows of the streams that are written.

ghost use Rattle.std.specs.Prelude.{◌≡◌, ◌++◌, ℕ, List, [], Ok, Option, Some};
ghost use Rattle.bson_base.specs.Device.{Feed, Tally};
ghost use Rattle.bson_base.specs.Kinds.{AreBytes};
ghost use Rattle.bson_base.specs.Value.{Members};
ghost use Rattle.bson_model.specs.declared.extjson.ser.Mode.TheVariants.{Canonical};
ghost use Rattle.cli_convert.specs.Parts.{InParts};
ghost use Rattle.cli_convert.specs.Piped.{AreShallow, settled_bytes};
ghost use Rattle.cli_convert.specs.ToBson.{IsWritten, WritesDocuments, spoil};
ghost use Rattle.cli_convert.specs.ToLines.{IsDocument, IsFree, WritesLines};

use bson_json::laws::{canonical_texts_read_back, texts_have_no_line_feed};

/// Documents, then the bytes that end a refused stream, and then anything else, are no stream of documents.
pub fn spoiled_streams_are_none()
    ensures { (os : List (Option Members)) (sent more : List ℕ) (ds : List Members) → InParts IsWritten sent os
        → InParts IsDocument (sent ++ (spoil ++ more)) ds → ⊥ }
{}

/// The law of the pipe: what `write_lines` writes of the documents of an input in canonical form, to its end, and
/// `write_documents` reads, to its end, comes out as the written forms of these documents, each settled, one after the
/// other, if none of them has more levels of JSON than the reader takes.
pub fn piped_documents_come_back()
    ensures { (fed read old new : Feed) (before sent empty after : Tally) (bytes : List ℕ)
        → AreBytes bytes → fed.supply.left ≡ Some bytes → before.taken ≡ Some [] → WritesLines Canonical fed read before sent (Ok tt)
        → old.supply.left ≡ sent.taken → empty.taken ≡ Some [] → WritesDocuments old new empty after (Ok tt)
        → (ds : List Members) × InParts IsFree bytes ds × (AreShallow ds → after.taken ≡ Some (settled_bytes ds)) }
{
    canonical_texts_read_back();
    texts_have_no_line_feed();
}
