//! What follows of what is printed and of what is read.

ghost use Rattle.std.specs.Prelude.{◌≡◌, ◌≤◌, ℕ, false, List, Err};
ghost use Rattle.bson_base.specs.Value.{document, Members};
ghost use Rattle.bson_json.specs.Settled.{json_levels, settle_members};
ghost use Rattle.bson_json_read.specs.Reading.{ReadsText};
ghost use Rattle.bson_json_read.specs.declared.error.Error.{Error};
ghost use Rattle.bson_json_read.specs.declared.error.Error.TheVariants.{Memory};
ghost use Rattle.bson_meaning.specs.JsonReserved.{has_reserved};
ghost use Rattle.bson_model.specs.declared.extjson.ser.Mode.TheVariants.{Canonical};
ghost use Rattle.cli_convert.specs.Lines.{Reads};
ghost use Rattle.cli_commands.specs.Lines.{line};
ghost use Rattle.cli_convert.specs.Made.{identified};
ghost use Rattle.cli_convert.specs.declared.made.IdMaker.{IdMaker};
ghost use Rattle.store_model.specs.State.{IsKept};
ghost use Rattle.fallowtime_commands.specs.Printing.{IsPrinted};
ghost use Rattle.fallowtime_commands.specs.declared.printing.Form.TheVariants.{Lines};

use bson_json::laws::canonical_texts_read_back;

/// The line that `find --canonical` and `get --canonical` print of a kept document without a reserved key below its top
/// is read by `import --json` as that document, settled, with its own `_id`, if it has no more levels of JSON than the
/// reader takes; or it is out of memory.
pub fn printed_documents_are_read()
    ensures read { (d e : Members) (text : List ℕ) (maker : IdMaker) → IsKept d
        → has_reserved d ≡ false → json_levels (document d) ≤ 125
        → IsPrinted (Lines Canonical) d (line text) → Reads text e
        → identified maker e ≡ settle_members Canonical d }
    ensures refused { (d : Members) (text : List ℕ) (error : Error) → IsKept d
        → has_reserved d ≡ false → json_levels (document d) ≤ 125
        → IsPrinted (Lines Canonical) d (line text) → ReadsText text (Err error) → error ≡ Memory }
{
    canonical_texts_read_back();
}
