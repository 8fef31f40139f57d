//! What is written as Extended JSON and read again.

ghost use Rattle.std.specs.Prelude.{◌≡◌, ◌≢◌, ◌≤◌, ℕ, false, List, Result, Ok};
ghost use Rattle.std.specs.List.{All};
ghost use Rattle.json.specs.Json.{Json};
ghost use Rattle.bson_base.specs.Kinds.{IsSound};
ghost use Rattle.bson_base.specs.Value.{document, Members, Value};
ghost use Rattle.bson_json.specs.Form.{Writes};
ghost use Rattle.bson_json.specs.Prints.{IsTextOf};
ghost use Rattle.bson_model.specs.declared.document.Document.{Document};
ghost use Rattle.bson_model.specs.declared.extjson.ser.Mode.{Mode};
ghost use Rattle.bson_json.specs.Settled.{ComesBack, json_levels, settle, settle_members};
ghost use Rattle.bson_json_read.specs.Reading.{read, read_top, ReadsText};
ghost use Rattle.bson_json_read.specs.declared.error.Error.{Error};
ghost use Rattle.bson_meaning.specs.JsonReserved.{has_reserved, reserved_in};
ghost use Rattle.bson_model.specs.declared.extjson.ser.Mode.TheVariants.{Canonical, Relaxed};

/// Each canonical form of a value without a reserved key in a document below its top is read as that value, settled:
/// doubles bit for bit, except what is not a number, and keys in their order.
pub fn canonical_trees_read_back()
    ensures value { (v : Value) (j : Json) → IsSound v → reserved_in v ≡ false → Writes Canonical v j → read j ≡ Ok (settle Canonical v) }
    ensures top { (ms : Members) (j : Json) → IsSound (document ms) → has_reserved ms ≡ false → Writes Canonical (document ms) j
        → read_top j ≡ Ok (settle_members Canonical ms) }
{}

/// The same of relaxed form, in which an Int64 that fits 32 bits becomes an Int32. A date from 1970 to 9999 comes back
/// from its date text, to the millisecond.
pub fn relaxed_trees_read_back()
    ensures value { (v : Value) (j : Json) → IsSound v → reserved_in v ≡ false → Writes Relaxed v j → read j ≡ Ok (settle Relaxed v) }
    ensures top { (ms : Members) (j : Json) → IsSound (document ms) → has_reserved ms ≡ false → Writes Relaxed (document ms) j
        → read_top j ≡ Ok (settle_members Relaxed ms) }
{}

/// The canonical text that `write` gives of a document without a reserved key in a document below its top is read by
/// `document_of_text` as that document, settled, or memory runs out, if it has no more levels of JSON than the reader
/// takes.
pub fn canonical_texts_read_back()
    ensures { (ms : Members) (t : List ℕ) (r : Result Document Error) → IsSound (document ms) → has_reserved ms ≡ false → json_levels (document ms) ≤ 125
        → IsTextOf Canonical (document ms) t → ReadsText t r → ComesBack Canonical ms r }
{}

/// The same of the relaxed text that `write` gives.
pub fn relaxed_texts_read_back()
    ensures { (ms : Members) (t : List ℕ) (r : Result Document Error) → IsSound (document ms) → has_reserved ms ≡ false → json_levels (document ms) ≤ 125
        → IsTextOf Relaxed (document ms) t → ReadsText t r → ComesBack Relaxed ms r }
{}

/// The text that `write` gives of a document of no more levels of JSON than the reader takes has no line feed, in either
/// form: so it is a line.
pub fn texts_have_no_line_feed()
    ensures { (m : Mode) (v : Value) (t : List ℕ) → json_levels v ≤ 125 → IsTextOf m v t → All (λ b. b ≢ 10) t }
{}
