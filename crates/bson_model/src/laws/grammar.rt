//! That what is read is what the grammar of Extended JSON says.
ghost use Rattle.std.specs.Prelude.{◌≡◌, ◌↔◌, Ok};
ghost use Rattle.serde_json.specs.Data.{Data, Members as JsonMembers};
ghost use Rattle.bson_base.specs.Value.{Value, Members};
ghost use Rattle.bson_model.specs.JsonGrammar.{Reads, ReadsMembers};
ghost use Rattle.bson_model.specs.JsonRead.{read, read_members};

/// A JSON tree reads as a value, and an object's members as a document, exactly if the grammar has it.
pub fn reading_is_the_grammar()
    ensures values { (j : Data) (v : Value) → (read j ≡ Ok v) ↔ Reads j v }
    ensures members { (js : JsonMembers) (ms : Members) → (read_members js ≡ Ok ms) ↔ ReadsMembers js ms }
{}
