//! Extended JSON and meaning: what no single call promises. Each function is called for its fact alone.
ghost use Rattle.std.specs.Prelude.{◌≡◌, ◌↔◌, ◌≤◌, false, Some, Ok};
ghost use Rattle.serde_json.specs.Data as json;
ghost use Rattle.serde_json.specs.Data.{Data};
ghost use Rattle.bson_base.specs.Kinds.{IsClean, IsPlain, IsSound};
ghost use Rattle.bson_base.specs.Value.{document, levels, Members, Value};
ghost use Rattle.bson_model.specs.JsonRead.{read, read_members};
ghost use Rattle.bson_model.specs.JsonWrite.{write, write_members};
ghost use Rattle.bson_model.specs.declared.extjson.ser.Mode.{Mode};
ghost use Rattle.bson_model.specs.declared.extjson.ser.Mode.TheVariants.{Canonical};
ghost use Rattle.bson_meaning.specs.JsonReserved.{has_reserved};
ghost use Rattle.bson_meaning.specs.JsonTrees.{IsJson, IsJsonObject};
ghost use Rattle.bson_meaning.specs.Meaning.{norm_members_in_order, asc, norm, Same};

/// A value, its normal form and the value with its keys in order are written alike, in both modes.
pub fn normal_forms_are_written_alike()
    ensures normal { (m : Mode) (v : Value) → IsSound v → write m (norm v) ≡ write m v }
    ensures ordered { (m : Mode) (v : Value) → IsSound v → write m (asc v) ≡ write m v }
{}

/// Documents of the same meaning have the same tree or none, in both modes, and both or neither of them has a reserved
/// key below its top. Of two documents without one, equal canonical trees have the same meaning.
pub fn trees_go_by_meaning()
    ensures tree { (m : Mode) (d e : Members) → IsSound (document d) → IsSound (document e) → Same (document d) (document e)
        → write m (document d) ≡ write m (document e) }
    ensures reserved { (d e : Members) → IsSound (document d) → IsSound (document e) → Same (document d) (document e)
        → has_reserved d ≡ has_reserved e }
    ensures exactly { (d e : Members) (i j : Data) → IsSound (document d) → IsSound (document e) → has_reserved d ≡ false → has_reserved e ≡ false
        → write Canonical (document d) ≡ Some i → write Canonical (document e) ≡ Some j
        → (i ≡ j) ↔ Same (document d) (document e) }
{}

/// The canonical tree of a document without a reserved key below its top reads as a document of the same normal form,
/// which is plain if the first is, and no deeper.
pub fn canonical_trees_read_back()
    ensures members { (d : Members) (js : json.Members) → IsSound (document d) → has_reserved d ≡ false
        → write_members Canonical d json.no_members ≡ Some js
        → (e : Members) × (read_members js ≡ Ok e) × (norm_members_in_order e ≡ norm_members_in_order d)
        × (IsPlain (document d) → IsPlain (document e)) × (levels (document e) ≤ levels (document d)) }
    ensures tree { (d : Members) (j : Data) → IsSound (document d) → has_reserved d ≡ false → write Canonical (document d) ≡ Some j
        → (js : json.Members) × (e : Members) × (j ≡ json.object js) × (read_members js ≡ Ok e)
        × (norm_members_in_order e ≡ norm_members_in_order d)
        × (IsPlain (document d) → IsPlain (document e)) × (levels (document e) ≤ levels (document d)) }
{}

/// What a JSON tree reads as is sound. The normal form of a document that is read from one is clean if the document is
/// plain.
pub fn readings_are_sound()
    ensures value { (j : Data) (v : Value) → IsJson j → read j ≡ Ok v → IsSound v }
    ensures top { (js : json.Members) (d : Members) → IsJsonObject js → read_members js ≡ Ok d → IsSound (document d) }
    ensures kept { (js : json.Members) (d : Members) → IsJsonObject js → read_members js ≡ Ok d → IsPlain (document d)
        → IsClean (document (norm_members_in_order d)) × IsSound (document (norm_members_in_order d)) }
{}
