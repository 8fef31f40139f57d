//! What has a tree in Extended JSON, and the one date text of a moment.
ghost use Rattle.std.specs.Prelude.{◌≡◌, is_some, not, List, ℕ, ℤ};
ghost use Rattle.bson_base.specs.DateText.{IsDateText};
ghost use Rattle.bson_base.specs.Value.{Value};
ghost use Rattle.bson_base.specs.Dates.{date_text};
ghost use Rattle.bson_model.specs.JsonWrite.{holds_finite, write};
ghost use Rattle.bson_model.specs.declared.extjson.ser.Mode.{Mode};

/// A value has an Extended JSON tree, in either form, exactly if no finite double other than the zeros is in it.
pub fn written_values()
    ensures { (m : Mode) (v : Value) → is_some (write m v) ≡ not (holds_finite v) }
{}

/// A moment has one date text: the one that is found by counting years and months.
pub fn date_texts()
    ensures { (z : ℤ) (t : List ℕ) → IsDateText z t → t ≡ date_text z }
{}
