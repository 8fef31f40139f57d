//! `==` of the errors, and of the two forms of Extended JSON.
ghost use Rattle.std.specs.Prelude.{◌≡◌, ◌↔◌, IsTrue};
ghost use Rattle.bson_model.specs.declared.document.ValueAccessError.{ValueAccessError as AnyAccessError};
ghost use Rattle.bson_model.specs.declared.extjson.de.Error.{Error as AnyError};
ghost use Rattle.bson_model.specs.declared.extjson.ser.Mode.{Mode as AnyMode};

use crate::document::ValueAccessError;
use crate::extjson::Mode;
use crate::extjson::de::Error;
use bson_base::laws;

/// Two errors are equal if they are the same, with all that they report.
pub fn equal_errors()
    ensures trees { (x y : AnyError) → IsTrue (⟦<Error as PartialEq>⟧.eq x y) ↔ (x ≡ y) }
    ensures getters { (x y : AnyAccessError) → IsTrue (⟦<ValueAccessError as PartialEq>⟧.eq x y) ↔ (x ≡ y) }
{
    laws::equal_errors();
}

/// Two forms of Extended JSON are equal if they are the same.
pub fn equal_modes()
    ensures { (x y : AnyMode) → IsTrue (⟦<Mode as PartialEq>⟧.eq x y) ↔ (x ≡ y) }
{}
