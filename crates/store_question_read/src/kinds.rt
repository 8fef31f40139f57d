//! Kinds by their names and numbers.

ghost use Rattle.std.specs.Prelude.{◌≡◌, option_and_then};
ghost use Rattle.bson_base.specs.Value.{Value};
ghost use Rattle.bson_raw.specs.Convert.{SpellsRawValue};
ghost use Rattle.bson_raw.specs.Raw.{ref_value};
ghost use Rattle.store_question_read.specs.Kinds.{is_number as means_numbers, kind_of as kind_meant, kind_of_name, kind_of_number};

use crate::values::whole_of;
use bson_base::ElementType;
use bson_raw::RawBsonRef;

/// Whether a value is the name of all kinds of numbers.
pub(crate) fn is_number(value: RawBsonRef<'_>) -> bool
    ensures { (v : Value) → SpellsRawValue (ref_value value.entry) v → result ≡ means_numbers v }
{
    match value {
        RawBsonRef::String(name) => name == "number",
        _ => false,
    }
}

/// The kind that a value means: its name or its number.
pub(crate) fn kind_of(value: RawBsonRef<'_>) -> Option<ElementType>
    ensures { (v : Value) → SpellsRawValue (ref_value value.entry) v → result ≡ kind_meant v }
{
    match value {
        RawBsonRef::String(name) => kind_named(name),
        _ => numbered(whole_of(value)),
    }
}

/// The kind that `$type` means by a number. None if there is no number, or no kind has it.
fn numbered(number: Option<i64>) -> Option<ElementType>
    ensures { result ≡ option_and_then kind_of_number number }
{
    match number {
        Some(number) => kind_numbered(number),
        None => None,
    }
}

/// The kind of this number.
#[tactic(auto, unfolding(crate::specs::Kinds::kind_of_number))]
fn kind_numbered(number: i64) -> Option<ElementType>
    ensures { result ≡ kind_of_number number }
{
    match number {
        1 => Some(ElementType::Double),
        2 => Some(ElementType::String),
        3 => Some(ElementType::EmbeddedDocument),
        4 => Some(ElementType::Array),
        5 => Some(ElementType::Binary),
        6 => Some(ElementType::Undefined),
        7 => Some(ElementType::ObjectId),
        8 => Some(ElementType::Boolean),
        9 => Some(ElementType::DateTime),
        10 => Some(ElementType::Null),
        11 => Some(ElementType::RegularExpression),
        12 => Some(ElementType::DbPointer),
        13 => Some(ElementType::JavaScriptCode),
        14 => Some(ElementType::Symbol),
        15 => Some(ElementType::JavaScriptCodeWithScope),
        16 => Some(ElementType::Int32),
        17 => Some(ElementType::Timestamp),
        18 => Some(ElementType::Int64),
        19 => Some(ElementType::Decimal128),
        127 => Some(ElementType::MaxKey),
        -1 => Some(ElementType::MinKey),
        _ => None,
    }
}

/// The kind of this name.
#[tactic(auto, unfolding(crate::specs::Kinds::kind_of_name))]
fn kind_named(name: &str) -> Option<ElementType>
    ensures { result ≡ kind_of_name name.now }
{
    match name {
        "double" => Some(ElementType::Double),
        "string" => Some(ElementType::String),
        "object" => Some(ElementType::EmbeddedDocument),
        "array" => Some(ElementType::Array),
        "binData" => Some(ElementType::Binary),
        "undefined" => Some(ElementType::Undefined),
        "objectId" => Some(ElementType::ObjectId),
        "bool" => Some(ElementType::Boolean),
        "date" => Some(ElementType::DateTime),
        "null" => Some(ElementType::Null),
        "regex" => Some(ElementType::RegularExpression),
        "dbPointer" => Some(ElementType::DbPointer),
        "javascript" => Some(ElementType::JavaScriptCode),
        "symbol" => Some(ElementType::Symbol),
        "javascriptWithScope" => Some(ElementType::JavaScriptCodeWithScope),
        "int" => Some(ElementType::Int32),
        "timestamp" => Some(ElementType::Timestamp),
        "long" => Some(ElementType::Int64),
        "decimal" => Some(ElementType::Decimal128),
        "maxKey" => Some(ElementType::MaxKey),
        "minKey" => Some(ElementType::MinKey),
        _ => None,
    }
}
