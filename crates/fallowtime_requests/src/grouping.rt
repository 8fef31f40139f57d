//! Groups of documents, and what is taken of documents, as JSON says it.

ghost use Rattle.std.specs.Prelude.{◌≡◌, IfErr, List, MatchResult, None, OnOk, Some, codes};
ghost use Rattle.std.specs.List.{list_all};
ghost use Rattle.json.specs.Json.{object};
ghost use Rattle.json.specs.Value.{members_view, value_view as data_of};
ghost use Rattle.bson_base.specs.Value.{scalar, string};
ghost use Rattle.bson_model.specs.View.{view};
ghost use Rattle.store_question.specs.Filters.{path_of as path_view};
ghost use Rattle.store_pipeline.specs.declared.stage.Accumulated.{Accumulated as Field};
ghost use Rattle.store_pipeline.specs.declared.stage.Accumulator.{Accumulator as Operator};
ghost use Rattle.store_pipeline.specs.declared.stage.Grouping.{Grouping as Groups};
ghost use Rattle.store_pipeline.specs.declared.stage.Operand.{Operand as Taken};
ghost use Rattle.fallowtime_requests.specs.Reading.{StopsStages};
ghost use Rattle.fallowtime_requests.specs.Staging.{AddsField, AreFields, IsAccumulated, IsAccumulation, IsField, IsGrouping, IsOperand, IsSaid, SaysNoField, accumulator_named, field_path, is_empty_object, is_field_name, is_filled, is_name_byte, keys_behind_dollar};

use crate::stop::Stop;
use crate::unread::Unread;
use bson_json_read::{Error, bson_of};
use bson_model::Bson;
use json::Value;
use std::alloc::Global;
use store_pipeline::{Accumulated, Accumulator, Grouping, Operand};
use store_question_read::{begins_with_dollar, keys_of};

/// What becomes of the values of a group, and what these are of each document.
#[derive(Drop)]
struct Accumulation {
    accumulator: Accumulator,
    operand: Operand,
}

/// Whether a byte may be in the name of a field that a stage makes: it is neither a dot nor a 00.
fn is_name_byte(byte: u8) -> bool
    ensures { result ≡ is_name_byte byte }
{
    byte != b'.' && byte != 0
}

/// Whether all bytes may be in such a name.
fn are_name_bytes(bytes: &[u8]) -> bool
    ensures { result ≡ list_all is_name_byte bytes.now }
{
    for byte in bytes {
        if !is_name_byte(*byte) {
            return false;
        }
    }
    true
}

/// Whether a name is one of a field that a stage makes: it isn't empty, begins with no `$`, and has neither a dot nor a
/// 00.
pub(crate) fn is_field_name(name: &str) -> bool
    ensures { result ≡ is_field_name name.now }
{
    !name.is_empty() && !begins_with_dollar(name) && are_name_bytes(name.as_bytes())
}

/// Whether no key is empty.
fn are_filled(keys: &[String]) -> bool
    ensures { result ≡ list_all is_filled (path_view keys.now) }
{
    for key in keys {
        if key.is_empty() {
            return false;
        }
    }
    true
}

/// The keys of a path behind its `$`.
fn keys_behind_dollar(alloc: Global, path: &str) -> Result<Vec<String>, Stop>
    ensures { MatchResult result (λ keys. keys_behind_dollar path.now ≡ Some (path_view keys.items))
        (StopsStages (keys_behind_dollar path.now ≡ None)) }
{
    if begins_with_dollar(path) {
        return Err(Stop::Words(Unread::Stages));
    }
    let keys = keys_of(alloc, path)?;
    if are_filled(keys.as_slice()) {
        Ok(keys)
    } else {
        Err(Stop::Words(Unread::Stages))
    }
}

/// The keys of a path with a `$` in front, none of which is empty.
pub(crate) fn path_in(alloc: Global, text: &str) -> Result<Vec<String>, Stop>
    ensures { MatchResult result (λ path. field_path text.now ≡ Some (path_view path.items))
        (StopsStages (field_path text.now ≡ None)) }
{
    match text.strip_prefix("$") {
        Some(path) => keys_behind_dollar(alloc, path),
        None => Err(Stop::Words(Unread::Stages)),
    }
}

/// The operand that a text is: what is at a path, if `$` is in front, or else the text itself.
fn operand_of_text(alloc: Global, text: &str) -> Result<Operand, Stop>
    ensures { MatchResult result (IsSaid (scalar (string text.now)))
        (StopsStages ((o : Taken) → IsSaid (scalar (string text.now)) o → ⊥)) }
{
    if begins_with_dollar(text) {
        let path = path_in(alloc, text)?;
        Ok(Operand::Path(path))
    } else {
        Ok(Operand::String(String::from_str(alloc, text)?))
    }
}

/// The operand that a value is.
fn operand_of_value(alloc: Global, value: &Bson) -> Result<Operand, Stop>
    ensures { MatchResult result (IsSaid (view value.now)) (StopsStages ((o : Taken) → IsSaid (view value.now) o → ⊥)) }
{
    match value {
        Bson::Null => Ok(Operand::Null),
        Bson::Boolean(boolean) => Ok(Operand::Boolean(*boolean)),
        Bson::Int32(number) => Ok(Operand::Int32(*number)),
        Bson::Int64(number) => Ok(Operand::Int64(*number)),
        Bson::Double(number) => Ok(Operand::Double(*number)),
        Bson::String(text) => operand_of_text(alloc, text.as_str()),
        _ => Err(Stop::Words(Unread::Stages)),
    }
}

/// The operand that is said: null, true, false, a number or a text.
fn operand_in(alloc: Global, value: &Value<'_>) -> Result<Operand, Stop>
    ensures { MatchResult result (IsOperand (data_of value.now))
        (StopsStages ((o : Taken) → IsOperand (data_of value.now) o → ⊥)) }
{
    match bson_of(alloc, value) {
        Ok(value) => operand_of_value(alloc, &value),
        Err(Error::Memory) => Err(Stop::Memory),
        Err(_) => Err(Stop::Words(Unread::Stages)),
    }
}

/// What a key says of the values of a group.
fn accumulator_named(name: &str) -> Option<Accumulator>
    ensures { result ≡ accumulator_named name.now }
{
    match name {
        "$sum" => Some(Accumulator::Sum),
        "$avg" => Some(Accumulator::Average),
        "$min" => Some(Accumulator::Least),
        "$max" => Some(Accumulator::Greatest),
        "$first" => Some(Accumulator::First),
        "$last" => Some(Accumulator::Last),
        "$push" => Some(Accumulator::Push),
        "$addToSet" => Some(Accumulator::Include),
        _ => None,
    }
}

/// Whether a value is an object without members.
fn is_empty_object(value: &Value<'_>) -> bool
    ensures { result ≡ is_empty_object (data_of value.now) }
{
    match value {
        Value::Object(members) => members.as_slice().is_empty(),
        _ => false,
    }
}

/// What `$count` of an empty object says: the sum of 1 of each document.
fn counting(value: &Value<'_>) -> Result<Accumulation, Stop>
    ensures { MatchResult result (λ a. IsAccumulated (codes "$count") (data_of value.now) a.accumulator a.operand)
        (StopsStages ((a : Operator) (o : Taken) → IsAccumulated (codes "$count") (data_of value.now) a o → ⊥)) }
{
    if is_empty_object(value) {
        Ok(Accumulation {
            accumulator: Accumulator::Sum,
            operand: Operand::Int32(1),
        })
    } else {
        Err(Stop::Words(Unread::Stages))
    }
}

/// What a key and a value say of the values of a group.
fn accumulation_of(alloc: Global, name: &str, value: &Value<'_>) -> Result<Accumulation, Stop>
    ensures { MatchResult result (λ a. IsAccumulated name.now (data_of value.now) a.accumulator a.operand)
        (StopsStages ((a : Operator) (o : Taken) → IsAccumulated name.now (data_of value.now) a o → ⊥)) }
{
    if name == "$count" {
        return counting(value);
    }
    match accumulator_named(name) {
        Some(accumulator) => {
            let operand = operand_in(alloc, value)?;
            Ok(Accumulation {
                accumulator,
                operand,
            })
        }
        None => Err(Stop::Words(Unread::Stages)),
    }
}

/// What the members of an object say of the values of a group.
fn accumulation_among(alloc: Global, members: &[(&str, Value<'_>)]) -> Result<Accumulation, Stop>
    ensures { MatchResult result (λ a. IsAccumulation (object (members_view members.now)) a.accumulator a.operand)
        (StopsStages ((a : Operator) (o : Taken) → IsAccumulation (object (members_view members.now)) a o → ⊥)) }
{
    match members {
        [(name, value)] => accumulation_of(alloc, *name, value),
        _ => Err(Stop::Words(Unread::Stages)),
    }
}

/// What a value says of the values of a group.
fn accumulation_in(alloc: Global, value: &Value<'_>) -> Result<Accumulation, Stop>
    ensures { MatchResult result (λ a. IsAccumulation (data_of value.now) a.accumulator a.operand)
        (StopsStages ((a : Operator) (o : Taken) → IsAccumulation (data_of value.now) a o → ⊥)) }
{
    match value {
        Value::Object(members) => accumulation_among(alloc, members.as_slice()),
        _ => Err(Stop::Words(Unread::Stages)),
    }
}

/// The field of a group that has this name.
fn field_in(alloc: Global, name: &str, value: &Value<'_>) -> Result<Accumulated, Stop>
    ensures { MatchResult result (IsField name.now (data_of value.now))
        (StopsStages ((f : Field) → IsField name.now (data_of value.now) f → ⊥)) }
{
    if !is_field_name(name) {
        return Err(Stop::Words(Unread::Stages));
    }
    let accumulation = accumulation_in(alloc, value)?;
    let name = String::from_str(alloc, name)?;
    let Accumulation {
        accumulator,
        operand,
    } = accumulation;
    Ok(Accumulated {
        name,
        accumulator,
        operand,
    })
}

/// Adds the field that a member says to others; the `_id` says none.
fn add_field(
    alloc: Global,
    fields: &mut Vec<Accumulated>,
    name: &str,
    value: &Value<'_>,
) -> Result<(), Stop>
    ensures added { OnOk result (AddsField name.now (data_of value.now) fields.old.items fields.new.items) }
    ensures stop { IfErr result (StopsStages (SaysNoField name.now (data_of value.now))) }
{
    if name == "_id" {
        return Ok(());
    }
    let field = field_in(alloc, name, value)?;
    fields.push(field)?;
    Ok(())
}

/// The fields of a group: one for each member except the `_id`.
fn fields_among(alloc: Global, members: &[(&str, Value<'_>)]) -> Result<Vec<Accumulated>, Stop>
    ensures { MatchResult result (λ fields. AreFields (members_view members.now) fields.items)
        (StopsStages ((fs : List Field) → AreFields (members_view members.now) fs → ⊥)) }
{
    let mut fields = Vec::new(alloc);
    for (name, value) in members {
        add_field(alloc, &mut fields, *name, value)?;
    }
    Ok(fields)
}

/// The groups that the value under `_id` and the other members say.
fn grouping_by(
    alloc: Global,
    id: &Value<'_>,
    members: &[(&str, Value<'_>)],
) -> Result<Grouping, Stop>
    ensures { MatchResult result
        (λ g. IsOperand (data_of id.now) g.key × AreFields (members_view members.now) g.fields.items)
        (StopsStages ((g : Groups) → IsOperand (data_of id.now) g.key → AreFields (members_view members.now) g.fields.items → ⊥)) }
{
    let key = operand_in(alloc, id)?;
    let fields = fields_among(alloc, members)?;
    Ok(Grouping { key, fields })
}

/// The groups that an object says: their key under `_id`, and fields.
pub(crate) fn grouping_in(alloc: Global, value: &Value<'_>) -> Result<Grouping, Stop>
    ensures { MatchResult result (IsGrouping (data_of value.now))
        (StopsStages ((g : Groups) → IsGrouping (data_of value.now) g → ⊥)) }
{
    match value {
        Value::Object(members) => match value.get("_id") {
            Some(id) => grouping_by(alloc, id, members.as_slice()),
            None => Err(Stop::Words(Unread::Stages)),
        },
        _ => Err(Stop::Words(Unread::Stages)),
    }
}
