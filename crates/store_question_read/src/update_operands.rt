//! What an operator `name` does at a path, by its operand.

ghost use Rattle.std.specs.Prelude.{◌≡◌, ◌∷◌, [], codes, map, option_map, IfOk};
ghost use Rattle.bson_base.specs.Scalars.{millis_of};
ghost use Rattle.bson_model.specs.View.{view};
ghost use Rattle.json.specs.Find.{get};
ghost use Rattle.json.specs.Value.{members_view, value_view as data_of};
ghost use Rattle.store_update.specs.Plan.{change_of};
ghost use Rattle.store_question_read.specs.UpdateOutcome.{Gives};
ghost use Rattle.store_question_read.specs.Read.{are_modifiers, asks_date, change as change_at, date as date_at, each as each_at, has_modifiers, include as include_at, is_date_type, is_for_date, is_modifier, one_value, place as place_at, pop as pop_at, pull as pull_at, push as push_at, slice as slice_at};

use crate::update_error::{ReadError, Reason, at};
use crate::update_values::{end_of, integer, is_condition, number, place_of, value, values};
use crate::update_words::Changing;
use bson_base::DateTime;
use bson_model::Bson;
use json::Value;
use std::alloc::{AllocError, Global};
use store_update::{Operation, Place, Push};

/// Whether a key says how items come into an array: `$each`, and if `places` where they are put and which are kept.
fn is_modifier(places: bool, key: &str) -> bool
    ensures { result ≡ is_modifier places key.now }
{
    key == "$each" || (places && (key == "$position" || key == "$slice"))
}

/// Whether all keys of an operand are modifiers; `places` allows `$position` and `$slice` beside `$each`.
fn are_modifiers(places: bool, members: &[(&str, Value<'_>)]) -> bool
    ensures { result ≡ are_modifiers places (members_view members.now) }
{
    for (key, _) in members {
        if !is_modifier(places, *key) {
            return false;
        }
    }
    true
}

/// Whether an operand is an object that has modifiers alone; `places` allows `$position` and `$slice` beside `$each`.
fn has_modifiers(places: bool, tree: &Value<'_>) -> bool
    ensures { result ≡ has_modifiers places (data_of tree.now) }
{
    match tree {
        Value::Object(members) => are_modifiers(places, members.as_slice()),
        _ => false,
    }
}

/// Whether two texts are asked for: `$type`, and `date`.
fn is_date_type(key: &str, body: &Value<'_>) -> bool
    ensures { result ≡ is_date_type key.now (data_of body.now) }
{
    match body {
        Value::String(text) => key == "$type" && *text == "date",
        _ => false,
    }
}

/// Whether the one member of an object asks for a date.
fn asks_date(members: &[(&str, Value<'_>)]) -> bool
    ensures { result ≡ asks_date (members_view members.now) }
{
    match members {
        [(key, body)] => is_date_type(*key, body),
        _ => false,
    }
}

/// Whether the date is asked for: by true, or as the kind of what is put there.
fn is_for_date(tree: &Value<'_>) -> bool
    ensures { result ≡ is_for_date (data_of tree.now) }
{
    match tree {
        Value::Bool(true) => true,
        Value::Object(members) => asks_date(members.as_slice()),
        _ => false,
    }
}

/// The date that is handed in.
fn date(
    alloc: Global,
    now: DateTime,
    name: &str,
    path: &str,
    tree: &Value<'_>,
) -> Result<Bson, ReadError>
    ensures { Gives view result (date_at name.now path.now (millis_of now) (data_of tree.now)) }
{
    if is_for_date(tree) {
        Ok(Bson::DateTime(now))
    } else {
        Err(at(alloc, Reason::Operand, name, path))
    }
}

/// Where items are put: behind all others, if nothing is said.
fn place(
    alloc: Global,
    name: &str,
    path: &str,
    tree: Option<&Value<'_>>,
) -> Result<Place, ReadError>
    ensures { Gives (λ p. p) result (place_at name.now path.now (option_map (λ j. data_of j.now) tree.entry)) }
{
    match tree {
        Some(tree) => Ok(place_of(integer(alloc, name, path, tree)?)),
        None => Ok(Place::FromLast(0)),
    }
}

/// Which items are kept: all, if nothing is said.
fn slice(
    alloc: Global,
    name: &str,
    path: &str,
    tree: Option<&Value<'_>>,
) -> Result<Option<Place>, ReadError>
    ensures { Gives (λ p. p) result (slice_at name.now path.now (option_map (λ j. data_of j.now) tree.entry)) }
{
    match tree {
        Some(tree) => Ok(Some(place_of(integer(alloc, name, path, tree)?))),
        None => Ok(None),
    }
}

/// One value as a list.
fn alone(alloc: Global, value: Bson) -> Result<Vec<Bson>, AllocError>
    ensures { IfOk result (λ v. map view v.items ≡ view value ∷ []) }
{
    let mut one = Vec::new(alloc);
    one.push(value)?;
    Ok(one)
}

/// The one value of an operand, as a list.
fn one_value(
    alloc: Global,
    name: &str,
    path: &str,
    tree: &Value<'_>,
) -> Result<Vec<Bson>, ReadError>
    ensures { Gives (λ v. map view v.items) result (one_value name.now path.now (data_of tree.now)) }
{
    let value = value(alloc, name, path, tree)?;
    Ok(alone(alloc, value)?)
}

/// The values under `$each` of an operand that has such a key and no other ones than it may.
fn each(
    alloc: Global,
    name: &str,
    path: &str,
    places: bool,
    tree: &Value<'_>,
    listed: &Value<'_>,
) -> Result<Vec<Bson>, ReadError>
    ensures { Gives (λ v. map view v.items) result (each_at name.now path.now places (data_of tree.now) (data_of listed.now)) }
{
    if has_modifiers(places, tree) {
        values(alloc, name, path, listed)
    } else {
        Err(at(alloc, Reason::Operand, name, path))
    }
}

/// What `$push` does: it adds one value, or the values of `$each`, where `$position` says, and keeps what `$slice`
/// says. `At` by Operand if there is another key beside `$each`, if `$each` has no array of values, or if `$position`
/// or `$slice` has no integer of 32 or 64 bits.
fn push(alloc: Global, name: &str, path: &str, tree: &Value<'_>) -> Result<Operation, ReadError>
    ensures { Gives change_of result (push_at name.now path.now (get (codes "$each") (data_of tree.now)) (data_of tree.now)) }
{
    match tree.get("$each") {
        Some(listed) => {
            let items = each(alloc, name, path, true, tree, listed)?;
            let place = place(alloc, name, path, tree.get("$position"))?;
            let slice = slice(alloc, name, path, tree.get("$slice"))?;
            Ok(Operation::Push(Push {
                items,
                place,
                slice,
            }))
        }
        None => {
            let items = one_value(alloc, name, path, tree)?;
            Ok(Operation::Push(Push {
                items,
                place: Place::FromLast(0),
                slice: None,
            }))
        }
    }
}

/// What `$addToSet` does: it adds one value, or the values of `$each`, where they are missing. `At` by Operand if
/// there is any other key beside `$each`, if its value is no array, or if something in it spells no value.
fn include(alloc: Global, name: &str, path: &str, tree: &Value<'_>) -> Result<Operation, ReadError>
    ensures { Gives change_of result (include_at name.now path.now (get (codes "$each") (data_of tree.now)) (data_of tree.now)) }
{
    match tree.get("$each") {
        Some(listed) => {
            let items = each(alloc, name, path, false, tree, listed)?;
            Ok(Operation::Include(items))
        }
        None => {
            let items = one_value(alloc, name, path, tree)?;
            Ok(Operation::Include(items))
        }
    }
}

/// What `$pull` does: it takes out the items that are equal to a value. `At` by Operand for a document or a regular
/// expression, which would be a condition, and for what spells no value.
fn pull(alloc: Global, name: &str, path: &str, tree: &Value<'_>) -> Result<Operation, ReadError>
    ensures { Gives change_of result (pull_at name.now path.now (data_of tree.now)) }
{
    let value = value(alloc, name, path, tree)?;
    if is_condition(&value) {
        Err(at(alloc, Reason::Operand, name, path))
    } else {
        Ok(Operation::Exclude(alone(alloc, value)?))
    }
}

/// What `$pop` does: it takes out the last item of an array by 1, the first one by -1. `At` by Operand for any other
/// operand, also for a double.
fn pop(alloc: Global, name: &str, path: &str, tree: &Value<'_>) -> Result<Operation, ReadError>
    ensures { Gives change_of result (pop_at name.now path.now (data_of tree.now)) }
{
    let number = integer(alloc, name, path, tree)?;
    match end_of(number) {
        Some(end) => Ok(Operation::Pop(end)),
        None => Err(at(alloc, Reason::Operand, name, path)),
    }
}

/// What an operator's operand says. `now` is the date of `$currentDate`.
pub(crate) fn change(
    alloc: Global,
    now: DateTime,
    changing: Changing,
    name: &str,
    path: &str,
    tree: &Value<'_>,
) -> Result<Operation, ReadError>
    ensures { Gives change_of result (change_at name.now path.now (millis_of now) changing (data_of tree.now)) }
{
    Ok(match changing {
        Changing::Set => Operation::Set(value(alloc, name, path, tree)?),
        Changing::SetOnInsert => Operation::SetOnInsert(value(alloc, name, path, tree)?),
        Changing::Unset => Operation::Unset,
        Changing::Inc => Operation::Add(number(alloc, name, path, tree)?),
        Changing::Mul => Operation::Multiply(number(alloc, name, path, tree)?),
        Changing::Min => Operation::Least(value(alloc, name, path, tree)?),
        Changing::Max => Operation::Greatest(value(alloc, name, path, tree)?),
        Changing::CurrentDate => Operation::Set(date(alloc, now, name, path, tree)?),
        Changing::Push => return push(alloc, name, path, tree),
        Changing::AddToSet => return include(alloc, name, path, tree),
        Changing::Pull => return pull(alloc, name, path, tree),
        Changing::PullAll => Operation::Exclude(values(alloc, name, path, tree)?),
        Changing::Pop => return pop(alloc, name, path, tree),
    })
}
