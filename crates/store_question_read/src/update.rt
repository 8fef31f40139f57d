//! Updates.

ghost use Rattle.std.specs.Prelude.{◌≡◌, map, []};
ghost use Rattle.bson_base.specs.Scalars.{millis_of};
ghost use Rattle.json.specs.Json.{object};
ghost use Rattle.json.specs.Value.{members_view, value_view as data_of};
ghost use Rattle.store_update.specs.Plan.{path_of, plan_of};
ghost use Rattle.store_question_read.specs.UpdateOutcome.{Gives, IsUpdate, plans_of};
ghost use Rattle.store_question_read.specs.Read.{entries as entries_at, entry as entry_at, field as field_at, fields as fields_at, operator_of, renamed as renamed_at, target as target_at, update};

use crate::update_error::{ReadError, Reason, at, fields as no_fields, operator};
use crate::update_operands::change;
use crate::update_paths::{meets, path_at};
use crate::update_words::{Operator, operator_named};
use bson_base::DateTime;
use json::{MAX_DEPTH, Reader, Scratch, Value};
use std::alloc::{AllocError, Global};
use store_update::Step;

/// The steps of an update in MongoDB's operators, in their order: `{"$set":{"a.b":1},"$inc":{"n":2}}`. `now` is the date
/// that `$currentDate` puts. The first fault in the order of the text: `Update` if it is no object, `Operator` for a name
/// that no operator has, `Fields` for an operator without an object of paths, and of an operator at a path `At`: by
/// Path, a key that is empty or begins with `$`; by Id, a path that begins with `_id`; by Conflict, a path of which one
/// before it is the beginning, or that is the beginning of one; by Operand, an operand that isn't one of the operator's.
/// `Memory` if a growth was refused, or a value has more than 1000 levels.
pub fn update_of(alloc: Global, now: DateTime, tree: &Value<'_>) -> Result<Vec<Step>, ReadError>
    ensures { Gives plans_of result (update (millis_of now) (data_of tree.now)) }
{
    match tree {
        Value::Object(members) => entries(alloc, now, members.as_slice()),
        _ => Err(ReadError::Update),
    }
}

/// The steps of all operators of an update, in their order. The error is that of the first one at fault.
fn entries(
    alloc: Global,
    now: DateTime,
    members: &[(&str, Value<'_>)],
) -> Result<Vec<Step>, ReadError>
    ensures { Gives plans_of result (entries_at (millis_of now) [] (members_view members.now)) }
{
    let mut steps = Vec::new(alloc);
    for (name, body) in members {
        steps = entry(alloc, now, steps, *name, body)?;
    }
    Ok(steps)
}

/// The steps, and behind them those of one operator.
fn entry(
    alloc: Global,
    now: DateTime,
    steps: Vec<Step>,
    name: &str,
    body: &Value<'_>,
) -> Result<Vec<Step>, ReadError>
    ensures { Gives plans_of result (entry_at (millis_of now) (plans_of steps) (operator_of name.now) name.now (data_of body.now)) }
{
    let Some(operator) = operator_named(name) else {
        return Err(operator(alloc, name));
    };
    match body {
        Value::Object(members) => fields(alloc, now, operator, name, steps, members.as_slice()),
        _ => Err(no_fields(alloc, name)),
    }
}

/// The steps, and behind them one for each path under an operator. The error is that of the first path at fault.
fn fields(
    alloc: Global,
    now: DateTime,
    operator: Operator,
    name: &str,
    steps: Vec<Step>,
    members: &[(&str, Value<'_>)],
) -> Result<Vec<Step>, ReadError>
    ensures { Gives plans_of result (fields_at (millis_of now) operator name.now (plans_of steps) (members_view members.now)) }
{
    let mut steps = steps;
    for (path, body) in members {
        let step = field(alloc, now, steps.as_slice(), operator, name, *path, body)?;
        steps.push(step)?;
    }
    Ok(steps)
}

/// One operator at one path, behind these steps.
pub(crate) fn field(
    alloc: Global,
    now: DateTime,
    steps: &[Step],
    operator: Operator,
    name: &str,
    path: &str,
    body: &Value<'_>,
) -> Result<Step, ReadError>
    ensures { Gives plan_of result (field_at (millis_of now) (map plan_of steps.now) operator name.now path.now (data_of body.now)) }
{
    let keys = path_at(alloc, name, path, steps)?;
    match operator {
        Operator::At(changing) => {
            let operation = change(alloc, now, changing, name, path, body)?;
            Ok(Step::At(keys, operation))
        }
        Operator::Rename => renamed(alloc, steps, name, path, keys, body),
    }
}

/// The text of the other path.
fn target<'a>(alloc: Global, name: &str, path: &str, body: &Value<'a>) -> Result<&'a str, ReadError>
    ensures { Gives (λ t. t.now) result (target_at name.now path.now (data_of body.now)) }
{
    match body {
        Value::String(text) => Ok(*text),
        _ => Err(at(alloc, Reason::Operand, name, path)),
    }
}

/// The step of `$rename`, from `keys` to the path in `body`. `At` by Operand if that is no text, and by Conflict if
/// one of the two paths is the beginning of the other; else the errors are those of `path_at`.
fn renamed(
    alloc: Global,
    steps: &[Step],
    name: &str,
    path: &str,
    keys: Vec<String>,
    body: &Value<'_>,
) -> Result<Step, ReadError>
    ensures { Gives plan_of result (renamed_at (map plan_of steps.now) name.now path.now (path_of keys.items) (data_of body.now)) }
{
    let text = target(alloc, name, path, body)?;
    let to = path_at(alloc, name, text, steps)?;
    if meets(keys.as_slice(), to.as_slice()) {
        return Err(at(alloc, Reason::Conflict, name, text));
    }
    Ok(Step::Rename(keys, to))
}

/// The byte at which a text is seen to be no JSON.
fn fault_in(text: &str, scratch: &mut Scratch) -> Result<usize, AllocError> {
    let mut reader = Reader::new(text, scratch)?;
    let _passed = reader.skip_value(MAX_DEPTH);
    Ok(reader.offset())
}

/// The steps of a text of JSON (RFC 8259). `scratch` is room that is kept from text to text. `Json` if the text is no
/// JSON or nests deeper than 128 levels, with the byte, `RepeatedKey` if an object in it has a key twice; else the
/// errors are those of `update_of`.
pub fn read_update(
    alloc: Global,
    now: DateTime,
    text: &str,
    scratch: &mut Scratch,
) -> Result<Vec<Step>, ReadError>
    ensures { IsUpdate (millis_of now) text.now result }
{
    match Value::parse_strict(alloc, text, scratch) {
        Ok(tree) => return update_of(alloc, now, &tree),
        Err(json::Error::OutOfMemory) => return Err(ReadError::Memory),
        Err(json::Error::DuplicateKey) => return Err(ReadError::RepeatedKey),
        Err(_) => {}
    }
    Err(ReadError::Json(fault_in(text, scratch)?))
}
