//! What a query fixes of the documents that answer it.

ghost use Rattle.std.specs.Prelude.{◌≡◌, pos};
ghost use Rattle.bson_base.specs.Scalars.{millis_of};
ghost use Rattle.json.specs.Find.{get};
ghost use Rattle.json.specs.Value.{items_view, members_view, value_view as data_of};
ghost use Rattle.store_question_read.specs.UpdateOutcome.{Gives};
ghost use Rattle.store_question_read.specs.Seed.{eq, fixed, fixed_by, nothing, with_condition as condition_in, with_each as each_in, with_entries as entries_in, with_entry as entry_in, with_id as id_in, with_operand as operand_in, with_plan as plan_in, with_queries as queries_in, with_query as query_in, with_value as value_in};

use crate::update::field;
use crate::update_error::{ReadError, Reason, at};
use crate::update_values::value;
use crate::update_words::{Changing, Operator};
use crate::{begins_with_dollar, has_operators};
use bson_base::DateTime;
use bson_model::Bson;
use json::Value;
use std::alloc::Global;
use store_update::Step;

/// The values of the equality conditions of a query, each under its path: what is put in if no document answers it begins
/// with them.
#[derive(Drop)]
pub struct Seed {
    /// The value of the `_id`, if there is such a condition.
    pub id: Option<Bson>,
    /// The steps that set the others, in the order of the query.
    pub steps: Vec<Step>,
}

/// The date that is handed on, which no step gets.
fn no_date() -> DateTime
    ensures { millis_of result ≡ pos 0 }
{
    DateTime::from_millis(0)
}

/// The seed, and this value of the `_id`.
fn with_id(alloc: Global, seed: Seed, path: &str, body: &Value<'_>) -> Result<Seed, ReadError>
    ensures { Gives fixed_by result (id_in (fixed_by seed) path.now (data_of body.now)) }
{
    if seed.id.is_some() {
        return Err(at(alloc, Reason::Conflict, "$eq", path));
    }
    let id = value(alloc, "$eq", path, body)?;
    Ok(Seed {
        id: Some(id),
        steps: seed.steps,
    })
}

/// The seed, and a step that sets this value at the path.
fn with_step(alloc: Global, seed: Seed, path: &str, body: &Value<'_>) -> Result<Seed, ReadError>
    ensures { Gives fixed_by result (plan_in (fixed_by seed) path.now (data_of body.now)) }
{
    let operator = Operator::At(Changing::Set);
    let step = field(
        alloc,
        no_date(),
        seed.steps.as_slice(),
        operator,
        "$eq",
        path,
        body,
    )?;
    let mut steps = seed.steps;
    steps.push(step)?;
    Ok(Seed { id: seed.id, steps })
}

/// The seed, and this value at the path.
fn with_value(alloc: Global, seed: Seed, path: &str, body: &Value<'_>) -> Result<Seed, ReadError>
    ensures { Gives fixed_by result (value_in (fixed_by seed) path.now (data_of body.now)) }
{
    if path == "_id" {
        with_id(alloc, seed, path, body)
    } else {
        with_step(alloc, seed, path, body)
    }
}

/// The seed, and what operators under a path fix.
fn with_operators(
    alloc: Global,
    seed: Seed,
    path: &str,
    body: &Value<'_>,
) -> Result<Seed, ReadError>
    ensures { Gives fixed_by result (operand_in (fixed_by seed) path.now (get eq (data_of body.now))) }
{
    match body.get("$eq") {
        Some(operand) => with_value(alloc, seed, path, operand),
        None => Ok(seed),
    }
}

/// The seed, and what is asked of a path.
fn with_condition(
    alloc: Global,
    seed: Seed,
    path: &str,
    body: &Value<'_>,
) -> Result<Seed, ReadError>
    ensures { Gives fixed_by result (condition_in (fixed_by seed) path.now (data_of body.now)) }
{
    if has_operators(body) {
        with_operators(alloc, seed, path, body)
    } else {
        with_value(alloc, seed, path, body)
    }
}

/// The seed, and what an entry of a query fixes.
#[cycle(seed)]
fn with_entry(alloc: Global, seed: Seed, key: &str, body: &Value<'_>) -> Result<Seed, ReadError>
    ensures { Gives fixed_by result (entry_in (fixed_by seed) key.now (data_of body.now) (each_in (fixed_by seed) (data_of body.now))) }
{
    if key == "$and" {
        return with_each(alloc, seed, body);
    }
    if begins_with_dollar(key) {
        return Ok(seed);
    }
    with_condition(alloc, seed, key, body)
}

/// The seed, and what the members of a query fix, in their order. The error is that of the first one at fault.
#[cycle(seed)]
fn with_entries(alloc: Global, seed: Seed, members: &[(&str, Value<'_>)]) -> Result<Seed, ReadError>
    ensures { Gives fixed_by result (entries_in (fixed_by seed) (members_view members.now)) }
{
    let mut seed = seed;
    for (key, body) in members {
        seed = with_entry(alloc, seed, *key, body)?;
    }
    Ok(seed)
}

/// The seed, and what a query fixes.
#[cycle(seed)]
fn with_query(alloc: Global, seed: Seed, tree: &Value<'_>) -> Result<Seed, ReadError>
    ensures { Gives fixed_by result (query_in (fixed_by seed) (data_of tree.now)) }
{
    match tree {
        Value::Object(members) => with_entries(alloc, seed, members.as_slice()),
        _ => Ok(seed),
    }
}

/// The seed, and what each of these queries fixes, in their order. The error is that of the first one at fault.
#[cycle(seed)]
fn with_queries(alloc: Global, seed: Seed, items: &[Value<'_>]) -> Result<Seed, ReadError>
    ensures { Gives fixed_by result (queries_in (fixed_by seed) (items_view items.now)) }
{
    let mut seed = seed;
    for item in items {
        seed = with_query(alloc, seed, item)?;
    }
    Ok(seed)
}

/// The seed, and what the queries of an array fix.
#[cycle(seed)]
fn with_each(alloc: Global, seed: Seed, body: &Value<'_>) -> Result<Seed, ReadError>
    ensures { Gives fixed_by result (each_in (fixed_by seed) (data_of body.now)) }
{
    match body {
        Value::Array(items) => with_queries(alloc, seed, items.as_slice()),
        _ => Ok(seed),
    }
}

/// What a query fixes of the documents that answer it, as MongoDB has it: the values of `{"path":value}` and
/// `{"path":{"$eq":value}}`, at its top and in the queries of `$and`. What other operators ask counts for nothing.
///
/// `At` for the first of the paths that isn't set so, as `update_of` says of `$set`: by Path, by Id below the `_id`, and by
/// Conflict, also of a second value for the `_id`. `Memory` if a growth was refused.
pub fn seed_of(alloc: Global, tree: &Value<'_>) -> Result<Seed, ReadError>
    ensures { Gives fixed_by result (fixed (data_of tree.now)) }
{
    let seed = Seed {
        id: None,
        steps: Vec::new(alloc),
    };
    with_query(alloc, seed, tree)
}
