//! The pipelines of `aggregate` as the line of `aggregate`, whatever stages they have.

ghost use Rattle.std.specs.Prelude.{◌≡◌, IfOk, Some, codes, map};
ghost use Rattle.std.specs.List.{AllZip};
ghost use Rattle.bson_base.specs.Value.{look_up};
ghost use Rattle.bson_model.specs.View.{content, items_of as items_view, view};
ghost use Rattle.bson_model.specs.declared.bson.Bson.{Bson as AnyValue};
ghost use Rattle.fallowtime_statements.specs.Staging.{AreStages, IsAggregate, IsStage, line_of_stages};

use crate::counting::absent;
use crate::fault::{Code, Fault, refuse};
use crate::finding::stage_of;
use crate::lines::{copy_of_value, statement_by, value_in};
use crate::statement::Statement;
use bson_model::extjson::Mode;
use bson_model::{Bson, Document};
use cli_convert::IdMaker;
use fallowtime_words::Command;
use std::alloc::{AllocError, Global};

/// Whether there are stages of this name.
fn is_had(name: &str) -> bool {
    matches!(
        name,
        "$match" | "$sort" | "$skip" | "$limit" | "$project" | "$count" | "$unwind" | "$group"
    )
}

/// Refuses a stage of another name. `NotImplemented` then.
fn had(alloc: Global, stage: &Bson) -> Result<(), Fault> {
    match stage_of(stage) {
        Some((name, _)) if is_had(name) => Ok(()),
        _ => Err(absent(alloc)),
    }
}

/// A copy of a stage. `NotImplemented` if there are none of its name, and `BadValue` as of `copy_of_value`.
fn copy_of_stage(alloc: Global, stage: &Bson) -> Result<Bson, Fault>
    ensures { IfOk result (λ s. IsStage (view stage.now) (view s)) }
{
    had(alloc, stage)?;
    let copy = copy_of_value(alloc, stage, "pipeline")?;
    Ok(Bson::Document(copy))
}

/// Copies of stages.
fn stages_of(alloc: Global, stages: &[Bson]) -> Result<Vec<Bson>, Fault>
    ensures { IfOk result (λ list. AllZip (λ (v w : AnyValue). IsStage (view v) (view w)) stages.now list.items) }
{
    let mut list = Vec::new(alloc);
    for stage in stages {
        let copy = copy_of_stage(alloc, stage)?;
        list.push(copy)?;
    }
    Ok(list)
}

/// The same of a value that is an array. `BadValue` if it is none.
fn stages_in_value(alloc: Global, value: &Bson) -> Result<Vec<Bson>, Fault>
    ensures { IfOk result (λ list. AreStages (Some (view value.now)) (map view list.items)) }
{
    match value {
        Bson::Array(stages) => stages_of(alloc, stages.as_slice()),
        _ => Err(refuse(alloc, Code::BadValue, "pipeline")),
    }
}

/// Copies of the stages of the pipeline of a command. `BadValue` if there is none.
fn stages_in(alloc: Global, command: &Document) -> Result<Vec<Bson>, Fault>
    ensures { IfOk result (λ list. AreStages (look_up (codes "pipeline") (content command.now)) (map view list.items)) }
{
    match value_in(command, "pipeline") {
        Some(value) => stages_in_value(alloc, value),
        None => Err(refuse(alloc, Code::BadValue, "pipeline")),
    }
}

/// A collection and stages as the values of a line.
fn values_of(alloc: Global, name: &str, stages: Vec<Bson>) -> Result<Vec<Bson>, AllocError>
    ensures { IfOk result (λ v. items_view (map view v.items) ≡ line_of_stages name.now (map view stages.items)) }
{
    let mut values = Vec::new(alloc);
    values.push(Bson::String(String::from_str(alloc, name)?))?;
    values.push(Bson::Array(stages))?;
    Ok(values)
}

/// What the pipeline of `aggregate` asks of a collection. `NotImplemented` if it has a stage of a name that isn't had,
/// `BadValue` with what can't be read of it.
pub fn pipeline_statement(
    alloc: Global,
    maker: &mut IdMaker,
    command: &Document,
    name: &str,
) -> Result<Statement, Fault>
    ensures { IfOk result (IsAggregate (look_up (codes "pipeline") (content command.now)) name.now) }
{
    let stages = stages_in(alloc, command)?;
    let values = values_of(alloc, name, stages)?;
    statement_by(alloc, maker, Command::Aggregate, Mode::Relaxed, values)
}
