//! Pipelines over bodies.

ghost use Rattle.std.specs.Prelude.{Err, MatchResult, Ok};
ghost use Rattle.store_model.specs.Reading.{Documents};
ghost use Rattle.store_pipeline.specs.Bodies.{AreBodies};
ghost use Rattle.store_pipeline.specs.Faithful.{AnswersStage, BodiesOf};
ghost use Rattle.store_pipeline.specs.Stages.{MakesAll};

use crate::counting::count;
use crate::error::PipelineError;
use crate::grouping::group;
use crate::matching::keep;
use crate::projecting::left_of_each;
use crate::skipping::{limit, skip};
use crate::sorting::put_in_order;
use crate::stage::Stage;
use crate::unwinding::unwind;
use std::alloc::Global;

/// The bodies of the documents that a stage makes of those that have these bodies.
fn make(alloc: Global, stage: &Stage, bodies: Vec<Vec<u8>>) -> Result<Vec<Vec<u8>>, PipelineError>
    ensures { AnswersStage stage.now bodies.items result }
{
    match stage {
        Stage::Match(question) => Ok(keep(alloc, bodies, question)?),
        Stage::Sort(keys) => Ok(put_in_order(alloc, bodies.as_slice(), keys.as_slice())?),
        Stage::Skip(number) => Ok(skip(bodies, *number)),
        Stage::Limit(number) => Ok(limit(bodies, *number)),
        Stage::Project(fields) => Ok(left_of_each(alloc, bodies.as_slice(), fields)?),
        Stage::Count(name) => count(alloc, bodies.as_slice(), name.as_str()),
        Stage::Unwind(unwinding) => unwind(alloc, bodies.as_slice(), unwinding),
        Stage::Group(grouping) => group(alloc, grouping, bodies.as_slice()),
    }
}

/// The bodies of the documents that a pipeline makes of those that have these bodies: each stage makes its own of those
/// of the one before it.
///
/// - `Calculation`: a sum or an average of a group has a decimal among its numbers, or its integers don't fit in 64 bits.
/// - `Document`: `TooDeep`, `Nul` or `TooLong` of the first document that a stage makes and that can't be written: over
///   100 levels, with a 00 in a key, or over 16777216 bytes; or `Memory`.
pub fn run(
    alloc: Global,
    stages: &[Stage],
    bodies: Vec<Vec<u8>>,
) -> Result<Vec<Vec<u8>>, PipelineError>
    ensures { (ds : Documents) → AreBodies bodies.items ds → MatchResult result
        (BodiesOf (λ es. MakesAll stages.now ds (Ok es)))
        (λ e. MakesAll stages.now ds (Err e)) }
{
    let mut bodies = bodies;
    for stage in stages {
        bodies = make(alloc, stage, bodies)?;
    }
    Ok(bodies)
}
