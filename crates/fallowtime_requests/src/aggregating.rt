//! What is asked of a pipeline.

ghost use Rattle.std.specs.Prelude.{◌∷◌, [], MatchResult, map};
ghost use Rattle.fallowtime_requests.specs.Inputs.{seen};
ghost use Rattle.fallowtime_requests.specs.Reading.{IsUnread, Reads};
ghost use Rattle.fallowtime_requests.specs.Requests.{NameAndPipeline};
ghost use Rattle.cli_convert.specs.declared.made.IdMaker.{IdMaker as Maker};
ghost use Rattle.fallowtime_words.specs.declared.command.Command.TheVariants as commands;
ghost use Rattle.fallowtime_words.specs.declared.table.Argument.TheVariants as argument;

use crate::input::Input;
use crate::parts::collection_of;
use crate::reading::{Question, plain};
use crate::request::Request;
use crate::staging::pipeline_in;
use crate::stop::Stop;
use crate::unread::Unread;
use bson_json_read::Scratch;
use std::alloc::Global;
use store_pipeline::Stage;

/// A collection, the question of a pipeline, and its stages.
fn with_pipeline<'w>(
    alloc: Global,
    arguments: &[Input<'_, 'w>],
    scratch: &mut Scratch,
) -> Result<(&'w str, store_question::Question, Vec<Stage>), Stop>
    ensures { (m : Maker) → MatchResult result
        (λ p. NameAndPipeline (map seen arguments.now) p.0.now p.1 p.2.items)
        (IsUnread m (argument.Collection ∷ argument.Pipeline ∷ []) (map seen arguments.now)) }
{
    match arguments {
        [name, pipeline] => {
            let name = collection_of(*name)?;
            let (question, stages) = pipeline_in(alloc, *pipeline, scratch)?;
            Ok((name, question, stages))
        }
        _ => Err(Stop::Words(Unread::Arguments)),
    }
}

/// The documents that a pipeline makes.
pub(crate) fn aggregate<'w>(
    alloc: Global,
    arguments: &[Input<'_, 'w>],
    scratch: &mut Scratch,
) -> Result<Question<'w>, Stop>
    ensures { (m : Maker) → Reads m m commands.Aggregate (map seen arguments.now) result }
{
    let (collection, question, stages) = with_pipeline(alloc, arguments, scratch)?;
    Ok(plain(collection, Request::Aggregate(question, stages)))
}
