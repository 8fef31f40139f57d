//! Pipelines, as arrays of stages.

ghost use Rattle.std.specs.Prelude.{◌≡◌, ◌⊎◌, ◌≢◌, MatchResult, option_map};
ghost use Rattle.json.specs.Json.{object, string};
ghost use Rattle.json.specs.Value.{items_view, members_view, value_view as data_of};
ghost use Rattle.store_pipeline.specs.declared.stage.Stage.{Stage as Made};
ghost use Rattle.store_question.specs.declared.question.Question.{Question as Asking};
ghost use Rattle.fallowtime_requests.specs.Inputs.{seen, tree, word};
ghost use Rattle.fallowtime_requests.specs.Reading.{StopsAmong, StopsNamed, StopsPipeline, StopsQuery, StopsStage, StopsStages, StopsTree};
ghost use Rattle.fallowtime_requests.specs.Staging.{AreAsked, AreStages, HasPipeline, IsNamed, IsPipeline, IsQuestion, IsStage, match_of, stage_named};
ghost use Rattle.fallowtime_requests.specs.declared.staging.StageName.TheVariants as names;
ghost use Rattle.fallowtime_requests.specs.declared.stop.Stop.TheVariants.{Memory, Words};
ghost use Rattle.fallowtime_requests.specs.declared.unread.Unread.TheVariants as unread;

use crate::arranging::{count_in, keys_in};
use crate::fields::fields_in;
use crate::grouping::{grouping_in, is_field_name};
use crate::input::Input;
use crate::reading::ask_for_all;
use crate::stop::Stop;
use crate::stream::items_of;
use crate::unread::Unread;
use crate::unwinding::unwinding_in;
use bson_json_read::Scratch;
use json::Value;
use std::alloc::Global;
use store_pipeline::Stage;
use store_question::Question;
use store_question_read::{QueryError, query_of};

/// The stages of a pipeline, by their names.
#[derive(Clone, Copy)]
pub(crate) enum StageName {
    /// `$match`.
    Match,
    /// `$sort`.
    Sort,
    /// `$skip`.
    Skip,
    /// `$limit`.
    Limit,
    /// `$project`.
    Project,
    /// `$count`.
    Count,
    /// `$unwind`.
    Unwind,
    /// `$group`.
    Group,
}

/// The stage that a key names.
fn stage_named(name: &str) -> Option<StageName>
    ensures { result ≡ stage_named name.now }
{
    match name {
        "$match" => Some(StageName::Match),
        "$sort" => Some(StageName::Sort),
        "$skip" => Some(StageName::Skip),
        "$limit" => Some(StageName::Limit),
        "$project" => Some(StageName::Project),
        "$count" => Some(StageName::Count),
        "$unwind" => Some(StageName::Unwind),
        "$group" => Some(StageName::Group),
        _ => None,
    }
}

/// Why a stage isn't read of which a part can't be.
fn stop_of_part(stop: Stop) -> Stop
    ensures { ((stop ≡ Memory) × (result ≡ Memory)) ⊎ ((stop ≢ Memory) × (result ≡ Words unread.Stages)) }
{
    match stop {
        Stop::Memory => Stop::Memory,
        _ => Stop::Words(Unread::Stages),
    }
}

/// The question of a query.
fn question_in(alloc: Global, query: &Value<'_>) -> Result<Question, Stop>
    ensures { MatchResult result (IsQuestion (data_of query.now)) (StopsQuery (tree (data_of query.now))) }
{
    match query_of(alloc, query) {
        Ok(question) => Ok(question),
        Err(QueryError::Memory) => Err(Stop::Memory),
        Err(error) => Err(Stop::Words(Unread::Query(error))),
    }
}

/// The stage `$match` of a query.
fn match_in(alloc: Global, query: &Value<'_>) -> Result<Stage, Stop>
    ensures { MatchResult result (IsNamed names.Match (data_of query.now)) (StopsQuery (tree (data_of query.now))) }
{
    let question = question_in(alloc, query)?;
    Ok(Stage::Match(question))
}

/// The stage `$sort` of an object of keys, one at least.
fn sort_in(alloc: Global, order: &Value<'_>) -> Result<Stage, Stop>
    ensures { MatchResult result (IsNamed names.Sort (data_of order.now))
        (StopsStages ((s : Made) → IsNamed names.Sort (data_of order.now) s → ⊥)) }
{
    match keys_in(alloc, order) {
        Ok(keys) => {
            if keys.as_slice().is_empty() {
                Err(Stop::Words(Unread::Stages))
            } else {
                Ok(Stage::Sort(keys))
            }
        }
        Err(stop) => Err(stop_of_part(stop)),
    }
}

/// The stage `$skip` of a number.
fn skip_in(number: &Value<'_>) -> Result<Stage, Stop>
    ensures { MatchResult result (IsNamed names.Skip (data_of number.now))
        (StopsStages ((s : Made) → IsNamed names.Skip (data_of number.now) s → ⊥)) }
{
    match count_in(number) {
        Some(count) => Ok(Stage::Skip(count)),
        None => Err(Stop::Words(Unread::Stages)),
    }
}

/// The stage `$limit` of a number, which isn't 0.
fn limit_in(number: &Value<'_>) -> Result<Stage, Stop>
    ensures { MatchResult result (IsNamed names.Limit (data_of number.now))
        (StopsStages ((s : Made) → IsNamed names.Limit (data_of number.now) s → ⊥)) }
{
    match count_in(number) {
        Some(count) => {
            if count == 0 {
                Err(Stop::Words(Unread::Stages))
            } else {
                Ok(Stage::Limit(count))
            }
        }
        None => Err(Stop::Words(Unread::Stages)),
    }
}

/// The stage `$project` of an object of fields, one at least.
fn projection_in(alloc: Global, fields: &Value<'_>) -> Result<Stage, Stop>
    ensures { MatchResult result (IsNamed names.Project (data_of fields.now))
        (StopsStages ((s : Made) → IsNamed names.Project (data_of fields.now) s → ⊥)) }
{
    match fields_in(alloc, fields) {
        Ok(fields) => match fields {
            Some(fields) => Ok(Stage::Project(fields)),
            None => Err(Stop::Words(Unread::Stages)),
        },
        Err(stop) => Err(stop_of_part(stop)),
    }
}

/// The stage `$count` of the name of a field.
fn count_under(alloc: Global, name: &str) -> Result<Stage, Stop>
    ensures { MatchResult result (IsNamed names.Count (string name.now))
        (StopsStages ((s : Made) → IsNamed names.Count (string name.now) s → ⊥)) }
{
    if is_field_name(name) {
        Ok(Stage::Count(String::from_str(alloc, name)?))
    } else {
        Err(Stop::Words(Unread::Stages))
    }
}

/// The stage `$count` of a text, the name of a field.
fn count_of_text(alloc: Global, text: &Value<'_>) -> Result<Stage, Stop>
    ensures { MatchResult result (IsNamed names.Count (data_of text.now))
        (StopsStages ((s : Made) → IsNamed names.Count (data_of text.now) s → ⊥)) }
{
    match text {
        Value::String(name) => count_under(alloc, *name),
        _ => Err(Stop::Words(Unread::Stages)),
    }
}

/// The stage `$unwind`.
fn unwind_in(alloc: Global, value: &Value<'_>) -> Result<Stage, Stop>
    ensures { MatchResult result (IsNamed names.Unwind (data_of value.now))
        (StopsStages ((s : Made) → IsNamed names.Unwind (data_of value.now) s → ⊥)) }
{
    let unwinding = unwinding_in(alloc, value)?;
    Ok(Stage::Unwind(unwinding))
}

/// The stage `$group`.
fn group_in(alloc: Global, value: &Value<'_>) -> Result<Stage, Stop>
    ensures { MatchResult result (IsNamed names.Group (data_of value.now))
        (StopsStages ((s : Made) → IsNamed names.Group (data_of value.now) s → ⊥)) }
{
    let grouping = grouping_in(alloc, value)?;
    Ok(Stage::Group(grouping))
}

/// The stage of a name that a value says.
fn stage_of(alloc: Global, name: StageName, value: &Value<'_>) -> Result<Stage, Stop>
    ensures { MatchResult result (IsNamed name (data_of value.now)) (StopsNamed name (data_of value.now)) }
{
    match name {
        StageName::Match => match_in(alloc, value),
        StageName::Sort => sort_in(alloc, value),
        StageName::Skip => skip_in(value),
        StageName::Limit => limit_in(value),
        StageName::Project => projection_in(alloc, value),
        StageName::Count => count_of_text(alloc, value),
        StageName::Unwind => unwind_in(alloc, value),
        StageName::Group => group_in(alloc, value),
    }
}

/// The stage that the members of an object say.
fn stage_among(alloc: Global, members: &[(&str, Value<'_>)]) -> Result<Stage, Stop>
    ensures { MatchResult result (IsStage (object (members_view members.now)))
        (StopsStage (object (members_view members.now))) }
{
    match members {
        [(name, value)] => match stage_named(*name) {
            Some(name) => stage_of(alloc, name, value),
            None => Err(Stop::Words(Unread::Stages)),
        },
        _ => Err(Stop::Words(Unread::Stages)),
    }
}

/// The stage that a value is.
fn stage_in(alloc: Global, value: &Value<'_>) -> Result<Stage, Stop>
    ensures { MatchResult result (IsStage (data_of value.now)) (StopsStage (data_of value.now)) }
{
    match value {
        Value::Object(members) => stage_among(alloc, members.as_slice()),
        _ => Err(Stop::Words(Unread::Stages)),
    }
}

/// The stages that values are, one after the other.
fn stages_of(alloc: Global, items: &[Value<'_>]) -> Result<Vec<Stage>, Stop>
    ensures { MatchResult result (λ stages. AreStages (items_view items.now) stages.items)
        (StopsAmong (items_view items.now)) }
{
    let mut stages = Vec::new(alloc);
    for item in items {
        let stage = stage_in(alloc, item)?;
        stages.push(stage)?;
    }
    Ok(stages)
}

/// The query of a stage that is a `$match`, if it is one.
fn query_of_match<'t, 'w>(stage: &'t Value<'w>) -> Option<&'t Value<'w>>
    ensures { option_map (λ query. data_of query.now) result ≡ match_of (data_of stage.now) }
{
    match stage {
        Value::Object(members) => query_among(members.as_slice()),
        _ => None,
    }
}

/// The query of a `$match` that the members of a stage are.
fn query_among<'t, 'w>(members: &'t [(&'w str, Value<'w>)]) -> Option<&'t Value<'w>>
    ensures { option_map (λ query. data_of query.now) result ≡ match_of (object (members_view members.now)) }
{
    match members {
        [(name, query)] => { if *name == "$match" { Some(query) } else { None } }
        _ => None,
    }
}

/// The question of a `$match` in front, and the stages behind it.
fn matched(
    alloc: Global,
    query: &Value<'_>,
    rest: &[Value<'_>],
) -> Result<(Question, Vec<Stage>), Stop>
    ensures { MatchResult result
        (λ p. IsQuestion (data_of query.now) p.0 × AreStages (items_view rest.now) p.1.items)
        (λ s. StopsQuery (tree (data_of query.now)) s
        ⊎ (((q : Asking) × IsQuestion (data_of query.now) q) × StopsAmong (items_view rest.now) s)) }
{
    let question = question_in(alloc, query)?;
    let stages = stages_of(alloc, rest)?;
    Ok((question, stages))
}

/// The question of a leading `$match`, or else that of all documents, and the stages behind it.
fn pipeline_of_items(alloc: Global, items: &[Value<'_>]) -> Result<(Question, Vec<Stage>), Stop>
    ensures { MatchResult result (λ p. AreAsked (items_view items.now) p.0 p.1.items)
        (StopsAmong (items_view items.now)) }
{
    let Some((first, rest)) = items.split_first() else {
        return Ok((ask_for_all(alloc), Vec::new(alloc)));
    };
    match query_of_match(first) {
        Some(query) => matched(alloc, query, rest),
        None => {
            let stages = stages_of(alloc, items)?;
            Ok((ask_for_all(alloc), stages))
        }
    }
}

/// The question and the stages of a pipeline.
fn pipeline_of(alloc: Global, tree: &Value<'_>) -> Result<(Question, Vec<Stage>), Stop>
    ensures { MatchResult result (λ p. IsPipeline (data_of tree.now) p.0 p.1.items)
        (StopsTree (data_of tree.now)) }
{
    match items_of(tree) {
        Some(items) => pipeline_of_items(alloc, items),
        None => Err(Stop::Words(Unread::Stages)),
    }
}

/// The question and the stages of the text of a pipeline.
fn pipeline_of_text(
    alloc: Global,
    text: &str,
    scratch: &mut Scratch,
) -> Result<(Question, Vec<Stage>), Stop>
    ensures { MatchResult result (λ p. HasPipeline (word text.now) p.0 p.1.items)
        (StopsPipeline (word text.now)) }
{
    match Value::parse_strict(alloc, text, scratch) {
        Ok(tree) => pipeline_of(alloc, &tree),
        Err(json::Error::OutOfMemory) => Err(Stop::Memory),
        Err(_) => Err(Stop::Words(Unread::Stages)),
    }
}

/// The question and the stages of a pipeline: that of the query of a `$match` in front, or else that of all documents,
/// and what is behind it.
///
/// `Words` of `Stages` if it is no array of stages, or of `Query` if a `$match` has no query.
pub(crate) fn pipeline_in(
    alloc: Global,
    input: Input<'_, '_>,
    scratch: &mut Scratch,
) -> Result<(Question, Vec<Stage>), Stop>
    ensures { MatchResult result (λ p. HasPipeline (seen input.entry) p.0 p.1.items)
        (StopsPipeline (seen input.entry)) }
{
    match input {
        Input::Word(text) => pipeline_of_text(alloc, text, scratch),
        Input::Tree(tree) => pipeline_of(alloc, tree),
    }
}
