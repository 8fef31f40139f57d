//! Which fields of the documents `find` returns.

ghost use Rattle.std.specs.Prelude.{◌≡◌, ◌⊎◌, [], IfOk, MatchResult, None, Some, option_map, true};
ghost use Rattle.json.specs.Value.{members_view, value_view as data_of};
ghost use Rattle.store_pipeline.specs.FieldTexts.{AreNames};
ghost use Rattle.store_pipeline.specs.Views.{paths_of as paths_seen};
ghost use Rattle.store_pipeline.specs.declared.sorted.error.PathsError.TheVariants as paths_errors;
ghost use Rattle.store_question.specs.Filters.{path_of as path_view};
ghost use Rattle.store_pipeline.specs.Texts.{path_in as keys_in};
ghost use Rattle.fallowtime_requests.specs.Arranging.{StopsFields, StopsOptions};
ghost use Rattle.fallowtime_requests.specs.Fields.{AreNone, CanName, FieldsAre, GoTogether, IsOfTexts, NamesNone, TextsNameNone, IsWhere, marked_behind, marked_of, marked_under, none_marked, paths_given, stays_in};
ghost use Rattle.fallowtime_requests.specs.Plain.{have_plain_paths};
ghost use Rattle.fallowtime_requests.specs.declared.stop.Stop.TheVariants.{Memory, Words};
ghost use Rattle.fallowtime_requests.specs.declared.unread.Unread.TheVariants as unread;

use crate::plain::both_plain;
use crate::stop::Stop;
use crate::unread::Unread;
use json::Value;
use std::alloc::{AllocError, Global};
use store_pipeline::sorted::{
    Fields, PathsError, check_mixed, check_paths, fields_alone, kept_fields, other_fields,
    paths_of, sort_key_by,
};

/// Paths of fields that are kept, and of fields that are left out.
#[derive(Drop)]
pub(crate) struct Named {
    kept: Vec<Vec<String>>,
    left_out: Vec<Vec<String>>,
}

/// The fields at paths, and the `_id`; none, for all, without paths. The error is a refused growth.
fn fields_at(alloc: Global, kept: Vec<Vec<String>>) -> Result<Option<Fields>, AllocError>
    ensures fields { IfOk result (IsWhere (paths_seen kept.items) []) }
    ensures none { IfOk result (AreNone (paths_seen kept.items) []) }
{
    if kept.is_empty() {
        return Ok(None);
    }
    Ok(Some(kept_fields(alloc, kept)?))
}

/// The fields that stay where paths name those that are kept, and those that are left out; none, for all, without
/// paths. `Mixed` and `Collision` as of `check_mixed`, and `Memory`.
fn fields_where(
    alloc: Global,
    kept: Vec<Vec<String>>,
    left_out: Vec<Vec<String>>,
) -> Result<Option<Fields>, PathsError>
    ensures fields { IfOk result (IsWhere (paths_seen kept.items) (paths_seen left_out.items)) }
    ensures none { IfOk result (AreNone (paths_seen kept.items) (paths_seen left_out.items)) }
    ensures together { MatchResult result (λ _. GoTogether (paths_seen kept.items) (paths_seen left_out.items))
        (λ e. (e ≡ paths_errors.Memory) ⊎ (GoTogether (paths_seen kept.items) (paths_seen left_out.items) → ⊥)) }
{
    if left_out.is_empty() {
        return Ok(fields_at(alloc, kept)?);
    }
    if kept.is_empty() {
        return Ok(Some(other_fields(left_out)));
    }
    check_mixed(kept.as_slice(), left_out.as_slice())?;
    Ok(Some(fields_alone(kept)))
}

/// The paths of a text, if there is one.
fn paths_given(alloc: Global, text: Option<&str>) -> Result<Vec<Vec<String>>, PathsError>
    ensures { MatchResult result
        (λ paths. (paths_seen paths.items ≡ paths_given (option_map (λ t. t.now) text.entry)) × AreNames (paths_seen paths.items))
        (λ e. (e ≡ paths_errors.Memory) ⊎ (AreNames (paths_given (option_map (λ t. t.now) text.entry)) → ⊥)) }
{
    match text {
        Some(text) => paths_of(alloc, text),
        None => Ok(Vec::new(alloc)),
    }
}

/// The fields of the texts of `--fields` and `--without`, and whether their paths are plain.
fn fields_given(
    alloc: Global,
    fields: Option<&str>,
    without: Option<&str>,
) -> Result<(Option<Fields>, bool), PathsError>
    ensures { MatchResult result
        (λ p. IsOfTexts (option_map (λ t. t.now) fields.entry) (option_map (λ t. t.now) without.entry) p.0
        × (p.1 ≡ have_plain_paths (option_map (λ t. t.now) fields.entry) (option_map (λ t. t.now) without.entry)))
        (λ e. (e ≡ paths_errors.Memory)
        ⊎ TextsNameNone (option_map (λ t. t.now) fields.entry) (option_map (λ t. t.now) without.entry)) }
{
    let kept = paths_given(alloc, fields)?;
    let left_out = paths_given(alloc, without)?;
    let plain = both_plain(kept.as_slice(), left_out.as_slice());
    let fields = fields_where(alloc, kept, left_out)?;
    Ok((fields, plain))
}

/// Why paths that can't name fields are refused.
fn stop_of(error: PathsError, why: Unread) -> Stop
    ensures { ((error ≡ paths_errors.Memory) × (result ≡ Memory)) ⊎ ((error ≡ paths_errors.Memory → ⊥) × (result ≡ Words why)) }
{
    match error {
        PathsError::Memory => Stop::Memory,
        _ => Stop::Words(why),
    }
}

/// The fields of a command line: those of the texts of `--fields` and `--without`. `Words` of `Fields` if their paths
/// can't name fields, or else of `Options` if one of them isn't plain, so that it is likely to be meant as something
/// else.
pub(crate) fn fields_of_words(
    alloc: Global,
    fields: Option<&str>,
    without: Option<&str>,
) -> Result<Option<Fields>, Stop>
    ensures { MatchResult result
        (λ f. IsOfTexts (option_map (λ t. t.now) fields.entry) (option_map (λ t. t.now) without.entry) f
        × (have_plain_paths (option_map (λ t. t.now) fields.entry) (option_map (λ t. t.now) without.entry) ≡ true))
        (StopsFields (option_map (λ t. t.now) fields.entry) (option_map (λ t. t.now) without.entry)) }
{
    match fields_given(alloc, fields, without) {
        Ok((fields, plain)) => {
            if plain {
                Ok(fields)
            } else {
                Err(Stop::Words(Unread::Options))
            }
        }
        Err(error) => Err(stop_of(error, Unread::Fields)),
    }
}

/// Whether the field at a path is kept.
fn stays(value: &Value<'_>) -> Option<bool>
    ensures { result ≡ stays_in (data_of value.now) }
{
    match value {
        Value::Bool(stays) => Some(*stays),
        Value::Number(text) => match *text {
            "1" => Some(true),
            "0" => Some(false),
            _ => None,
        },
        _ => None,
    }
}

/// The keys of a path.
fn path_in(alloc: Global, text: &str) -> Result<Vec<String>, AllocError>
    ensures { IfOk result (λ path. path_view path.items ≡ keys_in text.now) }
{
    Ok(sort_key_by(alloc, text, false)?.path)
}

/// The paths that members name.
fn named_among(alloc: Global, members: &[(&str, Value<'_>)]) -> Result<Named, Stop>
    ensures { MatchResult result (λ named. marked_behind none_marked (members_view members.now) ≡ Some (marked_of named))
        (λ s. (s ≡ Memory) ⊎ ((s ≡ Words unread.Options) × (marked_behind none_marked (members_view members.now) ≡ None))) }
{
    let mut named = Named {
        kept: Vec::new(alloc),
        left_out: Vec::new(alloc),
    };
    for (name, value) in members {
        let stays = stays(value).ok_or(Stop::Words(Unread::Options))?;
        let path = path_in(alloc, *name)?;
        if stays {
            named.kept.push(path)?;
        } else {
            named.left_out.push(path)?;
        }
    }
    Ok(named)
}

/// The paths that an object names.
fn named_in(alloc: Global, value: &Value<'_>) -> Result<Named, Stop>
    ensures { MatchResult result (λ named. marked_under (data_of value.now) ≡ Some (marked_of named))
        (λ s. (s ≡ Memory) ⊎ ((s ≡ Words unread.Options) × (marked_under (data_of value.now) ≡ None))) }
{
    match value {
        Value::Object(members) => named_among(alloc, members.as_slice()),
        _ => Err(Stop::Words(Unread::Options)),
    }
}

/// The fields of named paths. Errors as of `check_paths` and `check_mixed`, and `Memory`.
fn fields_named(alloc: Global, named: Named) -> Result<Option<Fields>, PathsError>
    ensures { MatchResult result
        (λ f. IsWhere (paths_seen named.kept.items) (paths_seen named.left_out.items) f
        × AreNone (paths_seen named.kept.items) (paths_seen named.left_out.items) f
        × CanName (paths_seen named.kept.items) (paths_seen named.left_out.items))
        (λ e. (e ≡ paths_errors.Memory) ⊎ (CanName (paths_seen named.kept.items) (paths_seen named.left_out.items) → ⊥)) }
{
    check_paths(named.kept.as_slice())?;
    check_paths(named.left_out.as_slice())?;
    let Named { kept, left_out } = named;
    fields_where(alloc, kept, left_out)
}

/// The fields that an object of paths says: 1 or true at a path that is kept, 0 or false at one that is left out.
/// `Words` if it is no such object, or if the paths can't name fields.
pub(crate) fn fields_in(alloc: Global, value: &Value<'_>) -> Result<Option<Fields>, Stop>
    ensures { MatchResult result (FieldsAre (data_of value.now)) (StopsOptions (NamesNone (data_of value.now))) }
{
    let named = named_in(alloc, value)?;
    match fields_named(alloc, named) {
        Ok(fields) => Ok(fields),
        Err(error) => Err(stop_of(error, Unread::Options)),
    }
}
