//! How arrays are taken apart, as JSON says it.

ghost use Rattle.std.specs.Prelude.{◌≡◌, ◌||◌, MatchResult, None, Some, codes, option_map};
ghost use Rattle.std.specs.Str.{bytes_eq};
ghost use Rattle.json.specs.Value.{members_view, value_view as data_of};
ghost use Rattle.fallowtime_requests.specs.Reading.{StopsStages};
ghost use Rattle.fallowtime_requests.specs.Staging.{are_unwind_keys, keeps_key, keeps_of, unwound_at, unwound_by, unwound_in, unwound_of};

use crate::grouping::path_in;
use crate::options::boolean_of;
use crate::stop::Stop;
use crate::unread::Unread;
use json::Value;
use std::alloc::Global;
use store_pipeline::Unwinding;

/// How an array at a path is taken apart.
fn unwinding_at(alloc: Global, path: &Value<'_>, keeps: bool) -> Result<Unwinding, Stop>
    ensures { MatchResult result (λ u. unwound_at (data_of path.now) keeps ≡ Some (unwound_of u))
        (StopsStages (unwound_at (data_of path.now) keeps ≡ None)) }
{
    match path {
        Value::String(text) => {
            let path = path_in(alloc, *text)?;
            Ok(Unwinding { path, keeps })
        }
        _ => Err(Stop::Words(Unread::Stages)),
    }
}

/// Whether an object that says how an array is taken apart may have a key.
fn is_unwind_key(name: &str) -> bool
    ensures { result ≡ (bytes_eq name.now (codes "path") || bytes_eq name.now keeps_key) }
{
    name == "path" || name == "preserveNullAndEmptyArrays"
}

/// Whether it may have each of these.
fn are_unwind_keys(members: &[(&str, Value<'_>)]) -> bool
    ensures { result ≡ are_unwind_keys (members_view members.now) }
{
    for (name, _) in members {
        if !is_unwind_key(*name) {
            return false;
        }
    }
    true
}

/// Whether a document without an item stays, by what is said of that.
fn keeps_of(value: Option<&Value<'_>>) -> Option<bool>
    ensures { result ≡ keeps_of (option_map (λ v. data_of v.now) value.entry) }
{
    match value {
        Some(value) => boolean_of(value),
        None => Some(false),
    }
}

/// How an array is taken apart, if it is said where and how.
fn unwinding_by(
    alloc: Global,
    path: Option<&Value<'_>>,
    keeps: Option<bool>,
) -> Result<Unwinding, Stop>
    ensures { MatchResult result
        (λ u. unwound_by (option_map (λ p. data_of p.now) path.entry) keeps ≡ Some (unwound_of u))
        (StopsStages (unwound_by (option_map (λ p. data_of p.now) path.entry) keeps ≡ None)) }
{
    let path = path.ok_or(Stop::Words(Unread::Stages))?;
    let keeps = keeps.ok_or(Stop::Words(Unread::Stages))?;
    unwinding_at(alloc, path, keeps)
}

/// How an array is taken apart by a path alone, or by an object with it.
pub(crate) fn unwinding_in(alloc: Global, value: &Value<'_>) -> Result<Unwinding, Stop>
    ensures { MatchResult result (λ u. unwound_in (data_of value.now) ≡ Some (unwound_of u))
        (StopsStages (unwound_in (data_of value.now) ≡ None)) }
{
    match value {
        Value::Object(members) => {
            if are_unwind_keys(members.as_slice()) {
                let path = value.get("path");
                let keeps = value.get("preserveNullAndEmptyArrays");
                unwinding_by(alloc, path, keeps_of(keeps))
            } else {
                Err(Stop::Words(Unread::Stages))
            }
        }
        _ => unwinding_at(alloc, value, false),
    }
}
