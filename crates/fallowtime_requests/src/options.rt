//! The options of a request, as an object behind its arguments.

ghost use Rattle.std.specs.Prelude.{◌≡◌, MatchResult, Some};
ghost use Rattle.json.specs.Value.{members_view, value_view as data_of};
ghost use Rattle.fallowtime_requests.specs.Inputs.{boolean_of, flag_among, flag_of, many_of, seen};
ghost use Rattle.fallowtime_requests.specs.Reading.{StopsOptions};

use crate::input::Input;
use crate::stop::Stop;
use crate::unread::Unread;
use json::Value;

/// The truth value that a value is, if it is one.
pub(crate) fn boolean_of(value: &Value<'_>) -> Option<bool>
    ensures { result ≡ boolean_of (data_of value.now) }
{
    match value {
        Value::Bool(is) => Some(*is),
        _ => None,
    }
}

/// What the members of an object of options, which has none but that of this name, say of it: false if it isn't there;
/// none if they are no such options.
fn flag_among(name: &str, members: &[(&str, Value<'_>)]) -> Option<bool>
    ensures { result ≡ flag_among name.now (members_view members.now) }
{
    match members {
        [] => Some(false),
        [(key, value)] => {
            if *key == name {
                boolean_of(value)
            } else {
                None
            }
        }
        _ => None,
    }
}

/// What an object of options says of the only one of them, which has this name; none if it is no such object.
pub(crate) fn flag_of(name: &str, options: &Value<'_>) -> Option<bool>
    ensures { result ≡ flag_of name.now (data_of options.now) }
{
    match options {
        Value::Object(members) => flag_among(name, members.as_slice()),
        _ => None,
    }
}

/// Whether an argument asks for all documents; none if it is no object of options.
fn many_if_any(input: Input<'_, '_>) -> Option<bool>
    ensures { result ≡ many_of (seen input.entry) }
{
    match input {
        Input::Word(_) => None,
        Input::Tree(options) => flag_of("many", options),
    }
}

/// Whether the options of an update ask for all documents: `{"many":true}`.
pub(crate) fn many_of(input: Input<'_, '_>) -> Result<bool, Stop>
    ensures { MatchResult result (λ many. many_of (seen input.entry) ≡ Some many)
        (StopsOptions (seen input.entry)) }
{
    match many_if_any(input) {
        Some(many) => Ok(many),
        None => Err(Stop::Words(Unread::Options)),
    }
}
