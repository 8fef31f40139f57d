//! What a line asks for.

ghost use Rattle.std.specs.Prelude.{◌≡◌, ℕ, List, MatchOption, MatchResult};
ghost use Rattle.std.specs.Option.{option_map};
ghost use Rattle.json.specs.Json.{string as json_string};
ghost use Rattle.json.specs.Value.{items_view, value_view as data_of};
ghost use Rattle.fallowtime_commands.specs.Lists.{behind_all, names_all, requests_in};
ghost use Rattle.fallowtime_commands.specs.Questions.{Asks, Stops};
ghost use Rattle.fallowtime_commands.specs.Reading.{Begins};

use bson_json_read::Scratch;
use cli_convert::IdMaker;
use fallowtime_requests::{Question, Stop, Unread, items_of, question_of_line};
use fallowtime_words::Command;
use json::Value;
use std::alloc::Global;

/// The text that a value is, if it is one.
fn text_in<'w>(tree: &Value<'w>) -> Option<&'w str>
    ensures { MatchOption result ((t : List ℕ) → data_of tree.now ≡ json_string t → ⊥)
        (λ t. data_of tree.now ≡ json_string t.now) }
{
    match tree {
        Value::String(text) => Some(*text),
        _ => None,
    }
}

/// The command whose name an array begins with, and what is after the name.
fn split_command<'t, 'w>(tree: &'t Value<'w>) -> Option<(Command, &'t [Value<'w>])>
    ensures { Begins (data_of tree.now) result }
{
    let items = items_of(tree)?;
    let (first, rest) = items.split_first()?;
    let name = text_in(first)?;
    let command = Command::from_word(name)?;
    Some((command, rest))
}

/// Whether a value is the name of a list of requests.
fn is_all(value: &Value<'_>) -> bool
    ensures { result ≡ names_all (data_of value.now) }
{
    match value {
        Value::String(text) => *text == "all",
        _ => false,
    }
}

/// What is after `all`, if an array begins with that.
pub(crate) fn behind_all<'t, 'w>(tree: &'t Value<'w>) -> Option<&'t [Value<'w>]>
    ensures { option_map (λ rest. items_view rest.now) result ≡ behind_all (data_of tree.now) }
{
    match items_of(tree)? {
        [first, rest @ ..] if is_all(first) => Some(rest),
        _ => None,
    }
}

/// The requests of a list, if what is after `all` is an array of them alone.
pub(crate) fn requests_in<'t, 'w>(rest: &'t [Value<'w>]) -> Option<&'t [Value<'w>]>
    ensures { option_map (λ requests. items_view requests.now) result ≡ requests_in (items_view rest.now) }
{
    match rest {
        [requests] => items_of(requests),
        _ => None,
    }
}

/// What an array asks for that has a command's name and its arguments.
pub(crate) fn question_in<'w>(
    alloc: Global,
    tree: &Value<'w>,
    maker: &mut IdMaker,
) -> Result<Question<'w>, Stop>
    ensures { MatchResult result
        (λ q. Asks maker.old maker.new (data_of tree.now) q.collection.now q.request q.layout)
        (Stops maker.old (data_of tree.now)) }
{
    let Some((command, items)) = split_command(tree) else {
        return Err(Stop::Words(Unread::Command));
    };
    let mut scratch = Scratch::new(alloc);
    question_of_line(alloc, command, items, maker, &mut scratch)
}
