//! An argument as it comes: a word of a command line, or JSON.

ghost use Rattle.std.specs.Prelude.{◌≡◌, string_bytes};
ghost use Rattle.json.specs.Value.{value_view as data_of};
ghost use Rattle.fallowtime_requests.specs.Inputs.{seen, tree, word};

use json::Value;

/// An argument of a command.
#[derive(Clone, Copy)]
pub(crate) enum Input<'t, 'w> {
    /// A word of a command line.
    Word(&'w str),
    /// A value of the array that a line of a session is.
    Tree(&'t Value<'w>),
}

/// The argument that a word is.
pub(crate) fn of_word<'w>(text: &'w String) -> Input<'w, 'w>
    ensures { seen result ≡ word (string_bytes text.now) }
{
    Input::Word(text.as_str())
}

/// The argument that a value of JSON is.
pub(crate) fn of_value<'t, 'w>(value: &'t Value<'w>) -> Input<'t, 'w>
    ensures { seen result ≡ tree (data_of value.now) }
{
    Input::Tree(value)
}
