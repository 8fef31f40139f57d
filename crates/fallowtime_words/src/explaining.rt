//! What a refusal means.

ghost use Rattle.std.specs.Prelude.{◌≡◌, ◌==◌};
ghost use Rattle.std.specs.List.{before_first};
ghost use Rattle.fallowtime_words.specs.Explaining.{IsBehind, IsKindIn, items_of};

use crate::kinds::{Item, KINDS, Kind};
use std::alloc::{AllocError, Global};

/// What is behind a front in a word, or the word if that isn't in front.
fn behind<'a>(word: &'a str, front: &str) -> &'a str
    ensures { IsBehind front.now word.now result.now }
{
    match word.strip_prefix(front) {
        Some(rest) => rest,
        None => word,
    }
}

/// What is before the first space.
fn before_space(word: &str) -> &str
    ensures { result.now ≡ before_first (λ b. b == 32) word.now }
{
    match word.split_once(' ') {
        Some((front, _)) => front,
        None => word,
    }
}

/// The kind in a word: what is before its first space, behind `refused: ` or `words: `.
fn kind_in(word: &str) -> &str
    ensures { IsKindIn word.now result.now }
{
    let word = behind(word, "refused: ");
    let word = behind(word, "words: ");
    before_space(word)
}

/// The items of the first of the kinds that has this name.
fn items_in(kinds: &'static [Kind], name: &str) -> &'static [Item]
    ensures { result.now ≡ items_of kinds.now name.now }
{
    for kind in kinds {
        if kind.name == name {
            return kind.items;
        }
    }
    &[]
}

/// What a kind of refusal means, and what to do: the items of the page on refusals that name it. There are none if there
/// is no such kind.
pub(crate) fn explanation(word: &str) -> &'static [Item] {
    items_in(&KINDS, kind_in(word))
}

/// The names of kinds, each with a space in front.
fn names_of(alloc: Global, kinds: &[Kind]) -> Result<String, AllocError> {
    let mut text = String::new(alloc);
    for kind in kinds {
        text.push_str(" ")?;
        text.push_str(kind.name)?;
    }
    Ok(text)
}

/// The kinds of refusals, each with a space in front.
pub fn kind_names(alloc: Global) -> Result<String, AllocError> {
    names_of(alloc, &KINDS)
}
