//! What follows a command: its arguments, and the options after them.

ghost use Rattle.std.specs.Prelude.{◌≡◌, ◌↔◌, ◌≤◌, ◌++◌, ℕ, List, IsTrue, codes, length, take, map, string_bytes, MatchOption};
ghost use Rattle.fallowtime_words.specs.Commands.{arguments, AreWords, BeginsWith, IsLast, IsQuery};
ghost use Rattle.fallowtime_words.specs.Reading.{MayFollow};
ghost use Rattle.fallowtime_words.specs.Words.{HasRest};
ghost use Rattle.fallowtime_words.specs.declared.options.Options.{Options};

use crate::command::Command;
use crate::options::{Options, read_options};
use crate::table::Argument;

/// Whether a word begins with two hyphens, as the first word of an option does.
fn is_option(word: &str) -> bool
    ensures { IsTrue result ↔ BeginsWith (codes "--") word.now }
{
    matches!(word.as_bytes(), [b'-', b'-', ..])
}

/// How many of the words are a QUERY: one, if the first is no option, or none.
fn query_count(words: &[String]) -> usize
    ensures most { result ≤ 1 }
    ensures taken { result ≤ length words.now → IsQuery (take result (map string_bytes words.now)) }
    ensures only { (taken given : List (List ℕ)) → map string_bytes words.now ≡ taken ++ given → IsQuery taken
        → MayFollow given → length taken ≡ result }
{
    match words.first() {
        Some(word) if !is_option(word.as_str()) => 1,
        _ => 0,
    }
}

/// How many of the words are for a last argument.
fn last_count(argument: Argument, words: &[String]) -> usize
    ensures most { result ≤ 1 }
    ensures taken { result ≤ length words.now → IsLast argument (take result (map string_bytes words.now)) }
    ensures only { (taken given : List (List ℕ)) → map string_bytes words.now ≡ taken ++ given → IsLast argument taken
        → MayFollow given → length taken ≡ result }
{
    match argument {
        Argument::Query => query_count(words),
        Argument::Options | Argument::Documents => 0,
        _ => 1,
    }
}

/// How many of the words are for arguments.
fn word_count(arguments: &[Argument], words: &[String]) -> usize
    ensures most { result ≤ length arguments.now }
    ensures taken { result ≤ length words.now → AreWords arguments.now (take result (map string_bytes words.now)) }
    ensures only { (taken given : List (List ℕ)) → map string_bytes words.now ≡ taken ++ given → AreWords arguments.now taken
        → MayFollow given → length taken ≡ result }
{
    match arguments {
        [] => 0,
        [argument] => last_count(*argument, words),
        [_, more @ ..] => match words {
            [] => 1,
            [_, rest @ ..] => 1 + word_count(more, rest),
        },
    }
}

/// How many of the words are for the arguments of a command.
fn argument_count(command: Command, words: &[String]) -> usize
    ensures taken { result ≤ length words.now → AreWords (arguments command) (take result (map string_bytes words.now)) }
    ensures only { (taken given : List (List ℕ)) → map string_bytes words.now ≡ taken ++ given → AreWords (arguments command) taken
        → MayFollow given → length taken ≡ result }
{
    word_count(command.signature().arguments, words)
}

/// The words of the arguments of a command, and its options; none if the words are anything else.
pub fn read_rest(command: Command, words: &[String]) -> Option<(&[String], Options)>
    ensures { MatchOption result
        ((taken : List (List ℕ)) (options : Options) → HasRest command (map string_bytes words.now) taken options → ⊥)
        (λ r. HasRest command (map string_bytes words.now) (map string_bytes r.0.now) r.1) }
{
    let (taken, given) = words.split_at_checked(argument_count(command, words))?;
    let options = read_options(given)?;
    if !command.takes(options) {
        return None;
    }
    Some((taken, options))
}
