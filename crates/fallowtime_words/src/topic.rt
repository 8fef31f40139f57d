//! What is asked of the program about itself.

ghost use Rattle.std.specs.Prelude.{◌≡◌, ◌↔◌, ◌∷◌, [], ℕ, List, IsTrue, MatchOption, Some, map, string_bytes};
ghost use Rattle.fallowtime_words.specs.Topics.{IsForHelp, IsTopic};
ghost use Rattle.fallowtime_words.specs.Commands.{command_name};
ghost use Rattle.fallowtime_words.specs.declared.command.Command.{Command as Named};
ghost use Rattle.fallowtime_words.specs.declared.topic.Topic.{Topic as About};

use crate::Command;

/// What is asked of the program about itself.
#[derive(Clone, Copy, Debug)]
pub enum Topic<'a> {
    /// `--help`, `-h` or `help` alone: what the program does, and its commands.
    Program,
    /// `version` alone: which version this is.
    Version,
    /// One of the words for help and the name of a command, in either order: what the command takes.
    Command(Command),
    /// `--explain` alone: the kinds of refusals.
    Kinds,
    /// `--explain KIND`: what a refusal means. `refused:` or `words:` may stand in front of KIND.
    Kind(&'a str),
}

/// Whether a word asks for help.
fn is_for_help(word: &str) -> bool
    ensures { IsTrue result ↔ IsForHelp word.now }
{
    matches!(word, "--help" | "-h" | "help")
}

/// The topic of a word.
fn topic_of_one(word: &str) -> Option<Topic<'_>>
    ensures { MatchOption result ((topic : About) → IsTopic (word.now ∷ []) topic → ⊥) (IsTopic (word.now ∷ [])) }
{
    match word {
        "--explain" => Some(Topic::Kinds),
        "version" => Some(Topic::Version),
        _ if is_for_help(word) => Some(Topic::Program),
        _ => None,
    }
}

/// The command that the one word names if the other asks for help.
fn helped(asking: &str, name: &str) -> Option<Command>
    ensures { (command : Named) → (result ≡ Some command) ↔ (IsForHelp asking.now × (command_name command ≡ name.now)) }
{
    if !is_for_help(asking) {
        return None;
    }
    Command::from_word(name)
}

/// The topic of two words.
fn topic_of_two<'a>(first: &'a str, second: &'a str) -> Option<Topic<'a>>
    ensures { MatchOption result ((topic : About) → IsTopic (first.now ∷ second.now ∷ []) topic → ⊥)
        (IsTopic (first.now ∷ second.now ∷ [])) }
{
    if first == "--explain" {
        return Some(Topic::Kind(second));
    }
    if let Some(command) = helped(first, second) {
        return Some(Topic::Command(command));
    }
    Some(Topic::Command(helped(second, first)?))
}

/// The topic of three words, by the first and the last.
fn topic_of_three<'a>(first: &str, kind: &'a str) -> Option<Topic<'a>>
    ensures { (middle : List ℕ) → MatchOption result
        ((topic : About) → IsTopic (first.now ∷ middle ∷ kind.now ∷ []) topic → ⊥)
        (IsTopic (first.now ∷ middle ∷ kind.now ∷ [])) }
{
    if first != "--explain" {
        return None;
    }
    Some(Topic::Kind(kind))
}

/// What the words after the program's name ask about it; none if they ask for something else.
pub fn topic_of(words: &[String]) -> Option<Topic<'_>>
    ensures { MatchOption result ((topic : About) → IsTopic (map string_bytes words.now) topic → ⊥)
        (IsTopic (map string_bytes words.now)) }
{
    match words {
        [] => None,
        [word] => topic_of_one(word.as_str()),
        [first, second] => topic_of_two(first.as_str(), second.as_str()),
        [first, _, kind] => topic_of_three(first.as_str(), kind.as_str()),
        [_, _, _, _, ..] => None,
    }
}
