//! The words that the program is started with.

ghost use Rattle.std.specs.Prelude.{◌≡◌, ◌↔◌, ◌∷◌, ℕ, Bool, List, Option, Some, IfSome, IsTrue, MatchOption, map, option_map, string_bytes};
ghost use Rattle.fallowtime_words.specs.Commands.{command_name};
ghost use Rattle.fallowtime_words.specs.Words.{AreOfSession, Asked, session, HasRest, HasTexts, IsFile, IsTask, IsTold, asked_of, text_of, word_before};
ghost use Rattle.fallowtime_words.specs.declared.command.Command.{Command};
ghost use Rattle.fallowtime_words.specs.declared.options.Options.{Options};

use crate::arguments::read_rest;
use crate::command::Command;
use crate::options::{Options, read_options};

/// A line of the program's table.
#[derive(Clone, Copy, Debug)]
pub struct Words<'a> {
    /// The file of the store.
    pub file: &'a str,
    /// The command.
    pub command: Command,
    /// The words after the command that are no options. Each is taken by its position, also if it begins with a hyphen,
    /// except a QUERY.
    pub arguments: &'a [String],
    /// The options.
    pub options: Options,
    /// The text of `--sort`, if that is given.
    pub sort: Option<&'a str>,
    /// The text of `--fields`, if that is given.
    pub fields: Option<&'a str>,
    /// The text of `--without`, if that is given.
    pub without: Option<&'a str>,
}

/// What the program is to do.
#[derive(Clone, Copy, Debug)]
pub enum Task<'a> {
    /// One command.
    Command(Words<'a>),
    /// A session over a file: the requests of standard input.
    Session {
        /// The file of the store.
        file: &'a str,
        /// Whether they are MongoDB's messages; else lines.
        messages: bool,
        /// How many seconds to wait for the file if another process has it, if that is given.
        seconds: Option<u64>,
    },
}

/// Whether a word can be a file: one that begins with a hyphen is written `./-x`.
fn is_file(word: &str) -> bool
    ensures { IsTrue result ↔ IsFile word.now }
{
    !matches!(word.as_bytes(), [b'-', ..])
}

/// The command that the first of the words names, and the words after it.
fn split_command(words: &[String]) -> Option<(Command, &[String])>
    ensures { MatchOption result
        ((command : Command) (behind : List (List ℕ)) → map string_bytes words.now ≡ command_name command ∷ behind → ⊥)
        (λ r. map string_bytes words.now ≡ command_name r.0 ∷ map string_bytes r.1.now) }
{
    let (word, behind) = words.split_first()?;
    let command = Command::from_word(word.as_str())?;
    Some((command, behind))
}

/// The word with so many behind it.
fn word_before(words: &[String], count: usize) -> Option<&str>
    ensures { option_map (λ t. t.now) result ≡ word_before count (map string_bytes words.now) }
{
    match words {
        [] => None,
        [word, rest @ ..] => {
            if rest.len() == count {
                Some(word.as_str())
            } else {
                word_before(rest, count)
            }
        }
    }
}

/// The text of an option, by how many words are behind it, if it is given.
fn text_of(words: &[String], behind: Option<usize>) -> Option<&str>
    ensures { option_map (λ t. t.now) result ≡ text_of (map string_bytes words.now) behind }
{
    word_before(words, behind?)
}

/// The line of a command over a file, by the words after the command.
fn read_line<'a>(file: &'a str, command: Command, words: &'a [String]) -> Option<Words<'a>>
    ensures { MatchOption result
        ((taken : List (List ℕ)) (options : Options) → HasRest command (map string_bytes words.now) taken options → ⊥)
        (λ w. (w.file.now ≡ file.now) × (w.command ≡ command)
        × HasTexts (map string_bytes words.now) w
        × HasRest command (map string_bytes words.now) (map string_bytes w.arguments.now) w.options) }
{
    let (arguments, options) = read_rest(command, words)?;
    Some(Words {
        file,
        command,
        arguments,
        options,
        sort: text_of(words, options.sort),
        fields: text_of(words, options.fields),
        without: text_of(words, options.without),
    })
}

/// Whether a session is of messages, and how long it waits for its file, by the words after that: for these seconds, or
/// for the default. None if there are other words than `--messages` and `--wait SECONDS`.
fn read_session(words: &[String]) -> Option<(bool, Option<u64>)>
    ensures { MatchOption result
        ((messages : Bool) (seconds : Option ℕ) → AreOfSession (map string_bytes words.now) messages seconds → ⊥)
        (λ r. AreOfSession (map string_bytes words.now) r.0 r.1) }
{
    let options = read_options(words)?;
    if !options.are_of_session() {
        return None;
    }
    Some((options.messages, options.seconds))
}

/// What the words over a file ask for.
fn read_behind<'a>(file: &'a str, words: &'a [String]) -> Option<Task<'a>>
    requires { IsFile file.now }
    ensures task { MatchOption result
        ((asked : Asked) → IsTask (file.now ∷ map string_bytes words.now) asked → ⊥)
        (λ task. IsTask (file.now ∷ map string_bytes words.now) (asked_of task)) }
    ensures texts { IfSome result (IsTold (file.now ∷ map string_bytes words.now)) }
{
    match split_command(words) {
        Some((command, behind)) => Some(Task::Command(read_line(file, command, behind)?)),
        None => {
            let (messages, seconds) = read_session(words)?;
            Some(Task::Session {
                file,
                messages,
                seconds,
            })
        }
    }
}

/// Reads the words after the program's name: a line of the table, or a session. None if they are neither. What the
/// texts say isn't looked at.
pub fn read_words(words: &[String]) -> Option<Task<'_>>
    ensures task { MatchOption result
        ((asked : Asked) → IsTask (map string_bytes words.now) asked → ⊥)
        (λ task. IsTask (map string_bytes words.now) (asked_of task)) }
    ensures only { (asked : Asked) → IsTask (map string_bytes words.now) asked → option_map asked_of result ≡ Some asked }
    ensures texts { IfSome result (IsTold (map string_bytes words.now)) }
{
    let (file, behind) = words.split_first()?;
    if !is_file(file.as_str()) {
        return None;
    }
    read_behind(file.as_str(), behind)
}

/// Whether the words ask for a session, whose answers are written at once.
pub fn is_session(words: &[String]) -> bool
    ensures { IsTrue result ↔ ((file : List ℕ) × (messages : Bool) × (seconds : Option ℕ)
        × IsTask (map string_bytes words.now) (session file messages seconds)) }
{
    match read_words(words) {
        Some(Task::Session { .. }) => true,
        Some(Task::Command(_)) => false,
        None => false,
    }
}
