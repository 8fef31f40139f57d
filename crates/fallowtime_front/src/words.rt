//! The name under which the program was started, and the words after it which aren't in the table of commands.

ghost use Rattle.std.specs.Prelude.{◌≡◌, ◌↔◌, ℕ, List, [], ◌∷◌, MatchOption, Some, codes, map, string_bytes};
ghost use Rattle.std.specs.Path.{path_file_name};
ghost use Rattle.fallowtime_front.specs.Words.{AsksForCopy, AsksToWait};
ghost use Rattle.fallowtime_front.specs.declared.words.Program.TheVariants.{Fallowtime, Json};

use cli_commands::is_file;
use std::path::Path;
use std::{env, io};

/// The programs that this one is.
#[derive(Clone, Copy, Debug, PartialEq, Eq)]
pub enum Program {
    /// `bson_store`: a command over a database file, or a document by standard input and output.
    Store,
    /// `fallowtime`: a command over a database file with texts of JSON, or requests of lines.
    Fallowtime,
    /// `bson_json`: BSON documents as lines of Extended JSON, and back.
    Json,
}

/// The program of the name under which it was started: the last part of that path. Every name except those of the
/// others is bson_store's.
pub fn program_of(name: &str) -> Program
    ensures fallowtime { (result ≡ Fallowtime) ↔ (path_file_name name.now ≡ Some
        (codes "fallowtime")) }
    ensures json { (result ≡ Json) ↔ (path_file_name name.now ≡ Some (codes "bson_json")) }
{
    match Path::new(name).file_name() {
        Some("fallowtime") => Program::Fallowtime,
        Some("bson_json") => Program::Json,
        _ => Program::Store,
    }
}

/// The name of the program, and the words after it. An error if a word isn't UTF-8, or if out of memory.
pub fn words_of(rt: &HostRuntime) -> io::Result<Vec<String>> {
    let mut words = Vec::new(rt.alloc());
    for word in env::args(rt)? {
        words.push(word)?;
    }
    Ok(words)
}

/// How many seconds to wait for a file that another process has, and the words after that. `--wait SECONDS` before the
/// others says so; none if there is no number after it, or another word at the front.
pub fn patience_of(words: &[String]) -> Option<(u64, &[String])>
    ensures { MatchOption result ((seconds : ℕ) (behind : List (List ℕ))
        → AsksToWait (map string_bytes words.now) seconds behind → ⊥)
        (λ r. AsksToWait (map string_bytes words.now) r.0 (map string_bytes r.1.now)) }
{
    let (first, behind) = words.split_first()?;
    if first.as_str() != "--wait" {
        return None;
    }
    let (seconds, behind) = behind.split_first()?;
    let seconds = seconds.as_str().parse::<u64>().ok()?;
    Some((seconds, behind))
}

/// The one word that there is; none if there are more or none.
fn only_word(words: &[String]) -> Option<&str>
    ensures { MatchOption result
        ((word : List ℕ) → map string_bytes words.now ≡ word ∷ [] → ⊥)
        (λ word. map string_bytes words.now ≡ word.now ∷ []) }
{
    match words {
        [word] => Some(word.as_str()),
        _ => None,
    }
}

/// The file and the path of its back-up, if the words are `FILE backup PATH`; none if they don't ask for one, or if FILE
/// begins with a hyphen.
pub fn copy_of(words: &[String]) -> Option<(&str, &str)>
    ensures { MatchOption result
        ((file path : List ℕ) → AsksForCopy (map string_bytes words.now) file path → ⊥)
        (λ r. AsksForCopy (map string_bytes words.now) r.0.now r.1.now) }
{
    let (file, behind) = words.split_first()?;
    let (word, behind) = behind.split_first()?;
    if word.as_str() != "backup" {
        return None;
    }
    let path = only_word(behind)?;
    if !is_file(file.as_str()) {
        return None;
    }
    Some((file.as_str(), path))
}
