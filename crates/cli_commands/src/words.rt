//! The words that the program is started with.

ghost use Rattle.std.specs.Prelude.{◌≡◌, ◌≢◌, ◌↔◌, ℕ, List, [], IsTrue, map, MatchOption, string_bytes};
ghost use Rattle.cli_commands.specs.declared.call.Call.TheVariants.{Collections};
ghost use Rattle.cli_commands.specs.Words.{HasName, IsFile, IsLine};
ghost use Rattle.cli_commands.specs.declared.call.Call.{Call};

use crate::call::Call;

/// A line of the program's table: each word behind the file is taken by its place, also if it begins with a hyphen.
#[derive(Clone, Copy, Debug)]
pub struct Words<'a> {
    /// The file of the store.
    pub file: &'a str,
    /// The command.
    pub call: Call,
    /// The name of the collection; empty for `collections`.
    pub coll: &'a str,
    /// The words after the name.
    pub rest: &'a [String],
}

/// Whether a word can be a file: one that begins with a hyphen is written `./-x`.
pub fn is_file(word: &str) -> bool
    ensures { IsTrue result ↔ IsFile word.now }
{
    !matches!(word.as_bytes(), [b'-', ..])
}

/// The name of the collection, empty for `collections`, and the words after it.
fn collection(call: Call, words: &[String]) -> Option<(&str, &[String])>
    ensures { MatchOption result
        ((call ≢ Collections) × (words.now ≡ []))
        (λ r. HasName call (map string_bytes words.now) r.0.now (map string_bytes r.1.now)) }
{
    if call == Call::Collections {
        return Some(("", words));
    }
    let (name, rest) = words.split_first()?;
    Some((name.as_str(), rest))
}

/// Reads the words after the program's name: the file, the command, the collection and what follows. None if they are
/// no line of the program's table. What the texts say isn't looked at.
pub fn read_words(words: &[String]) -> Option<Words<'_>>
    ensures { MatchOption result
        ((file coll : List ℕ) (call : Call) (rest : List (List ℕ)) → IsLine (map string_bytes words.now) file call coll rest → ⊥)
        (λ w. IsLine (map string_bytes words.now) w.file.now w.call w.coll.now (map string_bytes w.rest.now)) }
{
    let (file, behind) = words.split_first()?;
    if !is_file(file.as_str()) {
        return None;
    }
    let (command, behind) = behind.split_first()?;
    let call = Call::from_word(command.as_str())?;
    let (coll, rest) = collection(call, behind)?;
    if !call.takes(rest) {
        return None;
    }
    Some(Words {
        file: file.as_str(),
        call,
        coll,
        rest,
    })
}
