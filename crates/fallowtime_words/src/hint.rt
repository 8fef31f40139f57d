//! What is wrong with words that are no line of the table.

ghost use Rattle.std.specs.Prelude.{◌≡◌, ◌↔◌, ◌==◌, ◌∷◌, ◌++◌, [], ℕ, List, IfOk, IsTrue, None, OnOk, Option, Some, codes, map, string_bytes, take};
ghost use Rattle.std.specs.List.{after_first, before_first, filter, list_any};
ghost use Rattle.std.specs.Str.{str_to_ascii_lowercase};
ghost use Rattle.fallowtime_words.specs.Commands.{BeginsWith, command_of};
ghost use Rattle.fallowtime_words.specs.Words.{IsFile};
ghost use Rattle.fallowtime_words.specs.declared.command.Command.{Command as Named};
ghost use Rattle.fallowtime_words.specs.Hints.{HintsAt, HintsBehind, IsMeant, called_in, called_name, is_equals, is_joined, is_shown, many_text, meant_text, unknown_text};
ghost use Rattle.fallowtime_words.specs.Usage.{line_text};

use crate::Command;
use crate::nearest::nearest;
use crate::usage::line_of;
use std::alloc::{AllocError, Global};

/// A word that other programs have for a command.
#[derive(Clone, Copy)]
pub(crate) struct OtherName {
    /// The word.
    pub(crate) name: &'static str,
    /// The command; none if there is none for it, whatever is called like it.
    pub(crate) command: Option<Command>,
}

/// How a command is called elsewhere.
pub(crate) const OTHER_NAMES: [OtherName; 47] = [
    OtherName {
        name: "rm",
        command: Some(Command::Remove),
    },
    OtherName {
        name: "upsert",
        command: Some(Command::Put),
    },
    OtherName {
        name: "save",
        command: Some(Command::Put),
    },
    OtherName {
        name: "add",
        command: Some(Command::Insert),
    },
    OtherName {
        name: "select",
        command: Some(Command::Find),
    },
    OtherName {
        name: "query",
        command: Some(Command::Find),
    },
    OtherName {
        name: "show",
        command: Some(Command::Collections),
    },
    OtherName {
        name: "ls",
        command: Some(Command::Collections),
    },
    OtherName {
        name: "list",
        command: Some(Command::Collections),
    },
    OtherName {
        name: "load",
        command: Some(Command::Import),
    },
    OtherName {
        name: "dump",
        command: Some(Command::Export),
    },
    OtherName {
        name: "mv",
        command: Some(Command::Rename),
    },
    OtherName {
        name: "cp",
        command: Some(Command::Copy),
    },
    OtherName {
        name: "renamecollection",
        command: Some(Command::Rename),
    },
    OtherName {
        name: "insertone",
        command: Some(Command::Insert),
    },
    OtherName {
        name: "insert_one",
        command: Some(Command::Insert),
    },
    OtherName {
        name: "insertmany",
        command: Some(Command::Import),
    },
    OtherName {
        name: "insert_many",
        command: Some(Command::Import),
    },
    OtherName {
        name: "updateone",
        command: Some(Command::Update),
    },
    OtherName {
        name: "update_one",
        command: Some(Command::Update),
    },
    OtherName {
        name: "updatemany",
        command: Some(Command::Update),
    },
    OtherName {
        name: "update_many",
        command: Some(Command::Update),
    },
    OtherName {
        name: "deleteone",
        command: Some(Command::Delete),
    },
    OtherName {
        name: "delete_one",
        command: Some(Command::Delete),
    },
    OtherName {
        name: "deletemany",
        command: Some(Command::Delete),
    },
    OtherName {
        name: "delete_many",
        command: Some(Command::Delete),
    },
    OtherName {
        name: "replaceone",
        command: Some(Command::ReplaceOne),
    },
    OtherName {
        name: "findone",
        command: Some(Command::Find),
    },
    OtherName {
        name: "find_one",
        command: Some(Command::Find),
    },
    OtherName {
        name: "countdocuments",
        command: Some(Command::Count),
    },
    OtherName {
        name: "count_documents",
        command: Some(Command::Count),
    },
    OtherName {
        name: "findoneandupdate",
        command: Some(Command::FindAndUpdate),
    },
    OtherName {
        name: "find_one_and_update",
        command: Some(Command::FindAndUpdate),
    },
    OtherName {
        name: "findandmodify",
        command: Some(Command::FindAndUpdate),
    },
    OtherName {
        name: "findoneandreplace",
        command: Some(Command::FindAndReplace),
    },
    OtherName {
        name: "find_one_and_replace",
        command: Some(Command::FindAndReplace),
    },
    OtherName {
        name: "findoneanddelete",
        command: Some(Command::FindAndDelete),
    },
    OtherName {
        name: "find_one_and_delete",
        command: Some(Command::FindAndDelete),
    },
    OtherName {
        name: "createindex",
        command: Some(Command::Index),
    },
    OtherName {
        name: "create_index",
        command: Some(Command::Index),
    },
    OtherName {
        name: "mongoimport",
        command: Some(Command::Import),
    },
    OtherName {
        name: "mongoexport",
        command: Some(Command::Find),
    },
    OtherName {
        name: "mongorestore",
        command: Some(Command::ImportAll),
    },
    OtherName {
        name: "mongodump",
        command: Some(Command::ExportAll),
    },
    OtherName {
        name: "use",
        command: None,
    },
    OtherName {
        name: "exit",
        command: None,
    },
    OtherName {
        name: "quit",
        command: None,
    },
];

/// What is wrong with words that begin with an option.
pub(crate) const DASHED: &str =
    "a FILE that begins with - is written ./-x.db; --help, --version and --explain KIND stand alone";

/// What is wrong with other options of a session.
pub(crate) const OPTIONS: &str =
    "the words are fallowtime FILE [--messages] [--wait SECONDS]; fallowtime help COMMAND says what a command takes";

/// What is wrong with an option and its value in one word.
pub(crate) const JOINED: &str = "an option and what it takes are two words: --limit 2";

/// What is wrong with other words.
pub(crate) const GENERAL: &str =
    "the words are FILE COMMAND ..; fallowtime help lists the commands";

/// What is said of a command that changes the first document that is selected, or all.
pub(crate) const MANY: &str = ", with --many of all that are selected";

/// How many bytes of a word are shown.
const SHOWN: usize = 40;

/// Whether a terminal may show a byte.
fn is_plain(byte: u8) -> bool
    ensures { result ≡ is_shown byte }
{
    matches!(byte, b'0'..=b'9' | b'A'..=b'Z' | b'a'..=b'z' | b'_' | b'.' | b'-')
}

/// Appends those of the bytes that a terminal may show.
pub(crate) fn push_plain(text: &mut String, bytes: &[u8]) -> Result<(), AllocError>
    ensures { OnOk result (string_bytes text.new ≡ string_bytes text.old ++ filter is_shown bytes.now) }
{
    for byte in bytes {
        if is_plain(*byte) {
            text.push(char::from(*byte))?;
        }
    }
    Ok(())
}

/// The first bytes of a word.
pub(crate) fn front_of(word: &str) -> &[u8]
    ensures { result.now ≡ take 40 word.now }
{
    let bytes = word.as_bytes();
    match bytes.get(..SHOWN) {
        Some(front) => front,
        None => bytes,
    }
}

/// The command, if there is one, for what is called so elsewhere.
fn called(names: &[OtherName], word: &str) -> Option<Option<Command>>
    ensures { result ≡ called_in names.now word.now }
{
    for other in names {
        if other.name == word {
            return Some(other.command);
        }
    }
    None
}

/// What is before the first bracket.
fn before_bracket(word: &str) -> &str
    ensures { result.now ≡ before_first (λ b. b == 40) word.now }
{
    match word.split_once('(') {
        Some((front, _)) => front,
        None => word,
    }
}

/// What is behind the first dot; nothing if there is none.
fn behind_dot(word: &str) -> &str
    ensures { result.now ≡ after_first (λ b. b == 46) word.now }
{
    match word.split_once('.') {
        Some((_, rest)) => rest,
        None => "",
    }
}

/// What mongosh calls, as `find` of `db.orders.find({})`; the word if it is no such call.
fn call_in(word: &str) -> &str
    ensures { result.now ≡ called_name word.now }
{
    let call = behind_dot(behind_dot(word));
    if call.is_empty() {
        return word;
    }
    before_bracket(call)
}

/// The command that is meant by a name in small letters, if there is one: the one that is called so elsewhere, or else the
/// one that is called most like it.
fn meant(name: &str) -> Option<Command>
    ensures { IsMeant name.now result }
{
    match called(&OTHER_NAMES, name) {
        Some(meant) => meant,
        None => nearest(name),
    }
}

/// The same of a word, which may be a call of mongosh, `db.orders.find({})`.
fn meant_by_call(word: &str) -> Option<Command>
    ensures { IsMeant (called_name word.now) result }
{
    meant(call_in(word))
}

/// What is said of a command that changes one document or many.
fn many_of(command: Command) -> &'static str
    ensures { result.now ≡ many_text command }
{
    if command.signature().options.many {
        MANY
    } else {
        ""
    }
}

/// Appends which command is meant, if one is.
fn push_meant(text: &mut String, meant: Option<Command>) -> Result<(), AllocError>
    ensures { OnOk result (string_bytes text.new ≡ string_bytes text.old ++ meant_text meant) }
{
    match meant {
        Some(command) => {
            text.push_str(", but there is ")?;
            text.push_str(command.signature().name)?;
            text.push_str(many_of(command))
        }
        None => Ok(()),
    }
}

/// That there is no such command, and which one is meant.
fn told(alloc: Global, word: &str, meant: Option<Command>) -> Result<String, AllocError>
    ensures { IfOk result (λ t. string_bytes t ≡ unknown_text word.now meant) }
{
    let mut text = String::from_str(alloc, "there is no command '")?;
    push_plain(&mut text, front_of(word))?;
    text.push_str("'")?;
    push_meant(&mut text, meant)?;
    text.push_str("; fallowtime help lists the commands")?;
    Ok(text)
}

/// That a word is no command, and which one is meant, by its small letters.
fn unknown(alloc: Global, word: &str) -> Result<String, AllocError>
    ensures { IfOk result (λ t. (meant : Option Named) × IsMeant (called_name (str_to_ascii_lowercase word.now)) meant
        × (string_bytes t ≡ unknown_text word.now meant)) }
{
    let small = word.to_ascii_lowercase(alloc)?;
    told(alloc, word, meant_by_call(small.as_str()))
}

/// The words of a command, behind what stands in front of them.
fn words_of(alloc: Global, front: &str, command: Command) -> Result<String, AllocError>
    ensures { IfOk result (λ t. string_bytes t ≡ front.now ++ line_text command) }
{
    let line = line_of(alloc, command)?;
    let mut text = String::from_str(alloc, front)?;
    text.push_str(line.as_str())?;
    Ok(text)
}

/// Whether a word begins with a hyphen.
fn is_option(word: &str) -> bool
    ensures { IsTrue result ↔ BeginsWith (codes "-") word.now }
{
    matches!(word.as_bytes(), [b'-', ..])
}

/// What is wrong with a word that is no command.
fn no_command(alloc: Global, word: &str) -> Result<String, AllocError>
    ensures { IfOk result (λ t. HintsAt word.now None (string_bytes t)) }
{
    if is_option(word) {
        return String::from_str(alloc, OPTIONS);
    }
    unknown(alloc, word)
}

/// What is wrong with the words over a file, by the one after it.
fn behind_file(alloc: Global, word: &str) -> Result<String, AllocError>
    ensures { IfOk result (λ t. HintsAt word.now (command_of word.now) (string_bytes t)) }
{
    match Command::from_word(word) {
        Some(command) => words_of(alloc, "the words are ", command),
        None => no_command(alloc, word),
    }
}

/// What is wrong with words that have no FILE, by the first.
fn without_file(alloc: Global, word: &str) -> Result<String, AllocError>
    ensures { (c : Named) → command_of word.now ≡ Some c
        → IfOk result (λ t. string_bytes t ≡ codes "FILE comes first: " ++ line_text c) }
{
    match Command::from_word(word) {
        Some(command) => words_of(alloc, "FILE comes first: ", command),
        None => String::from_str(alloc, GENERAL),
    }
}

/// What is wrong with two words, of which the second is the command if the first isn't called like one.
fn behind_either(alloc: Global, file: &str, word: &str) -> Result<String, AllocError>
    ensures { command_of file.now ≡ None → IfOk result (λ t. HintsAt word.now (command_of word.now) (string_bytes t)) }
{
    if Command::from_word(file).is_some() && Command::from_word(word).is_none() {
        return without_file(alloc, file);
    }
    behind_file(alloc, word)
}

/// Whether a byte is an equals sign.
fn is_equals(byte: u8) -> bool
    ensures { result ≡ is_equals byte }
{
    matches!(byte, b'=')
}

/// Whether one of the bytes is an equals sign.
fn has_equals(bytes: &[u8]) -> bool
    ensures { result ≡ list_any is_equals bytes.now }
{
    for byte in bytes {
        if is_equals(*byte) {
            return true;
        }
    }
    false
}

/// Whether a word is an option with an equals sign.
fn is_joined(word: &str) -> bool
    ensures { result ≡ is_joined word.now }
{
    match word.as_bytes() {
        [first, second, rest @ ..] => *first == b'-' && *second == b'-' && has_equals(rest),
        _ => false,
    }
}

/// Whether one of the words is.
fn has_joined(words: &[String]) -> bool
    ensures { result ≡ list_any is_joined (map string_bytes words.now) }
{
    for word in words {
        if is_joined(word.as_str()) {
            return true;
        }
    }
    false
}

/// What is wrong with words that are no line of the table and ask nothing about the program, in a line.
pub fn hint_of(alloc: Global, words: &[String]) -> Result<String, AllocError>
    // Behind a FILE, which no command is called like, stands the command; or an option and its value are one word.
    ensures { (file word : List ℕ) (more : List (List ℕ)) → map string_bytes words.now ≡ file ∷ word ∷ more
        → IsFile file → command_of file ≡ None
        → IfOk result (λ t. HintsBehind word more (string_bytes t)) }
{
    let Some((file, behind)) = words.split_first() else {
        return String::from_str(alloc, GENERAL);
    };
    if is_option(file.as_str()) {
        return String::from_str(alloc, DASHED);
    }
    let Some((word, _)) = behind.split_first() else {
        return without_file(alloc, file.as_str());
    };
    if has_joined(behind) {
        return String::from_str(alloc, JOINED);
    }
    behind_either(alloc, file.as_str(), word.as_str())
}
