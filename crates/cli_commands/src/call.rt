//! The commands of the program.

/// What the program is to do.
#[derive(Clone, Copy, Debug, PartialEq, Eq)]
pub enum Call {
    /// `insert COLL JSON`: puts a document into a collection.
    Insert,
    /// `replace COLL JSON`: replaces the document with the same `_id`.
    Replace,
    /// `get COLL ID [--relaxed]`: prints a document as Extended JSON, canonical by default.
    Get,
    /// `set COLL ID KEY JSON`: puts a value under a key.
    Set,
    /// `unset COLL ID KEY`: takes a key away, and prints whether it was there.
    Unset,
    /// `remove COLL ID`: removes a document.
    Remove,
    /// `find COLL FILTER`: writes the selected documents.
    Find,
    /// `count COLL FILTER`: prints how many documents are selected.
    Count,
    /// `import COLL`: takes in a stream of documents, and prints their number.
    Import,
    /// `export COLL`: writes all documents.
    Export,
    /// `dump COLL`: prints all documents as canonical Extended JSON, one a line.
    Dump,
    /// `load COLL`: takes in lines of Extended JSON, and prints the number of documents.
    Load,
    /// `collections`: prints the names that hold a document.
    Collections,
}

/// The word that asks for relaxed Extended JSON.
pub const RELAXED: &str = "--relaxed";

impl Call {
    ghost use Rattle.std.specs.Prelude.{◌≡◌, ◌↔◌, IsTrue, MatchOption, map, string_bytes};
    ghost use Rattle.cli_commands.specs.Words.{command_name, Takes};
    ghost use Rattle.cli_commands.specs.declared.call.Call.{Call};

    /// The command that a word names.
    pub fn from_word(word: &str) -> Option<Call>
        ensures { MatchOption result ((call : Call) → command_name call ≡ word.now → ⊥) (λ call. command_name call ≡ word.now) }
    {
        match word {
            "insert" => Some(Call::Insert),
            "replace" => Some(Call::Replace),
            "get" => Some(Call::Get),
            "set" => Some(Call::Set),
            "unset" => Some(Call::Unset),
            "remove" => Some(Call::Remove),
            "find" => Some(Call::Find),
            "count" => Some(Call::Count),
            "import" => Some(Call::Import),
            "export" => Some(Call::Export),
            "dump" => Some(Call::Dump),
            "load" => Some(Call::Load),
            "collections" => Some(Call::Collections),
            _ => None,
        }
    }

    /// Whether these words may follow the name of the collection; for `collections`, which takes no name, the command.
    pub fn takes(self, rest: &[String]) -> bool
        ensures { IsTrue result ↔ Takes self (map string_bytes rest.now) }
    {
        match self {
            Call::Export | Call::Import | Call::Dump | Call::Load | Call::Collections => {
                rest.is_empty()
            }
            Call::Insert | Call::Replace | Call::Remove | Call::Find | Call::Count => {
                rest.len() == 1
            }
            Call::Unset => rest.len() == 2,
            Call::Set => rest.len() == 3,
            Call::Get => match rest {
                [_] => true,
                [_, form] => form.as_str() == RELAXED,
                _ => false,
            },
        }
    }
}
