//! The commands of the program.

ghost use Rattle.std.specs.Prelude.{◌≡◌};
ghost use Rattle.fallowtime_words.specs.Reading.{command_in};

use crate::options::Options;
use crate::table::{Effect, Place, Signature, TABLE};

/// What the program is to do over a file.
#[derive(Clone, Copy, Debug, PartialEq, Eq)]
pub enum Command {
    /// `insert COLL DOC`: puts a document in, and prints its `_id`.
    Insert,
    /// `put COLL DOC`: puts a document in, or replaces the one with its `_id`.
    Put,
    /// `replace COLL DOC`: replaces the document with the `_id` of DOC.
    Replace,
    /// `get COLL ID`: prints a document.
    Get,
    /// `set COLL ID KEY VALUE`: gives a key of a document a value.
    Set,
    /// `unset COLL ID KEY`: takes a key away, and prints whether it was there.
    Unset,
    /// `update COLL QUERY UPDATE`: updates the first of the selected documents, or with `--many` all of them, and
    /// prints how many were selected and changed.
    Update,
    /// `replace-one COLL QUERY DOC`: replaces the first of the selected documents, and prints how many were selected and
    /// changed.
    ReplaceOne,
    /// `delete COLL QUERY`: removes the first of the selected documents, or with `--many` all of them, and prints how
    /// many.
    Delete,
    /// `find-and-update COLL QUERY UPDATE`: updates the first of the documents that are found, and prints it as it was, or
    /// with `--after` as it is afterwards.
    FindAndUpdate,
    /// `find-and-replace COLL QUERY DOC`: replaces the first of the documents that are found, and prints it as it was, or
    /// with `--after` as it is afterwards.
    FindAndReplace,
    /// `find-and-delete COLL QUERY`: removes the first of the documents that are found, and prints it.
    FindAndDelete,
    /// `remove COLL ID`: removes a document.
    Remove,
    /// `find COLL [QUERY]`: prints the selected documents.
    Find,
    /// `count COLL [QUERY]`: prints how many documents are selected, or how many of them a part has.
    Count,
    /// `distinct COLL PATH [QUERY]`: prints the different values at a path of the selected documents.
    Distinct,
    /// `aggregate COLL PIPELINE`: prints the documents that the stages of a pipeline make of those of the collection.
    Aggregate,
    /// `import COLL`: takes in documents from standard input, all or none, and prints their number. With `--upsert` they
    /// take the place of those with their `_id`s, and with `--skip-existing` these stay.
    Import,
    /// `export COLL`: writes all documents as BSON.
    Export,
    /// `drop COLL`: removes all documents of a collection, and prints how many.
    Drop,
    /// `rename COLL NEW`: gives a collection another name, with `--drop` that of one that is removed, and prints how many
    /// documents it has.
    Rename,
    /// `copy COLL NEW`: puts the documents of a collection into a new one, and prints how many.
    Copy,
    /// `collections`: prints the names of the collections.
    Collections,
    /// `check`: tests all that the file holds, and prints how many documents that is.
    Check,
    /// `backup PATH`: writes a whole copy of the store.
    Backup,
    /// `apply`: does the requests that are lines of standard input as one list, all or none, and prints their answers.
    Apply,
    /// `index COLL PATH`: makes an index until the session ends.
    Index,
    /// `drop_index COLL PATH`: drops an index.
    DropIndex,
    /// `version`: prints which version this is. It has no FILE.
    Version,
    /// `import-all DIR`: imports each file of the folder of a dump.
    ImportAll,
    /// `export-all DIR`: writes each collection into a file of a folder.
    ExportAll,
    /// `edit COLL ID`: opens a document in an editor.
    Edit,
}

/// The command of the first of the rows that has this name.
fn command_in(rows: &[Signature], name: &str) -> Option<Command>
    ensures { result ≡ command_in rows.now name.now }
{
    for row in rows {
        if row.name == name {
            return Some(row.command);
        }
    }
    None
}

impl Command {
    ghost use Rattle.std.specs.Prelude.{◌≡◌, ◌↔◌, IsTrue, Some};
    ghost use Rattle.fallowtime_words.specs.Commands.{allowed, arguments, command_name, command_of, effect, place};
    ghost use Rattle.fallowtime_words.specs.Options.{Takes};
    ghost use Rattle.fallowtime_words.specs.declared.command.Command.{Command};
    ghost use Rattle.fallowtime_words.specs.declared.table.Effect.TheVariants.{Reads, Makes};

    /// The row of the command.
    pub fn signature(self) -> &'static Signature
        ensures command { result.now.command ≡ self }
        ensures name { result.now.name.now ≡ command_name self }
        ensures arguments { result.now.arguments.now ≡ arguments self }
        ensures options { result.now.options ≡ allowed self }
        ensures effect { result.now.effect ≡ effect self }
        ensures place { result.now.place ≡ place self }
    {
        &TABLE[self as usize]
    }

    /// The command that a word names.
    pub fn from_word(word: &str) -> Option<Command>
        ensures named { (command : Command) → (command_name command ≡ word.now) ↔ (result ≡ Some command) }
        ensures is { result ≡ command_of word.now }
    {
        command_in(&TABLE, word)
    }

    /// Whether the command leaves FILE as it is.
    pub fn only_reads(self) -> bool
        ensures { IsTrue result ↔ (effect self ≡ Reads) }
    {
        self.signature().effect == Effect::Reads
    }

    /// Whether the command makes a FILE that isn't there.
    pub fn makes_file(self) -> bool
        ensures { IsTrue result ↔ (effect self ≡ Makes) }
    {
        self.signature().effect == Effect::Makes
    }

    /// Whether the command has these options on a command line.
    pub(crate) fn takes(self, options: Options) -> bool
        ensures { IsTrue result ↔ Takes self options }
    {
        let row = self.signature();
        row.place != Place::Session
            && row.place != Place::Alone
            && row.place != Place::Script
            && options.are_among(row.options)
            && !(options.canonical && options.bytes)
            && !(options.upsert && options.skip_existing)
    }
}
