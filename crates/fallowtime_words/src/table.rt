//! The table of the program's commands: a row each.

use crate::command::Command;

/// What follows a command, by the name that pages and the help have for it.
#[derive(Clone, Copy, Debug, PartialEq, Eq)]
pub enum Argument {
    /// COLL: the name of a collection.
    Collection,
    /// DOC: a document of Extended JSON.
    Document,
    /// ID: an `_id` of Extended JSON; what is no JSON is the text itself.
    Id,
    /// PATH of a value of a document: keys with dots between them, or, with `--key`, one key as it is.
    Key,
    /// VALUE: a value of Extended JSON.
    Value,
    /// QUERY: a query of the query language. It may be left out.
    Query,
    /// QUERY, which may not be left out.
    Selection,
    /// UPDATE: an update of the update language.
    Update,
    /// OPTIONS: an object of options, which may be left out. On a command line the options are words of their own.
    Options,
    /// PIPELINE: an array of the stages that make documents of others.
    Pipeline,
    /// DOCS: bytes of BSON, or an array of documents. On a command line it is the standard input.
    Documents,
    /// PATH of an index or of values: keys with dots between them.
    IndexPath,
    /// NEW: the name of a collection that has no document yet, or, with `--drop`, of any other.
    NewName,
    /// PATH: a file that isn't there.
    File,
    /// DIR: the folder of a dump.
    Folder,
}

/// What a command does to FILE.
#[derive(Clone, Copy, Debug, PartialEq, Eq)]
pub enum Effect {
    /// It leaves FILE as it is.
    Reads,
    /// It changes a FILE that is there.
    Changes,
    /// It changes FILE, and makes one that isn't there.
    Makes,
}

/// Where a command is one.
#[derive(Clone, Copy, Debug, PartialEq, Eq)]
pub enum Place {
    /// On a command line, and on a line of a session.
    Both,
    /// On a command line alone.
    CommandLine,
    /// On a line of a session alone.
    Session,
    /// On a command line, alone: it has no FILE.
    Alone,
    /// On a command line of the script `fallowtime`, which does it by other commands.
    Script,
}

/// Which options a command has beside `--wait`.
#[derive(Clone, Copy, Debug, PartialEq, Eq)]
pub struct Allowed {
    /// `--canonical`.
    pub canonical: bool,
    /// `--bson`.
    pub bytes: bool,
    /// `--json`.
    pub lines: bool,
    /// `--many`.
    pub many: bool,
    /// `--after`.
    pub after: bool,
    /// `--upsert`.
    pub upsert: bool,
    /// `--skip-existing`.
    pub skip_existing: bool,
    /// `--count`.
    pub counts: bool,
    /// `--key`.
    pub literal: bool,
    /// `--drop`.
    pub drops: bool,
    /// `--sort`, `--fields` and `--without`.
    pub arranged: bool,
    /// `--skip` and `--limit`.
    pub part: bool,
}

/// A row of the table.
#[derive(Clone, Copy, Debug)]
pub struct Signature {
    /// The command.
    pub command: Command,
    /// Its name.
    pub name: &'static str,
    /// What follows the name.
    pub arguments: &'static [Argument],
    /// The options that may follow that.
    pub options: Allowed,
    /// What it does to FILE.
    pub effect: Effect,
    /// Where it is one.
    pub place: Place,
    /// What it does, in a line of the help.
    pub about: &'static str,
}

const NO_OPTION: Allowed = Allowed {
    canonical: false,
    bytes: false,
    lines: false,
    many: false,
    after: false,
    upsert: false,
    skip_existing: false,
    counts: false,
    literal: false,
    drops: false,
    arranged: false,
    part: false,
};

const CANONICAL: Allowed = Allowed {
    canonical: true,
    ..NO_OPTION
};

const PRINTED: Allowed = Allowed {
    bytes: true,
    ..CANONICAL
};

const FOUND: Allowed = Allowed {
    arranged: true,
    part: true,
    ..PRINTED
};

const PART: Allowed = Allowed {
    part: true,
    ..NO_OPTION
};

const FOUND_AFTER: Allowed = Allowed {
    after: true,
    ..FOUND
};

const IMPORTED: Allowed = Allowed {
    lines: true,
    upsert: true,
    skip_existing: true,
    ..NO_OPTION
};

const MANY: Allowed = Allowed {
    many: true,
    ..NO_OPTION
};

const UPSERT: Allowed = Allowed {
    upsert: true,
    ..NO_OPTION
};

const MANY_OR_UPSERT: Allowed = Allowed {
    many: true,
    ..UPSERT
};

const COUNTED: Allowed = Allowed {
    counts: true,
    ..CANONICAL
};

const LITERAL: Allowed = Allowed {
    literal: true,
    ..NO_OPTION
};

const DROPS: Allowed = Allowed {
    drops: true,
    ..NO_OPTION
};

/// The commands, in the order of the help.
pub const TABLE: [Signature; 32] = [
    Signature {
        command: Command::Insert,
        name: "insert",
        arguments: &[Argument::Collection, Argument::Document],
        options: CANONICAL,
        effect: Effect::Makes,
        place: Place::Both,
        about: "puts a document in, and prints its _id",
    },
    Signature {
        command: Command::Put,
        name: "put",
        arguments: &[Argument::Collection, Argument::Document],
        options: NO_OPTION,
        effect: Effect::Makes,
        place: Place::Both,
        about: "puts a document in, or replaces one of its _id",
    },
    Signature {
        command: Command::Replace,
        name: "replace",
        arguments: &[Argument::Collection, Argument::Document],
        options: NO_OPTION,
        effect: Effect::Changes,
        place: Place::Both,
        about: "puts a document where the one with its _id is",
    },
    Signature {
        command: Command::Get,
        name: "get",
        arguments: &[Argument::Collection, Argument::Id],
        options: PRINTED,
        effect: Effect::Reads,
        place: Place::Both,
        about: "prints the document with this _id",
    },
    Signature {
        command: Command::Set,
        name: "set",
        arguments: &[
            Argument::Collection,
            Argument::Id,
            Argument::Key,
            Argument::Value,
        ],
        options: LITERAL,
        effect: Effect::Changes,
        place: Place::Both,
        about: "puts a value at a path of a document",
    },
    Signature {
        command: Command::Unset,
        name: "unset",
        arguments: &[Argument::Collection, Argument::Id, Argument::Key],
        options: LITERAL,
        effect: Effect::Changes,
        place: Place::Both,
        about: "takes a value away, and prints whether one was there",
    },
    Signature {
        command: Command::Update,
        name: "update",
        arguments: &[
            Argument::Collection,
            Argument::Selection,
            Argument::Update,
            Argument::Options,
        ],
        options: MANY_OR_UPSERT,
        effect: Effect::Changes,
        place: Place::Both,
        about: "updates the first that is selected, or all",
    },
    Signature {
        command: Command::ReplaceOne,
        name: "replace-one",
        arguments: &[
            Argument::Collection,
            Argument::Selection,
            Argument::Document,
        ],
        options: UPSERT,
        effect: Effect::Changes,
        place: Place::Both,
        about: "puts a document where the first selected one is",
    },
    Signature {
        command: Command::Delete,
        name: "delete",
        arguments: &[Argument::Collection, Argument::Selection, Argument::Options],
        options: MANY,
        effect: Effect::Changes,
        place: Place::Both,
        about: "removes the first that is selected, or all",
    },
    Signature {
        command: Command::FindAndUpdate,
        name: "find-and-update",
        arguments: &[Argument::Collection, Argument::Selection, Argument::Update],
        options: FOUND_AFTER,
        effect: Effect::Changes,
        place: Place::Both,
        about: "updates the first found, and prints it",
    },
    Signature {
        command: Command::FindAndReplace,
        name: "find-and-replace",
        arguments: &[
            Argument::Collection,
            Argument::Selection,
            Argument::Document,
        ],
        options: FOUND_AFTER,
        effect: Effect::Changes,
        place: Place::Both,
        about: "replaces the first found, and prints it",
    },
    Signature {
        command: Command::FindAndDelete,
        name: "find-and-delete",
        arguments: &[Argument::Collection, Argument::Selection],
        options: FOUND,
        effect: Effect::Changes,
        place: Place::Both,
        about: "removes the first found, and prints it",
    },
    Signature {
        command: Command::Remove,
        name: "remove",
        arguments: &[Argument::Collection, Argument::Id],
        options: NO_OPTION,
        effect: Effect::Changes,
        place: Place::Both,
        about: "removes the document with this _id",
    },
    Signature {
        command: Command::Find,
        name: "find",
        arguments: &[Argument::Collection, Argument::Query],
        options: FOUND,
        effect: Effect::Reads,
        place: Place::Both,
        about: "prints the documents that are selected, or all",
    },
    Signature {
        command: Command::Count,
        name: "count",
        arguments: &[Argument::Collection, Argument::Query],
        options: PART,
        effect: Effect::Reads,
        place: Place::Both,
        about: "prints how many are selected, or are there",
    },
    Signature {
        command: Command::Distinct,
        name: "distinct",
        arguments: &[Argument::Collection, Argument::IndexPath, Argument::Query],
        options: COUNTED,
        effect: Effect::Reads,
        place: Place::Both,
        about: "prints the different values at a path",
    },
    Signature {
        command: Command::Aggregate,
        name: "aggregate",
        arguments: &[Argument::Collection, Argument::Pipeline],
        options: NO_OPTION,
        effect: Effect::Reads,
        place: Place::Both,
        about: "prints what a pipeline makes of the documents",
    },
    Signature {
        command: Command::Import,
        name: "import",
        arguments: &[Argument::Collection, Argument::Documents],
        options: IMPORTED,
        effect: Effect::Makes,
        place: Place::Both,
        about: "puts documents of standard input in, all or none",
    },
    Signature {
        command: Command::Export,
        name: "export",
        arguments: &[Argument::Collection],
        options: NO_OPTION,
        effect: Effect::Reads,
        place: Place::Both,
        about: "writes all documents as BSON",
    },
    Signature {
        command: Command::Drop,
        name: "drop",
        arguments: &[Argument::Collection],
        options: NO_OPTION,
        effect: Effect::Changes,
        place: Place::Both,
        about: "removes a collection with all its documents",
    },
    Signature {
        command: Command::Rename,
        name: "rename",
        arguments: &[Argument::Collection, Argument::NewName],
        options: DROPS,
        effect: Effect::Changes,
        place: Place::Both,
        about: "gives a collection another name",
    },
    Signature {
        command: Command::Copy,
        name: "copy",
        arguments: &[Argument::Collection, Argument::NewName],
        options: NO_OPTION,
        effect: Effect::Changes,
        place: Place::Both,
        about: "puts all documents into a new collection, too",
    },
    Signature {
        command: Command::Collections,
        name: "collections",
        arguments: &[],
        options: NO_OPTION,
        effect: Effect::Reads,
        place: Place::Both,
        about: "prints the names of the collections",
    },
    Signature {
        command: Command::Check,
        name: "check",
        arguments: &[],
        options: NO_OPTION,
        effect: Effect::Reads,
        place: Place::Both,
        about: "tests all of FILE, and counts its documents",
    },
    Signature {
        command: Command::Backup,
        name: "backup",
        arguments: &[Argument::File],
        options: NO_OPTION,
        effect: Effect::Reads,
        place: Place::CommandLine,
        about: "writes all that FILE holds into the new file PATH",
    },
    Signature {
        command: Command::Apply,
        name: "apply",
        arguments: &[],
        options: NO_OPTION,
        effect: Effect::Makes,
        place: Place::CommandLine,
        about: "does all requests of standard input, or none",
    },
    Signature {
        command: Command::Index,
        name: "index",
        arguments: &[Argument::Collection, Argument::IndexPath],
        options: NO_OPTION,
        effect: Effect::Reads,
        place: Place::Session,
        about: "makes an index on a path, until the input ends",
    },
    Signature {
        command: Command::DropIndex,
        name: "drop_index",
        arguments: &[Argument::Collection, Argument::IndexPath],
        options: NO_OPTION,
        effect: Effect::Reads,
        place: Place::Session,
        about: "drops an index",
    },
    Signature {
        command: Command::Version,
        name: "version",
        arguments: &[],
        options: NO_OPTION,
        effect: Effect::Reads,
        place: Place::Alone,
        about: "prints which version this is",
    },
    Signature {
        command: Command::ImportAll,
        name: "import-all",
        arguments: &[Argument::Folder],
        options: NO_OPTION,
        effect: Effect::Makes,
        place: Place::Script,
        about: "imports each COLL.bson of the folder of a dump",
    },
    Signature {
        command: Command::ExportAll,
        name: "export-all",
        arguments: &[Argument::Folder],
        options: NO_OPTION,
        effect: Effect::Reads,
        place: Place::Script,
        about: "writes each collection into a folder",
    },
    Signature {
        command: Command::Edit,
        name: "edit",
        arguments: &[Argument::Collection, Argument::Id],
        options: NO_OPTION,
        effect: Effect::Changes,
        place: Place::Script,
        about: "opens a document in $EDITOR",
    },
];
