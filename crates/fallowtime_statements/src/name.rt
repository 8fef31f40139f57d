//! The names of commands.

ghost use Rattle.std.specs.Prelude.{◌≡◌};
ghost use Rattle.std.specs.Option.{option_map};
ghost use Rattle.bson_model.specs.View.{content};
ghost use Rattle.fallowtime_statements.specs.Fields.{first_key, named};

use bson_model::Document;

/// A command that is answered, or a statement in the list of one.
#[derive(Clone, Copy, Debug, PartialEq, Eq)]
pub enum Name {
    /// What the server is ("hello", and the older "isMaster").
    Hello,
    /// Whether it answers ("ping").
    Ping,
    /// Which version it is ("buildInfo").
    BuildInfo,
    /// Sessions that aren't needed any more ("endSessions").
    EndSessions,
    /// Documents put in ("insert").
    Insert,
    /// Documents found ("find").
    Find,
    /// How many there are ("count").
    Count,
    /// Documents changed ("update").
    Update,
    /// Documents removed ("delete").
    Delete,
    /// Documents counted by a pipeline ("aggregate").
    Aggregate,
    /// A document found and changed ("findAndModify").
    FindAndModify,
    /// The different values at a path ("distinct").
    Distinct,
    /// The names of the collections ("listCollections").
    ListCollections,
    /// A collection made ("create").
    Create,
    /// A collection removed ("drop").
    Drop,
    /// A collection under another name ("renameCollection").
    RenameCollection,
    /// Indexes made ("createIndexes").
    CreateIndexes,
    /// The indexes of a collection ("listIndexes").
    ListIndexes,
    /// Indexes dropped ("dropIndexes").
    DropIndexes,
    /// The names of the databases ("listDatabases").
    ListDatabases,
    /// More of what was found ("getMore").
    GetMore,
    /// What was found isn't needed any more ("killCursors").
    KillCursors,
    /// One statement of `update`.
    Change,
    /// One statement of `delete`.
    Removal,
    /// One index of `createIndexes`.
    Index,
}

/// The command that a document asks for whose first key this is.
pub fn name_of(key: &str) -> Option<Name>
    ensures { result ≡ named key.now }
{
    match key {
        "hello" | "isMaster" | "ismaster" => Some(Name::Hello),
        "ping" => Some(Name::Ping),
        "buildInfo" | "buildinfo" => Some(Name::BuildInfo),
        "endSessions" => Some(Name::EndSessions),
        "insert" => Some(Name::Insert),
        "find" => Some(Name::Find),
        "count" => Some(Name::Count),
        "update" => Some(Name::Update),
        "delete" => Some(Name::Delete),
        "aggregate" => Some(Name::Aggregate),
        "findAndModify" => Some(Name::FindAndModify),
        "distinct" => Some(Name::Distinct),
        "listCollections" => Some(Name::ListCollections),
        "create" => Some(Name::Create),
        "drop" => Some(Name::Drop),
        "renameCollection" => Some(Name::RenameCollection),
        "createIndexes" => Some(Name::CreateIndexes),
        "listIndexes" => Some(Name::ListIndexes),
        "dropIndexes" => Some(Name::DropIndexes),
        "listDatabases" => Some(Name::ListDatabases),
        "getMore" => Some(Name::GetMore),
        "killCursors" => Some(Name::KillCursors),
        _ => None,
    }
}

/// The first key of a document.
pub fn first_key(command: &Document) -> Option<&str>
    ensures { option_map (λ k. k.now) result ≡ first_key (content command.now) }
{
    match command.iter().next() {
        Some((key, _)) => Some(key.as_str()),
        None => None,
    }
}
