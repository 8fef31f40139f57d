//! The keys of a command's document.

ghost use Rattle.std.specs.Prelude.{◌≡◌, MatchResult, map};
ghost use Rattle.std.specs.Option.{option_map};
ghost use Rattle.bson_model.specs.View.{content, view};
ghost use Rattle.fallowtime_statements.specs.Fields.{AreAllowed, IsForbidden, forbidden, forbids, is_among, is_empty, names_of, not_had, of_stored, of_transactions, passed_by, passed_over, read_by, standing_of, standing_of_other};

use crate::fault::{Code, Fault, refuse};
use crate::name::Name;
use bson_model::{Bson, Document};
use std::alloc::Global;

/// What a key is to a command.
#[derive(Clone, Copy, Debug, PartialEq, Eq)]
pub(crate) enum Standing {
    /// It names the command, or is read.
    Read,
    /// It changes nothing here.
    Passed,
    /// It isn't had, unless its value asks for nothing.
    Unless,
    /// It is of a transaction.
    Transaction,
    /// It isn't known.
    Unknown,
}

/// Whether a key is one of these.
fn is_among(keys: &[&str], key: &str) -> bool
    ensures { result ≡ is_among (map (λ k. k.now) keys.now) key.now }
{
    keys.contains(&key)
}

/// The keys that name a command; a statement in a list has none.
fn names_of(name: Name) -> &'static [&'static str]
    ensures { map (λ k. k.now) result.now ≡ names_of name }
{
    match name {
        Name::Hello => &["hello", "isMaster", "ismaster"],
        Name::Ping => &["ping"],
        Name::BuildInfo => &["buildInfo", "buildinfo"],
        Name::EndSessions => &["endSessions"],
        Name::Insert => &["insert"],
        Name::Find => &["find"],
        Name::Count => &["count"],
        Name::Update => &["update"],
        Name::Delete => &["delete"],
        Name::Aggregate => &["aggregate"],
        Name::FindAndModify => &["findAndModify"],
        Name::Distinct => &["distinct"],
        Name::ListCollections => &["listCollections"],
        Name::Create => &["create"],
        Name::Drop => &["drop"],
        Name::RenameCollection => &["renameCollection"],
        Name::CreateIndexes => &["createIndexes"],
        Name::ListIndexes => &["listIndexes"],
        Name::DropIndexes => &["dropIndexes"],
        Name::ListDatabases => &["listDatabases"],
        Name::GetMore => &["getMore"],
        Name::KillCursors => &["killCursors"],
        Name::Change | Name::Removal | Name::Index => &[],
    }
}

/// The keys that a command, or a statement in its list, reads besides its own name.
fn read_by(name: Name) -> &'static [&'static str]
    ensures { map (λ k. k.now) result.now ≡ read_by name }
{
    match name {
        Name::Insert => &["$db", "documents", "ordered"],
        Name::Find => &[
            "$db",
            "filter",
            "sort",
            "projection",
            "skip",
            "limit",
            "batchSize",
            "singleBatch",
        ],
        Name::Count => &["$db", "query", "skip", "limit"],
        Name::Update => &["$db", "updates", "ordered"],
        Name::Delete => &["$db", "deletes", "ordered"],
        Name::Aggregate => &["$db", "pipeline", "cursor"],
        Name::FindAndModify => &[
            "$db", "query", "update", "remove", "new", "upsert", "sort", "fields",
        ],
        Name::Distinct => &["$db", "key", "query"],
        Name::ListCollections => &["$db", "filter"],
        Name::RenameCollection => &["$db", "to"],
        Name::CreateIndexes => &["$db", "indexes"],
        Name::DropIndexes => &["$db", "index"],
        Name::GetMore => &["$db", "collection", "batchSize"],
        Name::KillCursors => &["$db", "cursors"],
        Name::Change => &["q", "u", "multi", "upsert"],
        Name::Removal => &["q", "limit"],
        Name::Index => &["key", "name"],
        _ => &["$db"],
    }
}

/// The keys that are passed over in a command of this name alone.
fn passed_by(name: Name) -> &'static [&'static str]
    ensures { map (λ k. k.now) result.now ≡ passed_by name }
{
    match name {
        Name::Hello => &[
            "client",
            "compression",
            "helloOk",
            "topologyVersion",
            "maxAwaitTimeMS",
            "saslSupportedMechs",
            "speculativeAuthenticate",
            "loadBalanced",
        ],
        Name::ListCollections => &["cursor", "nameOnly", "authorizedCollections"],
        Name::ListIndexes => &["cursor"],
        Name::ListDatabases => &["nameOnly", "authorizedDatabases"],
        Name::CreateIndexes => &["commitQuorum"],
        Name::Index => &["v", "ns", "background"],
        _ => &[],
    }
}

/// Whether a key changes nothing in any command.
fn is_passed_over(key: &str) -> bool
    ensures { result ≡ is_among passed_over key.now }
{
    is_among(
        &[
            "lsid",
            "$readPreference",
            "$clusterTime",
            "readConcern",
            "writeConcern",
            "comment",
            "maxTimeMS",
            "apiVersion",
            "apiStrict",
            "apiDeprecationErrors",
            "hint",
            "noCursorTimeout",
            "allowDiskUse",
            "bypassDocumentValidation",
        ],
        key,
    )
}

/// Whether a key would change what a collection or an index stores.
fn is_of_stored(key: &str) -> bool
    ensures { result ≡ is_among of_stored key.now }
{
    is_among(
        &[
            "capped",
            "timeseries",
            "validator",
            "viewOn",
            "unique",
            "sparse",
            "hidden",
            "expireAfterSeconds",
            "partialFilterExpression",
            "dropTarget",
        ],
        key,
    )
}

/// Whether a key would change what is found.
fn is_not_had(key: &str) -> bool
    ensures { result ≡ is_among not_had key.now }
{
    is_among(
        &[
            "collation",
            "filter",
            "min",
            "max",
            "let",
            "fields",
            "returnKey",
            "showRecordId",
            "tailable",
            "awaitData",
            "allowPartialResults",
            "oplogReplay",
            "arrayFilters",
        ],
        key,
    )
}

/// Whether a key is of a transaction.
fn is_of_transactions(key: &str) -> bool
    ensures { result ≡ is_among of_transactions key.now }
{
    is_among(&["txnNumber", "startTransaction", "autocommit"], key)
}

/// What a key is to any command that no other list has.
fn standing_of_other(key: &str) -> Standing
    ensures { result ≡ standing_of_other key.now }
{
    if is_of_stored(key) {
        Standing::Unless
    } else {
        Standing::Unknown
    }
}

/// What a key is to a command.
fn standing_of(name: Name, key: &str) -> Standing
    ensures { result ≡ standing_of name key.now }
{
    if is_among(names_of(name), key) || is_among(read_by(name), key) {
        Standing::Read
    } else if is_among(passed_by(name), key) || is_passed_over(key) {
        Standing::Passed
    } else if is_of_transactions(key) {
        Standing::Transaction
    } else if is_not_had(key) {
        Standing::Unless
    } else {
        standing_of_other(key)
    }
}

/// Whether a value asks for nothing.
pub fn is_empty(value: &Bson) -> bool
    ensures { result ≡ is_empty (view value.now) }
{
    match value {
        Bson::Document(document) => document.is_empty(),
        Bson::Array(items) => items.is_empty(),
        Bson::Boolean(is) => !*is,
        Bson::Null => true,
        _ => false,
    }
}

/// Why a key with this value keeps a command from being done, if it does.
fn forbids(name: Name, key: &str, value: &Bson) -> Option<Code>
    ensures { result ≡ forbids (standing_of name key.now) (view value.now) }
{
    match standing_of(name, key) {
        Standing::Read | Standing::Passed => None,
        Standing::Transaction => Some(Code::IllegalOperation),
        Standing::Unknown => Some(Code::UnknownField),
        Standing::Unless => {
            if is_empty(value) {
                None
            } else {
                Some(Code::NotImplemented)
            }
        }
    }
}

/// The first key that keeps a command from being done, and why.
fn forbidden(name: Name, command: &Document) -> Option<(Code, &str)>
    ensures { option_map (λ p. (p.0, p.1.now)) result ≡ forbidden name (content command.now) }
{
    for (key, value) in command.iter() {
        if let Some(code) = forbids(name, key.as_str(), value) {
            return Some((code, key.as_str()));
        }
    }
    None
}

/// Refuses a command that has a key which it may not have: `IllegalOperation`, `UnknownField` or `NotImplemented`, with
/// the name of the first such key.
pub fn allowed(alloc: Global, name: Name, command: &Document) -> Result<(), Fault>
    ensures { MatchResult result (λ _. AreAllowed name (content command.now))
        (IsForbidden name (content command.now)) }
{
    match forbidden(name, command) {
        Some((code, key)) => Err(refuse(alloc, code, key)),
        None => Ok(()),
    }
}
