//! Commands and replies.

use bson_model::Bson;
use bson_model::extjson::Mode;
use serde_json::Value;
use store_model::StoreError;
use store_question::Filter;

/// A call of the store: the one of its name.
#[derive(Drop)]
pub enum Command {
    InsertRaw {
        name: String,
        bytes: Vec<u8>,
    },
    InsertJson {
        name: String,
        json: Value,
    },
    ReplaceRaw {
        name: String,
        bytes: Vec<u8>,
    },
    ReplaceJson {
        name: String,
        json: Value,
    },
    Set {
        name: String,
        id: Bson,
        key: String,
        value: Value,
    },
    Unset {
        name: String,
        id: Bson,
        key: String,
    },
    Remove {
        name: String,
        id: Bson,
    },
    GetRaw {
        name: String,
        id: Bson,
    },
    GetJson {
        name: String,
        id: Bson,
        mode: Mode,
    },
    Collections,
    Find {
        name: String,
        filter: Filter,
    },
    Count {
        name: String,
        filter: Filter,
    },
    Project {
        name: String,
        filter: Filter,
        keys: Vec<String>,
    },
    /// `Store::export`, into memory.
    Export {
        name: String,
    },
    /// `Store::import`, from memory.
    Import {
        name: String,
        bytes: Vec<u8>,
    },
    LoadJson {
        name: String,
        trees: Vec<Value>,
    },
    DumpJson {
        name: String,
    },
}

/// What a command returns.
#[derive(Drop)]
pub enum Reply {
    /// It is done.
    Done,
    /// Whether a key was there.
    Flag(bool),
    /// How many documents.
    Count(u64),
    /// Written documents, one after the other.
    Bytes(Vec<u8>),
    /// Written documents, each by itself.
    BytesList(Vec<Vec<u8>>),
    /// A document as Extended JSON.
    Json(Value),
    /// Documents as Extended JSON, one after the other.
    JsonList(Vec<Value>),
    /// Names of collections.
    Names(Vec<String>),
    /// It was refused, and nothing changed.
    Refused(StoreError),
}
