//! All SQL of the table. What each text means under its schema is shown in `proofs`.
//!
//! `COLLATE BINARY` compares names by their bytes also in a table that compares them otherwise.

/// The name of the table.
pub(crate) const TABLE: &[u8] = b"documents";

pub(crate) const MAKE_TABLE: &str =
    "CREATE TABLE documents (place INTEGER PRIMARY KEY, coll TEXT NOT NULL, idkey BLOB NOT NULL, body BLOB NOT NULL, UNIQUE (coll, idkey)) STRICT";

pub(crate) const ADD_ROW: &str =
    "INSERT INTO documents (place, coll, idkey, body) VALUES (?1, ?2, ?3, ?4)";

pub(crate) const REMOVE_ROW: &str = "DELETE FROM documents WHERE place = ?1";

pub(crate) const PUT_BODY: &str = "UPDATE documents SET body = ?2 WHERE place = ?1";

pub(crate) const PUT_KEY: &str = "UPDATE documents SET idkey = ?2 WHERE place = ?1";

/// The place and body of each row of a collection and key.
pub(crate) const NAMED: &str =
    "SELECT place, body FROM documents WHERE coll = ?1 COLLATE BINARY AND idkey = ?2 ORDER BY place";

/// The place of each of these rows.
pub(crate) const PLACES: &str =
    "SELECT place FROM documents WHERE coll = ?1 COLLATE BINARY AND idkey = ?2 ORDER BY place";

/// The collection and the body of the row at a place.
pub(crate) const AT_PLACE: &str =
    "SELECT coll, body FROM documents WHERE place = ?1 ORDER BY place";

/// The places and bodies of a collection.
pub(crate) const PLACED_BODIES: &str =
    "SELECT place, body FROM documents WHERE +coll = ?1 COLLATE BINARY ORDER BY place";

pub(crate) const GREATEST_PLACE: &str = "SELECT place FROM documents ORDER BY place DESC LIMIT 1";

pub(crate) const ALL_ROWS: &str = "SELECT place, coll, idkey, body FROM documents ORDER BY place";

/// The name of each row's collection.
pub(crate) const NAMES: &str = "SELECT coll FROM documents ORDER BY place";

/// The bodies of a collection. The `+` keeps the engine from the index on (coll, idkey), by which it would have to sort
/// the whole result before the first row.
pub(crate) const BODIES: &str =
    "SELECT body FROM documents WHERE +coll = ?1 COLLATE BINARY ORDER BY place";
