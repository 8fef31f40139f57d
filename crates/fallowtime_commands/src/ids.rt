//! The `_id` that a refusal is about, as it is reported.

use bson_json::write_value;
use bson_raw::RawDocument;
use bson_store::extjson::Mode;
use bson_store::{Bson, ErrorKind, StoreError};
use fallowtime_requests::{Otherwise, Request};
use std::alloc::Global;

/// An `_id` as relaxed Extended JSON. None if there is no memory for it.
fn text_of_id(alloc: Global, id: &Bson) -> Option<String> {
    let mut text = String::new(alloc);
    write_value(alloc, id, Mode::Relaxed, &mut text).ok()?;
    Some(text)
}

/// The `_id` of the document that these bytes are.
fn id_in_bytes(alloc: Global, bytes: &[u8]) -> Option<Bson> {
    let document = RawDocument::from_bytes(bytes).ok()?;
    let id = document.get(alloc, "_id").ok()??;
    id.to_bson(alloc).ok()
}

/// The text of the `_id` of the document that a store keeps as `body`. None if there is no memory for it.
pub(crate) fn id_of_body(alloc: Global, body: &[u8]) -> Option<String> {
    let id = id_in_bytes(alloc, body)?;
    text_of_id(alloc, &id)
}

/// How many bytes the first document of a stream says that it has.
fn declared_length(stream: &[u8]) -> Option<usize> {
    let [a, b, c, d, ..] = stream else {
        return None;
    };
    Some(u32::from_le_bytes([*a, *b, *c, *d]) as usize)
}

/// The document with a number in a stream, counted from 0.
fn document_at(stream: &[u8], number: u64) -> Option<&[u8]> {
    let mut rest = stream;
    for _ in 0..number {
        rest = rest.get(declared_length(rest)?..)?;
    }
    rest.get(..declared_length(rest)?)
}

/// The `_id` that a request is about, if it is about one.
fn id_in<'a>(request: &'a Request<'_>) -> Option<&'a Bson> {
    match request {
        Request::Insert(id, _) => Some(id),
        Request::Get(id) => Some(id),
        Request::Set(id, _, _) => Some(id),
        Request::Unset(id, _) => Some(id),
        Request::Alter(id, _, _) => Some(id),
        Request::Remove(id) => Some(id),
        Request::Put(document) => document.get("_id"),
        Request::Replace(document) => document.get("_id"),
        Request::Upsert(_, _, _, Otherwise::Insert(id, _)) => Some(id),
        _ => None,
    }
}

/// The text of the `_id` that is taken, or that no document has, if that is why a request is refused. For an import it
/// is that of the document that is refused. None if there is no memory for it.
pub(crate) fn id_of_refusal(
    alloc: Global,
    request: &Request<'_>,
    error: &StoreError,
) -> Option<String> {
    if !matches!(error.kind, ErrorKind::DuplicateId | ErrorKind::NotFound) {
        return None;
    }
    match request {
        Request::Import(stream, _) => id_of_body(
            alloc,
            document_at(stream.as_slice(), error.document?)?,
        ),
        _ => text_of_id(alloc, id_in(request)?),
    }
}
