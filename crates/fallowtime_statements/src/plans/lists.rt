//! The list of `insert`: a sequence beside the command, or an array in it.

ghost use Rattle.std.specs.Prelude.{◌≡◌, ◌∷◌, [], IfOk, Some, map};
ghost use Rattle.std.specs.List.{AllZip};
ghost use Rattle.bson_base.specs.Value.{look_up};
ghost use Rattle.bson_bytes.specs.Encode.{encode};
ghost use Rattle.bson_model.specs.View.{content, view};
ghost use Rattle.bson_model.specs.declared.bson.Bson.{Bson as AnyValue};
ghost use Rattle.bson_raw.specs.View.{bytes_of};
ghost use Rattle.bson_store.specs.Export.{bytes_of_each};
ghost use Rattle.fallowtime_statements.specs.Plans.{AreGiven, IsWritten};

use crate::{Code, Fault, refuse, value_in};
use bson_bytes::encode_document;
use bson_frame::ErrorKind;
use bson_message::{Sequence, documents_of};
use bson_model::{Bson, Document};
use bson_raw::RawDocument;
use std::alloc::{AllocError, Global};

/// The bytes of a document. `BadValue` if it has none.
fn written(alloc: Global, document: &Document, about: &str) -> Result<Vec<u8>, Fault>
    ensures { IfOk result (λ bytes. bytes.items ≡ encode (content document.now)) }
{
    match encode_document(alloc, document) {
        Ok(bytes) => Ok(bytes),
        Err(error) => match error.kind {
            ErrorKind::OutOfMemory => Err(Fault::Memory),
            _ => Err(refuse(alloc, Code::BadValue, about)),
        },
    }
}

/// The bytes of a value that is a document.
fn written_item(alloc: Global, item: &Bson, about: &str) -> Result<Vec<u8>, Fault>
    ensures { IfOk result (λ bytes. IsWritten (view item.now) bytes.items) }
{
    match item {
        Bson::Document(document) => written(alloc, document, about),
        _ => Err(refuse(alloc, Code::BadValue, about)),
    }
}

/// The bytes of each document of an array.
fn written_items(alloc: Global, items: &[Bson], about: &str) -> Result<Vec<Vec<u8>>, Fault>
    ensures { IfOk result (λ list. AllZip (λ (v : AnyValue) b. IsWritten (view v) b.items) items.now list.items) }
{
    let mut list = Vec::new(alloc);
    for item in items {
        let bytes = written_item(alloc, item, about)?;
        list.push(bytes)?;
    }
    Ok(list)
}

/// The bytes of each document of a value that is an array.
fn in_items(
    alloc: Global,
    command: &Document,
    key: &str,
    value: &Bson,
) -> Result<Vec<Vec<u8>>, Fault>
    requires { look_up key.now (content command.now) ≡ Some (view value.now) }
    ensures { IfOk result (λ list. AreGiven key.now (content command.now) [] (bytes_of_each list.items)) }
{
    match value {
        Bson::Array(items) => written_items(alloc, items.as_slice(), key),
        _ => Err(refuse(alloc, Code::BadValue, key)),
    }
}

/// The bytes of each document of the array under a key.
fn in_array(alloc: Global, command: &Document, key: &str) -> Result<Vec<Vec<u8>>, Fault>
    ensures { IfOk result (λ list. AreGiven key.now (content command.now) [] (bytes_of_each list.items)) }
{
    match value_in(command, key) {
        Some(value) => in_items(alloc, command, key, value),
        None => Err(refuse(alloc, Code::BadValue, key)),
    }
}

/// A copy of bytes.
pub fn copy_of(alloc: Global, bytes: &[u8]) -> Result<Vec<u8>, AllocError>
    ensures { IfOk result (λ copy. copy.items ≡ bytes.now) }
{
    let mut copy = Vec::new(alloc);
    copy.extend_from_slice(bytes)?;
    Ok(copy)
}

/// A copy of the bytes of each document.
fn copied(alloc: Global, documents: &[RawDocument<'_>]) -> Result<Vec<Vec<u8>>, Fault>
    ensures { IfOk result (λ list. bytes_of_each list.items ≡ map bytes_of documents.now) }
{
    let mut list = Vec::new(alloc);
    for document in documents {
        let bytes = copy_of(alloc, document.as_bytes())?;
        list.push(bytes)?;
    }
    Ok(list)
}

/// The bytes of each document of a sequence.
fn in_sequence(
    alloc: Global,
    command: &Document,
    list: Sequence<'_>,
    key: &str,
) -> Result<Vec<Vec<u8>>, Fault>
    ensures { IfOk result (λ found. AreGiven key.now (content command.now) (list.entry ∷ []) (bytes_of_each found.items)) }
{
    if list.name != key {
        return Err(refuse(alloc, Code::UnknownField, list.name));
    }
    if value_in(command, key).is_some() {
        return Err(refuse(alloc, Code::BadValue, key));
    }
    match documents_of(alloc, list.documents)? {
        Some(documents) => copied(alloc, documents.as_slice()),
        None => Err(refuse(alloc, Code::ProtocolError, key)),
    }
}

/// The bytes of each document of the list under a key. `BadValue` or `UnknownField` if there isn't exactly one such list,
/// or other sequences.
pub(crate) fn listed(
    alloc: Global,
    command: &Document,
    lists: &[Sequence<'_>],
    key: &str,
) -> Result<Vec<Vec<u8>>, Fault>
    ensures { IfOk result (λ list. AreGiven key.now (content command.now) lists.now (bytes_of_each list.items)) }
{
    match lists {
        [] => in_array(alloc, command, key),
        [list] => in_sequence(alloc, command, *list, key),
        _ => Err(refuse(alloc, Code::BadValue, key)),
    }
}
