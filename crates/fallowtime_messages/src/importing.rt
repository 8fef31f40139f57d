//! What puts documents into a collection.

ghost use Rattle.std.specs.Prelude.{◌≡◌, IfOk, string_bytes};
ghost use Rattle.std.specs.List.{AllZip};
ghost use Rattle.bson_store.specs.Export.{bytes_of_each};
ghost use Rattle.fallowtime_messages.specs.Outcomes.{IsImport, joined};

use fallowtime_requests::{Existing, Request};
use fallowtime_statements::Statement;
use fallowtime_statements::plans::copy_of;
use std::alloc::{AllocError, Global};

/// The bytes of documents, one after the other.
fn joined(alloc: Global, documents: &[Vec<u8>]) -> Result<Vec<u8>, AllocError>
    ensures { IfOk result (λ stream. stream.items ≡ joined (bytes_of_each documents.now)) }
{
    let mut stream = Vec::new(alloc);
    for document in documents {
        stream.extend_from_slice(document.as_slice())?;
    }
    Ok(stream)
}

/// What puts the documents of a stream into a collection.
fn import_of(alloc: Global, name: &String, stream: Vec<u8>) -> Result<Statement, AllocError>
    ensures { IfOk result (IsImport (string_bytes name.now) stream.items) }
{
    Ok(Statement {
        name: String::from_str(alloc, name.as_str())?,
        request: Request::Import(stream, Existing::Refuse),
    })
}

/// What puts all documents into a collection at once.
pub(crate) fn import_all(
    alloc: Global,
    name: &String,
    documents: &[Vec<u8>],
) -> Result<Statement, AllocError>
    ensures { IfOk result (IsImport (string_bytes name.now) (joined (bytes_of_each documents.now))) }
{
    import_of(alloc, name, joined(alloc, documents)?)
}

/// What puts a document into a collection.
fn import_one(alloc: Global, name: &String, document: &[u8]) -> Result<Statement, AllocError>
    ensures { IfOk result (IsImport (string_bytes name.now) document.now) }
{
    import_of(alloc, name, copy_of(alloc, document)?)
}

/// What puts each document into a collection.
pub(crate) fn imports(
    alloc: Global,
    name: &String,
    documents: &[Vec<u8>],
) -> Result<Vec<Statement>, AllocError>
    ensures { IfOk result (λ list. AllZip (λ b. IsImport (string_bytes name.now) b.items) documents.now list.items) }
{
    let mut list = Vec::new(alloc);
    for document in documents {
        let statement = import_one(alloc, name, document.as_slice())?;
        list.push(statement)?;
    }
    Ok(list)
}
