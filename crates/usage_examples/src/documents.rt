//! A document as a tree and as bytes.

use bson_model::{Bson, Document};
use bson_raw::{RawDocument, RawDocumentBuf};
use std::alloc::{AllocError, Global};
use std::test::Fail;

/// `{_id: 1, name: "Ada"}`
fn ada(alloc: Global) -> Result<Document, AllocError> {
    let mut document = Document::new(alloc);
    document.put(String::from_str(alloc, "_id")?, Bson::Int32(1))?;
    let name = String::from_str(alloc, "name")?;
    document.put(name, Bson::from_text(alloc, "Ada")?)?;
    Ok(document)
}

/// The same as bytes.
fn written(alloc: Global) -> Result<Vec<u8>, Fail> {
    let document = ada(alloc)?;
    let bytes = RawDocumentBuf::from_document(alloc, &document)?;
    Ok(bytes.into_bytes())
}

/// A tree is written as BSON, and one of its texts is read from the bytes, without a second tree.
#[test]
fn a_document_is_written_and_read_raw(rt: HostRuntime) -> Result<(), Fail> {
    let alloc = rt.alloc();
    let bytes = written(alloc)?;
    let raw = RawDocument::from_bytes(bytes.as_slice())?;
    assert_eq!(rt; raw.get_str(alloc, "name")?, "Ada");
    Ok(())
}

/// The bytes of a written document are read back as a tree, with both elements.
#[test]
fn bytes_become_a_document(rt: HostRuntime) -> Result<(), Fail> {
    let alloc = rt.alloc();
    let bytes = written(alloc)?;
    let document = RawDocument::from_bytes(bytes.as_slice())?.to_document(alloc)?;
    assert_eq!(rt; (document.len(), document.get_i32("_id")?), (2, 1));
    Ok(())
}
