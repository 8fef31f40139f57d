//! One document from a reader.

ghost use Rattle.std.specs.Prelude.{◌≡◌, ◌≤◌, length, MatchResult};
ghost use Rattle.bson_base.specs.Device.{CanFail};
ghost use Rattle.bson_frame.specs.Frame.{number};
ghost use Rattle.bson_raw.specs.Input.{IsInputLength, IsConversionRefusal, ReadsDocument, ReadsNextDocument, ReadsHead, ReadsRest, TakesDeclared, ReadsDeclared};
ghost use Rattle.bson_raw.specs.declared.read_error.ReadError.TheVariants.{BadLength};

use crate::document::RawDocument;
use crate::read_error::ReadError;
use bson_base::{Source, read_full};
use bson_frame::{Error, ErrorKind, SIZE_LIMIT};
use bson_model::Document;
use std::alloc::Global;

/// The first four bytes, unless nothing was left.
fn read_head<R: Source>(reader: &mut R) -> Result<Option<[u8; 4]>, ReadError>
    requires { CanFail (R.feed reader.old) }
    ensures { ReadsHead (R.feed reader.old)
        (R.feed reader.new) result }
{
    let mut head = [0u8; 4];
    match read_full(reader, &mut head) {
        Ok(n) => {
            if n == 0 {
                return Ok(None);
            }
            if n < 4 {
                return Err(ReadError::EndInside);
            }
            Ok(Some(head))
        }
        Err(_) => Err(ReadError::Reader),
    }
}

/// The length that the first four bytes declare, if a document may have it.
fn declared(head: [u8; 4]) -> Result<usize, ReadError>
    ensures { MatchResult result (λ n. (n ≡ number head) × IsInputLength n)
        (λ e. (e ≡ BadLength) × (IsInputLength (number head) → ⊥)) }
{
    let number = u32::from_le_bytes(head);
    if number < 5 {
        return Err(ReadError::BadLength);
    }
    if number > SIZE_LIMIT as u32 {
        return Err(ReadError::BadLength);
    }
    Ok(number as usize)
}

/// Replaces what was in `room` by the first four bytes and those after them, up to a length.
fn read_rest<R: Source>(
    reader: &mut R,
    head: [u8; 4],
    declared: usize,
    room: &mut Vec<u8>,
) -> Result<(), ReadError>
    requires failures { CanFail (R.feed reader.old) }
    requires declared { 4 ≤ declared }
    ensures { ReadsRest (R.feed reader.old)
        (R.feed reader.new) head declared room.new.items result }
{
    room.clear();
    room.resize(declared, 0)?;
    let (front, rest) = room.split_at_mut(4);
    front.copy_from_slice(&head);
    match read_full(reader, rest) {
        Ok(n) => {
            if n < declared - 4 {
                return Err(ReadError::EndInside);
            }
            Ok(())
        }
        Err(_) => Err(ReadError::Reader),
    }
}

/// Replaces what was in `room` by the bytes of the next document of a reader that gives one after the other, and returns
/// whether there was one: false if the reader had nothing left. Exactly the bytes that the document declares are taken
/// from the reader, and nothing of them is looked at except the declared length. The caller makes sure that fewer than
/// 2⁶⁴ - 1 calls of the reader have failed.
///
/// `Reader` if a read failed; `EndInside` if the reader ended after at least one byte of the document; `BadLength` if the
/// declared length is under 5 or over 16777216, which took four bytes; `Memory` if a growth was refused. After an error
/// nothing is promised of what `room` holds.
pub fn read_bytes<R: Source>(reader: &mut R, room: &mut Vec<u8>) -> Result<bool, ReadError>
    requires { CanFail (R.feed reader.old) }
    ensures { TakesDeclared (R.feed reader.old)
        (R.feed reader.new) room.new.items result }
{
    match read_head(reader)? {
        Some(head) => {
            let declared = declared(head)?;
            read_rest(reader, head, declared, room)?;
            Ok(true)
        }
        None => Ok(false),
    }
}

/// A refused conversion, as the reader's caller gets it.
fn refusal(e: Error) -> ReadError
    ensures { IsConversionRefusal e result }
{
    match e.kind {
        ErrorKind::OutOfMemory => ReadError::Memory,
        _ => ReadError::Raw(e),
    }
}

/// The document that bytes mean.
fn document_in(alloc: Global, bytes: &[u8]) -> Result<Document, ReadError>
    ensures { ReadsDeclared bytes.now result }
{
    match RawDocument::from_bytes(bytes) {
        Ok(raw) => match raw.to_document(alloc) {
            Ok(document) => Ok(document),
            Err(e) => Err(refusal(e)),
        },
        Err(e) => Err(ReadError::Raw(e)),
    }
}

/// The next document of a reader that gives one after the other, as `RawDocument::to_document` reads it; `None` if the
/// reader had nothing left. Exactly the bytes that the document declares are taken from the reader. `room` is memory
/// that is kept from document to document: what it held is lost. The caller makes sure that fewer than 2⁶⁴ - 1 calls of
/// the reader have failed.
///
/// `EndInside` if the reader ended after at least one byte of the document; else each error is as `from_reader` reports
/// it.
pub fn next_document<R: Source>(
    alloc: Global,
    reader: &mut R,
    room: &mut Vec<u8>,
) -> Result<Option<Document>, ReadError>
    requires { CanFail (R.feed reader.old) }
    ensures { ReadsNextDocument (R.feed reader.old)
        (R.feed reader.new) result }
{
    if !read_bytes(reader, room)? {
        return Ok(None);
    }
    Ok(Some(document_in(alloc, room)?))
}

/// The document that the reader's next bytes mean, as `RawDocument::to_document` reads them. Exactly the bytes that the
/// document declares are taken from the reader. The caller makes sure that fewer than 2⁶⁴ - 1 calls of the reader have
/// failed.
///
/// `Reader` if a read failed; `EndInside` if the reader ended inside the document, which took all that was left;
/// `BadLength` if the declared length is under 5 or over 16777216, which took four bytes; `Raw` if the bytes mean no
/// document, which took as many as are declared: `MalformedValue` under no key if the last isn't 00, else the fault
/// that `to_document` reports; `Memory` if a growth was refused, and if over 1000 levels are nested in each other,
/// which took as many as are declared.
pub fn from_reader<R: Source>(alloc: Global, reader: &mut R) -> Result<Document, ReadError>
    requires { CanFail (R.feed reader.old) }
    ensures { ReadsDocument (R.feed reader.old)
        (R.feed reader.new) result }
{
    let mut room = Vec::new(alloc);
    match next_document(alloc, reader, &mut room)? {
        Some(document) => Ok(document),
        None => Err(ReadError::EndInside),
    }
}
