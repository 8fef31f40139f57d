//! The sections of OP_MSG (MongoDB's wire protocol, "OP_MSG", "Sections").

ghost use Rattle.std.specs.Prelude.{◌≡◌, ◌<◌, ◌≤◌, ◌↔◌, ◌++◌, ◌∷◌, IsTrue, MatchOption, IfOk, length, map};
ghost use Rattle.bson_frame.specs.Frame.{IsCstring};
ghost use Rattle.bson_raw.specs.View.{bytes_of};
ghost use Rattle.bson_message.specs.Parts.{AreDocuments, HasDocuments, IsCounted, IsDocument, IsPart, NoCounted, NoName, NoSequence, part_of, seen};
ghost use Rattle.bson_message.specs.Runs.{BeginsWith, BeginsWithNone};

use crate::words::word_at;
use bson_frame::name_at;
use bson_raw::RawDocument;
use std::alloc::{AllocError, Global};

/// Documents, one after the other, which stand for a list in the body ("Kind 1: Document Sequence").
#[derive(Clone, Copy, Debug)]
pub struct Sequence<'a> {
    /// The key of the list.
    pub name: &'a str,
    /// The bytes of the documents.
    pub documents: &'a [u8],
}

/// A section.
#[derive(Clone, Copy)]
pub(crate) enum Section<'a> {
    /// A document ("Kind 0: Body").
    Body(RawDocument<'a>),
    /// A list of documents.
    Sequence(Sequence<'a>),
}

/// The bytes that the number in front of them counts, itself included, and what follows them.
fn counted(bytes: &[u8]) -> Option<(&[u8], &[u8])>
    ensures { MatchOption result (NoCounted bytes.now) (λ r. (bytes.now ≡ r.0.now ++ r.1.now)
        × IsCounted r.0.now × (length r.1.now < length bytes.now)) }
{
    let (number, _) = word_at(bytes)?;
    let size = number as usize;
    if size < 4 || size > bytes.len() {
        return None;
    }
    Some(bytes.split_at(size))
}

/// The document at the front, and what follows it.
pub(crate) fn document_at(bytes: &[u8]) -> Option<(RawDocument<'_>, &[u8])>
    ensures { MatchOption result (BeginsWithNone IsDocument bytes.now)
        (λ r. BeginsWith IsDocument bytes.now (bytes_of r.0) r.1.now × (length r.1.now < length bytes.now)) }
{
    let (front, rest) = counted(bytes)?;
    let document = RawDocument::from_bytes(front).ok()?;
    Some((document, rest))
}

/// Whether bytes are documents, one after the other.
fn are_documents(bytes: &[u8]) -> bool
    ensures { IsTrue result ↔ HasDocuments bytes.now }
{
    let mut rest = bytes;
    while !rest.is_empty() {
        let Some((_, behind)) = document_at(rest) else {
            return false;
        };
        rest = behind;
    }
    true
}

/// The documents that stand one after the other in bytes; none if the bytes are no documents, as those of a `Sequence`
/// that was read always are.
pub fn documents_of(alloc: Global, bytes: &[u8]) -> Result<Option<Vec<RawDocument<'_>>>, AllocError>
    ensures { IfOk result (λ found. MatchOption found (HasDocuments bytes.now → ⊥)
        (λ documents. AreDocuments bytes.now (map bytes_of documents.items))) }
{
    let mut documents = Vec::new(alloc);
    let mut rest = bytes;
    while !rest.is_empty() {
        let Some((document, behind)) = document_at(rest) else {
            return Ok(None);
        };
        documents.push(document)?;
        rest = behind;
    }
    Ok(Some(documents))
}

/// The name at the front, and what follows it.
pub(crate) fn name_in(bytes: &[u8]) -> Option<(&str, &[u8])>
    ensures { MatchOption result (NoName bytes.now)
        (λ r. IsCstring r.0.now × (bytes.now ≡ r.0.now ++ 0 ∷ r.1.now)) }
{
    match name_at(bytes) {
        Ok(parts) => Some(parts),
        Err(_) => None,
    }
}

/// The name and the documents behind a number.
fn sequence_in(bytes: &[u8]) -> Option<Sequence<'_>>
    requires { 4 ≤ length bytes.now }
    ensures { MatchOption result (NoSequence bytes.now)
        (λ s. IsCounted bytes.now → IsPart (1 ∷ bytes.now) (part_of s)) }
{
    let (_, rest) = bytes.split_at(4);
    let (name, documents) = name_in(rest)?;
    if !are_documents(documents) {
        return None;
    }
    Some(Sequence { name, documents })
}

/// The section at the front, and what follows it.
pub(crate) fn section_at(bytes: &[u8]) -> Option<(Section<'_>, &[u8])>
    ensures { MatchOption result (BeginsWithNone IsPart bytes.now)
        (λ r. BeginsWith IsPart bytes.now (seen r.0) r.1.now × (length r.1.now < length bytes.now)) }
{
    let (kind, rest) = bytes.split_first()?;
    match *kind {
        0 => {
            let (document, behind) = document_at(rest)?;
            Some((Section::Body(document), behind))
        }
        1 => {
            let (front, behind) = counted(rest)?;
            let sequence = sequence_in(front)?;
            Some((Section::Sequence(sequence), behind))
        }
        _ => None,
    }
}
