//! Documents as they are written to be kept.

ghost use Rattle.std.specs.Prelude.{◌≡◌, MatchResult};
ghost use Rattle.bson_base.specs.Kinds.{IsPlain};
ghost use Rattle.bson_base.specs.Value.{document as tree};
ghost use Rattle.bson_bytes.specs.Encode.{encode};
ghost use Rattle.bson_model.specs.View.{content};
ghost use Rattle.store_model.specs.Reading.{IsRead};
ghost use Rattle.store_documents.specs.Bodies.{AnswersWritten, IsBody, IsLong, IsUnwritten, refusal_of_key};

use crate::ids::{ID_KEY, key_of_id};
use bson_bytes::encode_document;
use bson_frame as frames;
use bson_meaning::{KeyError, is_plain_document};
use bson_model::Document;
use std::alloc::Global;
use std::borrow::CowSlice;
use store_model::ErrorKind;

/// A document as it is kept.
#[derive(Debug, Drop)]
pub struct KeptRow<'a> {
    /// The key of its `_id`.
    pub key: Vec<u8>,
    /// Its bytes: the caller's, if it gave them as they are kept.
    pub body: CowSlice<'a, u8, Global>,
}

/// The refusal for an `_id` that has no key.
pub(crate) fn key_refusal(error: KeyError) -> ErrorKind
    ensures { result ≡ refusal_of_key error }
{
    match error {
        KeyError::NotPlain => ErrorKind::Nul,
        KeyError::TooLong => ErrorKind::TooLong,
        KeyError::Memory => ErrorKind::Memory,
    }
}

/// The bytes of a document without a 00 in a key, a pattern or options. `TooLong` if they are over 2147483647, or
/// `Memory`.
fn encoded(alloc: Global, document: &Document) -> Result<Vec<u8>, ErrorKind>
    requires { IsPlain (tree (content document.now)) }
    ensures { MatchResult result (λ b. b.items ≡ encode (content document.now))
        (IsLong (content document.now)) }
{
    match encode_document(alloc, document) {
        Ok(bytes) => Ok(bytes),
        Err(error) => match error.kind {
            frames::ErrorKind::MalformedValue => Err(ErrorKind::TooLong),
            frames::ErrorKind::OutOfMemory => Err(ErrorKind::Memory),
            frames::ErrorKind::Utf8EncodingError => unreachable!(),
        },
    }
}

/// The bytes of a document. `Nul` if a 00 is in a key, a pattern or options, else `TooLong` if they are over
/// 16777216; `Memory` if a growth was refused.
pub fn body_of(alloc: Global, document: &Document) -> Result<Vec<u8>, ErrorKind>
    ensures { MatchResult result (λ b. IsBody b.items (content document.now))
        (IsUnwritten (content document.now)) }
{
    if !is_plain_document(document) {
        return Err(ErrorKind::Nul);
    }
    let bytes = encoded(alloc, document)?;
    if bytes.len() > frames::SIZE_LIMIT {
        return Err(ErrorKind::TooLong);
    }
    Ok(bytes)
}

/// A document as it is kept: its bytes, and the key of its `_id`. The document is one as it is read: clean, of at most
/// 100 levels.
///
/// `NoId` if it has no `_id`, else `TooLong` if its bytes are over 16777216; `Memory` if a growth was refused. A
/// document that isn't as it is read may be refused by `Nul`, if a 00 is in a key, a pattern or options.
pub fn row_of_document(alloc: Global, document: &Document) -> Result<KeptRow<'static>, ErrorKind>
    ensures { IsRead (content document.now) → AnswersWritten (content document.now) result }
{
    let Some(id) = document.get(ID_KEY) else {
        return Err(ErrorKind::NoId);
    };
    let body = body_of(alloc, document)?;
    match key_of_id(alloc, id) {
        Ok(key) => Ok(KeptRow {
            key,
            body: CowSlice::Owned(body),
        }),
        Err(error) => Err(key_refusal(error)),
    }
}
