//! Keys of meaning.

ghost use Rattle.std.specs.Prelude.{◌≡◌, ◌≢◌, ◌↔◌, ◌<◌, Err, IfOk, IsTrue, OnOk};
ghost use Rattle.bson_base.specs.Kinds.{IsSound};
ghost use Rattle.bson_base.specs.Value.{document as tree};
ghost use Rattle.bson_bytes.specs.Encode.{size};
ghost use Rattle.bson_bytes.specs.Writing.{CanBeWritten};
ghost use Rattle.bson_frame.specs.Frame.{length_limit};
ghost use Rattle.bson_frame.specs.declared.error.ErrorKind.TheVariants.{OutOfMemory};
ghost use Rattle.bson_model.specs.View.{view, content};
ghost use Rattle.bson_meaning.specs.Forms.{norm_members_in_order, norm_in_order, norm_members, key as key_by};
ghost use Rattle.bson_meaning.specs.Keys.{alone, AnswersKey};
ghost use Rattle.bson_meaning.specs.declared.scalars.Zeros.{Zeros as AnyZeros};
ghost use Rattle.bson_meaning.specs.declared.scalars.Zeros.TheVariants.{Apart, Joined};

use crate::lengths::{normal_length, normal_length_of_element};
use crate::plain::{has_plain_members, is_plain_element};
use crate::scalars::Zeros;
use crate::writing::{encode_element_in_order, encode_in_order};
use bson_frame::{Error as WriteError, ErrorKind, LENGTH_LIMIT};
use bson_model::{Bson, Document};
use std::alloc::{AllocError, Global};
use thiserror::Error;

/// Why a document has no key.
#[derive(Clone, Copy, Debug, PartialEq, Eq, Error)]
pub enum KeyError {
    /// A 00 is in a key, a pattern or options.
    #[error("a zero byte in a key, a pattern or options")]
    NotPlain,
    /// The key would be over 2147483647 bytes.
    #[error("the key is too long")]
    TooLong,
    /// A growth was refused.
    #[error("out of memory")]
    Memory,
}

impl From<AllocError> for KeyError {
    ghost use Rattle.bson_meaning.specs.declared.key.KeyError.TheVariants.{Memory};

    ghost from_gives = { λ _ e. e ≡ Memory };

    fn from(_error: AllocError) -> KeyError {
        KeyError::Memory
    }
}

/// The bytes of the document's normal form with its keys in order. Two documents have the same key exactly if they
/// mean the same, as long as neither is refused. A document that has a key was counted first, which shows that it is
/// sound.
pub fn meaning_key(alloc: Global, document: &Document) -> Result<Vec<u8>, KeyError>
    ensures { AnswersKey Joined (content document.now) result }
{
    key_where(Zeros::Joined, alloc, document)
}

/// The key that the document had before the two zeros of a double meant the same. Two documents have the same such key
/// exactly if they meant the same, as long as neither is refused. Refused as `meaning_key` is.
pub fn meaning_key_before(alloc: Global, document: &Document) -> Result<Vec<u8>, KeyError>
    ensures { AnswersKey Apart (content document.now) result }
{
    key_where(Zeros::Apart, alloc, document)
}

/// The key of a document, with its zeros taken as `zeros` says.
fn key_where(zeros: Zeros, alloc: Global, document: &Document) -> Result<Vec<u8>, KeyError>
    ensures { AnswersKey zeros (content document.now) result }
{
    if !has_plain_members(document) {
        return Err(KeyError::NotPlain);
    }
    if is_too_long(document) {
        return Err(KeyError::TooLong);
    }
    written(zeros, alloc, document)
}

/// The key of the document that has this element alone: the bytes that `meaning_key` returns for it, without that
/// document. Refused as `meaning_key` is. Whatever is returned, the value was counted first, which shows that it is
/// sound.
pub fn meaning_key_of_element(alloc: Global, name: &str, value: &Bson) -> Result<Vec<u8>, KeyError>
    ensures key { AnswersKey Joined (alone name.now (view value.now)) result }
    ensures sound { IsSound (view value.now) }
{
    element_key_where(Zeros::Joined, alloc, name, value)
}

/// The key that the document that has this element alone had before the two zeros of a double meant the same: the bytes
/// that `meaning_key_before` returns for it. Whatever is returned, the value was counted first, which shows that it is
/// sound.
pub fn meaning_key_before_of_element(
    alloc: Global,
    name: &str,
    value: &Bson,
) -> Result<Vec<u8>, KeyError>
    ensures key { AnswersKey Apart (alone name.now (view value.now)) result }
    ensures sound { IsSound (view value.now) }
{
    element_key_where(Zeros::Apart, alloc, name, value)
}

/// The key of the document that has this element alone, with its zeros taken as `zeros` says.
fn element_key_where(
    zeros: Zeros,
    alloc: Global,
    name: &str,
    value: &Bson,
) -> Result<Vec<u8>, KeyError>
    ensures key { AnswersKey zeros (alone name.now (view value.now)) result }
    ensures sound { IsSound (view value.now) }
{
    let too_long = is_element_too_long(name, value);
    if !is_plain_element(name, value) {
        return Err(KeyError::NotPlain);
    }
    if too_long {
        return Err(KeyError::TooLong);
    }
    written_alone(zeros, alloc, name, value)
}

/// Whether the key would be over 2147483647 bytes. What counts them shows that the document is sound.
fn is_too_long(document: &Document) -> bool
    ensures long { (zeros : AnyZeros) → IsTrue result ↔ (length_limit < size (norm_members zeros (content document.now))) }
    ensures sound { IsSound (tree (content document.now)) }
{
    normal_length(document) > LENGTH_LIMIT
}

/// The same of a document that has this element alone.
fn is_element_too_long(name: &str, value: &Bson) -> bool
    ensures long { (zeros : AnyZeros) → IsTrue result ↔ (length_limit < size (norm_members zeros (alone name.now (view value.now)))) }
    ensures sound { IsSound (tree (alone name.now (view value.now))) }
{
    normal_length_of_element(name, value) > LENGTH_LIMIT
}

/// The bytes of the normal form with its keys in order, of a document without a 00 in a key, a pattern or options.
fn written(zeros: Zeros, alloc: Global, document: &Document) -> Result<Vec<u8>, KeyError>
    ensures bytes { IfOk result (λ k. k.items ≡ key_by zeros (content document.now)) }
    ensures fits { OnOk result (CanBeWritten (tree (norm_members_in_order zeros (content document.now)))) }
    ensures never_not_plain { result ≢ Err KeyError.NotPlain }
    ensures too_long { result ≡ Err KeyError.TooLong → CanBeWritten (tree (norm_members_in_order zeros (content document.now))) → ⊥ }
{
    encode_in_order(zeros, alloc, document).map_err(unwritten)
}

/// The same of a document that has this element alone.
fn written_alone(zeros: Zeros, alloc: Global, name: &str, value: &Bson) -> Result<Vec<u8>, KeyError>
    ensures bytes { IfOk result (λ k. k.items ≡ key_by zeros (alone name.now (view value.now))) }
    ensures fits { OnOk result (CanBeWritten (tree (alone name.now (norm_in_order zeros (view value.now))))) }
    ensures never_not_plain { result ≢ Err KeyError.NotPlain }
    ensures too_long { result ≡ Err KeyError.TooLong → CanBeWritten (tree (alone name.now (norm_in_order zeros (view value.now)))) → ⊥ }
{
    encode_element_in_order(zeros, alloc, name, value).map_err(unwritten)
}

/// Why the bytes of a normal form without a 00 aren't written.
fn unwritten(error: WriteError) -> KeyError
    ensures never_not_plain { result ≢ KeyError.NotPlain }
    ensures too_long { (result ≡ KeyError.TooLong) ↔ (error.kind ≢ OutOfMemory) }
{
    match error.kind {
        ErrorKind::OutOfMemory => KeyError::Memory,
        _ => KeyError::TooLong,
    }
}
