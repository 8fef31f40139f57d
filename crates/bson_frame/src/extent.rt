//! How many bytes a payload takes.

ghost use Rattle.std.specs.Prelude.{◌≡◌, ◌<◌, ◌≤◌, ◌^◌, ◌++◌, ◌∷◌, ◌⊎◌, length, IfSome, MatchOption, MatchResult};
ghost use Rattle.bson_base.specs.Kinds.{HasNo00};
ghost use Rattle.bson_frame.specs.Frame.{number, IsCstring, IsTextSize, IsDocumentSize, IsBinarySize, IsCodeSize, IsPointerSize, IsRegexSize, HasSize};
ghost use Rattle.bson_frame.specs.Names.{IsAsciiEnd, IsAsciiRun};
ghost use Rattle.bson_frame.specs.Reader.{NameFault, IsWhole, IsNeverWhole, GivesSize, RegexFault, SizeFault};
ghost use Rattle.bson_frame.specs.declared.error.ErrorKind.TheVariants.{MalformedValue};

use crate::error::ErrorKind;
use bson_base::ElementType;
use memchr::memchr;
use simdutf8::basic::from_utf8;
use std::simd::prelude::*;

/// The bytes before the first 00, and those after it.
fn split_at_zero(bytes: &[u8]) -> Option<(&[u8], &[u8])>
    ensures { MatchOption result (HasNo00 bytes.now)
        (λ r. HasNo00 r.0.now × (bytes.now ≡ r.0.now ++ 0 ∷ r.1.now)) }
{
    match memchr(0, bytes) {
        Some(i) => Some((&bytes[..i], &bytes[i + 1..])),
        None => None,
    }
}

/// How many of the first 16 bytes are before the first one that is 00 or not ASCII; 16 if there is none.
fn ascii_run(bytes: &[u8]) -> usize
    requires { 16 ≤ length bytes.now }
    ensures short { result ≤ 16 }
    ensures run { IsAsciiRun bytes.now result }
{
    let less_one = u8x16::from_slice(bytes) - u8x16::splat(1);
    let ends = u8x16::splat(127).simd_le(less_one).to_bitmask();
    if ends == 0 {
        16
    } else {
        ends.trailing_zeros() as usize
    }
}

/// The place of the first 00, if it is among the first 16 of at least as many bytes and all bytes before it are ASCII.
fn near_end(bytes: &[u8]) -> Option<usize>
    ensures { IfSome result (IsAsciiEnd bytes.now) }
{
    // Nearly every key is ASCII and shorter than 16 bytes, and each walk meets each key.
    if bytes.len() < 16 {
        return None;
    }
    let place = ascii_run(bytes);
    if place < 16 && bytes[place] == 0 {
        Some(place)
    } else {
        None
    }
}

/// How many bytes of a name are looked at one by one.
const SHORT: usize = 32;

/// The place of the first 00, if it is near and all bytes before it are ASCII, by one byte after the other.
fn ascii_end_by_bytes(bytes: &[u8]) -> Option<usize>
    ensures { IfSome result (IsAsciiEnd bytes.now) }
{
    for i in 0..bytes.len().min(SHORT) {
        let byte = bytes[i];
        if byte == 0 {
            return Some(i);
        }
        if byte >= 0x80 {
            return None;
        }
    }
    None
}

/// The place of the first 00, if it is near and all bytes before it are ASCII.
fn ascii_end(bytes: &[u8]) -> Option<usize>
    ensures { IfSome result (IsAsciiEnd bytes.now) }
{
    match near_end(bytes) {
        Some(place) => Some(place),
        None => ascii_end_by_bytes(bytes),
    }
}

/// The zero-terminated text at the front, and what follows its 00 (bsonspec.org 1.1, "cstring"). If there is none,
/// `Utf8EncodingError` if the bytes up to the first 00 aren't UTF-8, and `MalformedValue` if there is no 00.
pub fn name_at(bytes: &[u8]) -> Result<(&str, &[u8]), ErrorKind>
    ensures { MatchResult result
        (λ r. IsCstring r.0.now × (bytes.now ≡ r.0.now ++ 0 ∷ r.1.now)) (NameFault bytes.now) }
{
    if let Some(i) = ascii_end(bytes) {
        let (run, rest) = (&bytes[..i], &bytes[i + 1..]);
        return Ok((unsafe { str::from_utf8_unchecked(run) }, rest));
    }
    let Some((run, rest)) = split_at_zero(bytes) else {
        return Err(ErrorKind::MalformedValue);
    };
    match from_utf8(run) {
        Ok(name) => Ok((name, rest)),
        Err(_) => Err(ErrorKind::Utf8EncodingError),
    }
}

/// The length in the first four bytes, a signed number that may not be negative.
pub(crate) fn length_at(bytes: &[u8]) -> Result<usize, ErrorKind>
    ensures { MatchResult result
        (λ n. (4 ≤ length bytes.now) × (n < 2 ^ 31) × (n ≡ number bytes.now))
        (λ kind. (kind ≡ MalformedValue) × (length bytes.now < 4 ⊎ 2 ^ 31 ≤ number bytes.now)) }
{
    let [a, b, c, d, ..] = bytes else {
        return Err(ErrorKind::MalformedValue);
    };
    let n = u32::from_le_bytes([*a, *b, *c, *d]);
    if n >= 0x8000_0000 {
        return Err(ErrorKind::MalformedValue);
    }
    Ok(n as usize)
}

/// The size of the text at the front.
pub(crate) fn text_size(bytes: &[u8]) -> Result<usize, ErrorKind>
    ensures { GivesSize IsTextSize bytes.now result }
{
    let length = length_at(bytes)?;
    let size = length + 4;
    if length == 0 || bytes.len() < size || bytes[size - 1] != 0 {
        return Err(ErrorKind::MalformedValue);
    }
    Ok(size)
}

/// The size of the document at the front.
pub(crate) fn document_size(bytes: &[u8]) -> Result<usize, ErrorKind>
    ensures { GivesSize IsDocumentSize bytes.now result }
{
    let size = length_at(bytes)?;
    if size < 5 || bytes.len() < size || bytes[size - 1] != 0 {
        return Err(ErrorKind::MalformedValue);
    }
    Ok(size)
}

/// The size of the binary value at the front.
fn binary_size(bytes: &[u8]) -> Result<usize, ErrorKind>
    ensures { GivesSize IsBinarySize bytes.now result }
{
    fixed_size(length_at(bytes)? + 5, bytes)
}

/// The size of the code with scope at the front.
fn code_size(bytes: &[u8]) -> Result<usize, ErrorKind>
    ensures { GivesSize IsCodeSize bytes.now result }
{
    fixed_size(length_at(bytes)?, bytes)
}

/// The size of the pointer at the front.
fn pointer_size(bytes: &[u8]) -> Result<usize, ErrorKind>
    ensures { GivesSize IsPointerSize bytes.now result }
{
    fixed_size(text_size(bytes)? + 12, bytes)
}

/// The size of the regular expression at the front.
fn regex_size(bytes: &[u8]) -> Result<usize, ErrorKind>
    ensures { MatchResult result (IsWhole IsRegexSize bytes.now)
        (λ kind. IsNeverWhole IsRegexSize bytes.now × RegexFault bytes.now kind) }
{
    let (_, rest) = name_at(bytes)?;
    let (_, rest) = name_at(rest)?;
    Ok(bytes.len() - rest.len())
}

/// This size, if the bytes are there.
fn fixed_size(size: usize, bytes: &[u8]) -> Result<usize, ErrorKind>
    ensures { GivesSize (λ _ n. n ≡ size) bytes.now result }
{
    if bytes.len() < size {
        return Err(ErrorKind::MalformedValue);
    }
    Ok(size)
}

/// How many bytes the payload of this kind at the front takes.
pub(crate) fn extent(tag: ElementType, bytes: &[u8]) -> Result<usize, ErrorKind>
    ensures { MatchResult result (IsWhole (HasSize tag) bytes.now)
        (λ kind. IsNeverWhole (HasSize tag) bytes.now × SizeFault tag bytes.now kind) }
{
    match tag {
        ElementType::Undefined | ElementType::Null | ElementType::MaxKey | ElementType::MinKey =>
            Ok(0),
        ElementType::Boolean => fixed_size(1, bytes),
        ElementType::Int32 => fixed_size(4, bytes),
        ElementType::Double | ElementType::DateTime | ElementType::Timestamp | ElementType::Int64 =>
            fixed_size(8, bytes),
        ElementType::ObjectId => fixed_size(12, bytes),
        ElementType::Decimal128 => fixed_size(16, bytes),
        ElementType::String | ElementType::JavaScriptCode | ElementType::Symbol => text_size(bytes),
        ElementType::EmbeddedDocument | ElementType::Array => document_size(bytes),
        ElementType::Binary => binary_size(bytes),
        ElementType::JavaScriptCodeWithScope => code_size(bytes),
        ElementType::DbPointer => pointer_size(bytes),
        ElementType::RegularExpression => regex_size(bytes),
    }
}
