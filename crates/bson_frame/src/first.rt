//! The first frame of bytes.

ghost use Rattle.std.specs.Prelude.{◌≡◌, ◌↔◌, ◌∷◌, [], IsTrue, MatchOption, MatchResult};
ghost use Rattle.bson_frame.specs.Frame.{HasNoFrame, IsFirstFrame, IsStructuralFault};
ghost use Rattle.bson_frame.specs.Payload.{IsPayload};
ghost use Rattle.bson_frame.specs.View.{element_of};

use crate::error::ErrorKind;
use crate::extent::{extent, name_at};
use crate::laws;
use crate::parts::Frame;
use bson_base::ElementType;

/// The first frame of bytes (bsonspec.org 1.1, "element"): a known tag, a zero-terminated key and a payload that lies
/// within the bytes. If there is none, `Utf8EncodingError` if the key, or the pattern or options of a regular
/// expression, aren't UTF-8, else `MalformedValue`.
pub fn frame(bytes: &[u8]) -> Result<Frame<'_>, ErrorKind>
    ensures { MatchResult result (λ f. IsFirstFrame bytes.now (element_of f) f.rest.now)
        (IsStructuralFault bytes.now) }
{
    let [byte, after @ ..] = bytes else {
        return Err(ErrorKind::MalformedValue);
    };
    let (key, value) = name_at(after)?;
    let Some(tag) = ElementType::from(*byte) else {
        return Err(ErrorKind::MalformedValue);
    };
    let size = extent(tag, value)?;
    let (payload, rest) = value.split_at(size);
    Ok(Frame {
        tag,
        key,
        payload,
        rest,
    })
}

/// The first frame of bytes, if there is one; its payload has the size of its kind by itself, whatever follows it.
pub fn sized_frame(bytes: &[u8]) -> Option<Frame<'_>>
    ensures { MatchOption result (HasNoFrame bytes.now)
        (λ f. IsFirstFrame bytes.now (element_of f) f.rest.now × IsPayload f.tag f.payload.now) }
{
    laws::payload_by_itself();
    match frame(bytes) {
        Ok(frame) => Some(frame),
        Err(_) => None,
    }
}

/// Whether only the final 00 of a document is left (bsonspec.org 1.1, "document").
pub fn is_end(bytes: &[u8]) -> bool
    ensures { IsTrue result ↔ (bytes.now ≡ 0 ∷ []) }
{
    matches!(bytes, [0])
}
