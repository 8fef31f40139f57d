//! The written form of a document.

ghost use Rattle.std.specs.Prelude.{◌≡◌, ◌≤◌, drop, IsTrue, IfSome};
ghost use Rattle.bson_base.specs.Value.{document, levels, Members};
ghost use Rattle.bson_bytes.specs.Encode.{encode};
ghost use Rattle.bson_bytes.specs.Spells.{Means, SpellsMembers, settle};
ghost use Rattle.bson_frame.specs.Payload.{IsPayload};
ghost use Rattle.bson_frame.specs.View.{element_of};
ghost use Rattle.bson_bytes.specs.Written.{IsWritten, IsWrittenUnder};

use crate::elements::{are_written, first_under, is_scalar_written, is_written};
use crate::keys::KeptKeys;
use bson_base::ElementType;
use bson_frame::{Frame, LEVEL_LIMIT};

/// True: what follows the length spells a document of at most 100 levels without a fault at any level, and the bytes are
/// the written form of the document that they mean (bsonspec.org 1.1, "document"). No key occurs twice, the keys of an
/// array are its places in decimal, the options of a regular expression ascend, and nothing else has two written forms.
/// The declared length is the caller's to test.
///
/// False decides nothing: it is also returned for options that aren't ASCII, pointers, code with scope and old
/// binaries, and for a key that isn't greater by its bytes than all before it, if these and the keys before it in the
/// documents around it are over 96.
///
/// It goes over the bytes once. A key that is greater than all before it takes one comparison, another one up to 96.
pub fn is_written_form(bytes: &[u8]) -> bool
    ensures form { IsTrue result → (d : Members) → Means bytes.now d → bytes.now ≡ encode d }
    ensures settled { IsTrue result → (ms : Members) → SpellsMembers (drop 4 bytes.now) ms → settle ms ≡ ms }
    ensures spelled { IsTrue result → (ms : Members) × SpellsMembers (drop 4 bytes.now) ms × (levels (document ms) ≤ 100) }
{
    let [_, _, _, _, elements @ ..] = bytes else {
        return false;
    };
    let mut kept = KeptKeys::new();
    are_written(elements, LEVEL_LIMIT - 1, &mut kept)
}

/// True: the payload of a frame is as it is written. The array of keys is made for a document or an array alone.
fn is_written_alone(frame: &Frame<'_>) -> bool
    requires { IsPayload frame.now.tag frame.now.payload.now }
    ensures { IsTrue result → IsWritten frame.now.tag frame.now.payload.now }
{
    match frame.tag {
        ElementType::EmbeddedDocument | ElementType::Array => {
            let mut kept = KeptKeys::new();
            is_written(frame, LEVEL_LIMIT - 1, &mut kept)
        }
        _ => is_scalar_written(frame.tag, frame.payload),
    }
}

/// The first element with a key, in a document with these bytes. Its payload is the written form of the value under the
/// key. None decides nothing: it is also returned for a value for which `is_written_form` would decide nothing.
pub fn written_element<'a>(key: &str, bytes: &'a [u8]) -> Option<Frame<'a>>
    ensures { IfSome result (λ f. (ms : Members) → SpellsMembers (drop 4 bytes.now) ms → IsWrittenUnder key.now ms (element_of f)) }
{
    let [_, _, _, _, elements @ ..] = bytes else {
        return None;
    };
    let frame = first_under(key, elements)?;
    if is_written_alone(&frame) {
        Some(frame)
    } else {
        None
    }
}
