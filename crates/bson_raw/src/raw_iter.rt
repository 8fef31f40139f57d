//! The walk over the elements of a document.

ghost use Rattle.std.specs.Iterator.{at_most};
ghost use Rattle.std.specs.Prelude.{◌≡◌, MatchOption};
ghost use Rattle.bson_frame.specs.Frame.{HasNoFrame, IsFirstFrame};
ghost use Rattle.bson_raw.specs.View.{parts_of};

use crate::element::RawElement;
use bson_frame::{Error, frame};

/// The elements of a document in order, their values not read yet, and a structural fault as the last item.
#[derive(Clone, Copy, Debug)]
pub struct RawIter<'a> {
    /// From the next frame on; None after the end.
    pub(crate) rest: Option<&'a [u8]>,
}

impl<'a> Iterator for RawIter<'a> {
    ghost use Rattle.bson_raw.specs.View.{left_of};
    ghost use Rattle.bson_raw.specs.Walk.{raw_steps, items_left};

    type Item = Result<RawElement<'a>, Error>;

    ghost next_gives = { raw_steps };

    ghost remaining = { λ s. at_most (items_left (left_of s)) };

    /// `MalformedValue` or `Utf8EncodingError`, under no key, if the bytes left don't begin with an element; None after
    /// that.
    fn next(&mut self) -> Option<Result<RawElement<'a>, Error>> {
        bson_frame::laws::payload_by_itself();
        let bytes = self.rest?;
        if let [0] = bytes {
            self.rest = None;
            return None;
        }
        match frame(bytes) {
            Ok(frame) => {
                self.rest = Some(frame.rest);
                Some(Ok(RawElement { frame }))
            }
            Err(kind) => {
                self.rest = None;
                Some(Err(Error::new(None, kind)))
            }
        }
    }
}

/// The first element of bytes, and what is behind it, if they begin with one (bsonspec.org 1.1, "element"). Takes no memory.
pub fn first_element(bytes: &[u8]) -> Option<(RawElement<'_>, &[u8])>
    ensures { MatchOption result (HasNoFrame bytes.now)
        (λ r. IsFirstFrame bytes.now (parts_of r.0) r.1.now × (r.0.frame.rest.now ≡ r.1.now)) }
{
    bson_frame::laws::payload_by_itself();
    match frame(bytes) {
        Ok(frame) => Some((RawElement { frame }, frame.rest)),
        Err(_) => None,
    }
}
