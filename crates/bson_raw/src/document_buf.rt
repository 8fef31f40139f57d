//! Documents that own their bytes.

ghost use Rattle.std.specs.Prelude.{◌≡◌, ◌∷◌, [], IfOk, OnOk, MatchResult, List, Result, Some, drop, map};
ghost use Rattle.std.specs.Iterator.{Drains};
ghost use Rattle.bson_frame.specs.Payload.{IsEnvelope};
ghost use Rattle.bson_frame.specs.declared.error.Error.{Error as Fault};
ghost use Rattle.bson_frame.specs.declared.error.ErrorKind.TheVariants.{MalformedValue};

use crate::append::append_to;
use crate::bson::RawBson;
use crate::bson_ref::RawBsonRef;
use crate::document::RawDocument;
use crate::iter::Iter;
use crate::raw_iter::RawIter;
use bson_frame::Error;
use std::alloc::{AllocError, Global};

/// The bytes of one document (bsonspec.org 1.1, "document"): at least 5 bytes, their number in the first four, and 00
/// as the last. What is between isn't looked at until it is read. Two are equal if their bytes are.
#[derive(Debug, PartialEq, Drop)]
pub struct RawDocumentBuf {
    pub(crate) bytes: Vec<u8>,
    pub ghost envelope: { IsEnvelope bytes.items },
}

impl RawDocumentBuf {
    ghost use Rattle.bson_frame.specs.View.{IsBare};
    ghost use Rattle.bson_raw.specs.Append.{AppendsElement, Builds, Gains, element_for};
    ghost use Rattle.bson_raw.specs.Buffer.{buffer_bytes};
    ghost use Rattle.bson_raw.specs.Pairs.{raw_pair};
    ghost use Rattle.bson_raw.specs.Raw.{ref_value, own_value};
    ghost use Rattle.bson_raw.specs.Read.{IsPairRead, pair_steps};
    ghost use Rattle.bson_raw.specs.View.{bytes_of, left_of, pairs_left};
    ghost use Rattle.bson_raw.specs.Walk.{YieldsWalk, IsItem, raw_steps};
    ghost use Rattle.bson_raw.specs.declared.bson_ref.RawBsonRef.{RawBsonRef as AnyValue};
    ghost use Rattle.bson_raw.specs.declared.element.RawElement.{RawElement as Item};
    ghost use Rattle.std.specs.Borrow.{Bor};
    ghost use Rattle.std.specs.Prelude.{ℕ};

    /// The empty document. The buffer takes all its memory from `alloc`. The error is a refused growth.
    pub fn new(alloc: Global) -> Result<RawDocumentBuf, AllocError>
        ensures { IfOk result (λ d. buffer_bytes d ≡ 5 ∷ 0 ∷ 0 ∷ 0 ∷ 0 ∷ []) }
    {
        let bytes = Vec::from_slice(alloc, &[5, 0, 0, 0, 0])?;
        Ok(RawDocumentBuf { bytes })
    }

    /// The document of these bytes. `MalformedValue`, under no key, if they aren't at least 5, don't declare their own
    /// number or don't end in 00.
    pub fn from_bytes(bytes: Vec<u8>) -> Result<RawDocumentBuf, Error>
        ensures { MatchResult result (λ d. buffer_bytes d ≡ bytes.items)
            (λ e. (IsEnvelope bytes.items → ⊥) × IsBare MalformedValue e) }
    {
        RawDocument::from_bytes(&bytes)?;
        Ok(RawDocumentBuf { bytes })
    }

    /// The bytes.
    pub fn into_bytes(self) -> Vec<u8>
        ensures { result.items ≡ buffer_bytes self }
    {
        let RawDocumentBuf { bytes } = self;
        bytes
    }

    /// A copy with memory of its own. The error is a refused growth.
    pub fn try_clone(&self) -> Result<RawDocumentBuf, AllocError>
        ensures { IfOk result (λ d. buffer_bytes d ≡ buffer_bytes self.now) }
    {
        let bytes = Vec::from_slice(*self.bytes.allocator(), &self.bytes)?;
        Ok(RawDocumentBuf { bytes })
    }

    /// The document of these values under their keys, one after the other.
    ///
    /// The first refusal ends it and is returned: `MalformedValue`, under no key, if a 00 is in a key, a pattern or
    /// options, and if the document would be over 2147483647 bytes; `OutOfMemory` if a growth is refused.
    pub fn from_iter(alloc: Global, pairs: Vec<(String, RawBson)>) -> Result<RawDocumentBuf, Error>
        ensures { Builds buffer_bytes (map raw_pair pairs.items) result }
    {
        // A vector has a list in its contract; that of an iterator would need a premise on its end.
        let mut document = RawDocumentBuf::new(alloc)?;
        for (key, value) in pairs {
            document.append(&key, value)?;
        }
        Ok(document)
    }

    /// Puts a value last, under a key. It takes time in proportion to the element, except for growths of the buffer.
    ///
    /// `MalformedValue`, under no key, if a 00 is in the key, a pattern or options, and if the document would be
    /// over 2147483647 bytes. A refusal changes nothing.
    pub fn append_ref(&mut self, key: &str, value: RawBsonRef<'_>) -> Result<(), Error>
        ensures bytes { AppendsElement (buffer_bytes self.old) (buffer_bytes self.new) key.now (ref_value value.entry) result }
        ensures walk { OnOk result (Gains (buffer_bytes self.old) (buffer_bytes self.new) (element_for key.now (ref_value value.entry))) }
    {
        append_to(&mut self.bytes, key, value)
    }

    /// Puts a value last, under a key, as `append_ref` does.
    pub fn append(&mut self, key: &str, value: RawBson) -> Result<(), Error>
        ensures bytes { AppendsElement (buffer_bytes self.old) (buffer_bytes self.new) key.now (own_value value) result }
        ensures walk { OnOk result (Gains (buffer_bytes self.old) (buffer_bytes self.new) (element_for key.now (own_value value))) }
    {
        self.append_ref(key, value.as_raw_bson_ref())
    }

    /// The view of the bytes.
    pub fn as_ref(&self) -> RawDocument<'_>
        ensures { bytes_of result ≡ buffer_bytes self.now }
    {
        RawDocument { bytes: &self.bytes }
    }

    /// The elements in order, and a structural fault last. Takes no memory.
    pub fn iter_elements(&self) -> RawIter<'_>
        ensures start { left_of result ≡ Some (drop 4 (buffer_bytes self.now)) }
        ensures walk { (items : List (Result Item Fault)) → Drains raw_steps result items
            → YieldsWalk IsItem (buffer_bytes self.now) items }
    {
        self.as_ref().iter_elements()
    }

    /// The keys and values in order, payload faults in their places, and a structural fault last. Memory is taken for
    /// the key of a payload fault alone; if there is none, out of memory is returned instead, and the walk goes on.
    pub fn iter(&self) -> Iter<'_>
        ensures start { pairs_left result ≡ Some (drop 4 (buffer_bytes self.now)) }
        ensures walk { (items : List (Result (Bor (List ℕ) × AnyValue) Fault)) → Drains pair_steps result items
            → YieldsWalk IsPairRead (buffer_bytes self.now) items }
    {
        self.as_ref().iter(*self.bytes.allocator())
    }
}

impl<'a> RawDocument<'a> {
    ghost use Rattle.bson_raw.specs.Buffer.{buffer_bytes};
    ghost use Rattle.bson_raw.specs.View.{bytes_of};

    /// A copy of the bytes. The error is a refused growth.
    pub fn to_raw_document_buf(self, alloc: Global) -> Result<RawDocumentBuf, AllocError>
        ensures { IfOk result (λ d. buffer_bytes d ≡ bytes_of self.entry) }
    {
        let bytes = Vec::from_slice(alloc, self.bytes)?;
        Ok(RawDocumentBuf { bytes })
    }
}
