//! Documents as views over their bytes.

ghost use Rattle.std.specs.Prelude.{◌≡◌, ◌↔◌, [], IsTrue, MatchResult, List, Result, drop, Some, None};
ghost use Rattle.std.specs.Iterator.{Drains};
ghost use Rattle.bson_frame.specs.Payload.{IsEnvelope};
ghost use Rattle.bson_frame.specs.declared.error.Error.{Error as Fault};
ghost use Rattle.bson_frame.specs.declared.error.ErrorKind.TheVariants.{MalformedValue};

use crate::access;
use crate::access::Asked;
use crate::array::RawArray;
use crate::bson_ref::{RawBinaryRef, RawBsonRef, RawRegexRef};
use crate::convert::{document_of, elements};
use crate::element::RawElement;
use crate::iter::Iter;
use crate::kinds::OfKind;
use crate::raw_iter::RawIter;
use bson_base::{DateTime, DoubleBits, ObjectId, Timestamp};
use bson_frame::{Error, ErrorKind, ValueAccessResult, is_envelope};
use bson_model::{Document, STACK_LEVELS};
use std::alloc::Global;

/// A view of the bytes of one document (bsonspec.org 1.1, "document"): at least 5 bytes, their number in the first
/// four, and 00 as the last. What is between isn't looked at until it is read. Two views are equal if their bytes are.
#[derive(Clone, Copy, Debug, PartialEq)]
pub struct RawDocument<'a> {
    pub(crate) bytes: &'a [u8],
    pub ghost envelope: { IsEnvelope bytes.now },
}

/// The bytes, the elements, look-ups, and the typed getters. A typed getter returns `NotPresent` if no element has the
/// key, `UnexpectedType` if the first one has a value of another kind, and `InvalidBson` if `get` returns a fault. It
/// takes memory for an error alone.
impl<'a> RawDocument<'a> {
    ghost use Rattle.bson_frame.specs.View.{IsBare};
    ghost use Rattle.bson_raw.specs.Access.{AccessAnswer};
    ghost use Rattle.bson_raw.specs.Read.{GetAnswer, IsPairRead, pair_steps};
    ghost use Rattle.bson_raw.specs.ReadValue.{as_f64, as_str, as_document, as_array, as_binary, as_object_id, as_bool, as_datetime, as_regex, as_timestamp, as_i32, as_i64};
    ghost use Rattle.bson_raw.specs.View.{bytes_of, left_of, pairs_left};
    ghost use Rattle.bson_raw.specs.Walk.{IsDocumentWalk, YieldsWalk, IsItem, IsFound, found_under, raw_steps, OnWalk};
    ghost use Rattle.bson_raw.specs.declared.bson_ref.RawBsonRef.{RawBsonRef as AnyValue};
    ghost use Rattle.bson_raw.specs.declared.element.RawElement.{RawElement as Item};
    ghost use Rattle.std.specs.Borrow.{Bor};
    ghost use Rattle.std.specs.Prelude.{ℕ, Option};

    /// The view of these bytes. `MalformedValue`, under no key, if they aren't at least 5, don't declare their own
    /// number or don't end in 00.
    pub fn from_bytes(bytes: &'a [u8]) -> Result<RawDocument<'a>, Error>
        ensures { MatchResult result (λ d. bytes_of d ≡ bytes.now)
            (λ e. (IsEnvelope bytes.now → ⊥) × IsBare MalformedValue e) }
    {
        if is_envelope(bytes) {
            Ok(RawDocument { bytes })
        } else {
            Err(Error::new(None, ErrorKind::MalformedValue))
        }
    }

    /// The bytes.
    pub fn as_bytes(self) -> &'a [u8]
        ensures { result.now ≡ bytes_of self.entry }
    {
        self.bytes
    }

    /// Whether iteration yields nothing.
    pub fn is_empty(self) -> bool
        ensures { IsTrue result ↔ (IsDocumentWalk (bytes_of self.entry) [] None) }
    {
        self.bytes.len() == 5
    }

    /// The elements in order, and a structural fault last. Takes no memory.
    pub fn iter_elements(self) -> RawIter<'a>
        ensures start { left_of result ≡ Some (drop 4 (bytes_of self.entry)) }
        ensures walk { (items : List (Result Item Fault)) → Drains raw_steps result items
            → YieldsWalk IsItem (bytes_of self.entry) items }
    {
        let (_, rest) = self.bytes.split_at(4);
        RawIter { rest: Some(rest) }
    }

    /// The keys and values in order, payload faults in their places, and a structural fault last. Memory is taken for
    /// the key of a payload fault alone; if there is none, out of memory is returned instead, and the walk goes on.
    pub fn iter(self, alloc: Global) -> Iter<'a>
        ensures start { pairs_left result ≡ Some (drop 4 (bytes_of self.entry)) }
        ensures walk { (items : List (Result (Bor (List ℕ) × AnyValue) Fault)) → Drains pair_steps result items
            → YieldsWalk IsPairRead (bytes_of self.entry) items }
    {
        Iter {
            raw: self.iter_elements(),
            alloc,
        }
    }

    /// The first element with the key, or the structural fault before it.
    pub(crate) fn find(self, key: &str) -> Option<Result<RawElement<'a>, Error>>
        ensures { OnWalk (bytes_of self.entry) (λ elements fault. IsFound (found_under key.now elements fault) result) }
    {
        bson_frame::laws::one_first_frame();
        bson_frame::laws::one_structural_fault();
        for item in self.iter_elements() {
            match item {
                Ok(element) => {
                    if element.key() == key {
                        return Some(Ok(element));
                    }
                }
                Err(e) => return Some(Err(e)),
            }
        }
        None
    }

    /// The value of the first element with the key, or its payload fault, or the structural fault before it. Memory is
    /// taken for the key of a payload fault alone.
    pub fn get(self, alloc: Global, key: &str) -> Result<Option<RawBsonRef<'a>>, Error>
        ensures { OnWalk (bytes_of self.entry) (λ elements fault. GetAnswer (found_under key.now elements fault) result) }
    {
        access::read(alloc, self.find(key))
    }

    /// What is taken of the value under the key, if it is of its kind.
    fn of_kind<T: OfKind, F: FnOnce(RawBsonRef<'a>) -> Option<T>>(
        self,
        alloc: Global,
        key: &str,
        take: F,
    ) -> ValueAccessResult<T>
        requires callable { F.IsAlwaysCallable take }
        requires of_kind { (v : AnyValue) (taken : Option T) → F.post take v taken → taken ≡ T.as_kind v }
        ensures { OnWalk (bytes_of self.entry) (λ elements fault. AccessAnswer T.as_kind key.now (found_under key.now elements fault) result) }
    {
        access::of_kind(alloc, Asked::Key(key), self.get(alloc, key), take)
    }

    /// The double under the key.
    pub fn get_f64(self, alloc: Global, key: &str) -> ValueAccessResult<DoubleBits>
        ensures { OnWalk (bytes_of self.entry) (λ elements fault. AccessAnswer as_f64 key.now (found_under key.now elements fault) result) }
    {
        self.of_kind(alloc, key, RawBsonRef::as_f64)
    }

    /// The text under the key.
    pub fn get_str(self, alloc: Global, key: &str) -> ValueAccessResult<&'a str>
        ensures { OnWalk (bytes_of self.entry) (λ elements fault. AccessAnswer as_str key.now (found_under key.now elements fault) result) }
    {
        self.of_kind(alloc, key, RawBsonRef::as_str)
    }

    /// The document under the key.
    pub fn get_document(self, alloc: Global, key: &str) -> ValueAccessResult<RawDocument<'a>>
        ensures { OnWalk (bytes_of self.entry) (λ elements fault. AccessAnswer as_document key.now (found_under key.now elements fault) result) }
    {
        self.of_kind(alloc, key, RawBsonRef::as_document)
    }

    /// The array under the key.
    pub fn get_array(self, alloc: Global, key: &str) -> ValueAccessResult<RawArray<'a>>
        ensures { OnWalk (bytes_of self.entry) (λ elements fault. AccessAnswer as_array key.now (found_under key.now elements fault) result) }
    {
        self.of_kind(alloc, key, RawBsonRef::as_array)
    }

    /// The binary value under the key.
    pub fn get_binary(self, alloc: Global, key: &str) -> ValueAccessResult<RawBinaryRef<'a>>
        ensures { OnWalk (bytes_of self.entry) (λ elements fault. AccessAnswer as_binary key.now (found_under key.now elements fault) result) }
    {
        self.of_kind(alloc, key, RawBsonRef::as_binary)
    }

    /// The object id under the key.
    pub fn get_object_id(self, alloc: Global, key: &str) -> ValueAccessResult<ObjectId>
        ensures { OnWalk (bytes_of self.entry) (λ elements fault. AccessAnswer as_object_id key.now (found_under key.now elements fault) result) }
    {
        self.of_kind(alloc, key, RawBsonRef::as_object_id)
    }

    /// The boolean under the key.
    pub fn get_bool(self, alloc: Global, key: &str) -> ValueAccessResult<bool>
        ensures { OnWalk (bytes_of self.entry) (λ elements fault. AccessAnswer as_bool key.now (found_under key.now elements fault) result) }
    {
        self.of_kind(alloc, key, RawBsonRef::as_bool)
    }

    /// The moment under the key.
    pub fn get_datetime(self, alloc: Global, key: &str) -> ValueAccessResult<DateTime>
        ensures { OnWalk (bytes_of self.entry) (λ elements fault. AccessAnswer as_datetime key.now (found_under key.now elements fault) result) }
    {
        self.of_kind(alloc, key, RawBsonRef::as_datetime)
    }

    /// The regular expression under the key.
    pub fn get_regex(self, alloc: Global, key: &str) -> ValueAccessResult<RawRegexRef<'a>>
        ensures { OnWalk (bytes_of self.entry) (λ elements fault. AccessAnswer as_regex key.now (found_under key.now elements fault) result) }
    {
        self.of_kind(alloc, key, RawBsonRef::as_regex)
    }

    /// The timestamp under the key.
    pub fn get_timestamp(self, alloc: Global, key: &str) -> ValueAccessResult<Timestamp>
        ensures { OnWalk (bytes_of self.entry) (λ elements fault. AccessAnswer as_timestamp key.now (found_under key.now elements fault) result) }
    {
        self.of_kind(alloc, key, RawBsonRef::as_timestamp)
    }

    /// The integer of 32 bits under the key.
    pub fn get_i32(self, alloc: Global, key: &str) -> ValueAccessResult<i32>
        ensures { OnWalk (bytes_of self.entry) (λ elements fault. AccessAnswer as_i32 key.now (found_under key.now elements fault) result) }
    {
        self.of_kind(alloc, key, RawBsonRef::as_i32)
    }

    /// The integer of 64 bits under the key.
    pub fn get_i64(self, alloc: Global, key: &str) -> ValueAccessResult<i64>
        ensures { OnWalk (bytes_of self.entry) (λ elements fault. AccessAnswer as_i64 key.now (found_under key.now elements fault) result) }
    {
        self.of_kind(alloc, key, RawBsonRef::as_i64)
    }
}

/// To a tree.
impl RawDocument<'_> {
    ghost use Rattle.std.specs.Prelude.{IfErr};
    ghost use Rattle.bson_bytes.specs.Spells.{Means, IsFaulty};
    ghost use Rattle.bson_model.specs.View.{content};
    ghost use Rattle.bson_raw.specs.Convert.{HasFault, TellsFault};
    ghost use Rattle.bson_raw.specs.View.{bytes_of};

    /// The document that the bytes mean: a repeated key has its last value at the place of its first, and the options
    /// of a regular expression are in the order of their characters.
    ///
    /// If an element at any depth is faulty, the error is the first fault in the order of the bytes: `MalformedValue`,
    /// or `Utf8EncodingError` if a text isn't UTF-8, under the key of the element whose payload is faulty, or under
    /// none if bytes begin with no element. `OutOfMemory`, under no key, if a growth was refused, and if over 1000
    /// documents, arrays and scopes are nested in each other, this one among them: the stack is memory too, and the
    /// call goes no deeper.
    pub fn to_document(self, alloc: Global) -> Result<Document, Error>
        ensures tree { MatchResult result (λ d. Means (bytes_of self.entry) (content d))
            (TellsFault (HasFault (drop 4 (bytes_of self.entry)))) }
        ensures none { IfErr result (TellsFault (λ _ _. IsFaulty (bytes_of self.entry))) }
    {
        bson_frame::laws::one_first_frame();
        document_of(alloc, elements(self), STACK_LEVELS - 1)
    }
}
