//! Arrays as views over their bytes.

ghost use Rattle.std.specs.Prelude.{◌≡◌, ◌↔◌, [], IsTrue, List, Option, Result, drop, Some, None};
ghost use Rattle.std.specs.Iterator.{Drains};
ghost use Rattle.std.specs.Fmt.{decimal};
ghost use Rattle.bson_frame.specs.declared.error.Error.{Error as Fault};

use crate::access;
use crate::access::Asked;
use crate::array_iter::RawArrayIter;
use crate::bson_ref::{RawBinaryRef, RawBsonRef, RawRegexRef};
use crate::convert::{array_of, elements};
use crate::document::RawDocument;
use crate::element::RawElement;
use crate::kinds::OfKind;
use bson_base::{DateTime, DoubleBits, ObjectId, Timestamp};
use bson_frame::{Error, ValueAccessResult};
use bson_model::{Array, STACK_LEVELS};
use std::alloc::Global;

/// A view of the bytes of an array: a document whose keys don't count (bsonspec.org 1.1, element type 04). Two views
/// are equal if their bytes are.
#[derive(Clone, Copy, Debug, PartialEq)]
pub struct RawArray<'a> {
    pub(crate) document: RawDocument<'a>,
}

/// The bytes, the values, look-ups, and the typed getters. A typed getter counts places from 0. It returns `NotPresent`
/// past the end, `UnexpectedType` if the value is of another kind, and `InvalidBson` if `get` returns a fault; the key
/// of each is the place in decimal. It takes memory for an error alone.
impl<'a> RawArray<'a> {
    ghost use Rattle.bson_raw.specs.Access.{AccessAnswer};
    ghost use Rattle.bson_raw.specs.Read.{GetAnswer, IsItemRead, value_steps};
    ghost use Rattle.bson_raw.specs.ReadValue.{as_f64, as_str, as_document, as_array, as_binary, as_object_id, as_bool, as_datetime, as_regex, as_timestamp, as_i32, as_i64};
    ghost use Rattle.bson_raw.specs.View.{array_bytes, values_left};
    ghost use Rattle.bson_raw.specs.Walk.{IsDocumentWalk, YieldsWalk, IsFound, found_at, OnWalk};
    ghost use Rattle.bson_raw.specs.declared.bson_ref.RawBsonRef.{RawBsonRef as AnyValue};

    /// The bytes.
    pub fn as_bytes(self) -> &'a [u8]
        ensures { result.now ≡ array_bytes self.entry }
    {
        self.document.as_bytes()
    }

    /// Whether iteration yields nothing.
    pub fn is_empty(self) -> bool
        ensures { IsTrue result ↔ (IsDocumentWalk (array_bytes self.entry) [] None) }
    {
        self.document.is_empty()
    }

    /// The values in order, payload faults in their places, and a structural fault last. Memory is taken for the key of
    /// a payload fault alone; if there is none, out of memory is returned instead, and the walk goes on.
    pub fn iter(self, alloc: Global) -> RawArrayIter<'a>
        ensures start { values_left result ≡ Some (drop 4 (array_bytes self.entry)) }
        ensures walk { (items : List (Result AnyValue Fault)) → Drains value_steps result items
            → YieldsWalk IsItemRead (array_bytes self.entry) items }
    {
        RawArrayIter {
            raw: self.document.iter_elements(),
            alloc,
        }
    }

    /// The item of the walk at the place, counted from 0, whatever its key. A fault counts as an item.
    fn item_at(self, index: usize) -> Option<Result<RawElement<'a>, Error>>
        ensures { OnWalk (array_bytes self.entry) (λ elements fault. IsFound (found_at index elements fault) result) }
    {
        bson_frame::laws::one_first_frame();
        bson_frame::laws::one_structural_fault();
        self.document.iter_elements().nth(index)
    }

    /// The value at the place, counted from 0, whatever its key, or the fault there; none past the end. Memory is taken
    /// for the key of a payload fault alone.
    pub fn get(self, alloc: Global, index: usize) -> Result<Option<RawBsonRef<'a>>, Error>
        ensures { OnWalk (array_bytes self.entry) (λ elements fault. GetAnswer (found_at index elements fault) result) }
    {
        access::read(alloc, self.item_at(index))
    }

    /// What is taken of the value at the place, if it is of its kind.
    fn of_kind<T: OfKind, F: FnOnce(RawBsonRef<'a>) -> Option<T>>(
        self,
        alloc: Global,
        index: usize,
        take: F,
    ) -> ValueAccessResult<T>
        requires callable { F.IsAlwaysCallable take }
        requires of_kind { (v : AnyValue) (taken : Option T) → F.post take v taken → taken ≡ T.as_kind v }
        ensures { OnWalk (array_bytes self.entry) (λ elements fault. AccessAnswer T.as_kind (decimal index) (found_at index elements fault) result) }
    {
        access::of_kind(alloc, Asked::Place(index), self.get(alloc, index), take)
    }

    /// The double at the place.
    pub fn get_f64(self, alloc: Global, index: usize) -> ValueAccessResult<DoubleBits>
        ensures { OnWalk (array_bytes self.entry) (λ elements fault. AccessAnswer as_f64 (decimal index) (found_at index elements fault) result) }
    {
        self.of_kind(alloc, index, RawBsonRef::as_f64)
    }

    /// The text at the place.
    pub fn get_str(self, alloc: Global, index: usize) -> ValueAccessResult<&'a str>
        ensures { OnWalk (array_bytes self.entry) (λ elements fault. AccessAnswer as_str (decimal index) (found_at index elements fault) result) }
    {
        self.of_kind(alloc, index, RawBsonRef::as_str)
    }

    /// The document at the place.
    pub fn get_document(self, alloc: Global, index: usize) -> ValueAccessResult<RawDocument<'a>>
        ensures { OnWalk (array_bytes self.entry) (λ elements fault. AccessAnswer as_document (decimal index) (found_at index elements fault) result) }
    {
        self.of_kind(alloc, index, RawBsonRef::as_document)
    }

    /// The array at the place.
    pub fn get_array(self, alloc: Global, index: usize) -> ValueAccessResult<RawArray<'a>>
        ensures { OnWalk (array_bytes self.entry) (λ elements fault. AccessAnswer as_array (decimal index) (found_at index elements fault) result) }
    {
        self.of_kind(alloc, index, RawBsonRef::as_array)
    }

    /// The binary value at the place.
    pub fn get_binary(self, alloc: Global, index: usize) -> ValueAccessResult<RawBinaryRef<'a>>
        ensures { OnWalk (array_bytes self.entry) (λ elements fault. AccessAnswer as_binary (decimal index) (found_at index elements fault) result) }
    {
        self.of_kind(alloc, index, RawBsonRef::as_binary)
    }

    /// The object id at the place.
    pub fn get_object_id(self, alloc: Global, index: usize) -> ValueAccessResult<ObjectId>
        ensures { OnWalk (array_bytes self.entry) (λ elements fault. AccessAnswer as_object_id (decimal index) (found_at index elements fault) result) }
    {
        self.of_kind(alloc, index, RawBsonRef::as_object_id)
    }

    /// The boolean at the place.
    pub fn get_bool(self, alloc: Global, index: usize) -> ValueAccessResult<bool>
        ensures { OnWalk (array_bytes self.entry) (λ elements fault. AccessAnswer as_bool (decimal index) (found_at index elements fault) result) }
    {
        self.of_kind(alloc, index, RawBsonRef::as_bool)
    }

    /// The moment at the place.
    pub fn get_datetime(self, alloc: Global, index: usize) -> ValueAccessResult<DateTime>
        ensures { OnWalk (array_bytes self.entry) (λ elements fault. AccessAnswer as_datetime (decimal index) (found_at index elements fault) result) }
    {
        self.of_kind(alloc, index, RawBsonRef::as_datetime)
    }

    /// The regular expression at the place.
    pub fn get_regex(self, alloc: Global, index: usize) -> ValueAccessResult<RawRegexRef<'a>>
        ensures { OnWalk (array_bytes self.entry) (λ elements fault. AccessAnswer as_regex (decimal index) (found_at index elements fault) result) }
    {
        self.of_kind(alloc, index, RawBsonRef::as_regex)
    }

    /// The timestamp at the place.
    pub fn get_timestamp(self, alloc: Global, index: usize) -> ValueAccessResult<Timestamp>
        ensures { OnWalk (array_bytes self.entry) (λ elements fault. AccessAnswer as_timestamp (decimal index) (found_at index elements fault) result) }
    {
        self.of_kind(alloc, index, RawBsonRef::as_timestamp)
    }

    /// The integer of 32 bits at the place.
    pub fn get_i32(self, alloc: Global, index: usize) -> ValueAccessResult<i32>
        ensures { OnWalk (array_bytes self.entry) (λ elements fault. AccessAnswer as_i32 (decimal index) (found_at index elements fault) result) }
    {
        self.of_kind(alloc, index, RawBsonRef::as_i32)
    }

    /// The integer of 64 bits at the place.
    pub fn get_i64(self, alloc: Global, index: usize) -> ValueAccessResult<i64>
        ensures { OnWalk (array_bytes self.entry) (λ elements fault. AccessAnswer as_i64 (decimal index) (found_at index elements fault) result) }
    {
        self.of_kind(alloc, index, RawBsonRef::as_i64)
    }
}

/// To a tree.
impl RawArray<'_> {
    ghost use Rattle.std.specs.Prelude.{IfErr, MatchResult, map};
    ghost use Rattle.bson_base.specs.Value.{Items};
    ghost use Rattle.bson_model.specs.View.{items_of, view};
    ghost use Rattle.bson_raw.specs.Convert.{HasFault, MeansItems, TellsFault};
    ghost use Rattle.bson_raw.specs.View.{array_bytes};

    /// The items that the bytes mean, in their order, whatever their keys.
    ///
    /// Errors are those of `RawDocument::to_document`: the first fault at any depth, or `OutOfMemory`. The array counts
    /// as a level.
    pub fn to_array(self, alloc: Global) -> Result<Array, Error>
        ensures tree { MatchResult result (λ a. MeansItems (array_bytes self.entry) (items_of (map view a.items)))
            (TellsFault (HasFault (drop 4 (array_bytes self.entry)))) }
        ensures none { IfErr result (TellsFault (λ _ _. (items : Items) → MeansItems (array_bytes self.entry) items → ⊥)) }
    {
        bson_frame::laws::one_first_frame();
        array_of(alloc, elements(self.document), STACK_LEVELS - 1)
    }
}
