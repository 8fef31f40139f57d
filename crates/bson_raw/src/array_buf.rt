//! Arrays that own their bytes.

ghost use Rattle.std.specs.Prelude.{◌≡◌, ◌≤◌, ◌+◌, ◌∷◌, [], IfOk, OnOk, is_ok, if◌then◌else◌, List, Result, Option, Some, drop, length, vec_len};
ghost use Rattle.std.specs.Fmt.{decimal};
ghost use Rattle.std.specs.Iterator.{Drains};
ghost use Rattle.bson_frame.specs.declared.error.Error.{Error as Fault};

use crate::array::RawArray;
use crate::array_iter::RawArrayIter;
use crate::bson::RawBson;
use crate::document_buf::RawDocumentBuf;
use crate::laws;
use bson_frame::Error;
use std::alloc::{AllocError, Global};

/// The bytes of one array: a document whose keys are the places in decimal (bsonspec.org 1.1, element type 04). Two are
/// equal if their bytes are.
#[derive(Drop)]
#[derive_where(Debug, PartialEq)]
pub struct RawArrayBuf {
    pub(crate) document: RawDocumentBuf,
    /// The place of the next value.
    #[derive_where(skip)]
    pub(crate) places: usize,
    ghost few: { places ≤ vec_len document.bytes },
}

impl RawArrayBuf {
    ghost use Rattle.bson_raw.specs.Append.{AppendsElement, Builds, Gains, element_for};
    ghost use Rattle.bson_raw.specs.Buffer.{array_buffer_bytes, next_place};
    ghost use Rattle.bson_raw.specs.Pairs.{items_from};
    ghost use Rattle.bson_raw.specs.Raw.{own_value};
    ghost use Rattle.bson_raw.specs.Read.{IsItemRead, value_steps};
    ghost use Rattle.bson_raw.specs.View.{array_bytes, values_left};
    ghost use Rattle.bson_raw.specs.Walk.{YieldsWalk};
    ghost use Rattle.bson_raw.specs.declared.bson_ref.RawBsonRef.{RawBsonRef as AnyValue};

    /// The empty array. The buffer takes all its memory from `alloc`. The error is a refused growth.
    pub fn new(alloc: Global) -> Result<RawArrayBuf, AllocError>
        ensures bytes { IfOk result (λ a. array_buffer_bytes a ≡ 5 ∷ 0 ∷ 0 ∷ 0 ∷ 0 ∷ []) }
        ensures place { IfOk result (λ a. next_place a ≡ 0) }
    {
        let document = RawDocumentBuf::new(alloc)?;
        Ok(RawArrayBuf {
            document,
            places: 0,
        })
    }

    /// A copy with memory of its own. The error is a refused growth.
    pub fn try_clone(&self) -> Result<RawArrayBuf, AllocError>
        ensures bytes { IfOk result (λ a. array_buffer_bytes a ≡ array_buffer_bytes self.now) }
        ensures place { IfOk result (λ a. next_place a ≡ next_place self.now) }
    {
        let document = self.document.try_clone()?;
        Ok(RawArrayBuf {
            document,
            places: self.places,
        })
    }

    /// The array of these values, one after the other.
    ///
    /// The first refusal ends it and is returned: `MalformedValue`, under no key, if a 00 is in a pattern or
    /// options, and if the array would be over 2147483647 bytes; `OutOfMemory` if a growth is refused.
    pub fn from_iter(alloc: Global, values: Vec<RawBson>) -> Result<RawArrayBuf, Error>
        ensures bytes { Builds array_buffer_bytes (items_from 0 values.items) result }
        ensures place { IfOk result (λ a. next_place a ≡ length values.items) }
    {
        let mut array = RawArrayBuf::new(alloc)?;
        for value in values {
            array.push(value)?;
        }
        Ok(array)
    }

    /// Puts a value last. Its key is the number of the values in front of it, in decimal.
    ///
    /// `MalformedValue`, under no key, if a 00 is in a pattern or options, and if the array would be over
    /// 2147483647 bytes. A refusal changes nothing.
    pub fn push(&mut self, value: RawBson) -> Result<(), Error>
        ensures value { AppendsElement (array_buffer_bytes self.old) (array_buffer_bytes self.new) (decimal (next_place self.old)) (own_value value) result }
        ensures walk { OnOk result (Gains (array_buffer_bytes self.old) (array_buffer_bytes self.new)
            (element_for (decimal (next_place self.old)) (own_value value))) }
        ensures place { next_place self.new ≡ (if is_ok result then next_place self.old + 1 else next_place self.old) }
    {
        let alloc = *self.document.bytes.allocator();
        let key = self.places.to_string(alloc)?;
        match self.document.append(&key, value) {
            Ok(()) => {
                self.places += 1;
                Ok(())
            }
            Err(e) => Err(e),
        }
    }

    /// The view of the bytes.
    pub fn as_ref(&self) -> RawArray<'_>
        ensures { array_bytes result ≡ array_buffer_bytes self.now }
    {
        RawArray {
            document: self.document.as_ref(),
        }
    }

    /// The values in order, payload faults in their places, and a structural fault last. Memory is taken for the key of
    /// a payload fault alone; if there is none, out of memory is returned instead, and the walk goes on.
    pub fn iter(&self) -> RawArrayIter<'_>
        ensures start { values_left result ≡ Some (drop 4 (array_buffer_bytes self.now)) }
        ensures walk { (items : List (Result AnyValue Fault)) → Drains value_steps result items
            → YieldsWalk IsItemRead (array_buffer_bytes self.now) items }
    {
        self.as_ref().iter(*self.document.bytes.allocator())
    }
}

impl RawArrayBuf {
    ghost use Rattle.bson_raw.specs.Buffer.{buffer_bytes, array_buffer_bytes};
    ghost use Rattle.bson_raw.specs.Places.{GoesOn};

    /// The array that a document is.
    pub(crate) fn of_document(document: RawDocumentBuf) -> RawArrayBuf
        ensures bytes { array_buffer_bytes result ≡ buffer_bytes document }
        ensures place { GoesOn result }
    {
        laws::one_walk();
        let places = document.iter_elements().count();
        RawArrayBuf { document, places }
    }
}

impl<'a> RawArray<'a> {
    ghost use Rattle.bson_raw.specs.Buffer.{array_buffer_bytes};
    ghost use Rattle.bson_raw.specs.Places.{GoesOn};
    ghost use Rattle.bson_raw.specs.View.{array_bytes};

    /// A copy of the bytes, in which the next value has the number of the items here as its place; a fault counts as an
    /// item. The error is a refused growth.
    pub fn to_raw_array_buf(self, alloc: Global) -> Result<RawArrayBuf, AllocError>
        ensures bytes { IfOk result (λ a. array_buffer_bytes a ≡ array_bytes self.entry) }
        ensures place { IfOk result GoesOn }
    {
        let document = self.document.to_raw_document_buf(alloc)?;
        Ok(RawArrayBuf::of_document(document))
    }
}
