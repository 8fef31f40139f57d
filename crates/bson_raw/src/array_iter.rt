//! The walk over the values of an array.

ghost use Rattle.std.specs.Iterator.{at_most};

use crate::bson_ref::RawBsonRef;
use crate::raw_iter::RawIter;
use bson_frame::Error;
use std::alloc::Global;

/// The values of an array in order, and its faults.
#[derive(Clone, Copy)]
pub struct RawArrayIter<'a> {
    pub(crate) raw: RawIter<'a>,
    pub(crate) alloc: Global,
}

impl<'a> Iterator for RawArrayIter<'a> {
    ghost use Rattle.bson_raw.specs.Read.{value_steps};
    ghost use Rattle.bson_raw.specs.View.{values_left};
    ghost use Rattle.bson_raw.specs.Walk.{items_left};

    type Item = Result<RawBsonRef<'a>, Error>;

    ghost next_gives = { value_steps };

    ghost remaining = { λ s. at_most (items_left (values_left s)) };

    /// A faulty payload gives its fault under the element's key, or `OutOfMemory` under none if there is no memory for
    /// the key, and the walk goes on after it. A structural fault, under no key, is the last item.
    fn next(&mut self) -> Option<Result<RawBsonRef<'a>, Error>> {
        match self.raw.next()? {
            Ok(element) => match element.value(self.alloc) {
                Ok(value) => Some(Ok(value)),
                Err(e) => Some(Err(e)),
            },
            Err(e) => Some(Err(e)),
        }
    }
}
