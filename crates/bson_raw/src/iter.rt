//! The walk over the keys and values of a document.

ghost use Rattle.std.specs.Iterator.{at_most};

use crate::bson_ref::RawBsonRef;
use crate::raw_iter::RawIter;
use bson_frame::Error;
use std::alloc::Global;

/// The keys and values of a document in order, and its faults.
#[derive(Clone, Copy)]
pub struct Iter<'a> {
    pub(crate) raw: RawIter<'a>,
    pub(crate) alloc: Global,
}

impl<'a> Iterator for Iter<'a> {
    ghost use Rattle.bson_raw.specs.Read.{pair_steps};
    ghost use Rattle.bson_raw.specs.View.{pairs_left};
    ghost use Rattle.bson_raw.specs.Walk.{items_left};

    type Item = Result<(&'a str, RawBsonRef<'a>), Error>;

    ghost next_gives = { pair_steps };

    ghost remaining = { λ s. at_most (items_left (pairs_left s)) };

    /// A faulty payload gives its fault under the element's key, or `OutOfMemory` under none if there is no memory for
    /// the key, and the walk goes on after it. A structural fault, under no key, is the last item.
    fn next(&mut self) -> Option<Result<(&'a str, RawBsonRef<'a>), Error>> {
        match self.raw.next()? {
            Ok(element) => match element.value(self.alloc) {
                Ok(value) => Some(Ok((element.key(), value))),
                Err(e) => Some(Err(e)),
            },
            Err(e) => Some(Err(e)),
        }
    }
}
