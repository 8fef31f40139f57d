//! What is told of what was found, batch by batch.

ghost use Rattle.std.specs.Prelude.{◌<◌, map};
ghost use Rattle.fallowtime_messages.specs.Waits.{AreBelow, AreBelow-prop, wait_of};

use crate::batch::{Batch, batch_of};
use crate::keeping::{Cursor, cost_of, let_go};
use crate::numbers::{start_of, take_number};
use crate::taking::take_out;
use std::alloc::{AllocError, Global};
use std::collections::VecDeque;

/// What waits of all finds.
#[derive(Drop)]
pub struct Cursors {
    /// Of each one, the oldest first.
    pub(crate) waiting: Vec<Cursor>,
    /// The number of the next one.
    pub(crate) next: u64,
    pub ghost from_one: { 0 < next },
    pub ghost below: { AreBelow next (map wait_of waiting.items) } by { AreBelow-prop next (map wait_of waiting.items) },
}

impl Cursors {
    ghost use Rattle.std.specs.Prelude.{◌≡◌, ◌≢◌, ◌++◌, ◌∷◌, [], MatchResult, pos};
    ghost use Rattle.fallowtime_messages.specs.Waiting.{BatchTold, ClosedTold, IsNew, MoreTold, bodies_of, kept, wait, waiting};

    /// Nothing waits yet. The finds that will wait have numbers from a first one on, which is 1 in the place of 0 and of one
    /// that leaves fewer than 2⁶² behind it.
    pub fn new(alloc: Global, first: u64) -> Cursors
        ensures { waiting result ≡ [] }
    {
        Cursors {
            waiting: Vec::new(alloc),
            next: start_of(first),
        }
    }

    /// Lets what is left of a find wait, of which the documents of a batch were taken.
    fn wait(
        &mut self,
        alloc: Global,
        space: &str,
        cost: u64,
        rest: VecDeque<Vec<u8>>,
    ) -> Result<i64, AllocError>
        ensures { MatchResult result
            (λ id. (id ≢ pos 0) × IsNew id (waiting self.old) × (waiting self.new ≡ kept (waiting self.old ++ wait id space.now cost (bodies_of rest.items) ∷ [])))
            (λ _. waiting self.new ≡ waiting self.old) }
    {
        let space = String::from_str(alloc, space)?;
        let id = take_number(&mut self.next)?;
        self.waiting.push(Cursor {
            id,
            space,
            cost,
            rest,
        })?;
        let_go(&mut self.waiting);
        Ok(id)
    }

    /// The first batch of what a find returned: at most so many documents, and none behind those that fill 16 MiB. What
    /// is left waits, if it isn't a single batch that is wanted.
    ///
    /// A find counts as 256 KiB and the bytes that it returned, and what waits as 256 MiB at the most: the finds that
    /// were asked the longest time ago are let go for a new one. It fails if there is no memory, or if more than 2⁶² finds
    /// had to wait; then nothing waits that didn't before.
    pub fn begin(
        &mut self,
        alloc: Global,
        space: &str,
        bodies: Vec<Vec<u8>>,
        size: u64,
        single: bool,
    ) -> Result<Batch, AllocError>
        ensures { BatchTold single size space.now (bodies_of bodies.items) result (waiting self.old) (waiting self.new) }
    {
        let cost = cost_of(bodies.as_slice())?;
        let mut rest = VecDeque::from(bodies);
        let bodies = batch_of(alloc, size, &mut rest)?;
        if single || rest.is_empty() {
            return Ok(Batch { id: 0, bodies });
        }
        let id = self.wait(alloc, space, cost, rest)?;
        Ok(Batch { id, bodies })
    }

    /// A further batch of the find with this number, of this collection behind its database: at most so many documents,
    /// and none behind those that fill 16 MiB. None if it doesn't wait: it has no more, or was let go.
    ///
    /// It fails if there is no memory, and then it is let go.
    pub fn more(
        &mut self,
        alloc: Global,
        id: i64,
        space: &str,
        size: u64,
    ) -> Result<Option<Batch>, AllocError>
        ensures { MoreTold size id space.now result (waiting self.old) (waiting self.new) }
    {
        let Some(cursor) = take_out(&mut self.waiting, id, space) else {
            return Ok(None);
        };
        let mut cursor = cursor;
        let bodies = batch_of(alloc, size, &mut cursor.rest)?;
        if cursor.rest.is_empty() {
            return Ok(Some(Batch { id: 0, bodies }));
        }
        self.waiting.push(cursor)?;
        Ok(Some(Batch { id, bodies }))
    }

    /// Lets the find with this number go, of this collection behind its database. Whether it waited.
    pub fn close(&mut self, id: i64, space: &str) -> bool
        ensures { ClosedTold id space.now result (waiting self.old) (waiting self.new) }
    {
        take_out(&mut self.waiting, id, space).is_some()
    }
}
