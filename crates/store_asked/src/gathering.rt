//! The documents of a part in an order, gathered while they come.

ghost use Rattle.std.specs.Prelude.{◌≡◌, ◌++◌, ◌∷◌, [], IfOk, IfSome, OnOk, map};
ghost use Rattle.bson_store.specs.Export.{bytes_of_each};
ghost use Rattle.store_model.specs.Reading.{Documents};
ghost use Rattle.store_pipeline.specs.Bodies.{AreBodies, OfBody};
ghost use Rattle.store_asked.specs.Arranged.{AreArranged, IsLast};

use crate::first::First;
use crate::refusing::check_row;
use crate::selecting::TakeRow;
use bson_raw::RawDocument;
use bson_store::{StoreError, Take};
use std::alloc::{AllocError, Global};
use store_pipeline::sorted::{Arrangement, TopN, into_window, sort, window};
use store_table::pages::RowRef;

/// Puts a copy of a body last.
fn add_body(bodies: &mut Vec<Vec<u8>>, alloc: Global, body: &[u8]) -> Result<(), AllocError>
    ensures { (ds : Documents) → AreBodies bodies.old.items ds
        → OfBody body.now (λ d. OnOk result (AreBodies bodies.new.items (ds ++ d ∷ []))) }
{
    let copy = Vec::from_slice(alloc, body)?;
    bodies.push(copy)?;
    Ok(())
}

/// Keeps the bodies of all documents, in the order in which they come.
#[derive(Drop)]
pub struct Whole {
    bodies: Vec<Vec<u8>>,
    alloc: Global,
}

impl Take for Whole {
    ghost use Rattle.store_pipeline.specs.Bodies.{AreBodies};

    ghost took = { λ _ t out. AreBodies t.bodies.items out };

    fn take(&mut self, document: RawDocument<'_>) -> Result<(), StoreError> {
        add_body(&mut self.bodies, self.alloc, document.as_bytes())?;
        Ok(())
    }

    fn is_done(&self) -> bool {
        false
    }
}

impl TakeRow for Whole {
    fn take_row(
        &mut self,
        alloc: Global,
        row: &RowRef<'_>,
        document: RawDocument<'_>,
    ) -> Result<(), StoreError> {
        check_row(alloc, row.coll, row.idkey, row.body)?;
        self.take(document)
    }
}

/// What is held of the documents that came.
#[derive(Drop)]
pub enum Held<'a> {
    /// The first of them, no more than are skipped and wanted.
    First(First<'a>),
    /// All.
    All(Whole),
}

/// Gathers the documents that an arrangement has: with a limit no more than it skips and takes, else all.
#[derive(Drop)]
pub struct Gathering<'a> {
    arrangement: &'a Arrangement,
    held: Held<'a>,
    alloc: Global,
}

impl<'a> Take for Gathering<'a> {
    ghost use Rattle.store_asked.specs.Arranged.{Gathers};

    ghost took = { λ first t out. Gathers first t out };

    fn take(&mut self, document: RawDocument<'_>) -> Result<(), StoreError> {
        match &mut self.held {
            Held::First(first) => first.take(document),
            Held::All(whole) => whole.take(document),
        }
    }

    fn is_done(&self) -> bool {
        match &self.held {
            Held::First(first) => first.is_done(),
            Held::All(_) => false,
        }
    }
}

impl<'a> TakeRow for Gathering<'a> {
    fn take_row(
        &mut self,
        alloc: Global,
        row: &RowRef<'_>,
        document: RawDocument<'_>,
    ) -> Result<(), StoreError> {
        match &mut self.held {
            Held::First(first) => first.take_row(alloc, row, document),
            Held::All(whole) => whole.take_row(alloc, row, document),
        }
    }
}

/// How many are skipped and taken together, if that is limited and a number of the machine.
pub(crate) fn last_of(arrangement: &Arrangement) -> Option<usize>
    ensures { IfSome result (λ n. IsLast arrangement.now n) }
{
    arrangement.skip.checked_add(arrangement.limit?)
}

/// Copies of bodies.
fn copies_of(alloc: Global, bodies: &[&[u8]]) -> Result<Vec<Vec<u8>>, AllocError>
    ensures { IfOk result (λ copies. bytes_of_each copies.items ≡ map (λ b. b.now) bodies.now) }
{
    let mut copies = Vec::new(alloc);
    for body in bodies {
        copies.push(Vec::from_slice(alloc, body)?)?;
    }
    Ok(copies)
}

/// The part of all bodies that an arrangement has.
fn part_of(
    alloc: Global,
    bodies: Vec<Vec<u8>>,
    arrangement: &Arrangement,
) -> Result<Vec<Vec<u8>>, AllocError>
    ensures { (ds : Documents) → AreBodies bodies.items ds
        → IfOk result (λ part. AreArranged arrangement.now part ds) }
{
    if arrangement.keys.is_empty() {
        return Ok(into_window(bodies, arrangement.skip, arrangement.limit));
    }
    let sorted = sort(alloc, bodies.as_slice(), arrangement.keys.as_slice())?;
    let part = window(sorted.as_slice(), arrangement.skip, arrangement.limit);
    copies_of(alloc, part)
}

impl<'a> Gathering<'a> {
    ghost use Rattle.std.specs.Prelude.{◌≡◌, [], IfErr, IfOk};
    ghost use Rattle.bson_store.specs.Refusals.{IsDenied};
    ghost use Rattle.store_model.specs.Reading.{Documents};
    ghost use Rattle.store_asked.specs.Arranged.{AreArranged, Gathers, arrangement_of};

    /// Nothing came yet.
    pub fn new(alloc: Global, arrangement: &'a Arrangement) -> Gathering<'a>
        ensures nothing { Gathers result result [] }
        ensures same { arrangement_of result ≡ arrangement.now }
    {
        let held = match last_of(arrangement) {
            Some(limit) => Held::First(First {
                top: TopN::new(alloc, arrangement.keys.as_slice(), limit),
                keys: Vec::new(alloc),
            }),
            None => Held::All(Whole {
                bodies: Vec::new(alloc),
                alloc,
            }),
        };
        Gathering {
            arrangement,
            held,
            alloc,
        }
    }

    /// Tests the rows, which are of the collection `name`, that weren't tested as they came: refused by Database, if no
    /// store can have written one of them.
    pub fn check_rows(&self, name: &str) -> Result<(), StoreError>
        ensures { IfErr result IsDenied }
    {
        match &self.held {
            Held::First(first) => first.check_rows(self.alloc, name),
            Held::All(_) => Ok(()),
        }
    }

    /// The bodies of the part, in its order. The error is a refused growth.
    pub fn into_bodies(self) -> Result<Vec<Vec<u8>>, AllocError>
        ensures { (first : Gathering) (ds : Documents) → Gathers first self.entry ds
            → IfOk result (λ bodies. AreArranged (arrangement_of first) bodies ds) }
    {
        let Gathering {
            arrangement,
            held,
            alloc,
        } = self;
        match held {
            Held::First(first) => Ok(into_window(
                first.top.into_bodies(),
                arrangement.skip,
                arrangement.limit,
            )),
            Held::All(whole) => part_of(alloc, whole.bodies, arrangement),
        }
    }
}
