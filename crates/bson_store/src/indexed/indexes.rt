//! The indexes of a store: several collections, and several paths of one.

ghost use Rattle.std.specs.Prelude.{◌≡◌, ◌≢◌, ◌⊎◌, ◌↔◌, ◌≤◌, ◌≤ℤ◌, ◌/◌, ℕ, ℤ, List, IfOk, IfSome, IsTrue, OnOk, OnErr, string_bytes};
ghost use Rattle.store_question.specs.Filters.{filter_of, path_of};
ghost use Rattle.store_model.specs.Filter.{Path};
ghost use Rattle.bson_store.specs.Find.{AreAsBefore, AreSame, FindsOf, FindEach, Finds, Has, HasNone, MissEach, Misses, MissesIn, RenewEach, Renews, coll_of, keys_of, kinds_of};
ghost use Rattle.bson_store.specs.Fronts.{LiesInAll, Passes};
ghost use Rattle.bson_store.specs.Lists.{Ascends};
ghost use Rattle.bson_store.specs.Serving.{Covers, IsBy, IsSelected};

use crate::indexed::front::Front;
use crate::indexed::index::Index;
use crate::indexed::range::Range;
use crate::indexed::serving::{fewer, places_by, places_of_ranges};
use std::alloc::{AllocError, Global};
use store_question::Filter;

/// The part of all places that a range may have: one in so many.
const GATHERED_PART: usize = 4;

/// Indexes, which all find each document that was noted since they came.
#[derive(Drop)]
pub struct Indexes {
    list: Vec<Index>,
    alloc: Global,
}

/// The indexes, after those of the collection have noted a document.
fn noting(
    alloc: Global,
    list: Vec<Index>,
    coll: &[u8],
    place: i64,
    body: &[u8],
) -> Result<Vec<Index>, AllocError>
    ensures noted { IfOk result (λ new. FindEach new.items coll.now place body.now) }
    ensures kept { (c : List ℕ) (p : ℤ) (b : List ℕ) → FindEach list.items c p b
        → IfOk result (λ new. FindEach new.items c p b) }
    ensures renewed { (p : ℤ) (b : List ℕ) → MissEach list.items p b
        → IfOk result (λ new. RenewEach new.items p b body.now) }
    ensures others { (p : ℤ) (b : List ℕ) → p ≢ place → MissEach list.items p b
        → IfOk result (λ new. MissEach new.items p b) }
    ensures same { IfOk result (λ new. kinds_of new.items ≡ kinds_of list.items) }
{
    let mut new = Vec::with_capacity(alloc, list.len())?;
    for mut index in list {
        index.note_in(alloc, coll, place, body)?;
        new.push(index)?;
    }
    Ok(new)
}

/// The indexes, after all have noted a document, whatever its collection.
fn noting_all(
    alloc: Global,
    list: Vec<Index>,
    place: i64,
    body: &[u8],
) -> Result<Vec<Index>, AllocError>
    ensures noted { (c : List ℕ) → IfOk result (λ new. FindEach new.items c place body.now) }
    ensures kept { (c : List ℕ) (p : ℤ) (b : List ℕ) → FindEach list.items c p b
        → IfOk result (λ new. FindEach new.items c p b) }
    ensures renewed { (p : ℤ) (b : List ℕ) → MissEach list.items p b
        → IfOk result (λ new. RenewEach new.items p b body.now) }
    ensures others { (p : ℤ) (b : List ℕ) → p ≢ place → MissEach list.items p b
        → IfOk result (λ new. MissEach new.items p b) }
    ensures same { IfOk result (λ new. kinds_of new.items ≡ kinds_of list.items) }
{
    let mut new = Vec::with_capacity(alloc, list.len())?;
    for mut index in list {
        index.note_any(alloc, place, body)?;
        new.push(index)?;
    }
    Ok(new)
}

/// The indexes, after all have forgotten the document at a place.
fn forgetting(
    alloc: Global,
    list: Vec<Index>,
    place: i64,
    body: &[u8],
) -> Result<Vec<Index>, AllocError>
    ensures gone { IfOk result (λ new. MissEach new.items place body.now) }
    ensures kept { (c : List ℕ) (p : ℤ) (b : List ℕ) → p ≢ place → FindEach list.items c p b
        → IfOk result (λ new. FindEach new.items c p b) }
    ensures missed { (p : ℤ) (b : List ℕ) → MissEach list.items p b
        → IfOk result (λ new. MissEach new.items p b) }
    ensures same { IfOk result (λ new. kinds_of new.items ≡ kinds_of list.items) }
{
    let mut new = Vec::with_capacity(alloc, list.len())?;
    for mut index in list {
        index.forget(alloc, place, body)?;
        new.push(index)?;
    }
    Ok(new)
}

impl Indexes {
    /// None.
    pub fn new(alloc: Global) -> Indexes
        ensures { HasNone result }
    {
        Indexes {
            list: Vec::new(alloc),
            alloc,
        }
    }

    /// Whether there are none.
    pub fn is_empty(&self) -> bool
        ensures { IsTrue result ↔ HasNone self.now }
    {
        self.list.is_empty()
    }

    /// Whether there is one of the collection on the path.
    pub fn has(&self, coll: &[u8], path: &[String]) -> bool
        ensures { IsTrue result ↔ Has self.now coll.now (path_of path.now) }
    {
        for index in self.list.as_slice() {
            if index.is_on(coll, path) {
                return true;
            }
        }
        false
    }

    /// Drops all.
    pub fn clear(&mut self)
        ensures { HasNone self.new }
    {
        self.list.clear();
    }

    /// Takes the indexes out, and leaves none.
    fn take(&mut self) -> Vec<Index>
        ensures taken { result ≡ self.old.list }
        ensures left { (c : List ℕ) (p : ℤ) (b : List ℕ) → Finds self.new c p b }
        ensures none { HasNone self.new }
    {
        std::mem::replace(&mut self.list, Vec::new(self.alloc))
    }

    /// Adds one.
    pub fn add(&mut self, index: Index) -> Result<(), AllocError>
        ensures added { (c : List ℕ) (p : ℤ) (b : List ℕ) → Finds self.old c p b
            → OnOk result (FindsOf index c p b → Finds self.new c p b) }
        ensures there { OnOk result (Has self.new (string_bytes (coll_of index))
            (path_of (keys_of index).items)) }
        ensures others { (c : List ℕ) (p : Path) → Has self.old c p → Has self.new c p }
        ensures only { (c : List ℕ) (p : Path) → Has self.new c p → Has self.old c p
            ⊎ ((c ≡ string_bytes (coll_of index)) × (p ≡ path_of (keys_of index).items)) }
        ensures missed { (p : ℤ) (b : List ℕ) → Misses self.old p b → MissesIn index p b
            → Misses self.new p b }
        ensures refused { OnErr result (AreSame self.old self.new) }
    {
        self.list.push(index)?;
        Ok(())
    }

    /// Drops those of a collection on a path.
    pub fn remove(&mut self, coll: &[u8], path: &[String])
        ensures gone { Has self.new coll.now (path_of path.now) → ⊥ }
        ensures others { (c : List ℕ) (p : Path) → ((c ≡ coll.now) × (p ≡ path_of path.now) → ⊥)
            → Has self.old c p ↔ Has self.new c p }
        ensures kept { (c : List ℕ) (p : ℤ) (b : List ℕ) → Finds self.old c p b
            → Finds self.new c p b }
        ensures missed { (p : ℤ) (b : List ℕ) → Misses self.old p b → Misses self.new p b }
        ensures none { HasNone self.old → HasNone self.new }
    {
        self.list.retain(|index| !index.is_on(coll, path));
    }

    /// Notes a document of a collection. A refusal of memory drops all.
    pub fn note(&mut self, coll: &[u8], place: i64, body: &[u8]) -> Result<(), AllocError>
        ensures noted { Finds self.new coll.now place body.now }
        ensures kept { (c : List ℕ) (p : ℤ) (b : List ℕ) → Finds self.old c p b
            → Finds self.new c p b }
        ensures renewed { (p : ℤ) (b : List ℕ) → Misses self.old p b
            → Renews self.new p b body.now }
        ensures others { (p : ℤ) (b : List ℕ) → p ≢ place → Misses self.old p b
            → Misses self.new p b }
        ensures same { OnOk result (AreAsBefore self.old self.new) }
        ensures dropped { OnErr result (HasNone self.new) }
        ensures none { HasNone self.old → HasNone self.new }
    {
        if self.list.is_empty() {
            return Ok(());
        }
        let list = self.take();
        self.list = noting(self.alloc, list, coll, place, body)?;
        Ok(())
    }

    /// Forgets the document at a place, whose body this was. A refusal of memory drops all.
    pub fn forget(&mut self, place: i64, body: &[u8]) -> Result<(), AllocError>
        ensures gone { Misses self.new place body.now }
        ensures kept { (c : List ℕ) (p : ℤ) (b : List ℕ) → p ≢ place → Finds self.old c p b
            → Finds self.new c p b }
        ensures missed { (p : ℤ) (b : List ℕ) → Misses self.old p b → Misses self.new p b }
        ensures same { OnOk result (AreAsBefore self.old self.new) }
        ensures dropped { OnErr result (HasNone self.new) }
        ensures none { HasNone self.old → HasNone self.new }
    {
        if self.list.is_empty() {
            return Ok(());
        }
        let list = self.take();
        self.list = forgetting(self.alloc, list, place, body)?;
        Ok(())
    }

    /// Notes another body for the document at a place of a collection. A refusal of memory drops all.
    pub fn renew(
        &mut self,
        coll: &[u8],
        place: i64,
        old: &[u8],
        body: &[u8],
    ) -> Result<(), AllocError>
        ensures gone { Renews self.new place old.now body.now }
        ensures noted { Finds self.new coll.now place body.now }
        ensures kept { (c : List ℕ) (p : ℤ) (b : List ℕ) → p ≢ place → Finds self.old c p b
            → Finds self.new c p b }
        ensures renewed { (p : ℤ) (b : List ℕ) → Misses self.old p b
            → Renews self.new p b body.now }
        ensures others { (p : ℤ) (b : List ℕ) → p ≢ place → Misses self.old p b
            → Misses self.new p b }
        ensures same { OnOk result (AreAsBefore self.old self.new) }
        ensures dropped { OnErr result (HasNone self.new) }
        ensures none { HasNone self.old → HasNone self.new }
    {
        self.forget(place, old)?;
        self.note(coll, place, body)
    }

    /// Notes another body for the document at a place, whatever its collection. A refusal of memory drops all.
    ///
    /// An index of another collection has the place then as well, though the document is none of that collection.
    pub fn renew_all(&mut self, place: i64, old: &[u8], body: &[u8]) -> Result<(), AllocError>
        ensures gone { Renews self.new place old.now body.now }
        ensures noted { (c : List ℕ) → Finds self.new c place body.now }
        ensures kept { (c : List ℕ) (p : ℤ) (b : List ℕ) → p ≢ place → Finds self.old c p b
            → Finds self.new c p b }
        ensures renewed { (p : ℤ) (b : List ℕ) → Misses self.old p b
            → Renews self.new p b body.now }
        ensures others { (p : ℤ) (b : List ℕ) → p ≢ place → Misses self.old p b
            → Misses self.new p b }
        ensures same { OnOk result (AreAsBefore self.old self.new) }
        ensures dropped { OnErr result (HasNone self.new) }
        ensures none { HasNone self.old → HasNone self.new }
    {
        self.forget(place, old)?;
        self.note_all(place, body)
    }

    /// Notes a document, whatever its collection. A refusal of memory drops all.
    fn note_all(&mut self, place: i64, body: &[u8]) -> Result<(), AllocError>
        ensures noted { (c : List ℕ) → Finds self.new c place body.now }
        ensures kept { (c : List ℕ) (p : ℤ) (b : List ℕ) → Finds self.old c p b
            → Finds self.new c p b }
        ensures renewed { (p : ℤ) (b : List ℕ) → Misses self.old p b
            → Renews self.new p b body.now }
        ensures others { (p : ℤ) (b : List ℕ) → p ≢ place → Misses self.old p b
            → Misses self.new p b }
        ensures same { OnOk result (AreAsBefore self.old self.new) }
        ensures dropped { OnErr result (HasNone self.new) }
        ensures none { HasNone self.old → HasNone self.new }
    {
        if self.list.is_empty() {
            return Ok(());
        }
        let list = self.take();
        self.list = noting_all(self.alloc, list, place, body)?;
        Ok(())
    }

    /// The places, ascending, of all documents of a collection that a filter selects, and maybe of more: the fewest
    /// that an index gives. None: no index serves it.
    fn places_of_filter(&self, coll: &[u8], filter: &Filter) -> Result<Option<Vec<i64>>, AllocError>
        ensures ascending { IfOk result (λ o. IfSome o (λ v. Ascends v.items)) }
        ensures all { IfOk result (λ o. IfSome o (λ v. Covers self.now coll.now
            (IsSelected (filter_of filter.now)) v.items)) }
    {
        let mut best = None;
        for index in self.list.as_slice() {
            best = better(self.alloc, index, coll, filter, best)?;
        }
        Ok(best)
    }

    /// The places, ascending, of all documents of a collection that pass what is in front of a question, and maybe of
    /// more: the fewest that an index gives for the filter or for one of the ranges. None: no index serves any.
    pub fn places_for(&self, coll: &[u8], front: &Front<'_>) -> Result<Option<Vec<i64>>, AllocError>
        ensures ascending { IfOk result (λ o. IfSome o (λ v. Ascends v.items)) }
        ensures all { IfOk result (λ o. IfSome o (λ v. Covers self.now coll.now
            (Passes front.now) v.items)) }
    {
        let mut best = self.places_of_filter(coll, front.filter)?;
        for index in self.list.as_slice() {
            best = better_by_ranges(self.alloc, index, coll, front.ranges, best)?;
        }
        Ok(best)
    }

    /// The part of the document that comes behind `count` others of those that lie in a range, by an index of the
    /// collection on its path: from the least part on, or from the greatest on. None: no index is on the path, or there
    /// are no more than `count`. Documents that are wide aren't counted.
    pub fn part_behind(
        &self,
        coll: &[u8],
        range: &Range,
        count: usize,
        descending: bool,
    ) -> Option<i64>
        ensures { IfSome result (λ q. (range.now.low ≤ℤ q) × (q ≤ℤ range.now.high)) }
    {
        if range.low > range.high {
            return None;
        }
        for index in self.list.as_slice() {
            if index.is_on(coll, range.path.as_slice()) {
                return index
                    .ranks
                    .part_behind(range.rank, range.low, range.high, count, descending);
            }
        }
        None
    }
}

/// The places by an index, if it is one of the collection that serves the filter, and they are fewer than others.
fn better(
    alloc: Global,
    index: &Index,
    coll: &[u8],
    filter: &Filter,
    best: Option<Vec<i64>>,
) -> Result<Option<Vec<i64>>, AllocError>
    ensures { IfOk result (λ o. (o ≡ best)
        ⊎ IsBy index.now coll.now (IsSelected (filter_of filter.now)) o) }
{
    if !index.is_of(coll) {
        return Ok(best);
    }
    let places = places_by(alloc, index, filter)?;
    Ok(fewer(best, places))
}

/// How many places of a range are gathered at the most: not more than are known, nor than a part of all, as rows that
/// are read by their places cost more than all in their order.
fn most_of(best: &Option<Vec<i64>>, all: usize) -> usize
    ensures { result ≤ all / 4 }
{
    let part = all / GATHERED_PART;
    match best {
        Some(places) => part.min(places.len()),
        None => part,
    }
}

/// The places by an index, if it is one of the collection that serves one of the ranges, and they are fewer than others.
fn better_by_ranges(
    alloc: Global,
    index: &Index,
    coll: &[u8],
    ranges: &[Range],
    best: Option<Vec<i64>>,
) -> Result<Option<Vec<i64>>, AllocError>
    ensures { IfOk result (λ o. (o ≡ best) ⊎ IsBy index.now coll.now (LiesInAll ranges.now) o) }
{
    if ranges.is_empty() || !index.is_of(coll) {
        return Ok(best);
    }
    let most = most_of(&best, index.ranks.len());
    let places = places_of_ranges(alloc, index, ranges, most)?;
    Ok(fewer(best, places))
}
