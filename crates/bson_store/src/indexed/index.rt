//! An index of a collection on a path.

ghost use Rattle.std.specs.Prelude.{◌≡◌, ◌≢◌, ◌↔◌, ℕ, ℤ, List, Vec, IsSomeAnd, IsTrue, OnOk};
ghost use Rattle.std.specs.declared.alloc.Global.{Global as AnyGlobal};
ghost use Rattle.store_question.specs.Filters.{path_of};
ghost use Rattle.bson_store.specs.Find.{FindsIn, FindsOf, HasUnder, IsAsBefore, IsOf, IsOn, MissesIn, RenewsIn, coll_of, keys_of};
ghost use Rattle.bson_store.specs.Lists.{is_among};
ghost use Rattle.bson_store.specs.Marks.{IsOneOf, Mark};
ghost use Rattle.bson_store.specs.Ranked.{AreThese, HasRanked};
ghost use Rattle.bson_store.specs.Under.{HasPlace};

use crate::indexed::ascending::Ascending;
use crate::indexed::keys::is_same_path;
use crate::indexed::marks::{Marks, marks_on};
use crate::indexed::places::Places;
use crate::indexed::ranks::Ranks;
use std::alloc::{AllocError, Global};

/// The places of a collection's documents by the meaning of the value at a path, by its rank and its part, and of those in
/// which the way along the path meets an array or a decimal: such a value can be equal to those of other keys.
#[derive(Drop)]
pub struct Index {
    pub(crate) coll: String,
    pub(crate) path: Vec<String>,
    pub(crate) places: Places,
    pub(crate) ranks: Ranks,
    pub(crate) wide: Ascending,
}

/// Puts a place under a key, if there is one.
fn put_key(places: &mut Places, key: Option<Vec<u8>>, place: i64) -> Result<(), AllocError>
    ensures there { (k : Vec ℕ AnyGlobal) → IsSomeAnd key (λ own. own.items ≡ k.items)
        → OnOk result (HasPlace places.new k.items place) }
    ensures kept { (k : Vec ℕ AnyGlobal) (p : ℤ) → HasPlace places.old k.items p
        → OnOk result (HasPlace places.new k.items p) }
    ensures others { (k : Vec ℕ AnyGlobal) (p : ℤ)
        → (IsSomeAnd key (λ own. own.items ≡ k.items) → ⊥)
        → OnOk result (HasPlace places.new k.items p → HasPlace places.old k.items p) }
    ensures only { (k : Vec ℕ AnyGlobal) (p : ℤ) → p ≢ place
        → OnOk result (HasPlace places.new k.items p → HasPlace places.old k.items p) }
{
    match key {
        None => Ok(()),
        Some(key) => {
            places.put(key, place)?;
            Ok(())
        }
    }
}

/// Takes a place from under a key, if there is one.
fn take_key(places: &mut Places, key: Option<Vec<u8>>, place: i64) -> Result<(), AllocError>
    ensures gone { (k : Vec ℕ AnyGlobal) → IsSomeAnd key (λ own. own.items ≡ k.items)
        → OnOk result (HasPlace places.new k.items place → ⊥) }
    ensures kept { (k : Vec ℕ AnyGlobal) (p : ℤ) → p ≢ place → HasPlace places.old k.items p
        → OnOk result (HasPlace places.new k.items p) }
    ensures only { (k : Vec ℕ AnyGlobal) (p : ℤ) → OnOk result (HasPlace places.new k.items p
        → HasPlace places.old k.items p) }
{
    match key {
        None => Ok(()),
        Some(key) => {
            places.take(key, place)?;
            Ok(())
        }
    }
}

/// Puts a place under a rank and a part, if there are any.
fn put_rank(ranks: &mut Ranks, ranked: Option<(u8, i64)>, place: i64) -> Result<(), AllocError>
    ensures there { (r : ℕ) (q : ℤ) → AreThese ranked r q
        → OnOk result (HasRanked ranks.new r q place) }
    ensures kept { (r : ℕ) (q p : ℤ) → HasRanked ranks.old r q p
        → OnOk result (HasRanked ranks.new r q p) }
    ensures others { (r : ℕ) (q p : ℤ) → (AreThese ranked r q → ⊥)
        → OnOk result (HasRanked ranks.new r q p → HasRanked ranks.old r q p) }
    ensures only { (r : ℕ) (q p : ℤ) → p ≢ place
        → OnOk result (HasRanked ranks.new r q p → HasRanked ranks.old r q p) }
{
    match ranked {
        None => Ok(()),
        Some((rank, part)) => {
            ranks.put(rank, part, place)?;
            Ok(())
        }
    }
}

/// Takes a place from under a rank and a part, if there are any.
fn take_rank(ranks: &mut Ranks, ranked: Option<(u8, i64)>, place: i64)
    ensures gone { (r : ℕ) (q : ℤ) → AreThese ranked r q → HasRanked ranks.new r q place → ⊥ }
    ensures kept { (r : ℕ) (q p : ℤ) → p ≢ place → HasRanked ranks.old r q p
        → HasRanked ranks.new r q p }
    ensures only { (r : ℕ) (q p : ℤ) → HasRanked ranks.new r q p → HasRanked ranks.old r q p }
{
    if let Some((rank, part)) = ranked {
        ranks.take(rank, part, place);
    }
}

/// Puts a place among those of wide documents, if this one is wide.
fn put_wide(list: &mut Ascending, wide: bool, place: i64) -> Result<(), AllocError>
    ensures there { IsTrue wide → OnOk result (IsTrue (is_among place list.new.places.items)) }
    ensures kept { (p : ℤ) → IsTrue (is_among p list.old.places.items)
        → OnOk result (IsTrue (is_among p list.new.places.items)) }
    ensures others { (IsTrue wide → ⊥) → (p : ℤ) → IsTrue (is_among p list.new.places.items)
        → IsTrue (is_among p list.old.places.items) }
    ensures only { (p : ℤ) → p ≢ place → IsTrue (is_among p list.new.places.items)
        → IsTrue (is_among p list.old.places.items) }
{
    if !wide {
        return Ok(());
    }
    list.put(place)?;
    Ok(())
}

/// Takes a place from those of wide documents, if this one was wide.
fn take_wide(list: &mut Ascending, wide: bool, place: i64)
    ensures gone { IsTrue wide → IsTrue (is_among place list.new.places.items) → ⊥ }
    ensures kept { (p : ℤ) → p ≢ place → IsTrue (is_among p list.old.places.items)
        → IsTrue (is_among p list.new.places.items) }
    ensures only { (p : ℤ) → IsTrue (is_among p list.new.places.items)
        → IsTrue (is_among p list.old.places.items) }
{
    if wide {
        list.take(place);
    }
}

impl Index {
    /// Finds no document yet.
    pub fn new(alloc: Global, coll: String, path: Vec<String>) -> Index
        ensures coll { coll_of result ≡ coll }
        ensures path { keys_of result ≡ path }
        ensures none { (p : ℤ) (b : List ℕ) → MissesIn result p b }
    {
        Index {
            coll,
            path,
            places: Places::new(alloc),
            ranks: Ranks::new(alloc),
            wide: Ascending::new(alloc),
        }
    }

    /// Puts a place under marks. A refusal may leave less than was there.
    fn put(&mut self, marks: Marks, place: i64) -> Result<(), AllocError>
        ensures there { (m : Mark) → IsOneOf marks m → OnOk result (HasUnder self.new m place) }
        ensures kept { (m : Mark) (p : ℤ) → HasUnder self.old m p
            → OnOk result (HasUnder self.new m p) }
        ensures others { (m : Mark) (p : ℤ) → (IsOneOf marks m → ⊥)
            → OnOk result (HasUnder self.new m p → HasUnder self.old m p) }
        ensures only { (m : Mark) (p : ℤ) → p ≢ place
            → OnOk result (HasUnder self.new m p → HasUnder self.old m p) }
        ensures same { IsAsBefore self.old self.new }
    {
        let Marks { key, ranked, wide } = marks;
        put_wide(&mut self.wide, wide, place)?;
        put_rank(&mut self.ranks, ranked, place)?;
        put_key(&mut self.places, key, place)?;
        Ok(())
    }

    /// Takes a place from under marks. A refusal may leave less than was there.
    fn take(&mut self, marks: Marks, place: i64) -> Result<(), AllocError>
        ensures gone { (m : Mark) → IsOneOf marks m → OnOk result (HasUnder self.new m place → ⊥) }
        ensures kept { (m : Mark) (p : ℤ) → p ≢ place → HasUnder self.old m p
            → OnOk result (HasUnder self.new m p) }
        ensures only { (m : Mark) (p : ℤ) → OnOk result (HasUnder self.new m p
            → HasUnder self.old m p) }
        ensures same { IsAsBefore self.old self.new }
    {
        let Marks { key, ranked, wide } = marks;
        take_wide(&mut self.wide, wide, place);
        take_rank(&mut self.ranks, ranked, place);
        take_key(&mut self.places, key, place)?;
        Ok(())
    }

    /// Notes a document, which it finds from now on. A refusal may leave less than it found, so it is to be dropped.
    pub fn note(&mut self, alloc: Global, place: i64, body: &[u8]) -> Result<(), AllocError>
        ensures noted { OnOk result (FindsIn self.new place body.now) }
        ensures kept { (p : ℤ) (b : List ℕ) → FindsIn self.old p b
            → OnOk result (FindsIn self.new p b) }
        ensures renewed { (p : ℤ) (b : List ℕ) → MissesIn self.old p b
            → OnOk result (RenewsIn self.new p b body.now) }
        ensures others { (p : ℤ) (b : List ℕ) → p ≢ place → MissesIn self.old p b
            → OnOk result (MissesIn self.new p b) }
        ensures same { IsAsBefore self.old self.new }
    {
        let marks = marks_on(alloc, body, self.path.as_slice())?;
        self.put(marks, place)?;
        Ok(())
    }

    /// Notes a document, if it is one of its collection.
    pub fn note_in(
        &mut self,
        alloc: Global,
        coll: &[u8],
        place: i64,
        body: &[u8],
    ) -> Result<(), AllocError>
        ensures noted { OnOk result (FindsOf self.new coll.now place body.now) }
        ensures kept { (c : List ℕ) (p : ℤ) (b : List ℕ) → FindsOf self.old c p b
            → OnOk result (FindsOf self.new c p b) }
        ensures renewed { (p : ℤ) (b : List ℕ) → MissesIn self.old p b
            → OnOk result (RenewsIn self.new p b body.now) }
        ensures others { (p : ℤ) (b : List ℕ) → p ≢ place → MissesIn self.old p b
            → OnOk result (MissesIn self.new p b) }
        ensures same { IsAsBefore self.old self.new }
    {
        if !self.is_of(coll) {
            return Ok(());
        }
        self.note(alloc, place, body)
    }

    /// Notes a document, whatever its collection.
    pub fn note_any(&mut self, alloc: Global, place: i64, body: &[u8]) -> Result<(), AllocError>
        ensures noted { (c : List ℕ) → OnOk result (FindsOf self.new c place body.now) }
        ensures kept { (c : List ℕ) (p : ℤ) (b : List ℕ) → FindsOf self.old c p b
            → OnOk result (FindsOf self.new c p b) }
        ensures renewed { (p : ℤ) (b : List ℕ) → MissesIn self.old p b
            → OnOk result (RenewsIn self.new p b body.now) }
        ensures others { (p : ℤ) (b : List ℕ) → p ≢ place → MissesIn self.old p b
            → OnOk result (MissesIn self.new p b) }
        ensures same { IsAsBefore self.old self.new }
    {
        self.note(alloc, place, body)
    }

    /// Whether it is one of the collection.
    pub fn is_of(&self, coll: &[u8]) -> bool
        ensures { IsTrue result ↔ IsOf self.now coll.now }
    {
        self.coll.as_bytes() == coll
    }

    /// Whether it is one of the collection, on the path.
    pub fn is_on(&self, coll: &[u8], path: &[String]) -> bool
        ensures { IsTrue result ↔ IsOn self.now coll.now (path_of path.now) }
    {
        self.is_of(coll) && is_same_path(self.path.as_slice(), path)
    }

    /// Forgets the document at a place, whose body this was. A refusal may leave less than it found, so it is to be
    /// dropped.
    pub fn forget(&mut self, alloc: Global, place: i64, body: &[u8]) -> Result<(), AllocError>
        ensures gone { OnOk result (MissesIn self.new place body.now) }
        ensures kept { (c : List ℕ) (p : ℤ) (b : List ℕ) → p ≢ place → FindsOf self.old c p b
            → OnOk result (FindsOf self.new c p b) }
        ensures missed { (p : ℤ) (b : List ℕ) → MissesIn self.old p b
            → OnOk result (MissesIn self.new p b) }
        ensures same { IsAsBefore self.old self.new }
    {
        let marks = marks_on(alloc, body, self.path.as_slice())?;
        self.take(marks, place)?;
        Ok(())
    }
}
