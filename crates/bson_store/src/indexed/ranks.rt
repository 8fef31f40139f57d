//! Places by the ranks and the parts of values.

ghost use Rattle.std.specs.Prelude.{◌≡◌, ◌≢◌, ◌≤ℤ◌, ℕ, ℤ, IfOk, IfSome, IsTrue, OnOk};
ghost use Rattle.std.specs.BTreeSet.{btree_set_len};
ghost use Rattle.bson_store.specs.Lists.{is_among};
ghost use Rattle.bson_store.specs.Ranked.{HasRanked};

use std::alloc::{AllocError, Global};
use std::collections::BTreeSet;

/// Places, each with the rank of a value and its part (`crate::indexed::parts::part_of`), in the order of these.
#[derive(Drop)]
pub struct Ranks {
    keys: BTreeSet<(u8, i64, i64)>,
}

impl Ranks {
    /// No places.
    pub fn new(alloc: Global) -> Ranks
        ensures { (r : ℕ) (q p : ℤ) → HasRanked result r q p → ⊥ }
    {
        Ranks {
            keys: BTreeSet::new(alloc),
        }
    }

    /// Puts a place under a rank and a part. The error is a refused growth.
    pub fn put(&mut self, rank: u8, part: i64, place: i64) -> Result<(), AllocError>
        ensures there { OnOk result (HasRanked self.new rank part place) }
        ensures kept { (r : ℕ) (q p : ℤ) → HasRanked self.old r q p
            → OnOk result (HasRanked self.new r q p) }
        ensures others { (r : ℕ) (q p : ℤ) → ((rank ≡ r) × (part ≡ q) → ⊥)
            → OnOk result (HasRanked self.new r q p → HasRanked self.old r q p) }
        ensures only { (r : ℕ) (q p : ℤ) → p ≢ place
            → OnOk result (HasRanked self.new r q p → HasRanked self.old r q p) }
    {
        self.keys.insert((rank, part, place))?;
        Ok(())
    }

    /// Takes a place from under a rank and a part, if it is there.
    pub fn take(&mut self, rank: u8, part: i64, place: i64)
        ensures gone { HasRanked self.new rank part place → ⊥ }
        ensures kept { (r : ℕ) (q p : ℤ) → p ≢ place → HasRanked self.old r q p
            → HasRanked self.new r q p }
        ensures only { (r : ℕ) (q p : ℤ) → HasRanked self.new r q p → HasRanked self.old r q p }
    {
        let key = (rank, part, place);
        self.keys.remove(&key);
    }

    /// How many places there are.
    pub fn len(&self) -> usize
        ensures { result ≡ btree_set_len self.now.keys }
    {
        self.keys.len()
    }

    /// The places under a rank and the parts from one to another, both with it. None: there are more than `most`.
    pub fn between(
        &self,
        alloc: Global,
        rank: u8,
        low: i64,
        high: i64,
        most: usize,
    ) -> Result<Option<Vec<i64>>, AllocError>
        requires { low ≤ℤ high }
        ensures { (q p : ℤ) → low ≤ℤ q → q ≤ℤ high → HasRanked self.now rank q p
            → IfOk result (λ o. IfSome o (λ v. IsTrue (is_among p v.items))) }
    {
        let mut places = Vec::new(alloc);
        for key in self
            .keys
            .range((rank, low, i64::MIN)..=(rank, high, i64::MAX))
        {
            if places.len() >= most {
                return Ok(None);
            }
            places.push(key.2)?;
        }
        Ok(Some(places))
    }

    /// The part under which that place stands that comes behind `count` others, of those under a rank and the parts from
    /// one to another: from the least part on, or from the greatest on. None: there are no more than `count`.
    pub fn part_behind(
        &self,
        rank: u8,
        low: i64,
        high: i64,
        count: usize,
        descending: bool,
    ) -> Option<i64>
        requires { low ≤ℤ high }
        ensures { IfSome result (λ q. (low ≤ℤ q) × (q ≤ℤ high)) }
    {
        let mut keys = self
            .keys
            .range((rank, low, i64::MIN)..=(rank, high, i64::MAX));
        let key = if descending {
            keys.nth_back(count)?
        } else {
            keys.nth(count)?
        };
        between_ends(key.1, low, high)
    }
}

/// A part, if it is none beyond these ends.
fn between_ends(part: i64, low: i64, high: i64) -> Option<i64>
    ensures { IfSome result (λ q. (low ≤ℤ q) × (q ≤ℤ high)) }
{
    if low <= part && part <= high {
        Some(part)
    } else {
        None
    }
}
