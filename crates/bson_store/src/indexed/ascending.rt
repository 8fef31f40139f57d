//! Places in their order.

ghost use Rattle.std.specs.Prelude.{◌≡◌, ◌≢◌, ◌↔◌, [], ℤ, IfOk, IsTrue, OnOk};
ghost use Rattle.bson_store.specs.Lists.{Ascends, is_among};
ghost use Rattle.bson_store.specs.Propositions.{ascends_is_one};

use std::alloc::{AllocError, Global};

/// Places, ascending, each of them once.
#[derive(Drop)]
pub struct Ascending {
    places: Vec<i64>,
    ghost ascends: { Ascends places.items } by { ascends_is_one places.items },
}

impl Ascending {
    /// No places.
    pub fn new(alloc: Global) -> Ascending
        ensures { result.places.items ≡ [] }
    {
        Ascending {
            places: Vec::new(alloc),
        }
    }

    /// Two places. There is no room for more.
    pub fn two(alloc: Global, a: i64, b: i64) -> Result<Ascending, AllocError>
        ensures there { IfOk result (λ l. IsTrue (is_among a l.places.items)
            × IsTrue (is_among b l.places.items)) }
        ensures only { (p : ℤ) → p ≢ a → p ≢ b
            → IfOk result (λ l. IsTrue (is_among p l.places.items) → ⊥) }
    {
        let mut places = Vec::with_capacity(alloc, 2)?;
        places.push(a)?;
        let mut both = Ascending { places };
        both.put(b)?;
        Ok(both)
    }

    /// Puts a place in, if it isn't there.
    pub fn put(&mut self, place: i64) -> Result<(), AllocError>
        ensures there { OnOk result (IsTrue (is_among place self.new.places.items)) }
        ensures kept { (p : ℤ) → IsTrue (is_among p self.old.places.items)
            → OnOk result (IsTrue (is_among p self.new.places.items)) }
        ensures only { (p : ℤ) → p ≢ place → IsTrue (is_among p self.new.places.items)
            → IsTrue (is_among p self.old.places.items) }
    {
        match self.places.binary_search(&place) {
            Ok(_) => Ok(()),
            Err(at) => {
                self.places.insert(at, place)?;
                Ok(())
            }
        }
    }

    /// Takes a place out, if it is there.
    pub fn take(&mut self, place: i64)
        ensures gone { IsTrue (is_among place self.new.places.items) → ⊥ }
        ensures kept { (p : ℤ) → p ≢ place → IsTrue (is_among p self.old.places.items)
            → IsTrue (is_among p self.new.places.items) }
        ensures only { (p : ℤ) → IsTrue (is_among p self.new.places.items)
            → IsTrue (is_among p self.old.places.items) }
    {
        if let Ok(at) = self.places.binary_search(&place) {
            self.places.remove(at);
        }
    }

    /// Whether there are none.
    pub fn is_empty(&self) -> bool
        ensures { IsTrue result ↔ (self.now.places.items ≡ []) }
    {
        self.places.is_empty()
    }

    /// The places.
    pub fn as_slice(&self) -> &[i64]
        ensures { result.now ≡ self.now.places.items }
    {
        self.places.as_slice()
    }
}
