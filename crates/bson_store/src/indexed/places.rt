//! The places under each key.

ghost use Rattle.std.specs.Prelude.{◌≡◌, ◌≢◌, ◌++◌, ℤ, ℕ, Vec, OnOk};
ghost use Rattle.std.specs.declared.alloc.Global.{Global as AnyGlobal};
ghost use Rattle.bson_store.specs.Under.{HasPlace, places_under};

use crate::indexed::place_list::{PlaceList, more, without_place};
use std::alloc::{AllocError, Global};
use std::collections::BTreeMap;

/// The places under each key.
#[derive(Drop)]
pub struct Places {
    lists: BTreeMap<Vec<u8>, PlaceList>,
    alloc: Global,
}

impl Places {
    /// Of no keys.
    pub fn new(alloc: Global) -> Places
        ensures { (k : Vec ℕ AnyGlobal) (p : ℤ) → HasPlace result k.items p → ⊥ }
    {
        Places {
            lists: BTreeMap::new(alloc),
            alloc,
        }
    }

    /// Puts the places under a key after others.
    pub fn add_to(&self, key: &[u8], out: &mut Vec<i64>) -> Result<(), AllocError>
        ensures { OnOk result (out.new.items ≡ out.old.items ++ places_under self.now key.now) }
    {
        match self.lists.get(key) {
            None => {}
            Some(PlaceList::One(place)) => {
                out.push(*place)?;
            }
            Some(PlaceList::Many(places)) => {
                out.extend_from_slice(places.as_slice())?;
            }
        }
        Ok(())
    }

    /// Puts a place under a key. A refusal may leave less than was there.
    pub fn put(&mut self, key: Vec<u8>, place: i64) -> Result<(), AllocError>
        ensures there { OnOk result (HasPlace self.new key.items place) }
        ensures kept { (k : Vec ℕ AnyGlobal) (p : ℤ) → HasPlace self.old k.items p
            → OnOk result (HasPlace self.new k.items p) }
        ensures others { (k : Vec ℕ AnyGlobal) (p : ℤ) → k.items ≢ key.items
            → OnOk result (HasPlace self.new k.items p → HasPlace self.old k.items p) }
        ensures only { (k : Vec ℕ AnyGlobal) (p : ℤ) → p ≢ place
            → OnOk result (HasPlace self.new k.items p → HasPlace self.old k.items p) }
    {
        let copy = Vec::from_slice(self.alloc, key.as_slice())?;
        // Most keys are new, so that one look-up does.
        let Some(old) = self.lists.insert(key, PlaceList::One(place))? else {
            return Ok(());
        };
        let list = more(self.alloc, old, place)?;
        self.lists.insert(copy, list)?;
        Ok(())
    }

    /// Takes a place from under a key. A refusal may leave less than was there.
    pub fn take(&mut self, key: Vec<u8>, place: i64) -> Result<(), AllocError>
        ensures gone { OnOk result (HasPlace self.new key.items place → ⊥) }
        ensures kept { (k : Vec ℕ AnyGlobal) (p : ℤ) → p ≢ place → HasPlace self.old k.items p
            → OnOk result (HasPlace self.new k.items p) }
        ensures only { (k : Vec ℕ AnyGlobal) (p : ℤ) → OnOk result (HasPlace self.new k.items p
            → HasPlace self.old k.items p) }
    {
        let old = self.lists.remove(key.as_slice());
        match without_place(old, place) {
            None => Ok(()),
            Some(rest) => {
                self.lists.insert(key, rest)?;
                Ok(())
            }
        }
    }
}
