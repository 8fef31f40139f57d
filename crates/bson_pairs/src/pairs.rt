//! A list of pairs with distinct keys, which looks a key up by an index.
ghost use Rattle.std.specs.Prelude.{◌≡◌, refl, Some, None, unwrap_or, ◌<◌, ◌↔◌, ◌∷◌, [], length, slice_get, is_some, string_bytes, IsSome, IsOk, IfOk, OnOk, OnErr};
ghost use Rattle.std.specs.Option.{option_copied, option_copied_mut, option_map};
ghost use Rattle.std.specs.Borrow.{sem};
ghost use Rattle.std.specs.Map.{keys_of, values_of};
ghost use Rattle.std.specs.List.{list_all, zip};
ghost use Rattle.bson_pairs.specs.Ascending.{ascending};
ghost use Rattle.bson_pairs.specs.Index.{index_of, place_of, seen_places, AtMostDigits};
ghost use Rattle.bson_pairs.specs.Keyed.{key_bytes, entries_of, get, has_key, put, without, set_at, HasDistinctKeys};
ghost use Rattle.bson_pairs.specs.Putting.{put_each, PutsBeforeNew};
ghost use Rattle.bson_pairs.specs.Lending.{LendsAt, LendsUnder, LendsValueOf, LendsOrInserts};

use crate::ascending::Ascending;
use crate::growing::GrowingPairs;
use crate::growing_keys::{GrowingKeys, tree_of};
use crate::iter::{IntoIter, Iter};
use crate::keys::Keys;
use std::alloc::{AllocError, Global};
use std::collections::BTreeMap;
use std::marker::Model;
use std::{fmt, mem};

// A list of more pairs is put in by a tree of places.
const MOST_ONE_BY_ONE: usize = 1024;

/// Contracts see the list of the pairs, each key as its bytes.
#[derive(Drop)]
pub struct Pairs<V> {
    keys: Keys,
    values: Vec<V>,
}

impl<V> Model for Pairs<V> {
    ghost use Rattle.std.specs.Prelude.{◌≡◌, length, List};
    ghost use Rattle.bson_pairs.specs.Keyed.{Key, entries_of, keyed_code};

    ghost Value = { List (Key × V) };

    ghost coded = { keyed_code V.code };

    ghost view = { λ p. entries_of p.keys p.values.items };

    ghost invariant = { λ p. length p.values.items ≡ length p.keys };
}

impl<V> Pairs<V> {
    /// No pairs; it takes no memory until the first is put in.
    pub fn new(alloc: Global) -> Pairs<V>
        ensures { result ≡ [] }
    {
        Pairs {
            keys: Keys::new(alloc),
            values: Vec::new(alloc),
        }
    }

    /// The pairs of these keys and values, of which there are as many.
    pub(crate) fn from_parts(keys: Keys, values: Vec<V>) -> Pairs<V>
        requires { length values.items ≡ length keys }
        ensures { result ≡ entries_of keys values.items }
    {
        Pairs { keys, values }
    }

    /// The number of pairs.
    pub fn len(&self) -> usize
        ensures { result ≡ length self.now }
    {
        self.values.len()
    }

    /// The allocator that the memory of the values comes from.
    pub fn allocator(&self) -> Global {
        *self.values.allocator()
    }

    /// The keys in their order.
    pub fn keys(&self) -> &[String]
        ensures keys { key_bytes result.now ≡ keys_of self.now }
        ensures distinct { HasDistinctKeys self.now }
    {
        self.keys.as_slice()
    }

    /// The values in their order.
    pub fn values(&self) -> &[V]
        ensures { result.now ≡ values_of self.now }
    {
        self.values.as_slice()
    }

    /// The pairs, in their order.
    pub fn iter(&self) -> Iter<'_, V>
        ensures { result ≡ self.now }
    {
        Iter::new(self.keys.as_slice(), self.values.as_slice())
    }

    /// The pairs, ascending by the bytes of their keys. It takes no memory.
    pub fn ascending(&self) -> Ascending<'_, V>
        ensures { result ≡ ascending self.now }
    {
        Ascending::new(
            self.keys.order(),
            self.keys.as_slice(),
            self.values.as_slice(),
        )
    }

    /// The pairs by value, in their order.
    pub fn into_iter(self) -> IntoIter<V>
        ensures { result ≡ self }
    {
        let Pairs { keys, values } = self;
        IntoIter::new(keys.into_parts().0, values)
    }

    /// A copy of the keys, with these values.
    pub fn with_values<W: Drop>(&self, values: Vec<W>) -> Result<Pairs<W>, AllocError>
        requires { length values.items ≡ length self.now }
        ensures { IfOk result (λ p. p ≡ zip (keys_of self.now) values.items) }
    {
        let keys = self.keys.try_clone()?;
        Ok(Pairs { keys, values })
    }

    /// The place of a key, and the number of keys that were compared. It takes no memory.
    pub fn find_index(&self, key: &str) -> (Option<usize>, u64)
        ensures index { result.0 ≡ place_of key.now self.now }
        ensures compared { AtMostDigits result.1 (length self.now) }
    {
        self.keys.find(key)
    }

    /// The value under the key. None if there is none. It takes no memory.
    pub fn get(&self, key: &str) -> Option<&V>
        ensures { option_copied result ≡ get key.now self.now }
    {
        match self.keys.get_index_of(key) {
            Some(at) => Some(&self.values[at]),
            None => None,
        }
    }

    /// Whether a pair has this key, byte for byte. It takes no memory.
    pub fn contains_key(&self, key: &str) -> bool
        ensures { result ≡ has_key key.now self.now }
    {
        self.get(key).is_some()
    }

    /// The value at this place, counted from 0, to be changed. None past the end.
    pub fn get_index_mut(&mut self, index: usize) -> Option<&mut V>
        ensures* writes_back { sem 𝓛 (LendsAt V.row self.entry index result) }
        ensures value { option_copied_mut result ≡ slice_get (values_of self.old) index }
    {
        self.values.get_mut(index)
    }

    /// The value under the key, to be changed. None if there is none; nothing is put in then.
    pub fn get_mut(&mut self, key: &str) -> Option<&mut V>
        ensures* writes_back { sem 𝓛 (LendsUnder V.row self.entry key.now result) }
        ensures value { option_copied_mut result ≡ get key.now self.old }
    {
        match self.keys.get_index_of(key) {
            Some(at) => self.get_index_mut(at),
            None => None,
        }
    }
}

impl<V: Drop> Pairs<V> {
    /// The value at this place, counted from 0, which has to be there.
    fn value_at_mut(&mut self, index: usize) -> &mut V
        requires { index < length self.old }
        ensures* writes_back { sem 𝓛 (LendsValueOf V.row self.entry index result) }
        ensures value { slice_get (values_of self.old) index ≡ Some result.now }
    {
        &mut self.values[index]
    }

    /// The value under the key, after `default` was put last if there was none.
    pub fn get_or_insert(&mut self, key: String, default: V) -> Result<&mut V, AllocError>
        ensures* writes_back { sem 𝓛 (LendsOrInserts V.row self.entry (string_bytes key) result) }
        ensures value { IfOk result (λ v. v.now ≡ unwrap_or (get (string_bytes key) self.old) default) }
        ensures absent { OnErr result (get (string_bytes key) self.old ≡ None) }
    {
        match self.keys.get_index_of(key.as_str()) {
            Some(at) => Ok(self.value_at_mut(at)),
            None => {
                let at = self.values.len();
                self.insert(key, default)?;
                Ok(self.value_at_mut(at))
            }
        }
    }

    /// A key that is there keeps its place, and a new one goes last.
    pub fn insert(&mut self, key: String, value: V) -> Result<Option<V>, AllocError>
        ensures before { IfOk result (λ before. before ≡ get (string_bytes key) self.old) }
        ensures ok { OnOk result (self.new ≡ put (string_bytes key) value self.old) }
        ensures err { OnErr result (self.new ≡ self.old) }
        ensures absent { OnErr result (get (string_bytes key) self.old ≡ None) }
    {
        match self.keys.spot(key.as_str()) {
            Ok(at) => Ok(Some(mem::replace(&mut self.values[at], value))),
            Err(place) => {
                self.values.reserve(1)?;
                self.keys.insert_at(place, key)?;
                self.values.push(value)?;
                Ok(None)
            }
        }
    }

    /// Puts each value under its key, one after the other, as `insert` does. The error is a refused growth; what was
    /// put in before it stays.
    fn put_each(&mut self, pairs: Vec<(String, V)>) -> Result<(), AllocError>
        ensures ok { OnOk result (self.new ≡ put_each pairs.items self.old) }
        ensures err { OnErr result (PutsBeforeNew pairs.items self.old self.new) }
    {
        for pair in pairs {
            self.insert(pair.0, pair.1)?;
        }
        Ok(())
    }

    /// Puts each value under its key as `put_each` does, by a tree of the keys' places instead of the index. The
    /// error is a refused growth; what was put in before it stays.
    fn put_each_by(
        &mut self,
        tree: BTreeMap<String, usize>,
        pairs: Vec<(String, V)>,
    ) -> Result<(), AllocError>
        requires { seen_places tree.entries ≡ index_of (keys_of self.old) }
        ensures ok { OnOk result (self.new ≡ put_each pairs.items self.old) }
        ensures err { OnErr result (PutsBeforeNew pairs.items self.old self.new) }
    {
        let none = Pairs::new(self.allocator());
        let Pairs { keys, values } = mem::replace(self, none);
        let mut growing = GrowingPairs::new(GrowingKeys::new(keys, tree), values);
        let put = growing.put_each(pairs);
        *self = growing.finish();
        put
    }

    /// Puts each value under its key, one after the other, as `insert` does. If there is no memory for one, its key is
    /// new, and the pairs before it stay. A long list is put in by a tree, so that many new keys, in whatever order,
    /// don't move the index each time; without memory for that it is put in as `insert` does.
    pub fn extend(&mut self, pairs: Vec<(String, V)>) -> Result<(), AllocError>
        ensures ok { OnOk result (self.new ≡ put_each pairs.items self.old) }
        ensures err { OnErr result (PutsBeforeNew pairs.items self.old self.new) }
    {
        if pairs.len() <= MOST_ONE_BY_ONE {
            return self.put_each(pairs);
        }
        match tree_of(self.allocator(), self.keys()) {
            Ok(tree) => self.put_each_by(tree, pairs),
            Err(_) => self.put_each(pairs),
        }
    }

    /// Takes out the pair of this key, and gives its value; the pairs behind it move up. None if the key isn't there.
    pub fn remove(&mut self, key: &str) -> Option<V>
        ensures value { result ≡ get key.now self.old }
        ensures rest { self.new ≡ without key.now self.old }
    {
        match self.keys.remove(key) {
            Some(at) => Some(self.values.remove(at)),
            None => None,
        }
    }

    /// Drops all pairs.
    pub fn clear(&mut self)
        ensures { self.new ≡ [] }
    {
        self.keys.clear();
        self.values.clear();
    }
}

/// A map of its pairs.
impl<V: fmt::Debug> fmt::Debug for Pairs<V> {
    fn fmt<W: fmt::Write>(&self, f: &mut fmt::Formatter<W>) -> fmt::Result {
        f.debug_map().entries(self.iter()).finish()
    }
}
