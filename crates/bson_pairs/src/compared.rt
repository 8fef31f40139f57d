//! Equality and hashing of pairs, in which their order does not count.
ghost use Rattle.std.specs.Prelude.{◌≡◌, string_bytes};
ghost use Rattle.std.specs.List.{list_all};
ghost use Rattle.std.specs.Option.{option_copied};
ghost use Rattle.bson_pairs.specs.Keyed.{get, has_key};
ghost use Rattle.bson_pairs.specs.Same.{same_at, pairs_eq, pairs_eq_partial, pairs_eq_equiv};
ghost use Rattle.bson_pairs.specs.Ascending.{pairs_writes, pairs_writes_respect};

use crate::pairs::Pairs;
use std::hash::{Hash, Hasher};

impl<V> Pairs<V> {
    /// The value under a key, or `None` if the key isn't there. A place that the key may have, counted from zero, is
    /// looked at first.
    fn get_near(&self, key: &str, place: usize) -> Option<&V>
        ensures { option_copied result ≡ get key.now self.now }
    {
        match self.keys().get(place) {
            Some(there) => {
                if there.as_str() == key {
                    Some(&self.values()[place])
                } else {
                    self.get(key)
                }
            }
            None => self.get(key),
        }
    }

    /// Whether each of these keys is there.
    fn has_all(&self, keys: &[String]) -> bool
        ensures { result ≡ list_all (λ k. has_key (string_bytes k) self.now) keys.now }
    {
        for (place, key) in keys.iter().enumerate() {
            if self.get_near(key.as_str(), place).is_none() {
                return false;
            }
        }
        true
    }
}

impl<V: PartialEq> Pairs<V> {
    /// Whether neither has a value under a key, or both have, and the two are equal. `place` is where the key may be.
    fn is_same_at(&self, other: &Pairs<V>, key: &str, place: usize) -> bool
        ensures { result ≡ same_at V.eq self.now other.now key.now }
    {
        match self.get_near(key, place) {
            Some(a) => match other.get_near(key, place) {
                Some(b) => a.eq(b),
                None => false,
            },
            None => other.get_near(key, place).is_none(),
        }
    }

    /// Whether both are the same under each of these keys.
    fn is_same_at_all(&self, other: &Pairs<V>, keys: &[String]) -> bool
        ensures { result ≡ list_all (λ k. same_at V.eq self.now other.now (string_bytes k)) keys.now }
    {
        for (place, key) in keys.iter().enumerate() {
            if !self.is_same_at(other, key.as_str(), place) {
                return false;
            }
        }
        true
    }
}

/// The order of the pairs does not count. Each value is compared at most once.
impl<V: PartialEq> PartialEq for Pairs<V> {
    ghost eq = { pairs_eq V.eq };

    ghost laws = { pairs_eq_partial V.eq V.laws };

    fn eq(&self, other: &Pairs<V>) -> bool {
        self.is_same_at_all(other, self.keys()) && self.has_all(other.keys())
    }
}

impl<V: Eq> Eq for Pairs<V> {
    ghost laws = { pairs_eq_equiv V.eq V.Eq.laws };
}

/// The pairs are fed ascending by their keys, without memory.
impl<V: Hash> Hash for Pairs<V> {
    ghost hash_input = { pairs_writes V.hash_input };

    ghost respects_eq = { pairs_writes_respect V.eq V.hash_input V.respects_eq };

    fn hash<H: Hasher>(&self, state: &mut H) {
        for (key, value) in self.ascending() {
            key.as_str().hash(state);
            value.hash(state);
        }
    }
}
