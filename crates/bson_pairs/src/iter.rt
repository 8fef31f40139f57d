//! The iterators over pairs. Contracts see each as the list of what it has left.
ghost use Rattle.std.specs.Prelude.{◌≡◌, length, zip};
ghost use Rattle.std.specs.Iterator.{at_most};
ghost use Rattle.std.specs.Map.Iter.{TakesFirst};
ghost use Rattle.bson_pairs.specs.Keyed.{entries_of, lent_pair, owned_pair};

use std::marker::Model;
use std::{slice, vec};

/// The pairs by `&`, in their order.
#[derive(Drop)]
pub struct Iter<'a, V> {
    keys: slice::Iter<'a, String>,
    values: slice::Iter<'a, V>,
}

impl<'a, V> Model for Iter<'a, V> {
    ghost use Rattle.std.specs.Prelude.{◌≡◌, List, length};
    ghost use Rattle.std.specs.Slice.Iter.{iter_rest};
    ghost use Rattle.bson_pairs.specs.Keyed.{Key, entries_of, keyed_code};

    ghost Value = { List (Key × V) };

    ghost coded = { keyed_code V.code };

    ghost view = { λ a. entries_of (iter_rest a.keys) (iter_rest a.values) };

    ghost invariant = { λ a. length (iter_rest a.values) ≡ length (iter_rest a.keys) };
}

impl<'a, V> Iter<'a, V> {
    /// The pairs of these keys, each with the value at the same place.
    pub(crate) fn new(keys: &'a [String], values: &'a [V]) -> Self
        requires { length values.now ≡ length keys.now }
        ensures { result ≡ entries_of keys.now values.now }
    {
        Iter {
            keys: keys.iter(),
            values: values.iter(),
        }
    }
}

impl<'a, V> Iterator for Iter<'a, V> {
    type Item = (&'a String, &'a V);

    ghost next_gives = { TakesFirst lent_pair };

    ghost remaining = { λ s. at_most (length s) };

    fn next(&mut self) -> Option<(&'a String, &'a V)> {
        let key = self.keys.next()?;
        Some((key, self.values.next().unwrap()))
    }
}

/// The pairs by value, in their order.
#[derive(Drop)]
pub struct IntoIter<V> {
    keys: vec::IntoIter<String>,
    values: vec::IntoIter<V>,
}

impl<V> Model for IntoIter<V> {
    ghost use Rattle.std.specs.Prelude.{◌≡◌, List, length};
    ghost use Rattle.std.specs.Vec.Iter.{into_iter_items};
    ghost use Rattle.bson_pairs.specs.Keyed.{Key, entries_of, keyed_code};

    ghost Value = { List (Key × V) };

    ghost coded = { keyed_code V.code };

    ghost view = { λ a. entries_of (into_iter_items a.keys) (into_iter_items a.values) };

    ghost invariant = { λ a. length (into_iter_items a.values) ≡ length (into_iter_items a.keys) };
}

impl<V> IntoIter<V> {
    /// The pairs of these keys, each with the value at the same place.
    pub(crate) fn new(keys: Vec<String>, values: Vec<V>) -> Self
        requires { length values.items ≡ length keys.items }
        ensures { result ≡ entries_of keys.items values.items }
    {
        IntoIter {
            keys: keys.into_iter(),
            values: values.into_iter(),
        }
    }
}

impl<V: Drop> Iterator for IntoIter<V> {
    type Item = (String, V);

    ghost next_gives = { TakesFirst owned_pair };

    ghost remaining = { λ s. at_most (length s) };

    fn next(&mut self) -> Option<(String, V)> {
        let key = self.keys.next()?;
        Some((key, self.values.next().unwrap()))
    }
}
