//! The pairs in the order of their keys.
ghost use Rattle.std.specs.Prelude.{◌≡◌, length};
ghost use Rattle.std.specs.Iterator.{at_most};
ghost use Rattle.std.specs.Map.Iter.{TakesFirst};
ghost use Rattle.bson_pairs.specs.Ascending.{ascending};
ghost use Rattle.bson_pairs.specs.Index.{places_of, pick};
ghost use Rattle.bson_pairs.specs.Keyed.{key_bytes, entries_of, lent_pair};

use std::marker::Model;
use std::slice;

/// The pairs by `&`, ascending by the bytes of their keys. Contracts see the list of what it has left.
#[derive(Drop)]
pub struct Ascending<'a, V> {
    places: slice::Iter<'a, usize>,
    keys: &'a [String],
    values: &'a [V],
}

impl<'a, V> Model for Ascending<'a, V> {
    ghost use Rattle.std.specs.Prelude.{◌≡◌, ◌<◌, List, length};
    ghost use Rattle.std.specs.List.{All};
    ghost use Rattle.std.specs.Slice.Iter.{iter_rest};
    ghost use Rattle.bson_pairs.specs.Index.{pick};
    ghost use Rattle.bson_pairs.specs.Keyed.{Key, entries_of, keyed_code};

    ghost Value = { List (Key × V) };

    ghost coded = { keyed_code V.code };

    ghost view = { λ a. pick (entries_of a.keys.now a.values.now) (iter_rest a.places) };

    ghost invariant = { λ a. All (λ i. i < length a.keys.now) (iter_rest a.places) × (length a.values.now ≡ length a.keys.now) };
}

impl<'a, V> Ascending<'a, V> {
    /// `places` are those of the keys, ascending by the keys' bytes; `values` has one for each key, in the order of
    /// `keys`.
    pub(crate) fn new(places: &'a [usize], keys: &'a [String], values: &'a [V]) -> Self
        requires places { places.now ≡ places_of (key_bytes keys.now) }
        requires lengths { length values.now ≡ length keys.now }
        ensures { result ≡ ascending (entries_of keys.now values.now) }
    {
        Ascending {
            places: places.iter(),
            keys,
            values,
        }
    }
}

impl<'a, V> Iterator for Ascending<'a, V> {
    type Item = (&'a String, &'a V);

    ghost next_gives = { TakesFirst lent_pair };

    ghost remaining = { λ s. at_most (length s) };

    fn next(&mut self) -> Option<(&'a String, &'a V)> {
        let place = *self.places.next()?;
        Some((&self.keys[place], &self.values[place]))
    }
}
