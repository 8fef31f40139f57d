//! Pairs to which many are added.
ghost use Rattle.std.specs.Prelude.{◌≡◌, None, length, string_bytes, OnOk, OnErr};
ghost use Rattle.bson_pairs.specs.Keyed.{get, put, entries_of};
ghost use Rattle.bson_pairs.specs.Putting.{put_each, PutsBeforeNew};

use crate::growing_keys::GrowingKeys;
use crate::pairs::Pairs;
use std::alloc::AllocError;
use std::marker::Model;

/// Contracts see the list of the pairs, each key as its bytes.
#[derive(Drop)]
pub(crate) struct GrowingPairs<V> {
    keys: GrowingKeys,
    values: Vec<V>,
}

impl<V> Model for GrowingPairs<V> {
    ghost use Rattle.std.specs.Prelude.{◌≡◌, length, List};
    ghost use Rattle.bson_pairs.specs.Keyed.{Key, entries_of, keyed_code};

    ghost Value = { List (Key × V) };

    ghost coded = { keyed_code V.code };

    ghost view = { λ p. entries_of p.keys p.values.items };

    ghost invariant = { λ p. length p.values.items ≡ length p.keys };
}

impl<V: Drop> GrowingPairs<V> {
    /// `values` has one value for each key, in the order of the keys.
    pub(crate) fn new(keys: GrowingKeys, values: Vec<V>) -> GrowingPairs<V>
        requires { length values.items ≡ length keys }
        ensures { result ≡ entries_of keys values.items }
    {
        GrowingPairs { keys, values }
    }

    /// Puts a value under a key as `Pairs::insert` does; the value that was there is dropped. The error is a refused
    /// growth, with nothing put in.
    fn put(&mut self, key: String, value: V) -> Result<(), AllocError>
        ensures ok { OnOk result (self.new ≡ put (string_bytes key) value self.old) }
        ensures err { OnErr result (self.new ≡ self.old) }
        ensures absent { OnErr result (get (string_bytes key) self.old ≡ None) }
    {
        match self.keys.get_index_of(key.as_str()) {
            Some(at) => self.values[at] = value,
            None => {
                self.values.reserve(1)?;
                self.keys.push(key)?;
                self.values.push(value)?;
            }
        }
        Ok(())
    }

    /// As `Pairs::extend`.
    pub(crate) fn put_each(&mut self, pairs: Vec<(String, V)>) -> Result<(), AllocError>
        ensures ok { OnOk result (self.new ≡ put_each pairs.items self.old) }
        ensures err { OnErr result (PutsBeforeNew pairs.items self.old self.new) }
    {
        for pair in pairs {
            self.put(pair.0, pair.1)?;
        }
        Ok(())
    }

    /// The same pairs. It takes no memory.
    pub(crate) fn finish(self) -> Pairs<V>
        ensures { result ≡ self }
    {
        let GrowingPairs { keys, values } = self;
        Pairs::from_parts(keys.finish(), values)
    }
}
