//! The iterators over documents. Contracts see each as the list of what it has left.
ghost use Rattle.std.specs.Prelude.{◌≡◌, string_bytes};
ghost use Rattle.std.specs.Iterator.{YieldsFirstBy, item_count};
ghost use Rattle.std.specs.Map.{keys_of, values_of};
ghost use Rattle.bson_model.specs.View.{view, pairs_of};
ghost use Rattle.bson_model.specs.Keyed.{ascending};
ghost use Rattle.bson_model.specs.Rest.{lent_member, owned_member, iter_rest, ascending_rest, into_iter_rest, keys_rest, values_rest};

use crate::bson::Bson;
use crate::document::Document;
use std::slice;

/// The pairs of a document by `&`, in their order. `iter_rest` is the list of those that are left.
#[derive(Drop)]
pub struct Iter<'a> {
    pairs: bson_pairs::Iter<'a, Bson>,
}

impl<'a> Iterator for Iter<'a> {
    type Item = (&'a String, &'a Bson);

    ghost next_gives = { YieldsFirstBy lent_member iter_rest };

    ghost remaining = { item_count iter_rest };

    fn next(&mut self) -> Option<(&'a String, &'a Bson)> {
        self.pairs.next()
    }
}

/// The pairs of a document by `&`, ascending by the bytes of their keys. `ascending_rest` is the list of those that are
/// left.
#[derive(Drop)]
pub struct Ascending<'a> {
    pairs: bson_pairs::Ascending<'a, Bson>,
}

impl<'a> Iterator for Ascending<'a> {
    type Item = (&'a String, &'a Bson);

    ghost next_gives = { YieldsFirstBy lent_member ascending_rest };

    ghost remaining = { item_count ascending_rest };

    fn next(&mut self) -> Option<(&'a String, &'a Bson)> {
        self.pairs.next()
    }
}

/// The pairs of a document by value, in their order. `into_iter_rest` is the list of those that are left.
#[derive(Drop)]
pub struct IntoIter {
    pairs: bson_pairs::IntoIter<Bson>,
}

impl Iterator for IntoIter {
    type Item = (String, Bson);

    ghost next_gives = { YieldsFirstBy owned_member into_iter_rest };

    ghost remaining = { item_count into_iter_rest };

    fn next(&mut self) -> Option<(String, Bson)> {
        self.pairs.next()
    }
}

/// The keys of a document, in their order. `keys_rest` is the list of those that are left.
#[derive(Drop)]
pub struct Keys<'a> {
    keys: slice::Iter<'a, String>,
}

impl<'a> Iterator for Keys<'a> {
    type Item = &'a String;

    ghost next_gives = { YieldsFirstBy (λ k. string_bytes k.now) keys_rest };

    ghost remaining = { item_count keys_rest };

    fn next(&mut self) -> Option<&'a String> {
        self.keys.next()
    }
}

/// The values of a document, in their order. `values_rest` is the list of those that are left.
#[derive(Drop)]
pub struct Values<'a> {
    values: slice::Iter<'a, Bson>,
}

impl<'a> Iterator for Values<'a> {
    type Item = &'a Bson;

    ghost next_gives = { YieldsFirstBy (λ v. view v.now) values_rest };

    ghost remaining = { item_count values_rest };

    fn next(&mut self) -> Option<&'a Bson> {
        self.values.next()
    }
}

impl Document {
    /// The pairs, in their order.
    pub fn iter(&self) -> Iter<'_>
        ensures { iter_rest result ≡ pairs_of self.now }
    {
        Iter {
            pairs: self.pairs.iter(),
        }
    }

    /// The pairs, ascending by the bytes of their keys. It takes no memory.
    pub fn ascending(&self) -> Ascending<'_>
        ensures { ascending_rest result ≡ ascending (pairs_of self.now) }
    {
        Ascending {
            pairs: self.pairs.ascending(),
        }
    }

    /// The keys, in their order.
    pub fn keys(&self) -> Keys<'_>
        ensures { keys_rest result ≡ keys_of (pairs_of self.now) }
    {
        Keys {
            keys: self.pairs.keys().iter(),
        }
    }

    /// The values, in their order.
    pub fn values(&self) -> Values<'_>
        ensures { values_rest result ≡ values_of (pairs_of self.now) }
    {
        Values {
            values: self.pairs.values().iter(),
        }
    }
}

/// The pairs by value, in their order.
impl IntoIterator for Document {
    type Item = (String, Bson);

    type IntoIter = IntoIter;

    ghost into_iter_gives = { λ d it. into_iter_rest it ≡ pairs_of d };

    fn into_iter(self) -> IntoIter {
        let Document { pairs } = self;
        IntoIter {
            pairs: pairs.into_iter(),
        }
    }
}

/// The pairs by `&`, in their order.
impl<'a> IntoIterator for &'a Document {
    type Item = (&'a String, &'a Bson);

    type IntoIter = Iter<'a>;

    ghost into_iter_gives = { λ d it. iter_rest it ≡ pairs_of d.now };

    fn into_iter(self) -> Iter<'a> {
        self.iter()
    }
}
