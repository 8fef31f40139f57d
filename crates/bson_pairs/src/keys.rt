//! Distinct texts in their order, with an index by which one of them is found.
ghost use Rattle.std.specs.Prelude.{◌≡◌, ◌<◌, Some, None, ◌∷◌, ◌++◌, [], length, map, bytes_eq, string_bytes, MatchOption, IfSome, IfOk, IfErr, OnOk, OnErr, remove};
ghost use Rattle.std.specs.List.{AllZip, IsDistinct, position};
ghost use Rattle.bson_pairs.specs.Keyed.{key_bytes};
ghost use Rattle.bson_pairs.specs.Index.{places_of, is_key, AtMostDigits, IsIndexedAt, GoesAt, place_without};

use std::alloc::{AllocError, Global};
use std::cmp::Ordering;
use std::marker::Model;

/// Contracts see the list of the texts.
#[derive(Drop)]
pub(crate) struct Keys {
    texts: Vec<String>,
    // The places of the texts, ascending by the bytes of the texts.
    order: Vec<usize>,
}

impl Model for Keys {
    ghost use Rattle.std.specs.Prelude.{◌≡◌, List, String, bytes_eq};
    ghost use Rattle.std.specs.List.{IsDistinct};
    ghost use Rattle.std.specs.declared.alloc.Global.{Global};
    ghost use Rattle.bson_pairs.specs.Keyed.{key_bytes};
    ghost use Rattle.bson_pairs.specs.Index.{places_of};

    ghost Value = { List (String Global) };

    ghost view = { λ k. k.texts.items };

    ghost invariant = { λ k. (k.order.items ≡ places_of (key_bytes k.texts.items)) × IsDistinct bytes_eq (key_bytes k.texts.items) };
}

/// Where a key is in this index, or where it would go as the error, counted from zero; and how many keys were compared.
fn search(texts: &[String], order: &[usize], key: &str) -> (Result<usize, usize>, u64)
    requires { order.now ≡ places_of (key_bytes texts.now) }
    ensures stands { IfOk result.0 (λ j. IsIndexedAt key.now j (key_bytes texts.now)) }
    ensures within { IfOk result.0 (λ j. j < length order.now) }
    ensures goes { IfErr result.0 (λ j. GoesAt key.now j (key_bytes texts.now)) }
    ensures compared { AtMostDigits result.1 (length order.now) }
{
    let mut low = 0;
    let mut high = order.len();
    let mut compared = 0;
    while low < high {
        let middle = low + (high - low) / 2;
        compared += 1;
        match key.cmp(texts[order[middle]].as_str()) {
            Ordering::Less => high = middle,
            Ordering::Equal => return (Ok(middle), compared),
            Ordering::Greater => low = middle + 1,
        }
    }
    (Err(low), compared)
}

/// A place, counted from zero, after the one at `taken` was taken out: one less behind it.
fn place_without(taken: usize, place: usize) -> usize
    ensures { result ≡ place_without taken place }
{
    if taken < place { place - 1 } else { place }
}

/// Moves the places behind the one that was taken out down by one.
fn lower(order: &mut [usize], taken: usize)
    ensures { order.new ≡ map (place_without taken) order.old }
{
    for i in 0..order.len() {
        order[i] = place_without(taken, order[i]);
    }
}

impl Keys {
    /// No texts; it takes no memory until the first is put in.
    pub(crate) fn new(alloc: Global) -> Keys
        ensures { result ≡ [] }
    {
        Keys {
            texts: Vec::new(alloc),
            order: Vec::new(alloc),
        }
    }

    /// The texts in their order.
    pub(crate) fn as_slice(&self) -> &[String]
        ensures keys { result.now ≡ self.now }
        ensures distinct { IsDistinct bytes_eq (key_bytes self.now) }
    {
        self.texts.as_slice()
    }

    /// The places of the texts, ascending by the bytes of the texts.
    pub(crate) fn order(&self) -> &[usize]
        ensures { result.now ≡ places_of (key_bytes self.now) }
    {
        self.order.as_slice()
    }

    /// The texts, and their places ascending by the bytes of the texts.
    pub(crate) fn into_parts(self) -> (Vec<String>, Vec<usize>)
        ensures texts { result.0.items ≡ self }
        ensures order { result.1.items ≡ places_of (key_bytes self) }
        ensures distinct { IsDistinct bytes_eq (key_bytes self) }
    {
        let Keys { texts, order } = self;
        (texts, order)
    }

    /// The keys of these parts.
    pub(crate) fn from_parts(texts: Vec<String>, order: Vec<usize>) -> Keys
        requires order { order.items ≡ places_of (key_bytes texts.items) }
        requires distinct { IsDistinct bytes_eq (key_bytes texts.items) }
        ensures { result ≡ texts.items }
    {
        Keys { texts, order }
    }

    /// A copy with memory of its own.
    pub(crate) fn try_clone(&self) -> Result<Keys, AllocError>
        ensures { IfOk result (λ k. AllZip (λ s t. string_bytes t ≡ string_bytes s) self.now k) }
    {
        let texts = self.texts.clone()?;
        let order = self.order.clone()?;
        Ok(Keys { texts, order })
    }

    /// The place of a text, and the number of texts that were compared.
    pub(crate) fn find(&self, key: &str) -> (Option<usize>, u64)
        ensures index { result.0 ≡ position (is_key key.now) self.now }
        ensures within { IfSome result.0 (λ i. i < length self.now) }
        ensures compared { AtMostDigits result.1 (length self.now) }
    {
        match search(self.texts.as_slice(), self.order.as_slice(), key) {
            (Ok(at), compared) => (Some(self.order[at]), compared),
            (Err(_), compared) => (None, compared),
        }
    }

    /// The place of a text.
    pub(crate) fn get_index_of(&self, key: &str) -> Option<usize>
        ensures index { result ≡ position (is_key key.now) self.now }
        ensures within { IfSome result (λ i. i < length self.now) }
    {
        self.find(key).0
    }

    /// The place of a text, or where in the index it would go.
    pub(crate) fn spot(&self, key: &str) -> Result<usize, usize>
        ensures index { IfOk result (λ i. Some i ≡ position (is_key key.now) self.now) }
        ensures within { IfOk result (λ i. i < length self.now) }
        ensures absent { IfErr result (λ _. None ≡ position (is_key key.now) self.now) }
        ensures goes { IfErr result (λ j. GoesAt key.now j (key_bytes self.now)) }
    {
        match search(self.texts.as_slice(), self.order.as_slice(), key).0 {
            Ok(at) => Ok(self.order[at]),
            Err(at) => Err(at),
        }
    }

    /// Puts a text last that isn't there, whose place in the index `spot` gave. If it fails nothing has changed.
    pub(crate) fn insert_at(&mut self, at: usize, key: String) -> Result<(), AllocError>
        requires { GoesAt (string_bytes key) at (key_bytes self.old) }
        ensures ok { OnOk result (self.new ≡ self.old ++ key ∷ []) }
        ensures err { OnErr result (self.new ≡ self.old) }
    {
        let place = self.texts.len();
        self.texts.reserve(1)?;
        self.order.reserve(1)?;
        self.texts.push(key)?;
        self.order.insert(at, place)?;
        Ok(())
    }

    /// Takes a text out, and gives the place that it had.
    pub(crate) fn remove(&mut self, key: &str) -> Option<usize>
        ensures index { result ≡ position (is_key key.now) self.old }
        ensures within { IfSome result (λ i. i < length self.old) }
        ensures rest { MatchOption result (self.new ≡ self.old) (λ i. self.new ≡ remove self.old i) }
    {
        match search(self.texts.as_slice(), self.order.as_slice(), key).0 {
            Ok(at) => {
                let place = self.order.remove(at);
                drop(self.texts.remove(place));
                lower(self.order.as_mut_slice(), place);
                Some(place)
            }
            Err(_) => None,
        }
    }

    /// Drops all texts, and their places in the index.
    pub(crate) fn clear(&mut self)
        ensures { self.new ≡ [] }
    {
        self.texts.clear();
        self.order.clear();
    }
}
