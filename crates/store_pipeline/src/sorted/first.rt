//! The first of a sorted list.

ghost use Rattle.std.specs.Prelude.{◌≤◌, vec_len};

use crate::sorted::keys::SortKey;
use crate::sorted::places::place_for;
use bson_raw::RawDocument;
use std::alloc::{AllocError, Global};

/// The first documents in the order of keys, of those that it took one at a time. No more than `limit` bodies are held,
/// one that is being copied included.
#[derive(Drop)]
pub struct TopN<'a> {
    keys: &'a [SortKey],
    limit: usize,
    bodies: Vec<Vec<u8>>,
    alloc: Global,
    ghost few: { vec_len bodies ≤ limit },
}

impl<'a> TopN<'a> {
    ghost use Rattle.std.specs.Prelude.{◌≡◌, ◌∷◌, [], ◌++◌, length, IfOk, IsTrue, List, OnOk};
    ghost use Rattle.store_pipeline.specs.Bodies.{keys_of, OfBody};
    ghost use Rattle.store_pipeline.specs.Held.{Holds, PutsAt, top_bodies, top_keys, top_limit};
    ghost use Rattle.bson_base.specs.Value.{Members};
    ghost use Rattle.bson_raw.specs.View.{bytes_of};

    /// Nothing was taken yet.
    pub fn new(alloc: Global, keys: &'a [SortKey], limit: usize) -> TopN<'a>
        ensures holds { Holds result [] }
        ensures keys { top_keys result ≡ keys_of keys.now }
        ensures limit { top_limit result ≡ limit }
    {
        TopN {
            keys,
            limit,
            bodies: Vec::new(alloc),
            alloc,
        }
    }

    /// Takes a document, which is held if it is among the first, and returns its place among those that are held then.
    /// Those that no key tells apart stay in the order in which they were taken. The error is a refused growth; what is
    /// held then may lack its last one.
    pub fn take(&mut self, document: RawDocument<'_>) -> Result<Option<usize>, AllocError>
        ensures holds { (ds : List Members) → Holds self.old ds → OfBody (bytes_of document.entry)
            (λ d. OnOk result (Holds self.new (ds ++ d ∷ []))) }
        ensures place { IfOk result (λ place. PutsAt self.old (bytes_of document.entry) place self.new) }
        ensures keys { top_keys self.new ≡ top_keys self.old }
        ensures limit { top_limit self.new ≡ top_limit self.old }
    {
        self.take_body(document.as_bytes())
    }

    /// Takes the document of a body.
    fn take_body(&mut self, body: &[u8]) -> Result<Option<usize>, AllocError>
        ensures holds { (ds : List Members) → Holds self.old ds → OfBody body.now
            (λ d. OnOk result (Holds self.new (ds ++ d ∷ []))) }
        ensures place { IfOk result (λ place. PutsAt self.old body.now place self.new) }
        ensures keys { top_keys self.new ≡ top_keys self.old }
        ensures limit { top_limit self.new ≡ top_limit self.old }
    {
        let place = place_for(self.bodies.as_slice(), body, self.keys);
        if place >= self.limit {
            return Ok(None);
        }
        self.bodies.truncate(self.limit - 1);
        let copy = Vec::from_slice(self.alloc, body)?;
        self.bodies.insert(place, copy)?;
        Ok(Some(place))
    }

    /// Whether no document that may come is held: none goes before another without keys, so the first to come are all.
    pub fn is_done(&self) -> bool
        ensures { IsTrue result → (ds more : List Members) → Holds self.now ds
            → Holds self.now (ds ++ more) }
    {
        let held = self.bodies.len();
        if held < self.limit {
            return false;
        }
        self.keys.is_empty()
    }

    /// The bodies that are held, in their order.
    pub fn bodies(&self) -> &[Vec<u8>]
        ensures bodies { result.now ≡ top_bodies self.now }
        ensures few { length result.now ≤ top_limit self.now }
    {
        self.bodies.as_slice()
    }

    /// The same, for the caller to keep.
    pub fn into_bodies(self) -> Vec<Vec<u8>>
        ensures { result.items ≡ top_bodies self.entry }
    {
        self.bodies
    }
}
