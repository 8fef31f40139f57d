//! A key's place in a document.
ghost use Rattle.std.specs.Prelude.{◌≡◌, None, unwrap_or, string_bytes, MatchOption, IfOk, OnErr};
ghost use Rattle.std.specs.Option.{ForNone};
ghost use Rattle.std.specs.Borrow.{sem};
ghost use Rattle.bson_model.specs.Keyed.{get, has_key};
ghost use Rattle.bson_model.specs.View.{view, pairs_of};
ghost use Rattle.bson_model.specs.Entries.{entry_document, entry_key, is_occupied, EntryLends};
ghost use Rattle.bson_model.specs.View.{IsTreeOf};

use crate::bson::Bson;
use crate::document::Document;
use std::alloc::AllocError;

/// The place of a key that is there.
#[derive(Drop)]
pub struct OccupiedEntry<'a> {
    document: &'a mut Document,
    key: String,
}

impl<'a> OccupiedEntry<'a> {
    ghost use Rattle.bson_model.specs.Entries.{occupied_key};

    /// The key.
    pub fn key(&self) -> &str
        ensures { result.now ≡ occupied_key self.now }
    {
        self.key.as_str()
    }
}

/// The place that a key would have.
#[derive(Drop)]
pub struct VacantEntry<'a> {
    document: &'a mut Document,
    key: String,
}

/// A key's place in a document.
#[derive(Drop)]
pub enum Entry<'a> {
    /// The key is there.
    Occupied(OccupiedEntry<'a>),
    /// The key is not there.
    Vacant(VacantEntry<'a>),
}

impl Document {
    /// The place of a key. It takes no memory.
    pub fn entry(&mut self, key: String) -> Entry<'_>
        ensures same_document { (entry_document result).ghost_name ≡ self.entry.ghost_name }
        ensures document { (entry_document result).now ≡ self.old }
        ensures key { entry_key result ≡ string_bytes key }
        ensures occupied { is_occupied result ≡ has_key (string_bytes key) (pairs_of self.old) }
    {
        if self.contains_key(key.as_str()) {
            Entry::Occupied(OccupiedEntry {
                document: self,
                key,
            })
        } else {
            Entry::Vacant(VacantEntry {
                document: self,
                key,
            })
        }
    }
}

impl<'a> Entry<'a> {
    /// The key.
    pub fn key(&self) -> &str
        ensures { result.now ≡ entry_key self.now }
    {
        match self {
            Entry::Occupied(entry) => entry.key.as_str(),
            Entry::Vacant(entry) => entry.key.as_str(),
        }
    }

    /// The value under the key, to be written to. If the key is absent, it is first put last, with `default`; that
    /// fails if there is no memory, and changes nothing then.
    pub fn or_insert(self, default: Bson) -> Result<&'a mut Bson, AllocError>
        ensures* writes_back { sem 𝓛 (EntryLends self.entry result) }
        ensures value { IfOk result (λ v. view v.now ≡ unwrap_or (get (entry_key self.entry) (pairs_of (entry_document self.entry).now)) (view default)) }
        ensures absent { OnErr result (get (entry_key self.entry) (pairs_of (entry_document self.entry).now) ≡ None) }
    {
        match self {
            Entry::Occupied(entry) => {
                let document = entry.document;
                document.get_or_insert(entry.key, default)
            }
            Entry::Vacant(entry) => {
                let document = entry.document;
                document.get_or_insert(entry.key, default)
            }
        }
    }

    /// As `or_insert`, of the value that `default` makes. It is called only if the key is absent.
    pub fn or_insert_with<F: FnOnce() -> Bson>(self, default: F) -> Result<&'a mut Bson, AllocError>
    where
        F: Drop,
        requires { ForNone (get (entry_key self) (pairs_of (entry_document self).now)) (F.pre default) }
        ensures* writes_back { sem 𝓛 (EntryLends self.entry result) }
        ensures value { IfOk result (λ v. MatchOption (get (entry_key self.entry) (pairs_of (entry_document self.entry).now))
            (IsTreeOf (F.post default) (view v.now)) (λ w. view v.now ≡ w)) }
        ensures absent { OnErr result (get (entry_key self.entry) (pairs_of (entry_document self.entry).now) ≡ None) }
    {
        match self {
            Entry::Occupied(entry) => {
                let document = entry.document;
                document.get_or_insert_with(entry.key, default)
            }
            Entry::Vacant(entry) => {
                let document = entry.document;
                document.get_or_insert_with(entry.key, default)
            }
        }
    }
}
