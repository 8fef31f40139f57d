//! Documents: lists of pairs of a key and a value.
ghost use Rattle.std.specs.Prelude.{◌≡◌, None, unwrap_or, ◌↔◌, [], length, slice_get, string_bytes, map, MatchOption, IsTrue, IfOk, OnOk, OnErr};
ghost use Rattle.std.specs.Option.{option_map, ForNone};
ghost use Rattle.std.specs.Borrow.{sem};
ghost use Rattle.std.specs.Map.{values_of};
ghost use Rattle.bson_model.specs.Keyed.{get, has_key, put, without, place_of, AtMostDigits};
ghost use Rattle.bson_model.specs.View.{view, pairs_of, items_of, IsTreeOf, content};
ghost use Rattle.bson_model.specs.Extend.{put_all, PutsSome, PutsUpToNew};
ghost use Rattle.bson_model.specs.Lending.{LendsValueAt, LendsValue, LendsOrInsertsValue};

mod entry;
mod iter;
mod lent;

use crate::bson::{Array, Bson};
use crate::copy::copy_document;
use bson_base::{Binary, BinarySubtype, DateTime, Decimal128, DoubleBits, ObjectId, Timestamp};
use bson_pairs::Pairs;
pub use entry::{Entry, OccupiedEntry, VacantEntry};
pub use iter::{Ascending, IntoIter, Iter, Keys, Values};
use lent::document_in;
use std::alloc::{AllocError, Global};
use thiserror::Error;

/// Why a typed getter has no value.
#[derive(Clone, Copy, Debug, PartialEq, Eq, Error)]
pub enum ValueAccessError {
    /// There is no such key.
    #[error("no value under the key")]
    NotPresent,
    /// A value of another kind is under the key.
    #[error("a value of another kind under the key")]
    UnexpectedType,
}

/// What a typed getter returns.
pub type ValueAccessResult<T> = Result<T, ValueAccessError>;

/// Pairs of a key and a value, in the order in which the keys came, with no key twice (bsonspec.org 1.1, "document").
/// Contracts see the list of the pairs, by `pairs_of`.
///
/// Two documents are equal if each has the other's keys and equal values under them: the order does not count.
#[cycle(bson)]
#[derive(Debug, PartialEq, Eq, Hash, Drop)]
pub struct Document {
    pub(crate) pairs: Pairs<Bson>,
}

impl Document {
    /// A document with no pairs. What it comes to hold is allocated by `alloc`.
    pub fn new(alloc: Global) -> Document
        ensures { pairs_of result ≡ [] }
    {
        Document {
            pairs: Pairs::new(alloc),
        }
    }

    /// A copy with memory of its own. It fails if there is no memory.
    pub fn try_clone(&self) -> Result<Document, AllocError>
        ensures { IfOk result (λ d. pairs_of d ≡ pairs_of self.now) }
    {
        copy_document(self)
    }

    /// How many pairs there are.
    pub fn len(&self) -> usize
        ensures { result ≡ length (pairs_of self.now) }
    {
        self.pairs.len()
    }

    /// Whether there are no pairs.
    pub fn is_empty(&self) -> bool
        ensures { IsTrue result ↔ (pairs_of self.now ≡ []) }
    {
        self.len() == 0
    }

    /// The value under a key.
    #[tactic(auto, using(crate::proofs::SeenLemmas::seen_under))]
    pub fn get(&self, key: &str) -> Option<&Bson>
        ensures { option_map (λ v. view v.now) result ≡ get key.now (pairs_of self.now) }
    {
        self.pairs.get(key)
    }

    /// The place of a key, and the number of keys that it was compared with: at most as many as the number of pairs has
    /// binary digits, and 0 if there are no pairs. It takes no memory.
    pub fn find_index(&self, key: &str) -> (Option<usize>, u64)
        ensures index { result.0 ≡ place_of key.now (pairs_of self.now) }
        ensures compared { AtMostDigits result.1 (length (pairs_of self.now)) }
    {
        self.pairs.find_index(key)
    }

    /// Whether a key is there.
    pub fn contains_key(&self, key: &str) -> bool
        ensures { result ≡ has_key key.now (pairs_of self.now) }
    {
        self.pairs.contains_key(key)
    }

    /// The value under a key, to be written to.
    pub fn get_mut(&mut self, key: &str) -> Option<&mut Bson>
        ensures* writes_back { sem 𝓛 (LendsValue self.entry key.now result) }
        ensures value { option_map (λ v. view v.now) result ≡ get key.now (pairs_of self.old) }
    {
        self.pairs.get_mut(key)
    }

    /// The value of the pair at a place, to be written to.
    #[tactic(auto, using(crate::proofs::SeenLemmas::seen_at, crate::proofs::SeenLemmas::set_seen))]
    pub fn get_index_mut(&mut self, index: usize) -> Option<&mut Bson>
        ensures* writes_back { sem 𝓛 (LendsValueAt self.entry index result) }
        ensures value { option_map (λ v. view v.now) result ≡ slice_get (values_of (pairs_of self.old)) index }
    {
        self.pairs.get_index_mut(index)
    }

    /// Puts a value under a key, and gives back the value that was there. A key that is there keeps its place, and a
    /// new one goes last. It fails only if the key is new and there is no memory for the pair, and changes nothing
    /// then.
    pub fn insert(&mut self, key: String, value: Bson) -> Result<Option<Bson>, AllocError>
        ensures before { IfOk result (λ before. option_map view before ≡ get (string_bytes key) (pairs_of self.old)) }
        ensures ok { OnOk result (pairs_of self.new ≡ put (string_bytes key) (view value) (pairs_of self.old)) }
        ensures err { OnErr result (self.new ≡ self.old) }
        ensures absent { OnErr result (get (string_bytes key) (pairs_of self.old) ≡ None) }
    {
        self.pairs.insert(key, value)
    }

    /// Puts a value under a key as `insert` does, and drops the value that was there.
    pub fn put(&mut self, key: String, value: Bson) -> Result<(), AllocError>
        ensures ok { OnOk result (pairs_of self.new ≡ put (string_bytes key) (view value) (pairs_of self.old)) }
        ensures err { OnErr result (self.new ≡ self.old) }
        ensures absent { OnErr result (get (string_bytes key) (pairs_of self.old) ≡ None) }
    {
        drop(self.insert(key, value)?);
        Ok(())
    }

    /// The value under the key, to be written to, after `default` was put last if there was none. The error is a
    /// refused growth, with nothing put in.
    #[tactic(auto, using(crate::proofs::SeenLemmas::seen_or_default, crate::proofs::SeenLemmas::put_seen, crate::proofs::SeenLemmas::seen_absent))]
    pub(crate) fn get_or_insert(
        &mut self,
        key: String,
        default: Bson,
    ) -> Result<&mut Bson, AllocError>
        ensures* writes_back { sem 𝓛 (LendsOrInsertsValue self.entry (string_bytes key) result) }
        ensures value { IfOk result (λ v. view v.now ≡ unwrap_or (get (string_bytes key) (pairs_of self.old)) (view default)) }
        ensures absent { OnErr result (get (string_bytes key) (pairs_of self.old) ≡ None) }
    {
        self.pairs.get_or_insert(key, default)
    }

    /// The value under the key, to be written to, after the one that `default` makes was put last if there was none;
    /// only then is it called. The error is a refused growth, with nothing put in.
    pub(crate) fn get_or_insert_with<F: FnOnce() -> Bson>(
        &mut self,
        key: String,
        default: F,
    ) -> Result<&mut Bson, AllocError>
    where
        F: Drop,
        requires { ForNone (get (string_bytes key) (pairs_of self.old)) (F.pre default) }
        ensures* writes_back { sem 𝓛 (LendsOrInsertsValue self.entry (string_bytes key) result) }
        ensures value { IfOk result (λ v. MatchOption (get (string_bytes key) (pairs_of self.old))
            (IsTreeOf (F.post default) (view v.now)) (λ w. view v.now ≡ w)) }
        ensures absent { OnErr result (get (string_bytes key) (pairs_of self.old) ≡ None) }
    {
        if self.contains_key(key.as_str()) {
            self.get_or_insert(key, Bson::Null)
        } else {
            let value = default();
            self.get_or_insert(key, value)
        }
    }

    /// Takes the pair of a key out, and gives its value. The others keep their order.
    #[tactic(auto, using(crate::proofs::SeenLemmas::seen_out, crate::proofs::SeenLemmas::seen_rest))]
    pub fn remove(&mut self, key: &str) -> Option<Bson>
        ensures value { option_map view result ≡ get key.now (pairs_of self.old) }
        ensures rest { pairs_of self.new ≡ without key.now (pairs_of self.old) }
    {
        self.pairs.remove(key)
    }

    /// Puts each value under its key, one after the other, as `insert` does. If there is no memory for one, its key
    /// is new, and the pairs before it stay. Many pairs, in whatever order of keys, take a time that grows little
    /// faster than their number; `insert`, called as often, may move the index of all keys each time.
    pub fn extend(&mut self, pairs: Vec<(String, Bson)>) -> Result<(), AllocError>
        ensures ok { OnOk result (pairs_of self.new ≡ put_all pairs.items (pairs_of self.old)) }
        ensures err { OnErr result (PutsSome pairs.items (pairs_of self.old) (pairs_of self.new)) }
        ensures absent { OnErr result (PutsUpToNew pairs.items (pairs_of self.old) (pairs_of self.new)) }
    {
        self.pairs.extend(pairs)
    }

    /// The document of these pairs, put one after the other as `insert` does: if a key occurs twice, it has the place
    /// of the first pair and the value of the last.
    pub fn from_pairs(alloc: Global, pairs: Vec<(String, Bson)>) -> Result<Document, AllocError>
        ensures { IfOk result (λ d. pairs_of d ≡ put_all pairs.items []) }
    {
        let mut document = Document::new(alloc);
        document.extend(pairs)?;
        Ok(document)
    }

    /// Takes all pairs out.
    pub fn clear(&mut self)
        ensures { pairs_of self.new ≡ [] }
    {
        self.pairs.clear();
    }
}

/// The typed getters. Each returns `NotPresent` if the key is absent, and `UnexpectedType` if a value of another kind
/// is under it.
impl Document {
    ghost use Rattle.std.specs.Borrow.{bool as truth_row, i32 as i32_row, i64 as i64_row};
    ghost use Rattle.bson_base.specs.Scalars.{id_bytes, millis_of, decimal_bytes};
    ghost use Rattle.bson_base.specs.Answer.{result_map};
    ghost use Rattle.bson_model.specs.Accessors.{of_kind, as_f64, as_decimal128, as_str, as_array, as_document, as_bool, as_i32, as_i64, as_timestamp, as_binary_generic, as_object_id, as_datetime, has_null};
    ghost use Rattle.bson_model.specs.Rows.{double_row, decimal128_row, text_row, array_row, document_row, timestamp_row, bytes_row, object_id_row, date_time_row};
    ghost use Rattle.bson_model.specs.Trees.{f64_tree, decimal128_tree, text_tree, array_tree, document_tree, bool_tree, i32_tree, i64_tree, timestamp_tree, generic_tree, object_id_tree, date_time_tree};
    ghost use Rattle.bson_model.specs.Lending.{LendsPart, LendsPairs};

    /// The double under a key.
    pub fn get_f64(&self, key: &str) -> ValueAccessResult<DoubleBits>
        ensures { result_map (λ d. d.0) result ≡ of_kind as_f64 (get key.now (pairs_of self.now)) }
    {
        match self.get(key) {
            Some(Bson::Double(double)) => Ok(*double),
            Some(_) => Err(ValueAccessError::UnexpectedType),
            None => Err(ValueAccessError::NotPresent),
        }
    }

    /// The double under a key, to be written to.
    pub fn get_f64_mut(&mut self, key: &str) -> ValueAccessResult<&mut DoubleBits>
        ensures* writes_back { sem 𝓛 (LendsPart double_row f64_tree self.entry key.now result) }
        ensures value { result_map (λ d. d.now.0) result ≡ of_kind as_f64 (get key.now (pairs_of self.old)) }
    {
        match self.get_mut(key) {
            Some(value) => match value.as_f64_mut() {
                Some(lent) => Ok(lent),
                None => Err(ValueAccessError::UnexpectedType),
            },
            None => Err(ValueAccessError::NotPresent),
        }
    }

    /// The decimal number under a key.
    pub fn get_decimal128(&self, key: &str) -> ValueAccessResult<&Decimal128>
        ensures { result_map (λ d. decimal_bytes d.now) result ≡ of_kind as_decimal128 (get key.now (pairs_of self.now)) }
    {
        match self.get(key) {
            Some(Bson::Decimal128(decimal)) => Ok(decimal),
            Some(_) => Err(ValueAccessError::UnexpectedType),
            None => Err(ValueAccessError::NotPresent),
        }
    }

    /// The decimal number under a key, to be written to.
    pub fn get_decimal128_mut(&mut self, key: &str) -> ValueAccessResult<&mut Decimal128>
        ensures* writes_back { sem 𝓛 (LendsPart decimal128_row decimal128_tree self.entry key.now result) }
        ensures value { result_map (λ d. decimal_bytes d.now) result ≡ of_kind as_decimal128 (get key.now (pairs_of self.old)) }
    {
        match self.get_mut(key) {
            Some(value) => match value.as_decimal128_mut() {
                Some(lent) => Ok(lent),
                None => Err(ValueAccessError::UnexpectedType),
            },
            None => Err(ValueAccessError::NotPresent),
        }
    }

    /// The text under a key.
    pub fn get_str(&self, key: &str) -> ValueAccessResult<&str>
        ensures { result_map (λ s. s.now) result ≡ of_kind as_str (get key.now (pairs_of self.now)) }
    {
        match self.get(key) {
            Some(Bson::String(text)) => Ok(text.as_str()),
            Some(_) => Err(ValueAccessError::UnexpectedType),
            None => Err(ValueAccessError::NotPresent),
        }
    }

    /// The text under a key, to be written to.
    pub fn get_str_mut(&mut self, key: &str) -> ValueAccessResult<&mut String>
        ensures* writes_back { sem 𝓛 (LendsPart text_row text_tree self.entry key.now result) }
        ensures value { result_map (λ s. string_bytes s.now) result ≡ of_kind as_str (get key.now (pairs_of self.old)) }
    {
        match self.get_mut(key) {
            Some(value) => match value.as_str_mut() {
                Some(lent) => Ok(lent),
                None => Err(ValueAccessError::UnexpectedType),
            },
            None => Err(ValueAccessError::NotPresent),
        }
    }

    /// The array under a key.
    pub fn get_array(&self, key: &str) -> ValueAccessResult<&Array>
        ensures { result_map (λ a. items_of (map view a.now.items)) result ≡ of_kind as_array (get key.now (pairs_of self.now)) }
    {
        match self.get(key) {
            Some(Bson::Array(items)) => Ok(items),
            Some(_) => Err(ValueAccessError::UnexpectedType),
            None => Err(ValueAccessError::NotPresent),
        }
    }

    /// The array under a key, to be written to.
    pub fn get_array_mut(&mut self, key: &str) -> ValueAccessResult<&mut Array>
        ensures* writes_back { sem 𝓛 (LendsPart array_row array_tree self.entry key.now result) }
        ensures value { result_map (λ a. items_of (map view a.now.items)) result ≡ of_kind as_array (get key.now (pairs_of self.old)) }
    {
        match self.get_mut(key) {
            Some(value) => match value.as_array_mut() {
                Some(lent) => Ok(lent),
                None => Err(ValueAccessError::UnexpectedType),
            },
            None => Err(ValueAccessError::NotPresent),
        }
    }

    /// The document under a key.
    pub fn get_document(&self, key: &str) -> ValueAccessResult<&Document>
        ensures { result_map (λ d. content d.now) result ≡ of_kind as_document (get key.now (pairs_of self.now)) }
    {
        match self.get(key) {
            Some(Bson::Document(document)) => Ok(document),
            Some(_) => Err(ValueAccessError::UnexpectedType),
            None => Err(ValueAccessError::NotPresent),
        }
    }

    /// The document under a key, to be written to.
    pub fn get_document_mut(&mut self, key: &str) -> ValueAccessResult<&mut Document>
        ensures* writes_back { sem 𝓛 (LendsPart document_row document_tree self.entry key.now result) }
        ensures value { result_map (λ d. content d.now) result ≡ of_kind as_document (get key.now (pairs_of self.old)) }
    {
        document_in(self.pairs_mut(), key)
    }

    /// The pairs, to be written to.
    // What a `&mut` ends as that lends one of its own type is proved by hand, over two calls that each lend another type.
    fn pairs_mut(&mut self) -> &mut Pairs<Bson>
        ensures* writes_back { sem 𝓛 (LendsPairs self.entry result) }
        ensures value { result.now ≡ self.old.pairs }
    {
        &mut self.pairs
    }

    /// The truth value under a key.
    pub fn get_bool(&self, key: &str) -> ValueAccessResult<bool>
        ensures { result ≡ of_kind as_bool (get key.now (pairs_of self.now)) }
    {
        match self.get(key) {
            Some(Bson::Boolean(truth)) => Ok(*truth),
            Some(_) => Err(ValueAccessError::UnexpectedType),
            None => Err(ValueAccessError::NotPresent),
        }
    }

    /// The truth value under a key, to be written to.
    pub fn get_bool_mut(&mut self, key: &str) -> ValueAccessResult<&mut bool>
        ensures* writes_back { sem 𝓛 (LendsPart truth_row bool_tree self.entry key.now result) }
        ensures value { result_map (λ b. b.now) result ≡ of_kind as_bool (get key.now (pairs_of self.old)) }
    {
        match self.get_mut(key) {
            Some(value) => match value.as_bool_mut() {
                Some(lent) => Ok(lent),
                None => Err(ValueAccessError::UnexpectedType),
            },
            None => Err(ValueAccessError::NotPresent),
        }
    }

    /// The Int32 under a key.
    pub fn get_i32(&self, key: &str) -> ValueAccessResult<i32>
        ensures { result ≡ of_kind as_i32 (get key.now (pairs_of self.now)) }
    {
        match self.get(key) {
            Some(Bson::Int32(number)) => Ok(*number),
            Some(_) => Err(ValueAccessError::UnexpectedType),
            None => Err(ValueAccessError::NotPresent),
        }
    }

    /// The Int32 under a key, to be written to.
    pub fn get_i32_mut(&mut self, key: &str) -> ValueAccessResult<&mut i32>
        ensures* writes_back { sem 𝓛 (LendsPart i32_row i32_tree self.entry key.now result) }
        ensures value { result_map (λ z. z.now) result ≡ of_kind as_i32 (get key.now (pairs_of self.old)) }
    {
        match self.get_mut(key) {
            Some(value) => match value.as_i32_mut() {
                Some(lent) => Ok(lent),
                None => Err(ValueAccessError::UnexpectedType),
            },
            None => Err(ValueAccessError::NotPresent),
        }
    }

    /// The Int64 under a key.
    pub fn get_i64(&self, key: &str) -> ValueAccessResult<i64>
        ensures { result ≡ of_kind as_i64 (get key.now (pairs_of self.now)) }
    {
        match self.get(key) {
            Some(Bson::Int64(number)) => Ok(*number),
            Some(_) => Err(ValueAccessError::UnexpectedType),
            None => Err(ValueAccessError::NotPresent),
        }
    }

    /// The Int64 under a key, to be written to.
    pub fn get_i64_mut(&mut self, key: &str) -> ValueAccessResult<&mut i64>
        ensures* writes_back { sem 𝓛 (LendsPart i64_row i64_tree self.entry key.now result) }
        ensures value { result_map (λ z. z.now) result ≡ of_kind as_i64 (get key.now (pairs_of self.old)) }
    {
        match self.get_mut(key) {
            Some(value) => match value.as_i64_mut() {
                Some(lent) => Ok(lent),
                None => Err(ValueAccessError::UnexpectedType),
            },
            None => Err(ValueAccessError::NotPresent),
        }
    }

    /// The timestamp under a key.
    pub fn get_timestamp(&self, key: &str) -> ValueAccessResult<Timestamp>
        ensures { result_map (λ t. (t.time, t.increment)) result ≡ of_kind as_timestamp (get key.now (pairs_of self.now)) }
    {
        match self.get(key) {
            Some(Bson::Timestamp(timestamp)) => Ok(*timestamp),
            Some(_) => Err(ValueAccessError::UnexpectedType),
            None => Err(ValueAccessError::NotPresent),
        }
    }

    /// The timestamp under a key, to be written to.
    pub fn get_timestamp_mut(&mut self, key: &str) -> ValueAccessResult<&mut Timestamp>
        ensures* writes_back { sem 𝓛 (LendsPart timestamp_row timestamp_tree self.entry key.now result) }
        ensures value { result_map (λ t. (t.now.time, t.now.increment)) result ≡ of_kind as_timestamp (get key.now (pairs_of self.old)) }
    {
        match self.get_mut(key) {
            Some(value) => match value.as_timestamp_mut() {
                Some(lent) => Ok(lent),
                None => Err(ValueAccessError::UnexpectedType),
            },
            None => Err(ValueAccessError::NotPresent),
        }
    }

    /// The bytes of a Binary of subtype Generic under a key.
    pub fn get_binary_generic(&self, key: &str) -> ValueAccessResult<&Vec<u8>>
        ensures { result_map (λ b. b.now.items) result ≡ of_kind as_binary_generic (get key.now (pairs_of self.now)) }
    {
        match self.get(key) {
            Some(
                Bson::Binary(
                    Binary {
                        subtype: BinarySubtype::Generic,
                        bytes,
                    },
                ),
            ) => Ok(bytes),
            Some(_) => Err(ValueAccessError::UnexpectedType),
            None => Err(ValueAccessError::NotPresent),
        }
    }

    /// The bytes of a Binary of subtype Generic under a key, to be written to.
    pub fn get_binary_generic_mut(&mut self, key: &str) -> ValueAccessResult<&mut Vec<u8>>
        ensures* writes_back { sem 𝓛 (LendsPart bytes_row generic_tree self.entry key.now result) }
        ensures value { result_map (λ b. b.now.items) result ≡ of_kind as_binary_generic (get key.now (pairs_of self.old)) }
    {
        match self.get_mut(key) {
            Some(value) => match value.as_binary_generic_mut() {
                Some(lent) => Ok(lent),
                None => Err(ValueAccessError::UnexpectedType),
            },
            None => Err(ValueAccessError::NotPresent),
        }
    }

    /// The object id under a key.
    pub fn get_object_id(&self, key: &str) -> ValueAccessResult<ObjectId>
        ensures { result_map id_bytes result ≡ of_kind as_object_id (get key.now (pairs_of self.now)) }
    {
        match self.get(key) {
            Some(Bson::ObjectId(id)) => Ok(*id),
            Some(_) => Err(ValueAccessError::UnexpectedType),
            None => Err(ValueAccessError::NotPresent),
        }
    }

    /// The object id under a key, to be written to.
    pub fn get_object_id_mut(&mut self, key: &str) -> ValueAccessResult<&mut ObjectId>
        ensures* writes_back { sem 𝓛 (LendsPart object_id_row object_id_tree self.entry key.now result) }
        ensures value { result_map (λ i. id_bytes i.now) result ≡ of_kind as_object_id (get key.now (pairs_of self.old)) }
    {
        match self.get_mut(key) {
            Some(value) => match value.as_object_id_mut() {
                Some(lent) => Ok(lent),
                None => Err(ValueAccessError::UnexpectedType),
            },
            None => Err(ValueAccessError::NotPresent),
        }
    }

    /// The moment under a key.
    pub fn get_datetime(&self, key: &str) -> ValueAccessResult<&DateTime>
        ensures { result_map (λ t. millis_of t.now) result ≡ of_kind as_datetime (get key.now (pairs_of self.now)) }
    {
        match self.get(key) {
            Some(Bson::DateTime(moment)) => Ok(moment),
            Some(_) => Err(ValueAccessError::UnexpectedType),
            None => Err(ValueAccessError::NotPresent),
        }
    }

    /// The moment under a key, to be written to.
    pub fn get_datetime_mut(&mut self, key: &str) -> ValueAccessResult<&mut DateTime>
        ensures* writes_back { sem 𝓛 (LendsPart date_time_row date_time_tree self.entry key.now result) }
        ensures value { result_map (λ t. millis_of t.now) result ≡ of_kind as_datetime (get key.now (pairs_of self.old)) }
    {
        match self.get_mut(key) {
            Some(value) => match value.as_datetime_mut() {
                Some(lent) => Ok(lent),
                None => Err(ValueAccessError::UnexpectedType),
            },
            None => Err(ValueAccessError::NotPresent),
        }
    }

    /// Whether the value under a key is Null.
    pub fn is_null(&self, key: &str) -> bool
        ensures { result ≡ has_null (get key.now (pairs_of self.now)) }
    {
        matches!(self.get(key), Some(Bson::Null))
    }
}
