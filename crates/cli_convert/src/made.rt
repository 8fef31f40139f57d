//! Ids that are made, and the time that goes with them.

ghost use Rattle.std.specs.Prelude.{◌≡◌, ◌∷◌, false, map, IfOk};
ghost use Rattle.bson_base.specs.Value.{has_key, member};
ghost use Rattle.bson_model.specs.Rest.{owned_member};
ghost use Rattle.bson_model.specs.View.{content, pairs_of, view};
ghost use Rattle.store_model.specs.State.{id_key};
ghost use Rattle.cli_convert.specs.Made.{id_member, identified, maker_after, next_maker, seconds_of};

use bson_base::{DateTime, ObjectId};
use bson_model::{Bson, Document};
use std::alloc::{AllocError, Global};

/// What tells the time. No clause says what it tells.
pub trait Clock {
    /// The milliseconds since 1970.
    fn millis(&mut self) -> u64;
}

/// The seconds of an id that is made at this time.
fn seconds_of(millis: u64) -> u32
    ensures { result ≡ seconds_of millis }
{
    (millis / 1000 % (1 << 32)) as u32
}

/// What makes object ids, at a time: each is the seconds of that and a number, which grows by one from id to id. So
/// the first 2⁶⁴ ids of one maker differ.
#[derive(Debug, Drop)]
pub struct IdMaker {
    millis: u64,
    next: u64,
}

impl IdMaker {
    ghost use Rattle.std.specs.Prelude.{◌≡◌};
    ghost use Rattle.bson_base.specs.Scalars.{id_bytes, millis_of};
    ghost use Rattle.cli_convert.specs.Made.{at_time, date_of, made_bytes, maker_at, next_maker};

    /// A maker at this time, in milliseconds since 1970, whose first id has this number.
    pub fn new(millis: u64, first: u64) -> IdMaker
        ensures { result ≡ maker_at millis first }
    {
        IdMaker {
            millis,
            next: first,
        }
    }

    /// The next id: 4 bytes of seconds since 1970, which begin anew after 2³² of them, and 8 of the number, the highest
    /// byte first in both. After the greatest number comes 0.
    pub fn make(&mut self) -> ObjectId
        ensures bytes { id_bytes result ≡ made_bytes self.old }
        ensures next { self.new ≡ next_maker self.old }
    {
        let [a, b, c, d] = seconds_of(self.millis).to_be_bytes();
        let [e, f, g, h, i, j, k, l] = self.next.to_be_bytes();
        self.next = self.next.wrapping_add(1);
        ObjectId::from_bytes([a, b, c, d, e, f, g, h, i, j, k, l])
    }

    /// The time of the maker, as a date; the last one that there is, if it is beyond that.
    pub fn now(&self) -> DateTime
        ensures { millis_of result ≡ date_of self.now }
    {
        DateTime::from_millis(self.millis.min(i64::MAX as u64) as i64)
    }

    /// The maker is at this time from now on, in milliseconds since 1970.
    pub fn set_time(&mut self, millis: u64)
        ensures { self.new ≡ at_time millis self.old }
    {
        self.millis = millis;
    }

    /// A maker of the same ids that this one would make next. The caller drops one of the two.
    pub fn copy(&self) -> IdMaker
        ensures { result ≡ self.now }
    {
        IdMaker {
            millis: self.millis,
            next: self.next,
        }
    }
}

/// The pairs of a document after an `_id`.
fn pairs_behind_id(
    alloc: Global,
    id: Bson,
    document: Document,
) -> Result<Vec<(String, Bson)>, AllocError>
    ensures { IfOk result (λ v. map owned_member v.items ≡ (id_key, view id) ∷ pairs_of document) }
{
    let mut pairs = Vec::new(alloc);
    pairs.push((String::from_str(alloc, "_id")?, id))?;
    for (key, value) in document {
        pairs.push((key, value))?;
    }
    Ok(pairs)
}

/// A document without an `_id`, with this one in front of what it has. It fails only if a growth of memory was refused.
pub fn with_front_id(alloc: Global, id: Bson, document: Document) -> Result<Document, AllocError>
    requires { has_key id_key (content document) ≡ false }
    ensures { IfOk result (λ d. content d ≡ member id_key (view id) (content document)) }
{
    bson_model::laws::distinct_keys_of_level(&document);
    let pairs = pairs_behind_id(alloc, id, document)?;
    Document::from_pairs(alloc, pairs)
}

/// The next id of a maker, as a value.
fn made_id(maker: &mut IdMaker) -> Bson
    ensures id { view result ≡ (id_member maker.old).1 }
    ensures maker { maker.new ≡ next_maker maker.old }
{
    Bson::ObjectId(maker.make())
}

/// The document with an `_id`: itself if it has one, and else with a made one in front of what it has. It fails only if a
/// growth of memory was refused.
pub fn with_id(
    alloc: Global,
    document: Document,
    maker: &mut IdMaker,
) -> Result<Document, AllocError>
    ensures document { IfOk result (λ d. content d ≡ identified maker.old (content document)) }
    ensures maker { maker.new ≡ maker_after maker.old (content document) }
{
    if document.contains_key("_id") {
        return Ok(document);
    }
    let id = made_id(maker);
    with_front_id(alloc, id, document)
}
