//! Changes that wait.

ghost use Rattle.std.specs.Prelude.{◌≡◌, ◌+ℤ◌, ◌<ℤ◌, ◌^◌, ◌++◌, ◌∷◌, [], ℕ, pos, List, None, Some, option_map, IfOk, OnOk};
ghost use Rattle.bson_store.specs.Draft.{AreApart, IsFound, Touches, left_by};
ghost use Rattle.store_table.specs.Moves.{parts_of_found};
ghost use Rattle.store_table.specs.Rows.{TableRow, AreBelow, IsRising, without_place, with_body_at};

use crate::rows::change_rows;
use std::alloc::{AllocError, Global};
use std::collections::BTreeMap;
use store_table::{Change, Fault, Found};

/// A key and its collection.
fn pair(alloc: Global, coll: &str, idkey: &[u8]) -> Result<(Vec<u8>, Vec<u8>), AllocError>
    ensures { IfOk result (λ x. (x.0.items ≡ idkey.now) × (x.1.items ≡ coll.now)) }
{
    let key = Vec::from_slice(alloc, idkey)?;
    let name = Vec::from_slice(alloc, coll.as_bytes())?;
    Ok((key, name))
}

/// A row with this body.
fn row_at(alloc: Global, place: i64, body: &[u8]) -> Result<Option<Found>, AllocError>
    ensures { IfOk result (λ f. option_map parts_of_found f ≡ Some (place, body.now)) }
{
    let body = Vec::from_slice(alloc, body)?;
    Ok(Some(Found { place, body }))
}

/// The row that a change leaves, if it leaves one.
fn left_by(alloc: Global, change: &Change) -> Result<Option<Found>, AllocError>
    ensures { IfOk result (λ f. option_map parts_of_found f ≡ left_by change.now) }
{
    match change {
        Change::Add {
            place,
            coll: _,
            idkey: _,
            body,
        } => row_at(alloc, *place, body.as_slice()),
        Change::Rewrite {
            place,
            old: _,
            body,
        } => row_at(alloc, *place, body.as_slice()),
        Change::Remove { place: _, old: _ } => Ok(None),
    }
}

/// Changes of rows, one after the other, which wait to be made. A row that is added comes after all others.
#[derive(Drop)]
pub struct Draft {
    changes: Vec<Change>,
    // Under each key and collection that was touched the last of the changes that did.
    touched: BTreeMap<(Vec<u8>, Vec<u8>), usize>,
    last: i64,
    alloc: Global,
}

impl Draft {
    ghost use Rattle.bson_store.specs.Draft.{ShowRows};
    ghost use Rattle.bson_store.specs.Drafted.{DraftsMore, Follows, IsOver, changes_of, drafted, last_of};

    /// No changes, over rows of which this is the greatest place.
    pub fn new(alloc: Global, last: i64) -> Draft
        ensures none { changes_of result ≡ [] }
        ensures last { last_of result ≡ last }
        ensures over { (docs : List TableRow) → AreApart docs → IsRising docs
            → AreBelow (last +ℤ pos 1) docs → (n : ℕ) → last ≡ pos n → IsOver result docs }
    {
        Draft {
            changes: Vec::new(alloc),
            touched: BTreeMap::new(alloc),
            last,
            alloc,
        }
    }

    /// The changes.
    pub fn changes(&self) -> &[Change]
        ensures { result.now ≡ changes_of self.now }
    {
        self.changes.as_slice()
    }

    /// The first row of a collection under a key after the changes, if `found` is what is found without them. It takes
    /// one look-up, however many changes there are.
    pub fn find(
        &self,
        found: Option<Found>,
        coll: &str,
        idkey: &[u8],
    ) -> Result<Option<Found>, AllocError>
        ensures { (docs : List TableRow) → IsOver self.now docs
            → IsFound coll.now idkey.now found docs
            → IfOk result (λ f. IsFound coll.now idkey.now f (drafted self.now docs)) }
    {
        let key = pair(self.alloc, coll, idkey)?;
        let Some(at) = self.touched.get(&key) else {
            return Ok(found);
        };
        match self.changes.get(*at) {
            Some(change) => left_by(self.alloc, change),
            None => Ok(found),
        }
    }

    /// The rows of a collection after the changes, from those without them. Each change is looked at, and each that
    /// rewrites or removes a row goes through the rows.
    pub fn rows(&self, coll: &str, rows: Vec<Found>) -> Result<Vec<Found>, AllocError>
        ensures { (docs : List TableRow) → ShowRows coll.now rows.items docs
            → IfOk result (λ v. ShowRows coll.now v.items (drafted self.now docs)) }
    {
        let mut rows = rows;
        for change in self.changes.as_slice() {
            change_rows(self.alloc, coll, &mut rows, change)?;
        }
        Ok(rows)
    }

    /// One change more, of the row of a collection under a key.
    fn note(&mut self, coll: &str, idkey: &[u8], change: Change) -> Result<(), AllocError>
        ensures more { OnOk result (changes_of self.new ≡ changes_of self.old ++ change ∷ []) }
        ensures last { last_of self.new ≡ last_of self.old }
        ensures follows { (docs : List TableRow) → Follows self.old docs
            → Touches coll.now idkey.now change (drafted self.old docs)
            → OnOk result (Follows self.new docs) }
    {
        let key = pair(self.alloc, coll, idkey)?;
        let at = self.changes.len();
        self.changes.push(change)?;
        self.touched.insert(key, at)?;
        Ok(())
    }

    /// A row is added after all others. Places, if there is none after the greatest.
    pub fn add(&mut self, coll: &str, idkey: &[u8], body: &[u8]) -> Result<(), Fault>
        ensures more { OnOk result (DraftsMore self.old self.new (λ docs. docs ++ record {
          place = last_of self.old +ℤ pos 1;
          coll = coll.now;
          idkey = idkey.now;
          body = body.now;
        } ∷ [])) }
        ensures over { (docs : List TableRow) → IsOver self.old docs
            → IsFound coll.now idkey.now None (drafted self.old docs)
            → OnOk result (IsOver self.new docs) }
        ensures room { OnOk result ((last_of self.old +ℤ pos 1) <ℤ pos (2 ^ 63)) }
    {
        let Some(place) = self.last.checked_add(1) else {
            return Err(Fault::Places);
        };
        let name = String::from_str(self.alloc, coll)?;
        let key = Vec::from_slice(self.alloc, idkey)?;
        let body = Vec::from_slice(self.alloc, body)?;
        let change = Change::Add {
            place,
            coll: name,
            idkey: key,
            body,
        };
        self.note(coll, idkey, change)?;
        self.last = place;
        Ok(())
    }

    /// The row that is found of a collection under a key gets another body.
    pub fn rewrite(
        &mut self,
        coll: &str,
        idkey: &[u8],
        found: Found,
        body: &[u8],
    ) -> Result<(), AllocError>
        ensures more { OnOk result (DraftsMore self.old self.new
            (with_body_at found.place body.now)) }
        ensures over { (docs : List TableRow) → IsOver self.old docs
            → IsFound coll.now idkey.now (Some found) (drafted self.old docs)
            → OnOk result (IsOver self.new docs) }
    {
        let body = Vec::from_slice(self.alloc, body)?;
        let change = Change::Rewrite {
            place: found.place,
            old: found.body,
            body,
        };
        self.note(coll, idkey, change)
    }

    /// The row that is found of a collection under a key is removed.
    pub fn remove(&mut self, coll: &str, idkey: &[u8], found: Found) -> Result<(), AllocError>
        ensures more { OnOk result (DraftsMore self.old self.new (without_place found.place)) }
        ensures over { (docs : List TableRow) → IsOver self.old docs
            → IsFound coll.now idkey.now (Some found) (drafted self.old docs)
            → OnOk result (IsOver self.new docs) }
    {
        let change = Change::Remove {
            place: found.place,
            old: found.body,
        };
        self.note(coll, idkey, change)
    }
}
