//! Rows under old keys, which get their current keys.

ghost use Rattle.std.specs.Prelude.{◌≡◌, ◌++◌, ◌∷◌, [], false, List, Option, None, option_map, find, IfOk, IfErr, Ok, Err, OnOk, OnErr};
ghost use Rattle.store_table.specs.Cells.{doc_of};
ghost use Rattle.sqlite.specs.Held.{state};
ghost use Rattle.sqlite.specs.State.{HasCleanDisk, Survives, IsLive, Shows as Sees};
ghost use Rattle.store_table.specs.Crash.{AddsNothing};
ghost use Rattle.store_table.specs.Check.{AreGood, IsGoodAfter};
ghost use Rattle.store_table.specs.Open.{IsSettled, KeepsAll, Reads, RefusesOpening};
ghost use Rattle.store_table.specs.Rows.{TableRow, HoldsRows, with_keys_at, is_row_named};
ghost use Rattle.store_table.specs.Beside.{SparesOthers};
ghost use Rattle.store_table.specs.Renewal.{HasPlaces, AcceptsOnce, IsOwn, AreRenewals, Renewed, Unrenewed, HasRekeyed, MayPut, MayRenew, RenewsOld, PassesOnce};
ghost use Rattle.store_table.specs.Keys.{PutsKeys};

use crate::check::{GathersRows, Own, RowCheck, TestsRows, survey, survey_into};
use crate::opening::{OpenError, bytes_at, place_in, refusal};
use crate::row::NewKey;
use crate::statements::rekey_all;
use sqlite::{Alter, Connection, Error, Row};
use std::alloc::{AllocError, Global};
use std::collections::BTreeMap;

/// Puts the place of a row under its key and its collection, and returns the place that was there.
pub(crate) fn meet_place(
    places: &mut BTreeMap<(Vec<u8>, Vec<u8>), i64>,
    alloc: Global,
    coll: &[u8],
    idkey: &[u8],
    place: i64,
) -> Result<Option<i64>, AllocError>
    ensures met { (docs : List TableRow) → HasPlaces places.old docs
        → IfOk result (λ p. p ≡ option_map (λ (d : TableRow). d.place)
        (find (is_row_named coll.now idkey.now) docs)) }
    ensures added { (docs : List TableRow) (d : TableRow) → HasPlaces places.old docs
        → d.coll ≡ coll.now → d.idkey ≡ idkey.now → d.place ≡ place
        → IfOk result (λ p. p ≡ None → HasPlaces places.new (docs ++ d ∷ [])) }
{
    let key = Vec::from_slice(alloc, idkey)?;
    let name = Vec::from_slice(alloc, coll)?;
    let met = places.insert((key, name), place)?;
    Ok(met)
}

/// What is known of the current keys of the rows so far.
#[derive(Drop)]
pub(crate) struct Renewals {
    /// The place of each row under its current key and its collection.
    pub(crate) places: BTreeMap<(Vec<u8>, Vec<u8>), i64>,
    /// The keys that replace others.
    pub(crate) keys: Vec<NewKey>,
    /// The first two places that have the same collection and current key.
    pub(crate) twin: Option<(i64, i64)>,
}

impl Renewals {
    /// Renewals of no rows.
    pub(crate) fn new(alloc: Global) -> Renewals
        ensures twin { result.twin ≡ None }
        ensures keys { result.keys.items ≡ [] }
        ensures places { HasPlaces result.places [] }
    {
        Renewals {
            places: BTreeMap::new(alloc),
            keys: Vec::new(alloc),
            twin: None,
        }
    }

    /// Takes one more row, which has its own key, or the one from before instead.
    pub(crate) fn take<C: RowCheck>(
        &mut self,
        alloc: Global,
        row: &Row,
        check: &C,
    ) -> Result<(), AllocError>
        ensures { (docs : List TableRow) → IsGoodAfter (AcceptsOnce (C.renews check.now)) docs
            (doc_of row.now) → AreRenewals (IsOwn (C.renews check.now))
            (C.renews check.now) docs self.old → OnOk result
            (AreRenewals (IsOwn (C.renews check.now)) (C.renews check.now)
            (docs ++ doc_of row.now ∷ []) self.new) }
    {
        if self.twin.is_some() {
            return Ok(());
        }
        let coll = bytes_at(row, 1);
        let idkey = bytes_at(row, 2);
        let Some(now) = check.renewed(coll, idkey, bytes_at(row, 3))? else {
            return Ok(());
        };
        let place = place_in(row);
        if let Some(first) = meet_place(&mut self.places, alloc, coll, now.as_slice(), place)? {
            self.twin = Some((first, place));
            return Ok(());
        }
        if now.as_slice() != idkey {
            self.keys.push(NewKey { place, idkey: now })?;
        }
        Ok(())
    }
}

/// The test of a row under its own key or the one from before.
#[derive(Drop)]
struct Once<'a, C: RowCheck> {
    check: &'a C,
}

impl<C: RowCheck> TestsRows for Once<'_, C> {
    ghost use Rattle.store_table.specs.Renewal.{AcceptsOnce};

    ghost accepts = { λ once coll idkey body. AcceptsOnce (C.renews once.check.now) coll idkey body };

    fn accepts_row(&self, coll: &[u8], idkey: &[u8], body: &[u8]) -> Result<bool, AllocError> {
        Ok(self.check.renewed(coll, idkey, body)?.is_some())
    }
}

impl<'a, C: RowCheck> GathersRows<Once<'a, C>> for Renewals {
    ghost use Rattle.store_table.specs.Renewal.{AreRenewals, IsOwn};

    ghost is_made_of = { λ once docs r. AreRenewals (IsOwn (C.renews once.check.now)) (C.renews once.check.now) docs r };

    fn gather(&mut self, alloc: Global, row: &Row, check: &Once<'a, C>) -> Result<(), AllocError> {
        self.take(alloc, row, check.check)
    }
}

/// Reads the whole table, tests each row under either key, and gathers the current keys. It holds the names and keys of
/// the rows before, and the keys that replace others.
pub(crate) fn survey_old<S: Alter, C: RowCheck>(
    alloc: Global,
    conn: &mut Connection<S>,
    check: &C,
) -> Result<Renewals, OpenError>
    ensures read { HasCleanDisk (state S.Store conn.new)
        → IfOk result (λ r. (docs : List TableRow)
        × Reads (state S.Store conn.old) (state S.Store conn.new) docs
        × AreGood (AcceptsOnce (C.renews check.now)) docs
        × AreRenewals (IsOwn (C.renews check.now)) (C.renews check.now) docs r) }
    ensures refused { HasCleanDisk (state S.Store conn.new)
        → IfErr result (λ e. RefusesOpening (AcceptsOnce (C.renews check.now))
        (state S.Store conn.old) (state S.Store conn.new) e) }
    ensures kept { HasCleanDisk (state S.Store conn.new) → IsSettled (state S.Store conn.old)
        → OnErr result (KeepsAll (state S.Store conn.old) (state S.Store conn.new)) }
    ensures crash { AddsNothing (state S.Store conn.old) (state S.Store conn.new) }
{
    let mut renewals = Renewals::new(alloc);
    survey_into(alloc, conn, &Once { check }, &mut renewals)?;
    Ok(renewals)
}

/// Puts the keys at their places, in one transaction.
fn write_keys<S: Alter>(conn: &mut Connection<S>, keys: &[NewKey]) -> Result<(), Error>
    ensures done { HasCleanDisk (state S.Store conn.new) → (docs : List TableRow)
        → HoldsRows (state S.Store conn.old) docs → OnOk result
        (HoldsRows (state S.Store conn.new) (with_keys_at keys.now docs)) }
    ensures spared { HasCleanDisk (state S.Store conn.new) → (docs : List TableRow)
        → HoldsRows (state S.Store conn.old) docs → OnOk result
        (SparesOthers (state S.Store conn.old).now (state S.Store conn.new).now) }
    ensures puts { HasCleanDisk (state S.Store conn.new)
        → OnOk result (Sees (state S.Store conn.old) (state S.Store conn.new)
        (state S.Store conn.new).now (state S.Store conn.new).now false
        × PutsKeys (state S.Store conn.old).step_limit keys.now (state S.Store conn.old).now
        (state S.Store conn.new).now) }
    ensures kept { HasCleanDisk (state S.Store conn.new) → IsSettled (state S.Store conn.old)
        → OnErr result (KeepsAll (state S.Store conn.old) (state S.Store conn.new)) }
    ensures crash { Survives (state S.Store conn.old) (state S.Store conn.new)
        (MayPut keys.now (state S.Store conn.old)) }
{
    rekey_all(conn, keys)
}

/// Replaces the keys from before by the current ones: all of them, or none.
pub(crate) fn renew<S: Alter, C: RowCheck>(
    alloc: Global,
    conn: &mut Connection<S>,
    check: &C,
) -> Result<(), OpenError>
    ensures renewed { HasCleanDisk (state S.Store conn.new) → IsLive (state S.Store conn.old)
        → OnOk result (Renewed (IsOwn (C.renews check.now)) (C.renews check.now)
        (state S.Store conn.old) (state S.Store conn.new)) }
    ensures read { HasCleanDisk (state S.Store conn.new)
        → OnOk result (HasRekeyed (IsOwn (C.renews check.now)) (C.renews check.now)
        (state S.Store conn.old) (state S.Store conn.new)) }
    ensures refused { HasCleanDisk (state S.Store conn.new)
        → IfErr result (λ e. Unrenewed (IsOwn (C.renews check.now)) (C.renews check.now)
        (state S.Store conn.old) (state S.Store conn.new) e) }
    ensures kept { HasCleanDisk (state S.Store conn.new) → IsSettled (state S.Store conn.old)
        → OnErr result (KeepsAll (state S.Store conn.old) (state S.Store conn.new)) }
    ensures crash { Survives (state S.Store conn.old) (state S.Store conn.new)
        (MayRenew (IsOwn (C.renews check.now)) (C.renews check.now) (state S.Store conn.old)) }
{
    let renewals = survey_old(alloc, conn, check)?;
    if let Some((first, second)) = renewals.twin {
        return Err(OpenError::IdsCollide(first, second));
    }
    match write_keys(conn, renewals.keys.as_slice()) {
        Ok(()) => Ok(()),
        Err(error) => Err(refusal(error)),
    }
}

/// Tests the table, and replaces keys from before by the current ones, if there are any.
pub(crate) fn settle_keys<S: Alter, C: RowCheck>(
    alloc: Global,
    conn: &mut Connection<S>,
    check: &C,
) -> Result<(), OpenError>
    ensures settled { HasCleanDisk (state S.Store conn.new) → IsLive (state S.Store conn.old)
        → OnOk result (Renewed (IsOwn (C.renews check.now)) (C.renews check.now)
        (state S.Store conn.old) (state S.Store conn.new)) }
    ensures read { HasCleanDisk (state S.Store conn.new)
        → OnOk result (PassesOnce (C.renews check.now) (state S.Store conn.old)
        (state S.Store conn.new)) }
    ensures refused { HasCleanDisk (state S.Store conn.new)
        → IfErr result (λ e. Unrenewed (IsOwn (C.renews check.now)) (C.renews check.now)
        (state S.Store conn.old) (state S.Store conn.new) e) }
    ensures kept { HasCleanDisk (state S.Store conn.new) → IsSettled (state S.Store conn.old)
        → OnErr result (KeepsAll (state S.Store conn.old) (state S.Store conn.new)) }
    ensures crash { Survives (state S.Store conn.old) (state S.Store conn.new)
        (RenewsOld (C.renews check.now) (state S.Store conn.old)) }
{
    match survey(alloc, conn, &Own { check }) {
        Err(OpenError::BadRow(_)) => renew(alloc, conn, check),
        verdict => verdict,
    }
}
