//! Whether a store can have written the rows that the table has.

ghost use Rattle.std.specs.Prelude.{◌≡◌, ◌++◌, ◌∷◌, [], ◌&&◌, ◌||◌, ℕ, not, List, false, Err, IsTrue, IfOk, IfErr, IsOk, OnOk, OnErr, MatchBool, MatchOption, bytes_eq};
ghost use Rattle.sqlite_value.specs.Order.{column};
ghost use Rattle.sqlite.specs.Held.{state};
ghost use Rattle.sqlite.specs.State.{HasCleanDisk};
ghost use Rattle.store_table.specs.Crash.{AddsNothing};
ghost use Rattle.store_table.specs.Rows.{TableRow, last_place};
ghost use Rattle.store_table.specs.Cells.{is_listed, int_in, doc_of};
ghost use Rattle.store_table.specs.Check.{AreGood, IsGoodAfter};
ghost use Rattle.store_table.specs.Seen.{has_pair, HasSeen};
ghost use Rattle.store_table.specs.Judged.{JudgesRow};
ghost use Rattle.store_table.specs.Open.{RefusesOpening, PassesOpening, IsSettled, KeepsAll, Reads};

use crate::opening::{OpenError, bytes_at, has_row_types, place_in, refusal};
use crate::sql;
use sqlite::{Alter, Connection, Error, Row};
use std::alloc::{AllocError, Global};
use std::collections::BTreeSet;

/// What the store above asks of a row besides the rules of the table.
pub trait RowCheck {
    /// A row of this collection, this written key and this body is or was one of the store's own, and this is its key
    /// now.
    ghost renews: { Self → List ℕ → List ℕ → List ℕ → List ℕ → Type 0 };

    /// Whether a row is one of the store's own under the key that it has. An error is out of memory.
    fn passes(&self, coll: &[u8], idkey: &[u8], body: &[u8]) -> Result<bool, AllocError>
        ensures { IfOk result (λ good. MatchBool good
            (renews self.now coll.now idkey.now body.now idkey.now)
            (¬ renews self.now coll.now idkey.now body.now idkey.now)) };

    /// The key that a row has now, which is then its own. An error is out of memory.
    fn renewed(&self, coll: &[u8], idkey: &[u8], body: &[u8]) -> Result<Option<Vec<u8>>, AllocError>
        ensures { IfOk result (λ k. MatchOption k ((now : List ℕ)
            → renews self.now coll.now idkey.now body.now now → ⊥)
            (λ now. renews self.now coll.now idkey.now body.now now.items
            × renews self.now coll.now now.items body.now now.items)) };
}

/// A test of rows.
pub(crate) trait TestsRows {
    /// A row of this collection, this written key and this body is accepted.
    ghost accepts: { Self → List ℕ → List ℕ → List ℕ → Type 0 };

    /// Whether such a row is accepted. An error is out of memory.
    fn accepts_row(&self, coll: &[u8], idkey: &[u8], body: &[u8]) -> Result<bool, AllocError>
        ensures { IfOk result (λ good. MatchBool good (accepts self.now coll.now idkey.now body.now)
            (¬ accepts self.now coll.now idkey.now body.now)) };
}

/// The test of a row under its own key.
#[derive(Drop)]
pub(crate) struct Own<'a, C: RowCheck> {
    pub(crate) check: &'a C,
}

impl<C: RowCheck> TestsRows for Own<'_, C> {
    ghost use Rattle.store_table.specs.Renewal.{IsOwn};

    ghost accepts = { λ own coll idkey body. IsOwn (C.renews own.check.now) coll idkey body };

    fn accepts_row(&self, coll: &[u8], idkey: &[u8], body: &[u8]) -> Result<bool, AllocError> {
        self.check.passes(coll, idkey, body)
    }
}

/// What is made of the rows that a test accepts, one after the other.
pub(crate) trait GathersRows<J: TestsRows> {
    ghost use Rattle.store_table.specs.Rows.{TableRow};

    // With this test it was made of these rows.
    ghost is_made_of: { J → List TableRow → Self → Type 0 };

    /// Takes one more row. An error is out of memory.
    fn gather(&mut self, alloc: Global, row: &Row, check: &J) -> Result<(), AllocError>
        ensures { (docs : List TableRow) → IsGoodAfter (J.accepts check.now) docs (doc_of row.now)
            → is_made_of check.now docs self.old
            → OnOk result (is_made_of check.now (docs ++ doc_of row.now ∷ []) self.new) };
}

/// Nothing is made of rows that are only tested.
#[derive(Drop)]
struct Nothing;

impl<J: TestsRows> GathersRows<J> for Nothing {
    ghost is_made_of = { λ _ _ _. Unit {0} };

    fn gather(&mut self, _alloc: Global, _row: &Row, _check: &J) -> Result<(), AllocError> {
        Ok(())
    }
}

/// Adds a key and its collection, and says whether the set didn't have them. The key goes first, since it keeps most
/// rows apart.
fn meet(
    seen: &mut BTreeSet<(Vec<u8>, Vec<u8>)>,
    alloc: Global,
    coll: &[u8],
    idkey: &[u8],
) -> Result<bool, AllocError>
    ensures new { IfOk result (λ is_new. is_new ≡ not (has_pair seen.old.keys coll.now idkey.now)) }
    ensures added { IfOk result (λ is_new. IsTrue is_new → (c k : List ℕ)
        → has_pair seen.new.keys c k ≡ (bytes_eq c coll.now && bytes_eq k idkey.now) || has_pair
        seen.old.keys c k) }
{
    let key = Vec::from_slice(alloc, idkey)?;
    let name = Vec::from_slice(alloc, coll)?;
    let is_new = seen.insert((key, name))?;
    Ok(is_new)
}

/// Whether a row is good after those that the set stands for, the last of which has this place.
fn is_good_after<J: TestsRows>(
    alloc: Global,
    seen: &mut BTreeSet<(Vec<u8>, Vec<u8>)>,
    last: i64,
    row: &Row,
    check: &J,
) -> Result<bool, AllocError>
    ensures good { (docs : List TableRow) → HasSeen seen.old.keys docs → last ≡ last_place docs
        → IfOk result (λ good. MatchBool good (IsGoodAfter (J.accepts check.now) docs
        (doc_of row.now)) (¬ IsGoodAfter (J.accepts check.now) docs (doc_of row.now))) }
    ensures seen { (docs : List TableRow) → HasSeen seen.old.keys docs
        → IfOk result (λ good. IsTrue good → HasSeen seen.new.keys (docs ++ doc_of row.now ∷ [])) }
{
    let coll = bytes_at(row, 1);
    let idkey = bytes_at(row, 2);
    if place_in(row) <= last {
        return Ok(false);
    }
    if !meet(seen, alloc, coll, idkey)? {
        return Ok(false);
    }
    check.accepts_row(coll, idkey, bytes_at(row, 3))
}

/// The verdict so far, unless the row doesn't have the types, which decides it wherever the row is.
fn unless_mistyped(verdict: Result<(), OpenError>, row: &Row) -> Result<(), OpenError>
    ensures kept { IsTrue (is_listed row.now) → result ≡ verdict }
    ensures mistyped { is_listed row.now ≡ false → result ≡ Err OpenError.NotAStore }
{
    if has_row_types(row) {
        verdict
    } else {
        Err(OpenError::NotAStore)
    }
}

/// The verdict on the rows so far and this one. The rows after a bad one are looked at for their types alone.
pub(crate) fn judge<J: TestsRows>(
    alloc: Global,
    seen: &mut BTreeSet<(Vec<u8>, Vec<u8>)>,
    last: i64,
    verdict: Result<(), OpenError>,
    row: &Row,
    check: &J,
) -> Result<Result<(), OpenError>, AllocError>
    ensures judged { (rows : List Row) → JudgesRow
        (J.accepts check.now) seen.old.keys last rows verdict
        → IfOk result (λ now. JudgesRow (J.accepts check.now) seen.new.keys
        (int_in (column row.now 0)) (rows ++ row.now ∷ []) now) }
    ensures passed { IfOk result (λ now. IsOk now → IsOk verdict) }
{
    let now = unless_mistyped(verdict, row);
    if now.is_err() {
        return Ok(now);
    }
    if is_good_after(alloc, seen, last, row, check)? {
        Ok(Ok(()))
    } else {
        Ok(Err(OpenError::BadRow(place_in(row))))
    }
}

/// Takes one more row, unless something is wrong with it or one before it.
fn go_on<J: TestsRows, G: GathersRows<J>>(
    alloc: Global,
    gathered: &mut G,
    verdict: &Result<(), OpenError>,
    row: &Row,
    check: &J,
) -> Result<(), AllocError>
    ensures { (docs : List TableRow) → (IsOk verdict.now
        → IsGoodAfter (J.accepts check.now) docs (doc_of row.now))
        → (IsOk verdict.now → G.is_made_of check.now docs gathered.old) → OnOk result
        (IsOk verdict.now → G.is_made_of check.now (docs ++ doc_of row.now ∷ []) gathered.new) }
{
    if verdict.is_err() {
        return Ok(());
    }
    gathered.gather(alloc, row, check)
}

/// Reads the whole table, tests each row, and gathers the rows until one is bad. One row is held at a time, besides the
/// names and keys of those before it; each takes the time of a logarithm of their number.
pub(crate) fn survey_into<S: Alter, J: TestsRows, G: GathersRows<J>>(
    alloc: Global,
    conn: &mut Connection<S>,
    check: &J,
    gathered: &mut G,
) -> Result<(), OpenError>
    ensures read { HasCleanDisk (state S.Store conn.new) → G.is_made_of check.now [] gathered.old
        → OnOk result ((docs : List TableRow)
        × Reads (state S.Store conn.old) (state S.Store conn.new) docs
        × AreGood (J.accepts check.now) docs
        × G.is_made_of check.now docs gathered.new) }
    ensures refused { HasCleanDisk (state S.Store conn.new)
        → IfErr result (λ e. RefusesOpening (J.accepts check.now) (state S.Store conn.old)
        (state S.Store conn.new) e) }
    ensures kept { HasCleanDisk (state S.Store conn.new) → IsSettled (state S.Store conn.old)
        → OnErr result (KeepsAll (state S.Store conn.old) (state S.Store conn.new)) }
    ensures crash { AddsNothing (state S.Store conn.old) (state S.Store conn.new) }
{
    let mut rows = match conn.query(sql::ALL_ROWS, &[]) {
        Ok(rows) => rows,
        Err(Error::SqlInputError(_)) => return Err(OpenError::NotAStore),
        Err(error) => return Err(refusal(error)),
    };
    let mut seen = BTreeSet::new(alloc);
    let mut last = 0;
    let mut verdict = Ok(());
    'rows: for _ in 0..u64::MAX {
        let row = match rows.next() {
            Ok(Some(row)) => row,
            Ok(None) => return verdict,
            Err(error) => return Err(refusal(error)),
        };
        verdict = match judge(alloc, &mut seen, last, verdict, row, check) {
            Ok(now) => now,
            Err(_) => return Err(OpenError::Memory),
        };
        if go_on(alloc, gathered, &verdict, row, check).is_err() {
            return Err(OpenError::Memory);
        }
        last = place_in(row);
    }
    Err(OpenError::Database)
}

/// Reads the whole table, and tests each row.
pub(crate) fn survey<S: Alter, J: TestsRows>(
    alloc: Global,
    conn: &mut Connection<S>,
    check: &J,
) -> Result<(), OpenError>
    ensures read { HasCleanDisk (state S.Store conn.new)
        → OnOk result (PassesOpening (J.accepts check.now) (state S.Store conn.old)
        (state S.Store conn.new)) }
    ensures refused { HasCleanDisk (state S.Store conn.new)
        → IfErr result (λ e. RefusesOpening (J.accepts check.now) (state S.Store conn.old)
        (state S.Store conn.new) e) }
    ensures kept { HasCleanDisk (state S.Store conn.new) → IsSettled (state S.Store conn.old)
        → OnErr result (KeepsAll (state S.Store conn.old) (state S.Store conn.new)) }
    ensures crash { AddsNothing (state S.Store conn.old) (state S.Store conn.new) }
{
    survey_into::<S, J, Nothing>(alloc, conn, check, &mut Nothing)
}
