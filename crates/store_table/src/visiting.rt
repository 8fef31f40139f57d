//! The rows of a result, one at a time.

ghost use Rattle.std.specs.Prelude.{◌≡◌, ℕ, ℤ, List, [], ◌∷◌, ◌++◌, false, IsTrue, IfOk};
ghost use Rattle.sqlite.specs.Values.{bound};
ghost use Rattle.sqlite.specs.Held.{state};
ghost use Rattle.sqlite.specs.State.{HasCleanDisk};
ghost use Rattle.store_table.specs.Crash.{AddsNothing};
ghost use Rattle.store_table.specs.Visit.{IsSelect, ReadsRows, TookRows, TookSome};

use crate::opening::{bytes_at, place_in};
use sqlite::types::ValueRef;
use sqlite::{Alter, Connection, Error, ErrorCode, Row};

/// What is done with each body of a collection.
pub trait Visit {
    /// Between the first state and the second, the visitor took these bodies, in this order.
    ghost took: { Self → Self → List (List ℕ) → Type 0 };

    /// It asks for no further body.
    ghost is_done: { Self → Type 0 } = { λ _. Unit {0} };

    /// Takes a body, and says whether it asks for another.
    fn visit(&mut self, body: &[u8]) -> bool
        ensures took { (first : Self) (bodies : List (List ℕ)) → took first self.old bodies
            → took first self.new (bodies ++ body.now ∷ []) }
        ensures more { result ≡ false → is_done self.new };
}

/// What is done with the place and the body of each row of a collection.
pub trait VisitPlaced {
    /// Since it was the first visitor, the second has taken these places and bodies, in this order.
    ghost took: { Self → Self → List (ℤ × List ℕ) → Type 0 };

    /// It asks for no further row.
    ghost is_done: { Self → Type 0 } = { λ _. Unit {0} };

    /// Takes a place and the body there, and says whether it asks for another.
    fn visit(&mut self, place: i64, body: &[u8]) -> bool
        ensures took { (first : Self) (rows : List (ℤ × List ℕ)) → took first self.old rows
            → took first self.new (rows ++ (place, body.now) ∷ []) }
        ensures more { result ≡ false → is_done self.new };
}

/// What a visitor takes of the rows of a result.
pub(crate) trait TakeRow<V> {
    ghost use Rattle.sqlite_value.specs.Order.{Row};

    // Between the first state and the second, the visitor took what it takes of these rows, in this order.
    ghost took: { V → V → List Row → Type 0 };

    // It asks for no further row.
    ghost is_done: { V → Type 0 };

    /// Hands a row to the visitor, and says whether it asks for another.
    fn take(visitor: &mut V, row: &Row) -> bool
        ensures took { (first : V) (rows : List Row) → took first visitor.old rows
            → took first visitor.new (rows ++ row.now ∷ []) }
        ensures more { result ≡ false → is_done visitor.new };
}

/// The first value of each row is taken.
pub(crate) struct Bodies;

impl<V: Visit> TakeRow<V> for Bodies {
    ghost use Rattle.std.specs.Prelude.{map};
    ghost use Rattle.store_table.specs.Visit.{first_value};

    ghost took = { λ first now rows. V.took first now (map first_value rows) };

    ghost is_done = { λ v. V.is_done v };

    fn take(visitor: &mut V, row: &Row) -> bool {
        visitor.visit(bytes_at(row, 0))
    }
}

/// The place and the body of each row are taken.
pub(crate) struct PlacedBodies;

impl<V: VisitPlaced> TakeRow<V> for PlacedBodies {
    ghost use Rattle.std.specs.Prelude.{map};
    ghost use Rattle.store_table.specs.Visit.{placed};

    ghost took = { λ first now rows. V.took first now (map placed rows) };

    ghost is_done = { λ v. V.is_done v };

    fn take(visitor: &mut V, row: &Row) -> bool {
        visitor.visit(place_in(row), bytes_at(row, 1))
    }
}

/// Hands each row of a result to a visitor, until it asks for no more. One row is read at a time. True: all were taken.
pub(crate) fn visit_rows<S: Alter, V, T: TakeRow<V>>(
    conn: &mut Connection<S>,
    sql: &str,
    params: &[ValueRef<'_>],
    visitor: &mut V,
) -> Result<bool, Error>
    requires { IsSelect sql.now }
    ensures whole { HasCleanDisk (state S.Store conn.new) → T.took visitor.old visitor.old []
        → IfOk result (λ all. IsTrue all → TookRows (T.took visitor.old) visitor.new sql.now
        (bound params.now) (state S.Store conn.old) (state S.Store conn.new)) }
    ensures some { HasCleanDisk (state S.Store conn.new) → T.took visitor.old visitor.old []
        → TookSome (T.took visitor.old) visitor.new sql.now (bound params.now)
        (state S.Store conn.old) }
    ensures stopped { IfOk result (λ all. all ≡ false → T.is_done visitor.new) }
    ensures taken { T.took visitor.old visitor.old [] → (rows : List Row)
        × T.took visitor.old visitor.new rows }
    ensures read { HasCleanDisk (state S.Store conn.new)
        → ReadsRows (state S.Store conn.old) (state S.Store conn.new) result }
    ensures crash { AddsNothing (state S.Store conn.old) (state S.Store conn.new) }
{
    let mut rows = conn.query(sql, params)?;
    let mut wants = true;
    'rows: for _ in 0..u64::MAX {
        if !wants {
            return Ok(false);
        }
        let Some(row) = rows.next()? else {
            return Ok(true);
        };
        wants = T::take(visitor, row);
    }
    Err(Error::SqliteFailure(ErrorCode::TooBig))
}
