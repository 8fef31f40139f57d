//! Indexes of collections on paths. They change no answer: a question that asks for a value at such a path reads fewer
//! documents.

ghost use Rattle.std.specs.Prelude.{◌≡◌, ◌↔◌, ◌≤ℤ◌, ℕ, List, IfSome, IsTrue, OnOk};
ghost use Rattle.sqlite.specs.State.{HasCleanDisk};
ghost use Rattle.store_question.specs.Filters.{path_of};
ghost use Rattle.store_model.specs.Filter.{Path};
ghost use Rattle.store_table.specs.Moves.{Stands, WasOpen};
ghost use Rattle.store_table.specs.Rows.{TableRow};
ghost use Rattle.store_table.specs.Crash.{AddsNothing};
ghost use Rattle.bson_store.specs.Calls.{AddsIndex, HasIndex, store_state, Relates};
ghost use Rattle.bson_store.specs.Questions.{Indexed};

use crate::error::fault_refusal;
use crate::indexed::Range;
use crate::store::{Store, good_name};
use sqlite::Alter;
use store_model::StoreError;

impl<S: Alter + Drop> Store<S> {
    /// Makes an index of the collection `name` on a path, if there is none. It reads the collection; and before that,
    /// once, all rows, if the file was new as it was opened. The index lasts until `drop_index` or until the store is
    /// closed: every change of the store is noted in it, except that a refusal of memory in the noting drops all
    /// indexes. A database that has other tables gets none.
    ///
    /// `find`, `count` and `project` read by it if the filter holds an equality at the path: the filter itself, one of
    /// an `And`, or each of an `Or`. Of several indexes that serve they go by the one with the fewest documents.
    ///
    /// Refused by BadName, Memory and Database.
    pub fn index(&mut self, name: &str, path: Vec<String>) -> Result<(), StoreError>
        ensures moves { Relates S.Store self.old self.new (Indexed name.now result) }
        ensures others { (n : List ℕ) (p : Path) → HasIndex self.old n p → HasIndex self.new n p }
        ensures only { HasCleanDisk (store_state S.Store self.new) → (docs : List TableRow)
            → Stands (store_state S.Store self.old) docs
            → AddsIndex self.old self.new name.now (path_of path.items) }
        ensures open { WasOpen (store_state S.Store self.old)
            (store_state S.Store self.new) result }
        ensures crash { AddsNothing (store_state S.Store self.old) (store_state S.Store self.new) }
    {
        let name = good_name(name)?;
        match self.table.index(name.as_str(), path) {
            Ok(()) => Ok(()),
            Err(fault) => Err(fault_refusal(fault)),
        }
    }

    /// Drops the index of the collection `name` on a path, if there is one.
    ///
    /// Refused by BadName, Memory and Database.
    pub fn drop_index(&mut self, name: &str, path: &[String]) -> Result<(), StoreError>
        ensures moves { Relates S.Store self.old self.new (Indexed name.now result) }
        ensures gone { OnOk result (HasIndex self.new name.now (path_of path.now) → ⊥) }
        ensures others { (n : List ℕ) (p : Path) → ((n ≡ name.now) × (p ≡ path_of path.now) → ⊥)
            → HasIndex self.old n p ↔ HasIndex self.new n p }
        ensures open { WasOpen (store_state S.Store self.old)
            (store_state S.Store self.new) result }
        ensures crash { AddsNothing (store_state S.Store self.old) (store_state S.Store self.new) }
    {
        let name = good_name(name)?;
        // It reads nothing, and is refused all the same once the connection is shut.
        match self.table.is_empty() {
            Ok(_) => {}
            Err(fault) => return Err(fault_refusal(fault)),
        }
        self.table.drop_index(name.as_str(), path);
        Ok(())
    }

    /// Whether there is an index of the collection `name` on a path.
    pub fn has_index(&self, name: &str, path: &[String]) -> bool
        ensures { IsTrue result ↔ HasIndex self.now name.now (path_of path.now) }
    {
        self.table.has_index(name, path)
    }

    /// The part (`indexed::part_of`) of the document that comes behind `count` others of those of the collection `name`
    /// that lie in a range, by an index on its path: from the least part on, or from the greatest on. None: no index is
    /// on the path, or there are no more than `count`. Documents whose way along the path meets an array or a decimal
    /// aren't counted.
    pub fn part_behind(
        &self,
        name: &str,
        range: &Range,
        count: usize,
        descending: bool,
    ) -> Option<i64>
        ensures { IfSome result (λ q. (range.now.low ≤ℤ q) × (q ≤ℤ range.now.high)) }
    {
        self.table.part_behind(name, range, count, descending)
    }
}
