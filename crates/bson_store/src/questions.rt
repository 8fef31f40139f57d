//! Questions to collections: which there are, and what a filter selects of one.

ghost use Rattle.std.specs.Prelude.{[]};
ghost use Rattle.store_question.specs.Filters.{filter_of, path_of};
ghost use Rattle.bson_store.specs.Fronts.{Passes};
ghost use Rattle.store_table.specs.Moves.{WasOpen};
ghost use Rattle.store_documents.specs.Names.{name_bytes};
ghost use Rattle.store_model.specs.State.{collections, count, find, on, project};
ghost use Rattle.store_table.specs.Crash.{AddsNothing};
ghost use Rattle.bson_store.specs.Calls.{Does, KeepsIndexes, store_state, Relates};
ghost use Rattle.bson_store.specs.Questions.{PassedFrom, Picked, PickedFrom, PickedOf, as_list, as_names};
ghost use Rattle.bson_store.specs.Refusals.{as_number, reply_by};

use crate::error::fault_refusal;
use crate::indexed::Front;
use crate::names::names_of;
use crate::picking::{Copies, Count, FilterVisitor, Projections, Take, select_all};
use crate::store::{Store, good_name};
use sqlite::Alter;
use store_documents::Name;
use store_model::StoreError;
use store_question::Filter;

impl<S: Alter + Drop> Store<S> {
    /// The names that hold a document, ascending by their bytes.
    ///
    /// Refused by Memory and Database.
    pub fn collections(&mut self) -> Result<Vec<String>, StoreError>
        ensures moves { Relates S.Store self.old self.new
            (Does collections (reply_by as_names result)) }
        ensures open { WasOpen (store_state S.Store self.old)
            (store_state S.Store self.new) result }
        ensures indexes { KeepsIndexes self.old self.new }
        ensures crash { AddsNothing (store_state S.Store self.old) (store_state S.Store self.new) }
    {
        match self.table.collections() {
            Ok(names) => names_of(self.alloc, names),
            Err(fault) => Err(fault_refusal(fault)),
        }
    }

    /// What is kept of the documents of a collection that come by a front and that a filter selects.
    fn pick_of<T: Take + Drop>(
        &mut self,
        name: Name<'_>,
        front: &Front<'_>,
        filter: &Filter,
        taker: T,
    ) -> Result<T, StoreError>
        requires { T.took taker taker [] }
        ensures moves { Relates S.Store self.old self.new
            (PickedOf (T.took taker) (name_bytes name.entry) (Passes front.now) (filter_of filter.now) result) }
        ensures open { WasOpen (store_state S.Store self.old)
            (store_state S.Store self.new) result }
        ensures indexes { KeepsIndexes self.old self.new }
        ensures crash { AddsNothing (store_state S.Store self.old) (store_state S.Store self.new) }
    {
        let mut visitor = FilterVisitor {
            filter,
            taker,
            fault: None,
        };
        match self.table.visit_asked(name.as_str(), front, &mut visitor) {
            Ok(_) => {}
            Err(fault) => return Err(fault_refusal(fault)),
        }
        let FilterVisitor {
            filter: _,
            taker,
            fault,
        } = visitor;
        match fault {
            None => Ok(taker),
            Some(error) => Err(error),
        }
    }

    /// What is kept of the documents of a collection that a filter selects.
    fn pick<T: Take + Drop>(
        &mut self,
        name: Name<'_>,
        filter: &Filter,
        taker: T,
    ) -> Result<T, StoreError>
        requires { T.took taker taker [] }
        ensures moves { Relates S.Store self.old self.new
            (Picked (T.took taker) (name_bytes name.entry) (filter_of filter.now) result) }
        ensures open { WasOpen (store_state S.Store self.old)
            (store_state S.Store self.new) result }
        ensures indexes { KeepsIndexes self.old self.new }
        ensures crash { AddsNothing (store_state S.Store self.old) (store_state S.Store self.new) }
    {
        let front = Front {
            filter,
            ranges: &[],
        };
        self.pick_of(name, &front, filter, taker)
    }

    /// Hands documents of the collection `name` to a taker, in the collection's order, and gives it back: each that
    /// passes the front, and maybe others, since what no index serves passes over none. One document is held at a time.
    ///
    /// Refused by BadName, Memory and Database, and as the taker refuses a document.
    pub fn take_passing<T: Take + Drop>(
        &mut self,
        name: &str,
        front: &Front<'_>,
        taker: T,
    ) -> Result<T, StoreError>
        requires { T.took taker taker [] }
        ensures moves { Relates S.Store self.old self.new
            (PassedFrom (T.took taker) name.now (Passes front.now) result) }
        ensures open { WasOpen (store_state S.Store self.old)
            (store_state S.Store self.new) result }
        ensures indexes { KeepsIndexes self.old self.new }
        ensures crash { AddsNothing (store_state S.Store self.old) (store_state S.Store self.new) }
    {
        let name = good_name(name)?;
        let everything = select_all(self.alloc);
        self.pick_of(name, front, &everything, taker)
    }

    /// Hands the documents of the collection `name` that a filter selects to a taker, in the collection's order, and gives
    /// it back. One document is held at a time.
    ///
    /// Refused by BadName, Memory and Database, and as the taker refuses a document.
    pub fn take_selected<T: Take + Drop>(
        &mut self,
        name: &str,
        filter: &Filter,
        taker: T,
    ) -> Result<T, StoreError>
        requires { T.took taker taker [] }
        ensures moves { Relates S.Store self.old self.new
            (PickedFrom (T.took taker) name.now (filter_of filter.now) result) }
        ensures open { WasOpen (store_state S.Store self.old)
            (store_state S.Store self.new) result }
        ensures indexes { KeepsIndexes self.old self.new }
        ensures crash { AddsNothing (store_state S.Store self.old) (store_state S.Store self.new) }
    {
        let name = good_name(name)?;
        self.pick(name, filter, taker)
    }

    /// The written forms of the documents of the collection `name` that a filter selects, in the collection's order. A
    /// name without documents has none. Besides the result, one document is held at a time.
    ///
    /// Refused by BadName, Memory and Database.
    pub fn find(&mut self, name: &str, filter: &Filter) -> Result<Vec<Vec<u8>>, StoreError>
        ensures moves { Relates S.Store self.old self.new
            (Does (on name.now (find (filter_of filter.now))) (reply_by as_list result)) }
        ensures open { WasOpen (store_state S.Store self.old)
            (store_state S.Store self.new) result }
        ensures indexes { KeepsIndexes self.old self.new }
        ensures crash { AddsNothing (store_state S.Store self.old) (store_state S.Store self.new) }
    {
        let name = good_name(name)?;
        let bodies = Vec::new(self.alloc);
        let alloc = self.alloc;
        let copies = self.pick(name, filter, Copies { bodies, alloc })?;
        Ok(copies.bodies)
    }

    /// How many documents of the collection `name` a filter selects. One document is held at a time.
    ///
    /// Refused by BadName, Memory and Database.
    pub fn count(&mut self, name: &str, filter: &Filter) -> Result<u64, StoreError>
        ensures moves { Relates S.Store self.old self.new
            (Does (on name.now (count (filter_of filter.now))) (reply_by as_number result)) }
        ensures open { WasOpen (store_state S.Store self.old)
            (store_state S.Store self.new) result }
        ensures indexes { KeepsIndexes self.old self.new }
        ensures crash { AddsNothing (store_state S.Store self.old) (store_state S.Store self.new) }
    {
        let name = good_name(name)?;
        let count = self.pick(name, filter, Count { number: 0 })?;
        Ok(count.number)
    }

    /// For each document of the collection `name` that a filter selects, in the collection's order, a document of its
    /// top elements with a listed key, in their own order. Besides the result, one document is held at a time.
    ///
    /// Refused by BadName, Memory and Database.
    pub fn project(
        &mut self,
        name: &str,
        filter: &Filter,
        keys: &[String],
    ) -> Result<Vec<Vec<u8>>, StoreError>
        ensures moves { Relates S.Store self.old self.new
            (Does (on name.now (project (filter_of filter.now) (path_of keys.now)))
            (reply_by as_list result)) }
        ensures open { WasOpen (store_state S.Store self.old)
            (store_state S.Store self.new) result }
        ensures indexes { KeepsIndexes self.old self.new }
        ensures crash { AddsNothing (store_state S.Store self.old) (store_state S.Store self.new) }
    {
        let name = good_name(name)?;
        let projections = Projections {
            keys,
            bodies: Vec::new(self.alloc),
            alloc: self.alloc,
        };
        let taken = self.pick(name, filter, projections)?;
        Ok(taken.bodies)
    }
}
