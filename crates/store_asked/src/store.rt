//! A store that only reads.

ghost use Rattle.std.specs.Prelude.{◌≡◌, [], MatchResult};
ghost use Rattle.bson_model.specs.View.{view};
ghost use Rattle.store_question.specs.Filters.{filter_of};
ghost use Rattle.store_documents.specs.Names.{name_bytes};
ghost use Rattle.store_model.specs.State.{IsName, collections, count, export, find, get_raw, on};
ghost use Rattle.store_model.specs.Refusal.{refusal};
ghost use Rattle.store_model.specs.declared.error.ErrorKind.TheVariants.{BadName};
ghost use Rattle.bson_store.specs.Calls.{Does};
ghost use Rattle.bson_store.specs.Questions.{Picked, PickedFrom, as_list, as_names};
ghost use Rattle.bson_store.specs.Refusals.{as_bytes, as_number, reply_by};
ghost use Rattle.store_asked.specs.Reads.{FindsBody, Reads, Stays, pages_under};

use crate::joining::Joined;
use crate::names::texts_of;
use crate::refusing::{check_row, refusal_of, refusal_of_error};
use crate::selecting::{SelectVisitor, TakeRow};
use bson_meaning::KeyError;
use bson_model::Bson;
use bson_store::{Copies, Count};
use sqlite_btree::Scratch;
use sqlite_pages::Pages;
use std::alloc::Global;
use store_documents::{Name, key_of_id};
use store_model::{ErrorKind, StoreError};
use store_question::Filter;
use store_table::pages::{Roots, body_of, collections as names_in, visit, visit_bodies};

/// Whether a store may have an id under another key than that of today: one from before the two zeros of a double meant
/// the same.
fn may_have_older_key(id: &Bson) -> bool {
    matches!(
        id,
        Bson::Double(_) | Bson::Document(_) | Bson::Array(_) | Bson::JavaScriptCodeWithScope(_)
    )
}

/// The name of a collection. BadName if it can't be one.
fn good_name(name: &str) -> Result<Name<'_>, StoreError>
    ensures { MatchResult result (λ n. (name_bytes n ≡ name.now) × IsName name.now)
        (λ e. (e ≡ refusal BadName) × (IsName name.now → ⊥)) }
{
    match Name::new(name) {
        Some(name) => Ok(name),
        None => Err(StoreError::from(ErrorKind::BadName)),
    }
}

/// A store that only reads, over the pages of a file that has its table. Nothing of the file is tested beforehand: what
/// its calls return is the store's step if the pages hold rows of a store, and a row that no store can have written is
/// refused by the call that hands it out, as Database. So is whatever pages alone don't tell.
#[derive(Drop)]
pub struct ReadOnlyStore<P> {
    pub(crate) pages: P,
    pub(crate) roots: Roots,
    pub(crate) scratch: Scratch,
    pub(crate) alloc: Global,
}

impl<P: Pages + Drop> ReadOnlyStore<P> {
    /// Gives the pages back.
    pub fn close(self) -> P
        ensures { result ≡ pages_under self }
    {
        let ReadOnlyStore {
            pages,
            roots: _,
            scratch: _,
            alloc: _,
        } = self;
        pages
    }

    /// The body of the document of a collection whose `_id` means the same as `id`.
    fn body_with_id(&mut self, name: Name<'_>, id: &Bson) -> Result<Option<Vec<u8>>, StoreError>
        ensures reads { Reads P.Pages self.old self.new
            (FindsBody (name_bytes name.entry) (view id.now) result) }
        ensures stays { Stays P.Pages self.old self.new }
    {
        if may_have_older_key(id) {
            return Err(StoreError::from(ErrorKind::Database));
        }
        let key = match key_of_id(self.alloc, id) {
            Ok(key) => key,
            // No document has an id that can't be written.
            Err(KeyError::NotPlain) => return Ok(None),
            Err(KeyError::TooLong) => return Ok(None),
            Err(KeyError::Memory) => return Err(StoreError::from(ErrorKind::Memory)),
        };
        let collection = name.as_str().as_bytes();
        let found = body_of(
            self.alloc,
            &mut self.pages,
            &mut self.scratch,
            self.roots,
            collection,
            key.as_slice(),
        );
        match found {
            Ok(None) => Ok(None),
            Ok(Some(body)) => {
                check_row(self.alloc, collection, key.as_slice(), body.as_slice())?;
                Ok(Some(body))
            }
            Err(fault) => Err(refusal_of(fault)),
        }
    }

    /// What is kept of the documents of a collection that a filter selects.
    fn pick<T: TakeRow + Drop>(
        &mut self,
        name: Name<'_>,
        filter: &Filter,
        taker: T,
    ) -> Result<T, StoreError>
        requires { T.took taker taker [] }
        ensures reads { Reads P.Pages self.old self.new
            (Picked (T.took taker) (name_bytes name.entry) (filter_of filter.now) result) }
        ensures stays { Stays P.Pages self.old self.new }
    {
        let mut visitor = SelectVisitor {
            filter,
            taker,
            alloc: self.alloc,
            fault: None,
        };
        let visited = visit(
            self.alloc,
            &mut self.pages,
            &mut self.scratch,
            self.roots,
            name.as_str().as_bytes(),
            &mut visitor,
        );
        match visited {
            Ok(_) => {}
            Err(error) => return Err(refusal_of_error(error)),
        }
        let SelectVisitor {
            filter: _,
            taker,
            alloc: _,
            fault,
        } = visitor;
        match fault {
            None => Ok(taker),
            Some(error) => Err(error),
        }
    }

    /// Hands the documents of the collection `name` that a filter selects to a taker, in the collection's order, and gives
    /// it back.
    ///
    /// Refused by BadName, Memory and Database, and as the taker refuses a document: also if what is looked at isn't framed
    /// as a document, and by Database, if the taker tests the row of a document and no store can have written it.
    pub fn take_selected<T: TakeRow + Drop>(
        &mut self,
        name: &str,
        filter: &Filter,
        taker: T,
    ) -> Result<T, StoreError>
        requires { T.took taker taker [] }
        ensures reads { Reads P.Pages self.old self.new
            (PickedFrom (T.took taker) name.now (filter_of filter.now) result) }
        ensures stays { Stays P.Pages self.old self.new }
    {
        let name = good_name(name)?;
        self.pick(name, filter, taker)
    }

    /// The written form of the document of the collection `name` whose `_id` means the same as `id`.
    ///
    /// Refused by BadName, NotFound, Memory and Database: also of an id that a store may have under a key from before the
    /// two zeros of a double meant the same, and of a row that no store can have written.
    pub fn get_raw(&mut self, name: &str, id: &Bson) -> Result<Vec<u8>, StoreError>
        ensures reads { Reads P.Pages self.old self.new
            (Does (on name.now (get_raw (view id.now))) (reply_by as_bytes result)) }
        ensures stays { Stays P.Pages self.old self.new }
    {
        let name = good_name(name)?;
        let Some(body) = self.body_with_id(name, id)? else {
            return Err(StoreError::from(ErrorKind::NotFound));
        };
        Ok(body)
    }

    /// The written forms of the documents of the collection `name` that a filter selects, in the collection's order.
    ///
    /// Refused by BadName, Memory and Database: also if no store can have written a row that is selected, or what is looked
    /// at isn't framed as a document.
    pub fn find(&mut self, name: &str, filter: &Filter) -> Result<Vec<Vec<u8>>, StoreError>
        ensures reads { Reads P.Pages self.old self.new
            (Does (on name.now (find (filter_of filter.now))) (reply_by as_list result)) }
        ensures stays { Stays P.Pages self.old self.new }
    {
        let name = good_name(name)?;
        let bodies = Vec::new(self.alloc);
        let alloc = self.alloc;
        let copies = self.pick(name, filter, Copies { bodies, alloc })?;
        Ok(copies.bodies)
    }

    /// How many documents of the collection `name` a filter selects.
    ///
    /// Refused by BadName, Memory and Database: also if what is looked at isn't framed as a document.
    pub fn count(&mut self, name: &str, filter: &Filter) -> Result<u64, StoreError>
        ensures reads { Reads P.Pages self.old self.new
            (Does (on name.now (count (filter_of filter.now))) (reply_by as_number result)) }
        ensures stays { Stays P.Pages self.old self.new }
    {
        let name = good_name(name)?;
        let count = self.pick(name, filter, Count { number: 0 })?;
        Ok(count.number)
    }

    /// The written documents of the collection `name`, one after the other.
    ///
    /// Refused by BadName, Memory and Database: also if one isn't framed as a document.
    pub fn export(&mut self, name: &str) -> Result<Vec<u8>, StoreError>
        ensures reads { Reads P.Pages self.old self.new
            (Does (on name.now export) (reply_by as_bytes result)) }
        ensures stays { Stays P.Pages self.old self.new }
    {
        let name = good_name(name)?;
        let joined = Joined {
            bytes: Vec::new(self.alloc),
            fault: None,
        };
        let (joined, visited) = visit_bodies(
            self.alloc,
            &mut self.pages,
            &mut self.scratch,
            self.roots,
            name.as_str().as_bytes(),
            joined,
        );
        match visited {
            Ok(_) => {}
            Err(fault) => return Err(refusal_of(fault)),
        }
        let Joined { bytes, fault } = joined;
        match fault {
            None => Ok(bytes),
            Some(error) => Err(error),
        }
    }

    /// The names that hold a document, ascending by their bytes.
    ///
    /// Refused by Memory and Database: also if a name isn't a text.
    pub fn collections(&mut self) -> Result<Vec<String>, StoreError>
        ensures reads { Reads P.Pages self.old self.new
            (Does collections (reply_by as_names result)) }
        ensures stays { Stays P.Pages self.old self.new }
    {
        let found = names_in(self.alloc, &mut self.pages, &mut self.scratch, self.roots);
        match found {
            Ok(names) => texts_of(self.alloc, names),
            Err(fault) => Err(refusal_of(fault)),
        }
    }
}
