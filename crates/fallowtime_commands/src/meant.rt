//! The documents that a change by query means.

ghost use Rattle.std.specs.Prelude.{◌≡◌, [], false, IsTrue};
ghost use Rattle.store_table.specs.Crash.{AddsNothing};
ghost use Rattle.store_table.specs.Moves.{WasOpen};
ghost use Rattle.store_question.specs.Reads.{form_of};
ghost use Rattle.bson_store.specs.Calls.{KeepsIndexes, Relates, store_state};
ghost use Rattle.store_asked.specs.Asking.{AskedFrom};
ghost use Rattle.fallowtime_commands.specs.Asking.{AreChosen};

use bson_raw::RawDocument;
use bson_store::{Copies, Store, StoreError, Take};
use sqlite::Alter;
use std::alloc::Global;
use store_asked::take_answers;
use store_question::Question;

/// Whether no more documents are wanted: one is there, and only the first is meant.
fn is_enough(many: bool, bodies: &[Vec<u8>]) -> bool
    ensures enough { IsTrue result → (many ≡ false) × (bodies.now ≡ [] → ⊥) }
    ensures wanted { (IsTrue result → ⊥) → many ≡ false → bodies.now ≡ [] }
{
    !many && !bodies.is_empty()
}

/// Keeps the written forms of all documents that come, or of the first alone.
#[derive(Drop)]
pub struct Meant {
    pub copies: Copies,
    pub many: bool,
}

impl Take for Meant {
    ghost use Rattle.fallowtime_commands.specs.Asking.{MeansOf};

    ghost took = { λ first t out. MeansOf first t out };

    fn take(&mut self, document: RawDocument<'_>) -> Result<(), StoreError> {
        if is_enough(self.many, self.copies.bodies.as_slice()) {
            return Ok(());
        }
        self.copies.take(document)
    }

    fn is_done(&self) -> bool {
        is_enough(self.many, self.copies.bodies.as_slice())
    }
}

/// The written forms of the documents of the collection `name` that answer a question, in the collection's order: of all
/// of them, or of the first, which ends the reading.
///
/// Refused by BadName, Memory and Database.
pub(crate) fn find_meant<S: Alter + Drop>(
    alloc: Global,
    store: &mut Store<S>,
    name: &str,
    question: &Question,
    many: bool,
) -> Result<Vec<Vec<u8>>, StoreError>
    ensures moves { Relates S.Store store.old store.new
        (AskedFrom (AreChosen many) name.now (form_of question.now) result) }
    ensures open { WasOpen (store_state S.Store store.old)
        (store_state S.Store store.new) result }
    ensures indexes { KeepsIndexes store.old store.new }
    ensures crash { AddsNothing (store_state S.Store store.old) (store_state S.Store store.new) }
{
    let bodies = Vec::new(alloc);
    let copies = Copies { bodies, alloc };
    let meant = take_answers(alloc, store, name, question, Meant { copies, many })?;
    Ok(meant.copies.bodies)
}
