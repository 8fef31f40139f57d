//! The documents that answer a question, as they are after the changes of a draft, handed to a taker.

ghost use Rattle.std.specs.Prelude.{◌≡◌, ◌++◌, ◌∷◌, [], IfErr, IfOk, OnOk, map};
ghost use Rattle.bson_base.specs.Value.{Members};
ghost use Rattle.bson_bytes.specs.Encode.{encode};
ghost use Rattle.bson_store.specs.Calls.{KeepsIndexes, Relates, store_state};
ghost use Rattle.bson_store.specs.Export.{bytes_of_each};
ghost use Rattle.bson_store.specs.Refusals.{IsDenied};
ghost use Rattle.store_asked.specs.Asking.{AskedDrafted};
ghost use Rattle.store_model.specs.Reading.{Documents};
ghost use Rattle.store_model.specs.State.{AreKept, IsKept};
ghost use Rattle.store_question.specs.Reads.{form_of};
ghost use Rattle.store_table.specs.Crash.{AddsNothing};
ghost use Rattle.store_table.specs.Moves.{WasOpen};

use crate::answering::Answering;
use bson_raw::RawDocument;
use bson_store::{DraftedEdits, ErrorKind, Store, StoreError, Take, drafted_bodies};
use sqlite::Alter;
use std::alloc::Global;
use store_question::Question;

/// Hands the document of a body to a taker.
fn take_body<T: Take>(taker: &mut T, body: &[u8]) -> Result<(), StoreError>
    ensures took { (first : T) (out : Documents) (d : Members) → IsKept d → body.now ≡ encode d
        → T.took first taker.old out → OnOk result (T.took first taker.new (out ++ d ∷ [])) }
    ensures denied { IfErr result IsDenied }
{
    let Ok(document) = RawDocument::from_bytes(body) else {
        // No store wrote such a body.
        return Err(StoreError::from(ErrorKind::Database));
    };
    taker.take(document)
}

/// Hands the documents of bodies to a taker, one after the other until it is done, and gives it back.
fn take_bodies<T: Take + Drop>(bodies: &[Vec<u8>], taker: T) -> Result<T, StoreError>
    requires { T.took taker taker [] }
    ensures took { (ds : Documents) → AreKept ds → bytes_of_each bodies.now ≡ map encode ds
        → IfOk result (λ t. T.took taker t ds) }
    ensures denied { IfErr result IsDenied }
{
    let mut taker = taker;
    for body in bodies {
        if taker.is_done() {
            return Ok(taker);
        }
        take_body(&mut taker, body.as_slice())?;
    }
    Ok(taker)
}

/// Hands the documents of the collection `name` that answer a question, as they are after the changes of a draft, to a
/// taker, in the collection's order, and gives it back. All bodies of the collection are held meanwhile.
///
/// Refused by BadName, Memory and Database, and as the taker refuses a document.
pub fn take_drafted<S: Alter + Drop, T: Take + Drop>(
    alloc: Global,
    store: &mut Store<S>,
    edits: &DraftedEdits,
    name: &str,
    question: &Question,
    taker: T,
) -> Result<T, StoreError>
    requires { T.took taker taker [] }
    ensures moves { Relates S.Store store.old store.new
        (AskedDrafted edits.now.draft (T.took taker) name.now (form_of question.now) result) }
    ensures open { WasOpen (store_state S.Store store.old)
        (store_state S.Store store.new) result }
    ensures indexes { KeepsIndexes store.old store.new }
    ensures crash { AddsNothing (store_state S.Store store.old) (store_state S.Store store.new) }
{
    let bodies = drafted_bodies(store, edits, name)?;
    let answering = Answering {
        alloc,
        question,
        taker,
    };
    let taken = take_bodies(bodies.as_slice(), answering)?;
    Ok(taken.taker)
}
