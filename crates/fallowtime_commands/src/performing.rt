//! A request, done over a store.

ghost use Rattle.std.specs.Prelude.{IfOk, OnOk};
ghost use Rattle.store_table.specs.Moves.{WasOpen};
ghost use Rattle.bson_store.specs.Calls.{store_state, Relates};
ghost use Rattle.fallowtime_commands.specs.Left.{LeavesRequest};
ghost use Rattle.fallowtime_commands.specs.Performing.{ChangesNothing, Drops, IsAnswerTo, Performs, reply_of};

use crate::aggregating::aggregate;
use crate::altering::alter;
use crate::answer::{Answer, document, documents, flag, inserted, names, nothing, number, values};
use crate::asking::count_part;
use crate::changing::change;
use crate::differing::distinct;
use crate::finding::find_and_change;
use crate::importing::import;
use crate::setting::set;
use crate::storing::{insert, put, replace};
use crate::total::total;
use crate::transferring::transfer;
use crate::upserting::upsert;
use crate::wanting::find_wanted;
use bson_store::{Bson, Store, StoreError};
use fallowtime_requests::Request;
use sqlite::Alter;
use std::alloc::Global;
use std::mem::replace as take;

/// Does what a request that only reads asks of the collection `name`.
///
/// Refused as the store's call for it is; `Aggregate` as `aggregate`.
fn perform_reading<S: Alter + Drop>(
    alloc: Global,
    store: &mut Store<S>,
    name: &str,
    request: &Request<'_>,
) -> Result<Answer, StoreError>
    requires { ChangesNothing request.now }
    ensures moves { Relates S.Store store.old store.new
        (Performs name.now request.now result) }
    ensures open { WasOpen (store_state S.Store store.old) (store_state S.Store store.new) result }
    ensures crash { LeavesRequest name.now request.now (reply_of result)
        (store_state S.Store store.old) (store_state S.Store store.new) }
    ensures shape { IfOk result (IsAnswerTo request.now) }
    ensures gone { OnOk result (Drops store.new name.now request.now) }
{
    match request {
        Request::Get(id) => document(store.get_raw(name, id)),
        Request::Find(question, wanted) => {
            documents(find_wanted(alloc, store, name, question, wanted))
        }
        Request::Count(question, part) => { number(count_part(alloc, store, name, question, part)) }
        Request::Distinct(path, question, counts) => {
            values(
                distinct(alloc, store, name, question, path.as_slice()),
                *counts,
            )
        }
        Request::Aggregate(question, stages) => {
            aggregate(alloc, store, name, question, stages.as_slice())
        }
        Request::Collections => names(store.collections()),
        Request::Check => number(total(alloc, store)),
        _ => unreachable!(),
    }
}

/// Does what is requested of the collection `name`: the call of the store for it. A value that is set, and the path of an
/// index that is made, are taken out of the request.
///
/// Refused as that call is: for `Insert` and `Replace`, in this order, by BadName; TooDeep, Nul, NoId and TooLong; and
/// then by DuplicateId and Places, or by NotFound; `Put` by neither DuplicateId nor NotFound; `Set` as `set`, whose
/// value keeps the order of its keys; `Alter` as `alter`, `Change` as `change`, `Upsert` as `upsert`, and `FindAndChange` as
/// `find_and_change`; `Aggregate` as `aggregate`; `Import` as `import`; `Transfer` as `transfer`; `Index` and
/// `DropIndex` as `index` and `drop_index`.
pub fn perform<S: Alter + Drop>(
    alloc: Global,
    store: &mut Store<S>,
    name: &str,
    request: &mut Request<'_>,
) -> Result<Answer, StoreError>
    ensures moves { Relates S.Store store.old store.new
        (Performs name.now request.old result) }
    ensures open { WasOpen (store_state S.Store store.old) (store_state S.Store store.new) result }
    ensures crash { LeavesRequest name.now request.old (reply_of result)
        (store_state S.Store store.old) (store_state S.Store store.new) }
    ensures shape { IfOk result (IsAnswerTo request.old) }
    ensures gone { OnOk result (Drops store.new name.now request.old) }
{
    match request {
        Request::Insert(id, given) => inserted(id, insert(alloc, store, name, given)),
        Request::Put(given) => nothing(put(alloc, store, name, given)),
        Request::Replace(given) => nothing(replace(alloc, store, name, given)),
        Request::Set(id, key, value) => {
            let value = take(value, Bson::Null);
            nothing(set(alloc, store, name, id, key, value))
        }
        Request::Unset(id, key) => flag(store.unset(name, id, key)),
        Request::Alter(id, steps, told) => {
            alter(alloc, store, name, id, steps.as_slice(), *told)
        }
        Request::Change(question, work, many) => {
            change(alloc, store, name, question, work, *many)
        }
        Request::Upsert(question, work, many, otherwise) => {
            upsert(alloc, store, name, question, work, *many, otherwise)
        }
        Request::Remove(id) => nothing(store.remove(name, id)),
        Request::FindAndChange(question, wanted, work) => {
            find_and_change(alloc, store, name, question, wanted, work)
        }
        Request::Import(stream, existing) => {
            import(alloc, store, name, stream.as_slice(), *existing)
        }
        Request::Transfer(how) => transfer(alloc, store, name, *how),
        Request::Index(path) => {
            let path = take(path, Vec::new(alloc));
            nothing(store.index(name, path))
        }
        Request::DropIndex(path) => nothing(store.drop_index(name, path.as_slice())),
        _ => perform_reading(alloc, store, name, request),
    }
}
