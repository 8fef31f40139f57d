//! A request that only reads, answered from the pages of a file.

ghost use Rattle.std.specs.Prelude.{◌≡◌, IfOk, IfSome, IsTrue, None};
ghost use Rattle.bson_base.specs.Device.{CanRefuse};
ghost use Rattle.sqlite_wal.specs.Files.{seen_image};
ghost use Rattle.store_table.specs.Snapshot.{is_clean_of};
ghost use Rattle.store_model.specs.State.{bytes, export, on};
ghost use Rattle.bson_store.specs.Calls.{Does};
ghost use Rattle.store_asked.specs.Reads.{OfFiles, Reads, Stays};
ghost use Rattle.fallowtime_commands.specs.Performing.{IsAnswerTo, Performs};
ghost use Rattle.fallowtime_commands.specs.Printing.{IsRead, Tells};
ghost use Rattle.fallowtime_requests.specs.declared.request.Request.TheVariants.{Check};

use crate::aggregating::aggregate_in_pages;
use crate::answer::{Answer, document, documents, names, number, values};
use crate::asking::count_in_pages;
use crate::differing::distinct_in_pages;
use crate::executing::print_outcome;
use crate::printing::Form;
use crate::refusal::Refusal;
use crate::wanting::look_up_wanted;
use bson_base::Sink;
use bson_store::{ErrorKind, StoreError};
use fallowtime_requests::Request;
use sqlite_disk::{Disk, Files};
use sqlite_pages::Pages;
use std::alloc::Global;
use store_asked::{ReadOnlyStore, open_files};
use store_table::pages::Snapshot;

/// Whether a refusal is one for want of memory, or by what the pages hold.
fn is_untold(error: &StoreError) -> bool {
    matches!(error.kind, ErrorKind::Memory | ErrorKind::Database)
}

/// What pages told.
fn told(outcome: Result<Answer, StoreError>) -> Option<Result<Answer, StoreError>>
    ensures { IfSome result (λ o. o ≡ outcome) }
{
    match &outcome {
        Err(error) if is_untold(error) => None,
        _ => Some(outcome),
    }
}

/// What is requested of the collection `name`, from the pages of a store. None of a request that changes something, or
/// that is to test all; and none if the pages don't tell: if it is refused by Memory or Database.
fn ask<P: Pages + Drop>(
    alloc: Global,
    store: &mut ReadOnlyStore<P>,
    name: &str,
    request: &Request<'_>,
) -> Option<Result<Answer, StoreError>>
    ensures reads { IfSome result (λ outcome. Reads P.Pages store.old store.new
        (Performs name.now request.now outcome)) }
    ensures shape { IfSome result (λ outcome. IfOk outcome (IsAnswerTo request.now)) }
    ensures read { IfSome result (λ outcome. IfOk outcome IsRead) }
    ensures stays { Stays P.Pages store.old store.new }
    ensures whole { request.now ≡ Check → result ≡ None }
{
    match request {
        Request::Get(id) => told(document(store.get_raw(name, id))),
        Request::Find(question, wanted) => {
            told(documents(look_up_wanted(alloc, store, name, question, wanted)))
        }
        Request::Count(question, part) => {
            told(number(count_in_pages(alloc, store, name, question, part)))
        }
        Request::Collections => told(names(store.collections())),
        Request::Distinct(path, question, counts) => {
            let outcome = distinct_in_pages(alloc, store, name, question, path.as_slice());
            told(values(outcome, *counts))
        }
        Request::Aggregate(question, stages) => {
            told(aggregate_in_pages(alloc, store, name, question, stages.as_slice()))
        }
        _ => None,
    }
}

/// What is requested of the collection `name` in the store that two files hold, and the pages in which it was found.
/// None of a request that changes something, or that is to test all; and none if pages alone don't tell.
pub fn look_up<D: Disk + Drop>(
    alloc: Global,
    files: Files<D>,
    name: &str,
    request: &Request<'_>,
) -> Option<(Result<Answer, StoreError>, Snapshot<D>)>
    requires log_usable { IsTrue (D.Disk.is_usable files.log) }
    requires db_usable { IsTrue (D.Disk.is_usable files.db) }
    // Whatever database the files hold, and whatever rows it has: this is what the store's step returns.
    ensures performs { IfSome result (λ r. IsTrue (is_clean_of r.1)
        → OfFiles (seen_image D.Disk files.log files.db) (Performs name.now request.now r.0)) }
    ensures shape { IfSome result (λ r. IfOk r.0 (IsAnswerTo request.now)) }
    ensures read { IfSome result (λ r. IfOk r.0 IsRead) }
    // What is to test all is never told.
    ensures whole { request.now ≡ Check → result ≡ None }
{
    let Ok(Some(mut store)) = open_files(alloc, files) else {
        return None;
    };
    let outcome = ask(alloc, &mut store, name, request)?;
    Some((outcome, store.close()))
}

/// The written documents of the collection `name` in the store that two files hold, one after the other, and the pages
/// in which they were found. None if the name is bad, or pages alone don't tell.
pub fn export_all<D: Disk + Drop>(
    alloc: Global,
    files: Files<D>,
    name: &str,
) -> Option<(Vec<u8>, Snapshot<D>)>
    requires log_usable { IsTrue (D.Disk.is_usable files.log) }
    requires db_usable { IsTrue (D.Disk.is_usable files.db) }
    ensures { IfSome result (λ r. IsTrue (is_clean_of r.1)
        → OfFiles (seen_image D.Disk files.log files.db) (Does (on name.now export) (bytes r.0.items))) }
{
    let Ok(Some(mut store)) = open_files(alloc, files) else {
        return None;
    };
    match store.export(name) {
        Ok(documents) => Some((documents, store.close())),
        Err(_) => None,
    }
}

/// Prints what was looked up for a request.
///
/// Refused as the request was, and then nothing is printed; or as `print` is.
#[tactic(auto, using(crate::proofs::LookLemmas::no_id))]
pub fn print_found<O: Sink>(
    alloc: Global,
    request: &Request<'_>,
    outcome: Result<Answer, StoreError>,
    form: Form,
    output: &mut O,
) -> Result<(), Refusal>
    requires sink { CanRefuse (O.tally output.old) }
    requires read { IfOk outcome IsRead }
    ensures { Tells form outcome (O.tally output.old) (O.tally output.new) result }
{
    print_outcome(alloc, request, outcome, "", form, output)
}
