//! The documents that commands are answered with.

ghost use Rattle.std.specs.Prelude.{◌≡◌, IfOk, OnOk, codes, is_some, map, pos, string_bytes, unwrap_or};
ghost use Rattle.bson_base.specs.Value.{item, no_items};
ghost use Rattle.bson_model.specs.View.{content, items_of, pairs_of, view};
ghost use Rattle.fallowtime_messages.specs.Answers as answer;
ghost use Rattle.fallowtime_messages.specs.Answers.{after_changed, after_list};

use bson_base::DoubleBits;
use bson_model::{Array, Bson, Document};
use fallowtime_statements::plans::done;
use fallowtime_statements::{Code, put};
use std::alloc::{AllocError, Global};

/// The answer to `count`.
pub(crate) fn counts(alloc: Global, number: i64) -> Result<Document, AllocError>
    ensures { IfOk result (λ d. content d ≡ answer.counts number) }
{
    let mut told = Document::new(alloc);
    put(&mut told, alloc, "n", Bson::Int64(number))?;
    done(told, alloc)
}

/// The answer that tells the first batch of the find with this number, of this collection behind its database.
pub(crate) fn first_batch(
    alloc: Global,
    id: i64,
    namespace: String,
    documents: Array,
) -> Result<Document, AllocError>
    ensures { IfOk result (λ d. content d ≡ answer.batch (codes "firstBatch") id (string_bytes namespace) (items_of (map view documents.items))) }
{
    let mut cursor = Document::new(alloc);
    put(&mut cursor, alloc, "firstBatch", Bson::Array(documents))?;
    put(&mut cursor, alloc, "id", Bson::Int64(id))?;
    put(&mut cursor, alloc, "ns", Bson::String(namespace))?;
    let mut told = Document::new(alloc);
    put(&mut told, alloc, "cursor", Bson::Document(cursor))?;
    done(told, alloc)
}

/// The answer that tells a further batch of it.
pub(crate) fn next_batch(
    alloc: Global,
    id: i64,
    namespace: String,
    documents: Array,
) -> Result<Document, AllocError>
    ensures { IfOk result (λ d. content d ≡ answer.batch (codes "nextBatch") id (string_bytes namespace) (items_of (map view documents.items))) }
{
    let mut cursor = Document::new(alloc);
    put(&mut cursor, alloc, "nextBatch", Bson::Array(documents))?;
    put(&mut cursor, alloc, "id", Bson::Int64(id))?;
    put(&mut cursor, alloc, "ns", Bson::String(namespace))?;
    let mut told = Document::new(alloc);
    put(&mut told, alloc, "cursor", Bson::Document(cursor))?;
    done(told, alloc)
}

/// The answer that tells all documents in a first batch.
pub(crate) fn found(
    alloc: Global,
    namespace: String,
    documents: Array,
) -> Result<Document, AllocError>
    ensures { IfOk result (λ d. content d ≡ answer.found (string_bytes namespace) (items_of (map view documents.items))) }
{
    first_batch(alloc, 0, namespace, documents)
}

/// The answer to `killCursors`: the numbers of the finds that waited, and of those that didn't.
pub(crate) fn closed(alloc: Global, killed: Array, missing: Array) -> Result<Document, AllocError>
    ensures { IfOk result (λ d. content d ≡ answer.closed (items_of (map view killed.items)) (items_of (map view missing.items))) }
{
    let mut told = Document::new(alloc);
    put(&mut told, alloc, "cursorsKilled", Bson::Array(killed))?;
    put(&mut told, alloc, "cursorsNotFound", Bson::Array(missing))?;
    put(
        &mut told,
        alloc,
        "cursorsAlive",
        Bson::Array(Vec::new(alloc)),
    )?;
    put(
        &mut told,
        alloc,
        "cursorsUnknown",
        Bson::Array(Vec::new(alloc)),
    )?;
    done(told, alloc)
}

/// A group of that many.
pub(crate) fn group(alloc: Global, id: &Bson, number: i32) -> Result<Bson, AllocError>
    ensures { IfOk result (λ v. view v ≡ answer.group_of (view id.now) number) }
{
    let mut told = Document::new(alloc);
    put(&mut told, alloc, "_id", id.try_clone(alloc)?)?;
    put(&mut told, alloc, "n", Bson::Int32(number))?;
    Ok(Bson::Document(told))
}

/// The answer to `distinct`.
pub(crate) fn values(alloc: Global, items: Array) -> Result<Document, AllocError>
    ensures { IfOk result (λ d. content d ≡ answer.values (items_of (map view items.items))) }
{
    let mut told = Document::new(alloc);
    put(&mut told, alloc, "values", Bson::Array(items))?;
    done(told, alloc)
}

/// A collection, as `listCollections` tells it.
pub(crate) fn collection(alloc: Global, name: &str) -> Result<Bson, AllocError>
    ensures { IfOk result (λ v. view v ≡ answer.collection name.now) }
{
    let mut told = Document::new(alloc);
    put(
        &mut told,
        alloc,
        "name",
        Bson::String(String::from_str(alloc, name)?),
    )?;
    put(
        &mut told,
        alloc,
        "type",
        Bson::String(String::from_str(alloc, "collection")?),
    )?;
    put(
        &mut told,
        alloc,
        "options",
        Bson::Document(Document::new(alloc)),
    )?;
    Ok(Bson::Document(told))
}

/// What was done with the document that was found, if one was.
fn last(alloc: Global, removes: bool, is: bool) -> Result<Document, AllocError>
    ensures { IfOk result (λ d. content d ≡ answer.last removes is) }
{
    let mut told = Document::new(alloc);
    put(&mut told, alloc, "n", Bson::Int32(if is { 1 } else { 0 }))?;
    if !removes {
        put(&mut told, alloc, "updatedExisting", Bson::Boolean(is))?;
    }
    Ok(told)
}

/// The answer to `findAndModify`: the document that was found and changed, or null.
pub(crate) fn modified(
    alloc: Global,
    removes: bool,
    is: bool,
    value: Bson,
) -> Result<Document, AllocError>
    ensures { IfOk result (λ d. content d ≡ answer.modified removes is (view value)) }
{
    let mut told = Document::new(alloc);
    put(
        &mut told,
        alloc,
        "lastErrorObject",
        Bson::Document(last(alloc, removes, is)?),
    )?;
    put(&mut told, alloc, "value", value)?;
    done(told, alloc)
}

/// The answer to `findAndModify` that put a document in: the document, or null if it isn't wanted.
pub(crate) fn put_in(alloc: Global, id: &Bson, value: Bson) -> Result<Document, AllocError>
    ensures { IfOk result (λ d. content d ≡ answer.put_in (view id.now) (view value)) }
{
    let mut last = Document::new(alloc);
    put(&mut last, alloc, "n", Bson::Int32(1))?;
    put(&mut last, alloc, "updatedExisting", Bson::Boolean(false))?;
    put(&mut last, alloc, "upserted", id.try_clone(alloc)?)?;
    let mut told = Document::new(alloc);
    put(&mut told, alloc, "lastErrorObject", Bson::Document(last))?;
    put(&mut told, alloc, "value", value)?;
    done(told, alloc)
}

/// A document of a list that isn't written, or a change that isn't made: its place, and why.
pub(crate) fn write_error(
    alloc: Global,
    place: u64,
    code: Code,
    why: &str,
) -> Result<Bson, AllocError>
    ensures { IfOk result (λ v. view v ≡ answer.write_error (pos place) code why.now) }
{
    let Ok(place) = i32::try_from(place) else {
        return Err(AllocError);
    };
    let mut told = Document::new(alloc);
    put(&mut told, alloc, "index", Bson::Int32(place))?;
    put(&mut told, alloc, "code", Bson::Int32(code.number()))?;
    put(
        &mut told,
        alloc,
        "errmsg",
        Bson::String(String::from_str(alloc, why)?),
    )?;
    Ok(Bson::Document(told))
}

/// Tells how many documents are other ones now, if that is told.
fn put_changed(told: &mut Document, alloc: Global, changed: Option<i32>) -> Result<(), AllocError>
    ensures { OnOk result (pairs_of told.new ≡ after_changed changed (pairs_of told.old)) }
{
    match changed {
        Some(changed) => put(told, alloc, "nModified", Bson::Int32(changed)),
        None => Ok(()),
    }
}

/// Tells a list under a key, if it has something.
fn put_list(told: &mut Document, alloc: Global, key: &str, items: Array) -> Result<(), AllocError>
    ensures { OnOk result (pairs_of told.new ≡ after_list key.now items.items (pairs_of told.old)) }
{
    if items.as_slice().is_empty() {
        return Ok(());
    }
    put(told, alloc, key, Bson::Array(items))
}

/// A document that was put in as none answered: the place of its statement, and its `_id`.
pub(crate) fn upserted(alloc: Global, place: u64, id: &Bson) -> Result<Bson, AllocError>
    ensures { IfOk result (λ v. view v ≡ answer.upserted (pos place) (view id.now)) }
{
    let Ok(place) = i32::try_from(place) else {
        return Err(AllocError);
    };
    let mut told = Document::new(alloc);
    put(&mut told, alloc, "index", Bson::Int32(place))?;
    put(&mut told, alloc, "_id", id.try_clone(alloc)?)?;
    Ok(Bson::Document(told))
}

/// The answer to changes: of how many documents they were, how many of these are other ones now if that is told, which
/// were put in as none answered, and an error for each change that isn't made.
pub(crate) fn written(
    alloc: Global,
    number: i32,
    changed: Option<i32>,
    ids: Array,
    errors: Array,
) -> Result<Document, AllocError>
    ensures { IfOk result (λ d. content d ≡ answer.written (is_some changed) number (unwrap_or changed (pos 0)) (items_of (map view ids.items)) (items_of (map view errors.items))) }
{
    let mut told = Document::new(alloc);
    put(&mut told, alloc, "n", Bson::Int32(number))?;
    put_changed(&mut told, alloc, changed)?;
    put_list(&mut told, alloc, "upserted", ids)?;
    put_list(&mut told, alloc, "writeErrors", errors)?;
    done(told, alloc)
}

/// The answer if there is no room for another one.
pub(crate) fn no_room(alloc: Global) -> Result<Document, AllocError>
    ensures { IfOk result (λ d. content d ≡ answer.no_room) }
{
    let why = String::from_str(alloc, "no room for the answer")?;
    refused(alloc, why, Code::ExceededMemoryLimit)
}

/// The answer to `create` of a collection with so many documents: it is there if it has some.
pub(crate) fn made(alloc: Global, number: u64) -> Result<Document, AllocError>
    ensures { IfOk result (λ d. content d ≡ answer.made number) }
{
    if number == 0 {
        return done(Document::new(alloc), alloc);
    }
    let why = String::from_str(alloc, "create")?;
    refused(alloc, why, Code::NamespaceExists)
}

/// The answer to `drop` of a collection that had so many documents.
pub(crate) fn dropped(alloc: Global, namespace: String, number: u64) -> Result<Document, AllocError>
    ensures { IfOk result (λ d. content d ≡ answer.dropped (string_bytes namespace) number) }
{
    if number == 0 {
        return refused_as(alloc, "ns not found", Code::NamespaceNotFound);
    }
    let mut told = Document::new(alloc);
    put(&mut told, alloc, "nIndexesWas", Bson::Int32(1))?;
    put(&mut told, alloc, "ns", Bson::String(namespace))?;
    done(told, alloc)
}

/// The index of the `_id`, as `listIndexes` tells it.
fn id_index(alloc: Global) -> Result<Bson, AllocError>
    ensures { IfOk result (λ v. view v ≡ answer.id_index) }
{
    let mut key = Document::new(alloc);
    put(&mut key, alloc, "_id", Bson::Int32(1))?;
    let mut told = Document::new(alloc);
    put(&mut told, alloc, "v", Bson::Int32(2))?;
    put(&mut told, alloc, "key", Bson::Document(key))?;
    put(
        &mut told,
        alloc,
        "name",
        Bson::String(String::from_str(alloc, "_id_")?),
    )?;
    Ok(Bson::Document(told))
}

/// The same as the only item.
fn id_indexes(alloc: Global) -> Result<Array, AllocError>
    ensures { IfOk result (λ items. items_of (map view items.items) ≡ item answer.id_index no_items) }
{
    let mut items = Vec::new(alloc);
    let index = id_index(alloc)?;
    items.push(index)?;
    Ok(items)
}

/// The answer to `listIndexes` of a collection with so many documents.
pub(crate) fn indexes(alloc: Global, namespace: String, number: u64) -> Result<Document, AllocError>
    ensures { IfOk result (λ d. content d ≡ answer.indexes (string_bytes namespace) number) }
{
    if number == 0 {
        return refused_as(alloc, "ns does not exist", Code::NamespaceNotFound);
    }
    let items = id_indexes(alloc)?;
    found(alloc, namespace, items)
}

/// The answer to `dropIndexes` of a collection with so many documents: whether of all its indexes.
pub(crate) fn unindexed(alloc: Global, all: bool, number: u64) -> Result<Document, AllocError>
    ensures { IfOk result (λ d. content d ≡ answer.unindexed all number) }
{
    if number == 0 {
        return refused_as(alloc, "ns not found", Code::NamespaceNotFound);
    }
    if !all {
        return refused_as(alloc, "index not found", Code::IndexNotFound);
    }
    let mut told = Document::new(alloc);
    put(&mut told, alloc, "nIndexesWas", Bson::Int32(1))?;
    done(told, alloc)
}

/// The answer to a command that wasn't done, for a reason that is a text of its own.
pub(crate) fn refused_as(alloc: Global, why: &str, code: Code) -> Result<Document, AllocError>
    ensures { IfOk result (λ d. content d ≡ answer.refused why.now code) }
{
    let why = String::from_str(alloc, why)?;
    refused(alloc, why, code)
}

/// The answer to a command that wasn't done.
pub(crate) fn refused(alloc: Global, why: String, code: Code) -> Result<Document, AllocError>
    ensures { IfOk result (λ d. content d ≡ answer.refused (string_bytes why) code) }
{
    let mut told = Document::new(alloc);
    put(&mut told, alloc, "ok", Bson::Double(DoubleBits(0)))?;
    put(&mut told, alloc, "errmsg", Bson::String(why))?;
    put(&mut told, alloc, "code", Bson::Int32(code.number()))?;
    put(
        &mut told,
        alloc,
        "codeName",
        Bson::String(String::from_str(alloc, code.name())?),
    )?;
    Ok(told)
}
