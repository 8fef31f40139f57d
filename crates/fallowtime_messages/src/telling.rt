//! The documents that tell what the store returned.

ghost use Rattle.std.specs.Prelude.{◌≡◌, ◌++◌, IfOk, Ok, OnOk, Some, false, map, pos, string_bytes};
ghost use Rattle.std.specs.List.{AllZip};
ghost use Rattle.std.specs.Option.{option_map};
ghost use Rattle.bson_base.specs.Value.{no_items};
ghost use Rattle.bson_bytes.specs.Spells.{Means};
ghost use Rattle.bson_model.specs.View.{content, items_of, view};
ghost use Rattle.bson_model.specs.declared.bson.Bson.{Bson as AnyValue};
ghost use Rattle.fallowtime_commands.specs.declared.answer.Answer.TheVariants as answer;
ghost use Rattle.fallowtime_messages.specs.Answers.{counted};
ghost use Rattle.fallowtime_messages.specs.Answers as told;
ghost use Rattle.fallowtime_messages.specs.Outcomes.{IsMeant, Tells, TellsWritten};
ghost use Rattle.fallowtime_statements.specs.declared.plans.asked.Way.TheVariants as ways;
ghost use Rattle.store_pipeline.specs.Counted.{value_in};

use crate::answers::{
    collection, counts, dropped, found, group, indexes, made, modified, refused, unindexed, values,
    written,
};
use crate::writing::Written;
use bson_model::{Array, Bson, Document};
use bson_raw::RawDocument;
use bson_store::StoreError;
use fallowtime_commands::{Answer, update_name};
use fallowtime_statements::plans::Way;
use fallowtime_statements::{code_of, update_code};
use std::alloc::{AllocError, Global};
use store_pipeline::sorted::Counted;
use store_update::UpdateError;

/// How many of those that are found are counted.
fn counted(skip: u64, most: u64, number: u64) -> u64
    ensures { result ≡ counted skip most number }
{
    let left = number.saturating_sub(skip);
    if left < most { left } else { most }
}

/// A number as one of 64 bits with a sign. None is greater.
fn signed(number: u64) -> Result<i64, AllocError>
    ensures { IfOk result (λ n. n ≡ pos number) }
{
    match i64::try_from(number) {
        Ok(number) => Ok(number),
        Err(_) => Err(AllocError),
    }
}

/// A number as one of 32 bits with a sign, if it is none that is greater.
fn short(number: u64) -> Result<i32, AllocError>
    ensures { IfOk result (λ n. n ≡ pos number) }
{
    match i32::try_from(number) {
        Ok(number) => Ok(number),
        Err(_) => Err(AllocError),
    }
}

/// The document that bytes mean. It fails for want of memory, and for bytes that mean none, which no store returns.
fn meant(alloc: Global, body: &[u8]) -> Result<Document, AllocError>
    ensures { IfOk result (λ d. Means body.now (content d)) }
{
    let Ok(raw) = RawDocument::from_bytes(body) else {
        return Err(AllocError);
    };
    match raw.to_document(alloc) {
        Ok(document) => Ok(document),
        Err(_) => Err(AllocError),
    }
}

/// The document that bytes mean, as an item.
pub(crate) fn item_of(alloc: Global, body: &[u8]) -> Result<Bson, AllocError>
    ensures { IfOk result (λ v. IsMeant body.now (view v)) }
{
    Ok(Bson::Document(meant(alloc, body)?))
}

/// The documents that bytes mean.
pub(crate) fn items_of_each(alloc: Global, bodies: &[Vec<u8>]) -> Result<Array, AllocError>
    ensures { IfOk result (λ items. AllZip (λ b (v : AnyValue). IsMeant b.items (view v)) bodies.now items.items) }
{
    let mut items = Vec::new(alloc);
    for body in bodies {
        let item = item_of(alloc, body.as_slice())?;
        items.push(item)?;
    }
    Ok(items)
}

/// A copy of the name of a collection behind that of its database.
pub(crate) fn copied(alloc: Global, space: &String) -> Result<String, AllocError>
    ensures { IfOk result (λ t. string_bytes t ≡ string_bytes space.now) }
{
    String::from_str(alloc, space.as_str())
}

/// A group of that many as the only item, or none.
fn groups(alloc: Global, id: &Bson, number: u64) -> Result<Array, AllocError>
    ensures { IfOk result (λ items. items_of (map view items.items) ≡ told.group (view id.now) number) }
{
    let mut items = Vec::new(alloc);
    if number == 0 {
        return Ok(items);
    }
    let item = group(alloc, id, short(number)?)?;
    items.push(item)?;
    Ok(items)
}

/// The document that tells a number as that of a group.
fn tell_group(alloc: Global, space: &String, id: &Bson, number: u64) -> Result<Document, AllocError>
    ensures { IfOk result (λ d. content d ≡ told.found (string_bytes space.now) (told.group (view id.now) number)) }
{
    let name = copied(alloc, space)?;
    let items = groups(alloc, id, number)?;
    found(alloc, name, items)
}

/// The document that tells a number.
fn tell_number(alloc: Global, way: &Way, number: u64) -> Result<Document, AllocError>
    ensures { IfOk result (λ d. Tells way.now (Ok (answer.Number number)) (content d)) }
{
    match way {
        Way::Counted(skip, most) => counts(alloc, signed(counted(*skip, *most, number))?),
        Way::Grouped(space, id, skip, most) => {
            tell_group(alloc, space, id, counted(*skip, *most, number))
        }
        Way::Made => made(alloc, number),
        Way::Dropped(space) => dropped(alloc, copied(alloc, space)?, number),
        Way::Indexed(space) => indexes(alloc, copied(alloc, space)?, number),
        Way::Unindexed(all) => unindexed(alloc, *all, number),
        _ => Err(AllocError),
    }
}

/// The document that tells a document that was found and changed; whether it was removed.
fn tell_changed(alloc: Global, removes: bool, body: &Vec<u8>) -> Result<Document, AllocError>
    ensures { IfOk result (λ d. Tells (ways.Modified removes) (Ok (answer.Found (Some body.now))) (content d)) }
{
    let value = item_of(alloc, body.as_slice())?;
    modified(alloc, removes, true, value)
}

/// The document that tells which document was found and changed, if one was; whether it was removed.
fn tell_found(alloc: Global, removes: bool, body: &Option<Vec<u8>>) -> Result<Document, AllocError>
    ensures { IfOk result (λ d. Tells (ways.Modified removes) (Ok (answer.Found body.now)) (content d)) }
{
    match body {
        Some(body) => tell_changed(alloc, removes, body),
        None => modified(alloc, removes, false, Bson::Null),
    }
}

/// The same in a way.
fn tell_modified(alloc: Global, way: &Way, body: &Option<Vec<u8>>) -> Result<Document, AllocError>
    ensures { IfOk result (λ d. Tells way.now (Ok (answer.Found body.now)) (content d)) }
{
    match way {
        Way::Modified(removes) => tell_found(alloc, *removes, body),
        _ => Err(AllocError),
    }
}

/// The document that tells why the document that was found isn't changed.
fn tell_not_updated(
    alloc: Global,
    way: &Way,
    place: u64,
    error: UpdateError,
) -> Result<Document, AllocError>
    ensures { IfOk result (λ d. Tells way.now (Ok (answer.NotUpdated place error)) (content d)) }
{
    match way {
        Way::Modified(_) => {
            let why = String::from_str(alloc, update_name(error))?;
            refused(alloc, why, update_code(error))
        }
        _ => Err(AllocError),
    }
}

/// A copy of each value that is counted.
fn copies(alloc: Global, values: &[Counted]) -> Result<Array, AllocError>
    ensures { IfOk result (λ items. map view items.items ≡ map value_in values.now) }
{
    let mut items = Vec::new(alloc);
    for counted in values {
        let item = counted.value.try_clone(alloc)?;
        items.push(item)?;
    }
    Ok(items)
}

/// The document that tells different values.
fn tell_values(
    alloc: Global,
    way: &Way,
    counts: bool,
    counted: &Vec<Counted>,
) -> Result<Document, AllocError>
    ensures { IfOk result (λ d. Tells way.now (Ok (answer.Values counted.now counts)) (content d)) }
{
    match way {
        Way::Different => {
            let items = copies(alloc, counted.as_slice())?;
            values(alloc, items)
        }
        _ => Err(AllocError),
    }
}

/// Whether a collection is told: if all are, or this one alone.
fn is_wanted(only: &Option<String>, name: &str) -> bool
    ensures { result ≡ told.is_wanted (option_map string_bytes only.now) name.now }
{
    match only {
        Some(only) => name == only.as_str(),
        None => true,
    }
}

/// Adds a collection to others, if it is told.
fn push_collection(
    alloc: Global,
    only: &Option<String>,
    name: &str,
    items: &mut Array,
) -> Result<(), AllocError>
    ensures { OnOk result (map view items.new.items ≡ map view items.old.items ++ told.told_if (told.is_wanted (option_map string_bytes only.now) name.now) name.now) }
{
    if is_wanted(only, name) {
        let item = collection(alloc, name)?;
        items.push(item)?;
    }
    Ok(())
}

/// The collections of these names that are told.
fn collections(alloc: Global, only: &Option<String>, names: &[String]) -> Result<Array, AllocError>
    ensures { IfOk result (λ items. map view items.items ≡ told.wanted (option_map string_bytes only.now) (map string_bytes names.now)) }
{
    let mut items = Vec::new(alloc);
    for name in names {
        push_collection(alloc, only, name.as_str(), &mut items)?;
    }
    Ok(items)
}

/// The document that tells the names of collections.
fn tell_names(alloc: Global, way: &Way, names: &Vec<String>) -> Result<Document, AllocError>
    ensures { IfOk result (λ d. Tells way.now (Ok (answer.Names names.now)) (content d)) }
{
    match way {
        Way::Named(space, only) => {
            let name = copied(alloc, space)?;
            let items = collections(alloc, only, names.as_slice())?;
            found(alloc, name, items)
        }
        _ => Err(AllocError),
    }
}

/// The document that tells what the store returned.
pub(crate) fn tell(
    alloc: Global,
    way: &Way,
    outcome: &Result<Answer, StoreError>,
) -> Result<Document, AllocError>
    ensures { IfOk result (λ d. Tells way.now outcome.now (content d)) }
{
    match outcome {
        Ok(Answer::Number(number)) => tell_number(alloc, way, *number),
        Ok(Answer::Found(body)) => tell_modified(alloc, way, body),
        Ok(Answer::NotUpdated(place, error)) => tell_not_updated(alloc, way, *place, *error),
        Ok(Answer::Values(counted, counts)) => tell_values(alloc, way, *counts, counted),
        Ok(Answer::Names(names)) => tell_names(alloc, way, names),
        Ok(_) => Err(AllocError),
        Err(error) => {
            let why = String::from_str(alloc, error.kind.name())?;
            refused(alloc, why, code_of(error.kind))
        }
    }
}

/// The document that tells of changes: whether it is told how many documents are other ones now.
pub(crate) fn tell_written(
    alloc: Global,
    kept: Written,
    told_changed: bool,
) -> Result<Document, AllocError>
    ensures { IfOk result (λ d. TellsWritten told_changed kept (content d)) }
{
    let number = short(kept.count)?;
    let changed = short(kept.changed)?;
    if told_changed {
        written(alloc, number, Some(changed), kept.ids, kept.errors)
    } else {
        written(alloc, number, None, kept.ids, kept.errors)
    }
}

/// The document that tells of documents that were put in all at once.
pub(crate) fn tell_inserted(alloc: Global, number: u64) -> Result<Document, AllocError>
    ensures { IfOk result (λ d. content d ≡ told.written false (pos number) (pos 0) no_items no_items) }
{
    written(
        alloc,
        short(number)?,
        None,
        Vec::new(alloc),
        Vec::new(alloc),
    )
}
