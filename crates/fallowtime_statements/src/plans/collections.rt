//! What is asked of whole collections, of their names and of their indexes.

ghost use Rattle.std.specs.Prelude.{◌≡◌, [], IfOk, Some, codes, string_bytes};
ghost use Rattle.std.specs.Option.{option_map};
ghost use Rattle.bson_base.specs.Value.{look_up};
ghost use Rattle.bson_model.specs.View.{content, view};
ghost use Rattle.fallowtime_statements.specs.Indexing.{IsToGo};
ghost use Rattle.fallowtime_statements.specs.Plans.{AsksBy, IsWanted};
ghost use Rattle.fallowtime_statements.specs.declared.name.Name.TheVariants as names;

use crate::plans::asked::{Plan, Way};
use crate::plans::indexing::plain_indexes_in;
use crate::plans::spaces::{collection_of, namespace, of_database, space_in};
use crate::plans::told::indexed;
use crate::{
    Code, Fault, collections_statement, count_all, drop_statement, is_empty, operand_of, refuse,
    text_in, value_in,
};
use bson_model::{Bson, Document};
use cli_convert::IdMaker;
use std::alloc::Global;

/// The only collection that a `filter` lets through, by its name; none if it lets all through. `NotImplemented` for any
/// other one.
fn wanted_of(alloc: Global, filter: &Bson) -> Result<Option<String>, Fault>
    ensures { IfOk result (λ only. IsWanted (Some (view filter.now)) (option_map string_bytes only)) }
{
    if is_empty(filter) {
        return Ok(None);
    }
    match operand_of(filter, "name") {
        Some(Bson::String(name)) => Ok(Some(String::from_str(alloc, name.as_str())?)),
        _ => Err(refuse(alloc, Code::NotImplemented, "filter")),
    }
}

/// The same of the `filter` of a command.
fn wanted_in(alloc: Global, command: &Document) -> Result<Option<String>, Fault>
    ensures { IfOk result (λ only. IsWanted (look_up (codes "filter") (content command.now)) (option_map string_bytes only)) }
{
    match value_in(command, "filter") {
        Some(filter) => wanted_of(alloc, filter),
        None => Ok(None),
    }
}

/// What `listCollections` asks.
pub(crate) fn list_collections(
    alloc: Global,
    maker: &mut IdMaker,
    database: &str,
    command: &Document,
) -> Result<Plan, Fault>
    ensures { IfOk result (AsksBy names.ListCollections database.now (content command.now) []) }
{
    of_database(alloc, database, command)?;
    let only = wanted_in(alloc, command)?;
    let space = namespace(alloc, database, "$cmd.listCollections")?;
    let statement = collections_statement(alloc, maker)?;
    Ok(Plan::One(statement, Way::Named(space, only)))
}

/// What `create` asks: how many documents the collection has. `InvalidNamespace` if its name is empty.
pub(crate) fn create(
    alloc: Global,
    maker: &mut IdMaker,
    database: &str,
    command: &Document,
) -> Result<Plan, Fault>
    ensures { IfOk result (AsksBy names.Create database.now (content command.now) []) }
{
    let name = collection_of(alloc, database, command, "create")?;
    if name.is_empty() {
        return Err(refuse(alloc, Code::InvalidNamespace, name));
    }
    let statement = count_all(alloc, maker, name)?;
    Ok(Plan::One(statement, Way::Made))
}

/// What `createIndexes` asks: nothing, if all of the indexes are plain.
pub(crate) fn create_indexes(
    alloc: Global,
    database: &str,
    command: &Document,
) -> Result<Plan, Fault>
    ensures { IfOk result (AsksBy names.CreateIndexes database.now (content command.now) []) }
{
    collection_of(alloc, database, command, "createIndexes")?;
    plain_indexes_in(alloc, command)?;
    Ok(Plan::Told(indexed(alloc)?))
}

/// What `drop` asks.
pub(crate) fn drop_collection(
    alloc: Global,
    maker: &mut IdMaker,
    database: &str,
    command: &Document,
) -> Result<Plan, Fault>
    ensures { IfOk result (AsksBy names.Drop database.now (content command.now) []) }
{
    let name = collection_of(alloc, database, command, "drop")?;
    let space = namespace(alloc, database, name)?;
    let statement = drop_statement(alloc, maker, name)?;
    Ok(Plan::One(statement, Way::Dropped(space)))
}

/// What `renameCollection` asks, which is a command over the database `admin`.
pub(crate) fn rename(alloc: Global, database: &str, command: &Document) -> Result<Plan, Fault>
    ensures { IfOk result (AsksBy names.RenameCollection database.now (content command.now) []) }
{
    of_database(alloc, "admin", command)?;
    let name = space_in(alloc, database, command, "renameCollection")?;
    let new = space_in(alloc, database, command, "to")?;
    let name = String::from_str(alloc, name)?;
    Ok(Plan::Renames(name, String::from_str(alloc, new)?))
}

/// What `listIndexes` asks: how many documents the collection has.
pub(crate) fn list_indexes(
    alloc: Global,
    maker: &mut IdMaker,
    database: &str,
    command: &Document,
) -> Result<Plan, Fault>
    ensures { IfOk result (AsksBy names.ListIndexes database.now (content command.now) []) }
{
    let name = collection_of(alloc, database, command, "listIndexes")?;
    let space = namespace(alloc, database, name)?;
    let statement = count_all(alloc, maker, name)?;
    Ok(Plan::One(statement, Way::Indexed(space)))
}

/// Whether all indexes but that of the `_id` are to be dropped, or else one by its name. `InvalidOptions` if that is the
/// one of the `_id`, `BadValue` if there is no text.
fn are_all(alloc: Global, command: &Document) -> Result<bool, Fault>
    ensures { IfOk result (IsToGo (look_up (codes "index") (content command.now))) }
{
    let index = text_in(alloc, command, "index")?;
    if index == "_id_" {
        return Err(refuse(alloc, Code::InvalidOptions, index));
    }
    Ok(index == "*")
}

/// What `dropIndexes` asks: how many documents the collection has.
pub(crate) fn drop_indexes(
    alloc: Global,
    maker: &mut IdMaker,
    database: &str,
    command: &Document,
) -> Result<Plan, Fault>
    ensures { IfOk result (AsksBy names.DropIndexes database.now (content command.now) []) }
{
    let name = collection_of(alloc, database, command, "dropIndexes")?;
    let all = are_all(alloc, command)?;
    let statement = count_all(alloc, maker, name)?;
    Ok(Plan::One(statement, Way::Unindexed(all)))
}
