//! What a command asks of the store.

ghost use Rattle.std.specs.Prelude.{[], IfOk, MatchResult, codes, false, true};
ghost use Rattle.bson_base.specs.Value.{look_up};
ghost use Rattle.bson_model.specs.View.{content};
ghost use Rattle.fallowtime_statements.specs.Lines.{IsTruth};
ghost use Rattle.fallowtime_statements.specs.Plans.{Asks, AsksBy, IsOf, IsRefused};
ghost use Rattle.fallowtime_statements.specs.declared.name.Name.TheVariants as names;

use crate::plans::asked::{Plan, Way};
use crate::plans::batches::{further_in, numbers_in, size_in, size_of_cursor};
use crate::plans::collections::{
    create, create_indexes, drop_collection, drop_indexes, list_collections, list_indexes, rename,
};
use crate::plans::filling::{out_statements, target_of};
use crate::plans::lists::listed;
use crate::plans::spaces::{collection_of, namespace};
use crate::plans::told::{build_info, databases, hello, ping};
use crate::{
    Code, Fault, Name, allowed, changes_of, count_by, count_statement, counting_in,
    distinct_statement, find_statement, finding_in, first_key, modify_statement, name_of, part_in,
    pipeline_statement, refuse, removals_of, truth_in, upsert_statements, value_in, whole_in,
};
use bson_message::Sequence;
use bson_model::Document;
use cli_convert::IdMaker;
use std::alloc::Global;

/// What `count` asks, and of it `skip` and `limit`.
fn count(
    alloc: Global,
    maker: &mut IdMaker,
    database: &str,
    command: &Document,
) -> Result<Plan, Fault>
    ensures { IfOk result (AsksBy names.Count database.now (content command.now) []) }
{
    let name = collection_of(alloc, database, command, "count")?;
    let (skip, most) = part_in(alloc, command)?;
    let statement = count_statement(alloc, maker, command, name)?;
    Ok(Plan::One(statement, Way::Counted(skip, most)))
}

/// What `find` asks.
fn find(
    alloc: Global,
    maker: &mut IdMaker,
    database: &str,
    command: &Document,
) -> Result<Plan, Fault>
    ensures { IfOk result (AsksBy names.Find database.now (content command.now) []) }
{
    let name = collection_of(alloc, database, command, "find")?;
    let space = namespace(alloc, database, name)?;
    let size = size_in(alloc, command)?;
    let single = truth_in(alloc, command, "singleBatch", false)?;
    let statement = find_statement(alloc, maker, command, name)?;
    Ok(Plan::One(statement, Way::Found(space, size, single)))
}

/// What `insert` asks.
fn insert(
    alloc: Global,
    database: &str,
    command: &Document,
    lists: &[Sequence<'_>],
) -> Result<Plan, Fault>
    ensures { IfOk result (AsksBy names.Insert database.now (content command.now) lists.now) }
{
    let name = collection_of(alloc, database, command, "insert")?;
    let ordered = truth_in(alloc, command, "ordered", true)?;
    let documents = listed(alloc, command, lists, "documents")?;
    Ok(Plan::Inserts(String::from_str(alloc, name)?, documents, ordered))
}

/// What `update` asks: a change for each of its statements.
fn update(
    alloc: Global,
    maker: &mut IdMaker,
    database: &str,
    command: &Document,
    lists: &[Sequence<'_>],
) -> Result<Plan, Fault>
    ensures { IfOk result (AsksBy names.Update database.now (content command.now) lists.now) }
{
    let name = collection_of(alloc, database, command, "update")?;
    let ordered = truth_in(alloc, command, "ordered", true)?;
    let items = listed(alloc, command, lists, "updates")?;
    let statements = changes_of(alloc, maker, name, items.as_slice())?;
    Ok(Plan::Writes(statements, ordered, true))
}

/// What `delete` asks: a removal for each of its statements.
fn delete(
    alloc: Global,
    maker: &mut IdMaker,
    database: &str,
    command: &Document,
    lists: &[Sequence<'_>],
) -> Result<Plan, Fault>
    ensures { IfOk result (AsksBy names.Delete database.now (content command.now) lists.now) }
{
    let name = collection_of(alloc, database, command, "delete")?;
    let ordered = truth_in(alloc, command, "ordered", true)?;
    let items = listed(alloc, command, lists, "deletes")?;
    let statements = removals_of(alloc, maker, name, items.as_slice())?;
    Ok(Plan::Writes(statements, ordered, false))
}

/// What `aggregate` asks, if its pipeline counts.
fn count_by_pipeline(
    alloc: Global,
    maker: &mut IdMaker,
    database: &str,
    command: &Document,
) -> Result<Plan, Fault>
    ensures { IfOk result (AsksBy names.Aggregate database.now (content command.now) []) }
{
    let name = collection_of(alloc, database, command, "aggregate")?;
    let counting = counting_in(alloc, command)?;
    let space = namespace(alloc, database, name)?;
    let statement = count_by(alloc, maker, name, counting.query)?;
    Ok(Plan::One(
        statement,
        Way::Grouped(space, counting.id, counting.skip, counting.most),
    ))
}

/// What `aggregate` asks, if its pipeline finds: what is found is told, or put into a collection.
fn find_by_pipeline(
    alloc: Global,
    maker: &mut IdMaker,
    database: &str,
    command: &Document,
) -> Result<Plan, Fault>
    ensures { IfOk result (AsksBy names.Aggregate database.now (content command.now) []) }
{
    let name = collection_of(alloc, database, command, "aggregate")?;
    let parts = finding_in(alloc, command)?;
    let space = namespace(alloc, database, name)?;
    let size = size_of_cursor(alloc, command)?;
    match value_in(&parts, "out") {
        Some(value) => {
            let target = target_of(alloc, command, value)?;
            let list = out_statements(alloc, maker, &parts, name, target.as_str())?;
            Ok(Plan::Outs(target, space, list))
        }
        None => {
            let statement = find_statement(alloc, maker, &parts, name)?;
            Ok(Plan::One(statement, Way::Found(space, size, false)))
        }
    }
}

/// What `aggregate` asks, whatever stages its pipeline has.
fn run_pipeline(
    alloc: Global,
    maker: &mut IdMaker,
    database: &str,
    command: &Document,
) -> Result<Plan, Fault>
    ensures { IfOk result (AsksBy names.Aggregate database.now (content command.now) []) }
{
    let name = collection_of(alloc, database, command, "aggregate")?;
    let space = namespace(alloc, database, name)?;
    let size = size_of_cursor(alloc, command)?;
    let statement = pipeline_statement(alloc, maker, command, name)?;
    Ok(Plan::One(statement, Way::Found(space, size, false)))
}

/// Whether a pipeline is one by which drivers count.
fn counts(alloc: Global, command: &Document) -> bool {
    counting_in(alloc, command).is_ok()
}

/// Whether a pipeline is one `find`.
fn finds(alloc: Global, command: &Document) -> bool {
    finding_in(alloc, command).is_ok()
}

/// What `aggregate` asks: a count or a `find`, if its pipeline is one, which holds no more documents than it returns.
fn aggregate(
    alloc: Global,
    maker: &mut IdMaker,
    database: &str,
    command: &Document,
) -> Result<Plan, Fault>
    ensures { IfOk result (AsksBy names.Aggregate database.now (content command.now) []) }
{
    if counts(alloc, command) {
        return count_by_pipeline(alloc, maker, database, command);
    }
    if finds(alloc, command) {
        return find_by_pipeline(alloc, maker, database, command);
    }
    run_pipeline(alloc, maker, database, command)
}

/// What `findAndModify` with `upsert` asks. `BadValue` if it removes.
fn find_or_put(
    alloc: Global,
    maker: &mut IdMaker,
    database: &str,
    command: &Document,
    name: &str,
    removes: bool,
) -> Result<Plan, Fault>
    requires of { IsOf database.now (codes "findAndModify") (content command.now) name.now }
    requires removes { IsTruth false (look_up (codes "remove") (content command.now)) removes }
    requires upserts { IsTruth false (look_up (codes "upsert") (content command.now)) true }
    ensures { IfOk result (AsksBy names.FindAndModify database.now (content command.now) []) }
{
    if removes {
        return Err(refuse(alloc, Code::BadValue, "upsert"));
    }
    let statements = upsert_statements(alloc, maker, command, name)?;
    Ok(Plan::Upserts(statements))
}

/// What `findAndModify` asks.
fn find_and_modify(
    alloc: Global,
    maker: &mut IdMaker,
    database: &str,
    command: &Document,
) -> Result<Plan, Fault>
    ensures { IfOk result (AsksBy names.FindAndModify database.now (content command.now) []) }
{
    let name = collection_of(alloc, database, command, "findAndModify")?;
    let removes = truth_in(alloc, command, "remove", false)?;
    let upserts = truth_in(alloc, command, "upsert", false)?;
    if upserts {
        return find_or_put(alloc, maker, database, command, name, removes);
    }
    let statement = modify_statement(alloc, maker, command, name, removes)?;
    Ok(Plan::One(statement, Way::Modified(removes)))
}

/// What `distinct` asks.
fn distinct(
    alloc: Global,
    maker: &mut IdMaker,
    database: &str,
    command: &Document,
) -> Result<Plan, Fault>
    ensures { IfOk result (AsksBy names.Distinct database.now (content command.now) []) }
{
    let name = collection_of(alloc, database, command, "distinct")?;
    let statement = distinct_statement(alloc, maker, command, name)?;
    Ok(Plan::One(statement, Way::Different))
}

/// What `getMore` asks.
fn get_more(alloc: Global, database: &str, command: &Document) -> Result<Plan, Fault>
    ensures { IfOk result (AsksBy names.GetMore database.now (content command.now) []) }
{
    let name = collection_of(alloc, database, command, "collection")?;
    let id = whole_in(alloc, command, "getMore")?;
    let size = further_in(alloc, command)?;
    Ok(Plan::More(namespace(alloc, database, name)?, id, size))
}

/// What `killCursors` asks.
fn kill_cursors(alloc: Global, database: &str, command: &Document) -> Result<Plan, Fault>
    ensures { IfOk result (AsksBy names.KillCursors database.now (content command.now) []) }
{
    let name = collection_of(alloc, database, command, "killCursors")?;
    let ids = numbers_in(alloc, command)?;
    Ok(Plan::Closes(namespace(alloc, database, name)?, ids))
}

/// What a command without sequences asks.
fn alone(
    alloc: Global,
    maker: &mut IdMaker,
    name: Name,
    database: &str,
    command: &Document,
) -> Result<Plan, Fault>
    ensures { IfOk result (AsksBy name database.now (content command.now) []) }
{
    match name {
        Name::Hello => Ok(Plan::Told(hello(alloc)?)),
        Name::Ping | Name::EndSessions => Ok(Plan::Told(ping(alloc)?)),
        Name::BuildInfo => Ok(Plan::Told(build_info(alloc)?)),
        Name::Count => count(alloc, maker, database, command),
        Name::Find => find(alloc, maker, database, command),
        Name::Aggregate => aggregate(alloc, maker, database, command),
        Name::FindAndModify => find_and_modify(alloc, maker, database, command),
        Name::Distinct => distinct(alloc, maker, database, command),
        Name::ListCollections => list_collections(alloc, maker, database, command),
        Name::Create => create(alloc, maker, database, command),
        Name::Drop => drop_collection(alloc, maker, database, command),
        Name::RenameCollection => rename(alloc, database, command),
        Name::CreateIndexes => create_indexes(alloc, database, command),
        Name::ListIndexes => list_indexes(alloc, maker, database, command),
        Name::DropIndexes => drop_indexes(alloc, maker, database, command),
        Name::ListDatabases => Ok(Plan::Told(databases(alloc, database)?)),
        Name::KillCursors => kill_cursors(alloc, database, command),
        Name::GetMore => get_more(alloc, database, command),
        _ => Err(refuse(alloc, Code::NotImplemented, "command")),
    }
}

/// What a command asks that has no key which it may not have.
fn by_name(
    alloc: Global,
    maker: &mut IdMaker,
    name: Name,
    database: &str,
    command: &Document,
    lists: &[Sequence<'_>],
) -> Result<Plan, Fault>
    ensures { IfOk result (AsksBy name database.now (content command.now) lists.now) }
{
    match name {
        Name::Insert => insert(alloc, database, command, lists),
        Name::Update => update(alloc, maker, database, command, lists),
        Name::Delete => delete(alloc, maker, database, command, lists),
        _ => match lists {
            [] => alone(alloc, maker, name, database, command),
            [list, ..] => Err(refuse(alloc, Code::UnknownField, list.name)),
        },
    }
}

/// What a command asks of the file of this database. The maker makes the `_id` of a document that has none where an
/// upsert would put it in.
///
/// `CommandNotFound` with the first key if no command has this name; the errors of `allowed`; and otherwise the error of
/// the first part that can't be read, with its key.
pub fn plan(
    alloc: Global,
    maker: &mut IdMaker,
    database: &str,
    command: &Document,
    lists: &[Sequence<'_>],
) -> Result<Plan, Fault>
    ensures { MatchResult result (Asks database.now (content command.now) lists.now)
        (IsRefused (content command.now)) }
{
    let Some(key) = first_key(command) else {
        return Err(refuse(alloc, Code::CommandNotFound, ""));
    };
    let Some(name) = name_of(key) else {
        return Err(refuse(alloc, Code::CommandNotFound, key));
    };
    allowed(alloc, name, command)?;
    by_name(alloc, maker, name, database, command, lists)
}
