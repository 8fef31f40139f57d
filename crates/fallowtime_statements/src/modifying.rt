//! The lines of `findAndModify`, `distinct`, `listCollections` and `drop`.

ghost use Rattle.std.specs.Prelude.{◌≡◌, IfOk, false, map, string_bytes, true};
ghost use Rattle.bson_base.specs.Value.{document as tree, no_items as nothing, scalar, string};
ghost use Rattle.bson_json.specs.Prints.{IsTextOf};
ghost use Rattle.bson_model.specs.View.{content, items_of as items_view, view};
ghost use Rattle.bson_model.specs.declared.extjson.ser.Mode.TheVariants.{Relaxed};
ghost use Rattle.fallowtime_statements.specs.Lines.{IsLine, IsMixed, line_of_one, line_of_texts};
ghost use Rattle.std.specs.Option.{option_map};
ghost use Rattle.bson_meaning.specs.JsonReserved.{has_reserved};
ghost use Rattle.fallowtime_statements.specs.Modifying.{AreChangedOptions, AreFoundOptions, AreTwo, AsksNoMore, IsDistinct, IsFindAndModify, IsPut, IsShown, IsShownBehind, IsUpsert, by_id, finder, id_in, id_of, line_with_path};
ghost use Rattle.fallowtime_words.specs.declared.command.Command.TheVariants as commands;

use crate::changes::{change_by, document_in, is_update};
use crate::fault::{Code, Fault, refuse};
use crate::lines::{
    given, one_value, statement_by, statement_in_text, text_in, text_of, three_values, truth_in,
    value_in,
};
use crate::options::{by_id, changed_options, fields_option, found_options};
use crate::statement::Statement;
use bson_meaning::has_reserved_below;
use bson_model::extjson::Mode;
use bson_model::{Bson, Document};
use cli_convert::IdMaker;
use fallowtime_requests::{Otherwise, Request};
use fallowtime_words::Command;
use std::alloc::{AllocError, Global};

/// The text of a line whose four values have these texts.
fn line_of_texts(
    alloc: Global,
    first: &str,
    second: &str,
    third: &str,
    fourth: &str,
) -> Result<String, AllocError>
    ensures { IfOk result (λ t. string_bytes t ≡ line_of_texts first.now second.now third.now fourth.now) }
{
    let mut line = String::from_str(alloc, "[")?;
    line.push_str(first)?;
    line.push_str(",")?;
    line.push_str(second)?;
    line.push_str(",")?;
    line.push_str(third)?;
    line.push_str(",")?;
    line.push_str(fourth)?;
    line.push_str("]")?;
    Ok(line)
}

/// The text of a name.
fn name_text(alloc: Global, name: &str) -> Result<String, AllocError>
    ensures { IfOk result (λ t. IsTextOf Relaxed (scalar (string name.now)) (string_bytes t)) }
{
    let value = Bson::String(String::from_str(alloc, name)?);
    text_of(alloc, Mode::Relaxed, &value)
}

/// The text of a document.
fn document_text(alloc: Global, mode: Mode, document: Document) -> Result<String, AllocError>
    ensures { IfOk result (λ t. IsTextOf mode (tree (content document)) (string_bytes t)) }
{
    let mut text = String::new(alloc);
    bson_json::write(alloc, &document, mode, &mut text)?;
    Ok(text)
}

/// What the line of a command asks for with a collection, a query, what becomes of documents, and options.
fn statement_mixed(
    alloc: Global,
    maker: &mut IdMaker,
    command: Command,
    name: &str,
    query: Document,
    work: Document,
    options: Document,
) -> Result<Statement, Fault>
    ensures { IfOk result (IsMixed command name.now (content query) (content work) (content options)) }
{
    let first = name_text(alloc, name)?;
    let second = document_text(alloc, Mode::Relaxed, query)?;
    let third = document_text(alloc, Mode::Canonical, work)?;
    let fourth = document_text(alloc, Mode::Relaxed, options)?;
    let line = line_of_texts(
        alloc,
        first.as_str(),
        second.as_str(),
        third.as_str(),
        fourth.as_str(),
    )?;
    statement_in_text(alloc, maker, command, &line)
}

/// The options of the line of `find-and-delete`.
fn found_options_of(alloc: Global, command: &Document) -> Result<Document, Fault>
    ensures { IfOk result (λ d. AreFoundOptions (content command.now) (content d)) }
{
    let sort = given(alloc, command, "sort")?;
    let fields = given(alloc, command, "fields")?;
    Ok(found_options(alloc, sort, fields)?)
}

/// The options of the lines of `find-and-update` and `find-and-replace`.
fn changed_options_of(alloc: Global, command: &Document) -> Result<Document, Fault>
    ensures { IfOk result (λ d. AreChangedOptions (content command.now) (content d)) }
{
    let sort = given(alloc, command, "sort")?;
    let fields = given(alloc, command, "fields")?;
    let after = truth_in(alloc, command, "new", false)?;
    Ok(changed_options(alloc, sort, fields, after)?)
}

/// Refuses a command that removes and asks for more than that.
fn alone(alloc: Global, command: &Document) -> Result<(), Fault>
    ensures { IfOk result (λ _. AsksNoMore (content command.now)) }
{
    if truth_in(alloc, command, "new", false)? {
        return Err(refuse(alloc, Code::BadValue, "new"));
    }
    if value_in(command, "update").is_some() {
        return Err(refuse(alloc, Code::BadValue, "update"));
    }
    Ok(())
}

/// What `findAndModify` asks of a collection if it removes.
fn removed(
    alloc: Global,
    maker: &mut IdMaker,
    command: &Document,
    name: &str,
) -> Result<Statement, Fault>
    ensures { IfOk result (IsFindAndModify true (content command.now) name.now) }
{
    alone(alloc, command)?;
    let query = given(alloc, command, "query")?;
    let options = found_options_of(alloc, command)?;
    let values = three_values(alloc, name, query, options)?;
    statement_by(alloc, maker, Command::FindAndDelete, Mode::Relaxed, values)
}

/// The command of the line that finds a document and changes it.
fn finder(is_update: bool) -> Command
    ensures { result ≡ finder is_update }
{
    if is_update {
        Command::FindAndUpdate
    } else {
        Command::FindAndReplace
    }
}

/// What `findAndModify` asks of a collection if it changes.
fn changed(
    alloc: Global,
    maker: &mut IdMaker,
    command: &Document,
    name: &str,
) -> Result<Statement, Fault>
    ensures { IfOk result (IsFindAndModify false (content command.now) name.now) }
{
    let query = given(alloc, command, "query")?;
    let work = document_in(alloc, command, "update")?;
    let options = changed_options_of(alloc, command)?;
    let line = finder(is_update(&work));
    statement_mixed(alloc, maker, line, name, query, work, options)
}

/// What `findAndModify` asks of a collection, and whether it removes.
pub fn modify_statement(
    alloc: Global,
    maker: &mut IdMaker,
    command: &Document,
    name: &str,
    removes: bool,
) -> Result<Statement, Fault>
    ensures { IfOk result (IsFindAndModify removes (content command.now) name.now) }
{
    if removes {
        removed(alloc, maker, command, name)
    } else {
        changed(alloc, maker, command, name)
    }
}

/// The change of `findAndModify` by which a document is put in, if none is found.
fn put_statement(
    alloc: Global,
    maker: &mut IdMaker,
    command: &Document,
    name: &str,
) -> Result<Statement, Fault>
    ensures { IfOk result (IsPut (content command.now) name.now) }
{
    let query = given(alloc, command, "query")?;
    let work = document_in(alloc, command, "update")?;
    change_by(alloc, maker, name, query, work, false, true)
}

/// The `_id` of the document that a request puts in, if it makes one.
fn id_of<'r>(request: &'r Request<'static>) -> Option<&'r Bson>
    ensures { option_map (λ v. view v.now) result ≡ id_of request.now }
{
    match request {
        Request::Upsert(_, _, _, Otherwise::Insert(id, _)) => Some(id),
        _ => None,
    }
}

/// A copy of the `_id` of the document that the last of two statements puts in.
fn id_in(alloc: Global, statements: &[Statement]) -> Result<Option<Bson>, AllocError>
    ensures { IfOk result (λ id. option_map view id ≡ id_in statements.now) }
{
    match statements {
        [_, put] => match id_of(&put.request) {
            Some(id) => Ok(Some(id.try_clone(alloc)?)),
            None => Ok(None),
        },
        _ => Ok(None),
    }
}

/// The query for the document with this `_id`. `BadValue` if the `_id` has a reserved key.
fn query_by_id(alloc: Global, id: Bson) -> Result<Document, Fault>
    ensures { IfOk result (λ d. (content d ≡ by_id (view id)) × (has_reserved (content d) ≡ false)) }
{
    let query = by_id(alloc, id)?;
    if has_reserved_below(&query) {
        return Err(refuse(alloc, Code::BadValue, "_id"));
    }
    Ok(query)
}

/// What finds the document with this `_id`, with the fields that `findAndModify` asks for.
fn shown_statement(
    alloc: Global,
    maker: &mut IdMaker,
    command: &Document,
    name: &str,
    id: Bson,
) -> Result<Statement, Fault>
    ensures { IfOk result (IsShown (content command.now) name.now (view id)) }
{
    let query = query_by_id(alloc, id)?;
    let fields = given(alloc, command, "fields")?;
    let options = fields_option(alloc, fields)?;
    let values = three_values(alloc, name, query, options)?;
    statement_by(alloc, maker, Command::Find, Mode::Relaxed, values)
}

/// The two statements of an upsert: what finds, and what puts in if none is found.
fn two_statements(
    alloc: Global,
    maker: &mut IdMaker,
    command: &Document,
    name: &str,
) -> Result<Vec<Statement>, Fault>
    ensures { IfOk result (λ list. AreTwo (content command.now) name.now list.items) }
{
    let mut list = Vec::new(alloc);
    let find = changed(alloc, maker, command, name)?;
    list.push(find)?;
    let put = put_statement(alloc, maker, command, name)?;
    list.push(put)?;
    Ok(list)
}

/// Statements, and what finds the document with this `_id` behind them.
fn with_shown(
    alloc: Global,
    maker: &mut IdMaker,
    command: &Document,
    name: &str,
    id: Bson,
    list: Vec<Statement>,
) -> Result<Vec<Statement>, Fault>
    ensures { IfOk result (λ more. IsShownBehind (content command.now) name.now (view id) list.items more.items) }
{
    let shown = shown_statement(alloc, maker, command, name, id)?;
    let mut list = list;
    list.push(shown)?;
    Ok(list)
}

/// What `findAndModify` with `upsert` asks of a collection, one after the other: to find and change a document; if there
/// is none, to put one in; and to find that, if it is wanted as it is then.
pub fn upsert_statements(
    alloc: Global,
    maker: &mut IdMaker,
    command: &Document,
    name: &str,
) -> Result<Vec<Statement>, Fault>
    ensures { IfOk result (λ list. IsUpsert (content command.now) name.now list.items) }
{
    let after = truth_in(alloc, command, "new", false)?;
    let list = two_statements(alloc, maker, command, name)?;
    if !after {
        return Ok(list);
    }
    match id_in(alloc, list.as_slice())? {
        Some(id) => with_shown(alloc, maker, command, name, id, list),
        None => Ok(list),
    }
}

/// A collection, a path and a document as the values of a line.
fn values_with_path(
    alloc: Global,
    name: &str,
    path: &str,
    query: Document,
) -> Result<Vec<Bson>, AllocError>
    ensures { IfOk result (λ v. items_view (map view v.items) ≡ line_with_path name.now path.now (content query)) }
{
    let mut values = Vec::new(alloc);
    values.push(Bson::String(String::from_str(alloc, name)?))?;
    values.push(Bson::String(String::from_str(alloc, path)?))?;
    values.push(Bson::Document(query))?;
    Ok(values)
}

/// What `distinct` asks of a collection.
pub fn distinct_statement(
    alloc: Global,
    maker: &mut IdMaker,
    command: &Document,
    name: &str,
) -> Result<Statement, Fault>
    ensures { IfOk result (IsDistinct (content command.now) name.now) }
{
    let path = text_in(alloc, command, "key")?;
    let query = given(alloc, command, "query")?;
    let values = values_with_path(alloc, name, path, query)?;
    statement_by(alloc, maker, Command::Distinct, Mode::Canonical, values)
}

/// What `listCollections` asks.
pub fn collections_statement(alloc: Global, maker: &mut IdMaker) -> Result<Statement, Fault>
    ensures { IfOk result (IsLine Relaxed commands.Collections nothing) }
{
    statement_by(
        alloc,
        maker,
        Command::Collections,
        Mode::Relaxed,
        Vec::new(alloc),
    )
}

/// What `drop` asks of a collection.
pub fn drop_statement(alloc: Global, maker: &mut IdMaker, name: &str) -> Result<Statement, Fault>
    ensures { IfOk result (IsLine Relaxed commands.Drop (line_of_one name.now)) }
{
    let values = one_value(alloc, name)?;
    statement_by(alloc, maker, Command::Drop, Mode::Relaxed, values)
}
