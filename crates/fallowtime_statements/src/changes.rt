//! The statements of `update` and `delete`, as lines of a session.

ghost use Rattle.std.specs.Prelude.{◌≡◌, IfOk, codes, false, true};
ghost use Rattle.std.specs.List.{AllZip};
ghost use Rattle.bson_base.specs.Value.{look_up};
ghost use Rattle.bson_bytes.specs.Spells.{Means};
ghost use Rattle.bson_model.specs.View.{content};
ghost use Rattle.fallowtime_statements.specs.Changes.{ChangesBy, IsChange, IsChangeOf, IsRemoval, IsRemovalOf, IsSeveral, is_update};
ghost use Rattle.fallowtime_statements.specs.Lines.{IsThere};

use crate::fault::{Code, Fault, refuse};
use crate::fields::allowed;
use crate::lines::{
    copy_of_value, four_values, statement_by, three_values, truth_in, value_in, whole_in,
};
use crate::name::{Name, first_key};
use crate::options::{change_options, many_option, upsert_option};
use crate::statement::Statement;
use bson_frame::ErrorKind;
use bson_model::Document;
use bson_model::extjson::Mode;
use bson_raw::RawDocument;
use cli_convert::IdMaker;
use fallowtime_words::Command;
use std::alloc::Global;
use store_question_read::begins_with_dollar;

/// The document that bytes mean. `ProtocolError` if they mean none.
fn meant(alloc: Global, bytes: &[u8], about: &str) -> Result<Document, Fault>
    ensures { IfOk result (λ d. Means bytes.now (content d)) }
{
    let Ok(raw) = RawDocument::from_bytes(bytes) else {
        return Err(refuse(alloc, Code::ProtocolError, about));
    };
    match raw.to_document(alloc) {
        Ok(document) => Ok(document),
        Err(error) => match error.kind {
            ErrorKind::OutOfMemory => Err(Fault::Memory),
            _ => Err(refuse(alloc, Code::ProtocolError, about)),
        },
    }
}

/// A copy of the document under a key. `BadValue` if there is none, or as of `copy_of_value`.
pub(crate) fn document_in(alloc: Global, item: &Document, key: &str) -> Result<Document, Fault>
    ensures { IfOk result (λ d. IsThere (look_up key.now (content item.now)) (content d)) }
{
    match value_in(item, key) {
        Some(value) => copy_of_value(alloc, value, key),
        None => Err(refuse(alloc, Code::BadValue, key)),
    }
}

/// Whether what becomes of documents is an update in operators; else it is a document.
pub(crate) fn is_update(work: &Document) -> bool
    ensures { result ≡ is_update (content work.now) }
{
    match first_key(work) {
        Some(key) => begins_with_dollar(key),
        None => false,
    }
}

/// What an update in operators asks of a collection.
fn update_by(
    alloc: Global,
    maker: &mut IdMaker,
    name: &str,
    query: Document,
    work: Document,
    many: bool,
    upsert: bool,
) -> Result<Statement, Fault>
    requires { is_update (content work) ≡ true }
    ensures { IfOk result (ChangesBy (is_update (content work)) name.now (content query) (content work) many upsert) }
{
    let options = change_options(alloc, many, upsert)?;
    let values = four_values(alloc, name, query, work, options)?;
    statement_by(alloc, maker, Command::Update, Mode::Canonical, values)
}

/// What the replacement of a document asks of a collection.
fn replacement_by(
    alloc: Global,
    maker: &mut IdMaker,
    name: &str,
    query: Document,
    work: Document,
    upsert: bool,
) -> Result<Statement, Fault>
    requires { is_update (content work) ≡ false }
    ensures { IfOk result (ChangesBy (is_update (content work)) name.now (content query) (content work) false upsert) }
{
    let options = upsert_option(alloc, upsert)?;
    let values = four_values(alloc, name, query, work, options)?;
    statement_by(alloc, maker, Command::ReplaceOne, Mode::Canonical, values)
}

/// What a change asks of a collection: an update, or the replacement of one document. `BadValue` for that of several.
pub(crate) fn change_by(
    alloc: Global,
    maker: &mut IdMaker,
    name: &str,
    query: Document,
    work: Document,
    many: bool,
    upsert: bool,
) -> Result<Statement, Fault>
    ensures { IfOk result (ChangesBy (is_update (content work)) name.now (content query) (content work) many upsert) }
{
    if is_update(&work) {
        return update_by(alloc, maker, name, query, work, many, upsert);
    }
    if many {
        return Err(refuse(alloc, Code::BadValue, "multi"));
    }
    replacement_by(alloc, maker, name, query, work, upsert)
}

/// What a statement of `update` asks of a collection.
fn change_in(
    alloc: Global,
    maker: &mut IdMaker,
    name: &str,
    item: &Document,
) -> Result<Statement, Fault>
    ensures { IfOk result (IsChange name.now (content item.now)) }
{
    let query = document_in(alloc, item, "q")?;
    let work = document_in(alloc, item, "u")?;
    let many = truth_in(alloc, item, "multi", false)?;
    let upsert = truth_in(alloc, item, "upsert", false)?;
    change_by(alloc, maker, name, query, work, many, upsert)
}

/// The same of its bytes. A key that it may not have is refused, as one of a command.
fn change_of(
    alloc: Global,
    maker: &mut IdMaker,
    name: &str,
    bytes: &[u8],
) -> Result<Statement, Fault>
    ensures { IfOk result (IsChangeOf name.now bytes.now) }
{
    let item = meant(alloc, bytes, "updates")?;
    allowed(alloc, Name::Change, &item)?;
    change_in(alloc, maker, name, &item)
}

/// What the statements of `update` ask of a collection.
pub fn changes_of(
    alloc: Global,
    maker: &mut IdMaker,
    name: &str,
    items: &[Vec<u8>],
) -> Result<Vec<Statement>, Fault>
    ensures { IfOk result (λ list. AllZip (λ b. IsChangeOf name.now b.items) items.now list.items) }
{
    let mut list = Vec::new(alloc);
    for item in items {
        let statement = change_of(alloc, maker, name, item.as_slice())?;
        list.push(statement)?;
    }
    Ok(list)
}

/// Whether a statement of `delete` is of all documents that answer: its limit is 0, and else 1. `BadValue` if it is
/// another one or none.
fn several_in(alloc: Global, item: &Document) -> Result<bool, Fault>
    ensures { IfOk result (IsSeveral (look_up (codes "limit") (content item.now))) }
{
    if value_in(item, "limit").is_none() {
        return Err(refuse(alloc, Code::BadValue, "limit"));
    }
    let limit = whole_in(alloc, item, "limit")?;
    if limit == 0 {
        return Ok(true);
    }
    if limit == 1 {
        return Ok(false);
    }
    Err(refuse(alloc, Code::BadValue, "limit"))
}

/// What a statement of `delete` asks of a collection.
fn removal_in(
    alloc: Global,
    maker: &mut IdMaker,
    name: &str,
    item: &Document,
) -> Result<Statement, Fault>
    ensures { IfOk result (IsRemoval name.now (content item.now)) }
{
    let query = document_in(alloc, item, "q")?;
    let several = several_in(alloc, item)?;
    let options = many_option(alloc, several)?;
    let values = three_values(alloc, name, query, options)?;
    statement_by(alloc, maker, Command::Delete, Mode::Canonical, values)
}

/// The same of its bytes. A key that it may not have is refused, as one of a command.
fn removal_of(
    alloc: Global,
    maker: &mut IdMaker,
    name: &str,
    bytes: &[u8],
) -> Result<Statement, Fault>
    ensures { IfOk result (IsRemovalOf name.now bytes.now) }
{
    let item = meant(alloc, bytes, "deletes")?;
    allowed(alloc, Name::Removal, &item)?;
    removal_in(alloc, maker, name, &item)
}

/// What the statements of `delete` ask of a collection.
pub fn removals_of(
    alloc: Global,
    maker: &mut IdMaker,
    name: &str,
    items: &[Vec<u8>],
) -> Result<Vec<Statement>, Fault>
    ensures { IfOk result (λ list. AllZip (λ b. IsRemovalOf name.now b.items) items.now list.items) }
{
    let mut list = Vec::new(alloc);
    for item in items {
        let statement = removal_of(alloc, maker, name, item.as_slice())?;
        list.push(statement)?;
    }
    Ok(list)
}
