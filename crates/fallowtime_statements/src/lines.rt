//! The lines of a session that ask for what commands ask for, as their values.

ghost use Rattle.std.specs.Prelude.{◌≡◌, IfOk, None, Ok, Some, codes, map, pos, string_bytes};
ghost use Rattle.std.specs.Option.{option_map};
ghost use Rattle.json.specs.Json.{document as tree_of};
ghost use Rattle.json.specs.Value.{items_view as items_data, value_view as data_of};
ghost use Rattle.bson_base.specs.Value.{array, document as tree, look_up, scalar, string};
ghost use Rattle.bson_json.specs.Prints.{IsTextOf};
ghost use Rattle.bson_model.specs.View.{content, items_of as items_view, view};
ghost use Rattle.bson_model.specs.declared.extjson.ser.Mode.TheVariants.{Relaxed};
ghost use Rattle.fallowtime_requests.specs.declared.request.Request.TheVariants as requests;
ghost use Rattle.fallowtime_words.specs.declared.command.Command.TheVariants as commands;
ghost use Rattle.fallowtime_statements.specs.Lines.{AreOptions, IsCount, IsFind, IsGiven, IsLine, IsPart, IsRead, IsTruth, IsWhole, StandsFor, StandsForLine, line_of_four, line_of_one, line_of_three, line_of_two, most_of};

use crate::fault::{Code, Fault, refuse};
use crate::options::find_options;
use crate::statement::Statement;
use bson_meaning::has_reserved_below;
use bson_model::extjson::Mode;
use bson_model::{Bson, Document};
use cli_convert::IdMaker;
use fallowtime_requests::{Question, Request, Stop, Transfer, items_of, question_of_line};
use fallowtime_words::Command;
use json::{Scratch, Value};
use std::alloc::{AllocError, Global};

/// The value under a key.
pub fn value_in<'d>(document: &'d Document, key: &str) -> Option<&'d Bson>
    ensures { option_map (λ v. view v.now) result ≡ look_up key.now (content document.now) }
{
    document.get(key)
}

/// The text under a key. `BadValue` if there is none.
pub fn text_in<'d>(alloc: Global, document: &'d Document, key: &str) -> Result<&'d str, Fault>
    ensures { IfOk result (λ t. look_up key.now (content document.now) ≡ Some (scalar (string t.now))) }
{
    match value_in(document, key) {
        Some(Bson::String(text)) => Ok(text.as_str()),
        _ => Err(refuse(alloc, Code::BadValue, key)),
    }
}

/// The whole number under a key, 0 if there is none. `BadValue` if it is none.
pub fn whole_in(alloc: Global, document: &Document, key: &str) -> Result<i64, Fault>
    ensures { IfOk result (λ n. IsWhole (look_up key.now (content document.now)) n) }
{
    match value_in(document, key) {
        None => Ok(0),
        Some(Bson::Int32(number)) => Ok(*number as i64),
        Some(Bson::Int64(number)) => Ok(*number),
        Some(_) => Err(refuse(alloc, Code::BadValue, key)),
    }
}

/// The truth value under a key, or another one if there is none. `BadValue` if it is none.
pub fn truth_in(alloc: Global, document: &Document, key: &str, other: bool) -> Result<bool, Fault>
    ensures { IfOk result (λ b. IsTruth other (look_up key.now (content document.now)) b) }
{
    match value_in(document, key) {
        None => Ok(other),
        Some(Bson::Boolean(truth)) => Ok(*truth),
        Some(_) => Err(refuse(alloc, Code::BadValue, key)),
    }
}

/// How many documents there are at most with a limit, of which 0 is none and a negative one that of one batch.
pub fn most_of(limit: i64) -> u64
    ensures { result ≡ most_of limit }
{
    let most = limit.unsigned_abs();
    if most == 0 { 9223372036854775807 } else { most }
}

/// How many documents are passed over, and how many there are at most.
pub fn part_in(alloc: Global, command: &Document) -> Result<(u64, u64), Fault>
    ensures { IfOk result (λ p. IsPart (content command.now) p.0 p.1) }
{
    let skip = whole_in(alloc, command, "skip")?;
    let limit = whole_in(alloc, command, "limit")?;
    let Ok(skip) = u64::try_from(skip) else {
        return Err(refuse(alloc, Code::BadValue, "skip"));
    };
    Ok((skip, most_of(limit)))
}

/// A copy of a document. `BadValue` if it has a reserved key below its top, as it has no Extended JSON then.
fn copy_of_document(alloc: Global, document: &Document, about: &str) -> Result<Document, Fault>
    ensures { IfOk result (λ d. IsGiven (Some (tree (content document.now))) (content d)) }
{
    if has_reserved_below(document) {
        return Err(refuse(alloc, Code::BadValue, about));
    }
    Ok(document.try_clone()?)
}

/// A copy of a value that is a document. `BadValue` if it is none, or as of `copy_of_document`.
pub(crate) fn copy_of_value(alloc: Global, value: &Bson, about: &str) -> Result<Document, Fault>
    ensures { IfOk result (λ d. IsGiven (Some (view value.now)) (content d)) }
{
    match value {
        Bson::Document(document) => copy_of_document(alloc, document, about),
        _ => Err(refuse(alloc, Code::BadValue, about)),
    }
}

/// A copy of the document under a key, or one without members if there is none. `BadValue` as of `copy_of_value`.
pub(crate) fn given(alloc: Global, command: &Document, key: &str) -> Result<Document, Fault>
    ensures { IfOk result (λ d. IsGiven (look_up key.now (content command.now)) (content d)) }
{
    match value_in(command, key) {
        None => Ok(Document::new(alloc)),
        Some(value) => copy_of_value(alloc, value, key),
    }
}

/// What a text reads as.
fn read<'t>(
    alloc: Global,
    text: &'t String,
    scratch: &'t mut Scratch,
    about: &str,
) -> Result<Value<'t>, Fault>
    ensures { IfOk result (λ v. tree_of (string_bytes text.now) ≡ Some (data_of v)) }
{
    match Value::parse_strict(alloc, text.as_str(), scratch) {
        Ok(value) => Ok(value),
        Err(json::Error::OutOfMemory) => Err(Fault::Memory),
        Err(_) => Err(refuse(alloc, Code::BadValue, about)),
    }
}

/// What becomes of a collection, without the text of a line. `NotImplemented` if it has one.
fn lasting_transfer(alloc: Global, how: Transfer<'_>) -> Result<Request<'static>, Fault>
    ensures { IfOk result (λ r. r ≡ requests.Transfer how.entry) }
{
    match how {
        Transfer::Drop => Ok(Request::Transfer(Transfer::Drop)),
        _ => Err(refuse(alloc, Code::NotImplemented, "request")),
    }
}

/// Lets a request go. A function with more in it than this is far dearer to prove.
fn discard(request: Request<'_>) {
    drop(request);
}

/// The request without the texts of its line: a question and a change by query borrow none. `NotImplemented` if it has
/// some.
fn lasting(alloc: Global, request: Request<'_>) -> Result<Request<'static>, Fault>
    ensures { IfOk result (λ r. r ≡ request.entry) }
{
    match request {
        Request::Find(question, wanted) => Ok(Request::Find(question, wanted)),
        Request::Count(question, part) => Ok(Request::Count(question, part)),
        Request::Change(question, work, all) => Ok(Request::Change(question, work, all)),
        Request::FindAndChange(question, wanted, work) => {
            Ok(Request::FindAndChange(question, wanted, work))
        }
        Request::Distinct(path, question, counts) => {
            Ok(Request::Distinct(path, question, counts))
        }
        Request::Aggregate(question, stages) => Ok(Request::Aggregate(question, stages)),
        Request::Collections => Ok(Request::Collections),
        Request::Transfer(how) => lasting_transfer(alloc, how),
        Request::Upsert(question, work, all, otherwise) => {
            Ok(Request::Upsert(question, work, all, otherwise))
        }
        other => {
            discard(other);
            Err(refuse(alloc, Code::NotImplemented, "request"))
        }
    }
}

/// The statement of a collection with this name, if there was memory for it.
fn named(name: Result<String, AllocError>, request: Request<'static>) -> Result<Statement, Fault>
    ensures { IfOk result (λ s. (Ok s.name ≡ name) × (s.request ≡ request.entry)) }
{
    match name {
        Ok(name) => Ok(Statement { name, request }),
        Err(_) => {
            discard(request);
            Err(Fault::Memory)
        }
    }
}

/// The statement that a question is.
fn statement_in(alloc: Global, question: Question<'_>) -> Result<Statement, Fault>
    ensures { IfOk result (λ s. (string_bytes s.name ≡ question.entry.collection.now) × (s.request ≡ question.entry.request)) }
{
    let name = String::from_str(alloc, question.collection);
    let request = lasting(alloc, question.request)?;
    named(name, request)
}

/// Why a line asks for nothing.
fn stopped(alloc: Global, stop: &Stop) -> Fault {
    match stop {
        Stop::Words(unread) => match unread.place(alloc) {
            Ok(place) => Fault::Refused(Code::BadValue, place),
            Err(_) => Fault::Memory,
        },
        Stop::Memory => Fault::Memory,
    }
}

/// What the line of a command with these values asks for. `BadValue` with what can't be read of it.
fn statement_of(
    alloc: Global,
    maker: &mut IdMaker,
    command: Command,
    items: &[Value<'_>],
) -> Result<Statement, Fault>
    ensures { IfOk result (StandsFor command (items_data items.now)) }
{
    let mut scratch = Scratch::new(alloc);
    match question_of_line(alloc, command, items, maker, &mut scratch) {
        Ok(question) => statement_in(alloc, question),
        Err(stop) => Err(stopped(alloc, &stop)),
    }
}

/// What the line of a command asks for.
fn statement_in_line(
    alloc: Global,
    maker: &mut IdMaker,
    command: Command,
    line: &Value<'_>,
) -> Result<Statement, Fault>
    ensures { IfOk result (StandsForLine command (data_of line.now)) }
{
    match items_of(line) {
        Some(items) => statement_of(alloc, maker, command, items),
        None => Err(refuse(alloc, Code::BadValue, "line")),
    }
}

/// What the line of a command asks for that is this text.
pub(crate) fn statement_in_text(
    alloc: Global,
    maker: &mut IdMaker,
    command: Command,
    text: &String,
) -> Result<Statement, Fault>
    ensures { IfOk result (IsRead command (string_bytes text.now)) }
{
    let mut scratch = Scratch::new(alloc);
    let line = read(alloc, text, &mut scratch, "line")?;
    statement_in_line(alloc, maker, command, &line)
}

/// The text of Extended JSON of a value.
pub(crate) fn text_of(alloc: Global, mode: Mode, value: &Bson) -> Result<String, AllocError>
    ensures { IfOk result (λ t. IsTextOf mode (view value.now) (string_bytes t)) }
{
    let mut text = String::new(alloc);
    bson_json::write_value(alloc, value, mode, &mut text)?;
    Ok(text)
}

/// The text of Extended JSON of values.
fn line_of(alloc: Global, mode: Mode, values: Vec<Bson>) -> Result<String, AllocError>
    ensures { IfOk result (λ t. IsTextOf mode (array (items_view (map view values.items))) (string_bytes t)) }
{
    text_of(alloc, mode, &Bson::Array(values))
}

/// What the line of a command with these values asks for.
pub(crate) fn statement_by(
    alloc: Global,
    maker: &mut IdMaker,
    command: Command,
    mode: Mode,
    values: Vec<Bson>,
) -> Result<Statement, Fault>
    ensures { IfOk result (IsLine mode command (items_view (map view values.items))) }
{
    let text = line_of(alloc, mode, values)?;
    statement_in_text(alloc, maker, command, &text)
}

/// A collection as the only value of a line.
pub(crate) fn one_value(alloc: Global, name: &str) -> Result<Vec<Bson>, AllocError>
    ensures { IfOk result (λ v. items_view (map view v.items) ≡ line_of_one name.now) }
{
    let mut values = Vec::new(alloc);
    values.push(Bson::String(String::from_str(alloc, name)?))?;
    Ok(values)
}

/// A collection and a document as the values of a line.
fn two_values(alloc: Global, name: &str, document: Document) -> Result<Vec<Bson>, AllocError>
    ensures { IfOk result (λ v. items_view (map view v.items) ≡ line_of_two name.now (content document)) }
{
    let mut values = Vec::new(alloc);
    values.push(Bson::String(String::from_str(alloc, name)?))?;
    values.push(Bson::Document(document))?;
    Ok(values)
}

/// A collection and two documents as the values of a line.
pub(crate) fn three_values(
    alloc: Global,
    name: &str,
    first: Document,
    second: Document,
) -> Result<Vec<Bson>, AllocError>
    ensures { IfOk result (λ v. items_view (map view v.items) ≡ line_of_three name.now (content first) (content second)) }
{
    let mut values = Vec::new(alloc);
    values.push(Bson::String(String::from_str(alloc, name)?))?;
    values.push(Bson::Document(first))?;
    values.push(Bson::Document(second))?;
    Ok(values)
}

/// A collection and three documents as the values of a line.
pub(crate) fn four_values(
    alloc: Global,
    name: &str,
    first: Document,
    second: Document,
    third: Document,
) -> Result<Vec<Bson>, AllocError>
    ensures { IfOk result (λ v. items_view (map view v.items) ≡ line_of_four name.now (content first) (content second) (content third)) }
{
    let mut values = Vec::new(alloc);
    values.push(Bson::String(String::from_str(alloc, name)?))?;
    values.push(Bson::Document(first))?;
    values.push(Bson::Document(second))?;
    values.push(Bson::Document(third))?;
    Ok(values)
}

/// A number as one of 64 bits with a sign. `BadValue` if it is greater.
fn signed(alloc: Global, number: u64, about: &str) -> Result<i64, Fault>
    ensures { IfOk result (λ n. n ≡ pos number) }
{
    match i64::try_from(number) {
        Ok(number) => Ok(number),
        Err(_) => Err(refuse(alloc, Code::BadValue, about)),
    }
}

/// The options of the line of `find`.
fn options_of(alloc: Global, command: &Document) -> Result<Document, Fault>
    ensures { IfOk result (λ d. AreOptions (content command.now) (content d)) }
{
    let (skip, most) = part_in(alloc, command)?;
    let skip = signed(alloc, skip, "skip")?;
    let most = signed(alloc, most, "limit")?;
    let sort = given(alloc, command, "sort")?;
    let fields = given(alloc, command, "projection")?;
    Ok(find_options(alloc, sort, skip, most, fields)?)
}

/// What `find` asks of a collection.
pub fn find_statement(
    alloc: Global,
    maker: &mut IdMaker,
    command: &Document,
    name: &str,
) -> Result<Statement, Fault>
    ensures { IfOk result (IsFind (content command.now) name.now) }
{
    let query = given(alloc, command, "filter")?;
    let options = options_of(alloc, command)?;
    let values = three_values(alloc, name, query, options)?;
    statement_by(alloc, maker, Command::Find, Mode::Relaxed, values)
}

/// What a count of the documents that answer a query asks of a collection.
pub fn count_by(
    alloc: Global,
    maker: &mut IdMaker,
    name: &str,
    query: Document,
) -> Result<Statement, Fault>
    ensures { IfOk result (IsLine Relaxed commands.Count (line_of_two name.now (content query))) }
{
    let values = two_values(alloc, name, query)?;
    statement_by(alloc, maker, Command::Count, Mode::Relaxed, values)
}

/// What `count` asks of a collection.
pub fn count_statement(
    alloc: Global,
    maker: &mut IdMaker,
    command: &Document,
    name: &str,
) -> Result<Statement, Fault>
    ensures { IfOk result (IsCount (look_up (codes "query") (content command.now)) name.now) }
{
    let query = given(alloc, command, "query")?;
    count_by(alloc, maker, name, query)
}

/// What a count of all documents asks of a collection.
pub fn count_all(alloc: Global, maker: &mut IdMaker, name: &str) -> Result<Statement, Fault>
    ensures { IfOk result (IsCount None name.now) }
{
    count_by(alloc, maker, name, Document::new(alloc))
}
