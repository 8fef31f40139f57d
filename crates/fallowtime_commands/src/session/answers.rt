//! The lines of answers.

ghost use Rattle.std.specs.Prelude.{◌≡◌, ◌++◌, Ok as Told, OnOk, codes, decimal, map, string_bytes};
ghost use Rattle.std.specs.Option.{option_map};
ghost use Rattle.json.specs.Json.{array, boolean, no_members, null, number as number_form};
ghost use Rattle.bson_model.specs.View.{view};
ghost use Rattle.bson_store.specs.Export.{bytes_of_each};
ghost use Rattle.fallowtime_commands.specs.Printing.{value_text};
ghost use Rattle.fallowtime_commands.specs.Answers.{IsLineOf, IsMember, Shows, ShowsBodies, ShowsBody, ShowsFound, ShowsValues, memory, one, refusal, texts, update, words, IsUpsert};
ghost use Rattle.fallowtime_commands.specs.Objects.{IsWritable, Makes, MakesLine, PutsValue, PutsValues, ShowsFault, comma_before, id_tree};
ghost use Rattle.fallowtime_commands.specs.Places.{place_text};

use crate::session::bodies::{BodyFault, joined, push, push_bodies};
use crate::session::objects::{begin, end, end_with, put_number};
use crate::session::places::Place;
use crate::{Answer, update_name};
use bson_json::parts::put_text;
use bson_json::write_value;
use bson_model::extjson::Mode;
use bson_model::{Binary, BinarySubtype, Bson};
use bson_store::StoreError;
use cli_convert::{PrintFault, text_of_body, text_of_value};
use fallowtime_requests::Layout;
use itoa::Buffer;
use json::Value;
use std::alloc::{AllocError, Global};
use store_pipeline::sorted::Counted;

/// The line of a refusal: its kind, the place of the document of several, and the path of the key.
fn refusal_line(
    alloc: Global,
    id: Option<&Value<'_>>,
    kind: &str,
    index: Option<u64>,
    path: Option<&str>,
) -> Result<Vec<u8>, AllocError>
    requires { IsWritable id }
    ensures { MakesLine (id_tree id.entry) (refusal kind.now index
        (option_map (λ t. t.now) path.entry)) result }
{
    let mut out = begin(alloc, id)?;
    put_text(&mut out, "error", kind)?;
    if let Some(index) = index {
        put_number(&mut out, "document", index)?;
    }
    if let Some(path) = path {
        put_text(&mut out, "key", path)?;
    }
    end(out)
}

/// The line for out of memory.
pub(crate) fn memory_line(alloc: Global, id: Option<&Value<'_>>) -> Result<Vec<u8>, AllocError>
    requires { IsWritable id }
    ensures { MakesLine (id_tree id.entry) memory result }
{
    refusal_line(alloc, id, "Memory", None, None)
}

/// The line for what is no question.
pub(crate) fn words_line(
    alloc: Global,
    id: Option<&Value<'_>>,
    place: &Place,
) -> Result<Vec<u8>, AllocError>
    requires { IsWritable id }
    ensures { MakesLine (id_tree id.entry) (words (place_text place.now)) result }
{
    let text = place.text(alloc)?;
    let mut out = begin(alloc, id)?;
    put_text(&mut out, "error", "Usage")?;
    put_text(&mut out, "at", text.as_str())?;
    end(out)
}

/// The line of nothing.
fn empty_line(alloc: Global, id: Option<&Value<'_>>) -> Result<Vec<u8>, AllocError>
    requires { IsWritable id }
    ensures { MakesLine (id_tree id.entry) no_members result }
{
    end(begin(alloc, id)?)
}

/// The line of a value.
fn value_line(
    alloc: Global,
    id: Option<&Value<'_>>,
    key: &str,
    value: &Bson,
) -> Result<Vec<u8>, AllocError>
    requires { IsWritable id }
    ensures { Makes (IsLineOf (id_tree id.entry) (IsMember key.now (view value.now))) result }
{
    let mut text = String::new(alloc);
    write_value(alloc, value, Mode::Canonical, &mut text)?;
    let mut out = begin(alloc, id)?;
    out.key(key)?;
    end_with(out, text.as_str())
}

/// The line of a truth value.
fn flag_line(alloc: Global, id: Option<&Value<'_>>, flag: bool) -> Result<Vec<u8>, AllocError>
    requires { IsWritable id }
    ensures { MakesLine (id_tree id.entry) (one (codes "was_there") (boolean flag)) result }
{
    let mut out = begin(alloc, id)?;
    out.key("was_there")?;
    out.boolean(flag)?;
    end(out)
}

/// The line of a number.
fn number_line(alloc: Global, id: Option<&Value<'_>>, number: u64) -> Result<Vec<u8>, AllocError>
    requires { IsWritable id }
    ensures { MakesLine (id_tree id.entry) (one (codes "count") (number_form (decimal number)))
        result }
{
    let mut out = begin(alloc, id)?;
    put_number(&mut out, "count", number)?;
    end(out)
}

/// The line of an update: how many documents were selected, and of how many it made other ones.
fn update_line(
    alloc: Global,
    id: Option<&Value<'_>>,
    matched: u64,
    changed: u64,
) -> Result<Vec<u8>, AllocError>
    requires { IsWritable id }
    ensures { MakesLine (id_tree id.entry) (update matched changed) result }
{
    let mut out = begin(alloc, id)?;
    put_number(&mut out, "matched", matched)?;
    put_number(&mut out, "changed", changed)?;
    end(out)
}

/// The line of a change that put a document in, with its `_id`.
fn upsert_line(alloc: Global, id: Option<&Value<'_>>, own: &Bson) -> Result<Vec<u8>, AllocError>
    requires { IsWritable id }
    ensures { Makes (IsLineOf (id_tree id.entry) (IsUpsert (view own.now))) result }
{
    let mut text = String::new(alloc);
    write_value(alloc, own, Mode::Canonical, &mut text)?;
    let mut out = begin(alloc, id)?;
    put_number(&mut out, "matched", 0)?;
    put_number(&mut out, "changed", 0)?;
    out.key("upserted")?;
    end_with(out, text.as_str())
}

/// The line of names.
fn names_line(
    alloc: Global,
    id: Option<&Value<'_>>,
    names: &[String],
) -> Result<Vec<u8>, AllocError>
    requires { IsWritable id }
    ensures { MakesLine (id_tree id.entry) (one (codes "names")
        (array (texts (map string_bytes names.now)))) result }
{
    let mut out = begin(alloc, id)?;
    out.key("names")?;
    out.begin_array()?;
    for name in names {
        out.string(name.as_str())?;
    }
    out.end_array()?;
    end(out)
}

/// The line of the bytes of stored documents.
fn stream_line(
    alloc: Global,
    id: Option<&Value<'_>>,
    bodies: &[Vec<u8>],
) -> Result<Vec<u8>, AllocError>
    requires { IsWritable id }
    ensures { Makes (ShowsBodies Layout.Stream (id_tree id.entry) (bytes_of_each bodies.now))
        result }
{
    let bytes = joined(alloc, bodies)?;
    let value = Bson::Binary(Binary {
        subtype: BinarySubtype::Generic,
        bytes,
    });
    value_line(alloc, id, "bytes", &value)
}

/// The line of a stored document that has no text.
fn fault_line(
    alloc: Global,
    id: Option<&Value<'_>>,
    index: Option<u64>,
    fault: &PrintFault,
) -> Result<Vec<u8>, AllocError>
    requires { IsWritable id }
    ensures { Makes (ShowsFault (id_tree id.entry) index fault.now) result }
{
    match fault {
        PrintFault::ReservedKey(path) => {
            refusal_line(alloc, id, "ReservedKey", index, Some(path.as_str()))
        }
        PrintFault::Damaged => refusal_line(alloc, id, "Database", index, None),
        PrintFault::Memory => Err(AllocError),
    }
}

/// The line of a stored document.
fn document_line(alloc: Global, id: Option<&Value<'_>>, body: &[u8]) -> Result<Vec<u8>, AllocError>
    requires { IsWritable id }
    ensures { Makes (ShowsBody (id_tree id.entry) body.now) result }
{
    let mut text = String::new(alloc);
    match text_of_body(alloc, body, Mode::Canonical, &mut text) {
        Ok(()) => {
            let mut out = begin(alloc, id)?;
            out.key("document")?;
            end_with(out, text.as_str())
        }
        Err(fault) => fault_line(alloc, id, None, &fault),
    }
}

/// The line of no document where one might be.
fn null_line(alloc: Global, id: Option<&Value<'_>>) -> Result<Vec<u8>, AllocError>
    requires { IsWritable id }
    ensures { MakesLine (id_tree id.entry) (one (codes "document") null) result }
{
    let mut out = begin(alloc, id)?;
    out.key("document")?;
    out.null()?;
    end(out)
}

/// The line of the document that was found and changed, if one was.
fn changed_line(
    alloc: Global,
    id: Option<&Value<'_>>,
    found: &Option<Vec<u8>>,
) -> Result<Vec<u8>, AllocError>
    requires { IsWritable id }
    ensures { Makes (ShowsFound (id_tree id.entry) found.now) result }
{
    match found {
        Some(body) => document_line(alloc, id, body.as_slice()),
        None => null_line(alloc, id),
    }
}

/// The line of stored documents.
fn documents_line(
    alloc: Global,
    id: Option<&Value<'_>>,
    bodies: &[Vec<u8>],
) -> Result<Vec<u8>, AllocError>
    requires { IsWritable id }
    ensures { Makes (ShowsBodies Layout.Each (id_tree id.entry) (bytes_of_each bodies.now)) result }
{
    let mut out = begin(alloc, id)?;
    out.key("documents")?;
    let mut line = out.into_inner();
    line.push(b'[')?;
    match push_bodies(alloc, bodies, &mut line) {
        Ok(()) => {
            line.extend_from_slice(b"]}\n")?;
            Ok(line)
        }
        Err(BodyFault { index, fault }) => fault_line(alloc, id, Some(index), &fault),
    }
}

/// Appends a value by its text, or an object with it and the number of documents, after a comma if there are others
/// before it.
fn push_value(
    index: usize,
    counted: &Counted,
    counts: bool,
    text: &str,
    line: &mut Vec<u8>,
) -> Result<(), AllocError>
    ensures { OnOk result (line.new.items ≡ line.old.items
        ++ (comma_before index ++ value_text counts text.now counted.now.documents)) }
{
    if !counts {
        return push(line, index, text.as_bytes());
    }
    let mut digits = Buffer::new();
    push(line, index, b"{\"value\":")?;
    line.extend_from_slice(text.as_bytes())?;
    line.extend_from_slice(b",\"count\":")?;
    line.extend_from_slice(digits.format(counted.documents).as_bytes())?;
    line.push(b'}')?;
    Ok(())
}

/// The same of a value that may have no text. `text` is room that is kept from value to value.
fn push_told(
    alloc: Global,
    index: usize,
    counted: &Counted,
    counts: bool,
    text: &mut String,
    line: &mut Vec<u8>,
) -> Result<(), PrintFault>
    ensures { PutsValue index counts counted.now line.old.items line.new.items result }
{
    text_of_value(alloc, &counted.value, Mode::Canonical, text)?;
    match push_value(index, counted, counts, text.as_str(), line) {
        Ok(()) => Ok(()),
        Err(_) => Err(PrintFault::Memory),
    }
}

/// Appends values, with commas between them; or tells the fault of the first that has no text.
fn push_values(
    alloc: Global,
    values: &[Counted],
    counts: bool,
    line: &mut Vec<u8>,
) -> Result<(), PrintFault>
    ensures { PutsValues counts values.now line.old.items line.new.items result }
{
    let mut text = String::new(alloc);
    for (index, counted) in values.iter().enumerate() {
        push_told(alloc, index, counted, counts, &mut text, line)?;
    }
    Ok(())
}

/// The line of different values.
fn values_line(
    alloc: Global,
    id: Option<&Value<'_>>,
    values: &[Counted],
    counts: bool,
) -> Result<Vec<u8>, AllocError>
    requires { IsWritable id }
    ensures { Makes (IsLineOf (id_tree id.entry) (ShowsValues counts values.now)) result }
{
    let mut out = begin(alloc, id)?;
    out.key("values")?;
    let mut line = out.into_inner();
    line.push(b'[')?;
    match push_values(alloc, values, counts, &mut line) {
        Ok(()) => {
            line.extend_from_slice(b"]}\n")?;
            Ok(line)
        }
        Err(fault) => fault_line(alloc, id, None, &fault),
    }
}

/// The line of an answer.
pub(crate) fn told_line(
    alloc: Global,
    id: Option<&Value<'_>>,
    layout: Layout,
    answer: &Answer,
) -> Result<Vec<u8>, AllocError>
    requires { IsWritable id }
    ensures { Makes (Shows layout (id_tree id.entry) (Told answer.now)) result }
{
    match answer {
        Answer::Nothing => empty_line(alloc, id),
        Answer::Id(value) => value_line(alloc, id, "_id", value),
        Answer::Flag(flag) => flag_line(alloc, id, *flag),
        Answer::Number(number) => number_line(alloc, id, *number),
        Answer::Document(body) => document_line(alloc, id, body.as_slice()),
        Answer::Documents(bodies) => match layout {
            Layout::Each => documents_line(alloc, id, bodies.as_slice()),
            Layout::Stream => stream_line(alloc, id, bodies.as_slice()),
        },
        Answer::Found(found) => changed_line(alloc, id, found),
        Answer::Names(names) => names_line(alloc, id, names.as_slice()),
        Answer::Values(values, counts) => values_line(alloc, id, values.as_slice(), *counts),
        Answer::Updated(matched, changed) => update_line(alloc, id, *matched, *changed),
        Answer::NotUpdated(at, error) => {
            refusal_line(alloc, id, update_name(*error), Some(*at), None)
        }
        Answer::Upserted(own) => upsert_line(alloc, id, own),
        Answer::NotUpserted(error) => refusal_line(alloc, id, update_name(*error), None, None),
        Answer::NotCalculated(error) => refusal_line(alloc, id, update_name(*error), None, None),
    }
}

/// The line of what the store returned.
pub(crate) fn answer_line(
    alloc: Global,
    id: Option<&Value<'_>>,
    layout: Layout,
    outcome: &Result<Answer, StoreError>,
) -> Result<Vec<u8>, AllocError>
    requires { IsWritable id }
    ensures { Makes (Shows layout (id_tree id.entry) outcome.now) result }
{
    match outcome {
        Ok(answer) => told_line(alloc, id, layout, answer),
        Err(error) => refusal_line(alloc, id, error.kind.name(), error.document, None),
    }
}
