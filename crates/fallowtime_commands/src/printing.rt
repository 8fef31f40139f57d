//! What is printed of an answer.

ghost use Rattle.std.specs.Prelude.{◌≡◌, OnErr, OnOk, Some, map, string_bytes};
ghost use Rattle.std.specs.Io.KnownBytes.{Appends};
ghost use Rattle.bson_base.specs.Device.{CanRefuse, Counts, TakesBeginning};
ghost use Rattle.cli_commands.specs.Lines.{concatenation};
ghost use Rattle.bson_store.specs.Export.{bytes_of_each};
ghost use Rattle.store_model.specs.Refusal.{refusal, refusal_at};
ghost use Rattle.store_model.specs.declared.error.ErrorKind.TheVariants.{BadKey};
ghost use Rattle.fallowtime_commands.specs.Printing.{IsIdText, Prints, PrintsBodies, PrintsBody, PrintsFound, PrintsLine, PrintsName, PrintsNames, PrintsValue, PrintsValues, counted_text, key_of_fault, kind_of_fault, mode_of, update_text, upsert_text};

use crate::answer::Answer;
use crate::ids::id_of_body;
use crate::refusal::Refusal;
use bson_base::{DeviceFault, Sink, write_all};
use bson_store::extjson::Mode;
use bson_store::{ErrorKind, StoreError};
use cli_commands::write_line;
use cli_convert::{PrintFault, shown, text_of_body, text_of_value};
use itoa::Buffer;
use std::alloc::Global;
use store_pipeline::sorted::Counted;
use store_update::UpdateError;

/// How documents are printed.
#[derive(Clone, Copy, Debug, PartialEq, Eq)]
pub enum Form {
    /// As lines of Extended JSON in this mode.
    Lines(Mode),
    /// As BSON, one after the other.
    Bytes,
}

/// Why the document that a store keeps as `body` has no text.
fn unprinted(alloc: Global, body: &[u8], fault: PrintFault) -> Refusal
    ensures error { result.error ≡ refusal (kind_of_fault fault) }
    ensures key { result.key ≡ key_of_fault fault }
{
    match fault {
        PrintFault::ReservedKey(path) => Refusal {
            id: id_of_body(alloc, body),
            key: Some(path),
            ..Refusal::from(ErrorKind::ReservedKey)
        },
        PrintFault::Damaged => Refusal::from(ErrorKind::Database),
        PrintFault::Memory => Refusal::from(ErrorKind::Memory),
    }
}

/// Why a value has no text.
fn unprinted_value(fault: PrintFault) -> Refusal
    ensures error { result.error ≡ refusal (kind_of_fault fault) }
    ensures key { result.key ≡ key_of_fault fault }
{
    match fault {
        PrintFault::ReservedKey(path) => Refusal {
            key: Some(path),
            ..Refusal::from(ErrorKind::ReservedKey)
        },
        PrintFault::Damaged => Refusal::from(ErrorKind::Database),
        PrintFault::Memory => Refusal::from(ErrorKind::Memory),
    }
}

/// Writes the line of a body. `text` is room that is kept from line to line.
fn print_text<O: Sink>(
    alloc: Global,
    body: &[u8],
    mode: Mode,
    text: &mut String,
    output: &mut O,
) -> Result<(), Refusal>
    requires { CanRefuse (O.tally output.old) }
    ensures { PrintsBody (Form.Lines mode) body.now (O.tally output.old)
        (O.tally output.new) result }
{
    if let Err(fault) = text_of_body(alloc, body, mode, text) {
        return Err(unprinted(alloc, body, fault));
    }
    print_line(text.as_str(), output)
}

/// Writes a body in its form.
fn print_body<O: Sink>(
    alloc: Global,
    body: &[u8],
    form: Form,
    text: &mut String,
    output: &mut O,
) -> Result<(), Refusal>
    requires { CanRefuse (O.tally output.old) }
    ensures { PrintsBody form body.now (O.tally output.old) (O.tally output.new) result }
{
    match form {
        Form::Lines(mode) => print_text(alloc, body, mode, text, output),
        Form::Bytes => match write_all(output, body) {
            Ok(()) => Ok(()),
            Err(_) => Err(Refusal::from(ErrorKind::Writer)),
        },
    }
}

/// Writes bodies in their form, one after the other.
fn print_bodies<O: Sink>(
    alloc: Global,
    bodies: &[Vec<u8>],
    form: Form,
    output: &mut O,
) -> Result<(), Refusal>
    requires { CanRefuse (O.tally output.old) }
    ensures { PrintsBodies form (bytes_of_each bodies.now) (O.tally output.old)
        (O.tally output.new) result }
{
    let mut text = String::new(alloc);
    for body in bodies {
        print_body(alloc, body.as_slice(), form, &mut text, output)?;
    }
    Ok(())
}

/// Writes a line.
fn print_line<O: Sink>(text: &str, output: &mut O) -> Result<(), Refusal>
    requires { CanRefuse (O.tally output.old) }
    ensures { PrintsLine text.now (O.tally output.old) (O.tally output.new) result }
{
    match write_line(output, text) {
        Ok(()) => Ok(()),
        Err(_) => Err(Refusal::from(ErrorKind::Writer)),
    }
}

/// Writes a name on a line: as it is, or, if it has a control character or begins with a quote, as JSON.
fn print_name<O: Sink>(alloc: Global, name: &str, output: &mut O) -> Result<(), Refusal>
    requires { CanRefuse (O.tally output.old) }
    ensures { PrintsName name.now (O.tally output.old) (O.tally output.new) result }
{
    let name = shown(alloc, name)?;
    print_line(name.as_str(), output)
}

/// Writes names, one a line.
fn print_names<O: Sink>(alloc: Global, names: &[String], output: &mut O) -> Result<(), Refusal>
    requires { CanRefuse (O.tally output.old) }
    ensures { PrintsNames (map string_bytes names.now) (O.tally output.old)
        (O.tally output.new) result }
{
    for name in names {
        print_name(alloc, name.as_str(), output)?;
    }
    Ok(())
}

/// Writes the line of a value that is counted, of its text and the digits of the number.
fn print_counted<'a, O: Sink>(text: &'a str, digits: &'a str, output: &mut O) -> Result<(), Refusal>
    requires { CanRefuse (O.tally output.old) }
    ensures { PrintsLine (counted_text text.now digits.now) (O.tally output.old)
        (O.tally output.new) result }
{
    let parts = ["{\"value\":", text, ",\"count\":", digits, "}\n"];
    match write_parts(output, &parts) {
        Ok(()) => Ok(()),
        Err(_) => Err(Refusal::from(ErrorKind::Writer)),
    }
}

/// Writes a value on a line: its text, or, if it is counted, an object with it and the number of documents. `text` is
/// room that is kept from line to line.
fn print_value<O: Sink>(
    alloc: Global,
    counted: &Counted,
    counts: bool,
    mode: Mode,
    text: &mut String,
    output: &mut O,
) -> Result<(), Refusal>
    requires { CanRefuse (O.tally output.old) }
    ensures { PrintsValue mode counts counted.now (O.tally output.old) (O.tally output.new) result }
{
    if let Err(fault) = text_of_value(alloc, &counted.value, mode, text) {
        return Err(unprinted_value(fault));
    }
    if !counts {
        return print_line(text.as_str(), output);
    }
    let mut digits = Buffer::new();
    print_counted(text.as_str(), digits.format(counted.documents), output)
}

/// Writes values, one a line.
fn print_values<O: Sink>(
    alloc: Global,
    values: &[Counted],
    counts: bool,
    mode: Mode,
    output: &mut O,
) -> Result<(), Refusal>
    requires { CanRefuse (O.tally output.old) }
    ensures { PrintsValues mode counts values.now (O.tally output.old) (O.tally output.new) result }
{
    let mut text = String::new(alloc);
    for counted in values {
        print_value(alloc, counted, counts, mode, &mut text, output)?;
    }
    Ok(())
}

/// Writes texts, one after the other, as `write_parts` of cli_commands does, which it keeps to itself.
fn write_parts<O: Sink>(output: &mut O, parts: &[&str]) -> Result<(), DeviceFault>
    requires { CanRefuse (O.tally output.old) }
    ensures counts { Counts (O.tally output.old).failures (O.tally output.new).failures result }
    ensures ok { OnOk result (Appends (O.tally output.old).taken (O.tally output.new).taken
        (concatenation parts.now)) }
    ensures err { OnErr result (TakesBeginning (O.tally output.old).taken
        (O.tally output.new).taken (concatenation parts.now)) }
{
    for part in parts {
        write_all(output, part.as_bytes())?;
    }
    Ok(())
}

/// Writes how many documents were selected for an update, and of how many it made other ones, as JSON on a line. It
/// takes no memory, as the change is made.
fn print_update<O: Sink>(matched: u64, changed: u64, output: &mut O) -> Result<(), Refusal>
    requires { CanRefuse (O.tally output.old) }
    ensures { PrintsLine (update_text matched changed) (O.tally output.old) (O.tally output.new)
        result }
{
    let mut first = Buffer::new();
    let mut second = Buffer::new();
    let parts = [
        "{\"matched\":",
        first.format(matched),
        ",\"changed\":",
        second.format(changed),
        "}\n",
    ];
    match write_parts(output, &parts) {
        Ok(()) => Ok(()),
        Err(_) => Err(Refusal::from(ErrorKind::Writer)),
    }
}

/// Writes that none was selected, and the text of the `_id` of the document that went in, as JSON on a line. It takes
/// no memory, as the change is made.
fn print_upsert<O: Sink>(id: &str, output: &mut O) -> Result<(), Refusal>
    requires { CanRefuse (O.tally output.old) }
    ensures { PrintsLine (upsert_text id.now) (O.tally output.old) (O.tally output.new) result }
{
    let parts = ["{\"matched\":0,\"changed\":0,\"upserted\":", id, "}\n"];
    match write_parts(output, &parts) {
        Ok(()) => Ok(()),
        Err(_) => Err(Refusal::from(ErrorKind::Writer)),
    }
}

/// The refusal of an update of the query's equality fields, or of a sum.
fn refused_by_name(error: UpdateError) -> Refusal
    ensures error { result.error ≡ refusal BadKey }
    ensures update { result.update ≡ Some error }
{
    Refusal {
        update: Some(error),
        ..Refusal::from(ErrorKind::BadKey)
    }
}

/// The refusal of an update of the document at a place.
fn refused_update(at: u64, error: UpdateError) -> Refusal
    ensures error { result.error ≡ refusal_at BadKey at }
    ensures update { result.update ≡ Some error }
{
    Refusal {
        update: Some(error),
        ..Refusal::from(StoreError::at(ErrorKind::BadKey, at))
    }
}

/// The form of Extended JSON for what is no document.
pub(crate) fn mode_of(form: Form) -> Mode
    ensures { result ≡ mode_of form }
{
    match form {
        Form::Lines(mode) => mode,
        Form::Bytes => Mode::Relaxed,
    }
}

/// Writes the document that was found and changed, if one was.
fn print_changed<O: Sink>(
    alloc: Global,
    found: &Option<Vec<u8>>,
    form: Form,
    output: &mut O,
) -> Result<(), Refusal>
    requires { CanRefuse (O.tally output.old) }
    ensures { PrintsFound form found.now (O.tally output.old) (O.tally output.new) result }
{
    match found {
        Some(body) => {
            let mut text = String::new(alloc);
            print_body(alloc, body.as_slice(), form, &mut text, output)
        }
        None => Ok(()),
    }
}

/// Writes an answer: an id, a number, the numbers of an update, the id of what it put in, `true` or `false` on a line,
/// documents in their form, names one a line. Of an id it is handed the text, which is made before the change is.
///
/// Refused, with nothing written, as the update is that isn't made of a document or of a query's equality fields, or the
/// sum that isn't calculated.
/// Refused by ReservedKey if a document has a key below its top that Extended JSON reserves, and then the documents
/// before it are written; by Writer if a write failed, and by Memory, but not after a change that returns no document.
/// A prefix may be written then.
pub(crate) fn print<O: Sink>(
    alloc: Global,
    answer: &Answer,
    id: &str,
    form: Form,
    output: &mut O,
) -> Result<(), Refusal>
    requires sink { CanRefuse (O.tally output.old) }
    requires text { IsIdText form answer.now id.now }
    ensures { Prints form answer.now (O.tally output.old) (O.tally output.new) result }
{
    match answer {
        Answer::Nothing => Ok(()),
        Answer::Id(_) => print_line(id, output),
        Answer::Flag(flag) => print_line(if *flag { "true" } else { "false" }, output),
        Answer::Number(number) => {
            let mut digits = Buffer::new();
            print_line(digits.format(*number), output)
        }
        Answer::Document(body) => {
            let mut text = String::new(alloc);
            print_body(alloc, body.as_slice(), form, &mut text, output)
        }
        Answer::Documents(bodies) => print_bodies(alloc, bodies.as_slice(), form, output),
        Answer::Found(found) => print_changed(alloc, found, form, output),
        Answer::Names(names) => print_names(alloc, names.as_slice(), output),
        Answer::Values(values, counts) => {
            print_values(alloc, values.as_slice(), *counts, mode_of(form), output)
        }
        Answer::Updated(matched, changed) => print_update(*matched, *changed, output),
        Answer::NotUpdated(at, error) => Err(refused_update(*at, *error)),
        Answer::Upserted(_) => print_upsert(id, output),
        Answer::NotUpserted(error) => Err(refused_by_name(*error)),
        Answer::NotCalculated(error) => Err(refused_by_name(*error)),
    }
}
