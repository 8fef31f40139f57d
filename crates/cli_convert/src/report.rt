//! What is reported of a conversion that ended before its input did.

ghost use Rattle.std.specs.Prelude.{◌≡◌, ◌⊎◌, ◌++◌, codes, IfOk, string_bytes};
ghost use Rattle.bson_base.specs.Device.{CanRefuse, TakesText};
ghost use Rattle.cli_convert.specs.Shown.{shown};
ghost use Rattle.cli_convert.specs.Reports.{byte_text as text_of_byte, fault_text, kind_name as name_of_kind, line_text, memory_line, misuse as misuse_of, refusal as refusal_of, stop_status, stop_text, text_fault, Reports, SendsWhole};

use crate::shown_text::shown;
use crate::stop::{Fault, LineFault, Stop};
use bson_base::{Sink, write_all};
use bson_json_read::Error;
use bson_raw::ErrorKind;
use itoa::Buffer;
use std::alloc::{AllocError, Global};

/// The status of a program whose input or output is at fault.
pub const REFUSED: u8 = 1;
/// The status of a program whose words, or a line of whose input, can't be read.
pub const MISUSED: u8 = 2;

/// The line if there is no memory for another one.
const OUT_OF_MEMORY: &str = "refused: Memory\n";

/// The word for a kind of fault in a report; `Memory` for a refused growth.
fn kind_name(kind: ErrorKind) -> &'static str
    ensures { result.now ≡ name_of_kind kind }
{
    match kind {
        ErrorKind::MalformedValue => "MalformedValue",
        ErrorKind::Utf8EncodingError => "Utf8EncodingError",
        ErrorKind::OutOfMemory => "Memory",
    }
}

/// The line for a document, counted from 0: `refused: KIND document PLACE`, then `more`, which is empty or begins with
/// a space, and a line feed.
fn refusal(alloc: Global, kind: &str, place: u64, more: &str) -> Result<String, AllocError>
    ensures { IfOk result (λ t. string_bytes t ≡ refusal_of kind.now place more.now) }
{
    let mut digits = Buffer::new();
    let mut line = String::from_str(alloc, "refused: ")?;
    line.push_str(kind)?;
    line.push_str(" document ")?;
    line.push_str(digits.format(place))?;
    line.push_str(more)?;
    line.push_str("\n")?;
    Ok(line)
}

/// A path after a space, as a line may show it.
fn path_text(alloc: Global, path: &str) -> Result<String, AllocError>
    ensures { IfOk result (λ t. string_bytes t ≡ codes " " ++ shown path.now) }
{
    let path = shown(alloc, path)?;
    let mut text = String::from_str(alloc, " ")?;
    text.push_str(path.as_str())?;
    Ok(text)
}

/// The line of a document that is refused.
fn fault_line(alloc: Global, place: u64, fault: &Fault) -> Result<String, AllocError>
    ensures { IfOk result (λ t. string_bytes t ≡ fault_text place fault.now) }
{
    match fault {
        Fault::EndInside => refusal(alloc, "EndInside", place, ""),
        Fault::BadLength => refusal(alloc, "BadLength", place, ""),
        Fault::Raw(error) => refusal(alloc, kind_name(error.kind), place, ""),
        Fault::ReservedKey(path) => {
            let path = path_text(alloc, path.as_str())?;
            refusal(alloc, "ReservedKey", place, path.as_str())
        }
    }
}

/// The line for a line of the input, counted from 1: `words: line NUMBER`, then `byte`, which is empty or begins with a
/// space, and then a space, the kind and a line feed.
fn misuse(alloc: Global, number: u64, byte: &str, kind: &str) -> Result<String, AllocError>
    ensures { IfOk result (λ t. string_bytes t ≡ misuse_of number byte.now kind.now) }
{
    let mut digits = Buffer::new();
    let mut line = String::from_str(alloc, "words: line ")?;
    line.push_str(digits.format(number))?;
    line.push_str(byte)?;
    line.push_str(" ")?;
    line.push_str(kind)?;
    line.push_str("\n")?;
    Ok(line)
}

/// The line of a text that is refused.
fn text_line(alloc: Global, number: u64, error: Error) -> Result<String, AllocError>
    ensures { IfOk result (λ t. string_bytes t ≡ text_fault number error) }
{
    match error {
        Error::NotJson(byte) => line_at(alloc, number, byte, "NotJson"),
        Error::RepeatedKey => misuse(alloc, number, "", "RepeatedKey"),
        Error::InvalidObjectId(_) => misuse(alloc, number, "", "InvalidObjectId"),
        Error::NumberOutOfRange => misuse(alloc, number, "", "NumberOutOfRange"),
        Error::NotExtendedJson => misuse(alloc, number, "", "NotExtendedJson"),
        Error::Memory => misuse(alloc, number, "", "Memory"),
    }
}

/// The place of a byte. It is counted from 1 here, as lines are.
fn byte_text(alloc: Global, byte: usize) -> Result<String, AllocError>
    ensures { IfOk result (λ t. string_bytes t ≡ text_of_byte byte) }
{
    let place = byte.saturating_add(1);
    format!(in alloc; " byte {place}")
}

/// The line of a line that is refused at a byte.
fn line_at(alloc: Global, number: u64, byte: usize, kind: &str) -> Result<String, AllocError>
    ensures { IfOk result (λ t. string_bytes t ≡ misuse_of number (text_of_byte byte) kind.now) }
{
    let place = byte_text(alloc, byte)?;
    misuse(alloc, number, place.as_str(), kind)
}

/// The line of a line that is refused.
fn line_line(alloc: Global, number: u64, fault: &LineFault) -> Result<String, AllocError>
    ensures { IfOk result (λ t. string_bytes t ≡ line_text number fault.now) }
{
    match fault {
        LineFault::TooLong => misuse(alloc, number, "", "TooLong"),
        LineFault::NotUtf8(byte) => line_at(alloc, number, *byte, "Utf8EncodingError"),
        LineFault::Text(error) => text_line(alloc, number, *error),
        LineFault::Raw(error) => misuse(alloc, number, "", kind_name(error.kind)),
    }
}

/// What is reported of a conversion that ended so, with the line feed.
fn stop_line(alloc: Global, stop: &Stop) -> Result<String, AllocError>
    ensures { IfOk result (λ t. string_bytes t ≡ stop_text stop.now) }
{
    match stop {
        Stop::Document(place, fault) => fault_line(alloc, *place, fault),
        Stop::Line(number, fault) => line_line(alloc, *number, fault),
        Stop::Reader => String::from_str(alloc, "refused: Reader\n"),
        Stop::Writer => String::from_str(alloc, "refused: Writer\n"),
        Stop::Memory => String::from_str(alloc, OUT_OF_MEMORY),
    }
}

/// The program's status after a conversion that ended so: 2 if a line of the input is at fault, else 1.
fn status_of(stop: &Stop) -> u8
    ensures { result ≡ stop_status stop.now }
{
    match stop {
        Stop::Document(_, _) => REFUSED,
        Stop::Line(_, _) => MISUSED,
        Stop::Reader => REFUSED,
        Stop::Writer => REFUSED,
        Stop::Memory => REFUSED,
    }
}

/// Writes bytes. A failure is ignored.
pub(crate) fn put<S: Sink>(sink: &mut S, bytes: &[u8])
    requires { CanRefuse (S.tally sink.old) }
    ensures { TakesText (S.tally sink.old) (S.tally sink.new) bytes.now }
{
    let _ = write_all(sink, bytes);
}

/// Writes bytes. `Writer` if a write failed, and a prefix of them was written.
pub(crate) fn send<O: Sink>(output: &mut O, bytes: &[u8]) -> Result<(), Stop>
    requires { CanRefuse (O.tally output.old) }
    ensures { SendsWhole bytes.now (O.tally output.old) (O.tally output.new) result }
{
    match write_all(output, bytes) {
        Ok(()) => Ok(()),
        Err(_) => Err(Stop::Writer),
    }
}

/// Writes the line of what is refused.
fn tell<F: Sink>(alloc: Global, stop: &Stop, faults: &mut F)
    requires { CanRefuse (F.tally faults.old) }
    ensures { TakesText (F.tally faults.old) (F.tally faults.new) (stop_text stop.now) ⊎ TakesText (F.tally faults.old) (F.tally faults.new) memory_line }
{
    match stop_line(alloc, stop) {
        Ok(line) => put(faults, line.as_bytes()),
        Err(_) => put(faults, OUT_OF_MEMORY.as_bytes()),
    }
}

/// Reports why a conversion ended before its input did, and returns the program's status.
pub fn report_end<F: Sink>(alloc: Global, done: Result<(), Stop>, faults: &mut F) -> u8
    requires { CanRefuse (F.tally faults.old) }
    ensures { Reports done (F.tally faults.old) (F.tally faults.new) result }
{
    match done {
        Ok(()) => 0,
        Err(stop) => {
            tell(alloc, &stop, faults);
            status_of(&stop)
        }
    }
}
