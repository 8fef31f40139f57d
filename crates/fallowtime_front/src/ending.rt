//! Why `fallowtime` ends before its work is done, and what it reports of it.

ghost use Rattle.std.specs.Prelude.{◌≡◌, IfOk, OnErr, string_bytes};
ghost use Rattle.bson_base.specs.Device.{CanRefuse, TakesText};
ghost use Rattle.cli_convert.specs.Reports.{memory_line};
ghost use Rattle.fallowtime_front.specs.Ending.{TellsEnd, ended_by, kind_of_line as line_kind, place_of as line_of, request_text};

use bson_base::{Sink, write_all};
use cli_convert::{Stop as LineStop, report_end};
use cli_files::{FileError, report_file};
use fallowtime_commands::Refusal;
use fallowtime_commands::session::Place;
use fallowtime_requests::{Stop, Unread};
use itoa::Buffer;
use std::alloc::{AllocError, Global};
use std::io;
use store_model::ErrorKind;

/// Why the program ends before its work is done.
#[derive(Drop)]
pub enum Ended {
    /// The words can't be read.
    Words(Unread),
    /// The lines of the input can't be read.
    Lines(LineStop),
    /// The line with this number, counted from 1, is no request, or none that a list has, as is seen at this place.
    Line(u64, Place),
    /// The store or a device refused, or it is out of memory.
    Refused(Refusal),
    /// The file can't be used.
    File(FileError),
}

/// The kind of a refusal of a document that was written from a line: its length is at fault only by being too long.
fn kind_of_line(kind: ErrorKind) -> ErrorKind
    ensures { result ≡ line_kind kind }
{
    match kind {
        ErrorKind::BadLength => ErrorKind::TooLong,
        kind => kind,
    }
}

/// The line that the document with a number came from, if there are lines.
fn place_of(lines: &[u64], document: Option<u64>) -> Option<u64>
    ensures { result ≡ line_of lines.now document }
{
    lines.get(document? as usize).copied()
}

impl Ended {
    ghost use Rattle.std.specs.Prelude.{◌≡◌};
    ghost use Rattle.fallowtime_front.specs.Ending.{name_of_kind, place_of as line_of, placed};
    ghost use Rattle.fallowtime_front.specs.declared.ending.Ended.TheVariants.{Refused};

    /// The name of its kind, as `--explain` takes it; empty of a file that can't be had, which says itself what helps.
    pub fn kind(&self) -> &'static str
        ensures { result.now ≡ name_of_kind self.now }
    {
        match self {
            Ended::Words(Unread::Document(_) | Unread::Value(_)) => "JSON",
            Ended::Words(Unread::Id(_)) => "id",
            Ended::Words(Unread::Query(_) | Unread::Equalities(_)) => "query",
            Ended::Words(Unread::Update(_)) => "update",
            Ended::Words(Unread::Options) => "options",
            Ended::Words(Unread::Fields) => "fields",
            Ended::Words(Unread::Stages) => "stages",
            Ended::Words(_) => "usage",
            Ended::Lines(LineStop::Line(_, _)) | Ended::Line(_, _) => "line",
            Ended::Refused(refusal) => refusal.name(),
            Ended::Lines(_) | Ended::File(_) => "",
        }
    }

    /// A refusal, of a document that came from one of these lines.
    fn of_line(mut refusal: Refusal, lines: &[u64]) -> Ended
        ensures { result ≡ Refused (placed (line_of lines.now refusal.error.document) refusal) }
    {
        refusal.line = place_of(lines, refusal.error.document);
        if refusal.line.is_some() {
            refusal.error.kind = kind_of_line(refusal.error.kind);
        }
        Ended::Refused(refusal)
    }
}

/// How a result ends a command whose documents came from these lines: a refusal names the line of its document. With no
/// lines it stays as it is.
pub fn ended_of(done: Result<(), Refusal>, lines: &[u64]) -> Result<(), Ended>
    ensures { result ≡ ended_by lines.now done }
{
    match done {
        Ok(()) => Ok(()),
        Err(refusal) => Err(Ended::of_line(refusal, lines)),
    }
}

impl From<Stop> for Ended {
    ghost use Rattle.std.specs.Prelude.{◌≡◌};
    ghost use Rattle.fallowtime_front.specs.Asking.{ended_of_stop};

    ghost from_gives = { λ s e. e ≡ ended_of_stop s };

    fn from(stop: Stop) -> Ended {
        match stop {
            Stop::Words(unread) => Ended::Words(unread),
            Stop::Memory => Ended::Refused(Refusal::from(ErrorKind::Memory)),
        }
    }
}

impl From<io::Error> for Ended {
    ghost use Rattle.std.specs.IoError.{error_kind};
    ghost use Rattle.std.specs.Prelude.{◌≡◌};
    ghost use Rattle.cli_files.specs.Fault.{fault_of_io};
    ghost use Rattle.fallowtime_front.specs.declared.ending.Ended.TheVariants.{File};

    ghost from_gives = { λ e f. f ≡ File (fault_of_io (error_kind e)) };

    fn from(error: io::Error) -> Ended {
        Ended::File(FileError::from(error))
    }
}

/// The line if there is no memory for another one.
const OUT_OF_MEMORY: &str = "refused: Memory\n";

/// Writes a line. A failure is ignored.
fn put_line<F: Sink>(faults: &mut F, line: &str)
    requires { CanRefuse (F.tally faults.old) }
    ensures { TakesText (F.tally faults.old) (F.tally faults.new) line.now }
{
    let _ = write_all(faults, line.as_bytes());
}

/// Writes a line, or the one that reports out of memory.
fn tell_line<F: Sink>(faults: &mut F, line: Result<String, AllocError>)
    requires { CanRefuse (F.tally faults.old) }
    ensures line { IfOk line (λ line. TakesText (F.tally faults.old) (F.tally faults.new)
        (string_bytes line)) }
    ensures memory { OnErr line (TakesText (F.tally faults.old) (F.tally faults.new) memory_line) }
{
    match line {
        Ok(line) => put_line(faults, line.as_str()),
        Err(_) => put_line(faults, OUT_OF_MEMORY),
    }
}

/// The line that reports a line of the input that is no request.
fn line_at(alloc: Global, number: u64, place: &Place) -> Result<String, AllocError>
    ensures { IfOk result (λ line. string_bytes line ≡ request_text number place.now) }
{
    let text = place.text(alloc)?;
    let mut digits = Buffer::new();
    let mut line = String::from_str(alloc, "words: line ")?;
    line.push_str(digits.format(number))?;
    line.push_str(" ")?;
    line.push_str(text.as_str())?;
    line.push_str("\n")?;
    Ok(line)
}

/// Lets a place go.
fn discard(place: Place) {
    drop(place);
}

/// The same of a place that goes with it.
fn line_of_place(alloc: Global, number: u64, place: Place) -> Result<String, AllocError>
    ensures { IfOk result (λ line. string_bytes line ≡ request_text number place) }
{
    let line = line_at(alloc, number, &place);
    discard(place);
    line
}

/// Reports why the program ends by a line, and returns its status. If there is no memory for that line, it is
/// `refused: Memory`. A write that fails is ignored.
pub fn tell<F: Sink>(rt: &HostRuntime, faults: &mut F, ended: Ended) -> u8
    requires { CanRefuse (F.tally faults.old) }
    ensures { TellsEnd ended (F.tally faults.old) (F.tally faults.new) result }
{
    match ended {
        Ended::Words(unread) => {
            tell_line(faults, unread.line(rt.alloc()));
            2
        }
        Ended::Lines(stop) => report_end(rt.alloc(), Err(stop), faults),
        Ended::Line(number, place) => {
            tell_line(faults, line_of_place(rt.alloc(), number, place));
            2
        }
        Ended::Refused(refusal) => {
            tell_line(faults, refusal.line(rt.alloc()));
            1
        }
        Ended::File(error) => report_file(rt, faults, error),
    }
}
