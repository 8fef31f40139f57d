//! Lines of Extended JSON, whose documents are taken one after the other.

ghost use Rattle.std.specs.Prelude.{◌+◌, ◌<◌, ◌^◌, ℕ, List, Result, OnOk, length};
ghost use Rattle.bson_base.specs.Device.{CanFail};
ghost use Rattle.bson_base.specs.Value.{Members};
ghost use Rattle.bson_model.specs.View.{content};
ghost use Rattle.cli_convert.specs.Line.{Keeps};
ghost use Rattle.cli_convert.specs.LineReader.{waiting};
ghost use Rattle.cli_convert.specs.Lines.{ReadsLine, TakesAll, TakesNext, TakesText};

use crate::stop::{LineFault, Stop};
use crate::{Kept, Line, Lines, Next};
use bson_base::Source;
use bson_json_read::{Error, document_of_text};
use bson_model::Document;
use json::Scratch;
use std::alloc::Global;
use std::str;

/// A way to take the documents of lines into a `T`.
pub trait Take<T> {
    ghost use Rattle.cli_convert.specs.declared.stop.Stop.{Stop};

    // One more can be taken.
    ghost can_take: { T → Type 0 };

    // What becomes of the `T`, and what is returned, as the document of the line at a place is taken.
    ghost takes: { ℕ → Members → T → T → Result (Unit {0}) Stop → Type 0 };

    /// Takes the document of the line at a place, counted from 1.
    fn take(alloc: Global, number: u64, document: Document, target: &mut T) -> Result<(), Stop>
        requires { can_take target.old }
        ensures taken { takes number (content document) target.old target.new result }
        ensures more { OnOk result (can_take target.new) };
}

/// The document of a line that has a byte. `number` is its place.
fn document_of(
    alloc: Global,
    line: &[u8],
    number: u64,
    scratch: &mut Scratch,
) -> Result<Document, Stop>
    requires { 0 < length line.now }
    ensures { ReadsLine number line.now result }
{
    match str::from_utf8(line) {
        Ok(text) => match document_of_text(alloc, text, scratch) {
            Ok(document) => Ok(document),
            Err(Error::Memory) => Err(Stop::Memory),
            Err(error) => Err(Stop::Line(number, LineFault::Text(error))),
        },
        Err(error) => Err(Stop::Line(number, LineFault::NotUtf8(error.valid_up_to()))),
    }
}

/// Takes the document of a line of some bytes.
fn take_document<T, W: Take<T>>(
    alloc: Global,
    line: &[u8],
    number: u64,
    target: &mut T,
    scratch: &mut Scratch,
) -> Result<(), Stop>
    requires target { W.can_take target.old }
    requires some { 0 < length line.now }
    ensures taken { TakesText W.takes number line.now target.old target.new result }
    ensures more { OnOk result (W.can_take target.new) }
{
    let document = document_of(alloc, line, number, scratch)?;
    W::take(alloc, number, document, target)
}

/// Takes the document of a line, if it has a byte.
fn take_line<T, W: Take<T>>(
    alloc: Global,
    line: &Line,
    number: u64,
    target: &mut T,
    scratch: &mut Scratch,
) -> Result<(), Stop>
    requires { W.can_take target.old }
    ensures taken { (text : List ℕ) → Keeps line.now text → TakesText W.takes number text target.old target.new result }
    ensures more { OnOk result (W.can_take target.new) }
{
    match line.kept {
        Kept::Whole => {
            if line.bytes.is_empty() {
                return Ok(());
            }
            take_document::<T, W>(alloc, line.bytes.as_slice(), number, target, scratch)
        }
        Kept::TooLong => Err(Stop::Line(number, LineFault::TooLong)),
        Kept::Memory => Err(Stop::Memory),
    }
}

/// What is kept from line to line.
#[derive(Drop)]
struct Room {
    lines: Lines,
    line: Line,
    scratch: Scratch,
}

/// Takes the document of the next line of the input; false if that was the last one. `index` is how many lines came
/// before.
fn turn<I: Source, T, W: Take<T>>(
    alloc: Global,
    index: u64,
    input: &mut I,
    room: &mut Room,
    target: &mut T,
) -> Result<bool, Stop>
    requires index { index + 1 < 2 ^ 64 }
    requires input { CanFail (I.feed input.old) }
    requires target { W.can_take target.old }
    ensures taken { TakesNext W.takes index (I.feed input.old) (I.feed input.new)
        (waiting room.old.lines) (waiting room.new.lines) target.old target.new result }
    ensures more { OnOk result (W.can_take target.new) }
{
    match room.lines.read(input, &mut room.line) {
        Ok(Next::Whole) => {
            take_line::<T, W>(alloc, &room.line, index + 1, target, &mut room.scratch)?;
            Ok(true)
        }
        Ok(Next::Last) => {
            take_line::<T, W>(alloc, &room.line, index + 1, target, &mut room.scratch)?;
            Ok(false)
        }
        Ok(Next::End) => Ok(false),
        Err(_) => Err(Stop::Reader),
    }
}

/// Takes the document of each line of the input, which is a text of Extended JSON. An empty line is skipped, and
/// counts. The last line may be without its line feed. One line is held at a time.
///
/// The first error ends it: `Line` if a line is refused, `Reader` if a read failed, `Memory`, or what `take` returned.
pub fn take_lines<I: Source, T, W: Take<T>>(
    alloc: Global,
    input: &mut I,
    target: &mut T,
) -> Result<(), Stop>
    requires input { CanFail (I.feed input.old) }
    requires target { W.can_take target.old }
    ensures { TakesAll W.takes (I.feed input.old) (I.feed input.new) target.old target.new result }
{
    let mut room = Room {
        lines: Lines::new(alloc)?,
        line: Line::new(alloc),
        scratch: Scratch::new(alloc),
    };
    for index in 0..u64::MAX {
        if !turn::<I, T, W>(alloc, index, input, &mut room, target)? {
            return Ok(());
        }
    }
    Err(Stop::Memory)
}
