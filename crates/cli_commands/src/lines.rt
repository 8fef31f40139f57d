//! The lines that the program prints.

ghost use Rattle.std.specs.Prelude.{◌≡◌, OnOk, OnErr, decimal};
ghost use Rattle.std.specs.Io.KnownBytes.{Appends};
ghost use Rattle.bson_base.specs.Device.{Counts, TakesBeginning, CanRefuse};
ghost use Rattle.cli_commands.specs.Lines.{collision_line, complaint_line, flag_text, concatenation, line, refusal_line};

use bson_base::{DeviceFault, Sink, write_all};
use itoa::Buffer;
use store_model::ErrorKind;

/// What is wrong with the words that the program is given.
#[derive(Clone, Copy, Debug, PartialEq, Eq)]
pub enum UsageError {
    /// They are no line of the table of commands.
    Usage,
    /// The text of a document or of a value is no JSON text.
    Json,
    /// The text of an id is no Extended JSON text.
    Id,
    /// The text of a filter stands for none.
    Filter,
    /// This line of the input, counted from 1, is no JSON text.
    Line(u64),
}

/// Writes texts, one after the other.
fn write_parts<S: Sink>(sink: &mut S, parts: &[&str]) -> Result<(), DeviceFault>
    requires { CanRefuse (S.tally sink.old) }
    ensures counts { Counts (S.tally sink.old).failures (S.tally sink.new).failures result }
    ensures ok { OnOk result (Appends (S.tally sink.old).taken (S.tally sink.new).taken (concatenation parts.now)) }
    ensures err { OnErr result (TakesBeginning (S.tally sink.old).taken (S.tally sink.new).taken (concatenation parts.now)) }
{
    for part in parts {
        write_all(sink, part.as_bytes())?;
    }
    Ok(())
}

/// Writes a text and a line feed. After a failure a prefix of the line was written.
pub fn write_line<S: Sink>(sink: &mut S, text: &str) -> Result<(), DeviceFault>
    requires { CanRefuse (S.tally sink.old) }
    ensures counts { Counts (S.tally sink.old).failures (S.tally sink.new).failures result }
    ensures ok { OnOk result (Appends (S.tally sink.old).taken (S.tally sink.new).taken (line text.now)) }
    ensures err { OnErr result (TakesBeginning (S.tally sink.old).taken (S.tally sink.new).taken (line text.now)) }
{
    write_parts(sink, &[text, "\n"])
}

/// Writes a number in decimal and a line feed. After a failure a prefix of the line was written.
pub fn write_number<S: Sink>(sink: &mut S, number: u64) -> Result<(), DeviceFault>
    requires { CanRefuse (S.tally sink.old) }
    ensures counts { Counts (S.tally sink.old).failures (S.tally sink.new).failures result }
    ensures ok { OnOk result (Appends (S.tally sink.old).taken (S.tally sink.new).taken (line (decimal number))) }
    ensures err { OnErr result (TakesBeginning (S.tally sink.old).taken (S.tally sink.new).taken (line (decimal number))) }
{
    let mut digits = Buffer::new();
    write_line(sink, digits.format(number))
}

/// Writes `true` or `false` and a line feed. After a failure a prefix of the line was written.
pub fn write_flag<S: Sink>(sink: &mut S, flag: bool) -> Result<(), DeviceFault>
    requires { CanRefuse (S.tally sink.old) }
    ensures counts { Counts (S.tally sink.old).failures (S.tally sink.new).failures result }
    ensures ok { OnOk result (Appends (S.tally sink.old).taken (S.tally sink.new).taken (line (flag_text flag))) }
    ensures err { OnErr result (TakesBeginning (S.tally sink.old).taken (S.tally sink.new).taken (line (flag_text flag))) }
{
    write_line(sink, if flag { "true" } else { "false" })
}

/// Writes the line that reports a refusal with two places. After a failure a prefix of the line was written.
fn write_collision<S: Sink>(
    sink: &mut S,
    name: &str,
    first: &str,
    second: &str,
) -> Result<(), DeviceFault>
    requires { CanRefuse (S.tally sink.old) }
    ensures counts { Counts (S.tally sink.old).failures (S.tally sink.new).failures result }
    ensures ok { OnOk result (Appends (S.tally sink.old).taken (S.tally sink.new).taken (collision_line name.now first.now second.now)) }
    ensures err { OnErr result (TakesBeginning (S.tally sink.old).taken (S.tally sink.new).taken (collision_line name.now first.now second.now)) }
{
    write_parts(sink, &["refused: ", name, " ", first, " ", second, "\n"])
}

/// Writes the line that reports a refusal: `refused: KIND`, followed by ` document N` if the refusal is one of
/// several documents, or by the place of a bad row, or by those of two documents that collide. After a failure a
/// prefix of the line was written.
pub fn write_refusal<S: Sink>(
    sink: &mut S,
    kind: ErrorKind,
    document: Option<u64>,
) -> Result<(), DeviceFault>
    requires { CanRefuse (S.tally sink.old) }
    ensures counts { Counts (S.tally sink.old).failures (S.tally sink.new).failures result }
    ensures ok { OnOk result (Appends (S.tally sink.old).taken (S.tally sink.new).taken (refusal_line kind document)) }
    ensures err { OnErr result (TakesBeginning (S.tally sink.old).taken (S.tally sink.new).taken (refusal_line kind document)) }
{
    let name = kind.name();
    let mut digits = Buffer::new();
    if let Some(place) = document {
        let place = digits.format(place);
        return write_parts(sink, &["refused: ", name, " document ", place, "\n"]);
    }
    if let ErrorKind::BadRow(place) = kind {
        let place = digits.format(place);
        return write_parts(sink, &["refused: ", name, " ", place, "\n"]);
    }
    if let ErrorKind::IdsCollide(first, second) = kind {
        let mut others = Buffer::new();
        let first = digits.format(first);
        let second = others.format(second);
        return write_collision(sink, name, first, second);
    }
    write_parts(sink, &["refused: ", name, "\n"])
}

/// Writes the line that reports what is wrong with the words, as `words: usage`. After a failure a prefix of the
/// line was written.
pub fn write_complaint<S: Sink>(sink: &mut S, complaint: UsageError) -> Result<(), DeviceFault>
    requires { CanRefuse (S.tally sink.old) }
    ensures counts { Counts (S.tally sink.old).failures (S.tally sink.new).failures result }
    ensures ok { OnOk result (Appends (S.tally sink.old).taken (S.tally sink.new).taken (complaint_line complaint)) }
    ensures err { OnErr result (TakesBeginning (S.tally sink.old).taken (S.tally sink.new).taken (complaint_line complaint)) }
{
    match complaint {
        UsageError::Usage => write_line(sink, "words: usage"),
        UsageError::Json => write_line(sink, "words: JSON"),
        UsageError::Id => write_line(sink, "words: id"),
        UsageError::Filter => write_line(sink, "words: filter"),
        UsageError::Line(number) => {
            let mut digits = Buffer::new();
            write_parts(sink, &["words: line ", digits.format(number), "\n"])
        }
    }
}
