//! What the program says of itself and of its commands.

ghost use Rattle.std.specs.Prelude.{◌≡◌, ◌++◌, IfOk, OnOk, map, option_map, string_bytes};
ghost use Rattle.fallowtime_words.specs.Commands.{commands};
ghost use Rattle.fallowtime_words.specs.Overview.{IsHelpOf, IsOverview, Tells, has_file, padded, row_text, rows_text};

use crate::explaining::explanation;
use crate::texts::{BACK, EVERY, FRONT, VERSION, text_of};
use crate::topic::Topic;
use crate::usage::{call_of, line_of};
use crate::{Command, Place, Signature, TABLE, kinds};
use std::alloc::{AllocError, Global};

/// The column at which the list of commands says what each does.
const COLUMN: usize = 30;

/// Appends spaces up to a column, if the text ends before it.
fn pad(text: &mut String, column: usize) -> Result<(), AllocError>
    ensures { OnOk result (string_bytes text.new ≡ padded column (string_bytes text.old)) }
{
    while text.as_str().len() < column {
        text.push_str(" ")?;
    }
    Ok(())
}

/// What a command is called with, and what it does, in a line.
fn row_of(alloc: Global, row: &Signature) -> Result<String, AllocError>
    ensures { IfOk result (λ t. string_bytes t ≡ row_text row.now) }
{
    let mut text = call_of(alloc, "  ", row.command)?;
    text.push_str("  ")?;
    pad(&mut text, COLUMN)?;
    text.push_str(row.about)?;
    text.push_str("\n")?;
    Ok(text)
}

/// Whether a command that is one there is done over a file, by a command line.
fn is_over_a_file(place: Place) -> bool
    ensures { result ≡ has_file place }
{
    matches!(place, Place::Both | Place::CommandLine | Place::Script)
}

/// The lines of the commands that are done over a file.
fn push_rows(alloc: Global, text: &mut String, rows: &[Signature]) -> Result<(), AllocError>
    ensures { OnOk result (string_bytes text.new ≡ string_bytes text.old ++ rows_text rows.now) }
{
    for row in rows {
        if is_over_a_file(row.place) {
            let line = row_of(alloc, row)?;
            text.push_str(line.as_str())?;
        }
    }
    Ok(())
}

/// The rows of the table.
fn rows() -> &'static [Signature]
    ensures { map (λ row. row.command) result.now ≡ commands }
{
    &TABLE
}

/// What the program does, with its commands: those of the table that are done over a file, a line each.
fn overview(alloc: Global) -> Result<String, AllocError>
    ensures { IfOk result (λ t. IsOverview (string_bytes t)) }
{
    let mut text = String::from_str(alloc, FRONT)?;
    push_rows(alloc, &mut text, rows())?;
    text.push_str(BACK)?;
    Ok(text)
}

/// What stands behind the text of a command.
fn behind(command: Command) -> &'static str {
    match command.signature().place {
        Place::Alone => "",
        _ => EVERY,
    }
}

/// What a command takes: its words, by the table, on the first line, and what it does.
fn command_help(alloc: Global, command: Command) -> Result<String, AllocError>
    ensures { IfOk result (λ t. IsHelpOf command (string_bytes t)) }
{
    let mut text = line_of(alloc, command)?;
    text.push_str("\n")?;
    text.push_str(text_of(command))?;
    text.push_str(behind(command))?;
    Ok(text)
}

/// The items of the page on refusals that name a kind; none if there is no such kind.
fn items(alloc: Global, kind: &str) -> Result<Option<String>, AllocError> {
    let items = explanation(kind);
    if items.is_empty() {
        return Ok(None);
    }
    let mut text = String::new(alloc);
    for item in items {
        text.push_str(kinds::text_of(*item))?;
    }
    Ok(Some(text))
}

/// What the program says of itself. None for the kinds of refusals alone, and for a kind that there isn't.
pub fn about(alloc: Global, topic: Topic<'_>) -> Result<Option<String>, AllocError>
    ensures { IfOk result (λ told. Tells topic.entry (option_map string_bytes told)) }
{
    match topic {
        Topic::Program => Ok(Some(overview(alloc)?)),
        Topic::Version => Ok(Some(String::from_str(alloc, VERSION)?)),
        Topic::Command(command) => Ok(Some(command_help(alloc, command)?)),
        Topic::Kinds => Ok(None),
        Topic::Kind(kind) => items(alloc, kind),
    }
}
