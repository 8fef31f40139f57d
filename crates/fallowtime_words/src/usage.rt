//! The line of a command, as the table has it.

ghost use Rattle.std.specs.Prelude.{◌≡◌, ◌++◌, IfOk, OnOk, string_bytes};
ghost use Rattle.fallowtime_words.specs.Usage.{argument_text, arguments_text, call_behind, line_text, options_text, usage_text};

use crate::{Allowed, Argument, Command, Place};
use std::alloc::{AllocError, Global};

/// An argument, with a space in front.
fn text_of(argument: Argument) -> &'static str
    ensures { result.now ≡ argument_text argument }
{
    match argument {
        Argument::Collection => " COLL",
        Argument::Document => " DOC",
        Argument::Id => " ID",
        Argument::Value => " VALUE",
        Argument::Query => " [QUERY]",
        Argument::Selection => " QUERY",
        Argument::Update => " UPDATE",
        Argument::Pipeline => " PIPELINE",
        Argument::Options => "",
        Argument::Documents => " [INPUT]",
        Argument::Key | Argument::IndexPath | Argument::File => " PATH",
        Argument::NewName => " NEW",
        Argument::Folder => " DIR",
    }
}

/// Appends arguments.
fn push_arguments(text: &mut String, arguments: &[Argument]) -> Result<(), AllocError>
    ensures { OnOk result (string_bytes text.new ≡ string_bytes text.old ++ arguments_text arguments.now) }
{
    for argument in arguments {
        text.push_str(text_of(*argument))?;
    }
    Ok(())
}

/// The options beside `--wait`.
fn options_of(allowed: Allowed) -> &'static str
    ensures { result.now ≡ options_text allowed }
{
    if allowed.lines {
        " [--json] [--upsert] [--skip-existing]"
    } else if allowed.many && allowed.upsert {
        " [--many] [--upsert]"
    } else if allowed.many {
        " [--many]"
    } else if allowed.upsert {
        " [--upsert]"
    } else if allowed.literal {
        " [--key]"
    } else if allowed.drops {
        " [--drop]"
    } else if allowed.arranged || allowed.part || allowed.counts {
        " [--OPTION ..]"
    } else if allowed.canonical && allowed.bytes {
        " [--canonical | --bson]"
    } else if allowed.canonical {
        " [--canonical]"
    } else {
        ""
    }
}

/// The name of a command and its arguments, behind what stands in front of them.
pub(crate) fn call_of(alloc: Global, front: &str, command: Command) -> Result<String, AllocError>
    ensures { IfOk result (λ t. string_bytes t ≡ call_behind front.now command) }
{
    let row = command.signature();
    let mut text = String::from_str(alloc, front)?;
    text.push_str(row.name)?;
    push_arguments(&mut text, row.arguments)?;
    Ok(text)
}

/// The words of a command over a file.
fn usage_of(alloc: Global, command: Command) -> Result<String, AllocError>
    ensures { IfOk result (λ t. string_bytes t ≡ usage_text command) }
{
    let mut text = call_of(alloc, "fallowtime FILE ", command)?;
    text.push_str(options_of(command.signature().options))?;
    text.push_str(" [--wait SECONDS]")?;
    Ok(text)
}

/// The words of a command: over a file, of a line of a session, or alone.
pub(crate) fn line_of(alloc: Global, command: Command) -> Result<String, AllocError>
    ensures { IfOk result (λ t. string_bytes t ≡ line_text command) }
{
    match command.signature().place {
        Place::Both | Place::CommandLine | Place::Script => usage_of(alloc, command),
        Place::Session => call_of(alloc, "a line of fallowtime FILE: ", command),
        Place::Alone => call_of(alloc, "fallowtime ", command),
    }
}
