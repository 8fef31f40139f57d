//! Lines of single documents, from their bytes.

ghost use Rattle.std.specs.Prelude.{◌≡◌, false, IsTrue, MatchResult, string_bytes};
ghost use Rattle.bson_bytes.specs.Spells.{Means};
ghost use Rattle.bson_meaning.specs.JsonReserved.{has_reserved};
ghost use Rattle.bson_model.specs.View.{content};
ghost use Rattle.cli_convert.specs.ToLines.{HasNoLine, IsFreeLine, IsFreeText, IsRefusalOf};
ghost use Rattle.cli_convert.specs.declared.stop.Stop.TheVariants.{Memory};

use crate::stop::{Fault, Stop};
use bson_bytes::is_written_form;
use bson_frame::is_envelope;
use bson_json::{Style, Unwritten, write_settled};
use bson_meaning::reserved_path_below;
use bson_model::Document;
use bson_model::extjson::Mode;
use bson_raw::{Error, ErrorKind, RawDocument};
use std::alloc::Global;

/// Replaces what `text` held by the text of a document, straight from its bytes, and returns whether there is one: it
/// may be false for a document with a key that occurs twice, and for one without a text. Then `text` may hold anything.
fn write_straight(alloc: Global, mode: Mode, bytes: &[u8], text: &mut String) -> Result<bool, Stop>
    ensures { MatchResult result (λ b. IsTrue b → IsFreeText mode bytes.now (string_bytes text.new))
        (λ e. e ≡ Memory) }
{
    if !is_envelope(bytes) {
        return Ok(false);
    }
    match write_settled(alloc, bytes, Style::Full(mode), text) {
        Ok(true) => Ok(true),
        Ok(false) => Ok(is_written_form(bytes)),
        Err(Unwritten::Unseen) => Ok(false),
        Err(Unwritten::Memory) => Err(Stop::Memory),
    }
}

/// A refused conversion of the document at a place.
fn refusal(index: u64, error: Error) -> Stop
    ensures { IsRefusalOf index error result }
{
    match error.kind {
        ErrorKind::OutOfMemory => Stop::Memory,
        _ => Stop::Document(index, Fault::Raw(error)),
    }
}

/// The document that bytes mean.
fn document_of(alloc: Global, index: u64, bytes: &[u8]) -> Result<Document, Stop>
    ensures { MatchResult result (λ d. Means bytes.now (content d)) (HasNoLine index bytes.now) }
{
    match RawDocument::from_bytes(bytes) {
        Ok(raw) => match raw.to_document(alloc) {
            Ok(document) => Ok(document),
            Err(error) => Err(refusal(index, error)),
        },
        Err(error) => Err(Stop::Document(index, Fault::Raw(error))),
    }
}

/// The same, without a reserved key below its top.
fn free_document(alloc: Global, index: u64, bytes: &[u8]) -> Result<Document, Stop>
    ensures { MatchResult result (λ d. Means bytes.now (content d) × (has_reserved (content d) ≡ false))
        (HasNoLine index bytes.now) }
{
    let document = document_of(alloc, index, bytes)?;
    match reserved_path_below(alloc, &document) {
        Ok(None) => Ok(document),
        Ok(Some(path)) => Err(Stop::Document(index, Fault::ReservedKey(path))),
        Err(_) => Err(Stop::Memory),
    }
}

/// The same text as of `write_straight`, of every document that has one, by its tree.
fn write_by_tree(
    alloc: Global,
    mode: Mode,
    index: u64,
    bytes: &[u8],
    text: &mut String,
) -> Result<(), Stop>
    ensures { MatchResult result (λ _. IsFreeText mode bytes.now (string_bytes text.new))
        (HasNoLine index bytes.now) }
{
    let document = free_document(alloc, index, bytes)?;
    bson_json::write(alloc, &document, mode, text)?;
    Ok(())
}

/// The same text, by a tree if it isn't seen without one.
fn write_text(
    alloc: Global,
    mode: Mode,
    index: u64,
    bytes: &[u8],
    text: &mut String,
) -> Result<(), Stop>
    ensures { MatchResult result (λ _. IsFreeText mode bytes.now (string_bytes text.new))
        (HasNoLine index bytes.now) }
{
    if write_straight(alloc, mode, bytes, text)? {
        return Ok(());
    }
    write_by_tree(alloc, mode, index, bytes, text)
}

/// Replaces what `text` held by the line of the document that bytes mean. `index` is its place. No tree is made of a
/// document that is written as it means, as most are.
///
/// `Document` if the bytes mean none, or one with a reserved key below its top; `Memory` if a growth was refused.
pub(crate) fn write_line(
    alloc: Global,
    mode: Mode,
    index: u64,
    bytes: &[u8],
    text: &mut String,
) -> Result<(), Stop>
    ensures { MatchResult result (λ _. IsFreeLine mode bytes.now (string_bytes text.new))
        (HasNoLine index bytes.now) }
{
    write_text(alloc, mode, index, bytes, text)?;
    text.push('\n')?;
    Ok(())
}
