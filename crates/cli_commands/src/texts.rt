//! What the texts among the words of a command stand for.

ghost use Rattle.std.specs.Prelude.{◌≡◌, ℕ, List, Some, Err, IfErr, IsTrue, OnOk, MatchResult, drop, false, map, string_bytes};
ghost use Rattle.bson_base.specs.Device.{CanFail};
ghost use Rattle.serde_json.specs.Data.{Data};
ghost use Rattle.serde_json.specs.Read.{read as data_of_text};
ghost use Rattle.serde_json.specs.View.{view as data_of};
ghost use Rattle.bson_model.specs.View.{view};
ghost use Rattle.store_documents.specs.Loading.{HasTaken};
ghost use Rattle.cli_commands.specs.Filters.{AnswersFilter, IsFilterText};
ghost use Rattle.cli_commands.specs.Inputs.{HaveTrees, IsBadLine, lines_in};
ghost use Rattle.cli_commands.specs.Texts.{AnswersId, AnswersText};
ghost use Rattle.store_question.specs.Filters.{filter_of};
ghost use Rattle.cli_commands.specs.declared.word_texts.TextError.TheVariants.{Unreadable};
ghost use Rattle.cli_commands.specs.Commands.{IsIdText, mode_of};
ghost use Rattle.cli_commands.specs.Execute.{StopsFor};
ghost use Rattle.cli_commands.specs.Loading.{StopsAtLine, StopsLines, TakesLine, TakesLines};
ghost use Rattle.cli_commands.specs.Requests.{text_at};

use crate::stop::{Failure, refuse};
use crate::{TextError, UsageError, parse_json, read_filter, read_id, read_line};
use bson_base::{ReadAllError, read_all};
use bson_store::extjson::Mode;
use bson_store::{Bson, ErrorKind, Loader, Source};
use serde_json::Value;
use std::alloc::Global;
use store_question::Filter;

/// The text at a place among the words; empty if there is none.
pub fn text_at(words: &[String], place: usize) -> &str
    ensures { result.now ≡ text_at (map string_bytes words.now) place }
{
    match words.get(place) {
        Some(word) => word.as_str(),
        None => "",
    }
}

/// The tree of a JSON text.
pub fn json_of_text(alloc: Global, text: &str) -> Result<Value, Failure>
    ensures { MatchResult result (λ j. data_of_text text.now ≡ Some (data_of j))
        (StopsFor UsageError.Json (AnswersText text.now (Err Unreadable))) }
{
    match parse_json(alloc, text) {
        Ok(json) => Ok(json),
        Err(TextError::Unreadable) => Err(Failure::Words(UsageError::Json)),
        Err(TextError::Memory) => Err(refuse(ErrorKind::Memory)),
    }
}

/// The value of an id's text, which is Extended JSON.
pub fn id_of(alloc: Global, text: &str) -> Result<Bson, Failure>
    ensures { MatchResult result (λ id. IsIdText text.now (view id))
        (StopsFor UsageError.Id (AnswersId text.now (Err Unreadable))) }
{
    match read_id(alloc, text) {
        Ok(id) => Ok(id),
        Err(TextError::Unreadable) => Err(Failure::Words(UsageError::Id)),
        Err(TextError::Memory) => Err(refuse(ErrorKind::Memory)),
    }
}

/// The form of Extended JSON that the words after an id ask for.
pub fn mode_of(words: &[String]) -> Mode
    ensures { result ≡ mode_of (drop 1 (map string_bytes words.now)) }
{
    match words {
        [_, _form, ..] => Mode::Relaxed,
        _ => Mode::Canonical,
    }
}

/// The filter of a text.
pub fn filter_of_text(alloc: Global, text: &str) -> Result<Filter, Failure>
    ensures { MatchResult result (λ f. IsFilterText text.now (filter_of f))
        (StopsFor UsageError.Filter (AnswersFilter text.now (Err Unreadable))) }
{
    match read_filter(alloc, text) {
        Ok(filter) => Ok(filter),
        Err(TextError::Unreadable) => Err(Failure::Words(UsageError::Filter)),
        Err(TextError::Memory) => Err(refuse(ErrorKind::Memory)),
    }
}

/// Takes a line's tree, which isn't made, or nothing of a line of no bytes. False, and nothing was taken, if the line
/// has to be read by its tree.
fn take_seen(loader: &mut Loader, line: &[u8]) -> bool
    ensures taken { IsTrue result → (js : List Data) → HasTaken loader.old js
        → TakesLine line.now js (HasTaken loader.new) }
    ensures untaken { result ≡ false → (js : List Data) → HasTaken loader.old js
        → HasTaken loader.new js }
{
    if line.is_empty() {
        return true;
    }
    match str::from_utf8(line) {
        Ok(text) => loader.take_text(text),
        Err(_) => false,
    }
}

/// Takes the tree of a line, if it has one.
fn take_line(alloc: Global, loader: &mut Loader, line: &[u8], number: u64) -> Result<(), Failure>
    ensures ok { OnOk result ((js : List Data) → HasTaken loader.old js
        → TakesLine line.now js (HasTaken loader.new)) }
    ensures err { IfErr result (StopsFor (UsageError.Line number) (IsBadLine line.now)) }
{
    if take_seen(loader, line) {
        return Ok(());
    }
    match read_line(alloc, line) {
        Ok(Some(tree)) => {
            loader.take(tree);
            Ok(())
        }
        Ok(None) => Ok(()),
        Err(TextError::Unreadable) => Err(Failure::Words(UsageError::Line(number))),
        Err(TextError::Memory) => Err(refuse(ErrorKind::Memory)),
    }
}

/// Judges the trees of lines, one after the other: one tree is held at a time.
fn judged_lines(alloc: Global, bytes: &[u8]) -> Result<Loader, Failure>
    ensures { MatchResult result (λ l. (js : List Data) × HaveTrees (lines_in bytes.now) js
        × HasTaken l js) (StopsAtLine (lines_in bytes.now)) }
{
    let mut loader = Loader::new(alloc);
    let mut number = 0u64;
    for line in bytes.split(|byte| *byte == b'\n') {
        let Some(next) = number.checked_add(1) else {
            // Bytes have fewer lines than there are numbers.
            return Err(refuse(ErrorKind::Memory));
        };
        number = next;
        take_line(alloc, &mut loader, line, number)?;
    }
    Ok(loader)
}

/// The trees of the input's lines, judged. The input is read to its end.
pub fn judged_input<I: Source>(alloc: Global, input: &mut I) -> Result<Loader, Failure>
    requires { CanFail (I.feed input.old) }
    ensures { MatchResult result (TakesLines (I.feed input.old) (I.feed input.new))
        (StopsLines (I.feed input.old) (I.feed input.new)) }
{
    let bytes = match read_all(alloc, input) {
        Ok(bytes) => bytes,
        Err(ReadAllError::Reader) => return Err(refuse(ErrorKind::Reader)),
        Err(ReadAllError::Memory) => return Err(refuse(ErrorKind::Memory)),
    };
    judged_lines(alloc, bytes.as_slice())
}
