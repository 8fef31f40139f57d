//! Why a command isn't done, or its answer not printed.

ghost use Rattle.std.specs.Prelude.{◌≡◌, ◌++◌, None, OnOk, IfOk, codes, string_bytes};
ghost use Rattle.store_model.specs.Refusal.{refusal};
ghost use Rattle.store_model.specs.declared.error.ErrorKind.TheVariants.{Memory};
ghost use Rattle.fallowtime_commands.specs.Reports.{key_text, named_text, place_text, refusal_text, update_name};

use bson_store::{ErrorKind, StoreError};
use cli_convert::shown;
use itoa::Buffer;
use std::alloc::{AllocError, Global};
use store_update::UpdateError;

/// A refusal, and what helps to find its cause.
#[derive(Debug, Drop)]
pub struct Refusal {
    /// The refusal of the store, of a device, or out of memory.
    pub error: StoreError,
    /// Why an update or a replacement isn't made of a document: then `error` has its place, and is BadKey, which the
    /// store has for a key that can't be set. Or why a sum isn't calculated, and then it has no place.
    pub update: Option<UpdateError>,
    /// The line of the input, counted from 1, whose document is refused.
    pub line: Option<u64>,
    /// The `_id` in question, as JSON.
    pub id: Option<String>,
    /// The path to the key in question.
    pub key: Option<String>,
}

impl From<StoreError> for Refusal {
    ghost use Rattle.fallowtime_commands.specs.Reports.{plain};

    ghost from_gives = { λ e r. r ≡ plain e };

    fn from(error: StoreError) -> Refusal {
        Refusal {
            error,
            update: None,
            line: None,
            id: None,
            key: None,
        }
    }
}

impl From<ErrorKind> for Refusal {
    ghost use Rattle.fallowtime_commands.specs.Reports.{plain};

    ghost from_gives = { λ k r. r ≡ plain (refusal k) };

    fn from(kind: ErrorKind) -> Refusal {
        Refusal::from(StoreError::from(kind))
    }
}

impl From<AllocError> for Refusal {
    ghost use Rattle.fallowtime_commands.specs.Reports.{plain};

    ghost from_gives = { λ _ r. r ≡ plain (refusal Memory) };

    fn from(_error: AllocError) -> Refusal {
        Refusal::from(ErrorKind::Memory)
    }
}

/// The name under which the refusal of an update is reported.
pub fn update_name(error: UpdateError) -> &'static str
    ensures { result.now ≡ update_name error }
{
    match error {
        UpdateError::Memory => "Memory",
        UpdateError::Id => "Id",
        UpdateError::Through => "Through",
        UpdateError::NotANumber => "NotANumber",
        UpdateError::Decimal => "Decimal",
        UpdateError::Overflow => "Overflow",
        UpdateError::NotAnArray => "NotAnArray",
    }
}

/// Appends a word and a number to a line.
fn push_number(line: &mut String, word: &str, number: &str) -> Result<(), AllocError>
    ensures { OnOk result (string_bytes line.new ≡ string_bytes line.old
        ++ (word.now ++ number.now)) }
{
    line.push_str(word)?;
    line.push_str(number)
}

/// Appends a word and a text to a line, if there is a text.
fn push_named(line: &mut String, word: &str, text: &Option<String>) -> Result<(), AllocError>
    ensures { OnOk result (string_bytes line.new ≡ string_bytes line.old ++ named_text word.now
        text.now) }
{
    match text {
        Some(text) => push_number(line, word, text.as_str()),
        None => Ok(()),
    }
}

/// Appends the path to a key to a line, as a line may show it, if there is one.
fn push_key(alloc: Global, line: &mut String, key: &Option<String>) -> Result<(), AllocError>
    ensures { OnOk result (string_bytes line.new ≡ string_bytes line.old ++ key_text key.now) }
{
    match key {
        Some(path) => {
            let path = shown(alloc, path.as_str())?;
            push_number(line, " key ", path.as_str())
        }
        None => Ok(()),
    }
}

/// Appends the place of what is refused to a line: the line of the input, the number of the document, or the places of
/// rows.
fn push_place(line: &mut String, refusal: &Refusal) -> Result<(), AllocError>
    ensures { OnOk result (string_bytes line.new ≡ string_bytes line.old ++ place_text
        refusal.now) }
{
    let mut digits = Buffer::new();
    if let Some(number) = refusal.line {
        return push_number(line, " line ", digits.format(number));
    }
    if let Some(document) = refusal.error.document {
        return push_number(line, " document ", digits.format(document));
    }
    match refusal.error.kind {
        ErrorKind::BadRow(place) => push_number(line, " ", digits.format(place)),
        ErrorKind::IdsCollide(first, second) => {
            push_number(line, " ", digits.format(first))?;
            push_number(line, " ", digits.format(second))
        }
        _ => Ok(()),
    }
}

impl Refusal {
    ghost use Rattle.std.specs.Prelude.{◌≡◌, IfOk, string_bytes};
    ghost use Rattle.fallowtime_commands.specs.Reports.{name_of, refusal_text};

    /// The name under which it is reported.
    pub fn name(&self) -> &'static str
        ensures { result.now ≡ name_of self.now }
    {
        match self.update {
            Some(error) => update_name(error),
            None => self.error.kind.name(),
        }
    }

    /// The line that reports it: `refused: KIND`, followed by what helps.
    pub fn line(&self, alloc: Global) -> Result<String, AllocError>
        ensures { IfOk result (λ line. string_bytes line ≡ refusal_text self.now) }
    {
        let mut line = String::from_str(alloc, "refused: ")?;
        line.push_str(self.name())?;
        push_place(&mut line, self)?;
        push_named(&mut line, " _id ", &self.id)?;
        push_key(alloc, &mut line, &self.key)?;
        line.push_str("\n")?;
        Ok(line)
    }
}
