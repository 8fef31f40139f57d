//! What the texts among the words stand for, whatever the command: JSON and ids.

ghost use Rattle.std.specs.Prelude.{◌≡◌, IfOk, IfSome, MatchResult, Some};
ghost use Rattle.serde_json.specs.Read.{read as data_of_text};
ghost use Rattle.serde_json.specs.View.{view as data_of};
ghost use Rattle.cli_commands.specs.Texts.{AnswersId, AnswersText};

use bson_model::{Bson, extjson};
use serde_json::Value;
use std::alloc::{AllocError, AllocFailed, Global};
use thiserror::Error;

/// Why a text gives nothing.
#[derive(Clone, Copy, Debug, PartialEq, Eq, Error)]
pub enum TextError {
    /// The text isn't what it should be.
    #[error("the text can't be read")]
    Unreadable,
    /// A growth was refused.
    #[error("out of memory")]
    Memory,
}

impl From<AllocError> for TextError {
    ghost use Rattle.cli_commands.specs.declared.word_texts.TextError.TheVariants.{Memory};

    ghost from_gives = { λ _ e. e ≡ Memory };

    fn from(_error: AllocError) -> TextError {
        TextError::Memory
    }
}

impl<T: Drop> From<AllocFailed<T>> for TextError {
    ghost use Rattle.cli_commands.specs.declared.word_texts.TextError.TheVariants.{Memory};

    ghost from_gives = { λ _ e. e ≡ Memory };

    /// Drops the value for which there was no room.
    fn from(failed: AllocFailed<T>) -> TextError {
        drop(failed);
        TextError::Memory
    }
}

impl From<serde_json::Error> for TextError {
    ghost use Rattle.std.specs.Prelude.{◌⊎◌};
    ghost use Rattle.serde_json.specs.Errors.{IsMemory};
    ghost use Rattle.cli_commands.specs.declared.word_texts.TextError.TheVariants.{Memory, Unreadable};

    ghost from_gives = { λ x e. (IsMemory x × (e ≡ Memory)) ⊎ ((IsMemory x → ⊥) × (e ≡ Unreadable)) };

    /// Memory if that ran out; every other error means that the text is no JSON that can be read.
    fn from(error: serde_json::Error) -> TextError {
        match error.classify() {
            serde_json::Category::Memory => TextError::Memory,
            _ => TextError::Unreadable,
        }
    }
}

impl From<extjson::de::Error> for TextError {
    ghost use Rattle.bson_model.specs.declared.extjson.de.Error.TheVariants as json_faults;
    ghost use Rattle.std.specs.Prelude.{◌⊎◌, ◌≢◌};
    ghost use Rattle.cli_commands.specs.declared.word_texts.TextError.TheVariants.{Memory, Unreadable};

    ghost from_gives = { λ x e. ((x ≡ json_faults.Memory) × (e ≡ Memory)) ⊎ ((x ≢ json_faults.Memory) × (e ≡ Unreadable)) };

    /// Memory if that ran out; every other error means that the JSON tree stands for no value.
    fn from(error: extjson::de::Error) -> TextError {
        match error {
            extjson::de::Error::Memory => TextError::Memory,
            extjson::de::Error::InvalidObjectId(_) => TextError::Unreadable,
            extjson::de::Error::DeserializationError => TextError::Unreadable,
            extjson::de::Error::FiniteDouble => TextError::Unreadable,
        }
    }
}

/// The tree of a JSON text (RFC 8259).
pub fn parse_json(alloc: Global, text: &str) -> Result<Value, TextError>
    ensures { AnswersText text.now result }
{
    let tree = Value::from_str(alloc, text)?;
    Ok(tree)
}

/// The tree of a text that is a whole number as it is printed, of 64 bits with a sign. The JSON reader fills a table
/// before it begins, which takes longer than all else of a `get`.
fn tree_of_number(alloc: Global, text: &str) -> Result<Option<Value>, AllocError>
    ensures { IfOk result (λ j. IfSome j (λ j. data_of_text text.now ≡ Some (data_of j))) }
{
    let Ok(number) = text.parse::<i64>() else {
        return Ok(None);
    };
    let tree = Value::from(number);
    let printed = tree.to_string(alloc)?;
    if printed.as_str() == text {
        Ok(Some(tree))
    } else {
        Ok(None)
    }
}

/// The tree of the text of an `_id`.
fn tree_of_id(alloc: Global, text: &str) -> Result<Value, TextError>
    ensures { AnswersText text.now result }
{
    if let Some(tree) = tree_of_number(alloc, text)? {
        return Ok(tree);
    }
    parse_json(alloc, text)
}

/// The value of an Extended JSON text (MongoDB Extended JSON v2).
pub fn read_id(alloc: Global, text: &str) -> Result<Bson, TextError>
    ensures { AnswersId text.now result }
{
    let tree = tree_of_id(alloc, text)?;
    let id = Bson::try_from_value(alloc, tree)?;
    Ok(id)
}
