//! The lines of JSON text that `load` reads.

ghost use Rattle.cli_commands.specs.Inputs.{AnswersLineTree};

use crate::word_texts::{TextError, parse_json};
use serde_json::Value;
use std::alloc::Global;

/// The tree of a line of JSON text (RFC 8259, which has UTF-8 alone). A line of no bytes has none.
pub fn read_line(alloc: Global, line: &[u8]) -> Result<Option<Value>, TextError>
    ensures { AnswersLineTree line.now result }
{
    if line.is_empty() {
        return Ok(None);
    }
    let Ok(text) = str::from_utf8(line) else {
        return Err(TextError::Unreadable);
    };
    let tree = parse_json(alloc, text)?;
    Ok(Some(tree))
}
