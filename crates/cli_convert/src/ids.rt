//! Ids among the words of a command.

ghost use Rattle.json.specs.Json.{document as tree_of};
ghost use Rattle.bson_json_read.specs.Outcome.{GivesReading};
ghost use Rattle.bson_model.specs.View.{view};
ghost use Rattle.cli_convert.specs.Ids.{id_of};

use bson_json_read::{Error, Result, bson_of_text};
use bson_model::Bson;
use json::Scratch;
use std::alloc::Global;

/// The id that a word stands for: the value of a text of Extended JSON, and any text that is no JSON is itself. So `42`
/// is a number, `"42"` with its quotes a text, and so is `A-1` without. What nests deeper than 128 levels is taken for no
/// JSON. `scratch` is room that is kept from text to text.
///
/// JSON that is no Extended JSON, such as `{"$oid":"x"}`, is refused, by the errors of `bson_of_text` except `NotJson`.
pub fn id_of_word(alloc: Global, word: &str, scratch: &mut Scratch) -> Result<Bson>
    ensures { GivesReading view result (id_of word.now (tree_of word.now)) }
{
    match bson_of_text(alloc, word, scratch) {
        Ok(value) => Ok(value),
        Err(Error::NotJson(_)) => Ok(Bson::String(String::from_str(alloc, word)?)),
        Err(error) => Err(error),
    }
}
