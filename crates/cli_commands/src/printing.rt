//! What is printed of an answer.

ghost use Rattle.std.specs.Prelude.{MatchResult, map, string_bytes};
ghost use Rattle.bson_base.specs.Device.{CanRefuse};
ghost use Rattle.store_model.specs.declared.error.ErrorKind.TheVariants.{Writer};
ghost use Rattle.serde_json.specs.View.{view as data_of};
ghost use Rattle.store_model.specs.State.{bytes_list, json, names as name_list};
ghost use Rattle.bson_store.specs.Export.{bytes_of_each};
ghost use Rattle.cli_commands.specs.Execute.{IsFailure, IsFault, IsUnprinted};
ghost use Rattle.cli_commands.specs.Printing.{Prints, reply_of};

use crate::answer::Answer;
use crate::{write_flag, write_line, write_number};
use bson_base::write_all;
use bson_store::{Sink, StoreError};
use serde_json::Value;
use std::alloc::Global;

/// Writes a tree on one line.
pub fn print_tree<O: Sink>(alloc: Global, tree: &Value, output: &mut O) -> Result<(), StoreError>
    requires { CanRefuse (O.tally output.old) }
    ensures { MatchResult result (λ _. Prints (json (data_of tree.now)) (O.tally output.old)
        (O.tally output.new)) (IsFault Writer (O.tally output.old).failures
        (O.tally output.new).failures) }
{
    let text = tree.to_string(alloc)?;
    write_line(output, text.as_str())?;
    Ok(())
}

/// Writes documents, one after the other.
fn print_documents<O: Sink>(documents: &[Vec<u8>], output: &mut O) -> Result<(), StoreError>
    requires { CanRefuse (O.tally output.old) }
    ensures { MatchResult result (λ _. Prints (bytes_list (bytes_of_each documents.now)) (O.tally output.old)
        (O.tally output.new)) (IsFailure Writer (O.tally output.old).failures
        (O.tally output.new).failures) }
{
    for document in documents {
        write_all(output, document.as_slice())?;
    }
    Ok(())
}

/// Writes names, one a line.
fn print_names<O: Sink>(names: &[String], output: &mut O) -> Result<(), StoreError>
    requires { CanRefuse (O.tally output.old) }
    ensures { MatchResult result (λ _. Prints (name_list (map string_bytes names.now)) (O.tally output.old)
        (O.tally output.new)) (IsFailure Writer (O.tally output.old).failures
        (O.tally output.new).failures) }
{
    for name in names {
        write_line(output, name.as_str())?;
    }
    Ok(())
}

/// Writes an answer. Refused by Writer if a write failed, and by Memory if there is none for the text of a tree.
pub fn print<O: Sink>(alloc: Global, answer: &Answer, output: &mut O) -> Result<(), StoreError>
    requires { CanRefuse (O.tally output.old) }
    ensures { MatchResult result (λ _. Prints (reply_of answer.now) (O.tally output.old)
        (O.tally output.new)) (IsUnprinted answer.now (O.tally output.old).failures
        (O.tally output.new).failures) }
{
    match answer {
        Answer::Nothing => Ok(()),
        Answer::Flag(flag) => Ok(write_flag(output, *flag)?),
        Answer::Number(number) => Ok(write_number(output, *number)?),
        Answer::Tree(tree) => print_tree(alloc, tree, output),
        Answer::Documents(documents) => print_documents(documents.as_slice(), output),
        Answer::Names(names) => print_names(names.as_slice(), output),
    }
}
