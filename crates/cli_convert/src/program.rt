//! The program `bson_json`: its words, and what it does.

ghost use Rattle.std.specs.Prelude.{◌≡◌, map, string_bytes};
ghost use Rattle.bson_base.specs.Device.{CanFail, CanRefuse};
ghost use Rattle.cli_convert.specs.Program.{Does, task_of as asked_by, task_of_word as asked_by_word};
ghost use Rattle.cli_convert.specs.Reports.{SendsWhole};

use crate::documents::write_lines;
use crate::lines::write_documents;
use crate::report::{MISUSED, put, report_end, send};
use crate::stop::Stop;
use bson_base::{Sink, Source};
use bson_model::extjson::Mode;
use std::alloc::Global;

/// What `--help` writes.
const HELP: &str =
    "bson_json < BSON > LINES               documents as lines of relaxed Extended JSON
bson_json --canonical < BSON > LINES   of canonical Extended JSON, which keeps every kind
bson_json --to-bson < LINES > BSON     and back
bson_json --help
Standard input has BSON documents one behind the other, or lines of MongoDB Extended JSON v2; empty lines are passed
over. Doubles are kept bit for bit, and keys in their order. Status 0: done. 1: refused: KIND, with document N, from 0,
where a document is at fault. 2: words: usage, or words: line N, from 1. What came before the fault has gone out; with
--to-bson bytes follow that no reader takes for a document.
";

/// What the words ask for.
#[derive(Clone, Copy, Drop)]
enum Task {
    ToLines(Mode),
    ToBson,
    Help,
}

/// What `--canonical`, `--to-bson` or `--help` asks for as the only word. None for any other word.
fn task_of_word(word: &str) -> Option<Task>
    ensures { result ≡ asked_by_word word.now }
{
    match word {
        "--canonical" => Some(Task::ToLines(Mode::Canonical)),
        "--to-bson" => Some(Task::ToBson),
        "--help" => Some(Task::Help),
        _ => None,
    }
}

/// What the words ask for: without a word, lines of relaxed Extended JSON. None if there are two or more, or if the one
/// isn't known.
fn task_of(words: &[String]) -> Option<Task>
    ensures { result ≡ asked_by (map string_bytes words.now) }
{
    match words {
        [] => Some(Task::ToLines(Mode::Relaxed)),
        [word] => task_of_word(word.as_str()),
        [_, _, ..] => None,
    }
}

/// Writes how the program is called.
fn help<O: Sink>(output: &mut O) -> Result<(), Stop>
    requires { CanRefuse (O.tally output.old) }
    ensures { SendsWhole HELP.now (O.tally output.old) (O.tally output.new) result }
{
    send(output, HELP.as_bytes())
}

/// Does what the words after the program's name ask for, and returns its status. Without a word the documents of the
/// input are written as lines of relaxed Extended JSON, with `--canonical` of canonical; with `--to-bson` the documents
/// of the lines of the input as BSON; with `--help` how the program is called.
///
/// 0: done. 1: `refused: KIND` is reported, followed by ` document N`, from 0, if one document is at fault. 2:
/// `words: usage`, or `words: line N`, from 1. The caller writes what the output gathers.
pub fn convert<I: Source, O: Sink, F: Sink>(
    alloc: Global,
    words: &[String],
    input: &mut I,
    output: &mut O,
    faults: &mut F,
) -> u8
    requires input { CanFail (I.feed input.old) }
    requires output { CanRefuse (O.tally output.old) }
    requires faults { CanRefuse (F.tally faults.old) }
    ensures { Does (asked_by (map string_bytes words.now)) (I.feed input.old) (I.feed input.new) (O.tally output.old) (O.tally output.new)
        (F.tally faults.old) (F.tally faults.new) result }
{
    match task_of(words) {
        Some(Task::ToLines(mode)) => report_end(
            alloc,
            write_lines(alloc, mode, input, output),
            faults,
        ),
        Some(Task::ToBson) => report_end(alloc, write_documents(alloc, input, output), faults),
        Some(Task::Help) => report_end(alloc, help(output), faults),
        None => {
            put(faults, b"words: usage\n");
            MISUSED
        }
    }
}
