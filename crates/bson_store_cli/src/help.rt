//! What the program `fallowtime` says of itself, and at a terminal of words and refusals.

ghost use Rattle.std.specs.Prelude.{◌≡◌, ◌⊎◌, ℕ, List, Some};
ghost use Rattle.std.specs.Io.KnownBytes.{Appends};
ghost use Rattle.bson_base.specs.Device.{CanRefuse};
ghost use Rattle.fallowtime_front.specs.Ending.{TellsEnd};
ghost use Rattle.fallowtime_front.specs.declared.ending.Ended.{Ended as Ending};
ghost use Rattle.fallowtime_words.specs.Overview.{Tells};

use crate::fallowtime::is_bare;
use bson_base::write_all;
use bson_store::{ErrorKind, Sink};
use fallowtime_commands::Refusal;
use fallowtime_front::{Ended, tell};
use fallowtime_requests::Unread;
use fallowtime_words::{
    Packing, Topic, about, advice_for, advice_on_packed, hint_at_name, hint_of, kind_names,
    read_words, topic_of,
};
use std::alloc::AllocError;
use std::io::{IsTerminal, Write};

/// Writes a text, or reports why it can't be written, and returns the program's status.
fn print<O: Sink, F: Sink>(rt: &HostRuntime, text: &str, output: &mut O, faults: &mut F) -> u8
    requires output { CanRefuse (O.tally output.old) }
    requires faults { CanRefuse (F.tally faults.old) }
    ensures { ((result ≡ 0) × (faults.new ≡ faults.old)
        × Appends (O.tally output.old).taken (O.tally output.new).taken text.now)
        ⊎ ((ended : Ending) × TellsEnd ended (F.tally faults.old) (F.tally faults.new) result) }
{
    match write_all(output, text.as_bytes()) {
        Ok(()) => 0,
        Err(_) => tell(rt, faults, Ended::Refused(Refusal::from(ErrorKind::Writer))),
    }
}

/// Writes what is asked of the program about itself, and returns its status. A kind of refusals that there isn't is
/// reported as words that can't be read.
pub fn serve<O: Sink, F: Sink>(
    rt: &HostRuntime,
    topic: Topic<'_>,
    output: &mut O,
    faults: &mut F,
) -> u8
    requires output { CanRefuse (O.tally output.old) }
    requires faults { CanRefuse (F.tally faults.old) }
    ensures { ((result ≡ 0) × (faults.new ≡ faults.old) × ((text : List ℕ) × Tells topic.entry (Some text)
        × Appends (O.tally output.old).taken (O.tally output.new).taken text))
        ⊎ ((ended : Ending) × TellsEnd ended (F.tally faults.old) (F.tally faults.new) result) }
{
    match about(rt.alloc(), topic) {
        Ok(Some(text)) => print(rt, text.as_str(), output, faults),
        Ok(None) => tell(rt, faults, Ended::Words(Unread::Command)),
        Err(_) => tell(rt, faults, Ended::Refused(Refusal::from(ErrorKind::Memory))),
    }
}

/// A line that begins with the program's name.
fn note(rt: &HostRuntime, front: &str, text: Result<String, AllocError>) {
    let mut faults = rt.stderr();
    if let Ok(text) = text {
        let _ = faults.write_all(b"fallowtime: ");
        let _ = faults.write_all(front.as_bytes());
        let _ = faults.write_all(text.as_str().as_bytes());
        let _ = faults.write_all(b"\n");
    }
}

/// Says at a terminal what is wrong with words that were refused. Which kinds of refusals there are is said anywhere.
pub fn hint(rt: &HostRuntime, words: &[String]) {
    if read_words(words).is_some() {
        return;
    }
    if topic_of(words).is_some() {
        note(rt, "the kinds are:", kind_names(rt.alloc()));
    } else if rt.stderr().is_terminal() {
        note(rt, "", hint_of(rt.alloc(), words));
    }
}

/// What helps if a session is to be over a single word that is no file.
const BARE: &str =
    "there is no such file; with ./ in front one of this name is made; fallowtime help lists the commands";

/// Says that a collection isn't there, and which of these is meant; nothing if it is one of them. Whether it said so.
pub fn hint_at_collection(rt: &HostRuntime, names: &[String], name: &str) -> bool {
    match hint_at_name(rt.alloc(), names, name) {
        Ok(Some(text)) => {
            note(rt, "", Ok(text));
            true
        }
        _ => false,
    }
}

/// Says that nothing answers a query, as no document has a field.
pub fn hint_at_field(rt: &HostRuntime, field: &str) {
    note(rt, "", fallowtime_words::hint_at_field(rt.alloc(), field));
}

/// Says what helps if nothing answers a query, or what is said of a document that was put in.
pub fn hint_at_query(rt: &HostRuntime, advice: &str) {
    note(rt, advice, Ok(String::new(rt.alloc())));
}

/// What mostly helps after a refusal of this kind: by what packed the bytes of an import, or by the words behind the command.
fn advice(kind: &str, arguments: &[String], packing: Option<Packing>) -> Option<&'static str> {
    match advice_on_packed(kind, packing) {
        Some(text) => Some(text),
        None => advice_for(kind, arguments),
    }
}

/// Says at a terminal what mostly helps after a refusal of this kind, by the words, and by what packed the bytes of an
/// import.
pub fn advise(rt: &HostRuntime, kind: &str, words: &[String], packing: Option<Packing>) {
    if !rt.stderr().is_terminal() {
        return;
    }
    let text = match words {
        [] => None,
        [file] | [file, _, _] if kind.is_empty() && is_bare(file.as_str()) => Some(BARE),
        [_] => None,
        [_, _, arguments @ ..] => advice(kind, arguments, packing),
    };
    if let Some(text) = text {
        note(rt, text, Ok(String::new(rt.alloc())));
    }
}
