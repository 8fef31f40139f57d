//! Stored documents as texts.

ghost use Rattle.std.specs.Prelude.{◌≡◌, ◌++◌, ℕ, List, IfOk, OnOk};
ghost use Rattle.std.specs.List.{flat_map};
ghost use Rattle.bson_store.specs.Export.{bytes_of_each};
ghost use Rattle.fallowtime_commands.specs.Objects.{PutsBodies, PutsBody, comma_before};
ghost use Rattle.cli_convert.specs.declared.printed.PrintFault.TheVariants.{Memory};

use bson_model::extjson::Mode;
use cli_convert::{PrintFault, text_of_body};
use std::alloc::{AllocError, Global};

/// Why one of several documents has no text.
#[derive(Drop)]
pub(crate) struct BodyFault {
    /// The place of the document, counted from 0.
    pub(crate) index: u64,
    /// Why it has none.
    pub(crate) fault: PrintFault,
}

/// Appends what comes before a text to the line, and then the text.
pub(crate) fn push(line: &mut Vec<u8>, index: usize, text: &[u8]) -> Result<(), AllocError>
    ensures { OnOk result (line.new.items ≡ line.old.items ++ (comma_before index ++ text.now)) }
{
    if index > 0 {
        line.push(b',')?;
    }
    line.extend_from_slice(text)
}

/// Appends the text of a stored document to the line, after a comma if there are others before it. `text` is room that
/// is kept from document to document.
fn push_body(
    alloc: Global,
    index: usize,
    body: &[u8],
    text: &mut String,
    line: &mut Vec<u8>,
) -> Result<(), PrintFault>
    ensures { PutsBody index body.now line.old.items line.new.items result }
{
    text_of_body(alloc, body, Mode::Canonical, text)?;
    match push(line, index, text.as_bytes()) {
        Ok(()) => Ok(()),
        Err(_) => Err(PrintFault::Memory),
    }
}

/// Appends the texts of stored documents to the line, with commas between them. The first that has none is reported.
pub(crate) fn push_bodies(
    alloc: Global,
    bodies: &[Vec<u8>],
    line: &mut Vec<u8>,
) -> Result<(), BodyFault>
    ensures { PutsBodies (bytes_of_each bodies.now) line.old.items line.new.items result }
{
    let mut text = String::new(alloc);
    for (index, body) in bodies.iter().enumerate() {
        if let Err(fault) = push_body(alloc, index, body.as_slice(), &mut text, line) {
            return Err(BodyFault {
                index: index as u64,
                fault,
            });
        }
    }
    Ok(())
}

/// The bytes of stored documents, one after the other.
pub(crate) fn joined(alloc: Global, bodies: &[Vec<u8>]) -> Result<Vec<u8>, AllocError>
    ensures { IfOk result (λ stream. stream.items ≡ flat_map (λ (b : List ℕ). b)
        (bytes_of_each bodies.now)) }
{
    let mut stream = Vec::new(alloc);
    for body in bodies {
        stream.extend_from_slice(body.as_slice())?;
    }
    Ok(stream)
}
