//! Stored documents as texts.

ghost use Rattle.std.specs.Prelude.{◌≡◌, ℕ, true, IfOk, List, Err, option_map, string_bytes, MatchResult};
ghost use Rattle.bson_base.specs.Value.{Members};
ghost use Rattle.bson_bytes.specs.Encode.{encode};
ghost use Rattle.bson_bytes.specs.Spells.{Means};
ghost use Rattle.bson_meaning.specs.JsonReserved.{has_reserved, reserved_path_below as path_below};
ghost use Rattle.bson_model.specs.View.{content, view};
ghost use Rattle.store_model.specs.State.{IsKept};
ghost use Rattle.cli_convert.specs.Printed.{PrintsDocument, PrintsValue, holding as held_by};
ghost use Rattle.cli_convert.specs.declared.printed.PrintFault.TheVariants.{Memory};

use bson_json::{Style, Unwritten, write_raw, write_value};
use bson_meaning::reserved_path_below;
use bson_model::extjson::Mode;
use bson_model::{Bson, Document};
use bson_raw::{ErrorKind, RawDocument};
use std::alloc::{AllocError, Global};

/// Why a stored document has no text.
#[derive(Debug, Drop)]
pub enum PrintFault {
    /// Below its top is a key such as `$oid`, so its JSON would read as another document. The path leads to that key.
    ReservedKey(String),
    /// The bytes are those of no document. A store never hands out such bytes.
    Damaged,
    /// A growth of memory was refused.
    Memory,
}

/// The document that bytes mean, if they mean one; others may be refused, or not.
fn document_of(alloc: Global, bytes: &[u8]) -> Result<Document, PrintFault>
    ensures { (d : Members) → Means bytes.now d → MatchResult result
        (λ e. Means bytes.now (content e)) (λ k. k ≡ Memory) }
{
    let Ok(raw) = RawDocument::from_bytes(bytes) else {
        return Err(PrintFault::Damaged);
    };
    match raw.to_document(alloc) {
        Ok(document) => Ok(document),
        Err(error) => match error.kind {
            ErrorKind::OutOfMemory => Err(PrintFault::Memory),
            _ => Err(PrintFault::Damaged),
        },
    }
}

/// Why a document with a reserved key below its top has no text.
fn fault_of_document(alloc: Global, document: &Document) -> PrintFault
    ensures { (m : Mode) (text : List ℕ) → has_reserved (content document.now) ≡ true
        → PrintsDocument m (content document.now) text (Err result) }
{
    match reserved_path_below(alloc, document) {
        Ok(Some(path)) => PrintFault::ReservedKey(path),
        Ok(None) => PrintFault::Damaged,
        Err(_) => PrintFault::Memory,
    }
}

/// Why the document that a store keeps as `body` has no text, by way of its tree.
fn fault_of(alloc: Global, body: &[u8]) -> PrintFault
    ensures { (d : Members) → IsKept d → body.now ≡ encode d → has_reserved d ≡ true
        → (m : Mode) (text : List ℕ) → PrintsDocument m d text (Err result) }
{
    match document_of(alloc, body) {
        Ok(document) => fault_of_document(alloc, &document),
        Err(fault) => fault,
    }
}

/// Replaces what `text` held by the text of the document that a store keeps as `body`, in Extended JSON, and uses its
/// room again. After an error `text` may hold anything.
///
/// It is written straight from the bytes; only of a document that has none the tree is made, to say why.
///
/// `ReservedKey` if a document below the top has a key such as `$oid`, with the path to the first one, `Memory` if a
/// growth was refused. `Damaged` only for bytes that no store keeps.
pub fn text_of_body(
    alloc: Global,
    body: &[u8],
    mode: Mode,
    text: &mut String,
) -> Result<(), PrintFault>
    ensures { (d : Members) → IsKept d → body.now ≡ encode d
        → PrintsDocument mode d (string_bytes text.new) result }
{
    match write_raw(alloc, body, Style::Full(mode), text) {
        Ok(()) => Ok(()),
        Err(Unwritten::Memory) => Err(PrintFault::Memory),
        Err(Unwritten::Unseen) => Err(fault_of(alloc, body)),
    }
}

/// The document `{"value":V}`.
fn holding(alloc: Global, value: &Bson) -> Result<Document, AllocError>
    ensures { IfOk result (λ d. content d ≡ held_by (view value.now)) }
{
    let mut document = Document::new(alloc);
    drop(document.insert(String::from_str(alloc, "value")?, value.try_clone(alloc)?)?);
    Ok(document)
}

/// The path to the first reserved key in a value that stands under the key `value`, if there is one.
fn reserved_in(alloc: Global, value: &Bson) -> Result<Option<String>, AllocError>
    ensures { IfOk result (λ o. option_map string_bytes o ≡ path_below (held_by (view value.now))) }
{
    let document = holding(alloc, value)?;
    reserved_path_below(alloc, &document)
}

/// Replaces what `text` held by the text of a value in Extended JSON, and uses its room again. After an error `text` may
/// hold anything.
///
/// `ReservedKey` if a document in the value, or the value itself, has a key such as `$oid`, with the path to the first
/// one behind `value`, `Memory` if a growth was refused.
pub fn text_of_value(
    alloc: Global,
    value: &Bson,
    mode: Mode,
    text: &mut String,
) -> Result<(), PrintFault>
    ensures { PrintsValue mode (view value.now) (string_bytes text.new) result }
{
    match reserved_in(alloc, value) {
        Ok(Some(path)) => Err(PrintFault::ReservedKey(path)),
        Ok(None) => match write_value(alloc, value, mode, text) {
            Ok(()) => Ok(()),
            Err(_) => Err(PrintFault::Memory),
        },
        Err(_) => Err(PrintFault::Memory),
    }
}
