//! What is asked by a pipeline that puts what it finds into a collection.

ghost use Rattle.std.specs.Prelude.{◌≡◌, IfOk, Some, codes, false, string_bytes};
ghost use Rattle.bson_base.specs.Value.{look_up, scalar, string};
ghost use Rattle.bson_model.specs.View.{content, view};
ghost use Rattle.fallowtime_statements.specs.Plans.{AreOut, is_linear, is_text};

use crate::{Code, Fault, Statement, count_all, find_statement, refuse, value_in};
use bson_model::{Bson, Document};
use cli_convert::IdMaker;
use std::alloc::Global;

/// Whether a key has this text.
fn has_text(document: &Document, key: &str, text: &str) -> bool
    ensures { result ≡ is_text text.now (look_up key.now (content document.now)) }
{
    match value_in(document, key) {
        Some(Bson::String(own)) => own.as_str() == text,
        _ => false,
    }
}

/// Whether a `readConcern` is one of the level that no pipeline may have which writes.
fn is_linear_concern(concern: &Bson) -> bool
    ensures { result ≡ is_linear (Some (view concern.now)) }
{
    match concern {
        Bson::Document(concern) => has_text(concern, "level", "linearizable"),
        _ => false,
    }
}

/// The same of that of a command.
fn is_linear(command: &Document) -> bool
    ensures { result ≡ is_linear (look_up (codes "readConcern") (content command.now)) }
{
    match value_in(command, "readConcern") {
        Some(concern) => is_linear_concern(concern),
        None => false,
    }
}

/// The collection into which `$out` puts what is found. `InvalidOptions` if the command may not write, `NotImplemented`
/// if the collection isn't named by a text alone.
pub(crate) fn target_of(alloc: Global, command: &Document, value: &Bson) -> Result<String, Fault>
    ensures { IfOk result (λ t. (view value.now ≡ scalar (string (string_bytes t))) × (is_linear (look_up (codes "readConcern") (content command.now)) ≡ false)) }
{
    if is_linear(command) {
        return Err(refuse(alloc, Code::InvalidOptions, "readConcern"));
    }
    match value {
        Bson::String(name) => Ok(String::from_str(alloc, name.as_str())?),
        _ => Err(refuse(alloc, Code::NotImplemented, "$out")),
    }
}

/// What puts the documents that a `find` with these parts finds into a collection: a count of that, and the `find`.
pub(crate) fn out_statements(
    alloc: Global,
    maker: &mut IdMaker,
    parts: &Document,
    name: &str,
    target: &str,
) -> Result<Vec<Statement>, Fault>
    ensures { IfOk result (λ list. AreOut (content parts.now) name.now target.now list.items) }
{
    let mut list = Vec::new(alloc);
    let count = count_all(alloc, maker, target)?;
    list.push(count)?;
    let find = find_statement(alloc, maker, parts, name)?;
    list.push(find)?;
    Ok(list)
}
