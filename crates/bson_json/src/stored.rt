//! The values with nothing inside that have another form in a store: the keys in them ascend, and of doubles only those
//! that are no number, the infinities and the zeros have one.

ghost use Rattle.std.specs.Prelude.{◌≡◌, None, string_bytes, IfErr, OnOk};
ghost use Rattle.bson_base.specs.Scalars.{id_bytes};
ghost use Rattle.bson_model.specs.JsonWrite.{write_double, write_pointer as pointer_of, write_regex as regex_of, write_timestamp as timestamp_of};
ghost use Rattle.bson_json.specs.Prints.{Adds, AddsForm, tokens_of};
ghost use Rattle.bson_json.specs.Straight.{IfUnseen};

use crate::parts::{begin, end_both, put_number, put_text, wrap_text, wrap_texts};
use crate::scalars::{options_in_order, print_id};
use crate::unwritten::Unwritten;
use bson_model::extjson::double_text;
use bson_model::{DoubleBits, ObjectId, Timestamp};
use json::Writer;
use std::alloc::{AllocError, Global};

/// A double: its text. `Unseen` if it is finite and no zero.
pub(crate) fn print_double(out: &mut Writer, double: DoubleBits) -> Result<(), Unwritten>
    ensures form { OnOk result (AddsForm tokens_of (write_double double.0) out.old out.new) }
    ensures seen { IfErr result (IfUnseen (write_double double.0 ≡ None)) }
{
    match double_text(double) {
        Some(text) => Ok(wrap_text(out, "$numberDouble", text)?),
        None => Err(Unwritten::Unseen),
    }
}

/// A regular expression, with its options in the order of their characters.
pub(crate) fn print_regex(
    alloc: Global,
    out: &mut Writer,
    pattern: &str,
    options: &str,
) -> Result<(), AllocError>
    ensures { OnOk result (Adds (tokens_of (regex_of pattern.now options.now)) out.old out.new) }
{
    let in_order = options_in_order(alloc, options)?;
    let text = in_order.as_str();
    wrap_texts(
        out,
        "$regularExpression",
        "options",
        text,
        "pattern",
        pattern,
    )
}

/// A timestamp: its increment, and then its time.
pub(crate) fn print_timestamp(out: &mut Writer, timestamp: Timestamp) -> Result<(), AllocError>
    ensures { OnOk result (Adds (tokens_of (timestamp_of timestamp.time timestamp.increment)) out.old out.new) }
{
    begin(out, "$timestamp")?;
    out.begin_object()?;
    put_number(out, "i", timestamp.increment)?;
    put_number(out, "t", timestamp.time)?;
    end_both(out)
}

/// A pointer to a document of a collection.
pub(crate) fn print_pointer(
    out: &mut Writer,
    namespace: &str,
    id: &ObjectId,
) -> Result<(), AllocError>
    ensures { OnOk result (Adds (tokens_of (pointer_of namespace.now (id_bytes id.now))) out.old out.new) }
{
    begin(out, "$dbPointer")?;
    begin(out, "$id")?;
    print_id(out, id)?;
    put_text(out, "$ref", namespace)?;
    end_both(out)
}
