//! Documents as texts.

ghost use Rattle.std.specs.Prelude.{◌≡◌, [], map, string_bytes, OnErr, OnOk};
ghost use Rattle.bson_base.specs.Value.{array, document as tree};
ghost use Rattle.bson_model.specs.Trees.{scoped_code_tree};
ghost use Rattle.bson_model.specs.View.{view, items_of, content};
ghost use Rattle.bson_json.specs.Prints.{PrintsForm, IsTextOf};

use crate::parts::{begin, text_of, wrap_text, writer_over};
use crate::scalars::{
    print_binary, print_bound, print_date, print_decimal, print_double, print_id, print_int,
    print_long, print_pointer, print_regex, print_timestamp, print_undefined,
};
use bson_model::extjson::Mode;
use bson_model::{Bson, Document, JavaScriptCodeWithScope};
use json::Writer;
use std::alloc::{AllocError, Global};

/// A value with all that is inside, in Extended JSON. The error is a refused growth.
#[cycle(print)]
fn print_value(alloc: Global, value: &Bson, mode: Mode, out: &mut Writer) -> Result<(), AllocError>
    ensures { PrintsForm mode (view value.now) result out.old out.new }
{
    match value {
        Bson::Double(double) => print_double(out, *double, mode),
        Bson::String(text) => out.string(text.as_str()),
        Bson::Array(items) => print_items(alloc, items.as_slice(), mode, out),
        Bson::Document(document) => print_members(alloc, document, mode, out),
        Bson::Boolean(truth) => out.boolean(*truth),
        Bson::Null => out.null(),
        Bson::RegularExpression(regex) => {
            print_regex(alloc, out, regex.pattern.as_str(), regex.options.as_str())
        }
        Bson::JavaScriptCode(code) => wrap_text(out, "$code", code.as_str()),
        Bson::JavaScriptCodeWithScope(code) => print_scoped(alloc, code, mode, out),
        Bson::Int32(number) => print_int(out, *number, mode),
        Bson::Int64(number) => print_long(out, *number, mode),
        Bson::Timestamp(timestamp) => print_timestamp(out, *timestamp),
        Bson::Binary(binary) => print_binary(alloc, out, binary),
        Bson::ObjectId(id) => print_id(out, id),
        Bson::DateTime(moment) => print_date(alloc, out, *moment, mode),
        Bson::Symbol(text) => wrap_text(out, "$symbol", text.as_str()),
        Bson::Decimal128(decimal) => print_decimal(alloc, out, decimal),
        Bson::Undefined => print_undefined(out),
        Bson::MaxKey => print_bound(out, "$maxKey"),
        Bson::MinKey => print_bound(out, "$minKey"),
        Bson::DbPointer(pointer) => print_pointer(out, pointer.namespace.as_str(), &pointer.id),
    }
}

/// An array, its items in their order.
#[cycle(print)]
fn print_items(
    alloc: Global,
    items: &[Bson],
    mode: Mode,
    out: &mut Writer,
) -> Result<(), AllocError>
    ensures { PrintsForm mode (array (items_of (map view items.now))) result out.old out.new }
{
    out.begin_array()?;
    for item in items {
        print_value(alloc, item, mode, out)?;
    }
    out.end_array()
}

/// The members in their order.
#[cycle(print)]
fn print_members(
    alloc: Global,
    document: &Document,
    mode: Mode,
    out: &mut Writer,
) -> Result<(), AllocError>
    ensures { PrintsForm mode (tree (content document.now)) result out.old out.new }
{
    out.begin_object()?;
    for (key, value) in document.iter() {
        out.key(key.as_str())?;
        print_value(alloc, value, mode, out)?;
    }
    out.end_object()
}

/// A code and its scope: an object of `$code` and then `$scope` (MongoDB Extended JSON v2, "Conversion table").
#[cycle(print)]
fn print_scoped(
    alloc: Global,
    code: &JavaScriptCodeWithScope,
    mode: Mode,
    out: &mut Writer,
) -> Result<(), AllocError>
    ensures { PrintsForm mode (scoped_code_tree code.now) result out.old out.new }
{
    begin(out, "$code")?;
    out.string(code.code.as_str())?;
    out.key("$scope")?;
    print_members(alloc, &code.scope, mode, out)?;
    out.end_object()
}

/// Replaces what `text` held by the text of a document in Extended JSON, and uses its room again. The keys are in the
/// order of the document. After a growth of memory that was refused, `text` is empty.
pub fn write(
    alloc: Global,
    document: &Document,
    mode: Mode,
    text: &mut String,
) -> Result<(), AllocError>
    ensures text { OnOk result (IsTextOf mode (tree (content document.now)) (string_bytes text.new)) }
    ensures empty { OnErr result (string_bytes text.new ≡ []) }
{
    let mut out = writer_over(alloc, text);
    print_members(alloc, document, mode, &mut out)?;
    *text = text_of(out);
    Ok(())
}

/// Replaces what `text` held by the text of a value in Extended JSON, as `write` does with a document.
pub fn write_value(
    alloc: Global,
    value: &Bson,
    mode: Mode,
    text: &mut String,
) -> Result<(), AllocError>
    ensures text { OnOk result (IsTextOf mode (view value.now) (string_bytes text.new)) }
    ensures empty { OnErr result (string_bytes text.new ≡ []) }
{
    let mut out = writer_over(alloc, text);
    print_value(alloc, value, mode, &mut out)?;
    *text = text_of(out);
    Ok(())
}
