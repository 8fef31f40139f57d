//! The texts of values, in the plain form. Width, fill and `#` change nothing.

ghost use Rattle.std.specs.Prelude.{◌++◌, Some, true, codes, string_bytes, map};
ghost use Rattle.std.specs.Fmt.{WritesOnOk};
ghost use Rattle.bson_base.specs.Scalars.{id_bytes, millis_of};
ghost use Rattle.bson_base.specs.Value.{db_pointer};
ghost use Rattle.bson_base.specs.Dates.{shown_date};
ghost use Rattle.bson_model.specs.Display.{call_of_text, mark_before, in_quotes, display_text, shown_document, shown_double, shown_items, shown_members, shown_scalar};
ghost use Rattle.bson_model.specs.View.{view, items_of, content};

use crate::bson::{Bson, JavaScriptCodeWithScope};
use crate::document::Document;
use bson_base::plain::write_plainly;
use bson_base::{DateTime, DbPointer, DoubleBits};
use std::{fmt, str};

/// The value as text: `"text"`, `[a, b]`, `{ "k": v, "l": w }`, integers in decimal, a double as `0x` and the 16 digits
/// of its pattern, the other kinds by their names.
impl fmt::Display for Bson {
    ghost output = { λ v. Some (display_text (view v)) };

    ghost styled_output = { λ v s. Some (display_text (view v)) };

    fn fmt<W: fmt::Write>(&self, f: &mut fmt::Formatter<W>) -> fmt::Result {
        write_plainly(f, ShownValue { value: self })
    }
}

/// `{ "k": v, "l": w }`, or `{}`.
impl fmt::Display for Document {
    ghost output = { λ d. Some (shown_document (content d)) };

    ghost styled_output = { λ d s. Some (shown_document (content d)) };

    fn fmt<W: fmt::Write>(&self, f: &mut fmt::Formatter<W>) -> fmt::Result {
        write_plainly(f, ShownDocument { document: self })
    }
}

/// The text of the code, without the scope.
impl fmt::Display for JavaScriptCodeWithScope {
    ghost output = { λ c. Some (string_bytes c.code) };

    ghost styled_output = { λ c s. Some (string_bytes c.code) };

    fn fmt<W: fmt::Write>(&self, f: &mut fmt::Formatter<W>) -> fmt::Result {
        f.write_str(&self.code)
    }
}

// A value as it is shown by a formatter without options.
#[derive(Clone, Copy)]
struct ShownValue<'a> {
    value: &'a Bson,
}

impl<'a> fmt::Display for ShownValue<'a> {
    ghost output = { λ s. Some (display_text (view s.value.now)) };

    fn fmt<W: fmt::Write>(&self, f: &mut fmt::Formatter<W>) -> fmt::Result {
        write_value(f, self.value)
    }
}

// The same of a document.
#[derive(Clone, Copy)]
struct ShownDocument<'a> {
    document: &'a Document,
}

impl<'a> fmt::Display for ShownDocument<'a> {
    ghost output = { λ s. Some (shown_document (content s.document.now)) };

    fn fmt<W: fmt::Write>(&self, f: &mut fmt::Formatter<W>) -> fmt::Result {
        write_braces(f, self.document)
    }
}

/// The text of a value of any kind, with all that it holds. Texts and symbols are quoted without escapes, and code is
/// written without its scope.
#[cycle(show)]
fn write_value<W: fmt::Write>(f: &mut fmt::Formatter<W>, value: &Bson) -> fmt::Result
    ensures { WritesOnOk W.write_str_gives f.old result (display_text (view value.now)) f.new }
{
    match value {
        Bson::Double(double) => write_double(f, *double),
        Bson::String(text) => write!(f, "\"{text}\""),
        Bson::Array(items) => write_array(f, items),
        Bson::Document(document) => write_braces(f, document),
        Bson::Boolean(truth) => write!(f, "{truth}"),
        Bson::Null => f.write_str("null"),
        Bson::RegularExpression(regex) => write!(f, "{regex}"),
        Bson::JavaScriptCode(code) => f.write_str(code),
        Bson::JavaScriptCodeWithScope(code) => f.write_str(&code.code),
        Bson::Int32(number) => write!(f, "{number}"),
        Bson::Int64(number) => write!(f, "{number}"),
        Bson::Timestamp(timestamp) => write!(f, "{timestamp}"),
        Bson::Binary(binary) => write!(f, "{binary}"),
        Bson::ObjectId(id) => write!(f, "{id:?}"),
        Bson::DateTime(moment) => write_moment(f, moment),
        Bson::Symbol(text) => write!(f, "Symbol(\"{text}\")"),
        Bson::Decimal128(decimal) => write!(f, "{decimal}"),
        Bson::Undefined => f.write_str("undefined"),
        Bson::MaxKey => f.write_str("MaxKey"),
        Bson::MinKey => f.write_str("MinKey"),
        Bson::DbPointer(pointer) => write_pointer(f, pointer),
    }
}

/// `[a, b]`, or `[]` if there are no items.
#[cycle(show)]
fn write_array<W: fmt::Write>(f: &mut fmt::Formatter<W>, items: &[Bson]) -> fmt::Result
    ensures { WritesOnOk W.write_str_gives f.old result (codes "[" ++ shown_items true (items_of (map view items.now)) ++ codes "]") f.new }
{
    f.write_str("[")?;
    write_items(f, items)?;
    f.write_str("]")
}

/// `a, b`: the items without the brackets, and nothing if there are none.
#[cycle(show)]
fn write_items<W: fmt::Write>(f: &mut fmt::Formatter<W>, items: &[Bson]) -> fmt::Result
    ensures { WritesOnOk W.write_str_gives f.old result (shown_items true (items_of (map view items.now))) f.new }
{
    let mut first = true;
    for item in items {
        write_mark(f, first)?;
        write_value(f, item)?;
        first = false;
    }
    Ok(())
}

/// `{ "k": v, "l": w }`, in the order of the pairs, or `{}` without a space if there are none.
#[cycle(show)]
fn write_braces<W: fmt::Write>(f: &mut fmt::Formatter<W>, document: &Document) -> fmt::Result
    ensures { WritesOnOk W.write_str_gives f.old result (shown_document (content document.now)) f.new }
{
    if document.is_empty() {
        return f.write_str("{}");
    }
    f.write_str("{ ")?;
    write_members(f, document)?;
    f.write_str(" }")
}

/// `"k": v, "l": w`: the pairs in their order, without the braces, and nothing if there are none.
#[cycle(show)]
fn write_members<W: fmt::Write>(f: &mut fmt::Formatter<W>, document: &Document) -> fmt::Result
    ensures { WritesOnOk W.write_str_gives f.old result (shown_members true (content document.now)) f.new }
{
    let mut first = true;
    for (key, value) in document.pairs.iter() {
        write_mark(f, first)?;
        write_key(f, key)?;
        write_value(f, value)?;
        first = false;
    }
    Ok(())
}

/// What separates a part from the one before it: a comma and a space, or nothing before the first.
fn write_mark<W: fmt::Write>(f: &mut fmt::Formatter<W>, first: bool) -> fmt::Result
    ensures { WritesOnOk W.write_str_gives f.old result (mark_before first) f.new }
{
    f.write_str(if first { "" } else { ", " })
}

/// The key in quotes, a colon and a space. Nothing is escaped, so a quote inside the key is written as it is.
fn write_key<W: fmt::Write>(f: &mut fmt::Formatter<W>, key: &str) -> fmt::Result
    ensures { WritesOnOk W.write_str_gives f.old result (in_quotes key.now ++ codes ": ") f.new }
{
    write!(f, "\"{key}\": ")
}

/// `0x` and the IEEE 754 pattern of 64 bits in 16 lower-case hexadecimal digits, the most significant first.
fn write_double<W: fmt::Write>(f: &mut fmt::Formatter<W>, double: DoubleBits) -> fmt::Result
    ensures { WritesOnOk W.write_str_gives f.old result (shown_double double.0) f.new }
{
    let mut digits = [0u8; 16];
    let Ok(()) = hex::encode_to_slice(&double.to_bits().to_be_bytes()[..], &mut digits) else {
        return Err(fmt::Error);
    };
    match str::from_utf8(&digits) {
        Ok(text) => write!(f, "0x{text}"),
        Err(_) => Err(fmt::Error),
    }
}

/// The date text of RFC 3339 in UTC, or outside the years 0000 to 9999 the milliseconds since 1970 in decimal.
fn write_date<W: fmt::Write>(f: &mut fmt::Formatter<W>, moment: &DateTime) -> fmt::Result
    ensures { WritesOnOk W.write_str_gives f.old result (shown_date (millis_of moment.now)) f.new }
{
    fmt::Display::fmt(moment, f)
}

/// `DateTime("text")`, where the text is that of `write_date`: in quotes even if it is a number of milliseconds.
fn write_moment<W: fmt::Write>(f: &mut fmt::Formatter<W>, moment: &DateTime) -> fmt::Result
    ensures { WritesOnOk W.write_str_gives f.old result (call_of_text (codes "DateTime") (shown_date (millis_of moment.now))) f.new }
{
    f.write_str("DateTime(\"")?;
    write_date(f, moment)?;
    f.write_str("\")")
}

/// `DbPointer(namespace, id)`: the namespace without quotes, the id as 24 lower-case hexadecimal digits.
fn write_pointer<W: fmt::Write>(f: &mut fmt::Formatter<W>, pointer: &DbPointer) -> fmt::Result
    ensures { WritesOnOk W.write_str_gives f.old result (shown_scalar (db_pointer (string_bytes pointer.now.namespace) (id_bytes pointer.now.id))) f.new }
{
    let namespace = pointer.namespace.as_str();
    let id = pointer.id;
    write!(f, "DbPointer({namespace}, {id})")
}
