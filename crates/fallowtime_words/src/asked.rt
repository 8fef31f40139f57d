//! What helps if nothing answers a query, by the texts and the keys in it, and what a document has that may be meant otherwise.

ghost use Rattle.std.specs.Prelude.{◌≡◌, ◌↔◌, IsTrue, Some, codes, option_map};
ghost use Rattle.std.specs.List.{list_all};
ghost use Rattle.std.specs.Str.{trim_start};
ghost use Rattle.fallowtime_words.specs.Commands.{BeginsWith};
ghost use Rattle.fallowtime_words.specs.Advice.{IsObjectId};
ghost use Rattle.fallowtime_words.specs.Asked.{IsDate, IsNumeral, is_figure, is_numeric};

use crate::advice::is_object_id;

/// What helps if a query asks for a text that looks like an ObjectId.
pub(crate) const OBJECT_ID_ASKED: &str =
    "nothing is found, and QUERY asks for a text of 24 digits; an ObjectId is written {\"$oid\":\"..\"}";

/// The same of a date.
pub(crate) const DATE_ASKED: &str =
    "nothing is found, and QUERY asks for a text; a date is written {\"$date\":\"2026-01-02T03:04:05Z\"}";

/// The same of a number.
pub(crate) const NUMBER_ASKED: &str =
    "nothing is found, and QUERY asks for a text of digits; a number has no quotes: {\"price\":5}";

/// What helps if a query names an operator without its mark.
const OPERATOR_ASKED: &str =
    "nothing is found, and QUERY asks for a key; an operator begins with $: {\"price\":{\"$gt\":5}}";

/// What helps if a query asks for an empty key, which is what a shell makes of an operator in double quotes.
const EMPTY_ASKED: &str =
    "nothing is found, and QUERY asks for an empty key: in double quotes a shell takes $gt away, in single ones it stays";

/// What helps if a query asks for a whole document.
const WHOLE_ASKED: &str =
    "nothing is found, and QUERY asks for a whole document; a field in one is at a path: {\"customer.city\":\"Ulm\"}";

/// What is said of a document that has a regular expression in the form of a query.
const REGEX_KEPT: &str =
    "the document has the key $regex; a regular expression is {\"$regularExpression\":{\"pattern\":\"^a\",\"options\":\"\"}}";

/// What is said of a document that has the key of an operator.
const OPERATOR_KEPT: &str =
    "the document has a key that begins with $, as it was given; update makes changes by operators, {\"$set\":{\"a\":1}}";

/// Whether a byte is a decimal digit.
fn is_figure(byte: u8) -> bool
    ensures { result ≡ is_figure byte }
{
    matches!(byte, b'0'..=b'9')
}

/// Whether a byte is a decimal digit or a dot.
fn is_numeric(byte: u8) -> bool
    ensures { result ≡ is_numeric byte }
{
    matches!(byte, b'0'..=b'9' | b'.')
}

/// Whether all of the bytes are decimal digits or dots.
fn are_numeric(bytes: &[u8]) -> bool
    ensures { result ≡ list_all is_numeric bytes.now }
{
    for byte in bytes {
        if !is_numeric(*byte) {
            return false;
        }
    }
    true
}

/// Whether a text is like a number: digits and dots, of which a digit is the first.
fn is_numeral(text: &str) -> bool
    ensures { IsTrue result ↔ IsNumeral text.now }
{
    match text.as_bytes() {
        [first, rest @ ..] => is_figure(*first) && are_numeric(rest),
        [] => false,
    }
}

/// Whether a text is like a date: it begins with four digits, a hyphen and a digit.
fn is_date(text: &str) -> bool
    ensures { IsTrue result ↔ IsDate text.now }
{
    match text.as_bytes() {
        [a, b, c, d, b'-', e, ..] => {
            is_figure(*a) && is_figure(*b) && is_figure(*c) && is_figure(*d) && is_figure(*e)
        }
        _ => false,
    }
}

/// What helps if a query asks for a text and nothing answers it, by what the text is like.
fn advice_on_likeness(text: &str) -> Option<&'static str>
    ensures object_id { IsObjectId text.now → option_map (λ t. t.now) result ≡ Some OBJECT_ID_ASKED.now }
    ensures date { IsDate text.now → (IsObjectId text.now → ⊥) → option_map (λ t. t.now) result ≡ Some DATE_ASKED.now }
    ensures number { IsNumeral text.now → (IsObjectId text.now → ⊥) → (IsDate text.now → ⊥)
        → option_map (λ t. t.now) result ≡ Some NUMBER_ASKED.now }
{
    if is_object_id(text) {
        return Some(OBJECT_ID_ASKED);
    }
    if is_date(text) {
        return Some(DATE_ASKED);
    }
    if is_numeral(text) {
        return Some(NUMBER_ASKED);
    }
    None
}

/// Whether texts under a key are no texts of a document, but what a typed value or an operator is told by.
fn is_of_wrapper(key: &str) -> bool {
    matches!(
        key,
        "$oid"
            | "$uuid"
            | "$date"
            | "$symbol"
            | "$code"
            | "$numberInt"
            | "$numberLong"
            | "$numberDouble"
            | "$numberDecimal"
            | "base64"
            | "subType"
            | "pattern"
            | "options"
            | "$ref"
            | "$regex"
            | "$options"
            | "$type"
            | "$comment"
    )
}

/// Whether a key is that of a typed value of Extended JSON.
fn is_mark(key: &str) -> bool {
    matches!(
        key,
        "$oid"
            | "$symbol"
            | "$regularExpression"
            | "$numberInt"
            | "$numberLong"
            | "$numberDouble"
            | "$numberDecimal"
            | "$binary"
            | "$uuid"
            | "$code"
            | "$scope"
            | "$timestamp"
            | "$date"
            | "$minKey"
            | "$maxKey"
            | "$dbPointer"
            | "$ref"
            | "$id"
            | "$db"
            | "$undefined"
    )
}

/// Whether a key begins with the mark of operators.
fn has_mark(key: &str) -> bool
    ensures { IsTrue result ↔ BeginsWith (codes "$") key.now }
{
    matches!(key.as_bytes(), [b'$', ..])
}

/// Whether what is behind a text says that it is a key.
fn is_behind_key(between: &str) -> bool
    ensures { IsTrue result ↔ BeginsWith (codes ":") (trim_start between.now) }
{
    matches!(between.trim_start().as_bytes(), [b':', ..])
}

/// Whether an object begins between a key and the text behind it.
fn opens(between: &str) -> bool {
    is_behind_key(between) && between.trim_end().ends_with('{')
}

/// What helps if nothing answers a query, by a key in an object that is the value at another key.
fn advice_on_key(outer: &str, key: &str) -> Option<&'static str> {
    if has_mark(outer) || has_mark(key) {
        return None;
    }
    match key {
        "" => Some(EMPTY_ASKED),
        "eq" | "ne" | "gt" | "gte" | "lt" | "lte" | "in" | "nin" | "exists" | "regex" => {
            Some(OPERATOR_ASKED)
        }
        _ => Some(WHOLE_ASKED),
    }
}

/// What helps if nothing answers a query, by the texts for which it asks.
fn advice_on_texts(query: &str) -> Option<&'static str> {
    let mut key = "";
    let mut text = "";
    let mut is_text = true;
    for piece in query.split('"') {
        is_text = !is_text;
        if is_text {
            text = piece;
        } else if is_behind_key(piece) {
            key = text;
        } else if !is_of_wrapper(key) {
            if let Some(advice) = advice_on_likeness(text) {
                return Some(advice);
            }
        }
    }
    None
}

/// What helps if nothing answers a query, by its keys.
fn advice_on_keys(query: &str) -> Option<&'static str> {
    let mut key = "";
    let mut text = "";
    let mut between = "";
    let mut is_text = true;
    for piece in query.split('"') {
        is_text = !is_text;
        if is_text {
            text = piece;
            continue;
        }
        if is_behind_key(piece) {
            if opens(between) {
                if let Some(advice) = advice_on_key(key, text) {
                    return Some(advice);
                }
            }
            key = text;
        }
        between = piece;
    }
    None
}

/// What helps if no document answers a query, in a line: if it asks for a text, in quotes, that is like an ObjectId, a
/// date or a number, or for a whole document.
pub fn advice_on_query(query: &str) -> Option<&'static str> {
    match advice_on_texts(query) {
        Some(advice) => Some(advice),
        None => advice_on_keys(query),
    }
}

/// What is said of a key that begins with the mark of operators and is kept; none of that of a typed value.
fn advice_on_kept(key: &str) -> Option<&'static str> {
    if !has_mark(key) || is_mark(key) {
        return None;
    }
    if matches!(key, "$regex" | "$options") {
        return Some(REGEX_KEPT);
    }
    Some(OPERATOR_KEPT)
}

/// What is said of a document, or another value, that was put in, in a line: if it has the key of an operator, which is a
/// key as others are.
pub fn advice_on_document(document: &str) -> Option<&'static str> {
    let mut text = "";
    let mut is_text = true;
    for piece in document.split('"') {
        is_text = !is_text;
        if is_text {
            text = piece;
        } else if is_behind_key(piece) {
            if let Some(advice) = advice_on_kept(text) {
                return Some(advice);
            }
        }
    }
    None
}

/// The field about which a query asks first, as it is written there; none if it is the `_id` or an operator.
pub fn field_of(query: &str) -> Option<&str> {
    let (_, rest) = query.split_once('"')?;
    let (key, behind) = rest.split_once('"')?;
    if key == "_id" || has_mark(key) || !is_behind_key(behind) {
        return None;
    }
    Some(key)
}
