//! What mostly helps after a refusal.

ghost use Rattle.std.specs.Prelude.{◌≡◌, ◌↔◌, IsTrue, Some, codes, map, option_map, string_bytes};
ghost use Rattle.std.specs.List.{list_all};
ghost use Rattle.fallowtime_words.specs.Advice.{HasObjectId, IsObjectId, is_hex, text_of_kind};

/// What helps after a refusal of a kind.
#[derive(Clone, Copy)]
pub(crate) struct Advice {
    /// The kind.
    pub(crate) kind: &'static str,
    /// What helps.
    pub(crate) text: &'static str,
}

/// The kind of a refusal of an `_id` that no document has.
const NOT_FOUND: &str = "NotFound";

/// What helps if an ID that is a text looks like an ObjectId.
pub(crate) const OBJECT_ID: &str = "this ID is a text; an ObjectId is written '{\"$oid\":\"..\"}'";

/// What helps after the commonest refusals; those of a FILE that can't be had say it themselves.
pub(crate) const ADVICE: [Advice; 16] = [
    Advice {
        kind: NOT_FOUND,
        text: "an ID is 42 for the number and '\"42\"' for the text; fallowtime FILE find COLL shows those that there are",
    },
    Advice {
        kind: "DuplicateId",
        text: "put replaces the document that is there",
    },
    Advice {
        kind: "NoId",
        text: "insert and import --json make an _id",
    },
    Advice {
        kind: "EndInside",
        text: STREAM,
    },
    Advice {
        kind: "BadLength",
        text: STREAM,
    },
    Advice {
        kind: "NotTerminated",
        text: STREAM,
    },
    Advice {
        kind: "Faulty",
        text: STREAM,
    },
    Advice {
        kind: "JSON",
        text: "a text has quotes of its own inside those of the shell: '\"new\"'; an ObjectId is '{\"$oid\":\"..\"}', a date '{\"$date\":\"2026-01-02T03:04:05Z\"}'",
    },
    Advice {
        kind: "id",
        text: "an ObjectId is '{\"$oid\":\"..\"}', of 24 hexadecimal digits; what is no JSON is the text itself",
    },
    Advice {
        kind: "query",
        text: "a query is an object, in quotes of the shell: '{\"price\":{\"$in\":[1,1.5]}}'; a date is {\"$date\":\"2026-01-02T03:04:05Z\"}",
    },
    Advice {
        kind: "line",
        text: "each line is a whole document, {..}: jq -c . makes such lines of documents over several, jq -c '.[]' of an array; BSON goes in without --json; what is packed is unpacked first, a byte order mark goes, and of a table (CSV) lines are made first",
    },
    Advice {
        kind: "stages",
        text: "a pipeline is an array of stages, in quotes of the shell: '[{\"$match\":{\"gift\":true}},{\"$group\":{\"_id\":\"$to.city\",\"sum\":{\"$sum\":\"$price\"}}}]'",
    },
    Advice {
        kind: "update",
        text: "an update is an object of operators, '{\"$set\":{\"to.city\":\"Ulm\"}}', at keys with dots between them; set and unset with --key take their PATH as one key",
    },
    Advice {
        kind: "options",
        text: "a path of --sort, --fields or --without is keys with dots between them, and paths have commas between them: --sort price:-1,to.city --fields price,to.city",
    },
    Advice {
        kind: "fields",
        text: "paths are keys with dots between them: none is empty, begins with $ or leads into another one, and beside --fields only the _id is left out",
    },
    Advice {
        kind: "ReservedKey",
        text: "--bson and export write such a document as BSON",
    },
];

/// What helps if the bytes that `import` reads are no BSON.
const STREAM: &str =
    "import reads BSON: for lines of JSON say --json; what is packed, as by gzip or mongodump --archive, is unpacked first";

/// What helps if a text has the form of a binary value from before Extended JSON v2.
const OLD_BINARY: &str =
    "a binary value is '{\"$binary\":{\"base64\":\"AAEC\",\"subType\":\"00\"}}'; the form with $type behind it isn't read";

/// What helps if a date has another form than those that are read.
const DATE: &str =
    "a date is '{\"$date\":\"2026-01-02T03:04:05Z\"}', with its zone, or in milliseconds '{\"$date\":1767323045000}'";

/// What helps if a pattern isn't one that is taken.
const PATTERN: &str =
    "$regex takes no pattern that looks ahead, behind or back; {\"$regex\":\"^Ad\",\"$options\":\"i\"} has options of imsxu";

/// What helps if an array is in the place of a document.
const ARRAY: &str = "DOC is one document; import COLL FILE.json takes an array of them";

/// What helps if a query is in the place of an ID.
const QUERY_AS_ID: &str = "this ID is a document; find, update and delete take a QUERY";

/// Whether a byte is a hexadecimal digit.
fn is_digit(byte: u8) -> bool
    ensures { result ≡ is_hex byte }
{
    matches!(byte, b'0'..=b'9' | b'A'..=b'F' | b'a'..=b'f')
}

/// Whether all of the bytes are hexadecimal digits.
fn are_digits(bytes: &[u8]) -> bool
    ensures { result ≡ list_all is_hex bytes.now }
{
    for byte in bytes {
        if !is_digit(*byte) {
            return false;
        }
    }
    true
}

/// Whether a word has the digits of an ObjectId.
pub(crate) fn is_object_id(word: &str) -> bool
    ensures { IsTrue result ↔ IsObjectId word.now }
{
    word.len() == 24 && are_digits(word.as_bytes())
}

/// Whether the second of the words has the digits of an ObjectId.
fn has_object_id(words: &[String]) -> bool
    ensures { IsTrue result ↔ HasObjectId (map string_bytes words.now) }
{
    match words {
        [_, id, ..] => is_object_id(id.as_str()),
        _ => false,
    }
}

/// What helps after a refusal of this kind, if it is one of the table.
fn advice_in(rows: &'static [Advice], kind: &str) -> Option<&'static str>
    ensures { option_map (λ t. t.now) result ≡ text_of_kind rows.now kind.now }
{
    for row in rows {
        if row.kind == kind {
            return Some(row.text);
        }
    }
    None
}

/// What mostly helps if no document has the `_id` of the words.
fn advice_on_id(words: &[String]) -> Option<&'static str>
    ensures { HasObjectId (map string_bytes words.now) → option_map (λ t. t.now) result ≡ Some OBJECT_ID.now }
{
    if has_object_id(words) {
        return Some(OBJECT_ID);
    }
    if begins_second(words, "{\"") && !begins_second(words, "{\"$") && !have(words, "\"_id\"") {
        return Some(QUERY_AS_ID);
    }
    advice_in(&ADVICE, NOT_FOUND)
}

/// Whether one of the words has a text in it.
fn have(words: &[String], text: &str) -> bool {
    for word in words {
        if word.as_str().contains(text) {
            return true;
        }
    }
    false
}

/// Whether the second of the words begins so.
fn begins_second(words: &[String], front: &str) -> bool {
    match words {
        [_, word, ..] => word.as_str().starts_with(front),
        _ => false,
    }
}

/// What helps if words can't be read, by what they have in them.
fn advice_by_words(words: &[String]) -> Option<&'static str> {
    if have(words, "\"$binary\"") && have(words, "\"$type\"") {
        return Some(OLD_BINARY);
    }
    if have(words, "\"$date\"") {
        return Some(DATE);
    }
    None
}

/// What mostly helps after a refusal of this kind, which isn't that of an `_id`.
fn advice_by_kind(kind: &str, words: &[String]) -> Option<&'static str> {
    if matches!(kind, "JSON" | "query" | "update") {
        if let Some(advice) = advice_by_words(words) {
            return Some(advice);
        }
    }
    if kind == "query" && have(words, "\"$regex\"") {
        return Some(PATTERN);
    }
    if kind == "JSON" && begins_second(words, "[") {
        return Some(ARRAY);
    }
    advice_in(&ADVICE, kind)
}

/// What mostly helps after a refusal of this kind, in a line, if anything does. The words are those behind the command.
pub fn advice_for(kind: &str, words: &[String]) -> Option<&'static str>
    ensures { kind.now ≡ codes "NotFound" → HasObjectId (map string_bytes words.now)
        → option_map (λ t. t.now) result ≡ Some OBJECT_ID.now }
{
    if kind == NOT_FOUND {
        return advice_on_id(words);
    }
    advice_by_kind(kind, words)
}
