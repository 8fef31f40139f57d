//! The keys that mark a typed value.
ghost use Rattle.std.specs.Prelude.{◌≡◌};
ghost use Rattle.std.specs.Option.{option_map};
ghost use Rattle.bson_model.specs.JsonKeys.{reserved_of, is_reserved as reserves};
ghost use Rattle.bson_model.specs.JsonWrappers.{reserved_key};

/// The kinds of typed values, by their keys.
#[derive(Clone, Copy, Drop)]
pub enum Wrapper {
    Oid,
    Symbol,
    RegularExpression,
    NumberInt,
    NumberLong,
    NumberDouble,
    NumberDecimal,
    Binary,
    Uuid,
    Code,
    Timestamp,
    Date,
    MinKey,
    MaxKey,
    DbPointer,
    Undefined,
}

/// The kind of typed value that a key marks, if it marks one, by all of its bytes.
#[tactic(auto, unfolding(crate::specs::JsonKeys::reserved_of))]
fn marked_by(key: &str) -> Option<Wrapper>
    ensures { option_map reserved_key result ≡ reserved_of key.now }
{
    match key {
        "$oid" => Some(Wrapper::Oid),
        "$symbol" => Some(Wrapper::Symbol),
        "$regularExpression" => Some(Wrapper::RegularExpression),
        "$numberInt" => Some(Wrapper::NumberInt),
        "$numberLong" => Some(Wrapper::NumberLong),
        "$numberDouble" => Some(Wrapper::NumberDouble),
        "$numberDecimal" => Some(Wrapper::NumberDecimal),
        "$binary" => Some(Wrapper::Binary),
        "$uuid" => Some(Wrapper::Uuid),
        "$code" => Some(Wrapper::Code),
        "$timestamp" => Some(Wrapper::Timestamp),
        "$date" => Some(Wrapper::Date),
        "$minKey" => Some(Wrapper::MinKey),
        "$maxKey" => Some(Wrapper::MaxKey),
        "$dbPointer" => Some(Wrapper::DbPointer),
        "$undefined" => Some(Wrapper::Undefined),
        _ => None,
    }
}

/// The kind of typed value that a key marks, if it marks one. All keys that do begin with `$`, and few others: so most
/// keys are compared with no other text.
pub fn wrapper_of(key: &str) -> Option<Wrapper>
    ensures { option_map reserved_key result ≡ reserved_of key.now }
{
    match key.as_bytes() {
        [] => None,
        [first, ..] => { if *first == b'$' { marked_by(key) } else { None } }
    }
}

/// Whether a key marks a typed value in Extended JSON (MongoDB Extended JSON v2, "Conversion table").
pub fn is_reserved_key(key: &str) -> bool
    ensures { result ≡ reserves key.now }
{
    wrapper_of(key).is_some()
}
