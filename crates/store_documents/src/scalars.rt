//! Values with nothing inside.

ghost use Rattle.std.specs.Prelude.{◌≡◌, codes, IfOk, IfSome, IsTrue, Some};
ghost use Rattle.json.specs.Json as json;
ghost use Rattle.json.specs.Print.{IsNumber};
ghost use Rattle.json.specs.Tree.{HasNumbers};
ghost use Rattle.json.specs.Value.{members_view, value_view};
ghost use Rattle.bson_base.specs.Value.{scalar, timestamp as timestamp_of};
ghost use Rattle.bson_model.specs.JsonKeys.{of_timestamp, reserved_of};
ghost use Rattle.bson_model.specs.JsonRead.{below_32};
ghost use Rattle.bson_model.specs.JsonWrappers.{reserved_key};
ghost use Rattle.bson_model.specs.View.{view};
ghost use Rattle.store_documents.specs.Reads.{AreTwoMembers, IsAlike, ReadsJson, ReadsUnsigned, ReadsWrapped};

use crate::unread::Unread;
use bson_json_read::{Error, read_wrapped};
use bson_model::extjson::de::{Wrapper, integer, wrapper_of};
use bson_model::{Bson, Timestamp};
use fast_float::Numeral;
use json::Value;
use serde_json::Value as Tree;
use std::alloc::Global;

/// The value of a number without a wrapper. `Unseen` if it is no whole number of 64 bits.
pub(crate) fn number(alloc: Global, text: &str) -> Result<Bson, Unread>
    ensures { IfOk result (λ b. IsNumber text.now → ReadsJson (json.number text.now) (view b)) }
{
    let Ok(Tree::Number(number)) = Tree::from_str(alloc, text) else {
        return Err(Unread::Unseen);
    };
    match number.as_i64() {
        Some(number) => Ok(integer(number)),
        None => Err(Unread::Unseen),
    }
}

/// A number in 32 unsigned bits. None if it is larger.
fn narrow(whole: u64) -> Option<u32>
    ensures { result ≡ below_32 whole }
{
    if whole <= u32::MAX as u64 {
        Some(whole as u32)
    } else {
        None
    }
}

/// The number of a JSON number that is whole and fits 32 unsigned bits. None for any other value.
fn unsigned(value: &Value<'_>) -> Option<u32>
    ensures { IfSome result (ReadsUnsigned (value_view value.now)) }
{
    let Value::Number(text) = value else {
        return None;
    };
    narrow(Numeral::scan(text.as_bytes()).to_u64()?)
}

/// The values under `i` and under `t`, if these are the only keys, in either order.
fn increment_and_time<'v, 'a>(
    members: &'v [(&'a str, Value<'a>)],
) -> Option<(&'v Value<'a>, &'v Value<'a>)>
    ensures { IfSome result (λ p. AreTwoMembers (codes "i") (codes "t") (value_view p.0.now, value_view p.1.now) (members_view members.now)) }
{
    match members {
        [(first, one), (second, other)] => {
            if *first == "i" && *second == "t" {
                Some((one, other))
            } else if *first == "t" && *second == "i" {
                Some((other, one))
            } else {
                None
            }
        }
        _ => None,
    }
}

/// The body of `$timestamp`: the increment and the seconds, whole numbers of 32 unsigned bits. None for any other form.
fn timestamp(value: &Value<'_>) -> Option<Timestamp>
    ensures { IfSome result (λ t. ReadsWrapped of_timestamp (value_view value.now) (scalar (timestamp_of t.time t.increment))) }
{
    let Value::Object(members) = value else {
        return None;
    };
    let (increment, time) = increment_and_time(members.as_slice())?;
    let increment = unsigned(increment)?;
    let time = unsigned(time)?;
    Some(Timestamp { time, increment })
}

/// Whether the body of a wrapper is read alike from its text and from its tree: not that of a double, as a store has few
/// of them, and not numbers without a wrapper, which the two read in other ways.
fn is_alike(wrapper: Wrapper, value: &Value<'_>) -> bool
    ensures { IsTrue result → IsAlike (reserved_key wrapper) (value_view value.now) }
{
    match wrapper {
        Wrapper::Oid | Wrapper::Symbol | Wrapper::RegularExpression => true,
        Wrapper::NumberInt | Wrapper::NumberLong | Wrapper::NumberDecimal => true,
        Wrapper::Binary | Wrapper::Uuid | Wrapper::Code => true,
        Wrapper::Date => !matches!(value, Value::Number(_)),
        _ => false,
    }
}

/// The value of a wrapper whose body is read alike. `Unseen` of any other, and if it can't be read.
fn read_alike(alloc: Global, key: &str, wrapper: Wrapper, value: &Value<'_>) -> Result<Bson, Unread>
    ensures { IfOk result (λ b. reserved_of key.now ≡ Some (reserved_key wrapper)
        → ReadsWrapped (reserved_key wrapper) (value_view value.now) (view b)) }
{
    if !is_alike(wrapper, value) {
        return Err(Unread::Unseen);
    }
    match read_wrapped(alloc, key, value) {
        Ok(read) => Ok(read),
        Err(Error::Memory) => Err(Unread::Memory),
        Err(_) => Err(Unread::Unseen),
    }
}

/// The value of a wrapper with one key. `Unseen` if it has to be read by its tree, or can't be read. `Memory` if a growth
/// was refused.
pub(crate) fn wrapped(alloc: Global, key: &str, value: &Value<'_>) -> Result<Bson, Unread>
    ensures { IfOk result (λ b. HasNumbers (value_view value.now)
        → ReadsJson (json.object (json.member key.now (value_view value.now) json.no_members)) (view b)) }
{
    match wrapper_of(key) {
        None => Err(Unread::Unseen),
        Some(Wrapper::Timestamp) => match timestamp(value) {
            None => Err(Unread::Unseen),
            Some(moment) => Ok(Bson::Timestamp(moment)),
        },
        Some(wrapper) => read_alike(alloc, key, wrapper, value),
    }
}
