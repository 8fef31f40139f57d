//! Values with nothing inside.

ghost use Rattle.std.specs.Prelude.{◌≡◌, ◌+◌, length, if◌then◌else◌, option_map, IfSome};
ghost use Rattle.std.specs.Ordering.{nat_cmp};
ghost use Rattle.std.specs.Cmp.Lexicographic.{slice_cmp};
ghost use Rattle.bson_meaning.specs.Views.{view_scalar};
ghost use Rattle.bson_bytes.specs.Encode.{is_old};
ghost use Rattle.bson_order.specs.Sizes.{IsNumber, place_of};
ghost use Rattle.bson_order.specs.Wholes.{number_place, part_of};
ghost use Rattle.bson_base.specs.Value.{Value};
ghost use Rattle.bson_raw.specs.Convert.{SpellsRawValue};
ghost use Rattle.bson_raw.specs.Raw.{ref_value};
ghost use Rattle.bson_order.specs.Order.{is_no_number, parts, parts_key, nothing};
ghost use Rattle.bson_order.specs.Shown.{seen};

use crate::ranks::rank_of;
use crate::{Number, compare_numbers, decimal, double, whole, whole_part};
use bson_base::BinarySubtype;
use bson_raw::{RawBinaryRef, RawBsonRef};
use std::cmp::Ordering;

/// What a value is compared by, one after the other.
#[derive(Clone, Copy)]
pub(crate) struct Comparand<'a> {
    pub(crate) number: Number,
    pub(crate) major: u64,
    pub(crate) minor: u64,
    pub(crate) text: &'a [u8],
    pub(crate) more: &'a [u8],
    pub(crate) id: [u8; 12],
}

const NO_ID: [u8; 12] = [0; 12];

/// Whether a value is of a kind of numbers and none of the numbers.
pub fn is_not_a_number(value: RawBsonRef<'_>) -> bool
    ensures { (v : Value) → SpellsRawValue (ref_value value.entry) v → result ≡ is_no_number v }
{
    rank_of(value) == 3 && comparand_of(value).number.is_nan()
}

/// The number that a value is.
fn number_in(value: RawBsonRef<'_>) -> Option<Number>
    ensures place { (v : Value) → SpellsRawValue (ref_value value.entry) v → option_map place_of result ≡ number_place v }
    ensures number { IfSome result IsNumber }
{
    match value {
        RawBsonRef::Double(x) => Some(double(x)),
        RawBsonRef::Int32(x) => Some(whole(x as i64)),
        RawBsonRef::Int64(x) => Some(whole(x)),
        RawBsonRef::Decimal128(x) => Some(decimal(&x)),
        _ => None,
    }
}

/// A number without its fraction, cut off toward zero. None of what is no number, and where 64 bits have no room.
pub fn whole_part_of(value: RawBsonRef<'_>) -> Option<i64>
    ensures { (v : Value) → SpellsRawValue (ref_value value.entry) v → result ≡ part_of v }
{
    match number_in(value) {
        Some(number) => whole_part(number),
        None => None,
    }
}

/// Compares two values of one rank that have nothing inside.
pub(crate) fn compare_scalars(value: RawBsonRef<'_>, other: RawBsonRef<'_>) -> Ordering
    ensures { result ≡ slice_cmp nat_cmp (parts_key (parts (view_scalar value.entry))) (parts_key (parts (view_scalar other.entry))) }
{
    match compare_texts(value, other) {
        Some(order) => order,
        None => compare_parts(&comparand_of(value), &comparand_of(other)),
    }
}

/// Two texts, without going through all parts.
fn compare_texts(value: RawBsonRef<'_>, other: RawBsonRef<'_>) -> Option<Ordering>
    ensures { IfSome result (λ r. r ≡ slice_cmp nat_cmp (parts_key (parts (view_scalar value.entry))) (parts_key (parts (view_scalar other.entry)))) }
{
    match value {
        RawBsonRef::String(x) => match other {
            RawBsonRef::String(y) => Some(x.as_bytes().cmp(y.as_bytes())),
            _ => None,
        },
        _ => None,
    }
}

/// Part by part, in the order in which `Comparand` has them; the first that differs decides.
fn compare_parts(value: &Comparand<'_>, other: &Comparand<'_>) -> Ordering
    requires first { IsNumber value.now.number }
    requires second { IsNumber other.now.number }
    ensures { result ≡ slice_cmp nat_cmp (parts_key (seen value.now)) (parts_key (seen other.now)) }
{
    let places = compare_numbers(value.number, other.number);
    let counts = value
        .major
        .cmp(&other.major)
        .then(value.minor.cmp(&other.minor));
    let texts = value.text.cmp(other.text).then(value.more.cmp(other.more));
    let ids = value.id[..].cmp(&other.id[..]);
    places.then(counts.then(texts.then(ids)))
}

/// What a value with nothing inside is compared by.
fn comparand_of(value: RawBsonRef<'_>) -> Comparand<'_>
    ensures parts { seen result ≡ parts (view_scalar value.entry) }
    ensures number { IsNumber result.number }
{
    match value {
        RawBsonRef::Double(x) => of_number(double(x)),
        RawBsonRef::Int32(x) => of_number(whole(x as i64)),
        RawBsonRef::Int64(x) => of_number(whole(x)),
        RawBsonRef::Decimal128(x) => of_number(decimal(&x)),
        RawBsonRef::DateTime(x) => of_number(whole(x.timestamp_millis())),
        RawBsonRef::String(x) => of_text(0, x.as_bytes(), NO_ID),
        RawBsonRef::Symbol(x) => of_text(0, x.as_bytes(), NO_ID),
        RawBsonRef::JavaScriptCode(x) => of_text(0, x.as_bytes(), NO_ID),
        RawBsonRef::ObjectId(x) => of_text(0, &[], x.bytes()),
        RawBsonRef::DbPointer(x) => {
            of_text(
                x.namespace.len() as u64,
                x.namespace.as_bytes(),
                x.id.bytes(),
            )
        }
        RawBsonRef::Boolean(x) => of_counts(x as u64, 0, &[], &[]),
        RawBsonRef::Timestamp(x) => of_counts(x.time as u64, x.increment as u64, &[], &[]),
        RawBsonRef::Binary(x) => {
            of_counts(binary_size(x), u8::from(x.subtype) as u64, x.bytes, &[])
        }
        RawBsonRef::RegularExpression(x) => {
            of_counts(0, 0, x.pattern.as_bytes(), x.options.as_bytes())
        }
        _ => of_counts(0, 0, &[], &[]),
    }
}

/// What is compared by a number alone; the other parts are 0 or empty. A date is the number of its milliseconds.
fn of_number(number: Number) -> Comparand<'static>
    requires { IsNumber number }
    ensures parts { seen result ≡ record nothing { place = place_of number } }
    ensures number { IsNumber result.number }
{
    Comparand {
        number,
        major: 0,
        minor: 0,
        text: &[],
        more: &[],
        id: NO_ID,
    }
}

/// What is compared by `major`, then by the bytes of `text`, then by those of `id`; the other parts are the same for
/// all.
fn of_text<'a>(major: u64, text: &'a [u8], id: [u8; 12]) -> Comparand<'a>
    ensures parts { seen result ≡ record nothing { major = major; text = text.now; id = id } }
    ensures number { IsNumber result.number }
{
    Comparand {
        number: Number::NotANumber,
        major,
        minor: 0,
        text,
        more: &[],
        id,
    }
}

/// What is compared by `major`, `minor`, the bytes of `text` and those of `more`, one after the other; the other parts
/// are the same for all.
fn of_counts<'a>(major: u64, minor: u64, text: &'a [u8], more: &'a [u8]) -> Comparand<'a>
    ensures parts { seen result ≡ record nothing { major = major; minor = minor; text = text.now; more = more.now } }
    ensures number { IsNumber result.number }
{
    Comparand {
        number: Number::NotANumber,
        major,
        minor,
        text,
        more,
        id: NO_ID,
    }
}

/// How many bytes a binary value takes, with the inner length of an old one.
fn binary_size(binary: RawBinaryRef<'_>) -> u64
    ensures { result ≡ length binary.entry.bytes.now + (if is_old binary.entry.subtype then 9 else 5) }
{
    let length = binary.bytes.len() as u64;
    match binary.subtype {
        BinarySubtype::BinaryOld => length + 9,
        _ => length + 5,
    }
}
