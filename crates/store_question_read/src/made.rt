//! Questions from their parts.

ghost use Rattle.std.specs.Prelude.{◌≡◌, ℕ, List, map, None, option_map, IfOk};
ghost use Rattle.regex.specs.Strings.{regex_pattern};
ghost use Rattle.bson_base.specs.Scalars.{decimal_bytes};
ghost use Rattle.bson_base.specs.Value.{Value};
ghost use Rattle.store_question.specs.Filters.{path_of};
ghost use Rattle.store_question.specs.Asked.{Asked, Askeds, at as Within, whole as Whole, exists, is_of, lies as Lies, has_size, leaves as Leaves, begins as Begins, matches as Matches, has_item, no, all_of, any_of};
ghost use Rattle.store_question.specs.Patterns.{IsReadFrom};
ghost use Rattle.store_question_read.specs.Outcome.{AskEach, Asks, Spells};
ghost use Rattle.store_question_read.specs.Query.{both as Both, either as Either, every as every_of, holds as holds_in, is_a_number as number_at, keys, lies_near, others_lie, there as there_at};

use bson_base::{Decimal128, DoubleBits, ElementType};
use bson_raw::RawBson;
use regex::Regex;
use std::alloc::{AllocError, Global};
use store_question::{Comparison, Question};

/// The texts between the dots of a path.
pub(crate) fn pieces(alloc: Global, path: &str) -> Result<Vec<&str>, AllocError>
    ensures { IfOk result (λ v. map (λ x. x.now) v.items ≡ keys path.now) }
{
    path.split('.').collect(alloc)
}

/// A copy of the keys of a path, which a question can keep. The error is a refused growth.
fn owned(alloc: Global, pieces: &[&str]) -> Result<Vec<String>, AllocError>
    ensures { IfOk result (λ v. path_of v.items ≡ map (λ x. x.now) pieces.now) }
{
    let mut keys = Vec::new(alloc);
    for piece in pieces {
        keys.push(String::from_str(alloc, *piece)?)?;
    }
    Ok(keys)
}

/// The keys of a path, between its dots. The error is a refused growth.
pub fn keys_of(alloc: Global, path: &str) -> Result<Vec<String>, AllocError>
    ensures { IfOk result (λ v. path_of v.items ≡ keys path.now) }
{
    let pieces = pieces(alloc, path)?;
    owned(alloc, pieces.as_slice())
}

/// Asked of what is at a path, and of the items of an array there.
pub(crate) fn at(alloc: Global, path: &[&str], question: Question) -> Result<Question, AllocError>
    ensures { (t : Asked) → Asks question t
        → IfOk result (λ q. Asks q (Within (map (λ x. x.now) path.now) t)) }
{
    let keys = owned(alloc, path)?;
    let inner = Box::new(alloc, question)?;
    Ok(Question::At(keys, inner))
}

/// Asked of what is at a path, with an array taken whole.
fn whole(alloc: Global, path: &[&str], question: Question) -> Result<Question, AllocError>
    ensures { (t : Asked) → Asks question t
        → IfOk result (λ q. Asks q (Whole (map (λ x. x.now) path.now) t)) }
{
    let keys = owned(alloc, path)?;
    let inner = Box::new(alloc, question)?;
    Ok(Question::Whole(keys, inner))
}

/// Holds where this question doesn't. The error is a refused growth.
pub(crate) fn not(alloc: Global, question: Question) -> Result<Question, AllocError>
    ensures { (t : Asked) → Asks question t → IfOk result (λ q. Asks q (no t)) }
{
    let inner = Box::new(alloc, question)?;
    Ok(Question::Not(inner))
}

/// Holds where all of these questions do: everywhere, if there are none.
pub(crate) fn all(list: Vec<Question>) -> Question
    ensures { (ts : Askeds) → AskEach list ts → Asks result (all_of ts) }
{
    Question::All(list)
}

/// Holds where one of these questions does at least: nowhere, if there are none.
pub(crate) fn any(list: Vec<Question>) -> Question
    ensures { (ts : Askeds) → AskEach list ts → Asks result (any_of ts) }
{
    Question::Any(list)
}

/// Holds where both questions do. The error is a refused growth.
fn both(alloc: Global, first: Question, second: Question) -> Result<Question, AllocError>
    ensures { (t u : Asked) → Asks first t → Asks second u
        → IfOk result (λ q. Asks q (Both t u)) }
{
    let mut list = Vec::new(alloc);
    list.push(first)?;
    list.push(second)?;
    Ok(all(list))
}

/// Holds where one of the two questions does, or both do. The error is a refused growth.
fn either(alloc: Global, first: Question, second: Question) -> Result<Question, AllocError>
    ensures { (t u : Asked) → Asks first t → Asks second u
        → IfOk result (λ q. Asks q (Either t u)) }
{
    let mut list = Vec::new(alloc);
    list.push(first)?;
    list.push(second)?;
    Ok(any(list))
}

/// None of several.
pub(crate) fn none(alloc: Global, list: Vec<Question>) -> Result<Question, AllocError>
    ensures { (ts : Askeds) → AskEach list ts → IfOk result (λ q. Asks q (no (any_of ts))) }
{
    not(alloc, any(list))
}

/// All of several, if there are any.
pub(crate) fn every(list: Vec<Question>) -> Question
    ensures { (ts : Askeds) → AskEach list ts → Asks result (every_of ts) }
{
    if list.is_empty() {
        any(list)
    } else {
        all(list)
    }
}

/// The value itself, at no path, lies so to this one.
fn compared(comparison: Comparison, value: RawBson) -> Question
    ensures { (v : Value) → Spells value v → Asks result (Lies comparison v) }
{
    Question::Compare(comparison, value)
}

/// The value at a path lies so to this one.
pub(crate) fn lies(
    alloc: Global,
    path: &[&str],
    comparison: Comparison,
    value: RawBson,
) -> Result<Question, AllocError>
    ensures { (v : Value) → Spells value v
        → IfOk result (λ q. Asks q (Within (map (λ x. x.now) path.now) (Lies comparison v))) }
{
    at(alloc, path, compared(comparison, value))
}

/// There is something at a path, or there is nothing.
pub(crate) fn there(alloc: Global, path: &[&str], wanted: bool) -> Result<Question, AllocError>
    ensures { IfOk result (λ q. Asks q (there_at (map (λ x. x.now) path.now) wanted)) }
{
    let something = at(alloc, path, Question::Exists)?;
    if wanted {
        Ok(something)
    } else {
        not(alloc, something)
    }
}

/// The value itself, at no path, is of this kind.
fn of(kind: ElementType) -> Question
    ensures { Asks result (is_of kind) }
{
    Question::Kind(kind)
}

/// The value at a path is of a kind.
pub(crate) fn has_kind(
    alloc: Global,
    path: &[&str],
    kind: ElementType,
) -> Result<Question, AllocError>
    ensures { IfOk result (λ q. Asks q (Within (map (λ x. x.now) path.now) (is_of kind))) }
{
    at(alloc, path, of(kind))
}

/// The value at a path is a number.
pub(crate) fn is_a_number(alloc: Global, path: &[&str]) -> Result<Question, AllocError>
    ensures { IfOk result (λ q. Asks q (number_at (map (λ x. x.now) path.now))) }
{
    let mut kinds = Vec::new(alloc);
    kinds.push(has_kind(alloc, path, ElementType::Double)?)?;
    kinds.push(has_kind(alloc, path, ElementType::Int32)?)?;
    kinds.push(has_kind(alloc, path, ElementType::Int64)?)?;
    kinds.push(has_kind(alloc, path, ElementType::Decimal128)?)?;
    Ok(any(kinds))
}

/// The value itself, at no path, is an array of so many items.
fn size(size: u64) -> Question
    ensures { Asks result (has_size size) }
{
    Question::Size(size)
}

/// The value at a path is an array of so many items.
pub(crate) fn sized(alloc: Global, path: &[&str], count: u64) -> Result<Question, AllocError>
    ensures { IfOk result (λ q. Asks q (Whole (map (λ x. x.now) path.now) (has_size count))) }
{
    whole(alloc, path, size(count))
}

/// The value itself, at no path, is a number that leaves this remainder.
fn remainder(divisor: i64, remainder: i64) -> Question
    ensures { Asks result (Leaves divisor remainder) }
{
    Question::Remainder(divisor, remainder)
}

/// The value at a path is a number that leaves this remainder.
pub(crate) fn leaves(
    alloc: Global,
    path: &[&str],
    divisor: i64,
    rest: i64,
) -> Result<Question, AllocError>
    ensures { IfOk result (λ q. Asks q (Within (map (λ x. x.now) path.now) (Leaves divisor rest))) }
{
    at(alloc, path, remainder(divisor, rest))
}

/// The value itself, at no path, is a text that begins with these bytes.
pub(crate) fn beginning(bytes: Vec<u8>) -> Question
    ensures { Asks result (Begins bytes.items) }
{
    Question::Begins(bytes)
}

/// The value itself, at no path, is a text in which a pattern finds something.
pub(crate) fn searched(alloc: Global, pattern: Regex) -> Result<Question, AllocError>
    ensures { (options source : List ℕ) → IsReadFrom options source (regex_pattern pattern)
        → IfOk result (λ q. Asks q (Matches options source)) }
{
    let inner = Box::new(alloc, pattern)?;
    Ok(Question::Matches(inner))
}

/// The value at a path is an array, and one of its items answers.
pub(crate) fn item(alloc: Global, path: &[&str], question: Question) -> Result<Question, AllocError>
    ensures { (t : Asked) → Asks question t
        → IfOk result (λ q. Asks q (Whole (map (λ x. x.now) path.now) (has_item t))) }
{
    let inner = Box::new(alloc, question)?;
    whole(alloc, path, Question::Item(inner))
}

/// A document or an array that answers a query.
pub(crate) fn holds(alloc: Global, list: Vec<Question>) -> Result<Question, AllocError>
    ensures { (ts : Askeds) → AskEach list ts → IfOk result (λ q. Asks q (holds_in ts)) }
{
    let kinds = either(
        alloc,
        of(ElementType::EmbeddedDocument),
        of(ElementType::Array),
    )?;
    both(alloc, kinds, all(list))
}

/// What is no double lies so to a numeral that is no decimal: to the double that is nearest, but isn't equal to it.
fn beyond(alloc: Global, comparison: Comparison, double: DoubleBits) -> Question
    ensures { Asks result (others_lie comparison double.0 None) }
{
    match comparison {
        Comparison::Equal => any(Vec::new(alloc)),
        _ => compared(comparison, RawBson::Double(double)),
    }
}

/// What is no double lies so to a numeral, which is this decimal, if it is one.
fn others(
    alloc: Global,
    comparison: Comparison,
    double: DoubleBits,
    decimal: Option<Decimal128>,
) -> Question
    ensures { Asks result (others_lie comparison double.0 (option_map decimal_bytes decimal)) }
{
    match decimal {
        Some(exact) => compared(comparison, RawBson::Decimal128(exact)),
        None => beyond(alloc, comparison, double),
    }
}

/// The value at a path lies so to a numeral, to which this double is nearest, and which is this decimal, if it is one.
pub(crate) fn near(
    alloc: Global,
    path: &[&str],
    comparison: Comparison,
    double: DoubleBits,
    decimal: Option<Decimal128>,
) -> Result<Question, AllocError>
    ensures { IfOk result (λ q. Asks q (Within (map (λ x. x.now) path.now)
        (lies_near comparison double.0 (option_map decimal_bytes decimal)))) }
{
    let nearest = compared(comparison, RawBson::Double(double));
    let doubles = both(alloc, of(ElementType::Double), nearest)?;
    let no_double = not(alloc, of(ElementType::Double))?;
    let rest = both(alloc, no_double, others(alloc, comparison, double, decimal))?;
    let question = either(alloc, doubles, rest)?;
    at(alloc, path, question)
}
