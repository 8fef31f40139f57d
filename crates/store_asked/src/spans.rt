//! Where on the line of values something has to lie to answer.

ghost use Rattle.std.specs.Int.{w64};
ghost use Rattle.std.specs.Prelude.{◌≡◌, ◌⊎◌, ◌≤ℤ◌, ℤ, map, FitsSigned, IfSome, IsSomeAnd, IsTrue, Option as Maybe, unwrap_or};
ghost use Rattle.bson_base.specs.Value.{Value, null, scalar};
ghost use Rattle.bson_raw.specs.Convert.{SpellsRawValue};
ghost use Rattle.bson_raw.specs.Raw.{ref_value};
ghost use Rattle.store_question.specs.Asked.{Answers, AnswersAll, AnswersAny, Asked, Askeds, lies_to};
ghost use Rattle.store_question.specs.Reads.{ReadEach, Reads, form_of, forms_of};
ghost use Rattle.store_asked.specs.Spans.{HasParts, InSpan, LiesBeside};

use crate::span::Span;
use bson_order::rank_of;
use bson_raw::RawBsonRef;
use bson_store::indexed::{laws, part_of};
use store_question::{Comparison, Question};

/// The ranks of numbers, texts and dates.
const NUMBERS: u8 = 3;

const TEXTS: u8 = 4;

const DATES: u8 = 10;

/// Whether the values of a rank are told apart by their parts.
fn has_parts(rank: u8) -> bool
    ensures { IsTrue result → HasParts rank }
{
    rank == NUMBERS || rank == TEXTS || rank == DATES
}

/// The values of a rank whose parts may lie so to this one. None if they have to be equal: an equality is served by
/// the value itself.
fn side(comparison: Comparison, rank: u8, part: i64) -> Option<Span>
    ensures same { IfSome result (λ s. s.rank ≡ rank) }
    ensures low { (z : ℤ) → FitsSigned w64 z → LiesBeside comparison z part → IfSome result (λ s. s.low ≤ℤ z) }
    ensures high { (z : ℤ) → FitsSigned w64 z → LiesBeside comparison z part → IfSome result (λ s. z ≤ℤ s.high) }
{
    let (low, high) = match comparison {
        Comparison::Less => (i64::MIN, part),
        Comparison::AtMost => (i64::MIN, part),
        Comparison::Equal => return None,
        Comparison::AtLeast => (part, i64::MAX),
        Comparison::Greater => (part, i64::MAX),
    };
    Some(Span { rank, low, high })
}

/// What lies so to the value.
fn compared(comparison: Comparison, value: RawBsonRef<'_>) -> Option<Span>
    ensures { IfSome result (λ s. (w : Value) → SpellsRawValue (ref_value value.entry) w → (o : Maybe Value)
        → IsTrue (lies_to comparison (unwrap_or o (scalar null)) w) → InSpan s o) }
{
    laws::rises();
    laws::falls();
    laws::fits();
    let rank = rank_of(value);
    if has_parts(rank) {
        side(comparison, rank, part_of(value))
    } else {
        None
    }
}

/// The greater one of two numbers.
fn greater(a: i64, b: i64) -> i64
    ensures least { (z : ℤ) → a ≤ℤ z → b ≤ℤ z → result ≤ℤ z }
    ensures first { (z : ℤ) → z ≤ℤ a → z ≤ℤ result }
    ensures second { (z : ℤ) → z ≤ℤ b → z ≤ℤ result }
{
    if a < b { b } else { a }
}

/// The lesser one.
fn lesser(a: i64, b: i64) -> i64
    ensures greatest { (z : ℤ) → z ≤ℤ a → z ≤ℤ b → z ≤ℤ result }
    ensures first { (z : ℤ) → a ≤ℤ z → result ≤ℤ z }
    ensures second { (z : ℤ) → b ≤ℤ z → result ≤ℤ z }
{
    if a < b { a } else { b }
}

/// What lies in both.
pub(crate) fn narrowed(a: Span, b: Span) -> Span
    ensures { (o : Maybe Value) → InSpan a o → InSpan b o → InSpan result o }
{
    Span {
        rank: a.rank,
        low: greater(a.low, b.low),
        high: lesser(a.high, b.high),
    }
}

/// What lies in both, as far as it is known of each.
fn both(a: Option<Span>, b: Option<Span>) -> Option<Span>
    ensures { (o : Maybe Value) → IfSome a (λ s. InSpan s o) → IfSome b (λ s. InSpan s o)
        → IfSome result (λ s. InSpan s o) }
{
    match (a, b) {
        (None, b) => b,
        (a, None) => a,
        (Some(a), Some(b)) => Some(narrowed(a, b)),
    }
}

/// A span that has all of both, if they are of one rank.
fn hull(a: Span, b: Span) -> Option<Span>
    ensures first { (o : Maybe Value) → InSpan a o → IfSome result (λ s. InSpan s o) }
    ensures second { (o : Maybe Value) → InSpan b o → IfSome result (λ s. InSpan s o) }
{
    if a.rank == b.rank {
        Some(Span {
            rank: a.rank,
            low: lesser(a.low, b.low),
            high: greater(a.high, b.high),
        })
    } else {
        None
    }
}

/// A span that has all of both, if they are of one rank or the first one isn't there.
fn joined(all: Option<Span>, span: Span) -> Option<Span>
    ensures first { (o : Maybe Value) → IsSomeAnd all (λ s. InSpan s o) → IfSome result (λ s. InSpan s o) }
    ensures second { (o : Maybe Value) → InSpan span o → IfSome result (λ s. InSpan s o) }
{
    match all {
        None => Some(span),
        Some(a) => hull(a, span),
    }
}

/// Where a value has to lie to answer, if that is known: on one side of a number, a text or a date, or between two.
#[cycle(spans)]
pub(crate) fn span_of(question: &Question) -> Option<Span>
    ensures { IfSome result (λ s. (t : Asked) → Reads (form_of question.now) t → (o : Maybe Value)
        → Answers t o → InSpan s o) }
{
    match question {
        Question::Compare(comparison, value) => compared(*comparison, value.as_raw_bson_ref()),
        Question::All(list) => narrowest(list.as_slice()),
        Question::Any(list) => widest(list.as_slice()),
        _ => None,
    }
}

/// Where it has to lie to answer all of these.
#[cycle(spans)]
fn narrowest(list: &[Question]) -> Option<Span>
    ensures { IfSome result (λ s. (ts : Askeds) → ReadEach (forms_of (map form_of list.now)) ts → (o : Maybe Value)
        → AnswersAll ts o → InSpan s o) }
{
    let mut least = None;
    for question in list {
        least = both(least, span_of(question));
    }
    least
}

/// Where it has to lie to answer one of these.
#[cycle(spans)]
fn widest(list: &[Question]) -> Option<Span>
    ensures { IfSome result (λ s. (ts : Askeds) → ReadEach (forms_of (map form_of list.now)) ts → (o : Maybe Value)
        → AnswersAny ts o → InSpan s o) }
{
    let mut all = None;
    for question in list {
        let wider = joined(all, span_of(question)?)?;
        all = Some(wider);
    }
    all
}
