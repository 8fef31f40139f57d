//! Questions as ranges.

ghost use Rattle.std.specs.Prelude.{◌≡◌, ◌∷◌, [], map, IfOk, OnOk, Some};
ghost use Rattle.bson_base.specs.Value.{Members, document as tree};
ghost use Rattle.store_question.specs.Filters.{path_of};
ghost use Rattle.store_question.specs.Asked.{Answers, AnswersAll, Asked, Askeds, at as Within, whole as WholeAt};
ghost use Rattle.store_question.specs.Reads.{ReadEach, Reads, form_of, forms_of};
ghost use Rattle.bson_store.specs.Fronts.{LiesInAll};
ghost use Rattle.store_asked.specs.Spans.{LiesAt, span_of as span_in};

use crate::equal::copied;
use crate::span::Span;
use crate::spans::{narrowed, span_of};
use bson_store::indexed::{Range, is_same_path};
use std::alloc::{AllocError, Global};
use store_question::Question;

/// Ranges in each of which each document lies that answers the question: of what is asked of a path by less, at most,
/// at least and greater than a number, a text or a date, one with both ends if both are asked. A document whose way
/// along the path meets an array or a decimal lies in every range of it, so an index has to know these. None is known
/// of other questions. The error is a refused growth.
pub fn ranges_of(alloc: Global, question: &Question) -> Result<Vec<Range>, AllocError>
    ensures { IfOk result (λ rs. (t : Asked) → Reads (form_of question.now) t → (d : Members)
        → Answers t (Some (tree d)) → LiesInAll rs.items d) }
{
    let mut ranges = Vec::new(alloc);
    add_ranges(alloc, &mut ranges, question)?;
    Ok(ranges)
}

/// Adds the ranges in which a document lies that answers the question.
#[cycle(ranges)]
fn add_ranges(alloc: Global, ranges: &mut Vec<Range>, question: &Question) -> Result<(), AllocError>
    ensures { OnOk result ((t : Asked) → Reads (form_of question.now) t → (d : Members)
        → Answers t (Some (tree d)) → LiesInAll ranges.old.items d → LiesInAll ranges.new.items d) }
{
    match question {
        Question::At(path, inner) => add_along(alloc, ranges, path.as_slice(), inner),
        Question::Whole(path, inner) => add_along(alloc, ranges, path.as_slice(), inner),
        Question::All(list) => add_each(alloc, ranges, list.as_slice()),
        _ => Ok(()),
    }
}

/// Adds those in which a document lies that answers all of these.
#[cycle(ranges)]
fn add_each(alloc: Global, ranges: &mut Vec<Range>, list: &[Question]) -> Result<(), AllocError>
    ensures { OnOk result ((ts : Askeds) → ReadEach (forms_of (map form_of list.now)) ts → (d : Members)
        → AnswersAll ts (Some (tree d)) → LiesInAll ranges.old.items d → LiesInAll ranges.new.items d) }
{
    for question in list {
        add_ranges(alloc, ranges, question)?;
    }
    Ok(())
}

/// Adds where a document lies in which what the path leads to answers.
fn add_along(
    alloc: Global,
    ranges: &mut Vec<Range>,
    path: &[String],
    inner: &Question,
) -> Result<(), AllocError>
    ensures opened { OnOk result ((t : Asked) → Reads (form_of inner.now) t → (d : Members)
        → Answers (Within (path_of path.now) t) (Some (tree d)) → LiesInAll ranges.old.items d → LiesInAll ranges.new.items d) }
    ensures taken_whole { OnOk result ((t : Asked) → Reads (form_of inner.now) t → (d : Members)
        → Answers (WholeAt (path_of path.now) t) (Some (tree d)) → LiesInAll ranges.old.items d → LiesInAll ranges.new.items d) }
{
    match span_of(inner) {
        Some(span) => add_span(alloc, ranges, path, span),
        None => Ok(()),
    }
}

/// Adds a span on a path: to the range that was added last, if that is one of the path.
fn add_span(
    alloc: Global,
    ranges: &mut Vec<Range>,
    path: &[String],
    span: Span,
) -> Result<(), AllocError>
    ensures { OnOk result ((d : Members) → LiesAt span (path_of path.now) d → LiesInAll ranges.old.items d
        → LiesInAll ranges.new.items d) }
{
    let last = ranges.pop();
    match last {
        Some(last) => {
            if is_same_path(last.path.as_slice(), path) {
                ranges.push(narrower(last, span))?;
            } else {
                ranges.push(last)?;
                ranges.push(spanned(alloc, path, span)?)?;
            }
        }
        None => ranges.push(spanned(alloc, path, span)?)?,
    }
    Ok(())
}

/// A span on a path.
fn spanned(alloc: Global, path: &[String], span: Span) -> Result<Range, AllocError>
    ensures path { IfOk result (λ r. path_of r.path.items ≡ path_of path.now) }
    ensures span { IfOk result (λ r. span_in r ≡ span) }
{
    let path = copied(alloc, path)?;
    Ok(Range {
        path,
        rank: span.rank,
        low: span.low,
        high: span.high,
    })
}

/// What lies in the range, and in the span at its path.
fn narrower(range: Range, span: Span) -> Range
    ensures { (d : Members) → LiesInAll (range ∷ []) d → LiesAt span (path_of range.path.items) d → LiesInAll (result ∷ []) d }
{
    let first = Span {
        rank: range.rank,
        low: range.low,
        high: range.high,
    };
    let both = narrowed(first, span);
    Range {
        path: range.path,
        rank: both.rank,
        low: both.low,
        high: both.high,
    }
}
