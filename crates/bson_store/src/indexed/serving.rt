//! Which documents a question can select, by an index.

ghost use Rattle.std.specs.Prelude.{◌≡◌, ◌⊎◌, ◌≤ℤ◌, ℤ, IfOk, IfSome, IsTrue};
ghost use Rattle.std.specs.Prelude.{map};
ghost use Rattle.bson_model.specs.View.{view};
ghost use Rattle.store_question.specs.Filters.{filter_of, path_of, tests_of};
ghost use Rattle.store_model.specs.Filter.{all_of, any_of, equals, is_of};
ghost use Rattle.bson_store.specs.Lists.{Ascends, is_among};
ghost use Rattle.bson_store.specs.Fronts.{LiesIn, LiesInAll};
ghost use Rattle.bson_store.specs.Ranked.{HasRanked};
ghost use Rattle.bson_store.specs.Serving.{IsSelected, IsServed};

use crate::indexed::index::Index;
use crate::indexed::keys::{is_beginning, is_same_path, key_of_value};
use crate::indexed::marks::is_wide_kind;
use crate::indexed::range::Range;
use crate::indexed::rising::once_each;
use bson_base::ElementType;
use bson_model::Bson;
use std::alloc::{AllocError, Global};
use store_question::Filter;

/// The places of the documents that have a value with this meaning at the path. None: the value has no key.
fn places_of_value(
    alloc: Global,
    index: &Index,
    value: &Bson,
) -> Result<Option<Vec<i64>>, AllocError>
    ensures { IfOk result (IsServed index.now
        (IsSelected (equals (path_of index.now.path.items) (view value.now)))) }
{
    let Some(key) = key_of_value(alloc, value)? else {
        return Ok(None);
    };
    let mut places = Vec::new(alloc);
    index.places.add_to(key.as_slice(), &mut places)?;
    Ok(Some(places))
}

/// The places of the documents that are wide, if each that has a value of this kind at the path is one of these.
fn places_of_kind(
    alloc: Global,
    index: &Index,
    path: &[String],
    kind: ElementType,
) -> Result<Option<Vec<i64>>, AllocError>
    ensures { IfOk result (IsServed index.now (IsSelected (is_of (path_of path.now) kind))) }
{
    if !is_wide_kind(kind) || !is_beginning(path, index.path.as_slice()) {
        return Ok(None);
    }
    Ok(Some(Vec::from_slice(alloc, index.wide.as_slice())?))
}

/// The places, ascending, of all documents that a filter selects, and maybe of more. None: the index doesn't serve it.
#[cycle(gathering)]
pub(crate) fn places_by(
    alloc: Global,
    index: &Index,
    filter: &Filter,
) -> Result<Option<Vec<i64>>, AllocError>
    ensures { IfOk result (IsServed index.now (IsSelected (filter_of filter.now))) }
{
    match filter {
        Filter::Eq(at, value) => {
            if !is_same_path(at.as_slice(), index.path.as_slice()) {
                return Ok(None);
            }
            places_of_value(alloc, index, value)
        }
        Filter::Kind(at, kind) => places_of_kind(alloc, index, at.as_slice(), *kind),
        Filter::And(filters) => places_of_least(alloc, index, filters.as_slice()),
        Filter::Or(filters) => places_of_each(alloc, index, filters.as_slice()),
        _ => Ok(None),
    }
}

/// The same of a filter that selects what all of these select: the fewest that the index has for one of them.
#[cycle(gathering)]
fn places_of_least(
    alloc: Global,
    index: &Index,
    filters: &[Filter],
) -> Result<Option<Vec<i64>>, AllocError>
    ensures { IfOk result (IsServed index.now
        (IsSelected (all_of (tests_of (map filter_of filters.now))))) }
{
    let mut least = None;
    for filter in filters {
        let places = places_by(alloc, index, filter)?;
        least = fewer(least, places);
    }
    Ok(least)
}

/// The same of a filter that selects what one of these selects, if the index serves them all.
#[cycle(gathering)]
fn places_of_each(
    alloc: Global,
    index: &Index,
    filters: &[Filter],
) -> Result<Option<Vec<i64>>, AllocError>
    ensures { IfOk result (IsServed index.now
        (IsSelected (any_of (tests_of (map filter_of filters.now))))) }
{
    let mut all = Vec::new(alloc);
    for filter in filters {
        let Some(places) = places_by(alloc, index, filter)? else {
            return Ok(None);
        };
        all.extend_from_slice(places.as_slice())?;
    }
    in_order(alloc, all)
}

/// The places, ascending, once each.
fn in_order(alloc: Global, mut places: Vec<i64>) -> Result<Option<Vec<i64>>, AllocError>
    ensures ascending { IfOk result (λ o. IfSome o (λ v. Ascends v.items)) }
    ensures all { (p : ℤ) → IsTrue (is_among p places.items)
        → IfOk result (λ o. IfSome o (λ v. IsTrue (is_among p v.items))) }
{
    places.sort()?;
    once_each(alloc, places.as_slice())
}

/// The one with fewer places.
pub(crate) fn fewer(a: Option<Vec<i64>>, b: Option<Vec<i64>>) -> Option<Vec<i64>>
    ensures { (result ≡ a) ⊎ (result ≡ b) }
{
    match (a, b) {
        (None, b) => b,
        (a, None) => a,
        (Some(a), Some(b)) => { if b.len() < a.len() { Some(b) } else { Some(a) } }
    }
}

/// The places of the documents whose value at the path of an index is between the ends of a range, if these aren't the
/// wrong way round. None: there are more than `most`.
fn places_between(
    alloc: Global,
    index: &Index,
    range: &Range,
    most: usize,
) -> Result<Option<Vec<i64>>, AllocError>
    ensures { (q p : ℤ) → range.now.low ≤ℤ q → q ≤ℤ range.now.high
        → HasRanked index.now.ranks range.now.rank q p
        → IfOk result (λ o. IfSome o (λ v. IsTrue (is_among p v.items))) }
{
    if range.high < range.low {
        return Ok(Some(Vec::new(alloc)));
    }
    index
        .ranks
        .between(alloc, range.rank, range.low, range.high, most)
}

/// The places, ascending, of all documents that lie in a range, and maybe of more. None: it is of another path, or has
/// more than `most` beside those of wide documents.
fn places_of_range(
    alloc: Global,
    index: &Index,
    range: &Range,
    most: usize,
) -> Result<Option<Vec<i64>>, AllocError>
    ensures { IfOk result (IsServed index.now (LiesIn range.now)) }
{
    if !is_same_path(range.path.as_slice(), index.path.as_slice()) {
        return Ok(None);
    }
    let Some(places) = places_between(alloc, index, range, most)? else {
        return Ok(None);
    };
    let mut all = Vec::from_slice(alloc, index.wide.as_slice())?;
    all.extend_from_slice(places.as_slice())?;
    in_order(alloc, all)
}

/// The places, ascending, of all documents that lie in each of these ranges, and maybe of more: the fewest that the
/// index has for one of them. None: it serves none of these, or each has more than `most`.
pub(crate) fn places_of_ranges(
    alloc: Global,
    index: &Index,
    ranges: &[Range],
    most: usize,
) -> Result<Option<Vec<i64>>, AllocError>
    ensures { IfOk result (IsServed index.now (LiesInAll ranges.now)) }
{
    let mut least = None;
    for range in ranges {
        let places = places_of_range(alloc, index, range, most)?;
        least = fewer(least, places);
    }
    Ok(least)
}
