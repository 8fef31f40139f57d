//! The first documents in an order, by the end of a range at which it begins.

ghost use Rattle.std.specs.Prelude.{◌≡◌, [], IfOk, IfSome, IsTrue, if◌then◌else◌};
ghost use Rattle.bson_base.specs.Value.{Members};
ghost use Rattle.bson_store.specs.Calls.{KeepsIndexes, Relates, store_state};
ghost use Rattle.bson_store.specs.Fronts.{LiesIn, LiesInAll};
ghost use Rattle.store_asked.specs.Arranged.{AreArranged, IsLast};
ghost use Rattle.store_asked.specs.Keeps.{TookFirst};
ghost use Rattle.store_asked.specs.Near.{AreFirst, AskedNear, BeginsBy, Ends, IsInside, MayTell, value_by};
ghost use Rattle.store_asked.specs.declared.first.First.{First as FirstOf};
ghost use Rattle.store_pipeline.specs.Bodies.{OfBody};
ghost use Rattle.store_question.specs.Filters.{path_of};
ghost use Rattle.store_question.specs.Reads.{form_of};
ghost use Rattle.store_table.specs.Crash.{AddsNothing};
ghost use Rattle.store_table.specs.Moves.{WasOpen};

use crate::answering::Answering;
use crate::equal::copied;
use crate::first::First;
use crate::front::ranges_in_front;
use crate::gathering::last_of;
use bson_order::rank_of;
use bson_raw::RawDocument;
use bson_store::indexed::{Front, Range, is_same_path, part_of};
use bson_store::{Store, StoreError, select_all};
use sqlite::Alter;
use std::alloc::{AllocError, Global};
use std::slice;
use store_pipeline::sorted::{Arrangement, SortKey, TopN, into_window, sort_value};
use store_question::Question;

/// The range on a path among those in front of a question.
fn range_on<'r>(ranges: &'r [Range], path: &[String]) -> Option<&'r Range>
    ensures among { IfSome result (λ r. (d : Members) → LiesInAll ranges.now d → LiesIn r.now d) }
    ensures path { IfSome result (λ r. path_of r.now.path.items ≡ path_of path.now) }
{
    for range in ranges {
        if is_same_path(range.path.as_slice(), path) {
            return Some(range);
        }
    }
    None
}

/// What of a range lies from its low end to a part, or from the part to its high end, if the greatest come first. The
/// error is a refused growth.
fn end_of(alloc: Global, range: &Range, part: i64, descending: bool) -> Result<Range, AllocError>
    ensures path { IfOk result (λ r. path_of r.path.items ≡ path_of range.now.path.items) }
    ensures rank { IfOk result (λ r. r.rank ≡ range.now.rank) }
    ensures low { IfOk result (λ r. r.low ≡ (if descending then part else range.now.low)) }
    ensures high { IfOk result (λ r. r.high ≡ (if descending then range.now.high else part)) }
{
    let path = copied(alloc, range.path.as_slice())?;
    let (low, high) = if descending {
        (part, range.high)
    } else {
        (range.low, part)
    };
    Ok(Range {
        path,
        rank: range.rank,
        low,
        high,
    })
}

/// Whether the value by which the document of a body is sorted lies in a range.
fn is_inside(body: &[u8], key: &SortKey, range: &Range) -> bool
    ensures { OfBody body.now (λ d. IsTrue result → IsInside range.now (value_by key.now d)) }
{
    let Ok(document) = RawDocument::from_bytes(body) else {
        return false;
    };
    let value = sort_value(document, key.path.as_slice(), key.descending);
    if rank_of(value) != range.rank {
        return false;
    }
    let part = part_of(value);
    range.low <= part && part <= range.high
}

/// Whether so many bodies are held, of which the last one's document is sorted by a value that lies in a range.
fn are_first(bodies: &[Vec<u8>], wanted: usize, key: &SortKey, range: &Range) -> bool
    ensures { IsTrue result → AreFirst bodies.now wanted key.now range.now }
{
    if wanted == 0 || bodies.len() != wanted {
        return false;
    }
    is_inside(bodies[wanted - 1].as_slice(), key, range)
}

/// The first in an order of the documents that answer a question, of those that lie in a range, and maybe of others.
fn take_near<'a, S: Alter + Drop>(
    alloc: Global,
    store: &mut Store<S>,
    name: &str,
    question: &Question,
    first: First<'a>,
    range: &Range,
) -> Result<First<'a>, StoreError>
    requires { TookFirst first.top first.top [] }
    ensures moves { Relates S.Store store.old store.new (AskedNear
        (λ (f : FirstOf) ds. TookFirst first.entry.top f.top ds) name.now (form_of question.now) range.now result) }
    ensures open { WasOpen (store_state S.Store store.old)
        (store_state S.Store store.new) result }
    ensures indexes { KeepsIndexes store.old store.new }
    ensures crash { AddsNothing (store_state S.Store store.old) (store_state S.Store store.new) }
{
    let everything = select_all(alloc);
    let front = Front {
        filter: &everything,
        ranges: slice::from_ref(range),
    };
    let answering = Answering {
        alloc,
        question,
        taker: first,
    };
    let outcome = store.take_passing(name, &front, answering);
    drop(everything);
    let taken = outcome?;
    Ok(taken.taker)
}

/// How many documents near the end of a range are looked at for each that is wanted, as some may not answer.
const LOOKED_AT: usize = 2;

/// Where the first documents in the order of an arrangement are looked for.
#[derive(Drop)]
pub(crate) struct Near<'k> {
    /// By what is sorted first.
    key: &'k SortKey,
    /// How many documents are skipped and taken.
    wanted: usize,
    /// The range in which all lie that come before those outside of it.
    range: Range,
}

/// The part of a range of a question in which enough documents lie, by an index on the path by which is sorted first,
/// from the end at which the order begins: none, if there is no such range, no such index or no memory.
pub(crate) fn near_end<'k, S: Alter + Drop>(
    alloc: Global,
    store: &Store<S>,
    name: &str,
    question: &Question,
    arrangement: &'k Arrangement,
) -> Option<Near<'k>>
    ensures ends { IfSome result (λ n. Ends (form_of question.now) n.range n.key.now) }
    ensures key { IfSome result (λ n. BeginsBy arrangement.now n.key.now) }
    ensures wanted { IfSome result (λ n. IsLast arrangement.now n.wanted) }
{
    let wanted = last_of(arrangement)?;
    let key = arrangement.keys.first()?;
    let ranges = ranges_in_front(alloc, store, name, question);
    let range = range_on(ranges.as_slice(), key.path.as_slice())?;
    let part = store.part_behind(name, range, wanted.checked_mul(LOOKED_AT)?, key.descending)?;
    let Ok(range) = end_of(alloc, range, part, key.descending) else {
        return None;
    };
    Some(Near { key, wanted, range })
}

/// What an arrangement has of the documents that answer a question, if as many as are wanted lie in a range behind which
/// all others go; none, if they don't.
pub(crate) fn find_near<S: Alter + Drop>(
    alloc: Global,
    store: &mut Store<S>,
    name: &str,
    question: &Question,
    arrangement: &Arrangement,
    near: &Near<'_>,
) -> Result<Option<Vec<Vec<u8>>>, StoreError>
    requires ends { Ends (form_of question.now) near.now.range near.now.key.now }
    requires key { BeginsBy arrangement.now near.now.key.now }
    requires wanted { IsLast arrangement.now near.now.wanted }
    ensures moves { Relates S.Store store.old store.new
        (MayTell (AreArranged arrangement.now) name.now (form_of question.now) result) }
    ensures open { WasOpen (store_state S.Store store.old)
        (store_state S.Store store.new) result }
    ensures indexes { KeepsIndexes store.old store.new }
    ensures crash { AddsNothing (store_state S.Store store.old) (store_state S.Store store.new) }
{
    let first = First {
        top: TopN::new(alloc, arrangement.keys.as_slice(), near.wanted),
        keys: Vec::new(alloc),
    };
    let taken = take_near(alloc, store, name, question, first, &near.range)?;
    if !are_first(taken.top.bodies(), near.wanted, near.key, &near.range) {
        return Ok(None);
    }
    Ok(Some(into_window(taken.top.into_bodies(), arrangement.skip, arrangement.limit)))
}
