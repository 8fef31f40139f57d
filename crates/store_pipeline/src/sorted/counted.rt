//! Values that are counted.

ghost use Rattle.std.specs.Prelude.{◌≡◌, ◌∷◌, [], ◌++◌, List, OnOk, length};
ghost use Rattle.std.specs.List.Sorted.{IsBinarySearchResult, IsSearchInRange};
ghost use Rattle.bson_base.specs.Value.{Members, Value};
ghost use Rattle.bson_model.specs.View.{view};
ghost use Rattle.bson_order.specs.Order.{order};
ghost use Rattle.store_pipeline.specs.Counted.{CountsOnce, IsCounting, value_in};
ghost use Rattle.store_model.specs.Filter.{Path};

use bson_model::Bson;
use bson_order::compare_trees;
use std::alloc::{AllocError, Global};
use std::cmp::Ordering;

/// A value, and how many documents have it.
#[derive(Debug, Drop)]
pub struct Counted {
    pub value: Bson,
    pub documents: u64,
    // The last of the documents that have it, by its number among all that were taken.
    pub(crate) last: u64,
}

/// How a counted value lies to another value.
fn compare_to(counted: &Counted, value: &Bson) -> Ordering
    ensures { result ≡ order (value_in counted.now) (view value.now) }
{
    compare_trees(&counted.value, value)
}

/// Where a value is among those that are counted, or where it belongs.
fn place_of(counted: &[Counted], value: &Bson) -> Result<usize, usize>
    ensures bound { IsSearchInRange result (length counted.now) }
    ensures place { IsBinarySearchResult (λ c. order (value_in c) (view value.now)) counted.now result }
{
    counted.binary_search_by(
        |other|
            ensures { result ≡ order (value_in other.now) (view value.entry.now) }
        { compare_to(other, value) },
    )
}

/// Counts the document with this number, once. The error is a count beyond 64 bits.
fn count_once(counted: &mut Counted, number: u64) -> Result<(), AllocError>
    ensures { OnOk result (CountsOnce number counted.old counted.new) }
{
    if counted.last == number {
        return Ok(());
    }
    // There are fewer documents than numbers.
    let Some(documents) = counted.documents.checked_add(1) else {
        return Err(AllocError);
    };
    counted.documents = documents;
    counted.last = number;
    Ok(())
}

/// Counts the document with this number for a value that it has. The first of equal values is kept. The error is a
/// refused growth.
pub(crate) fn count(
    alloc: Global,
    counted: &mut Vec<Counted>,
    value: &Bson,
    number: u64,
) -> Result<(), AllocError>
    ensures { (p : Path) (ds : List Members) (vs : List Value) → IsCounting p ds vs number counted.old.items
        → OnOk result (IsCounting p ds (vs ++ view value.now ∷ []) number counted.new.items) }
{
    match place_of(counted.as_slice(), value) {
        Ok(place) => count_once(&mut counted[place], number),
        Err(place) => {
            let value = value.try_clone(alloc)?;
            counted.insert(
                place,
                Counted {
                    value,
                    documents: 1,
                    last: number,
                },
            )?;
            Ok(())
        }
    }
}
