//! Laws of sorted lists. Each function below does nothing, and its contract is the law.

ghost use Rattle.std.specs.Prelude.{◌≡◌, ◌+◌, List, ℕ, Some as Just, take};
ghost use Rattle.std.specs.Cmp.{IsTotalOrder};
ghost use Rattle.bson_base.specs.Value.{Members};
ghost use Rattle.store_pipeline.specs.Order.{cut, Key, order_by, Sorts};

/// Documents are in a total order by keys.
pub fn total()
    ensures { (ks : List Key) → IsTotalOrder (order_by ks) }
{}

/// Every list is another one in the order of keys, and there is one such list alone.
pub fn one_list()
    ensures some { (ks : List Key) (ds : List Members) → (es : List Members) × Sorts ks ds es }
    ensures one { (ks : List Key) (ds es fs : List Members) → Sorts ks ds es → Sorts ks ds fs → es ≡ fs }
{}

/// A part with a limit is in the first documents, as many as are skipped and taken.
pub fn part_of_first()
    ensures { (skip limit : ℕ) (ds : List Members) → cut skip (Just limit) (take (skip + limit) ds) ≡ cut skip (Just limit) ds }
{}
