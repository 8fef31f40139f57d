//! Laws of values that are told once. Each function below does nothing, and its contract is the law.

ghost use Rattle.std.specs.Prelude.{◌≡◌, List};
ghost use Rattle.bson_base.specs.Value.{Value};
ghost use Rattle.bson_order.specs.Order.{order};
ghost use Rattle.store_pipeline.specs.Once.{IsEachOnce};

/// Of every list of values there is one list with each of them once and in order, and no second.
pub fn each_once()
    ensures some { (xs : List Value) → (ys : List Value) × IsEachOnce order xs ys }
    ensures one { (xs ys zs : List Value) → IsEachOnce order xs ys → IsEachOnce order xs zs → ys ≡ zs }
{}
