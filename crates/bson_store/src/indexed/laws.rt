//! Laws of the parts. Each function below does nothing, and its contract is the law.

ghost use Rattle.std.specs.Int.{w64};
ghost use Rattle.std.specs.Prelude.{◌≡◌, ◌≤ℤ◌, FitsSigned, IsTrue};
ghost use Rattle.std.specs.Ordering.{is_ge, is_le};
ghost use Rattle.bson_base.specs.Value.{Value, value_kind};
ghost use Rattle.bson_order.specs.Order.{order, rank};
ghost use Rattle.bson_store.specs.Parts.{part};

/// Of two values of one rank, one that isn't greater has no greater part.
pub fn rises()
    ensures { (v w : Value) → rank (value_kind v) ≡ rank (value_kind w)
        → IsTrue (is_le (order v w)) → part v ≤ℤ part w }
{}

/// Of two values of one rank, one that isn't less has no smaller part.
pub fn falls()
    ensures { (v w : Value) → rank (value_kind v) ≡ rank (value_kind w)
        → IsTrue (is_ge (order v w)) → part w ≤ℤ part v }
{}

/// 64 bits have room for each part.
pub fn fits()
    ensures { (v : Value) → FitsSigned w64 (part v) }
{}
