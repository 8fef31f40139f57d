//! Laws on updates.

ghost use Rattle.std.specs.Prelude.{◌≡◌, Bool, List, Ok};
ghost use Rattle.bson_base.specs.Value.{Members, look_up};
ghost use Rattle.store_update.specs.Plan.{Plan};
ghost use Rattle.store_update.specs.Update.{id_key, updated};

/// No update changes the `_id`.
pub fn ids_stay()
    ensures { (inserts : Bool) (plans : List Plan) (ms d : Members) → updated inserts plans ms ≡ Ok d
        → look_up id_key d ≡ look_up id_key ms }
{}
