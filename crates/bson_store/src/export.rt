//! The written documents of a collection, one after the other.

ghost use Rattle.std.specs.Prelude.{◌≡◌, ◌∷◌, ◌++◌, [], false, OnOk};
ghost use Rattle.bson_base.specs.Device.{CanRefuse};
ghost use Rattle.bson_store.specs.Export.{bytes_of_each};

use bson_base::write_all;
use bson_model::Sink;
use std::alloc::{AllocError, Global};
use store_table::Visit;

/// Puts a copy of a body last.
pub(crate) fn push_copy(
    bodies: &mut Vec<Vec<u8>>,
    alloc: Global,
    body: &[u8],
) -> Result<(), AllocError>
    ensures { OnOk result (bytes_of_each bodies.new.items ≡ bytes_of_each bodies.old.items
        ++ body.now ∷ []) }
{
    let copy = Vec::from_slice(alloc, body)?;
    bodies.push(copy)?;
    Ok(())
}

/// Writes the bodies that the table hands out, until a write fails.
#[derive(Drop)]
pub struct ExportVisitor<'w, W: Sink> {
    pub writer: &'w mut W,
    pub failed: bool,
    ghost ready: { failed ≡ false → CanRefuse (W.tally writer.now) },
}

impl<'w, W: Sink> Visit for ExportVisitor<'w, W> {
    ghost use Rattle.std.specs.Prelude.{◌≡◌, true};
    ghost use Rattle.bson_store.specs.Export.{Sent};

    ghost took = { λ first v bodies. (first.writer.ghost_name ≡ v.writer.ghost_name) × Sent (W.tally first.writer.now)
        (W.tally v.writer.now) v.failed bodies };

    ghost is_done = { λ v. v.failed ≡ true };

    fn visit(&mut self, body: &[u8]) -> bool {
        if self.failed {
            return false;
        }
        self.failed = true;
        match write_all(self.writer, body) {
            Ok(()) => {
                self.failed = false;
                true
            }
            Err(_) => false,
        }
    }
}
