//! Rows that come again.

ghost use Rattle.std.specs.Prelude.{◌≡◌, [], IfOk};
ghost use Rattle.store_documents.specs.Keys.{first_taken, keys_of_rows};

use crate::keys::Keys;
use crate::write::KeptRow;
use std::alloc::{AllocError, Global};

/// The place of the first row whose key is that of a row before. The error is a refused growth.
pub fn first_repeated(alloc: Global, rows: &[KeptRow<'_>]) -> Result<Option<u64>, AllocError>
    ensures { IfOk result (λ place. place ≡ first_taken 0 [] (keys_of_rows rows.now)) }
{
    let mut met = Keys::new(alloc);
    for at in 0..rows.len() {
        let row = &rows[at];
        let is_new = met.meet(row.key.as_slice())?;
        if !is_new {
            return Ok(Some(at as u64));
        }
    }
    Ok(None)
}
