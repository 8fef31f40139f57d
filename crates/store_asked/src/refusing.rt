//! What can't be told from pages, as the store would refuse it.

ghost use Rattle.std.specs.Prelude.{◌≡◌, IfErr};
ghost use Rattle.store_model.specs.Refusal.{refusal};
ghost use Rattle.bson_store.specs.Refusals.{IsDenied, kind_of_fault};

use sqlite_pages::Error;
use std::alloc::Global;
use store_documents::is_store_row;
use store_model::{ErrorKind, StoreError};
use store_table::Fault;

/// The refusal of a call in which the pages have a fault.
pub(crate) fn refusal_of(fault: Fault) -> StoreError
    ensures { result ≡ refusal (kind_of_fault fault) }
{
    StoreError::from(match fault {
        Fault::Memory => ErrorKind::Memory,
        Fault::Database => ErrorKind::Database,
        Fault::Places => ErrorKind::Places,
    })
}

/// The refusal of a call in which going over pages ended in an error.
pub(crate) fn refusal_of_error(error: Error) -> StoreError
    ensures { IsDenied result }
{
    StoreError::from(match error {
        Error::OutOfMemory => ErrorKind::Memory,
        _ => ErrorKind::Database,
    })
}

/// Refuses a row that is to be handed out, which is of a collection, under a key, and has a body: by Database, if no store
/// can have written it; by Memory, if a growth was refused.
pub fn check_row(
    alloc: Global,
    collection: &[u8],
    key: &[u8],
    body: &[u8],
) -> Result<(), StoreError>
    ensures { IfErr result IsDenied }
{
    if is_store_row(alloc, collection, key, body)? {
        Ok(())
    } else {
        Err(StoreError::from(ErrorKind::Database))
    }
}
