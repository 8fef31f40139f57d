//! The refusals of the table, as the store reports them.

ghost use Rattle.std.specs.Prelude.{◌≡◌};
ghost use Rattle.bson_store.specs.Refusals.{kind_of_fault, kind_of_opening};
ghost use Rattle.store_model.specs.Refusal.{refusal};

use store_model::{ErrorKind, StoreError};
use store_table::{Fault, OpenError};

/// The refusal of a call in which the table has a fault.
pub(crate) fn fault_refusal(fault: Fault) -> StoreError
    ensures { result ≡ refusal (kind_of_fault fault) }
{
    StoreError::from(match fault {
        Fault::Memory => ErrorKind::Memory,
        Fault::Database => ErrorKind::Database,
        Fault::Places => ErrorKind::Places,
    })
}

/// The refusal of a store whose table can't be opened.
pub(crate) fn opening_refusal(error: OpenError) -> StoreError
    ensures { result ≡ refusal (kind_of_opening error) }
{
    StoreError::from(match error {
        OpenError::NotAStore => ErrorKind::NotAStore,
        OpenError::BadRow(place) => ErrorKind::BadRow(place),
        OpenError::IdsCollide(first, second) => ErrorKind::IdsCollide(first, second),
        OpenError::Memory => ErrorKind::Memory,
        OpenError::Database => ErrorKind::Database,
    })
}
