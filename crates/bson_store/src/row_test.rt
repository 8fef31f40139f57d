//! Which rows a store can have written.

use std::alloc::{AllocError, Global};
use store_documents::{RowKey, is_store_row, key_of_row};
use store_table::RowCheck;

/// The test that `Store::open` makes of each row, besides what the table itself asks.
#[derive(Drop)]
pub struct RowTest {
    pub alloc: Global,
}

impl RowCheck for RowTest {
    ghost use Rattle.bson_store.specs.Opening.{IsRowUnder};

    ghost renews = { λ _ coll idkey body now. IsRowUnder coll idkey body now };

    fn passes(&self, coll: &[u8], idkey: &[u8], body: &[u8]) -> Result<bool, AllocError> {
        is_store_row(self.alloc, coll, idkey, body)
    }

    fn renewed(
        &self,
        coll: &[u8],
        idkey: &[u8],
        body: &[u8],
    ) -> Result<Option<Vec<u8>>, AllocError> {
        match key_of_row(self.alloc, coll, idkey, body)? {
            RowKey::Own => Ok(Some(Vec::from_slice(self.alloc, idkey)?)),
            RowKey::Before(now) => Ok(Some(now)),
            RowKey::Neither => Ok(None),
        }
    }
}
