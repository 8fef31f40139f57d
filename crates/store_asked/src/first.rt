//! The first documents in an order.

use crate::refusing::check_row;
use crate::selecting::TakeRow;
use bson_raw::RawDocument;
use bson_store::{StoreError, Take};
use std::alloc::{AllocError, Global};
use store_pipeline::sorted::TopN;
use store_table::pages::RowRef;

/// Keeps the first of the documents in the order of keys, and no more of them than are wanted.
#[derive(Drop)]
pub struct First<'a> {
    pub top: TopN<'a>,
    /// The keys of the rows of those that are held, in their order, if rows come.
    pub keys: Vec<Vec<u8>>,
}

/// Puts the key of a row at a place among those of rows of which `held` are held now.
fn put_key(
    keys: &mut Vec<Vec<u8>>,
    place: usize,
    held: usize,
    key: Vec<u8>,
) -> Result<(), AllocError> {
    keys.truncate(held.saturating_sub(1));
    let place = place.min(keys.len());
    keys.insert(place, key)?;
    Ok(())
}

impl<'a> Take for First<'a> {
    ghost use Rattle.store_asked.specs.Keeps.{TookFirst};

    ghost took = { λ first t out. TookFirst first.top t.top out };

    fn take(&mut self, document: RawDocument<'_>) -> Result<(), StoreError> {
        self.top.take(document)?;
        Ok(())
    }

    fn is_done(&self) -> bool {
        self.top.is_done()
    }
}

impl<'a> TakeRow for First<'a> {
    fn take_row(
        &mut self,
        alloc: Global,
        row: &RowRef<'_>,
        document: RawDocument<'_>,
    ) -> Result<(), StoreError> {
        if let Some(place) = self.top.take(document)? {
            let key = Vec::from_slice(alloc, row.idkey)?;
            put_key(&mut self.keys, place, self.top.bodies().len(), key)?;
        }
        Ok(())
    }
}

impl<'a> First<'a> {
    ghost use Rattle.std.specs.Prelude.{IfErr};
    ghost use Rattle.bson_store.specs.Refusals.{IsDenied};

    /// Tests the rows of those that are held, which are of the collection `name`: refused by Database, if no store can
    /// have written one of them.
    pub fn check_rows(&self, alloc: Global, name: &str) -> Result<(), StoreError>
        ensures { IfErr result IsDenied }
    {
        let bodies = self.top.bodies();
        for (place, key) in self.keys.iter().enumerate() {
            if let Some(body) = bodies.get(place) {
                check_row(alloc, name.as_bytes(), key.as_slice(), body.as_slice())?;
            }
        }
        Ok(())
    }
}
