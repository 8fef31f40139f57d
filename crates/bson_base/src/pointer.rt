//! Pointers to documents of other collections.

ghost use Rattle.std.specs.Prelude.{◌≡◌, IfOk, string_bytes};

use crate::oid::ObjectId;
use std::alloc::{AllocError, Global};

/// A name of a collection and an object id (bsonspec.org 1.1, element type 0C, deprecated there).
#[derive(Debug, PartialEq, Eq, Hash, Drop)]
pub struct DbPointer {
    /// The name of the collection.
    pub namespace: String,
    /// The `_id` of the document.
    pub id: ObjectId,
}

impl DbPointer {
    /// A pointer to the document with an `_id` in a collection.
    pub fn new(namespace: String, id: ObjectId) -> DbPointer
        ensures namespace { result.namespace ≡ namespace }
        ensures id { result.id ≡ id }
    {
        DbPointer { namespace, id }
    }

    /// A copy with memory of its own. The error is a refused growth.
    pub fn try_clone(&self, alloc: Global) -> Result<DbPointer, AllocError>
        ensures namespace { IfOk result (λ p. string_bytes p.namespace ≡ string_bytes self.now.namespace) }
        ensures id { IfOk result (λ p. p.id ≡ self.now.id) }
    {
        let namespace = String::from_str(alloc, &self.namespace)?;
        Ok(DbPointer {
            namespace,
            id: self.id,
        })
    }
}
