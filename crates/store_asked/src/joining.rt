//! The bodies of a collection, one after the other.

ghost use Rattle.std.specs.Prelude.{◌≡◌, ◌++◌, IfErr, OnOk};
ghost use Rattle.bson_store.specs.Refusals.{IsDenied};

use bson_raw::RawDocument;
use store_model::{ErrorKind, StoreError};
use store_table::Visit;

/// Puts a body last. One that isn't framed as a document is refused by Database.
fn join(bytes: &mut Vec<u8>, body: &[u8]) -> Result<(), StoreError>
    ensures added { OnOk result (bytes.new.items ≡ bytes.old.items ++ body.now) }
    ensures denied { IfErr result IsDenied }
{
    let Ok(_) = RawDocument::from_bytes(body) else {
        return Err(StoreError::from(ErrorKind::Database));
    };
    bytes.extend_from_slice(body)?;
    Ok(())
}

/// Puts bodies one after the other, until a refusal.
#[derive(Drop)]
pub(crate) struct Joined {
    pub bytes: Vec<u8>,
    pub fault: Option<StoreError>,
}

impl Visit for Joined {
    ghost use Rattle.std.specs.Prelude.{◌≡◌, ◌≢◌, ◌++◌, None, MatchOption, List, ℕ};
    ghost use Rattle.std.specs.List.{flat_map};
    ghost use Rattle.bson_store.specs.Refusals.{IsDenied};

    ghost took = { λ first v bodies. MatchOption v.fault
        (v.bytes.items ≡ first.bytes.items ++ flat_map (λ (b : List ℕ). b) bodies) IsDenied };

    ghost is_done = { λ v. v.fault ≢ None };

    fn visit(&mut self, body: &[u8]) -> bool {
        if self.fault.is_some() {
            return false;
        }
        match join(&mut self.bytes, body) {
            Ok(()) => true,
            Err(error) => {
                self.fault = Some(error);
                false
            }
        }
    }
}
