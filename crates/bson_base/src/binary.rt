//! Bytes with a subtype.

ghost use Rattle.std.specs.Prelude.{◌≡◌, IfOk};
ghost use Rattle.bson_base.specs.Scalars.{uuid_bytes};
ghost use Rattle.bson_base.specs.Uuids.{uuid_subtype, uuid_form};

mod text;
mod vector;

use crate::spec::BinarySubtype;
use crate::uuid;
use crate::uuid::{Uuid, UuidRepresentation};
use std::alloc::{AllocError, Global};
use thiserror::Error;
pub use vector::{PackedBitVector, Vector};

/// Why bytes were refused.
#[derive(Clone, Copy, Debug, PartialEq, Eq, Error)]
pub enum Error {
    /// The text is not Base64.
    #[error("the text is not Base64")]
    DecodingError,
    /// The bytes are not those of a vector.
    #[error("the bytes are not those of a vector")]
    Vector,
    /// A growth of memory was refused.
    #[error("out of memory")]
    Memory,
}

impl From<AllocError> for Error {
    ghost use Rattle.bson_base.specs.declared.binary.Error.TheVariants.{Memory};

    ghost from_gives = { λ _ e. e ≡ Memory };

    fn from(_error: AllocError) -> Error {
        Error::Memory
    }
}

/// What a call of this module returns.
pub type Result<T> = std::result::Result<T, Error>;

/// Bytes, and what they are (bsonspec.org 1.1, element type 05).
#[derive(Debug, PartialEq, Eq, Hash, Drop)]
pub struct Binary {
    /// What the bytes are.
    pub subtype: BinarySubtype,
    /// The bytes.
    pub bytes: Vec<u8>,
}

impl Binary {
    ghost use Rattle.bson_base.specs.Vectors.{vector_value};
    ghost use Rattle.bson_base.specs.VectorBytes.{vector_bytes};
    ghost use Rattle.bson_base.specs.UuidReading.{ReadsUuid};

    /// A UUID as subtype 04. The error is a refused growth.
    pub fn from_uuid(alloc: Global, uuid: Uuid) -> std::result::Result<Binary, AllocError>
        ensures subtype { IfOk result (λ b. b.subtype ≡ BinarySubtype.Uuid) }
        ensures bytes { IfOk result (λ b. b.bytes.items ≡ uuid_bytes uuid) }
    {
        Binary::from_uuid_with_representation(alloc, uuid, UuidRepresentation::Standard)
    }

    /// A UUID in a representation. The error is a refused growth.
    pub fn from_uuid_with_representation(
        alloc: Global,
        uuid: Uuid,
        representation: UuidRepresentation,
    ) -> std::result::Result<Binary, AllocError>
        ensures subtype { IfOk result (λ b. b.subtype ≡ uuid_subtype representation) }
        ensures bytes { IfOk result (λ b. b.bytes.items ≡ uuid_form representation (uuid_bytes uuid)) }
    {
        let bytes = Vec::from_slice(alloc, &representation.reordered(uuid.bytes()))?;
        Ok(Binary {
            subtype: representation.subtype(),
            bytes,
        })
    }

    /// The UUID of a value of subtype 04. `RepresentationMismatch` reports another subtype, `InvalidLength` another
    /// number of bytes than 16.
    pub fn to_uuid(&self) -> uuid::Result<Uuid>
        ensures { ReadsUuid UuidRepresentation.Standard self.now result }
    {
        self.to_uuid_with_representation(UuidRepresentation::Standard)
    }

    /// The UUID of a value in a representation. `RepresentationMismatch` reports another subtype than that of the
    /// representation, `InvalidLength` another number of bytes than 16.
    pub fn to_uuid_with_representation(
        &self,
        representation: UuidRepresentation,
    ) -> uuid::Result<Uuid>
        ensures { ReadsUuid representation self.now result }
    {
        if self.subtype != representation.subtype() {
            return Err(uuid::Error::RepresentationMismatch {
                expected_binary_subtype: representation.subtype(),
                actual_binary_subtype: self.subtype,
                requested_representation: representation,
            });
        }
        match <[u8; 16]>::try_from(self.bytes.as_slice()) {
            Ok(bytes) => Ok(Uuid::from_bytes(representation.reordered(bytes))),
            Err(_) => Err(uuid::Error::InvalidLength {
                length: self.bytes.len(),
            }),
        }
    }

    /// A vector as subtype 09. The error is a refused growth.
    pub fn from_vector(alloc: Global, vector: &Vector) -> std::result::Result<Binary, AllocError>
        ensures subtype { IfOk result (λ b. b.subtype ≡ BinarySubtype.Vector) }
        ensures bytes { IfOk result (λ b. b.bytes.items ≡ vector_bytes (vector_value vector.now)) }
    {
        let bytes = vector.to_bytes(alloc)?;
        Ok(Binary {
            subtype: BinarySubtype::Vector,
            bytes,
        })
    }

    /// A copy with memory of its own. The error is a refused growth.
    pub fn try_clone(&self, alloc: Global) -> std::result::Result<Binary, AllocError>
        ensures subtype { IfOk result (λ b. b.subtype ≡ self.now.subtype) }
        ensures bytes { IfOk result (λ b. b.bytes.items ≡ self.now.bytes.items) }
    {
        let bytes = Vec::from_slice(alloc, &self.bytes)?;
        Ok(Binary {
            subtype: self.subtype,
            bytes,
        })
    }
}
