//! UUIDs, and the forms that they have in binary values.

ghost use Rattle.std.specs.Prelude.{◌≡◌};

mod text;

use crate::spec::BinarySubtype;
use thiserror::Error;

/// Why a UUID was refused.
#[derive(Clone, Copy, Debug, PartialEq, Error)]
pub enum Error {
    /// The text is not one of the four forms of a UUID.
    #[error("the text is not a UUID")]
    InvalidUuidString,
    /// The binary value has another subtype than the representation requires.
    #[error("the subtype is not that of the representation")]
    RepresentationMismatch {
        /// The subtype that the representation requires.
        expected_binary_subtype: BinarySubtype,
        /// The subtype that is there.
        actual_binary_subtype: BinarySubtype,
        /// The representation that was asked for.
        requested_representation: UuidRepresentation,
    },
    /// The binary value does not have 16 bytes.
    #[error("a UUID has 16 bytes, not {length}")]
    InvalidLength {
        /// How many bytes it has.
        length: usize,
    },
    /// A growth of memory was refused.
    #[error("out of memory")]
    Memory,
}

/// What a call of this module returns.
pub type Result<T> = std::result::Result<T, Error>;

/// A UUID (RFC 4122): 16 bytes, the highest first.
#[derive(Clone, Copy, Debug, PartialEq, Eq, PartialOrd, Ord, Hash)]
pub struct Uuid {
    bytes: [u8; 16],
}

impl Uuid {
    ghost use Rattle.bson_base.specs.Scalars.{uuid_bytes};

    /// The UUID of 16 bytes, the highest first.
    pub fn from_bytes(bytes: [u8; 16]) -> Uuid
        ensures { uuid_bytes result ≡ bytes }
    {
        Uuid { bytes }
    }

    /// The 16 bytes, the highest first.
    pub fn bytes(self) -> [u8; 16]
        ensures { result ≡ uuid_bytes self }
    {
        self.bytes
    }
}

/// The forms that drivers give a UUID in a binary value. A value must be read in the form that it was written in.
#[derive(Clone, Copy, Debug, PartialEq)]
pub enum UuidRepresentation {
    /// Subtype 04, the bytes as they are.
    Standard,
    /// Subtype 03, the form of old C# drivers: the first 4, the next 2 and the next 2 bytes reversed.
    CSharpLegacy,
    /// Subtype 03, the form of old Java drivers: each half reversed.
    JavaLegacy,
    /// Subtype 03, the form of old Python drivers: the bytes as they are.
    PythonLegacy,
}

impl UuidRepresentation {
    ghost use Rattle.bson_base.specs.Uuids.{uuid_subtype, uuid_form};

    /// The subtype of a binary value that holds a UUID in this form: 04 for `Standard`, 03 for the forms of old
    /// drivers.
    pub(crate) fn subtype(self) -> BinarySubtype
        ensures { result ≡ uuid_subtype self }
    {
        match self {
            UuidRepresentation::Standard => BinarySubtype::Uuid,
            _ => BinarySubtype::UuidOld,
        }
    }

    /// The 16 bytes put into this form; for bytes in this form, those of the UUID.
    pub(crate) fn reordered(self, bytes: [u8; 16]) -> [u8; 16]
        ensures { result ≡ uuid_form self bytes }
    {
        let mut bytes = bytes;
        match self {
            UuidRepresentation::Standard | UuidRepresentation::PythonLegacy => {}
            UuidRepresentation::CSharpLegacy => {
                bytes[..4].reverse();
                bytes[4..6].reverse();
                bytes[6..8].reverse();
            }
            UuidRepresentation::JavaLegacy => {
                bytes[..8].reverse();
                bytes[8..16].reverse();
            }
        }
        bytes
    }
}
