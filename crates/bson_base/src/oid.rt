//! Object ids.

ghost use Rattle.std.specs.Prelude.{◌≡◌, ◌<◌, ◌≤◌, ◌++◌, ◌*◌, ℕ, List, length, pos, slice_index, take, IfOk, OnOk, Some, string_bytes, position, not};
ghost use Rattle.bson_base.specs.Answer.{result_map};
ghost use Rattle.std.specs.Int.{w32, to_be_bytes, from_be_bytes};
ghost use Rattle.std.specs.Fmt.{WritesOnOk, WritesStyledOnOk};
ghost use Rattle.std.specs.Str.{IsAscii};
ghost use Rattle.hex.specs.Hex.{encode_lower, is_hex_digit as hex_digit};
ghost use Rattle.bson_base.specs.ObjectIdText.{debug_text, first_other as first_other_of, object_id_of};

use crate::datetime::DateTime;
use hex::FromHex;
use std::alloc::{AllocError, Global};
use std::str::FromStr;
use std::{fmt, str};
use thiserror::Error as ThisError;

/// Why a text is no object id.
#[derive(Clone, Copy, Debug, PartialEq, ThisError)]
pub enum Error {
    /// A byte that is no hexadecimal digit.
    #[error("byte {index} of an object id is {c:?}, which is no hexadecimal digit")]
    InvalidHexStringCharacter {
        /// The character whose number is that byte.
        c: char,
        /// Where the byte is, from 0.
        index: usize,
    },
    /// Another length than 24 bytes.
    #[error("an object id has 24 hexadecimal digits, and not {length}")]
    InvalidHexStringLength {
        /// The length in bytes.
        length: usize,
    },
    /// No memory. Reading a text takes none, so no call here returns it.
    #[error("out of memory")]
    Memory,
}

/// What reading an object id returns.
pub type Result<T> = std::result::Result<T, Error>;

impl From<AllocError> for Error {
    ghost use Rattle.bson_base.specs.declared.oid.Error.TheVariants.{Memory as memory};

    ghost from_gives = { λ _ e. e ≡ memory };

    fn from(_: AllocError) -> Error {
        Error::Memory
    }
}

/// Twelve bytes that name a document (bsonspec.org 1.1, element type 07): 4 bytes of seconds, the highest first, 5 of
/// the process and 3 of a counter.
#[derive(Clone, Copy, PartialEq, Eq, PartialOrd, Ord, Hash)]
pub struct ObjectId {
    pub(crate) id: [u8; 12],
}

impl ObjectId {
    ghost use Rattle.bson_base.specs.Scalars.{id_bytes, millis_of};

    /// The object id of twelve bytes.
    pub fn from_bytes(bytes: [u8; 12]) -> ObjectId
        ensures { id_bytes result ≡ bytes }
    {
        ObjectId { id: bytes }
    }

    /// The object id of seconds since 1970, a process and a counter.
    pub fn from_parts(seconds_since_epoch: u32, process_id: [u8; 5], counter: [u8; 3]) -> ObjectId
        ensures { id_bytes result ≡ to_be_bytes w32 seconds_since_epoch ++ process_id ++ counter }
    {
        let [a, b, c, d] = seconds_since_epoch.to_be_bytes();
        let [e, f, g, h, i] = process_id;
        let [j, k, l] = counter;
        ObjectId {
            id: [a, b, c, d, e, f, g, h, i, j, k, l],
        }
    }

    /// The twelve bytes.
    pub fn bytes(&self) -> [u8; 12]
        ensures { result ≡ id_bytes self.now }
    {
        self.id
    }

    /// When it was made, to the second.
    pub fn timestamp(&self) -> DateTime
        ensures { millis_of result ≡ pos (from_be_bytes w32 (take 4 (id_bytes self.now)) * 1000) }
    {
        let [a, b, c, d, ..] = self.id;
        let seconds = u32::from_be_bytes([a, b, c, d]);
        DateTime::from_millis(seconds as i64 * 1000)
    }

    /// The object id of 24 hexadecimal digits in either case. Refused: first an odd length in bytes, then the first
    /// byte that is no digit, then any length except 24.
    pub fn parse_str(text: &str) -> Result<ObjectId>
        ensures { result_map id_bytes result ≡ object_id_of text.now }
    {
        let length = text.len();
        if length % 2 == 1 {
            return Err(Error::InvalidHexStringLength { length });
        }
        if let Some(index) = first_other(text) {
            let c = text.as_bytes()[index] as char;
            return Err(Error::InvalidHexStringCharacter { c, index });
        }
        match <[u8; 12]>::from_hex(text) {
            Ok(id) => Ok(ObjectId { id }),
            Err(_) => Err(Error::InvalidHexStringLength { length }),
        }
    }

    /// The 24 digits, in lower case.
    pub fn to_hex(&self, alloc: Global) -> std::result::Result<String, AllocError>
        ensures { IfOk result (λ text. string_bytes text ≡ encode_lower (id_bytes self.now)) }
    {
        hex::encode(alloc, &self.id[..])
    }
}

/// Whether an ASCII byte is one of `0` to `9`, `a` to `f` and `A` to `F`.
fn is_hex_digit(c: u8) -> bool
    ensures { result ≡ hex_digit c }
{
    c.is_ascii_hexdigit()
}

/// Where the first byte that is no hexadecimal digit is, counted in bytes from 0, or None if all are digits.
fn first_other(text: &str) -> Option<usize>
    ensures { result ≡ first_other_of text.now }
{
    text.as_bytes().iter().position(|c| !is_hex_digit(*c))
}

impl From<[u8; 12]> for ObjectId {
    ghost use Rattle.bson_base.specs.Scalars.{id_bytes};

    ghost from_gives = { λ bytes id. id_bytes id ≡ bytes };

    fn from(bytes: [u8; 12]) -> ObjectId {
        ObjectId::from_bytes(bytes)
    }
}

impl FromStr for ObjectId {
    ghost use Rattle.bson_base.specs.Scalars.{id_bytes};

    type Err = Error;

    ghost from_str_gives = { λ text answer. result_map id_bytes answer ≡ object_id_of text };

    /// Reads what `parse_str` reads, with the same errors.
    fn from_str(text: &str) -> Result<ObjectId> {
        ObjectId::parse_str(text)
    }
}

/// Writes the 24 hexadecimal digits in lower case, whatever width, fill or precision the formatter has. The error is
/// that of the formatter's writer.
fn write_hex<W: fmt::Write>(f: &mut fmt::Formatter<W>, bytes: &[u8; 12]) -> fmt::Result
    ensures plain { WritesOnOk W.write_str_gives f.old result (encode_lower bytes.now) f.new }
    ensures styled { WritesStyledOnOk W.write_str_gives f.old result (encode_lower bytes.now) f.new }
{
    let mut digits = [0u8; 24];
    let Ok(()) = hex::encode_to_slice(&bytes[..], &mut digits) else {
        return Err(fmt::Error);
    };
    match str::from_utf8(&digits) {
        Ok(text) => f.write_str(text),
        Err(_) => Err(fmt::Error),
    }
}

impl fmt::Display for ObjectId {
    ghost use Rattle.bson_base.specs.Scalars.{id_bytes};

    ghost output = { λ id. Some (encode_lower (id_bytes id)) };

    ghost styled_output = { λ id s. Some (encode_lower (id_bytes id)) };

    /// Prints the 24 hexadecimal digits in lower case, whatever options the formatter has.
    fn fmt<W: fmt::Write>(&self, f: &mut fmt::Formatter<W>) -> fmt::Result {
        write_hex(f, &self.id)
    }
}

impl fmt::Debug for ObjectId {
    ghost use Rattle.bson_base.specs.Scalars.{id_bytes};

    ghost debug_output = { λ id. Some (debug_text (id_bytes id)) };

    /// Prints `ObjectId("...")` with the 24 hexadecimal digits in lower case between the quotes.
    fn fmt<W: fmt::Write>(&self, f: &mut fmt::Formatter<W>) -> fmt::Result {
        write!(f, "ObjectId(\"{self}\")")
    }
}
