//! Vectors of numbers in binary values.

ghost use Rattle.std.specs.Prelude.{◌≡◌, ◌≢◌, ◌%◌, ◌↔◌, true, false, map, length, unwrap_or, IfOk, IfErr, IsErr, OnOk, ◌++◌};
ghost use Rattle.std.specs.List.{flat_map};
ghost use Rattle.std.specs.Int.{w8, w32, cast_unsigned, to_le_bytes};
ghost use Rattle.bson_base.specs.VectorBytes.{packed_bit, vector_bytes, is_padding};

use super::{Binary, Error, Result};
use crate::spec::BinarySubtype;
use std::alloc::{AllocError, Global};

// The bytes that stand for the types of numbers.
const INT8: u8 = 0x03;

const FLOAT32: u8 = 0x27;

const PACKED_BIT: u8 = 0x10;

/// Bits packed into bytes, the highest bit of each byte first.
#[derive(Debug, PartialEq, Drop)]
pub struct PackedBitVector {
    vector: Vec<u8>,
    padding: u8,
    ghost padded: { is_padding padding vector.items ≡ true },
}

impl PackedBitVector {
    ghost use Rattle.bson_base.specs.Vectors.{packed_value};

    /// The bits of `vector` without the lowest `padding` bits of its last byte; no padding is 0. A padding over 7, or
    /// over 0 if there is no byte, is `Error::Vector`.
    pub fn new(vector: Vec<u8>, padding: Option<u8>) -> Result<PackedBitVector>
        ensures value { IfOk result (λ p. packed_value p ≡ packed_bit (unwrap_or padding 0) vector.items) }
        ensures refused { IsErr result ↔ (is_padding (unwrap_or padding 0) vector.items ≡ false) }
        ensures error { IfErr result (λ e. e ≡ Error.Vector) }
    {
        let padding = padding.unwrap_or(0);
        if !can_pad(padding, &vector) {
            return Err(Error::Vector);
        }
        Ok(PackedBitVector { vector, padding })
    }

    /// A copy with memory of its own. The error is a refused growth.
    pub fn try_clone(&self, alloc: Global) -> std::result::Result<PackedBitVector, AllocError>
        ensures { IfOk result (λ p. packed_value p ≡ packed_value self.now) }
    {
        let vector = Vec::from_slice(alloc, &self.vector)?;
        Ok(PackedBitVector {
            vector,
            padding: self.padding,
        })
    }
}

/// A vector of numbers, as a binary value of subtype 09 holds it.
#[derive(Debug, PartialEq, Drop)]
pub enum Vector {
    /// Signed bytes.
    Int8(Vec<i8>),
    /// Floating-point numbers, as the 32 bits of their IEEE 754 patterns.
    Float32(Vec<u32>),
    /// Bits.
    PackedBit(PackedBitVector),
}

impl Vector {
    ghost use Rattle.bson_base.specs.Vectors.{vector_value, ReadsVector};

    /// The vector that `bytes` hold. `Error::Vector` reports bytes that are not those of a vector: fewer than 2,
    /// another type than 03, 27 and 10 (hexadecimal), padding with another type than 10 or that `PackedBitVector::new`
    /// refuses, or patterns that are not whole. `Error::Memory` is a refused growth.
    pub fn from_bytes(alloc: Global, bytes: &[u8]) -> Result<Vector>
        ensures { ReadsVector bytes.now result }
    {
        if bytes.len() < 2 {
            return Err(Error::Vector);
        }
        let padding = bytes[1];
        let numbers = &bytes[2..];
        match bytes[0] {
            INT8 if padding == 0 => Ok(Vector::Int8(signed_bytes(alloc, numbers)?)),
            FLOAT32 if padding == 0 && numbers.len() % 4 == 0 => {
                Ok(Vector::Float32(patterns(alloc, numbers)?))
            }
            PACKED_BIT if can_pad(padding, numbers) => {
                let vector = Vec::from_slice(alloc, numbers)?;
                Ok(Vector::PackedBit(PackedBitVector { vector, padding }))
            }
            _ => Err(Error::Vector),
        }
    }

    /// The vector that a binary value of subtype 09 holds; `Error::Vector` also reports another subtype.
    pub fn from_binary(alloc: Global, binary: &Binary) -> Result<Vector>
        ensures vector { binary.now.subtype ≡ BinarySubtype.Vector → ReadsVector binary.now.bytes.items result }
        ensures other { binary.now.subtype ≢ BinarySubtype.Vector → result ≡ Err Error.Vector }
    {
        if binary.subtype != BinarySubtype::Vector {
            return Err(Error::Vector);
        }
        Vector::from_bytes(alloc, &binary.bytes)
    }

    /// A copy with memory of its own. The error is a refused growth.
    pub fn try_clone(&self, alloc: Global) -> std::result::Result<Vector, AllocError>
        ensures { IfOk result (λ v. vector_value v ≡ vector_value self.now) }
    {
        match self {
            Vector::Int8(numbers) => Ok(Vector::Int8(Vec::from_slice(alloc, numbers)?)),
            Vector::Float32(numbers) => Ok(Vector::Float32(Vec::from_slice(alloc, numbers)?)),
            Vector::PackedBit(bits) => Ok(Vector::PackedBit(bits.try_clone(alloc)?)),
        }
    }

    /// The bytes of a binary value of subtype 09 that holds the vector: the byte of its type, the number of bits to
    /// leave out, and the numbers. The error is a refused growth.
    pub(super) fn to_bytes(&self, alloc: Global) -> std::result::Result<Vec<u8>, AllocError>
        ensures { IfOk result (λ v. v.items ≡ vector_bytes (vector_value self.now)) }
    {
        let mut bytes = Vec::new(alloc);
        match self {
            Vector::Int8(numbers) => {
                bytes.extend_from_slice(&[INT8, 0])?;
                put_signed_bytes(numbers, &mut bytes)?;
            }
            Vector::Float32(numbers) => {
                bytes.extend_from_slice(&[FLOAT32, 0])?;
                put_patterns(numbers, &mut bytes)?;
            }
            Vector::PackedBit(bits) => {
                bytes.extend_from_slice(&[PACKED_BIT, bits.padding])?;
                bytes.extend_from_slice(&bits.vector)?;
            }
        }
        Ok(bytes)
    }
}

/// Whether so many bits of the last byte can be left out: fewer than 8, and none if there is no byte.
fn can_pad(padding: u8, bytes: &[u8]) -> bool
    ensures { result ≡ is_padding padding bytes.now }
{
    padding == 0 || (padding < 8 && !bytes.is_empty())
}

/// Each byte as a signed number of 8 bits, in two's complement. The error is a refused growth.
fn signed_bytes(alloc: Global, bytes: &[u8]) -> std::result::Result<Vec<i8>, AllocError>
    ensures { IfOk result (λ v. map (cast_unsigned w8) v.items ≡ bytes.now) }
{
    let mut numbers = Vec::with_capacity(alloc, bytes.len())?;
    for byte in bytes {
        numbers.push(byte.cast_signed())?;
    }
    Ok(numbers)
}

/// The IEEE 754 patterns of 32 bits that each 4 bytes hold, little endian. The caller makes sure that no group of 4 is
/// incomplete. The error is a refused growth.
fn patterns(alloc: Global, bytes: &[u8]) -> std::result::Result<Vec<u32>, AllocError>
    requires { length bytes.now % 4 ≡ 0 }
    ensures { IfOk result (λ v. flat_map (to_le_bytes w32) v.items ≡ bytes.now) }
{
    let mut patterns = Vec::new(alloc);
    let mut at = 0usize;
    while at < bytes.len() {
        let group = [bytes[at], bytes[at + 1], bytes[at + 2], bytes[at + 3]];
        patterns.push(u32::from_le_bytes(group))?;
        at += 4;
    }
    Ok(patterns)
}

/// Appends each number to `bytes` as one byte, in two's complement. After the error, a refused growth, some of them may
/// have been appended.
fn put_signed_bytes(numbers: &[i8], bytes: &mut Vec<u8>) -> std::result::Result<(), AllocError>
    ensures { OnOk result (bytes.new.items ≡ bytes.old.items ++ map (cast_unsigned w8) numbers.now) }
{
    for number in numbers {
        bytes.push(number.cast_unsigned())?;
    }
    Ok(())
}

/// Appends each pattern of 32 bits to `bytes` as 4 bytes, little endian. After the error, a refused growth, some of
/// them may have been appended.
fn put_patterns(numbers: &[u32], bytes: &mut Vec<u8>) -> std::result::Result<(), AllocError>
    ensures { OnOk result (bytes.new.items ≡ bytes.old.items ++ flat_map (to_le_bytes w32) numbers.now) }
{
    for number in numbers {
        bytes.extend_from_slice(&number.to_le_bytes())?;
    }
    Ok(())
}
