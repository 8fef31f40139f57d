//! Laws that no call carries. Each function does nothing, and its contract is the law.

ghost use Rattle.std.specs.Prelude.{◌≡◌, ◌-◌, ◌^◌, pos, neg_ℤ, ℕ, ◌↔◌, ◌<◌, List, true, length, string_bytes, IsTrue, chars};
ghost use Rattle.std.specs.Ordering.{int_cmp, nat_cmp, ordering_then};
ghost use Rattle.std.specs.Cmp.Lexicographic.{slice_cmp};
ghost use Rattle.std.specs.Str.{IsUtf8};
ghost use Rattle.bson_base.specs.Scalars.{millis_of, id_bytes, uuid_bytes};
ghost use Rattle.bson_base.specs.Tags.{tag_byte, subtype_of, subtype_byte, IsReadable};
ghost use Rattle.bson_base.specs.Kinds.{NeverDescends};
ghost use Rattle.bson_base.specs.Options.{sorted_text};
ghost use Rattle.bson_base.specs.Uuids.{uuid_form};
ghost use Rattle.bson_base.specs.VectorBytes.{VectorValue, IsRangedVector, vector_bytes, is_vector};
ghost use Rattle.bson_base.specs.Vectors.{packed_value, vector_value};
ghost use Rattle.bson_base.specs.declared.binary.Binary.{Binary as AnyBinary};
ghost use Rattle.bson_base.specs.declared.binary.Error.{Error as AnyBinaryError};
ghost use Rattle.bson_base.specs.declared.binary.vector.PackedBitVector.{PackedBitVector as AnyBits};
ghost use Rattle.bson_base.specs.declared.binary.vector.Vector.{Vector as AnyVector};
ghost use Rattle.bson_base.specs.declared.datetime.DateTime.{DateTime as AnyDateTime};
ghost use Rattle.bson_base.specs.declared.datetime.Error.{Error as AnyDateTimeError};
ghost use Rattle.bson_base.specs.declared.decimal128.Decimal128.{Decimal128 as AnyDecimal};
ghost use Rattle.bson_base.specs.declared.decimal128.ParseError.{ParseError as AnyDecimalError};
ghost use Rattle.bson_base.specs.declared.device.DeviceFault.{DeviceFault as AnyDeviceFault};
ghost use Rattle.bson_base.specs.declared.double.DoubleBits.{DoubleBits as AnyDouble};
ghost use Rattle.bson_base.specs.declared.oid.Error.{Error as AnyObjectIdError};
ghost use Rattle.bson_base.specs.declared.oid.ObjectId.{ObjectId as AnyObjectId};
ghost use Rattle.bson_base.specs.declared.pointer.DbPointer.{DbPointer as AnyPointer};
ghost use Rattle.bson_base.specs.declared.regex.Regex.{Regex as AnyRegex};
ghost use Rattle.bson_base.specs.declared.spec.BinarySubtype.{BinarySubtype as AnySubtype};
ghost use Rattle.bson_base.specs.declared.spec.ElementType.{ElementType as AnyKind};
ghost use Rattle.bson_base.specs.declared.timestamp.Timestamp.{Timestamp as AnyTimestamp};
ghost use Rattle.bson_base.specs.declared.uuid.Error.{Error as AnyUuidError};
ghost use Rattle.bson_base.specs.declared.uuid.Uuid.{Uuid as AnyUuid};
ghost use Rattle.bson_base.specs.declared.uuid.UuidRepresentation.{UuidRepresentation as AnyRepresentation};

pub mod decimals;

use crate::binary::{Error as BinaryError, PackedBitVector, Vector};
use crate::datetime::Error as DateTimeError;
use crate::decimal128::ParseError;
use crate::oid::Error as ObjectIdError;
use crate::uuid::{Error as UuidError, UuidRepresentation};
use crate::{
    Binary, BinarySubtype, DateTime, DbPointer, Decimal128, DeviceFault, DoubleBits, ElementType,
    ObjectId, Regex, Timestamp, Uuid,
};
use std::hash::Hash;

/// `==` is an equivalence.
pub fn equality<T: Eq>()
    ensures reflexive { (x : T) → T.eq x x ≡ true }
    ensures symmetric { (x y : T) → T.eq x y ≡ T.eq y x }
    ensures transitive { (x y z : T) → T.eq x y ≡ true → T.eq y z ≡ true → T.eq x z ≡ true }
{}

/// Equal values make the same writes to a hasher.
pub fn hashing<T: Hash>()
    ensures { (x y : T) → T.eq x y ≡ true → T.hash_input x ≡ T.hash_input y }
{}

/// Two values of a type that holds no memory are equal if they are the same; for a double this means its pattern.
pub fn equal_scalars()
    ensures doubles { (x y : AnyDouble) → IsTrue (⟦<DoubleBits as PartialEq>⟧.eq x y) ↔ (x ≡ y) }
    ensures subtypes { (x y : AnySubtype) → IsTrue (⟦<BinarySubtype as PartialEq>⟧.eq x y) ↔ (x ≡ y) }
    ensures object_ids { (x y : AnyObjectId) → IsTrue (⟦<ObjectId as PartialEq>⟧.eq x y) ↔ (x ≡ y) }
    ensures moments { (x y : AnyDateTime) → IsTrue (⟦<DateTime as PartialEq>⟧.eq x y) ↔ (x ≡ y) }
    ensures decimals { (x y : AnyDecimal) → IsTrue (⟦<Decimal128 as PartialEq>⟧.eq x y) ↔ (x ≡ y) }
    ensures timestamps { (x y : AnyTimestamp) → IsTrue (⟦<Timestamp as PartialEq>⟧.eq x y) ↔ (x ≡ y) }
    ensures uuids { (x y : AnyUuid) → IsTrue (⟦<Uuid as PartialEq>⟧.eq x y) ↔ (x ≡ y) }
    ensures kinds { (x y : AnyKind) → IsTrue (⟦<ElementType as PartialEq>⟧.eq x y) ↔ (x ≡ y) }
    ensures representations { (x y : AnyRepresentation) → IsTrue (⟦<UuidRepresentation as PartialEq>⟧.eq x y) ↔ (x ≡ y) }
{}

/// Two errors are equal if they are the same, with all that they report.
pub fn equal_errors()
    ensures binaries { (x y : AnyBinaryError) → IsTrue (⟦<BinaryError as PartialEq>⟧.eq x y) ↔ (x ≡ y) }
    ensures moments { (x y : AnyDateTimeError) → IsTrue (⟦<DateTimeError as PartialEq>⟧.eq x y) ↔ (x ≡ y) }
    ensures decimals { (x y : AnyDecimalError) → IsTrue (⟦<ParseError as PartialEq>⟧.eq x y) ↔ (x ≡ y) }
    ensures object_ids { (x y : AnyObjectIdError) → IsTrue (⟦<ObjectIdError as PartialEq>⟧.eq x y) ↔ (x ≡ y) }
    ensures uuids { (x y : AnyUuidError) → IsTrue (⟦<UuidError as PartialEq>⟧.eq x y) ↔ (x ≡ y) }
    ensures devices { (x y : AnyDeviceFault) → IsTrue (⟦<DeviceFault as PartialEq>⟧.eq x y) ↔ (x ≡ y) }
{
    equal_scalars();
}

/// Binary values, regular expressions and pointers are equal if their parts have the same bytes.
pub fn equal_parts()
    ensures binaries { (x y : AnyBinary) → IsTrue (⟦<Binary as PartialEq>⟧.eq x y) ↔ ((x.subtype ≡ y.subtype) × (x.bytes.items ≡ y.bytes.items)) }
    ensures expressions { (x y : AnyRegex) → IsTrue (⟦<Regex as PartialEq>⟧.eq x y)
        ↔ ((string_bytes x.pattern ≡ string_bytes y.pattern) × (string_bytes x.options ≡ string_bytes y.options)) }
    ensures pointers { (x y : AnyPointer) → IsTrue (⟦<DbPointer as PartialEq>⟧.eq x y)
        ↔ ((string_bytes x.namespace ≡ string_bytes y.namespace) × (x.id ≡ y.id)) }
{}

/// Vectors are equal if they have the same numbers, and bits if they have the same bytes and padding.
pub fn equal_vectors()
    ensures vectors { (x y : AnyVector) → IsTrue (⟦<Vector as PartialEq>⟧.eq x y) ↔ (vector_value x ≡ vector_value y) }
    ensures bits { (x y : AnyBits) → IsTrue (⟦<PackedBitVector as PartialEq>⟧.eq x y) ↔ (packed_value x ≡ packed_value y) }
{}

/// Which value comes first: of timestamps the one with fewer seconds, and at the same second the one with the lower
/// increment; of moments the earlier one; of object ids and of UUIDs the one with the lower byte at the first that
/// differs.
pub fn order_of_scalars()
    ensures timestamps { (x y : AnyTimestamp) → ⟦<Timestamp as Ord>⟧.cmp x y ≡ ordering_then (nat_cmp x.time y.time) (nat_cmp x.increment y.increment) }
    ensures moments { (x y : AnyDateTime) → ⟦<DateTime as Ord>⟧.cmp x y ≡ int_cmp (millis_of x) (millis_of y) }
    ensures object_ids { (x y : AnyObjectId) → ⟦<ObjectId as Ord>⟧.cmp x y ≡ slice_cmp nat_cmp (id_bytes x) (id_bytes y) }
    ensures uuids { (x y : AnyUuid) → ⟦<Uuid as Ord>⟧.cmp x y ≡ slice_cmp nat_cmp (uuid_bytes x) (uuid_bytes y) }
{}

/// The first and the last moment are the least and the greatest signed number of 64 bits.
pub fn first_and_last_moment()
    ensures first { millis_of DateTime.MIN ≡ neg_ℤ (pos (2 ^ 63)) }
    ensures last { millis_of DateTime.MAX ≡ pos (2 ^ 63 - 1) }
{}

/// Each kind has a tag byte of its own (bsonspec.org 1.1).
pub fn tag_bytes()
    ensures { (x y : AnyKind) → tag_byte x ≡ tag_byte y → x ≡ y }
{}

/// A byte comes back from its subtype. A subtype comes back from its byte exactly if a byte stands for it, which is not
/// so of a `Reserved` or `UserDefined` with another's byte (bsonspec.org 1.1, "subtype").
pub fn subtype_bytes()
    ensures bytes { (byte : ℕ) → subtype_byte (subtype_of byte) ≡ byte }
    ensures subtypes { (subtype : AnySubtype) → IsReadable subtype ↔ (subtype_of (subtype_byte subtype) ≡ subtype) }
{}

/// The options that `Regex::new` keeps are in order, and options in order stay as they are.
pub fn sorted_options()
    ensures in_order { (text : List ℕ) → IsUtf8 text → NeverDescends (chars (sorted_text text)) }
    ensures kept { (text : List ℕ) → IsUtf8 text → NeverDescends (chars text) → sorted_text text ≡ text }
{}

/// The bytes of a UUID put into a form twice are the bytes again, so what is written in a representation is read from
/// it.
pub fn uuid_forms()
    ensures { (representation : AnyRepresentation) (bytes : List ℕ) → length bytes ≡ 16 → uuid_form representation (uuid_form representation bytes) ≡ bytes }
{}

/// The bytes that a vector is written as are those of a vector, and of no other, so `Vector::from_binary` gives back
/// what `Binary::from_vector` wrote.
pub fn written_vectors()
    ensures apart { (x y : VectorValue) → IsRangedVector x → IsRangedVector y → vector_bytes x ≡ vector_bytes y → x ≡ y }
    ensures read { (vector : AnyVector) → is_vector (vector_bytes (vector_value vector)) ≡ true }
{}
