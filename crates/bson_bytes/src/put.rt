//! Writing leaves at the end of bytes: texts, names, binary values, and the length of what was written.
//!
//! If a call is refused, a part of its bytes may have been appended; those from before stay.

ghost use Rattle.std.specs.Prelude.{◌≡◌, ◌↔◌, IsTrue, ◌+◌, ◌<◌, ◌≤◌, ◌^◌, ◌++◌, ◌∷◌, [], List, ℕ, length, decimal, OnOk, OnErr, IfErr};
ghost use Rattle.bson_base.specs.Kinds.{HasNo00, IsPlainScalar};
ghost use Rattle.bson_base.specs.Scalars.{id_bytes};
ghost use Rattle.bson_base.specs.Tags.{tag_byte};
ghost use Rattle.bson_base.specs.Value.{binary, regex, timestamp, db_pointer};
ghost use Rattle.bson_bytes.specs.Encode.{le32, cstring_of, inner, text_bytes, scalar_bytes, scalar_size};
ghost use Rattle.bson_bytes.specs.Writing.{IsWriteRefusal, StartsWith};
ghost use Rattle.bson_frame.specs.View.{IsBare};
ghost use Rattle.bson_frame.specs.declared.error.ErrorKind.TheVariants.{MalformedValue, OutOfMemory};

use bson_base::{BinarySubtype, ElementType, ObjectId, Timestamp};
use bson_frame::{Error, ErrorKind, LENGTH_LIMIT, Result};
use itoa::Buffer;

/// The refusal of a 00 where none may be, or of too many bytes.
pub(crate) fn refusal() -> Error
    ensures { IsBare MalformedValue result }
{
    Error::new(None, ErrorKind::MalformedValue)
}

/// Appends bytes as they are. The error is a refused growth.
pub fn write_bytes(bytes: &[u8], out: &mut Vec<u8>) -> Result<()>
    ensures ok { OnOk result (out.new.items ≡ out.old.items ++ bytes.now) }
    ensures refused { IfErr result (IsBare OutOfMemory) }
    ensures kept { OnErr result (out.new.items ≡ out.old.items) }
{
    out.extend_from_slice(bytes)?;
    Ok(())
}

/// Appends a length, the text and 00 (bsonspec.org 1.1, "string"). `MalformedValue` if these are over 2147483647 bytes.
#[tactic(auto, unfolding(crate::specs::Encode::text_bytes, crate::specs::Encode::le32))]
pub fn write_text(text: &str, out: &mut Vec<u8>) -> Result<()>
    ensures ok { OnOk result (out.new.items ≡ out.old.items ++ text_bytes text.now) }
    ensures short { OnOk result (length text.now + 5 < 2 ^ 31) }
    ensures refused { IfErr result (IsWriteRefusal (2 ^ 31 ≤ length text.now + 5)) }
    ensures kept { OnErr result (StartsWith out.new.items out.old.items) }
{
    // By its own length too, not only by the document's around it: so each writer's contract is exact both ways.
    if text.len() + 5 > LENGTH_LIMIT {
        return Err(refusal());
    }
    let length = text.len() as u32 + 1;
    write_bytes(&length.to_le_bytes(), out)?;
    write_bytes(text.as_bytes(), out)?;
    write_bytes(&[0], out)
}

/// Whether no byte is 00.
pub fn has_no_zero(bytes: &[u8]) -> bool
    ensures { IsTrue result ↔ HasNo00 bytes.now }
{
    !bytes.contains(&0)
}

/// Appends a key, a pattern or options, and 00 (bsonspec.org 1.1, "cstring"). `MalformedValue` if a 00 is in it.
#[tactic(auto, unfolding(crate::specs::Encode::cstring_of))]
pub fn write_name(name: &str, out: &mut Vec<u8>) -> Result<()>
    ensures ok { OnOk result (out.new.items ≡ out.old.items ++ cstring_of name.now) }
    ensures plain { OnOk result (HasNo00 name.now) }
    ensures refused { IfErr result (IsWriteRefusal (HasNo00 name.now → ⊥)) }
    ensures kept { OnErr result (StartsWith out.new.items out.old.items) }
{
    if !has_no_zero(name.as_bytes()) {
        return Err(refusal());
    }
    write_bytes(name.as_bytes(), out)?;
    write_bytes(&[0], out)
}

/// Appends what comes before an element's payload: its tag, its key and 00 (bsonspec.org 1.1, "element").
/// `MalformedValue` if a 00 is in the key.
#[tactic(auto, unfolding(crate::specs::Encode::cstring_of))]
pub fn write_front(kind: ElementType, key: &str, out: &mut Vec<u8>) -> Result<()>
    ensures ok { OnOk result (out.new.items ≡ out.old.items ++ tag_byte kind ∷ cstring_of key.now) }
    ensures plain { OnOk result (HasNo00 key.now) }
    ensures refused { IfErr result (IsWriteRefusal (HasNo00 key.now → ⊥)) }
    ensures kept { OnErr result (StartsWith out.new.items out.old.items) }
{
    write_bytes(&[kind.tag()], out)?;
    write_name(key, out)
}

/// Appends what comes before an item's payload: its tag, its place in the array in decimal, and 00 (bsonspec.org 1.1,
/// element type 04). The error is a refused growth.
#[tactic(auto, unfolding(crate::specs::Encode::cstring_of))]
pub fn write_place(kind: ElementType, place: usize, out: &mut Vec<u8>) -> Result<()>
    ensures ok { OnOk result (out.new.items ≡ out.old.items ++ tag_byte kind ∷ cstring_of (decimal place)) }
    ensures refused { IfErr result (IsBare OutOfMemory) }
    ensures kept { OnErr result (StartsWith out.new.items out.old.items) }
{
    let mut digits = Buffer::new();
    let key = digits.format(place);
    write_bytes(&[kind.tag()], out)?;
    write_bytes(key.as_bytes(), out)?;
    write_bytes(&[0], out)
}

/// Appends a length, a subtype and the bytes; an old binary has a second length in front of its bytes (bsonspec.org
/// 1.1, "binary"). `MalformedValue` if these are over 2147483647 bytes.
#[tactic(auto, unfolding(crate::specs::Encode::le32, crate::specs::Encode::inner))]
pub fn write_binary(subtype: BinarySubtype, bytes: &[u8], out: &mut Vec<u8>) -> Result<()>
    ensures ok { OnOk result (out.new.items ≡ out.old.items ++ scalar_bytes (binary subtype bytes.now)) }
    ensures short { OnOk result (scalar_size (binary subtype bytes.now) < 2 ^ 31) }
    ensures refused { IfErr result (IsWriteRefusal (2 ^ 31 ≤ scalar_size (binary subtype bytes.now))) }
    ensures kept { OnErr result (StartsWith out.new.items out.old.items) }
{
    let front: usize = if subtype == BinarySubtype::BinaryOld {
        9
    } else {
        5
    };
    if bytes.len() + front > LENGTH_LIMIT {
        return Err(refusal());
    }
    let length = (bytes.len() + front - 5) as u32;
    write_bytes(&length.to_le_bytes(), out)?;
    write_bytes(&[u8::from(subtype)], out)?;
    if subtype == BinarySubtype::BinaryOld {
        let inner = bytes.len() as u32;
        write_bytes(&inner.to_le_bytes(), out)?;
    }
    write_bytes(bytes, out)
}

/// Appends a pattern and options, each with its 00 (bsonspec.org 1.1, element type 0B). `MalformedValue` if a 00 is in
/// one of them.
pub fn write_regex(pattern: &str, options: &str, out: &mut Vec<u8>) -> Result<()>
    ensures ok { OnOk result (out.new.items ≡ out.old.items ++ scalar_bytes (regex pattern.now options.now)) }
    ensures plain { OnOk result (IsPlainScalar (regex pattern.now options.now)) }
    ensures refused { IfErr result (IsWriteRefusal (IsPlainScalar (regex pattern.now options.now) → ⊥)) }
    ensures kept { OnErr result (StartsWith out.new.items out.old.items) }
{
    write_name(pattern, out)?;
    write_name(options, out)
}

/// Appends a timestamp, the increment first (bsonspec.org 1.1, element type 11). The error is a refused growth.
#[tactic(auto, unfolding(crate::specs::Encode::le32))]
pub fn write_timestamp(value: Timestamp, out: &mut Vec<u8>) -> Result<()>
    ensures ok { OnOk result (out.new.items ≡ out.old.items ++ scalar_bytes (timestamp value.time value.increment)) }
    ensures refused { IfErr result (IsBare OutOfMemory) }
    ensures kept { OnErr result (StartsWith out.new.items out.old.items) }
{
    write_bytes(&value.increment.to_le_bytes(), out)?;
    write_bytes(&value.time.to_le_bytes(), out)
}

/// Appends a text and the twelve bytes of an object id (bsonspec.org 1.1, element type 0C). `MalformedValue` if the
/// text takes over 2147483647 bytes.
pub fn write_pointer(namespace: &str, id: ObjectId, out: &mut Vec<u8>) -> Result<()>
    ensures ok { OnOk result (out.new.items ≡ out.old.items ++ scalar_bytes (db_pointer namespace.now (id_bytes id))) }
    ensures short { OnOk result (length namespace.now + 5 < 2 ^ 31) }
    ensures refused { IfErr result (IsWriteRefusal (2 ^ 31 ≤ length namespace.now + 5)) }
    ensures kept { OnErr result (StartsWith out.new.items out.old.items) }
{
    write_text(namespace, out)?;
    write_bytes(&id.bytes(), out)
}

/// Puts a number in place of four bytes.
#[tactic(auto, unfolding(crate::specs::Encode::le32))]
fn put_number(out: &mut Vec<u8>, at: usize, number: u32)
    requires { at + 4 ≤ length out.old.items }
    ensures { (before middle after : List ℕ) → out.old.items ≡ before ++ (middle ++ after) → length before ≡ at → length middle ≡ 4
        → out.new.items ≡ before ++ (le32 number ++ after) }
{
    let [a, b, c, d] = number.to_le_bytes();
    out[at] = a;
    out[at + 1] = b;
    out[at + 2] = c;
    out[at + 3] = d;
}

/// Puts the number of the bytes from `start` on in place of the first four of them, which were left as room for it.
/// `MalformedValue` if they are over 2147483647; nothing is changed then. Takes no memory.
pub fn put_length(out: &mut Vec<u8>, start: usize) -> Result<()>
    requires { start + 4 ≤ length out.old.items }
    ensures ok { (before middle after : List ℕ) → out.old.items ≡ before ++ (middle ++ after) → length before ≡ start → length middle ≡ 4
        → OnOk result (out.new.items ≡ before ++ (le32 (length after + 4) ++ after)) }
    ensures short { OnOk result (length out.old.items < start + 2 ^ 31) }
    ensures refused { IfErr result (λ e. IsBare MalformedValue e × (start + 2 ^ 31 ≤ length out.old.items)) }
    ensures kept { OnErr result (out.new.items ≡ out.old.items) }
{
    let length = out.len() - start;
    if length > LENGTH_LIMIT {
        return Err(refusal());
    }
    put_number(out, start, length as u32);
    Ok(())
}
