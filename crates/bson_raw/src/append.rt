//! Elements that are written into the bytes of a document.

ghost use Rattle.std.specs.Prelude.{◌≡◌, ◌+◌, ◌<◌, ◌≤◌, ◌^◌, ◌++◌, ◌∷◌, [], List, ℕ, length, OnOk, OnErr, IfErr};
ghost use Rattle.bson_base.specs.Kinds.{HasNo00};
ghost use Rattle.bson_base.specs.Tags.{tag_byte};
ghost use Rattle.bson_bytes.specs.Encode.{cstring_of};
ghost use Rattle.bson_bytes.specs.Writing.{IsWriteRefusal, StartsWith};
ghost use Rattle.bson_frame.specs.Payload.{IsEnvelope};
ghost use Rattle.bson_raw.specs.Append.{AppendsElement, Gains, element_for};
ghost use Rattle.bson_raw.specs.Raw.{RawValue, ref_value, raw_kind, raw_payload, IsPlainRaw};
ghost use Rattle.bson_raw.specs.Written.{CanWrite, IsFormed, scoped_value, Closes};

use crate::bson_ref::{RawBsonRef, RawJavaScriptCodeWithScopeRef};
use bson_bytes::put::{
    put_length, write_binary, write_bytes, write_name, write_pointer, write_regex, write_text,
    write_timestamp,
};
use bson_frame::Result;

/// Appends the payload of a code with scope (bsonspec.org 1.1, "code_w_s").
fn write_scoped(code: RawJavaScriptCodeWithScopeRef<'_>, out: &mut Vec<u8>) -> Result<()>
    ensures ok { OnOk result (out.new.items ≡ out.old.items ++ raw_payload (scoped_value code.entry)) }
    ensures refused { IfErr result (IsWriteRefusal (CanWrite (scoped_value code.entry) → ⊥)) }
    ensures kept { OnErr result (StartsWith out.new.items out.old.items) }
{
    let start = out.len();
    write_bytes(&[0, 0, 0, 0], out)?;
    write_text(code.code, out)?;
    write_bytes(code.scope.as_bytes(), out)?;
    put_length(out, start)
}

/// Appends the payload of a value (bsonspec.org 1.1, "element").
#[tactic(auto, unfolding(bson_bytes::specs::Encode::le32, bson_bytes::specs::Encode::le64))]
fn write_payload(value: RawBsonRef<'_>, out: &mut Vec<u8>) -> Result<()>
    ensures ok { OnOk result (out.new.items ≡ out.old.items ++ raw_payload (ref_value value.entry)) }
    ensures plain { OnOk result (IsPlainRaw (ref_value value.entry)) }
    ensures formed { IsFormed (ref_value value.entry) }
    ensures refused { IfErr result (IsWriteRefusal (CanWrite (ref_value value.entry) → ⊥)) }
    ensures kept { OnErr result (StartsWith out.new.items out.old.items) }
{
    match value {
        RawBsonRef::Double(x) => write_bytes(&x.to_bits().to_le_bytes(), out),
        RawBsonRef::String(text) => write_text(text, out),
        RawBsonRef::Array(array) => write_bytes(array.as_bytes(), out),
        RawBsonRef::Document(document) => write_bytes(document.as_bytes(), out),
        RawBsonRef::Boolean(x) => write_bytes(&[u8::from(x)], out),
        RawBsonRef::Null => Ok(()),
        RawBsonRef::RegularExpression(x) => write_regex(x.pattern, x.options, out),
        RawBsonRef::JavaScriptCode(text) => write_text(text, out),
        RawBsonRef::JavaScriptCodeWithScope(code) => write_scoped(code, out),
        RawBsonRef::Int32(x) => write_bytes(&x.to_le_bytes(), out),
        RawBsonRef::Int64(x) => write_bytes(&x.to_le_bytes(), out),
        RawBsonRef::Timestamp(x) => write_timestamp(x, out),
        RawBsonRef::Binary(x) => write_binary(x.subtype, x.bytes, out),
        RawBsonRef::ObjectId(x) => write_bytes(&x.bytes(), out),
        RawBsonRef::DateTime(x) => write_bytes(&x.timestamp_millis().to_le_bytes(), out),
        RawBsonRef::Symbol(text) => write_text(text, out),
        RawBsonRef::Decimal128(x) => write_bytes(&x.bytes(), out),
        RawBsonRef::Undefined => Ok(()),
        RawBsonRef::MaxKey => Ok(()),
        RawBsonRef::MinKey => Ok(()),
        RawBsonRef::DbPointer(x) => write_pointer(x.namespace, x.id, out),
    }
}

/// Appends an element without its tag, and the document's final 00.
fn write_rest(key: &str, value: RawBsonRef<'_>, out: &mut Vec<u8>) -> Result<()>
    ensures ok { OnOk result (out.new.items ≡ out.old.items ++ (cstring_of key.now ++ (raw_payload (ref_value value.entry) ++ 0 ∷ []))) }
    ensures plain { OnOk result (HasNo00 key.now × IsPlainRaw (ref_value value.entry)) }
    ensures formed { OnOk result (IsFormed (ref_value value.entry)) }
    ensures refused { IfErr result (IsWriteRefusal (HasNo00 key.now → CanWrite (ref_value value.entry) → ⊥)) }
    ensures kept { OnErr result (StartsWith out.new.items out.old.items) }
{
    write_name(key, out)?;
    write_payload(value, out)?;
    write_bytes(&[0], out)
}

/// Makes a document of one to which an element without its tag was appended: the tag takes the place of the old final
/// 00. If that is too long, cuts it down to the old one.
fn finish_append(bytes: &mut Vec<u8>, end: usize, tag: u8) -> Result<()>
    requires some { 5 ≤ end }
    requires within { end ≤ length bytes.old.items }
    ensures ok { (four body more : List ℕ) → bytes.old.items ≡ four ++ ((body ++ 0 ∷ []) ++ more) → length four ≡ 4 → length body + 5 ≡ end
        → Closes four body more tag bytes.new.items result }
{
    match put_length(bytes, 0) {
        Ok(()) => {
            bytes[end - 1] = tag;
            Ok(())
        }
        Err(e) => {
            bytes.truncate(end);
            Err(e)
        }
    }
}

/// Puts a value into the bytes of a document, under a key and in front of the final 00. `MalformedValue` if a 00 is in
/// the key, a pattern or options, and if the document would be over 2147483647 bytes. A refusal changes nothing.
pub(crate) fn append_to(bytes: &mut Vec<u8>, key: &str, value: RawBsonRef<'_>) -> Result<()>
    requires { IsEnvelope bytes.old.items }
    ensures bytes { AppendsElement bytes.old.items bytes.new.items key.now (ref_value value.entry) result }
    ensures walk { OnOk result (Gains bytes.old.items bytes.new.items (element_for key.now (ref_value value.entry))) }
{
    let end = bytes.len();
    match write_rest(key, value, bytes) {
        Ok(()) => finish_append(bytes, end, value.element_type().tag()),
        Err(e) => {
            bytes.truncate(end);
            Err(e)
        }
    }
}
