//! Writing trees (bsonspec.org 1.1). Each byte is written once: a length is put in when what it counts is there.

ghost use Rattle.std.specs.Prelude.{◌≡◌, ◌+◌, ◌<◌, ◌≤◌, ◌^◌, ◌++◌, ◌∷◌, [], List, ℕ, length, map, string_bytes, OnOk, OnErr, IfOk, IfErr};
ghost use Rattle.bson_base.specs.Kinds.{HasNo00, IsPlain, IsPlainScalar};
ghost use Rattle.bson_base.specs.Value.{array};
ghost use Rattle.bson_bytes.specs.Encode.{value_bytes, value_size, items_bytes, items_size, members_bytes, members_size, encode, frame_of, scope_frame_of};
ghost use Rattle.bson_bytes.specs.Writing.{CanBeWritten, IsWriteRefusal, StartsWith};
ghost use Rattle.bson_frame.specs.Payload.{IsEnvelope};
ghost use Rattle.bson_model.specs.Trees.{document_tree, scoped_code_tree};
ghost use Rattle.bson_model.specs.View.{view, items_of, content};

use crate::put::{
    put_length, refusal, write_binary, write_bytes, write_front, write_place, write_pointer,
    write_regex, write_text, write_timestamp,
};
use bson_frame::{LENGTH_LIMIT, Result};
use bson_model::{Bson, Document, JavaScriptCodeWithScope};
use std::alloc::Global;

/// Appends a value's bytes. They may be too many for a length to hold, if no length counts them.
#[cycle(write)]
#[tactic(auto, unfolding(crate::specs::Encode::le32, crate::specs::Encode::le64))]
fn put_value(value: &Bson, out: &mut Vec<u8>) -> Result<()>
    ensures ok { OnOk result (out.new.items ≡ out.old.items ++ value_bytes (view value.now)) }
    ensures plain { OnOk result (IsPlain (view value.now)) }
    ensures refused { IfErr result (IsWriteRefusal (CanBeWritten (view value.now) → ⊥)) }
    ensures kept { OnErr result (StartsWith out.new.items out.old.items) }
{
    match value {
        Bson::Double(x) => write_bytes(&x.to_bits().to_le_bytes(), out),
        Bson::String(text) => write_text(text, out),
        Bson::Array(items) => write_items(items, out),
        Bson::Document(document) => write_document(document, out),
        Bson::Boolean(x) => write_bytes(&[u8::from(*x)], out),
        Bson::Null | Bson::Undefined | Bson::MaxKey | Bson::MinKey => Ok(()),
        Bson::RegularExpression(x) => write_regex(&x.pattern, &x.options, out),
        Bson::JavaScriptCode(text) => write_text(text, out),
        Bson::JavaScriptCodeWithScope(code) => write_scoped(code, out),
        Bson::Int32(x) => write_bytes(&x.to_le_bytes(), out),
        Bson::Int64(x) => write_bytes(&x.to_le_bytes(), out),
        Bson::Timestamp(x) => write_timestamp(*x, out),
        Bson::Binary(x) => write_binary(x.subtype, &x.bytes, out),
        Bson::ObjectId(x) => write_bytes(&x.bytes(), out),
        Bson::DateTime(x) => write_bytes(&x.timestamp_millis().to_le_bytes(), out),
        Bson::Symbol(text) => write_text(text, out),
        Bson::Decimal128(x) => write_bytes(&x.bytes(), out),
        Bson::DbPointer(x) => write_pointer(&x.namespace, x.id, out),
    }
}

/// Appends a document (bsonspec.org 1.1, "document"). `MalformedValue` if a 00 is in a key, a pattern or options,
/// and if its bytes are over 2147483647. No key is reported.
#[cycle(write)]
pub fn write_document(document: &Document, out: &mut Vec<u8>) -> Result<()>
    ensures ok { OnOk result (out.new.items ≡ out.old.items ++ encode (content document.now)) }
    ensures fits { OnOk result (CanBeWritten (document_tree document.now)) }
    ensures refused { IfErr result (IsWriteRefusal (CanBeWritten (document_tree document.now) → ⊥)) }
    ensures kept { OnErr result (StartsWith out.new.items out.old.items) }
{
    let start = out.len();
    write_bytes(&[0, 0, 0, 0], out)?;
    for (key, value) in document {
        write_front(value.element_type(), key, out)?;
        put_value(value, out)?;
    }
    write_bytes(&[0], out)?;
    put_length(out, start)
}

/// Appends a code and its scope (bsonspec.org 1.1, "code_w_s"). `MalformedValue` as of a document.
#[cycle(write)]
pub fn write_scoped(code: &JavaScriptCodeWithScope, out: &mut Vec<u8>) -> Result<()>
    ensures ok { OnOk result (out.new.items ≡ out.old.items ++ value_bytes (scoped_code_tree code.now)) }
    ensures fits { OnOk result (CanBeWritten (scoped_code_tree code.now)) }
    ensures refused { IfErr result (IsWriteRefusal (CanBeWritten (scoped_code_tree code.now) → ⊥)) }
    ensures kept { OnErr result (StartsWith out.new.items out.old.items) }
{
    let start = out.len();
    write_bytes(&[0, 0, 0, 0], out)?;
    write_text(&code.code, out)?;
    write_document(&code.scope, out)?;
    put_length(out, start)
}

/// Appends an array: the keys are the places in decimal (bsonspec.org 1.1, element type 04). `MalformedValue` as of a
/// document.
#[cycle(write)]
pub fn write_items(items: &[Bson], out: &mut Vec<u8>) -> Result<()>
    ensures ok { OnOk result (out.new.items ≡ out.old.items ++ frame_of (items_bytes 0 (items_of (map view items.now)))) }
    ensures fits { OnOk result (CanBeWritten (array (items_of (map view items.now)))) }
    ensures refused { IfErr result (IsWriteRefusal (CanBeWritten (array (items_of (map view items.now))) → ⊥)) }
    ensures kept { OnErr result (StartsWith out.new.items out.old.items) }
{
    let start = out.len();
    write_bytes(&[0, 0, 0, 0], out)?;
    for i in 0..items.len() {
        let item = &items[i];
        write_place(item.element_type(), i, out)?;
        put_value(item, out)?;
    }
    write_bytes(&[0], out)?;
    put_length(out, start)
}

/// Appends the payload of a value (bsonspec.org 1.1, "element"). `MalformedValue` if a 00 is in a key, a pattern or
/// options, and if the payload is over 2147483647 bytes. No key is reported.
pub fn write_value(value: &Bson, out: &mut Vec<u8>) -> Result<()>
    ensures ok { OnOk result (out.new.items ≡ out.old.items ++ value_bytes (view value.now)) }
    ensures fits { OnOk result (CanBeWritten (view value.now)) }
    ensures refused { IfErr result (IsWriteRefusal (CanBeWritten (view value.now) → ⊥)) }
    ensures kept { OnErr result (StartsWith out.new.items out.old.items) }
{
    let start = out.len();
    put_value(value, out)?;
    if out.len() - start > LENGTH_LIMIT {
        return Err(refusal());
    }
    Ok(())
}

/// The bytes of a document (bsonspec.org 1.1, "document"). `MalformedValue` if a 00 is in a key, a pattern or
/// options, and if the bytes are over 2147483647; `OutOfMemory` if a growth is refused. No key is reported.
pub fn encode_document(alloc: Global, document: &Document) -> Result<Vec<u8>>
    ensures ok { IfOk result (λ b. b.items ≡ encode (content document.now)) }
    ensures envelope { IfOk result (λ b. IsEnvelope b.items) }
    ensures fits { OnOk result (CanBeWritten (document_tree document.now)) }
    ensures refused { IfErr result (IsWriteRefusal (CanBeWritten (document_tree document.now) → ⊥)) }
{
    let mut out = Vec::new(alloc);
    write_document(document, &mut out)?;
    Ok(out)
}

/// The bytes of an array, which are those of a document whose keys are the places in decimal. Refused as
/// `encode_document` is.
pub fn encode_items(alloc: Global, items: &[Bson]) -> Result<Vec<u8>>
    ensures ok { IfOk result (λ b. b.items ≡ value_bytes (array (items_of (map view items.now)))) }
    ensures envelope { IfOk result (λ b. IsEnvelope b.items) }
    ensures fits { OnOk result (CanBeWritten (array (items_of (map view items.now)))) }
    ensures refused { IfErr result (IsWriteRefusal (CanBeWritten (array (items_of (map view items.now))) → ⊥)) }
{
    let mut out = Vec::new(alloc);
    write_items(items, &mut out)?;
    Ok(out)
}
