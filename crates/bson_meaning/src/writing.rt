//! The bytes of a tree's normal form with its keys in order. Neither is made: the pairs are written as their keys
//! ascend.
//!
//! If a call is refused, a part of its bytes may have been appended.

ghost use Rattle.std.specs.Prelude.{◌≡◌, ◌++◌, map, IfErr, IfOk, OnOk};
ghost use Rattle.bson_base.specs.Kinds.{IsPlain};
ghost use Rattle.bson_base.specs.Value.{array, document as tree, value_kind};
ghost use Rattle.bson_bytes.specs.Encode.{encode, frame_of, items_bytes, members_bytes, value_bytes};
ghost use Rattle.bson_bytes.specs.Writing.{CanBeWritten, IsWriteRefusal};
ghost use Rattle.bson_model.specs.Trees.{regex_tree, scoped_code_tree};
ghost use Rattle.bson_model.specs.View.{view, items_of, content};
ghost use Rattle.bson_meaning.specs.Keys.{alone};
ghost use Rattle.bson_meaning.specs.Forms.{norm_members_in_order, norm_items_in_order, norm_in_order};
ghost use Rattle.bson_meaning.specs.declared.scalars.Zeros.{Zeros as AnyZeros};
ghost use Rattle.bson_meaning.specs.Sames.{IsScalar};

use crate::scalars::{Zeros, normal_decimal, normal_double, normal_subtype};
use bson_bytes::put::{
    put_length, write_binary, write_bytes, write_front, write_place, write_regex, write_text,
};
use bson_bytes::write_value;
use bson_frame::Result;
use bson_model::{Bson, Document, ElementType, JavaScriptCodeWithScope, Regex};
use std::alloc::Global;

/// The bytes of a document. `MalformedValue` if a 00 is in a key, a pattern or options, and if the bytes are over
/// 2147483647; `OutOfMemory` if a growth is refused. No key is reported.
pub(crate) fn encode_in_order(zeros: Zeros, alloc: Global, document: &Document) -> Result<Vec<u8>>
    ensures ok { IfOk result (λ b. b.items ≡ encode (norm_members_in_order zeros (content document.now))) }
    ensures fits { OnOk result (CanBeWritten (tree (norm_members_in_order zeros (content document.now)))) }
    ensures refused { IfErr result (IsWriteRefusal (CanBeWritten (tree (norm_members_in_order zeros (content document.now))) → ⊥)) }
{
    let mut out = Vec::new(alloc);
    write_in_order(zeros, document, &mut out)?;
    Ok(out)
}

/// The bytes of the document that has this element alone. Refused as `encode_in_order` is.
pub(crate) fn encode_element_in_order(
    zeros: Zeros,
    alloc: Global,
    name: &str,
    value: &Bson,
) -> Result<Vec<u8>>
    ensures ok { IfOk result (λ b. b.items ≡ encode (alone name.now (norm_in_order zeros (view value.now)))) }
    ensures fits { OnOk result (CanBeWritten (tree (alone name.now (norm_in_order zeros (view value.now))))) }
    ensures refused { IfErr result (IsWriteRefusal (CanBeWritten (tree (alone name.now (norm_in_order zeros (view value.now)))) → ⊥)) }
{
    let mut out = Vec::new(alloc);
    write_element(zeros, name, value, &mut out)?;
    Ok(out)
}

/// Appends a document. Refused as `encode_in_order` is.
#[cycle(in_order)]
fn write_in_order(zeros: Zeros, document: &Document, out: &mut Vec<u8>) -> Result<()>
    ensures ok { OnOk result (out.new.items ≡ out.old.items ++ encode (norm_members_in_order zeros (content document.now))) }
    ensures fits { OnOk result (CanBeWritten (tree (norm_members_in_order zeros (content document.now)))) }
    ensures refused { IfErr result (IsWriteRefusal (CanBeWritten (tree (norm_members_in_order zeros (content document.now))) → ⊥)) }
{
    let start = out.len();
    write_bytes(&[0, 0, 0, 0], out)?;
    write_members(zeros, document, out)?;
    write_bytes(&[0], out)?;
    put_length(out, start)
}

/// Appends the document that has this element alone.
fn write_element(zeros: Zeros, name: &str, value: &Bson, out: &mut Vec<u8>) -> Result<()>
    ensures ok { OnOk result (out.new.items ≡ out.old.items ++ encode (alone name.now (norm_in_order zeros (view value.now)))) }
    ensures fits { OnOk result (CanBeWritten (tree (alone name.now (norm_in_order zeros (view value.now))))) }
    ensures refused { IfErr result (IsWriteRefusal (CanBeWritten (tree (alone name.now (norm_in_order zeros (view value.now)))) → ⊥)) }
{
    let start = out.len();
    write_bytes(&[0, 0, 0, 0], out)?;
    write_front(normal_kind(value), name, out)?;
    write_normal(zeros, value, out)?;
    write_bytes(&[0], out)?;
    put_length(out, start)
}

/// Appends the elements of a document.
#[cycle(in_order)]
fn write_members(zeros: Zeros, document: &Document, out: &mut Vec<u8>) -> Result<()>
    ensures ok { OnOk result (out.new.items ≡ out.old.items ++ members_bytes (norm_members_in_order zeros (content document.now))) }
    ensures plain { OnOk result (IsPlain (tree (norm_members_in_order zeros (content document.now)))) }
    ensures refused { IfErr result (IsWriteRefusal (CanBeWritten (tree (norm_members_in_order zeros (content document.now))) → ⊥)) }
{
    for (key, value) in document.ascending() {
        write_front(normal_kind(value), key.as_str(), out)?;
        write_normal(zeros, value, out)?;
    }
    Ok(())
}

/// Appends an array.
#[cycle(in_order)]
fn write_items(zeros: Zeros, items: &[Bson], out: &mut Vec<u8>) -> Result<()>
    ensures ok { OnOk result (out.new.items ≡ out.old.items ++ frame_of (items_bytes 0 (norm_items_in_order zeros (items_of (map view items.now))))) }
    ensures fits { OnOk result (CanBeWritten (array (norm_items_in_order zeros (items_of (map view items.now))))) }
    ensures refused { IfErr result (IsWriteRefusal (CanBeWritten (array (norm_items_in_order zeros (items_of (map view items.now)))) → ⊥)) }
{
    let start = out.len();
    write_bytes(&[0, 0, 0, 0], out)?;
    for i in 0..items.len() {
        let item = &items[i];
        write_place(normal_kind(item), i, out)?;
        write_normal(zeros, item, out)?;
    }
    write_bytes(&[0], out)?;
    put_length(out, start)
}

/// Appends a code and its scope.
#[cycle(in_order)]
fn write_scoped(zeros: Zeros, code: &JavaScriptCodeWithScope, out: &mut Vec<u8>) -> Result<()>
    ensures ok { OnOk result (out.new.items ≡ out.old.items ++ value_bytes (norm_in_order zeros (scoped_code_tree code.now))) }
    ensures fits { OnOk result (CanBeWritten (norm_in_order zeros (scoped_code_tree code.now))) }
    ensures refused { IfErr result (IsWriteRefusal (CanBeWritten (norm_in_order zeros (scoped_code_tree code.now)) → ⊥)) }
{
    let start = out.len();
    write_bytes(&[0, 0, 0, 0], out)?;
    write_text(code.code.as_str(), out)?;
    write_in_order(zeros, &code.scope, out)?;
    put_length(out, start)
}

/// Appends the payload of a value. It may be too long for a length to hold, if no length counts it.
#[cycle(in_order)]
fn write_normal(zeros: Zeros, value: &Bson, out: &mut Vec<u8>) -> Result<()>
    ensures ok { OnOk result (out.new.items ≡ out.old.items ++ value_bytes (norm_in_order zeros (view value.now))) }
    ensures plain { OnOk result (IsPlain (norm_in_order zeros (view value.now))) }
    ensures refused { IfErr result (IsWriteRefusal (CanBeWritten (norm_in_order zeros (view value.now)) → ⊥)) }
{
    match value {
        Bson::Array(items) => write_items(zeros, items.as_slice(), out),
        Bson::Document(document) => write_in_order(zeros, document, out),
        Bson::JavaScriptCodeWithScope(code) => write_scoped(zeros, code, out),
        scalar => write_scalar(zeros, scalar, out),
    }
}

/// Appends the payload of a scalar.
fn write_scalar(zeros: Zeros, value: &Bson, out: &mut Vec<u8>) -> Result<()>
    requires { IsScalar (view value.now) }
    ensures ok { OnOk result (out.new.items ≡ out.old.items ++ value_bytes (norm_in_order zeros (view value.now))) }
    ensures plain { OnOk result (IsPlain (norm_in_order zeros (view value.now))) }
    ensures refused { IfErr result (IsWriteRefusal (CanBeWritten (norm_in_order zeros (view value.now)) → ⊥)) }
{
    match value {
        Bson::Double(double) => write_value(&Bson::Double(normal_double(zeros, *double)), out),
        Bson::RegularExpression(regex) => write_expression(zeros, regex, out),
        Bson::Binary(binary) => {
            write_binary(normal_subtype(binary.subtype), binary.bytes.as_slice(), out)
        }
        Bson::Decimal128(decimal) => write_value(&Bson::Decimal128(normal_decimal(decimal)), out),
        fixed => write_value(fixed, out),
    }
}

/// Appends a regular expression. A copy of its options is put in order.
fn write_expression(zeros: Zeros, regex: &Regex, out: &mut Vec<u8>) -> Result<()>
    ensures ok { OnOk result (out.new.items ≡ out.old.items ++ value_bytes (norm_in_order zeros (regex_tree regex.now))) }
    ensures plain { OnOk result (IsPlain (norm_in_order zeros (regex_tree regex.now))) }
    ensures refused { IfErr result (IsWriteRefusal (CanBeWritten (norm_in_order zeros (regex_tree regex.now)) → ⊥)) }
{
    let alloc = *out.allocator();
    let options = String::from_str(alloc, regex.options.as_str())?;
    let in_order = Regex::new(alloc, String::new(alloc), options)?;
    write_regex(regex.pattern.as_str(), in_order.options.as_str(), out)
}

/// The kind of a value, which is that of its normal form.
fn normal_kind(value: &Bson) -> ElementType
    ensures { (zeros : AnyZeros) → result ≡ value_kind (norm_in_order zeros (view value.now)) }
{
    value.element_type()
}
