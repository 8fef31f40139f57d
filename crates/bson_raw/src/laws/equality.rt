//! Laws of `==`: views, buffers and errors are equal if all that they show is equal.

ghost use Rattle.std.specs.Prelude.{◌≡◌, ◌↔◌, IsTrue, string_bytes};
ghost use Rattle.bson_base.specs.Scalars.{id_bytes};
ghost use Rattle.bson_raw.specs.Buffer.{buffer_bytes, array_buffer_bytes};
ghost use Rattle.bson_raw.specs.Raw.{ref_value, own_value};
ghost use Rattle.bson_raw.specs.Refusals.{reading_refusal, writing_refusal};
ghost use Rattle.bson_raw.specs.View.{array_bytes, bytes_of};
ghost use Rattle.bson_raw.specs.declared.array.RawArray.{RawArray as AnyArray};
ghost use Rattle.bson_raw.specs.declared.array_buf.RawArrayBuf.{RawArrayBuf as AnyArrayBuffer};
ghost use Rattle.bson_raw.specs.declared.bson.RawBson.{RawBson as AnyOwned};
ghost use Rattle.bson_raw.specs.declared.bson.RawJavaScriptCodeWithScope.{RawJavaScriptCodeWithScope as AnyOwnedCode};
ghost use Rattle.bson_raw.specs.declared.bson_ref.RawBinaryRef.{RawBinaryRef as AnyBinaryRef};
ghost use Rattle.bson_raw.specs.declared.bson_ref.RawBsonRef.{RawBsonRef as AnyValue};
ghost use Rattle.bson_raw.specs.declared.bson_ref.RawDbPointerRef.{RawDbPointerRef as AnyPointerRef};
ghost use Rattle.bson_raw.specs.declared.bson_ref.RawJavaScriptCodeWithScopeRef.{RawJavaScriptCodeWithScopeRef as AnyCodeRef};
ghost use Rattle.bson_raw.specs.declared.bson_ref.RawRegexRef.{RawRegexRef as AnyRegexRef};
ghost use Rattle.bson_raw.specs.declared.document.RawDocument.{RawDocument as AnyDocument};
ghost use Rattle.bson_raw.specs.declared.document_buf.RawDocumentBuf.{RawDocumentBuf as AnyDocumentBuffer};
ghost use Rattle.bson_raw.specs.declared.read_error.ReadError.{ReadError as AnyReadError};
ghost use Rattle.bson_raw.specs.declared.write_error.WriteError.{WriteError as AnyWriteError};

use crate::array::RawArray;
use crate::array_buf::RawArrayBuf;
use crate::bson::{RawBson, RawJavaScriptCodeWithScope};
use crate::bson_ref::{
    RawBinaryRef, RawBsonRef, RawDbPointerRef, RawJavaScriptCodeWithScopeRef, RawRegexRef,
};
use crate::document::RawDocument;
use crate::document_buf::RawDocumentBuf;
use crate::read_error::ReadError;
use crate::write_error::WriteError;

/// Documents and arrays are equal if their bytes are, whether they borrow or own them.
pub fn equal_documents()
    ensures documents { (x y : AnyDocument) → IsTrue (⟦<RawDocument<'static> as PartialEq>⟧.eq x y) ↔ (bytes_of x ≡ bytes_of y) }
    ensures arrays { (x y : AnyArray) → IsTrue (⟦<RawArray<'static> as PartialEq>⟧.eq x y) ↔ (array_bytes x ≡ array_bytes y) }
    ensures document_buffers { (x y : AnyDocumentBuffer) → IsTrue (⟦<RawDocumentBuf as PartialEq>⟧.eq x y) ↔ (buffer_bytes x ≡ buffer_bytes y) }
    ensures array_buffers { (x y : AnyArrayBuffer) → IsTrue (⟦<RawArrayBuf as PartialEq>⟧.eq x y) ↔ (array_buffer_bytes x ≡ array_buffer_bytes y) }
{}

/// Binary values, regular expressions, pointers and code with a scope are equal if all their parts are.
pub fn equal_parts()
    ensures binaries { (x y : AnyBinaryRef) → IsTrue (⟦<RawBinaryRef<'static> as PartialEq>⟧.eq x y) ↔ ((x.subtype ≡ y.subtype) × (x.bytes.now ≡ y.bytes.now)) }
    ensures expressions { (x y : AnyRegexRef) → IsTrue (⟦<RawRegexRef<'static> as PartialEq>⟧.eq x y)
        ↔ ((x.pattern.now ≡ y.pattern.now) × (x.options.now ≡ y.options.now)) }
    ensures pointers { (x y : AnyPointerRef) → IsTrue (⟦<RawDbPointerRef<'static> as PartialEq>⟧.eq x y)
        ↔ ((x.namespace.now ≡ y.namespace.now) × (id_bytes x.id ≡ id_bytes y.id)) }
    ensures scoped_code { (x y : AnyCodeRef) → IsTrue (⟦<RawJavaScriptCodeWithScopeRef<'static> as PartialEq>⟧.eq x y)
        ↔ ((x.code.now ≡ y.code.now) × (bytes_of x.scope ≡ bytes_of y.scope)) }
    ensures owned_code { (x y : AnyOwnedCode) → IsTrue (⟦<RawJavaScriptCodeWithScope as PartialEq>⟧.eq x y)
        ↔ ((string_bytes x.code ≡ string_bytes y.code) × (buffer_bytes x.scope ≡ buffer_bytes y.scope)) }
{}

/// Values are equal if they are of one kind and show the same.
pub fn equal_values()
    ensures borrowed { (x y : AnyValue) → IsTrue (⟦<RawBsonRef<'static> as PartialEq>⟧.eq x y) ↔ (ref_value x ≡ ref_value y) }
    ensures owned { (x y : AnyOwned) → IsTrue (⟦<RawBson as PartialEq>⟧.eq x y) ↔ (own_value x ≡ own_value y) }
{
    bson_base::laws::equal_scalars();
}

/// Errors are equal if they report the same.
pub fn equal_errors()
    ensures reading { (x y : AnyReadError) → IsTrue (⟦<ReadError as PartialEq>⟧.eq x y) ↔ (reading_refusal x ≡ reading_refusal y) }
    ensures writing { (x y : AnyWriteError) → IsTrue (⟦<WriteError as PartialEq>⟧.eq x y) ↔ (writing_refusal x ≡ writing_refusal y) }
{
    bson_frame::laws::equal_errors();
}
