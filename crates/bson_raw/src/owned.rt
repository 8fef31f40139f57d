//! Copies of values that own their bytes.

ghost use Rattle.std.specs.Prelude.{◌≡◌, IfOk, string_bytes};
ghost use Rattle.bson_raw.specs.Buffer.{buffer_bytes};
ghost use Rattle.bson_raw.specs.Copied.{CopyAnswers};
ghost use Rattle.bson_raw.specs.Places.{ArrayGoesOn};
ghost use Rattle.bson_raw.specs.Raw.{ref_value, own_value};
ghost use Rattle.bson_raw.specs.View.{parts_of, bytes_of};

use crate::bson::{RawBson, RawJavaScriptCodeWithScope};
use crate::bson_ref::{RawBsonRef, RawDbPointerRef, RawJavaScriptCodeWithScopeRef, RawRegexRef};
use crate::element::RawElement;
use bson_base::{DbPointer, Regex};
use bson_frame::Error;
use std::alloc::{AllocError, Global};

/// With the options in the order of the bytes.
fn own_regex(alloc: Global, regex: RawRegexRef<'_>) -> Result<Regex, AllocError>
    ensures pattern { IfOk result (λ r. string_bytes r.pattern ≡ regex.entry.pattern.now) }
    ensures options { IfOk result (λ r. string_bytes r.options ≡ regex.entry.options.now) }
{
    let pattern = String::from_str(alloc, regex.pattern)?;
    let options = String::from_str(alloc, regex.options)?;
    Ok(Regex { pattern, options })
}

/// A copy with memory of its own for the namespace. The error is a refused growth.
fn own_pointer(alloc: Global, pointer: RawDbPointerRef<'_>) -> Result<DbPointer, AllocError>
    ensures namespace { IfOk result (λ p. string_bytes p.namespace ≡ pointer.entry.namespace.now) }
    ensures id { IfOk result (λ p. p.id ≡ pointer.entry.id) }
{
    let namespace = String::from_str(alloc, pointer.namespace)?;
    Ok(DbPointer {
        namespace,
        id: pointer.id,
    })
}

/// A copy of the code and of the bytes of its scope, whose elements aren't looked at. The error is a refused growth.
fn own_code(
    alloc: Global,
    code: RawJavaScriptCodeWithScopeRef<'_>,
) -> Result<RawJavaScriptCodeWithScope, AllocError>
    ensures code { IfOk result (λ c. string_bytes c.code ≡ code.entry.code.now) }
    ensures scope { IfOk result (λ c. buffer_bytes c.scope ≡ bytes_of code.entry.scope) }
{
    let scope = code.scope.to_raw_document_buf(alloc)?;
    let code = String::from_str(alloc, code.code)?;
    Ok(RawJavaScriptCodeWithScope { code, scope })
}

impl<'a> RawBsonRef<'a> {
    /// A copy that owns its bytes. The error is a refused growth.
    pub fn to_raw_bson(self, alloc: Global) -> Result<RawBson, AllocError>
        ensures value { IfOk result (λ v. own_value v ≡ ref_value self.entry) }
        ensures place { IfOk result ArrayGoesOn }
    {
        match self {
            RawBsonRef::Double(x) => Ok(RawBson::Double(x)),
            RawBsonRef::String(x) => Ok(RawBson::String(String::from_str(alloc, x)?)),
            RawBsonRef::Array(x) => Ok(RawBson::Array(x.to_raw_array_buf(alloc)?)),
            RawBsonRef::Document(x) => Ok(RawBson::Document(x.to_raw_document_buf(alloc)?)),
            RawBsonRef::Boolean(x) => Ok(RawBson::Boolean(x)),
            RawBsonRef::Null => Ok(RawBson::Null),
            RawBsonRef::RegularExpression(x) => Ok(RawBson::RegularExpression(own_regex(
                alloc, x,
            )?)),
            RawBsonRef::JavaScriptCode(x) => Ok(RawBson::JavaScriptCode(String::from_str(
                alloc, x,
            )?)),
            RawBsonRef::JavaScriptCodeWithScope(x) => Ok(RawBson::JavaScriptCodeWithScope(own_code(
                alloc, x,
            )?)),
            RawBsonRef::Int32(x) => Ok(RawBson::Int32(x)),
            RawBsonRef::Int64(x) => Ok(RawBson::Int64(x)),
            RawBsonRef::Timestamp(x) => Ok(RawBson::Timestamp(x)),
            RawBsonRef::Binary(x) => Ok(RawBson::Binary(x.to_binary(alloc)?)),
            RawBsonRef::ObjectId(x) => Ok(RawBson::ObjectId(x)),
            RawBsonRef::DateTime(x) => Ok(RawBson::DateTime(x)),
            RawBsonRef::Symbol(x) => Ok(RawBson::Symbol(String::from_str(alloc, x)?)),
            RawBsonRef::Decimal128(x) => Ok(RawBson::Decimal128(x)),
            RawBsonRef::Undefined => Ok(RawBson::Undefined),
            RawBsonRef::MaxKey => Ok(RawBson::MaxKey),
            RawBsonRef::MinKey => Ok(RawBson::MinKey),
            RawBsonRef::DbPointer(x) => Ok(RawBson::DbPointer(own_pointer(alloc, x)?)),
        }
    }
}

impl<'a> RawElement<'a> {
    /// A copy of the value that owns its bytes, or the payload fault under its key. Out of memory is reported under no
    /// key.
    pub fn to_raw_bson(&self, alloc: Global) -> Result<RawBson, Error>
        ensures value { CopyAnswers (parts_of self.now) result }
        ensures place { IfOk result ArrayGoesOn }
    {
        Ok(self.value(alloc)?.to_raw_bson(alloc)?)
    }
}
