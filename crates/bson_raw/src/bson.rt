//! Values that own their bytes.

ghost use Rattle.std.specs.Prelude.{◌≡◌, IfOk, is_some, string_bytes};
ghost use Rattle.std.specs.Option.{option_map};
ghost use Rattle.std.specs.Borrow.{LendsIf, sem};
ghost use Rattle.bson_base.specs.Scalars.{id_bytes, millis_of};
ghost use Rattle.bson_base.specs.Value.{string, binary};
ghost use Rattle.bson_base.specs.VectorBytes.{vector_bytes};
ghost use Rattle.bson_base.specs.Vectors.{vector_value};
ghost use Rattle.bson_model.specs.Accessors as kinds;
ghost use Rattle.bson_raw.specs.Buffer.{buffer_bytes, array_buffer_bytes};
ghost use Rattle.bson_raw.specs.Places.{SamePlace};
ghost use Rattle.bson_raw.specs.Raw.{ref_value, own_value, raw_kind, leaf, scoped_code, of_leaf, array_in, document_in, scoped_in, binary_in, regex_in, null_in, code_scalar};
ghost use Rattle.bson_raw.specs.View.{bytes_of, array_bytes};

use crate::array::RawArray;
use crate::array_buf::RawArrayBuf;
use crate::bson_ref::{
    RawBinaryRef, RawBsonRef, RawDbPointerRef, RawJavaScriptCodeWithScopeRef, RawRegexRef,
};
use crate::document::RawDocument;
use crate::document_buf::RawDocumentBuf;
use bson_base::binary::Vector;
use bson_base::{
    Binary, BinarySubtype, DateTime, DbPointer, Decimal128, DoubleBits, ElementType, ObjectId,
    Regex, Timestamp,
};
use std::alloc::{AllocError, Global};

/// JavaScript code with a scope (bsonspec.org 1.1, element type 0F).
#[derive(Debug, PartialEq, Drop)]
pub struct RawJavaScriptCodeWithScope {
    /// The code.
    pub code: String,
    /// The variables that it sees.
    pub scope: RawDocumentBuf,
}

/// A value that owns its bytes (bsonspec.org 1.1, "element"). Two are equal if they are of one kind and their bytes
/// and numbers are equal.
#[derive(Debug, PartialEq, Drop)]
pub enum RawBson {
    /// A double, as its pattern (element type 01).
    Double(DoubleBits),
    /// A text (02).
    String(String),
    /// An array (04).
    Array(RawArrayBuf),
    /// A document (03).
    Document(RawDocumentBuf),
    /// A boolean (08).
    Boolean(bool),
    /// Null (0A).
    Null,
    /// A regular expression (0B).
    RegularExpression(Regex),
    /// JavaScript code (0D).
    JavaScriptCode(String),
    /// JavaScript code with a scope (0F).
    JavaScriptCodeWithScope(RawJavaScriptCodeWithScope),
    /// An integer of 32 bits (10).
    Int32(i32),
    /// An integer of 64 bits (12).
    Int64(i64),
    /// A timestamp (11).
    Timestamp(Timestamp),
    /// Bytes with a subtype (05).
    Binary(Binary),
    /// An object id (07).
    ObjectId(ObjectId),
    /// A moment (09).
    DateTime(DateTime),
    /// A symbol (0E).
    Symbol(String),
    /// A decimal number of 128 bits (13).
    Decimal128(Decimal128),
    /// Undefined (06).
    Undefined,
    /// The greatest key (7F).
    MaxKey,
    /// The least key (FF).
    MinKey,
    /// A pointer to a document of a collection (0C).
    DbPointer(DbPointer),
}

impl RawJavaScriptCodeWithScope {
    /// A copy with memory of its own. The error is a refused growth.
    pub fn try_clone(&self, alloc: Global) -> Result<RawJavaScriptCodeWithScope, AllocError>
        ensures code { IfOk result (λ c. string_bytes c.code ≡ string_bytes self.now.code) }
        ensures scope { IfOk result (λ c. buffer_bytes c.scope ≡ buffer_bytes self.now.scope) }
    {
        let scope = self.scope.as_ref().to_raw_document_buf(alloc)?;
        let code = String::from_str(alloc, &self.code)?;
        Ok(RawJavaScriptCodeWithScope { code, scope })
    }

    /// The view of the code and its scope. Takes no memory.
    fn as_ref(&self) -> RawJavaScriptCodeWithScopeRef<'_>
        ensures { scoped_code result.code.now (bytes_of result.scope) ≡ scoped_code (string_bytes self.now.code) (buffer_bytes self.now.scope) }
    {
        RawJavaScriptCodeWithScopeRef {
            code: self.code.as_str(),
            scope: self.scope.as_ref(),
        }
    }
}

/// The view of a binary value.
pub fn raw_binary_of(binary: &Binary) -> RawBinaryRef<'_>
    ensures subtype { result.subtype ≡ binary.now.subtype }
    ensures bytes { result.bytes.now ≡ binary.now.bytes.items }
{
    RawBinaryRef {
        subtype: binary.subtype,
        bytes: binary.bytes.as_slice(),
    }
}

/// The view of a regular expression, its options in the order that they are kept in.
fn regex_ref(regex: &Regex) -> RawRegexRef<'_>
    ensures pattern { result.pattern.now ≡ string_bytes regex.now.pattern }
    ensures options { result.options.now ≡ string_bytes regex.now.options }
{
    RawRegexRef {
        pattern: regex.pattern.as_str(),
        options: regex.options.as_str(),
    }
}

/// The view of a pointer to a document of a collection.
fn pointer_ref(pointer: &DbPointer) -> RawDbPointerRef<'_>
    ensures namespace { result.namespace.now ≡ string_bytes pointer.now.namespace }
    ensures id { result.id ≡ pointer.now.id }
{
    RawDbPointerRef {
        namespace: pointer.namespace.as_str(),
        id: pointer.id,
    }
}

impl RawBson {
    ghost use Rattle.bson_raw.specs.contracts.bson.RawBson.{the_row};
    ghost use Rattle.bson_raw.specs.contracts.array_buf.RawArrayBuf.{the_row as array_row};
    ghost use Rattle.bson_raw.specs.contracts.document_buf.RawDocumentBuf.{the_row as document_row};
    ghost use Rattle.bson_raw.specs.declared.bson.RawBson.TheVariants as raw;

    /// A text, copied. The error is a refused growth.
    pub fn from_text(alloc: Global, text: &str) -> Result<RawBson, AllocError>
        ensures { IfOk result (λ v. own_value v ≡ leaf (string text.now)) }
    {
        Ok(RawBson::String(String::from_str(alloc, text)?))
    }

    /// A vector as a binary value of subtype Vector (bsonspec.org 1.1, subtype 09). The error is a refused growth.
    pub fn from_vector(alloc: Global, vector: &Vector) -> Result<RawBson, AllocError>
        ensures { IfOk result (λ v. own_value v ≡ leaf (binary BinarySubtype.Vector (vector_bytes (vector_value vector.now)))) }
    {
        Ok(RawBson::Binary(Binary::from_vector(alloc, vector)?))
    }

    /// A copy with memory of its own. The error is a refused growth.
    pub fn try_clone(&self, alloc: Global) -> Result<RawBson, AllocError>
        ensures value { IfOk result (λ v. own_value v ≡ own_value self.now) }
        ensures place { IfOk result (SamePlace self.now) }
    {
        match self {
            RawBson::Array(array) => Ok(RawBson::Array(array.try_clone()?)),
            other => other.as_raw_bson_ref().to_raw_bson(alloc),
        }
    }

    /// The view of the value.
    pub fn as_raw_bson_ref(&self) -> RawBsonRef<'_>
        ensures { ref_value result ≡ own_value self.now }
    {
        match self {
            RawBson::Double(x) => RawBsonRef::Double(*x),
            RawBson::String(s) => RawBsonRef::String(s.as_str()),
            RawBson::Array(a) => RawBsonRef::Array(a.as_ref()),
            RawBson::Document(d) => RawBsonRef::Document(d.as_ref()),
            RawBson::Boolean(x) => RawBsonRef::Boolean(*x),
            RawBson::Null => RawBsonRef::Null,
            RawBson::RegularExpression(r) => RawBsonRef::RegularExpression(regex_ref(r)),
            RawBson::JavaScriptCode(s) => RawBsonRef::JavaScriptCode(s.as_str()),
            RawBson::JavaScriptCodeWithScope(c) => RawBsonRef::JavaScriptCodeWithScope(c.as_ref()),
            RawBson::Int32(x) => RawBsonRef::Int32(*x),
            RawBson::Int64(x) => RawBsonRef::Int64(*x),
            RawBson::Timestamp(x) => RawBsonRef::Timestamp(*x),
            RawBson::Binary(b) => RawBsonRef::Binary(raw_binary_of(b)),
            RawBson::ObjectId(x) => RawBsonRef::ObjectId(*x),
            RawBson::DateTime(x) => RawBsonRef::DateTime(*x),
            RawBson::Symbol(s) => RawBsonRef::Symbol(s.as_str()),
            RawBson::Decimal128(x) => RawBsonRef::Decimal128(*x),
            RawBson::Undefined => RawBsonRef::Undefined,
            RawBson::MaxKey => RawBsonRef::MaxKey,
            RawBson::MinKey => RawBsonRef::MinKey,
            RawBson::DbPointer(p) => RawBsonRef::DbPointer(pointer_ref(p)),
        }
    }

    /// The kind of the value.
    pub fn element_type(&self) -> ElementType
        ensures { result ≡ raw_kind (own_value self.now) }
    {
        self.as_raw_bson_ref().element_type()
    }

    /// The value, if it is a double.
    pub fn as_f64(&self) -> Option<DoubleBits>
        ensures { option_map (λ d. d.0) result ≡ of_leaf kinds.scalar_f64 (own_value self.now) }
    {
        self.as_raw_bson_ref().as_f64()
    }

    /// The value, if it is a text.
    pub fn as_str(&self) -> Option<&str>
        ensures { option_map (λ s. s.now) result ≡ of_leaf kinds.scalar_str (own_value self.now) }
    {
        self.as_raw_bson_ref().as_str()
    }

    /// The value, if it is an array.
    pub fn as_array(&self) -> Option<RawArray<'_>>
        ensures { option_map array_bytes result ≡ array_in (own_value self.now) }
    {
        self.as_raw_bson_ref().as_array()
    }

    /// The value, if it is a document.
    pub fn as_document(&self) -> Option<RawDocument<'_>>
        ensures { option_map bytes_of result ≡ document_in (own_value self.now) }
    {
        self.as_raw_bson_ref().as_document()
    }

    /// The value, if it is a boolean.
    pub fn as_bool(&self) -> Option<bool>
        ensures { result ≡ of_leaf kinds.scalar_bool (own_value self.now) }
    {
        self.as_raw_bson_ref().as_bool()
    }

    /// The value, if it is an integer of 32 bits.
    pub fn as_i32(&self) -> Option<i32>
        ensures { result ≡ of_leaf kinds.scalar_i32 (own_value self.now) }
    {
        self.as_raw_bson_ref().as_i32()
    }

    /// The value, if it is an integer of 64 bits.
    pub fn as_i64(&self) -> Option<i64>
        ensures { result ≡ of_leaf kinds.scalar_i64 (own_value self.now) }
    {
        self.as_raw_bson_ref().as_i64()
    }

    /// The value, if it is an object id.
    pub fn as_object_id(&self) -> Option<ObjectId>
        ensures { option_map id_bytes result ≡ of_leaf kinds.scalar_object_id (own_value self.now) }
    {
        self.as_raw_bson_ref().as_object_id()
    }

    /// The value, if it is a binary value.
    pub fn as_binary(&self) -> Option<RawBinaryRef<'_>>
        ensures { option_map (λ b. (b.subtype, b.bytes.now)) result ≡ of_leaf binary_in (own_value self.now) }
    {
        self.as_raw_bson_ref().as_binary()
    }

    /// The value, if it is a regular expression.
    pub fn as_regex(&self) -> Option<RawRegexRef<'_>>
        ensures { option_map (λ r. (r.pattern.now, r.options.now)) result ≡ of_leaf regex_in (own_value self.now) }
    {
        self.as_raw_bson_ref().as_regex()
    }

    /// The value, if it is a moment.
    pub fn as_datetime(&self) -> Option<DateTime>
        ensures { option_map millis_of result ≡ of_leaf kinds.scalar_datetime (own_value self.now) }
    {
        self.as_raw_bson_ref().as_datetime()
    }

    /// The value, if it is a symbol.
    pub fn as_symbol(&self) -> Option<&str>
        ensures { option_map (λ s. s.now) result ≡ of_leaf kinds.scalar_symbol (own_value self.now) }
    {
        self.as_raw_bson_ref().as_symbol()
    }

    /// The value, if it is a timestamp.
    pub fn as_timestamp(&self) -> Option<Timestamp>
        ensures { option_map (λ t. (t.time, t.increment)) result ≡ of_leaf kinds.scalar_timestamp (own_value self.now) }
    {
        self.as_raw_bson_ref().as_timestamp()
    }

    /// Whether it is null.
    pub fn as_null(&self) -> Option<()>
        ensures { result ≡ of_leaf null_in (own_value self.now) }
    {
        self.as_raw_bson_ref().as_null()
    }

    /// The value, if it is a pointer.
    pub fn as_db_pointer(&self) -> Option<RawDbPointerRef<'_>>
        ensures { option_map (λ p. (p.namespace.now, id_bytes p.id)) result ≡ of_leaf kinds.scalar_db_pointer (own_value self.now) }
    {
        self.as_raw_bson_ref().as_db_pointer()
    }

    /// The value, if it is code without a scope.
    pub fn as_javascript(&self) -> Option<&str>
        ensures { option_map (λ s. s.now) result ≡ of_leaf code_scalar (own_value self.now) }
    {
        self.as_raw_bson_ref().as_javascript()
    }

    /// The value, if it is code with a scope.
    pub fn as_javascript_with_scope(&self) -> Option<RawJavaScriptCodeWithScopeRef<'_>>
        ensures { option_map (λ c. (c.code.now, bytes_of c.scope)) result ≡ scoped_in (own_value self.now) }
    {
        self.as_raw_bson_ref().as_javascript_with_scope()
    }

    /// The array, if it is one, to be written to.
    pub fn as_array_mut(&mut self) -> Option<&mut RawArrayBuf>
        ensures* writes_back { sem 𝓛 (LendsIf the_row array_row self.entry result raw.Array self.old) }
        ensures value { option_map (λ a. array_buffer_bytes a.now) result ≡ array_in (own_value self.old) }
    {
        if let RawBson::Array(value) = self {
            Some(value)
        } else {
            None
        }
    }

    /// The document, if it is one, to be written to.
    pub fn as_document_mut(&mut self) -> Option<&mut RawDocumentBuf>
        ensures* writes_back { sem 𝓛 (LendsIf the_row document_row self.entry result raw.Document self.old) }
        ensures value { option_map (λ d. buffer_bytes d.now) result ≡ document_in (own_value self.old) }
    {
        if let RawBson::Document(value) = self {
            Some(value)
        } else {
            None
        }
    }
}
