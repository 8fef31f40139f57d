//! Values that borrow their bytes.

ghost use Rattle.std.specs.Prelude.{◌≡◌, IfOk};

use crate::array::RawArray;
use crate::convert::tree_of;
use crate::document::RawDocument;
use bson_base::{
    Binary, BinarySubtype, DateTime, Decimal128, DoubleBits, ElementType, ObjectId, Timestamp,
};
use bson_frame::Error;
use bson_model::{Bson, STACK_LEVELS};
use std::alloc::{AllocError, Global};

/// Bytes with a subtype (bsonspec.org 1.1, element type 05). Of an old binary the bytes after its inner length.
#[derive(Clone, Copy, Debug, PartialEq)]
pub struct RawBinaryRef<'a> {
    /// What the bytes are.
    pub subtype: BinarySubtype,
    /// The bytes.
    pub bytes: &'a [u8],
}

impl RawBinaryRef<'_> {
    /// A copy with memory of its own. The error is a refused growth.
    pub fn to_binary(self, alloc: Global) -> Result<Binary, AllocError>
        ensures subtype { IfOk result (λ b. b.subtype ≡ self.entry.subtype) }
        ensures bytes { IfOk result (λ b. b.bytes.items ≡ self.entry.bytes.now) }
    {
        Ok(Binary {
            subtype: self.subtype,
            bytes: self.bytes.to_vec(alloc)?,
        })
    }
}

/// A regular expression (bsonspec.org 1.1, element type 0B). Nothing here runs it.
#[derive(Clone, Copy, Debug, PartialEq)]
pub struct RawRegexRef<'a> {
    /// What it matches.
    pub pattern: &'a str,
    /// Its options, one character each, in the order of the bytes.
    pub options: &'a str,
}

/// JavaScript code with a scope (bsonspec.org 1.1, element type 0F).
#[derive(Clone, Copy, Debug, PartialEq)]
pub struct RawJavaScriptCodeWithScopeRef<'a> {
    /// The code.
    pub code: &'a str,
    /// The variables that it sees.
    pub scope: RawDocument<'a>,
}

/// A pointer to a document of a collection (bsonspec.org 1.1, element type 0C, deprecated there).
#[derive(Clone, Copy, Debug, PartialEq)]
pub struct RawDbPointerRef<'a> {
    /// The name of the collection.
    pub namespace: &'a str,
    /// The `_id` of the document.
    pub id: ObjectId,
}

/// A value that borrows its bytes (bsonspec.org 1.1, "element"). Two are equal if they are of one kind and their
/// bytes and numbers are equal.
#[derive(Clone, Copy, Debug, PartialEq)]
pub enum RawBsonRef<'a> {
    /// A double, as its pattern (element type 01).
    Double(DoubleBits),
    /// A text (02).
    String(&'a str),
    /// An array (04).
    Array(RawArray<'a>),
    /// A document (03).
    Document(RawDocument<'a>),
    /// A boolean (08).
    Boolean(bool),
    /// Null (0A).
    Null,
    /// A regular expression (0B).
    RegularExpression(RawRegexRef<'a>),
    /// JavaScript code (0D).
    JavaScriptCode(&'a str),
    /// JavaScript code with a scope (0F).
    JavaScriptCodeWithScope(RawJavaScriptCodeWithScopeRef<'a>),
    /// An integer of 32 bits (10).
    Int32(i32),
    /// An integer of 64 bits (12).
    Int64(i64),
    /// A timestamp (11).
    Timestamp(Timestamp),
    /// Bytes with a subtype (05).
    Binary(RawBinaryRef<'a>),
    /// An object id (07).
    ObjectId(ObjectId),
    /// A moment (09).
    DateTime(DateTime),
    /// A symbol (0E).
    Symbol(&'a str),
    /// A decimal number of 128 bits (13).
    Decimal128(Decimal128),
    /// Undefined (06).
    Undefined,
    /// The greatest key (7F).
    MaxKey,
    /// The least key (FF).
    MinKey,
    /// A pointer to a document of a collection (0C).
    DbPointer(RawDbPointerRef<'a>),
}

impl<'a> RawBsonRef<'a> {
    ghost use Rattle.bson_raw.specs.Raw.{raw_kind, ref_value};
    ghost use Rattle.bson_raw.specs.ReadValue.{as_f64, as_str, as_array, as_document, as_bool, as_regex, as_javascript, as_javascript_with_scope, as_i32, as_i64, as_timestamp, as_binary, as_object_id, as_datetime, as_symbol, as_db_pointer, as_null};

    /// The kind of the value.
    pub fn element_type(&self) -> ElementType
        ensures { result ≡ raw_kind (ref_value self.now) }
    {
        match self {
            RawBsonRef::Double(_) => ElementType::Double,
            RawBsonRef::String(_) => ElementType::String,
            RawBsonRef::Array(_) => ElementType::Array,
            RawBsonRef::Document(_) => ElementType::EmbeddedDocument,
            RawBsonRef::Boolean(_) => ElementType::Boolean,
            RawBsonRef::Null => ElementType::Null,
            RawBsonRef::RegularExpression(_) => ElementType::RegularExpression,
            RawBsonRef::JavaScriptCode(_) => ElementType::JavaScriptCode,
            RawBsonRef::JavaScriptCodeWithScope(_) => ElementType::JavaScriptCodeWithScope,
            RawBsonRef::Int32(_) => ElementType::Int32,
            RawBsonRef::Int64(_) => ElementType::Int64,
            RawBsonRef::Timestamp(_) => ElementType::Timestamp,
            RawBsonRef::Binary(_) => ElementType::Binary,
            RawBsonRef::ObjectId(_) => ElementType::ObjectId,
            RawBsonRef::DateTime(_) => ElementType::DateTime,
            RawBsonRef::Symbol(_) => ElementType::Symbol,
            RawBsonRef::Decimal128(_) => ElementType::Decimal128,
            RawBsonRef::Undefined => ElementType::Undefined,
            RawBsonRef::MaxKey => ElementType::MaxKey,
            RawBsonRef::MinKey => ElementType::MinKey,
            RawBsonRef::DbPointer(_) => ElementType::DbPointer,
        }
    }

    /// The value, if it is a double.
    pub fn as_f64(self) -> Option<DoubleBits>
        ensures { result ≡ as_f64 self.entry }
    {
        match self {
            RawBsonRef::Double(value) => Some(value),
            _ => None,
        }
    }

    /// The value, if it is a text.
    pub fn as_str(self) -> Option<&'a str>
        ensures { result ≡ as_str self.entry }
    {
        match self {
            RawBsonRef::String(value) => Some(value),
            _ => None,
        }
    }

    /// The value, if it is an array.
    pub fn as_array(self) -> Option<RawArray<'a>>
        ensures { result ≡ as_array self.entry }
    {
        match self {
            RawBsonRef::Array(value) => Some(value),
            _ => None,
        }
    }

    /// The value, if it is a document.
    pub fn as_document(self) -> Option<RawDocument<'a>>
        ensures { result ≡ as_document self.entry }
    {
        match self {
            RawBsonRef::Document(value) => Some(value),
            _ => None,
        }
    }

    /// The value, if it is a boolean.
    pub fn as_bool(self) -> Option<bool>
        ensures { result ≡ as_bool self.entry }
    {
        match self {
            RawBsonRef::Boolean(value) => Some(value),
            _ => None,
        }
    }

    /// The value, if it is an integer of 32 bits.
    pub fn as_i32(self) -> Option<i32>
        ensures { result ≡ as_i32 self.entry }
    {
        match self {
            RawBsonRef::Int32(value) => Some(value),
            _ => None,
        }
    }

    /// The value, if it is an integer of 64 bits.
    pub fn as_i64(self) -> Option<i64>
        ensures { result ≡ as_i64 self.entry }
    {
        match self {
            RawBsonRef::Int64(value) => Some(value),
            _ => None,
        }
    }

    /// The value, if it is an object id.
    pub fn as_object_id(self) -> Option<ObjectId>
        ensures { result ≡ as_object_id self.entry }
    {
        match self {
            RawBsonRef::ObjectId(value) => Some(value),
            _ => None,
        }
    }

    /// The value, if it is a binary value.
    pub fn as_binary(self) -> Option<RawBinaryRef<'a>>
        ensures { result ≡ as_binary self.entry }
    {
        match self {
            RawBsonRef::Binary(value) => Some(value),
            _ => None,
        }
    }

    /// The value, if it is a regular expression.
    pub fn as_regex(self) -> Option<RawRegexRef<'a>>
        ensures { result ≡ as_regex self.entry }
    {
        match self {
            RawBsonRef::RegularExpression(value) => Some(value),
            _ => None,
        }
    }

    /// The value, if it is a moment.
    pub fn as_datetime(self) -> Option<DateTime>
        ensures { result ≡ as_datetime self.entry }
    {
        match self {
            RawBsonRef::DateTime(value) => Some(value),
            _ => None,
        }
    }

    /// The value, if it is a symbol.
    pub fn as_symbol(self) -> Option<&'a str>
        ensures { result ≡ as_symbol self.entry }
    {
        match self {
            RawBsonRef::Symbol(value) => Some(value),
            _ => None,
        }
    }

    /// The value, if it is a timestamp.
    pub fn as_timestamp(self) -> Option<Timestamp>
        ensures { result ≡ as_timestamp self.entry }
    {
        match self {
            RawBsonRef::Timestamp(value) => Some(value),
            _ => None,
        }
    }

    /// Whether it is null.
    pub fn as_null(self) -> Option<()>
        ensures { result ≡ as_null self.entry }
    {
        match self {
            RawBsonRef::Null => Some(()),
            _ => None,
        }
    }

    /// The value, if it is a pointer.
    pub fn as_db_pointer(self) -> Option<RawDbPointerRef<'a>>
        ensures { result ≡ as_db_pointer self.entry }
    {
        match self {
            RawBsonRef::DbPointer(value) => Some(value),
            _ => None,
        }
    }

    /// The value, if it is code without a scope.
    pub fn as_javascript(self) -> Option<&'a str>
        ensures { result ≡ as_javascript self.entry }
    {
        match self {
            RawBsonRef::JavaScriptCode(value) => Some(value),
            _ => None,
        }
    }

    /// The value, if it is code with a scope.
    pub fn as_javascript_with_scope(self) -> Option<RawJavaScriptCodeWithScopeRef<'a>>
        ensures { result ≡ as_javascript_with_scope self.entry }
    {
        match self {
            RawBsonRef::JavaScriptCodeWithScope(value) => Some(value),
            _ => None,
        }
    }
}

/// To a tree.
impl RawBsonRef<'_> {
    ghost use Rattle.std.specs.Prelude.{IfErr};
    ghost use Rattle.bson_base.specs.Value.{Value};
    ghost use Rattle.bson_raw.specs.Convert.{ConvertsValue, SpellsRawValue, TellsFault};
    ghost use Rattle.bson_raw.specs.Raw.{ref_value};

    /// The tree of the value: documents, arrays and scopes inside are converted, and the options of a regular
    /// expression put into the order of their characters.
    ///
    /// Errors are those of `RawDocument::to_document`: the first fault at any depth, or `OutOfMemory`. A value that is
    /// a document, an array or a code with scope counts as a level.
    pub fn to_bson(self, alloc: Global) -> Result<Bson, Error>
        ensures tree { ConvertsValue (ref_value self.entry) result }
        ensures none { IfErr result (TellsFault (λ _ _. (v : Value) → SpellsRawValue (ref_value self.entry) v → ⊥)) }
    {
        bson_frame::laws::one_first_frame();
        tree_of(alloc, self, STACK_LEVELS)
    }
}
