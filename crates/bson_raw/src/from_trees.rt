//! Trees that are written into buffers.

ghost use Rattle.std.specs.Prelude.{◌≡◌, IfOk, IfErr, OnOk, MatchResult, drop};
ghost use Rattle.bson_bytes.specs.Encode.{encode};
ghost use Rattle.bson_bytes.specs.Writing.{CanBeWritten, IsWriteRefusal};
ghost use Rattle.bson_bytes.specs.Spells.{Means, IsFaulty};
ghost use Rattle.bson_model.specs.View.{view, content};
ghost use Rattle.bson_model.specs.Trees.{document_tree};
ghost use Rattle.bson_raw.specs.Buffer.{buffer_bytes};
ghost use Rattle.bson_raw.specs.Convert.{HasFault, TellsFault};
ghost use Rattle.bson_raw.specs.Places.{ArrayGoesOn};
ghost use Rattle.bson_raw.specs.Raw.{own_value};
ghost use Rattle.bson_raw.specs.Trees.{raw_of, CanBeRaw, ConvertsOwned};

use crate::array_buf::RawArrayBuf;
use crate::bson::{RawBson, RawJavaScriptCodeWithScope};
use crate::document_buf::RawDocumentBuf;
use bson_bytes::{encode_document, encode_items};
use bson_frame::Error;
use bson_model::{Bson, Document};
use std::alloc::Global;

impl RawDocumentBuf {
    /// The written form of a document (bsonspec.org 1.1, "document").
    ///
    /// `MalformedValue`, under no key, if a 00 is in a key, a pattern or options, and if the bytes would be over
    /// 2147483647; `OutOfMemory` if a growth is refused.
    pub fn from_document(alloc: Global, document: &Document) -> Result<RawDocumentBuf, Error>
        ensures ok { IfOk result (λ d. buffer_bytes d ≡ encode (content document.now)) }
        ensures fits { OnOk result (CanBeWritten (document_tree document.now)) }
        ensures refused { IfErr result (IsWriteRefusal (CanBeWritten (document_tree document.now) → ⊥)) }
    {
        let bytes = encode_document(alloc, document)?;
        Ok(RawDocumentBuf { bytes })
    }

    /// The document that the bytes mean, as `RawDocument::to_document` gives it, and its errors.
    pub fn to_document(&self) -> Result<Document, Error>
        ensures tree { MatchResult result (λ d. Means (buffer_bytes self.now) (content d))
            (TellsFault (HasFault (drop 4 (buffer_bytes self.now)))) }
        ensures none { IfErr result (TellsFault (λ _ _. IsFaulty (buffer_bytes self.now))) }
    {
        self.as_ref().to_document(*self.bytes.allocator())
    }
}

impl RawBson {
    /// The value, with what is inside written.
    ///
    /// `MalformedValue`, under no key, if a 00 is in a key, a pattern or options inside, and if an array, a
    /// document or a scope would be over 2147483647 bytes; `OutOfMemory` if a growth is refused.
    pub fn from_bson(alloc: Global, value: Bson) -> Result<RawBson, Error>
        ensures ok { IfOk result (λ v. own_value v ≡ raw_of (view value)) }
        ensures place { IfOk result ArrayGoesOn }
        ensures fits { OnOk result (CanBeRaw (view value)) }
        ensures refused { IfErr result (IsWriteRefusal (CanBeRaw (view value) → ⊥)) }
    {
        match value {
            Bson::Double(x) => Ok(RawBson::Double(x)),
            Bson::String(x) => Ok(RawBson::String(x)),
            Bson::Array(items) => {
                let bytes = encode_items(alloc, &items)?;
                let document = RawDocumentBuf { bytes };
                Ok(RawBson::Array(RawArrayBuf::of_document(document)))
            }
            Bson::Document(document) => {
                Ok(RawBson::Document(RawDocumentBuf::from_document(alloc, &document)?))
            }
            Bson::Boolean(x) => Ok(RawBson::Boolean(x)),
            Bson::Null => Ok(RawBson::Null),
            Bson::RegularExpression(x) => Ok(RawBson::RegularExpression(x)),
            Bson::JavaScriptCode(x) => Ok(RawBson::JavaScriptCode(x)),
            Bson::JavaScriptCodeWithScope(x) => {
                let scope = RawDocumentBuf::from_document(alloc, &x.scope)?;
                Ok(RawBson::JavaScriptCodeWithScope(RawJavaScriptCodeWithScope {
                    code: x.code,
                    scope,
                }))
            }
            Bson::Int32(x) => Ok(RawBson::Int32(x)),
            Bson::Int64(x) => Ok(RawBson::Int64(x)),
            Bson::Timestamp(x) => Ok(RawBson::Timestamp(x)),
            Bson::Binary(x) => Ok(RawBson::Binary(x)),
            Bson::ObjectId(x) => Ok(RawBson::ObjectId(x)),
            Bson::DateTime(x) => Ok(RawBson::DateTime(x)),
            Bson::Symbol(x) => Ok(RawBson::Symbol(x)),
            Bson::Decimal128(x) => Ok(RawBson::Decimal128(x)),
            Bson::Undefined => Ok(RawBson::Undefined),
            Bson::MaxKey => Ok(RawBson::MaxKey),
            Bson::MinKey => Ok(RawBson::MinKey),
            Bson::DbPointer(x) => Ok(RawBson::DbPointer(x)),
        }
    }

    /// The tree of the value, as `RawBsonRef::to_bson` gives it, and its errors.
    pub fn to_bson(&self, alloc: Global) -> Result<Bson, Error>
        ensures { ConvertsOwned self.now result }
    {
        self.as_raw_bson_ref().to_bson(alloc)
    }
}
