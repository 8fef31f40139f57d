//! BSON (bsonspec.org 1.1), with the names and modules of the Rust crate `bson` 2.15.0: values, documents, Extended
//! JSON and raw documents. Nothing is written here: each name is one of the crates below, whose page has its contract.
#![tactic(auto)]

pub use bson_meaning as meaning;
pub use bson_model::{
    Array, Binary, BinarySubtype, Bson, Counted, DateTime, DbPointer, Decimal128, DeviceFault,
    Document, DoubleBits, ElementType, JavaScriptCodeWithScope, ObjectId, Regex, Sink, SliceSource,
    Source, Timestamp, Uuid, VecSink, binary, datetime, decimal128, document, extjson, oid, spec,
    uuid,
};
pub use bson_raw as raw;
pub use bson_raw::{
    RawArray, RawArrayBuf, RawBinaryRef, RawBson, RawBsonRef, RawDbPointerRef, RawDocument,
    RawDocumentBuf, RawJavaScriptCodeWithScope, RawJavaScriptCodeWithScopeRef, RawRegexRef,
};
