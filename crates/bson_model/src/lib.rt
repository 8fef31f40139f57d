//! The document tree of BSON: values of 21 kinds, and documents that keep the order of their keys.
#![tactic(auto)]

mod bson;
mod copy;
mod display;
pub mod document;
pub mod extjson;
pub mod laws;
mod levels;

pub use bson::{Array, Bson, JavaScriptCodeWithScope};
pub use bson_base::{
    Binary, BinarySubtype, Counted, DateTime, DbPointer, Decimal128, DeviceFault, DoubleBits,
    ElementType, ObjectId, Regex, Sink, SliceSource, Source, Timestamp, Uuid, VecSink, binary,
    datetime, decimal128, oid, spec, uuid,
};
pub use document::Document;
pub use levels::{STACK_LEVELS, levels_inside};
