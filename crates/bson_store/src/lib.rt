//! Named collections of documents in one SQL table, one document for each `_id` in a collection.
#![tactic(auto)]

mod batch;
mod checking;
mod command;
mod draft;
mod drafted;
mod drafting;
mod dump;
mod edit;
mod error;
mod export;
mod import;
pub mod indexed;
mod indexing;
pub mod meanings;
mod names;
mod picking;
mod questions;
mod row_test;
mod rows;
mod store;
mod texts;
mod walk;
mod whole;

pub use crate::indexed::{Front, Range};
pub use batch::run;
pub use bson_model::{
    Array, Binary, BinarySubtype, Bson, Counted, DateTime, DbPointer, Decimal128, DeviceFault,
    Document, DoubleBits, ElementType, JavaScriptCodeWithScope, ObjectId, Regex, Sink, SliceSource,
    Source, Timestamp, Uuid, VecSink, binary, datetime, decimal128, document, extjson, oid, spec,
    uuid,
};
pub use bson_raw as raw;
pub use bson_raw::{
    RawArray, RawArrayBuf, RawBinaryRef, RawBson, RawBsonRef, RawDbPointerRef, RawDocument,
    RawDocumentBuf, RawElement, RawJavaScriptCodeWithScope, RawJavaScriptCodeWithScopeRef,
    RawRegexRef,
};
pub use command::{Command, Reply};
pub use draft::Draft;
pub use drafted::drafted_bodies;
pub use drafting::get_drafted;
pub use dump::TakeJson;
pub use edit::{DraftedEdits, Edit, ListRefusal};
pub use picking::{Copies, Count, Take, select_all, selected};
pub use rows::push_row;
pub use store::Store;
pub use store_documents::Loader;
pub use store_model::{ErrorKind, StoreError, laws};
pub use store_question::{Filter, look_up, selects};
pub use texts::TakeText;
pub use whole::{apply_all, begin_draft, draft_edit, draft_edits, make_drafted};
