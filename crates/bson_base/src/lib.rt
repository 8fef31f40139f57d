//! The values of BSON that hold no other value, and the devices that bytes come from and go to.
#![tactic(auto)]

pub mod binary;
pub mod datetime;
pub mod decimal128;
mod device;
mod double;
pub mod faulty;
pub mod laws;
pub mod oid;
pub mod plain;
mod pointer;
mod regex;
pub mod spec;
pub mod texts;
mod timestamp;
pub mod uuid;
mod whole;

pub use binary::Binary;
pub use datetime::DateTime;
pub use decimal128::Decimal128;
pub use device::{Counted, DeviceFault, Sink, SliceSource, Source, VecSink, read_full, write_all};
pub use double::DoubleBits;
pub use oid::ObjectId;
pub use pointer::DbPointer;
pub use regex::Regex;
pub use spec::{BinarySubtype, ElementType};
pub use timestamp::Timestamp;
pub use uuid::Uuid;
pub use whole::{ReadAllError, read_all};
