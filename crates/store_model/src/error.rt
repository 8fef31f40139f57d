//! Why a call of the store is refused.

ghost use Rattle.std.specs.Prelude.{◌≡◌, Some};
ghost use Rattle.store_model.specs.Refusal.{kind_name, kind_of_reading, refusal, refusal_at};
ghost use Rattle.store_model.specs.declared.error.ErrorKind.TheVariants.{Memory, Writer};

use bson_base::{DeviceFault, ReadAllError};
use std::alloc::{AllocError, AllocFailed};
use std::error::Error;
use std::fmt;

/// Why a call was refused. The numbers are the places of the tests: a call reports the first that fails.
#[derive(Clone, Copy, Debug, PartialEq, Eq)]
pub enum ErrorKind {
    /// 1: the name of the collection is empty or holds a 00.
    BadName,
    /// 2: a key to set or unset is `_id` or holds a 00.
    BadKey,
    /// 3: the top JSON value isn't an object.
    NotAnObject,
    /// 4: the JSON reader refuses.
    JsonRefused,
    /// 5 and 7: the bytes end before the length, or before as many bytes as it declares.
    EndInside,
    /// 6: the declared length is under 5, over 16777216, or less than the bytes that are there.
    BadLength,
    /// 8: the last byte isn't 00.
    NotTerminated,
    /// 9: some level of the document can't be read.
    Faulty,
    /// 10: over 100 levels.
    TooDeep,
    /// 11: JSON: a 00 in a key, a pattern or options.
    Nul,
    /// 12: the document has no `_id`.
    NoId,
    /// 13: the written form has over 16777216 bytes.
    TooLong,
    /// 14: the collection has no document with this `_id`.
    NotFound,
    /// 15: the collection has a document with this `_id`.
    DuplicateId,
    /// 16: a document that is returned as JSON has a reserved key below its top.
    ReservedKey,
    /// 17: a document that is returned as JSON has a finite double other than the zeros.
    FiniteDouble,
    /// 18: the table can't be read by its four columns.
    NotAStore,
    /// 19: the first row that this store can't have written.
    BadRow(i64),
    /// 20: memory ran out.
    Memory,
    /// 21: the database returned another refusal.
    Database,
    /// 22: the places of the table don't suffice.
    Places,
    /// 23: a read failed in this call.
    Reader,
    /// 24: a write failed in this call, or took none of some bytes.
    Writer,
    /// 25: two documents of one collection, kept under keys from before, have `_id`s that mean the same now: the place
    /// of the first, and the least place that has such a document before it.
    IdsCollide(i64, i64),
}

impl ErrorKind {
    /// The name of the kind, without places.
    pub fn name(self) -> &'static str
        ensures { result.now ≡ kind_name self }
    {
        match self {
            ErrorKind::BadName => "BadName",
            ErrorKind::BadKey => "BadKey",
            ErrorKind::NotAnObject => "NotAnObject",
            ErrorKind::JsonRefused => "JsonRefused",
            ErrorKind::EndInside => "EndInside",
            ErrorKind::BadLength => "BadLength",
            ErrorKind::NotTerminated => "NotTerminated",
            ErrorKind::Faulty => "Faulty",
            ErrorKind::TooDeep => "TooDeep",
            ErrorKind::Nul => "Nul",
            ErrorKind::NoId => "NoId",
            ErrorKind::TooLong => "TooLong",
            ErrorKind::NotFound => "NotFound",
            ErrorKind::DuplicateId => "DuplicateId",
            ErrorKind::ReservedKey => "ReservedKey",
            ErrorKind::FiniteDouble => "FiniteDouble",
            ErrorKind::NotAStore => "NotAStore",
            ErrorKind::BadRow(_) => "BadRow",
            ErrorKind::Memory => "Memory",
            ErrorKind::Database => "Database",
            ErrorKind::Places => "Places",
            ErrorKind::Reader => "Reader",
            ErrorKind::Writer => "Writer",
            ErrorKind::IdsCollide(_, _) => "IdsCollide",
        }
    }
}

/// The name of the kind.
impl fmt::Display for ErrorKind {
    ghost output = { λ kind. Some (kind_name kind) };

    fn fmt<W: fmt::Write>(&self, f: &mut fmt::Formatter<W>) -> fmt::Result {
        f.write_str(self.name())
    }
}

impl Error for ErrorKind {}

/// A refused call: why, and in a call of many documents which one was refused, counted from 0.
#[derive(Clone, Copy, Debug, PartialEq, Eq, thiserror::Error)]
#[error("refused: {kind}")]
pub struct StoreError {
    pub kind: ErrorKind,
    pub document: Option<u64>,
}

impl StoreError {
    /// The refusal of the document at a place. Memory has no place.
    pub fn at(kind: ErrorKind, document: u64) -> StoreError
        ensures { result ≡ refusal_at kind document }
    {
        match kind {
            ErrorKind::Memory => StoreError::from(kind),
            kind => StoreError {
                kind,
                document: Some(document),
            },
        }
    }
}

impl From<ErrorKind> for StoreError {
    ghost from_gives = { λ k e. e ≡ refusal k };

    /// A refusal that names no document.
    fn from(kind: ErrorKind) -> StoreError {
        StoreError {
            kind,
            document: None,
        }
    }
}

impl From<AllocError> for StoreError {
    ghost from_gives = { λ _ e. e ≡ refusal Memory };

    fn from(_error: AllocError) -> StoreError {
        StoreError::from(ErrorKind::Memory)
    }
}

impl<T: Drop> From<AllocFailed<T>> for StoreError {
    ghost from_gives = { λ _ e. e ≡ refusal Memory };

    /// Drops the value for which there was no room.
    fn from(failed: AllocFailed<T>) -> StoreError {
        drop(failed);
        StoreError::from(ErrorKind::Memory)
    }
}

impl From<DeviceFault> for StoreError {
    ghost from_gives = { λ _ e. e ≡ refusal Writer };

    /// Writer: the fault of a device that takes bytes. One that gives them is told by `ReadAllError`.
    fn from(_fault: DeviceFault) -> StoreError {
        StoreError::from(ErrorKind::Writer)
    }
}

impl From<ReadAllError> for StoreError {
    ghost from_gives = { λ x e. e ≡ refusal (kind_of_reading x) };

    fn from(error: ReadAllError) -> StoreError {
        StoreError::from(match error {
            ReadAllError::Reader => ErrorKind::Reader,
            ReadAllError::Memory => ErrorKind::Memory,
        })
    }
}
