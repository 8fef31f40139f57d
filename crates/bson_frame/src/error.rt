//! Why bytes can't be read, and why there is no value of one kind.

ghost use Rattle.std.specs.Prelude.{◌≡◌, string_bytes};
ghost use Rattle.std.specs.Option.{option_map};
ghost use Rattle.bson_frame.specs.declared.error.ErrorKind.TheVariants.{OutOfMemory};

use std::alloc::{AllocError, AllocFailed};
use std::fmt;

/// What a fault is.
#[derive(Clone, Copy, Debug, PartialEq, Eq, thiserror::Error)]
pub enum ErrorKind {
    /// The bytes aren't those of a frame, or those of a payload of its kind.
    #[error("malformed value")]
    MalformedValue,
    /// A key, a pattern, options or a text aren't UTF-8.
    #[error("invalid UTF-8")]
    Utf8EncodingError,
    /// A growth was refused. Its error has no key.
    #[error("out of memory")]
    OutOfMemory,
}

/// A fault, and the key that it is under: that of the element if a payload is faulty, none if there is no frame.
#[derive(Debug, PartialEq, Drop)]
pub struct Error {
    key: Option<String>,
    /// What the fault is.
    pub kind: ErrorKind,
}

/// What a read of raw bytes returns.
pub type Result<T> = std::result::Result<T, Error>;

impl Error {
    ghost use Rattle.bson_frame.specs.View.{fault_key};

    /// A fault of this kind under a key, or under none.
    pub fn new(key: Option<String>, kind: ErrorKind) -> Error
        ensures key { fault_key result ≡ option_map string_bytes key }
        ensures kind { result.kind ≡ kind }
    {
        Error { key, kind }
    }

    /// The key of the element whose payload is faulty.
    pub fn key(&self) -> Option<&str>
        ensures { option_map (λ s. s.now) result ≡ fault_key self.now }
    {
        match &self.key {
            Some(key) => Some(key.as_str()),
            None => None,
        }
    }
}

impl From<AllocError> for Error {
    ghost use Rattle.bson_frame.specs.View.{IsBare};

    ghost from_gives = { λ _ e. IsBare OutOfMemory e };

    /// `OutOfMemory`, under no key.
    fn from(_e: AllocError) -> Error {
        Error::new(None, ErrorKind::OutOfMemory)
    }
}

impl<T: Drop> From<AllocFailed<T>> for Error {
    ghost use Rattle.bson_frame.specs.View.{IsBare};

    ghost from_gives = { λ _ e. IsBare OutOfMemory e };

    /// `OutOfMemory`, under no key.
    fn from(_e: AllocFailed<T>) -> Error {
        Error::new(None, ErrorKind::OutOfMemory)
    }
}

impl fmt::Display for Error {
    /// The kind in words, and the key in quotes with escapes if there is one: `malformed value under the key "a"`.
    fn fmt<W: fmt::Write>(&self, f: &mut fmt::Formatter<W>) -> fmt::Result {
        match &self.key {
            Some(key) => write!(f, "{} under the key {key:?}", self.kind),
            None => write!(f, "{}", self.kind),
        }
    }
}

impl std::error::Error for Error {}

/// Why a value of one kind isn't there.
#[derive(Debug, Drop, PartialEq)]
pub enum ValueAccessErrorKind {
    /// There is nothing under the key.
    NotPresent,
    /// A value of another kind is under the key.
    UnexpectedType,
    /// The bytes can't be read as far as the key, or the value under it is faulty.
    InvalidBson(Error),
    /// A growth was refused. Its error has the empty key.
    OutOfMemory,
}

/// A refused access, and the key that was asked for; for an array, the index in decimal.
#[derive(Debug, Drop, PartialEq)]
pub struct ValueAccessError {
    key: String,
    /// Why the value isn't there.
    pub kind: ValueAccessErrorKind,
}

/// What a read of a value of one kind returns.
pub type ValueAccessResult<T> = std::result::Result<T, ValueAccessError>;

impl ValueAccessError {
    ghost use Rattle.bson_frame.specs.View.{asked_key};

    /// A refusal of this kind under a key.
    pub fn new(key: String, kind: ValueAccessErrorKind) -> ValueAccessError
        ensures key { asked_key result ≡ string_bytes key }
        ensures kind { result.kind ≡ kind }
    {
        ValueAccessError { key, kind }
    }

    /// The key that was asked for.
    pub fn key(&self) -> &str
        ensures { result.now ≡ asked_key self.now }
    {
        self.key.as_str()
    }
}

impl fmt::Display for ValueAccessErrorKind {
    /// The kind in words, without the key that was asked for. For `InvalidBson` the fault follows, with its own key if
    /// it has one.
    fn fmt<W: fmt::Write>(&self, f: &mut fmt::Formatter<W>) -> fmt::Result {
        match self {
            ValueAccessErrorKind::NotPresent => write!(f, "no value"),
            ValueAccessErrorKind::UnexpectedType => write!(f, "a value of another kind"),
            ValueAccessErrorKind::InvalidBson(e) => write!(f, "invalid BSON: {e}"),
            ValueAccessErrorKind::OutOfMemory => write!(f, "out of memory"),
        }
    }
}

impl std::error::Error for ValueAccessErrorKind {}

impl fmt::Display for ValueAccessError {
    /// The kind in words, and the key in quotes with escapes. For `InvalidBson` the fault follows; `OutOfMemory` is
    /// printed without the key.
    fn fmt<W: fmt::Write>(&self, f: &mut fmt::Formatter<W>) -> fmt::Result {
        let key = &self.key;
        match &self.kind {
            ValueAccessErrorKind::NotPresent => write!(f, "no value under the key {key:?}"),
            ValueAccessErrorKind::UnexpectedType => {
                write!(f, "a value of another kind under the key {key:?}")
            }
            ValueAccessErrorKind::InvalidBson(e) => {
                write!(f, "invalid BSON at the key {key:?}: {e}")
            }
            ValueAccessErrorKind::OutOfMemory => write!(f, "out of memory"),
        }
    }
}

impl std::error::Error for ValueAccessError {}
