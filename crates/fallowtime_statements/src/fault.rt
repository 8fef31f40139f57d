//! Why a command isn't done, with MongoDB's numbers.

ghost use Rattle.std.specs.Prelude.{◌≡◌};
ghost use Rattle.fallowtime_statements.specs.Codes.{code_name, code_number, code_of, rename_code, update_code};
ghost use Rattle.fallowtime_statements.specs.Faults.{IsAbout};
ghost use Rattle.fallowtime_statements.specs.declared.fault.Fault.TheVariants.{Memory};

use std::alloc::{AllocError, AllocFailed, Global};
use store_model::ErrorKind;
use store_update::UpdateError;

/// The number and the name of an error, as MongoDB has them.
#[derive(Clone, Copy, Debug, PartialEq, Eq)]
pub enum Code {
    /// A stored document can't be read, or the database refuses.
    InternalError,
    /// A value that isn't had under its key, or a query that can't be read.
    BadValue,
    /// A value of another kind than an update needs.
    TypeMismatch,
    /// A message or its document is damaged.
    ProtocolError,
    /// A transaction, which a server that stands alone doesn't have.
    IllegalOperation,
    /// The collection isn't there.
    NamespaceNotFound,
    /// The index isn't there.
    IndexNotFound,
    /// A cursor that isn't there: it has no more, or was let go.
    CursorNotFound,
    /// The collection is there.
    NamespaceExists,
    /// There is no such command.
    CommandNotFound,
    /// An update gives a document another `_id`.
    ImmutableField,
    /// The index of the `_id` is to be dropped.
    InvalidOptions,
    /// The file is another database, or the name of a collection is none.
    InvalidNamespace,
    /// A key that is known and not had.
    NotImplemented,
    /// A key that isn't known.
    UnknownField,
    /// A document with this `_id` is there.
    DuplicateKey,
    /// A document of over 16 MiB.
    DocumentTooLarge,
    /// Out of memory, or the answer would be longer than a message may be.
    ExceededMemoryLimit,
}

impl Code {
    /// The number ("code").
    pub fn number(self) -> i32
        ensures { result ≡ code_number self }
    {
        match self {
            Code::InternalError => 1,
            Code::BadValue => 2,
            Code::TypeMismatch => 14,
            Code::ProtocolError => 17,
            Code::IllegalOperation => 20,
            Code::NamespaceNotFound => 26,
            Code::IndexNotFound => 27,
            Code::CursorNotFound => 43,
            Code::NamespaceExists => 48,
            Code::CommandNotFound => 59,
            Code::ImmutableField => 66,
            Code::InvalidOptions => 72,
            Code::InvalidNamespace => 73,
            Code::ExceededMemoryLimit => 146,
            Code::NotImplemented => 238,
            Code::DocumentTooLarge => 10334,
            Code::DuplicateKey => 11000,
            Code::UnknownField => 40415,
        }
    }

    /// The name ("codeName").
    pub fn name(self) -> &'static str
        ensures { result.now ≡ code_name self }
    {
        match self {
            Code::InternalError => "InternalError",
            Code::BadValue => "BadValue",
            Code::TypeMismatch => "TypeMismatch",
            Code::ProtocolError => "ProtocolError",
            Code::IllegalOperation => "IllegalOperation",
            Code::NamespaceNotFound => "NamespaceNotFound",
            Code::IndexNotFound => "IndexNotFound",
            Code::CursorNotFound => "CursorNotFound",
            Code::NamespaceExists => "NamespaceExists",
            Code::CommandNotFound => "CommandNotFound",
            Code::ImmutableField => "ImmutableField",
            Code::InvalidOptions => "InvalidOptions",
            Code::InvalidNamespace => "InvalidNamespace",
            Code::ExceededMemoryLimit => "ExceededMemoryLimit",
            Code::NotImplemented => "NotImplemented",
            Code::DocumentTooLarge => "BSONObjectTooLarge",
            Code::DuplicateKey => "DuplicateKey",
            Code::UnknownField => "Location40415",
        }
    }
}

/// Why a command isn't done.
#[derive(Debug, Drop)]
pub enum Fault {
    /// An error of MongoDB's, and what it is about: a key or a name.
    Refused(Code, String),
    /// A growth was refused.
    Memory,
}

impl From<AllocError> for Fault {
    ghost from_gives = { λ _ f. f ≡ Memory };

    fn from(_error: AllocError) -> Fault {
        Fault::Memory
    }
}

impl<T: Drop> From<AllocFailed<T>> for Fault {
    ghost from_gives = { λ _ f. f ≡ Memory };

    fn from(_error: AllocFailed<T>) -> Fault {
        Fault::Memory
    }
}

/// An error about a key or a name.
pub fn refuse(alloc: Global, code: Code, about: &str) -> Fault
    ensures { IsAbout code about.now result }
{
    match String::from_str(alloc, about) {
        Ok(text) => Fault::Refused(code, text),
        Err(_) => Fault::Memory,
    }
}

/// The error of MongoDB's that a refusal of the store is.
pub fn code_of(kind: ErrorKind) -> Code
    ensures { result ≡ code_of kind }
{
    match kind {
        ErrorKind::DuplicateId => Code::DuplicateKey,
        ErrorKind::BadName => Code::InvalidNamespace,
        ErrorKind::TooLong | ErrorKind::BadLength => Code::DocumentTooLarge,
        ErrorKind::Memory => Code::ExceededMemoryLimit,
        ErrorKind::Database => Code::InternalError,
        _ => Code::BadValue,
    }
}

/// The same if a collection doesn't get another name: it has no documents, or the other name has some.
pub fn rename_code(kind: ErrorKind) -> Code
    ensures { result ≡ rename_code kind }
{
    match kind {
        ErrorKind::NotFound => Code::NamespaceNotFound,
        ErrorKind::DuplicateId => Code::NamespaceExists,
        _ => code_of(kind),
    }
}

/// The error of MongoDB's that an update is which isn't made.
pub fn update_code(error: UpdateError) -> Code
    ensures { result ≡ update_code error }
{
    match error {
        UpdateError::Id => Code::ImmutableField,
        UpdateError::NotANumber => Code::TypeMismatch,
        UpdateError::Memory => Code::ExceededMemoryLimit,
        _ => Code::BadValue,
    }
}
