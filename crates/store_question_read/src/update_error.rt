//! Why there is no update.

ghost use Rattle.std.specs.Prelude.{IfOk};
ghost use Rattle.store_question_read.specs.UpdateOutcome.{Names};
ghost use Rattle.store_question_read.specs.Read.{fault, no_fields, no_operator};

use std::alloc::{AllocError, AllocFailed, Global};
use thiserror::Error;

/// Why an operator isn't made at a path.
#[derive(Clone, Copy, Debug, PartialEq, Error)]
pub enum Reason {
    /// A key of the path is empty, or begins with `$`.
    #[error("no path of keys")]
    Path,
    /// The path begins with `_id`, which is never changed.
    #[error("the _id is never changed")]
    Id,
    /// The path begins with one that comes before it, or is the beginning of one.
    #[error("another operator changes this path, a part of it or what it is in")]
    Conflict,
    /// The operator has no such operand.
    #[error("no operand of this operator")]
    Operand,
}

/// Why there is no update.
#[derive(Debug, Drop, Error)]
pub enum ReadError {
    /// The text is no JSON (RFC 8259), or its objects and arrays are nested more than 128 deep. The number is the byte
    /// at which that is seen, counted from 0.
    #[error("no JSON at byte {0}")]
    Json(usize),
    /// An object in the text has a key twice.
    #[error("a key comes twice")]
    RepeatedKey,
    /// What should be an update is no object.
    #[error("an update is an object")]
    Update,
    /// There is no operator of this name.
    #[error("no operator {0}")]
    Operator(String),
    /// Under this operator is no object of paths.
    #[error("{0} takes an object of paths")]
    Fields(String),
    /// Why this operator isn't made at this path.
    #[error("{1}, {2}: {0}")]
    At(Reason, String, String),
    /// A growth was refused.
    #[error("out of memory")]
    Memory,
}

impl From<AllocError> for ReadError {
    ghost use Rattle.std.specs.Prelude.{◌≡◌};
    ghost use Rattle.store_question_read.specs.declared.update_error.ReadError.TheVariants.{Memory};

    ghost from_gives = { λ _ e. e ≡ Memory };

    fn from(_error: AllocError) -> ReadError {
        ReadError::Memory
    }
}

impl<T: Drop> From<AllocFailed<T>> for ReadError {
    ghost use Rattle.std.specs.Prelude.{◌≡◌};
    ghost use Rattle.store_question_read.specs.declared.update_error.ReadError.TheVariants.{Memory};

    ghost from_gives = { λ _ e. e ≡ Memory };

    fn from(failed: AllocFailed<T>) -> ReadError {
        drop(failed);
        ReadError::Memory
    }
}

/// The error that names this operator.
pub(crate) fn operator(alloc: Global, name: &str) -> ReadError
    ensures { Names result (no_operator name.now) }
{
    match String::from_str(alloc, name) {
        Ok(name) => ReadError::Operator(name),
        Err(_) => ReadError::Memory,
    }
}

/// The error that names this operator, which should have an object of paths.
pub(crate) fn fields(alloc: Global, name: &str) -> ReadError
    ensures { Names result (no_fields name.now) }
{
    match String::from_str(alloc, name) {
        Ok(name) => ReadError::Fields(name),
        Err(_) => ReadError::Memory,
    }
}

/// The error that names this operator and this path.
fn named(alloc: Global, reason: Reason, name: &str, path: &str) -> Result<ReadError, AllocError>
    ensures { IfOk result (λ e. Names e (fault reason name.now path.now)) }
{
    let name = String::from_str(alloc, name)?;
    let path = String::from_str(alloc, path)?;
    Ok(ReadError::At(reason, name, path))
}

/// The error that names this operator and this path, or that memory ran out.
pub(crate) fn at(alloc: Global, reason: Reason, name: &str, path: &str) -> ReadError
    ensures { Names result (fault reason name.now path.now) }
{
    match named(alloc, reason, name, path) {
        Ok(error) => error,
        Err(_) => ReadError::Memory,
    }
}
