//! Why there is no question.

ghost use Rattle.store_question_read.specs.Outcome.{Names};
ghost use Rattle.store_question_read.specs.Query.{no_operand, no_operator};

use std::alloc::{AllocError, AllocFailed, Global};
use thiserror::Error;

/// Why a query is no question.
#[derive(Debug, Drop, Error)]
pub enum QueryError {
    /// The text is no JSON (RFC 8259), or its objects and arrays are nested more than 128 deep. The number is the byte
    /// at which that is seen, counted from 0.
    #[error("no JSON at byte {0}")]
    Json(usize),
    /// An object in the text has a key twice.
    #[error("a key comes twice")]
    RepeatedKey,
    /// What should be a query is no object.
    #[error("a query is an object")]
    Query,
    /// There is no operator of this name at this place.
    #[error("no operator {0}")]
    Operator(String),
    /// The value under this path or operator isn't one that belongs there.
    #[error("{0} takes no such value")]
    Operand(String),
    /// A growth was refused.
    #[error("out of memory")]
    Memory,
}

impl From<AllocError> for QueryError {
    ghost use Rattle.std.specs.Prelude.{◌≡◌};
    ghost use Rattle.store_question_read.specs.declared.error.QueryError.TheVariants.{Memory};

    ghost from_gives = { λ _ e. e ≡ Memory };

    fn from(_error: AllocError) -> QueryError {
        QueryError::Memory
    }
}

impl<T: Drop> From<AllocFailed<T>> for QueryError {
    ghost use Rattle.std.specs.Prelude.{◌≡◌};
    ghost use Rattle.store_question_read.specs.declared.error.QueryError.TheVariants.{Memory};

    ghost from_gives = { λ _ e. e ≡ Memory };

    fn from(failed: AllocFailed<T>) -> QueryError {
        drop(failed);
        QueryError::Memory
    }
}

/// The error that names this operator.
pub(crate) fn operator(alloc: Global, name: &str) -> QueryError
    ensures { Names result (no_operator name.now) }
{
    match String::from_str(alloc, name) {
        Ok(name) => QueryError::Operator(name),
        Err(_) => QueryError::Memory,
    }
}

/// The error that names this path or operator, whose value doesn't belong there.
pub(crate) fn operand(alloc: Global, key: &str) -> QueryError
    ensures { Names result (no_operand key.now) }
{
    match String::from_str(alloc, key) {
        Ok(key) => QueryError::Operand(key),
        Err(_) => QueryError::Memory,
    }
}
