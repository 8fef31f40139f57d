//! Values of one kind, and why there is none.

ghost use Rattle.std.specs.Prelude.{IfOk, Option, Result};
ghost use Rattle.bson_frame.specs.Frame.{Element};
ghost use Rattle.bson_frame.specs.declared.error.ErrorKind.{ErrorKind as Kind};
ghost use Rattle.bson_raw.specs.Walk.{IsFound};
ghost use Rattle.bson_raw.specs.declared.bson_ref.RawBsonRef.{RawBsonRef as AnyValue};
ghost use Rattle.bson_raw.specs.Read.{GetAnswer};
ghost use Rattle.bson_raw.specs.Access.{AccessAnswer, any_value, HasNoWant, IsAccessRefusal, asked_text};
ghost use Rattle.std.specs.Prelude.{◌≡◌, string_bytes};

use crate::bson_ref::RawBsonRef;
use crate::element::RawElement;
use crate::kinds::OfKind;
use bson_frame::{Error, ErrorKind, ValueAccessError, ValueAccessErrorKind, ValueAccessResult};
use std::alloc::{AllocError, Global};

/// What was asked for: a key of a document, or a place in an array.
#[derive(Clone, Copy)]
pub(crate) enum Asked<'k> {
    Key(&'k str),
    Place(usize),
}

impl<'k> Asked<'k> {
    /// The key of a refusal.
    fn text(self, alloc: Global) -> Result<String, AllocError>
        ensures { IfOk result (λ text. string_bytes text ≡ asked_text self.entry) }
    {
        match self {
            Asked::Key(key) => String::from_str(alloc, key),
            Asked::Place(index) => index.to_string(alloc),
        }
    }

    /// A refusal of what was asked for; out of memory instead if there is none for its key.
    fn refusal(self, alloc: Global, kind: ValueAccessErrorKind) -> ValueAccessError
        requires { HasNoWant kind }
        ensures { IsAccessRefusal (asked_text self.entry) kind result }
    {
        match self.text(alloc) {
            Ok(key) => ValueAccessError::new(key, kind),
            Err(_) => ValueAccessError::new(String::new(alloc), ValueAccessErrorKind::OutOfMemory),
        }
    }
}

/// What was found, read.
pub(crate) fn read<'a>(
    alloc: Global,
    found: Option<Result<RawElement<'a>, Error>>,
) -> Result<Option<RawBsonRef<'a>>, Error>
    ensures { (f : Option (Result Element Kind)) → IsFound f found.entry → GetAnswer f result }
{
    match found {
        Some(element) => Ok(Some(element?.value(alloc)?)),
        None => Ok(None),
    }
}

/// The value that was read, of whatever kind.
fn present<'a>(
    alloc: Global,
    asked: Asked<'_>,
    read: Result<Option<RawBsonRef<'a>>, Error>,
) -> Result<RawBsonRef<'a>, ValueAccessError>
    ensures { (f : Option (Result Element Kind)) → GetAnswer f read.entry
        → AccessAnswer any_value (asked_text asked.entry) f result }
{
    match read {
        Ok(Some(value)) => Ok(value),
        Ok(None) => Err(asked.refusal(alloc, ValueAccessErrorKind::NotPresent)),
        Err(e) => match e.kind {
            ErrorKind::OutOfMemory => Err(ValueAccessError::new(
                String::new(alloc),
                ValueAccessErrorKind::OutOfMemory,
            )),
            _ => Err(asked.refusal(alloc, ValueAccessErrorKind::InvalidBson(e))),
        },
    }
}

/// What is taken of the value that was read, if it is of its kind.
pub(crate) fn of_kind<'a, T: OfKind, F: FnOnce(RawBsonRef<'a>) -> Option<T>>(
    alloc: Global,
    asked: Asked<'_>,
    read: Result<Option<RawBsonRef<'a>>, Error>,
    take: F,
) -> ValueAccessResult<T>
    requires callable { F.IsAlwaysCallable take }
    requires of_kind { (v : AnyValue) (taken : Option T) → F.post take v taken → taken ≡ T.as_kind v }
    ensures { (f : Option (Result Element Kind)) → GetAnswer f read.entry
        → AccessAnswer T.as_kind (asked_text asked.entry) f result }
{
    match present(alloc, asked, read) {
        Ok(value) => match take(value) {
            Some(taken) => Ok(taken),
            None => Err(asked.refusal(alloc, ValueAccessErrorKind::UnexpectedType)),
        },
        Err(e) => Err(e),
    }
}
