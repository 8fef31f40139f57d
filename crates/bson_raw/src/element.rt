//! Elements whose values aren't read yet.

ghost use Rattle.std.specs.Prelude.{◌≡◌, length};
ghost use Rattle.bson_frame.specs.Payload.{IsPayload};
ghost use Rattle.bson_frame.specs.View.{IsFaultUnder};

use crate::bson_ref::RawBsonRef;
use crate::convert::tree_of;
use crate::decode::value_of;
use crate::laws;
use bson_base::ElementType;
use bson_frame::{Error, ErrorKind, Frame};
use bson_model::{Bson, STACK_LEVELS};
use std::alloc::Global;

/// An element whose value isn't read yet (bsonspec.org 1.1, "element"). Its payload has the size of its kind, as the
/// walk gives no other.
#[derive(Clone, Copy, Debug)]
pub struct RawElement<'a> {
    pub(crate) frame: Frame<'a>,
    pub ghost sized: { ∥ IsPayload frame.tag frame.payload.now ∥₁ },
}

impl<'a> RawElement<'a> {
    ghost use Rattle.bson_raw.specs.ReadValue.{ReadsElement, IsDecoded};
    ghost use Rattle.bson_raw.specs.View.{parts_of};

    /// The key.
    pub fn key(&self) -> &'a str
        ensures { result.now ≡ (parts_of self.now).key }
    {
        self.frame.key
    }

    /// How many bytes the payload has.
    pub fn len(&self) -> usize
        ensures { result ≡ length (parts_of self.now).payload }
    {
        self.frame.payload.len()
    }

    /// The kind of the value.
    pub fn element_type(&self) -> ElementType
        ensures { result ≡ (parts_of self.now).tag }
    {
        self.frame.tag
    }

    /// The value, or the kind of the payload fault: `Utf8EncodingError` if a text isn't UTF-8, else
    /// `MalformedValue`. Takes no memory.
    pub fn value_or_kind(&self) -> Result<RawBsonRef<'a>, ErrorKind>
        ensures { IsDecoded (parts_of self.now).tag (parts_of self.now).payload result }
    {
        laws::payload_of_an_element(self);
        value_of(self.frame.tag, self.frame.payload)
    }

    /// The value, or the payload fault under its key. Memory is taken for that key alone; if there is none, the fault
    /// is out of memory, under no key.
    pub fn value(&self, alloc: Global) -> Result<RawBsonRef<'a>, Error>
        ensures { ReadsElement (parts_of self.now) result }
    {
        match self.value_or_kind() {
            Ok(value) => Ok(value),
            Err(kind) => Err(fault_under(alloc, self.frame.key, kind)),
        }
    }
}

/// To a tree.
impl RawElement<'_> {
    ghost use Rattle.std.specs.Prelude.{IfErr, MatchResult};
    ghost use Rattle.bson_base.specs.Value.{Value, value_kind};
    ghost use Rattle.bson_bytes.specs.Spells.{SpellsValue};
    ghost use Rattle.bson_raw.specs.Convert.{HasFaultIn, IsValueOf, TellsFault};
    ghost use Rattle.bson_raw.specs.View.{parts_of};

    /// The value that the payload means, as a tree.
    ///
    /// If the payload or an element at any depth inside is faulty, the error is the first fault in the order of the
    /// bytes: `MalformedValue`, or `Utf8EncodingError` if a text isn't UTF-8, under the key of the element whose
    /// payload is faulty, or under none if bytes begin with no element. `OutOfMemory`, under no key, if a growth was
    /// refused, and if over 1000 documents, arrays and scopes are nested in each other, the value among them.
    pub fn to_bson(&self, alloc: Global) -> Result<Bson, Error>
        ensures tree { MatchResult result (IsValueOf (parts_of self.now)) (TellsFault (HasFaultIn (parts_of self.now))) }
        ensures none { IfErr result (TellsFault (λ _ _. (v : Value) → value_kind v ≡ (parts_of self.now).tag → SpellsValue (parts_of self.now).payload v → ⊥)) }
    {
        bson_frame::laws::one_first_frame();
        let value = self.value(alloc)?;
        tree_of(alloc, value, STACK_LEVELS)
    }
}

/// A fault under a key; out of memory instead if there is none for the key.
pub(crate) fn fault_under(alloc: Global, key: &str, kind: ErrorKind) -> Error
    ensures { IsFaultUnder key.now kind result }
{
    match String::from_str(alloc, key) {
        Ok(key) => Error::new(Some(key), kind),
        Err(_) => Error::new(None, ErrorKind::OutOfMemory),
    }
}
