//! Laws of frames.

ghost use Rattle.std.specs.Prelude.{◌≡◌, ◌⊎◌, ◌++◌, ◌∷◌, ◌↔◌, IsTrue, List, ℕ};
ghost use Rattle.bson_frame.specs.Frame.{IsFirstFrame, IsStructuralFault, Element, IsCstring};
ghost use Rattle.bson_frame.specs.Payload.{IsPayload};
ghost use Rattle.bson_frame.specs.View.{asked_key, element_of, fault_key, reason_of};
ghost use Rattle.bson_frame.specs.declared.error.Error.{Error as AnyError};
ghost use Rattle.bson_frame.specs.declared.error.ErrorKind.{ErrorKind as Kind};
ghost use Rattle.bson_frame.specs.declared.error.ValueAccessError.{ValueAccessError as AnyRefusal};
ghost use Rattle.bson_frame.specs.declared.error.ValueAccessErrorKind.{ValueAccessErrorKind as AnyReason};
ghost use Rattle.bson_frame.specs.declared.parts.Frame.{Frame as AnyFrame};

use crate::error::{Error, ErrorKind, ValueAccessError, ValueAccessErrorKind};
use crate::parts::Frame;

/// Bytes have at most one first frame.
pub fn one_first_frame()
    ensures { (bytes : List ℕ) (e f : Element) (r s : List ℕ)
        → IsFirstFrame bytes e r → IsFirstFrame bytes f s → (e ≡ f) × (r ≡ s) }
{}

/// Bytes have a first frame or a structural fault.
pub fn frame_or_fault()
    ensures { (bytes : List ℕ) → ((e : Element) × (rest : List ℕ) × IsFirstFrame bytes e rest)
        ⊎ ((kind : Kind) × IsStructuralFault bytes kind) }
{}

/// If bytes have no first frame, the fault has one kind.
pub fn one_structural_fault()
    ensures { (bytes : List ℕ) (j k : Kind) → IsStructuralFault bytes j → IsStructuralFault bytes k → j ≡ k }
{}

/// The payload of a frame has the size of its kind by itself, whatever follows it.
pub fn payload_by_itself()
    ensures { (bytes : List ℕ) (e : Element) (rest : List ℕ) → IsFirstFrame bytes e rest → IsPayload e.tag e.payload }
{}

/// Bytes have at most one name at the front.
pub fn one_name()
    ensures { (a b x y : List ℕ) → IsCstring a → IsCstring b → a ++ 0 ∷ x ≡ b ++ 0 ∷ y → (a ≡ b) × (x ≡ y) }
{}

/// Errors are equal if they report the same: the kind, the key and what was found there.
pub fn equal_errors()
    ensures kinds { (x y : Kind) → IsTrue (⟦<ErrorKind as PartialEq>⟧.eq x y) ↔ (x ≡ y) }
    ensures faults { (x y : AnyError) → IsTrue (⟦<Error as PartialEq>⟧.eq x y) ↔ ((fault_key x ≡ fault_key y) × (x.kind ≡ y.kind)) }
    ensures reasons { (x y : AnyReason) → IsTrue (⟦<ValueAccessErrorKind as PartialEq>⟧.eq x y) ↔ (reason_of x ≡ reason_of y) }
    ensures refusals { (x y : AnyRefusal) → IsTrue (⟦<ValueAccessError as PartialEq>⟧.eq x y)
        ↔ ((asked_key x ≡ asked_key y) × (reason_of x.kind ≡ reason_of y.kind)) }
{}

/// Frames are equal if they have the same kind, key, payload and rest.
pub fn equal_frames()
    ensures { (x y : AnyFrame) → IsTrue (⟦<Frame<'static> as PartialEq>⟧.eq x y) ↔ ((element_of x ≡ element_of y) × (x.rest.now ≡ y.rest.now)) }
{}
