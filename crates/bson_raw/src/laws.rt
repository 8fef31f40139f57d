//! Laws of the walk.

ghost use Rattle.std.specs.Prelude.{MatchResult, ◌≡◌, ◌≤◌, ◌<◌, ◌+◌, ◌-◌, ◌/◌, ◌^◌, ◌↔◌, [], ℕ, drop, List, Option, Result, Some, None, Err, length, slice_get};
ghost use Rattle.std.specs.Iterator.{Yields};
ghost use Rattle.std.specs.List.{All};
ghost use Rattle.bson_frame.specs.Frame.{Element};
ghost use Rattle.bson_frame.specs.declared.error.Error.{Error as Fault};
ghost use Rattle.bson_frame.specs.declared.error.ErrorKind.{ErrorKind as Kind};
ghost use Rattle.bson_raw.specs.Walk.{IsWalk, IsDocumentWalk, walk_items, raw_steps, items_left, OnWalk};
ghost use Rattle.bson_raw.specs.View.{left_of, pairs_left, parts_of, values_left};
ghost use Rattle.bson_raw.specs.Convert.{HasFault};
ghost use Rattle.bson_raw.specs.Read.{pair_steps, value_steps};
ghost use Rattle.bson_raw.specs.declared.array_iter.RawArrayIter.{RawArrayIter as Values};
ghost use Rattle.bson_raw.specs.declared.bson_ref.RawBsonRef.{RawBsonRef as AnyValue};
ghost use Rattle.bson_raw.specs.declared.element.RawElement.{RawElement as Item};
ghost use Rattle.bson_raw.specs.declared.iter.Iter.{Iter as Pairs};
ghost use Rattle.bson_raw.specs.declared.raw_iter.RawIter.{RawIter as Elements};
ghost use Rattle.std.specs.Borrow.{Bor};
ghost use Rattle.bson_base.specs.Kinds.{IsClean, IsSound};
ghost use Rattle.bson_base.specs.Value.{document, Members};
ghost use Rattle.bson_bytes.specs.Encode.{encode, size};
ghost use Rattle.bson_bytes.specs.Spells.{Means};
ghost use Rattle.bson_frame.specs.Payload.{IsEnvelope, IsFaultless, IsPayload};

pub mod equality;

use crate::document_buf::RawDocumentBuf;
use crate::element::RawElement;

/// Bytes have a walk.
pub fn a_walk()
    ensures { (bytes : List ℕ) → (elements : List Element) × (fault : Option Kind) × IsWalk bytes elements fault }
{
    bson_frame::laws::frame_or_fault();
}

/// Bytes have at most one walk.
pub fn one_walk()
    ensures { (bytes : List ℕ) (es fs : List Element) (a b : Option Kind) → IsWalk bytes es a → IsWalk bytes fs b
        → (es ≡ fs) × (a ≡ b) }
{
    bson_frame::laws::one_first_frame();
    bson_frame::laws::one_structural_fault();
}

/// A document of n bytes has at most (n - 4) / 2 elements.
pub fn at_most_half()
    ensures { (bytes : List ℕ) → OnWalk bytes (λ elements fault. length elements ≤ (length bytes - 4) / 2) }
{}

/// A structural fault is the last item of a walk, so there is at most one.
pub fn fault_comes_last()
    ensures { (elements : List Element) (fault : Option Kind) (k : ℕ) (kind : Kind)
        → slice_get (walk_items elements fault) k ≡ Some (Err kind)
        → k + 1 ≡ length (walk_items elements fault) }
{}

/// A document yields nothing exactly if it is empty.
pub fn empty_yields_nothing()
    ensures { (bytes : List ℕ) → OnWalk bytes (λ elements fault. (IsDocumentWalk bytes [] None ↔ (walk_items elements fault ≡ []))) }
{}

/// The iterator over elements ends: it yields no more items than are left.
pub fn raw_iter_ends()
    ensures { (s t : Elements) (items : List (Result Item Fault)) → Yields raw_steps s items t
        → length items ≤ items_left (left_of s) }
{}

/// The iterator over keys and values ends.
pub fn iter_ends()
    ensures { (s t : Pairs) (items : List (Result (Bor (List ℕ) × AnyValue) Fault)) → Yields pair_steps s items t
        → length items ≤ items_left (pairs_left s) }
{}

/// The iterator over the values of an array ends.
pub fn array_iter_ends()
    ensures { (s t : Values) (items : List (Result AnyValue Fault)) → Yields value_steps s items t
        → length items ≤ items_left (values_left s) }
{}

/// The payload of an element has the size of its kind by itself.
pub fn payload_of_an_element(element: &RawElement<'_>)
    ensures { IsPayload (parts_of element.now).tag (parts_of element.now).payload }
{}

/// Bytes that pass as a document come back from its buffer as they were; others are refused.
pub fn bytes_come_back(bytes: Vec<u8>) -> bson_frame::Result<Vec<u8>>
    ensures { MatchResult result (λ back. back.items ≡ bytes.items) (λ _. IsEnvelope bytes.items → ⊥) }
{
    Ok(RawDocumentBuf::from_bytes(bytes)?.into_bytes())
}

/// Elements have one first fault at most: the bytes alone decide its key and its kind.
pub fn one_first_fault()
    ensures { (bytes : List ℕ) (j k : Option (List ℕ)) (m n : Kind) → HasFault bytes j m → HasFault bytes k n
        → (j ≡ k) × (m ≡ n) }
{
    bson_frame::laws::one_first_frame();
    bson_frame::laws::one_structural_fault();
}

/// Bytes that mean a document have no fault: not in their walk, not in a payload of it, and not at any depth. The same
/// holds of what a clean document is written as.
pub fn documents_have_no_fault()
    ensures walk { (bytes : List ℕ) (d : Members) (elements : List Element) (fault : Option Kind) → Means bytes d → IsDocumentWalk bytes elements fault
        → (fault ≡ None) × All (λ e. IsFaultless e.tag e.payload) elements }
    ensures inside { (bytes : List ℕ) (d : Members) (key : Option (List ℕ)) (kind : Kind) → Means bytes d → HasFault (drop 4 bytes) key kind → ⊥ }
    ensures written { (d : Members) (key : Option (List ℕ)) (kind : Kind) → IsClean (document d) → IsSound (document d) → size d < 2 ^ 31
        → HasFault (drop 4 (encode d)) key kind → ⊥ }
{
    bson_frame::laws::one_first_frame();
    bson_bytes::laws::trees_come_back();
}
