//! Laws of meaning. Each function below does nothing, and its contract is the law. The laws hold of sound values: their
//! numbers and texts are those of their kinds, and no key occurs twice. Every value at hand is sound, as `soundness`
//! says.

ghost use Rattle.std.specs.Prelude.{MatchResult, ◌≡◌, ◌↔◌, ◌≤◌, ◌⊎◌, IsTrue, List, ℕ, length};
ghost use Rattle.bson_base.specs.Kinds.{IsClean, IsPlain, IsSound};
ghost use Rattle.bson_base.specs.Value.{document, levels, member, Members, no_members, Value};
ghost use Rattle.bson_bytes.specs.Encode.{size};
ghost use Rattle.bson_bytes.specs.Spells.{Means};
ghost use Rattle.bson_bytes.specs.Writing.{CanBeWritten, IsWriteRefusal};
ghost use Rattle.bson_frame.specs.Frame.{length_limit};
ghost use Rattle.bson_model.specs.Equal.{Equal};
ghost use Rattle.bson_model.specs.Trees.{document_tree};
ghost use Rattle.bson_model.specs.View.{content};
ghost use Rattle.bson_meaning.specs.Gate.{IsFaultyOrDeep, IsRefused, level_limit, Passes};
ghost use Rattle.bson_meaning.specs.Before.{key as key_before, Same as SameBefore};
ghost use Rattle.bson_meaning.specs.Meaning.{norm_members_in_order, norm_in_order, norm, key, Same};
ghost use Rattle.bson_meaning.specs.declared.key.KeyError.{KeyError as AnyKeyError};
ghost use Rattle.bson_meaning.specs.declared.gating.GateError.{GateError as AnyGateError};

pub use crate::facts::{soundness, soundness_of_document};
use crate::gating::GateError;
pub use crate::json_laws::{
    canonical_trees_read_back, normal_forms_are_written_alike, readings_are_sound,
    trees_go_by_meaning,
};
use crate::key::KeyError;
use bson_model::Document;
use bson_raw::RawDocumentBuf;
use std::alloc::Global;

/// Meaning the same is an equivalence.
pub fn same_is_an_equivalence()
    ensures itself { (v : Value) → IsSound v → Same v v }
    ensures back { (v w : Value) → IsSound w → Same v w → Same w v }
    ensures on { (u v w : Value) → IsSound u → Same u v → Same v w → Same u w }
{}

/// Equal values mean the same.
pub fn equal_is_same()
    ensures { (v w : Value) → Equal v w → Same v w }
{}

/// The normal form of a normal form is itself, and a value means the same as its normal form.
pub fn normal_forms()
    ensures twice { (v : Value) → IsSound v → norm (norm v) ≡ norm v }
    ensures same { (v : Value) → IsSound v → Same (norm v) v }
{}

/// Keys are equal exactly for documents of the same meaning.
pub fn keys_tell()
    ensures { (d e : Members) → IsPlain (document d) → IsSound (document d) → IsPlain (document e) → IsSound (document e)
        → length (key d) ≤ length_limit → length (key e) ≤ length_limit → (key d ≡ key e) ↔ Same (document d) (document e) }
{}

/// The key of a clean document has as many bytes as the document.
pub fn keys_keep_sizes()
    ensures bytes { (d : Members) → IsClean (document d) → IsSound (document d) → length (key d) ≡ size d }
    ensures trees { (d : Members) → IsClean (document d) → IsSound (document d) → size (norm_members_in_order d) ≡ size d }
{}

/// Bytes that pass the gate are refused by no test: if a fault or too many levels are reported, they are there. Bytes
/// that don't pass are refused in one way, except that either of `Faulty` and `TooDeep` is reported if both hold.
pub fn one_answer_of_the_gate()
    ensures passes { (bytes : List ℕ) (error : AnyGateError) → Passes bytes → IsRefused bytes error → ⊥ }
    ensures refused { (bytes : List ℕ) (e f : AnyGateError) → IsRefused bytes e → IsRefused bytes f
        → (e ≡ f) ⊎ (IsFaultyOrDeep e × IsFaultyOrDeep f) }
{}

/// Bytes that pass the gate mean a document, and the document that they mean has at most 100 levels.
pub fn passing_means()
    ensures some { (bytes : List ℕ) → Passes bytes → (d : Members) × Means bytes d }
    ensures low { (bytes : List ℕ) (d : Members) → Passes bytes → Means bytes d → levels (document d) ≤ level_limit }
{}

/// What means the same as a plain value is plain. Two documents of one member each, under one key, mean the same
/// exactly if their values do.
pub fn same_values()
    ensures plain { (v w : Value) → IsSound v → IsSound w → Same v w → IsPlain w → IsPlain v }
    ensures under { (k : List ℕ) (v w : Value) → Same (document (member k v no_members)) (document (member k w no_members)) ↔ Same v w }
{}

/// The normal form of a plain value, with its keys in order, is clean.
pub fn normal_forms_are_clean()
    ensures { (v : Value) → IsPlain v → IsSound v → IsClean (norm_in_order v) }
{}

/// What meant the same while the two zeros of a double were apart means the same now. A key from before that is a key
/// now is of a document that means the same, so no row under an old key is in the way of a row under its new one,
/// unless both mean the same.
pub fn meanings_from_before()
    ensures same { (v w : Value) → IsSound v → IsSound w → SameBefore v w → Same v w }
    ensures keys { (d e : Members) → IsPlain (document d) → IsSound (document d) → IsPlain (document e) → IsSound (document e)
        → length (key_before d) ≤ length_limit → length (key e) ≤ length_limit → key_before d ≡ key e → key d ≡ key e }
{}

/// Errors are equal if they are the same.
pub fn equal_errors()
    ensures keys { (x y : AnyKeyError) → IsTrue (⟦<KeyError as PartialEq>⟧.eq x y) ↔ (x ≡ y) }
    ensures gate { (x y : AnyGateError) → IsTrue (⟦<GateError as PartialEq>⟧.eq x y) ↔ (x ≡ y) }
{}

/// A clean document that is written into a buffer comes back from it. It is refused if it has no written form, or a
/// growth is refused, and for no other reason.
pub fn documents_come_back(alloc: Global, document: &Document) -> bson_frame::Result<Document>
    ensures { IsClean (document_tree document.now) → MatchResult result (λ back. content back ≡ content document.now)
        (IsWriteRefusal (CanBeWritten (document_tree document.now) → ⊥)) }
{
    soundness_of_document(document);
    bson_bytes::laws::trees_come_back();
    bson_bytes::laws::one_meaning();
    match RawDocumentBuf::from_document(alloc, document) {
        Ok(buffer) => buffer.to_document(),
        Err(e) => Err(e),
    }
}
