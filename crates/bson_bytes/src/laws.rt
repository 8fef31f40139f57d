//! Laws of the bytes of trees. Each function does nothing, and its contract is the law.

ghost use Rattle.std.specs.Prelude.{◌≡◌, ◌<◌, ◌^◌, ◌∷◌, ◌++◌, List, ℕ, length, IsUtf8};
ghost use Rattle.bson_base.specs.Kinds.{AreBytes, HasNo00, IsPlain, IsClean, IsSound};
ghost use Rattle.bson_base.specs.Tags.{tag_byte};
ghost use Rattle.bson_base.specs.Value.{Value, document, Members, value_kind};
ghost use Rattle.bson_bytes.specs.Encode.{encode, size, cstring_of, value_bytes, value_size};
ghost use Rattle.bson_bytes.specs.Spells.{Means};
ghost use Rattle.bson_frame.specs.Frame.{IsFirstFrame};

/// A tree is written as that many bytes as `size` says.
pub fn sizes()
    ensures { (d : Members) → length (encode d) ≡ size d }
{}

/// A clean tree of at most 2147483647 bytes comes back from its bytes.
pub fn trees_come_back()
    ensures { (d : Members) → IsClean (document d) → IsSound (document d) → size d < 2 ^ 31 → Means (encode d) d }
{}

/// Different clean trees have different bytes, whatever follows these.
pub fn bytes_tell()
    ensures { (d e : Members) (x y : List ℕ) → IsClean (document d) → IsSound (document d) → IsClean (document e) → IsSound (document e)
        → size d < 2 ^ 31 → size e < 2 ^ 31 → encode d ++ x ≡ encode e ++ y → (d ≡ e) × (x ≡ y) }
{}

/// The same of the payloads of clean values of one kind.
pub fn values_tell()
    ensures { (v w : Value) (x y : List ℕ) → IsClean v → IsSound v → IsClean w → IsSound w → value_kind v ≡ value_kind w
        → value_size v < 2 ^ 31 → value_size w < 2 ^ 31 → value_bytes v ++ x ≡ value_bytes w ++ y → (v ≡ w) × (x ≡ y) }
{}

/// An element as it is written is the first frame of its bytes, whatever follows it.
pub fn written_frames()
    ensures { (k : List ℕ) (v : Value) (rest : List ℕ) → HasNo00 k → IsUtf8 k → IsPlain v → IsSound v → value_size v < 2 ^ 31
        → IsFirstFrame (tag_byte (value_kind v) ∷ (cstring_of k ++ (value_bytes v ++ rest)))
        (record { tag = value_kind v; key = k; payload = value_bytes v }) rest }
{}

/// Bytes mean one tree at most.
pub fn one_meaning()
    ensures { (bytes : List ℕ) (d e : Members) → Means bytes d → Means bytes e → d ≡ e }
{}

/// What bytes mean is clean and sound.
pub fn meanings()
    ensures clean { (bytes : List ℕ) (d : Members) → AreBytes bytes → Means bytes d → IsClean (document d) }
    ensures sound { (bytes : List ℕ) (d : Members) → AreBytes bytes → Means bytes d → IsSound (document d) }
{}
