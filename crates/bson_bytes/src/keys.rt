//! The keys of one document, met one after the other.

ghost use Rattle.std.specs.Prelude.{◌≡◌, ◌↔◌, ◌++◌, ◌∷◌, [], List, ℕ, false, not, bytes_eq, IsTrue};
ghost use Rattle.std.specs.Borrow.{Bor};
ghost use Rattle.std.specs.Cmp.Lexicographic.{slice_cmp};
ghost use Rattle.std.specs.List.{list_any};
ghost use Rattle.std.specs.Ordering.{nat_cmp};
ghost use Rattle.std.specs.declared.cmp.Ordering.TheVariants.{Less};
ghost use Rattle.bson_bytes.specs.Met.{HasMet, IsNew};

use arrayvec::ArrayVec;
use std::cmp::Ordering;

/// How many keys are kept to be compared with later ones.
const MOST_KEYS: usize = 96;

/// The keys that are kept, of all documents that are being walked, the innermost last. There is one array, since making
/// one for each document inside would take longer than walking it.
pub(crate) type KeptKeys<'a> = ArrayVec<&'a str, MOST_KEYS>;

/// The keys that were met of one document. Each key that is greater than all before it by its bytes is known to be new,
/// however many there are; for another key this is known only while all before it are kept.
#[derive(Drop)]
pub(crate) struct MetKeys<'a> {
    /// The greatest of them; the empty text before the first.
    greatest: &'a str,
    /// How many keys are kept of the documents around this one.
    outer: usize,
    /// Whether there are more keys than those that are kept after these.
    has_more: bool,
}

/// Whether none of the keys is this one.
fn is_new(key: &str, keys: &[&str]) -> bool
    ensures { result ≡ not (list_any (λ met. bytes_eq met.now key.now) keys.now) }
{
    !keys.contains(&key)
}

/// Whether a key is greater than another by its bytes.
fn is_greater(key: &str, other: &str) -> bool
    ensures { IsTrue result ↔ (slice_cmp nat_cmp other.now key.now ≡ Less) }
{
    matches!(other.cmp(key), Ordering::Less)
}

impl<'a> MetKeys<'a> {
    /// No key was met, of a document inside those whose keys are kept.
    pub(crate) fn new(kept: &KeptKeys<'a>) -> MetKeys<'a>
        ensures { HasMet result kept.now.items kept.now.items [] }
    {
        MetKeys {
            greatest: "",
            outer: kept.len(),
            has_more: false,
        }
    }

    /// Takes the next key. True: it is none of those before it. After false nothing is known of the keys.
    pub(crate) fn meet(&mut self, kept: &mut KeptKeys<'a>, key: &'a str) -> bool
        ensures { (front all : List (Bor (List ℕ))) → HasMet self.old front kept.old.items all → IsTrue result
            → IsNew key.now all × HasMet self.new front kept.new.items (all ++ key.entry ∷ []) }
    {
        if is_greater(key, self.greatest) {
            self.greatest = key;
            self.keep(kept, key);
            return true;
        }
        let Some((_, own)) = kept.as_slice().split_at_checked(self.outer) else {
            return false;
        };
        if self.has_more || !is_new(key, own) {
            return false;
        }
        self.keep(kept, key);
        true
    }

    /// Keeps a key, if there is room.
    fn keep(&mut self, kept: &mut KeptKeys<'a>, key: &'a str)
        ensures greatest { self.new.greatest ≡ self.old.greatest }
        ensures outer { self.new.outer ≡ self.old.outer }
        ensures behind { (more : List (Bor (List ℕ))) × (kept.new.items ≡ kept.old.items ++ more) }
        ensures kept { self.new.has_more ≡ false → (self.old.has_more ≡ false)
            × (kept.new.items ≡ kept.old.items ++ key.entry ∷ []) }
    {
        if kept.try_push(key).is_err() {
            self.has_more = true;
        }
    }

    /// Drops the kept keys of the document.
    pub(crate) fn end(&self, kept: &mut KeptKeys<'a>)
        ensures { (front all : List (Bor (List ℕ))) → HasMet self.now front kept.old.items all → kept.new.items ≡ front }
    {
        kept.truncate(self.outer);
    }
}
