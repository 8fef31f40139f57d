//! Documents that can't answer, told by a search of their bytes.

ghost use Rattle.std.specs.Prelude.{◌≡◌, ◌++◌, ◌∷◌, [], Bool, IsTrue, None, Some, drop, map};
ghost use Rattle.bson_base.specs.Value.{Members, Value, document as tree, look_up};
ghost use Rattle.bson_bytes.specs.Encode.{encode, value_bytes};
ghost use Rattle.bson_raw.specs.Convert.{SpellsRawValue};
ghost use Rattle.bson_raw.specs.Raw.{ref_value};
ghost use Rattle.memchr.specs.Find.{FindsNeedle};
ghost use Rattle.store_model.specs.Filter.{Path, pairs};
ghost use Rattle.store_question.specs.Asked.{Along, Answers, AnswersAll, Asked, Askeds, lies_to};
ghost use Rattle.store_question.specs.Lacking.{IsTextBeyond, NamedIn, NamedOnce, StandsIn};
ghost use Rattle.store_question.specs.Reads.{Found, ReadEach, Reads, form_of, forms_of};

use crate::leaf::text_of;
use crate::question::{Comparison, Question};
use bson_base::ElementType;
use bson_raw::RawBsonRef;
use memchr::arch::all::packedpair::{Finder, Pair};
use memchr::memmem::find;

/// Whether the bytes of a document have nowhere a text that the question asks for, so that the document can't answer: a
/// search of them takes less than a walk. False says nothing.
pub(crate) fn lacks(bytes: &[u8], question: &Question) -> bool
    ensures { (t : Asked) → Reads (form_of question.now) t → (d : Members) → bytes.now ≡ encode d
        → IsTrue result → Answers t (Some (tree d)) → ⊥ }
{
    match question {
        Question::All(list) => lacks_one(bytes, list.as_slice()),
        _ => lacks_at(bytes, question),
    }
}

/// The same of one of the questions, all of which a document is to answer.
fn lacks_one(bytes: &[u8], list: &[Question]) -> bool
    ensures { (ts : Askeds) → ReadEach (forms_of (map form_of list.now)) ts → (d : Members) → bytes.now ≡ encode d
        → IsTrue result → AnswersAll ts (Some (tree d)) → ⊥ }
{
    for question in list {
        if lacks_at(bytes, question) {
            return true;
        }
    }
    false
}

/// The same of a question along a path. Of one that names a place it tells nothing: there the item is searched alone.
fn lacks_at(bytes: &[u8], question: &Question) -> bool
    ensures { (t : Asked) → Reads (form_of question.now) t → (d : Members) → bytes.now ≡ encode d
        → IsTrue result → Answers t (Some (tree d)) → ⊥ }
{
    match question {
        Question::At(path, inner) => {
            let names_place = path
                .iter()
                .any(|key| matches!(key.as_bytes(), [b'0'..=b'9']));
            !names_place && lacks_value(bytes, inner)
        }
        _ => false,
    }
}

/// The same of an item of an array and a path from it.
pub(crate) fn lacks_inside(item: RawBsonRef<'_>, question: &Question) -> bool
    ensures { (t : Asked) → Reads (form_of question.now) t → (opens : Bool) (p : Path) (v : Value) → Found item.entry v
        → IsTrue result → Along opens (Answers t) p (Some v) → ⊥ }
{
    match item.as_document() {
        Some(document) => lacks_value(document.as_bytes(), question),
        None => false,
    }
}

/// Whether the bytes of a value have nowhere a text to which what is asked for is equal.
fn lacks_value(bytes: &[u8], question: &Question) -> bool
    ensures { (t : Asked) → Reads (form_of question.now) t → (opens : Bool) (p : Path) (v : Value) → bytes.now ≡ value_bytes v
        → IsTrue result → Along opens (Answers t) p (Some v) → ⊥ }
{
    match question {
        Question::Compare(comparison, other) => {
            lacks_equal(bytes, *comparison, other.as_raw_bson_ref())
        }
        _ => false,
    }
}

/// Whether the bytes have nowhere the text to which a value is to be equal.
fn lacks_equal(bytes: &[u8], comparison: Comparison, other: RawBsonRef<'_>) -> bool
    ensures { (w : Value) → SpellsRawValue (ref_value other.entry) w
        → IsTrue result → (u : Value) → IsTrue (lies_to comparison u w) → IsTextBeyond bytes.now u }
{
    match comparison {
        Comparison::Equal => match text_of(other) {
            Some(text) => lacks_text(bytes, text),
            None => false,
        },
        _ => false,
    }
}

/// Whether a text stands nowhere among bytes.
fn lacks_text(bytes: &[u8], text: &str) -> bool
    ensures { IsTrue result → StandsIn text.now bytes.now → ⊥ }
{
    stands_nowhere(bytes, text.as_bytes())
}

/// The same of its bytes.
fn stands_nowhere(bytes: &[u8], text: &[u8]) -> bool
    ensures { IsTrue result → StandsIn text.now bytes.now → ⊥ }
{
    // The pair of its rarest bytes mostly decides, and is made at once: a finder of the whole takes as long to make as to
    // use it on 1 kB.
    let Some(pair) = Finder::new(text) else {
        return find(bytes, text).is_none();
    };
    match pair.find_prefilter(bytes) {
        Some(place) => !bytes[place..].starts_with(text) && find(bytes, text).is_none(),
        None => true,
    }
}

/// Whether the bytes of a document have nowhere a key of one digit: as a rule those of an item of an array haven't the
/// key by which a path names a place. False says nothing.
pub(crate) fn lacks_place(value: RawBsonRef<'_>, key: &str) -> bool
    ensures { (v : Value) → Found value.entry v → IsTrue result → look_up key.now (pairs v) ≡ None }
{
    match value.as_document() {
        Some(document) => lacks_key(document.as_bytes(), key),
        None => false,
    }
}

/// The same of the bytes.
fn lacks_key(bytes: &[u8], key: &str) -> bool
    ensures { (ms : Members) → bytes.now ≡ encode ms → IsTrue result → look_up key.now ms ≡ None }
{
    match key.as_bytes() {
        [digit] => digit.is_ascii_digit() && lacks_name(bytes, *digit),
        _ => false,
    }
}

/// Whether a key of this one byte stands nowhere among bytes, behind a tag and with the 00 behind it. A text that ends in
/// the byte has the 00 as well, but hardly ever a tag in front of it.
fn lacks_name(bytes: &[u8], byte: u8) -> bool
    ensures { IsTrue result → NamedIn (byte ∷ 0 ∷ []) bytes.now → ⊥ }
{
    let name = [byte, 0];
    let Some(indices) = Pair::with_indices(&name, 0, 1) else {
        return false;
    };
    let pair = Finder::with_pair(&name, indices);
    let mut rest = bytes;
    while let Some(place) = pair.find_prefilter(rest) {
        if place == 0 || ElementType::from(rest[place - 1]).is_some() {
            return false;
        }
        rest = &rest[place + 1..];
    }
    true
}

/// Whether a key of one byte, behind a tag and with the 00 behind it, stands at most once among an array's bytes behind its
/// length: where it is that of an element, it is no key inside of one. False says nothing.
pub(crate) fn stands_once(bytes: &[u8], key: &str) -> bool
    ensures { IsTrue result → NamedOnce (key.now ++ 0 ∷ []) (drop 4 bytes.now) }
{
    let [_, _, _, _, elements @ ..] = bytes else {
        return false;
    };
    match key.as_bytes() {
        [byte] => name_stands_once(elements, *byte),
        _ => false,
    }
}

/// The same of the byte that is the key.
fn name_stands_once(elements: &[u8], byte: u8) -> bool
    ensures { IsTrue result → NamedOnce (byte ∷ 0 ∷ []) elements.now }
{
    match place_of_name(elements, byte) {
        Some(place) => lacks_name(&elements[place + 1..], byte),
        None => true,
    }
}

/// Where a key of one byte stands first, with the 00 behind it.
fn place_of_name(elements: &[u8], byte: u8) -> Option<usize>
    ensures { FindsNeedle elements.now (byte ∷ 0 ∷ []) 0 result }
{
    // A path mostly names the first place, whose key stands right behind the tag of the first element.
    if let [_, first, end, ..] = elements {
        if *first == byte && *end == 0 && byte != 0 {
            return Some(1);
        }
    }
    find(elements, &[byte, 0])
}
