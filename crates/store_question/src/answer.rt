//! Whether a document answers a question.

ghost use Rattle.std.specs.Prelude.{◌≡◌, ◌↔◌, ◌≤◌, IfSome, IsTrue, map, Some, true, Option as Maybe};
ghost use Rattle.bson_base.specs.Value.{Members, Value, array as array_value, document as tree, levels, look_up, Items};
ghost use Rattle.bson_bytes.specs.Encode.{encode};
ghost use Rattle.bson_raw.specs.View.{bytes_of, parts_of};
ghost use Rattle.store_question.specs.Filters.{path_of};
ghost use Rattle.store_question.specs.Views.{ComeBack, ComesBack, Encodes, Finds, FindsElement, HoldsPairs, IsWrittenFor, OfWritten};
ghost use Rattle.store_model.specs.Filter.{pairs, under_places};
ghost use Rattle.store_question.specs.Asked.{Asked, Askeds, Answers, AnswersAll, AnswersAny, AnyMember, HasItem, IntoDocument, AtEnd, AtMember, AtPlace, Along, Through, Under};
ghost use Rattle.store_question.specs.Reads.{Found, FindsMember, HasPattern, OfElement, OfMembers, OneHasPattern, ReadEach, Reads, Shows, Tells, form_of, forms_of};

use crate::lacking::{lacks, lacks_inside, lacks_place, stands_once};
use crate::leaf::{begins, has_kind, has_size, items_in, leaves, lies, matches};
use crate::question::Question;
use bson_raw::{RawBsonRef, RawDocument, RawElement, first_element};
use std::alloc::{AllocError, Global};

/// Whether a document answers a question. Has a result for any bytes, and takes memory only for a question that has a
/// pattern. The error is a refused growth.
pub fn answers(
    alloc: Global,
    document: RawDocument<'_>,
    question: &Question,
) -> Result<bool, AllocError>
    ensures { (t : Asked) → Reads (form_of question.now) t → OfWritten (bytes_of document.entry)
        (λ d. levels (tree d) ≤ 200 → Tells (HasPattern (form_of question.now)) result (Answers t (Some (tree d)))) }
{
    if lacks(document.as_bytes(), question) {
        return Ok(false);
    }
    fits(alloc, Some(RawBsonRef::Document(document)), question)
}

/// Whether a value, or nothing, answers a question.
#[cycle(asking)]
fn fits(
    alloc: Global,
    value: Option<RawBsonRef<'_>>,
    question: &Question,
) -> Result<bool, AllocError>
    ensures { (t : Asked) → Reads (form_of question.now) t → (o : Maybe Value) → Shows value.entry o
        → Tells (HasPattern (form_of question.now)) result (Answers t o) }
{
    match question {
        Question::At(path, inner) => along(alloc, value, path.as_slice(), inner, true),
        Question::Whole(path, inner) => along(alloc, value, path.as_slice(), inner, false),
        Question::Exists => Ok(value.is_some()),
        Question::Kind(kind) => Ok(has_kind(value, *kind)),
        Question::Compare(comparison, other) => {
            Ok(lies(value, *comparison, other.as_raw_bson_ref()))
        }
        Question::Size(size) => Ok(has_size(value, *size)),
        Question::Remainder(divisor, remainder) => Ok(leaves(value, *divisor, *remainder)),
        Question::Begins(beginning) => Ok(begins(value, beginning.as_slice())),
        Question::Matches(pattern) => matches(alloc, value, pattern),
        Question::Item(inner) => any_item(alloc, value, inner),
        Question::Not(inner) => fits_not(alloc, value, inner),
        Question::All(list) => fits_all(alloc, value, list),
        Question::Any(list) => fits_any(alloc, value, list),
    }
}

/// Whether a value, or nothing, doesn't answer a question.
#[cycle(asking)]
fn fits_not(
    alloc: Global,
    value: Option<RawBsonRef<'_>>,
    question: &Question,
) -> Result<bool, AllocError>
    ensures { (t : Asked) → Reads (form_of question.now) t → (o : Maybe Value) → Shows value.entry o
        → Tells (HasPattern (form_of question.now)) result (Answers t o → ⊥) }
{
    let held = fits(alloc, value, question)?;
    Ok(!held)
}

/// Whether a value, or nothing, answers each of the questions. An empty list is answered by everything.
#[cycle(asking)]
fn fits_all(
    alloc: Global,
    value: Option<RawBsonRef<'_>>,
    list: &[Question],
) -> Result<bool, AllocError>
    ensures { (ts : Askeds) → ReadEach (forms_of (map form_of list.now)) ts → (o : Maybe Value) → Shows value.entry o
        → Tells (OneHasPattern (forms_of (map form_of list.now))) result (AnswersAll ts o) }
{
    for question in list {
        let held = fits(alloc, value, question)?;
        if !held {
            return Ok(false);
        }
    }
    Ok(true)
}

/// Whether a value, or nothing, answers one of the questions. An empty list is answered by nothing.
#[cycle(asking)]
fn fits_any(
    alloc: Global,
    value: Option<RawBsonRef<'_>>,
    list: &[Question],
) -> Result<bool, AllocError>
    ensures { (ts : Askeds) → ReadEach (forms_of (map form_of list.now)) ts → (o : Maybe Value) → Shows value.entry o
        → Tells (OneHasPattern (forms_of (map form_of list.now))) result (AnswersAny ts o) }
{
    for question in list {
        let held = fits(alloc, value, question)?;
        if held {
            return Ok(true);
        }
    }
    Ok(false)
}

/// Whether the value is an array, and one of its items answers.
#[cycle(asking)]
fn any_item(
    alloc: Global,
    value: Option<RawBsonRef<'_>>,
    question: &Question,
) -> Result<bool, AllocError>
    ensures { (t : Asked) → Reads (form_of question.now) t → (o : Maybe Value) → Shows value.entry o
        → Tells (HasPattern (form_of question.now)) result (HasItem (λ v. Answers t (Some v)) o) }
{
    match items_in(value) {
        Some(items) => any_member(alloc, items, question),
        None => Ok(false),
    }
}

/// Whether one of the members answers.
#[cycle(asking)]
fn any_member(
    alloc: Global,
    items: RawDocument<'_>,
    question: &Question,
) -> Result<bool, AllocError>
    ensures { (t : Asked) → Reads (form_of question.now) t → OfMembers (bytes_of items.entry)
        (λ ms. Tells (HasPattern (form_of question.now)) result (AnyMember (λ k v. Answers t (Some v)) ms)) }
{
    for item in items.iter_elements() {
        let Ok(element) = item else {
            return Ok(false);
        };
        let held = member_fits(alloc, &element, question)?;
        if held {
            return Ok(true);
        }
    }
    Ok(false)
}

/// Whether an element's value answers. One whose payload has a fault answers no question, not even a negated one.
#[cycle(asking)]
fn member_fits(
    alloc: Global,
    element: &RawElement<'_>,
    question: &Question,
) -> Result<bool, AllocError>
    ensures { (t : Asked) → Reads (form_of question.now) t → OfElement (parts_of element.now)
        (λ k v. Tells (HasPattern (form_of question.now)) result (Answers t (Some v))) }
{
    match value_of(element) {
        Some(found) => fits(alloc, Some(found), question),
        None => Ok(false),
    }
}

/// Along a path from a value. If `opens`, an array at the end also answers by its items.
#[cycle(asking)]
fn along(
    alloc: Global,
    value: Option<RawBsonRef<'_>>,
    path: &[String],
    question: &Question,
    opens: bool,
) -> Result<bool, AllocError>
    ensures { (t : Asked) → Reads (form_of question.now) t → (o : Maybe Value) → Shows value.entry o
        → Tells (HasPattern (form_of question.now)) result (Along opens (Answers t) (path_of path.now) o) }
{
    let Some((key, rest)) = path.split_first() else {
        return fits(alloc, value, question);
    };
    match value {
        Some(found) => under(alloc, found, key.as_str(), rest, question, opens),
        None => fits(alloc, None, question),
    }
}

/// What is under a key of a document, or under the key of an array's place, and on along the path.
#[cycle(asking)]
fn under(
    alloc: Global,
    value: RawBsonRef<'_>,
    key: &str,
    rest: &[String],
    question: &Question,
    opens: bool,
) -> Result<bool, AllocError>
    ensures { (t : Asked) → Reads (form_of question.now) t → (v : Value) → Found value.entry v
        → Tells (HasPattern (form_of question.now)) result (Under opens (Answers t) key.now (AtMember opens (Answers t) (path_of rest.now)) (pairs v)) }
{
    match look_in(value, key) {
        Some(found) => at_member(alloc, found, rest, question, opens),
        None => fits(alloc, None, question),
    }
}

/// On from what a document has under a key.
#[cycle(asking)]
fn at_member(
    alloc: Global,
    value: RawBsonRef<'_>,
    path: &[String],
    question: &Question,
    opens: bool,
) -> Result<bool, AllocError>
    ensures { (t : Asked) → Reads (form_of question.now) t → (v : Value) → Found value.entry v
        → Tells (HasPattern (form_of question.now)) result (AtMember opens (Answers t) (path_of path.now) v) }
{
    let Some((key, rest)) = path.split_first() else {
        return at_end(alloc, value, question, opens);
    };
    if value.as_document().is_some() {
        return under(alloc, value, key.as_str(), rest, question, opens);
    }
    match items_in(Some(value)) {
        Some(items) => into_items(alloc, items, key.as_str(), rest, question, opens),
        None => fits(alloc, None, question),
    }
}

/// Whether the value at the end of a path answers: as it stands, or, if `opens`, by one of its items if it is an array.
#[cycle(asking)]
fn at_end(
    alloc: Global,
    value: RawBsonRef<'_>,
    question: &Question,
    opens: bool,
) -> Result<bool, AllocError>
    ensures { (t : Asked) → Reads (form_of question.now) t → (v : Value) → Found value.entry v
        → Tells (HasPattern (form_of question.now)) result (AtEnd opens (Answers t) v) }
{
    if !opens {
        return fits(alloc, Some(value), question);
    }
    let held = any_item(alloc, Some(value), question)?;
    if held {
        return Ok(true);
    }
    fits(alloc, Some(value), question)
}

/// Into an array. The item whose place the key is comes first: where it doesn't answer, no other does if none has the key
/// inside and what is absent doesn't answer.
#[cycle(asking)]
fn into_items(
    alloc: Global,
    items: RawDocument<'_>,
    key: &str,
    rest: &[String],
    question: &Question,
    opens: bool,
) -> Result<bool, AllocError>
    ensures { (t : Asked) → Reads (form_of question.now) t → OfMembers (bytes_of items.entry)
        (λ ms. Tells (HasPattern (form_of question.now)) result (AnyMember (Through opens (Answers t) key.now (AtMember opens (Answers t) (path_of rest.now))
        (AtPlace opens (Answers t) (path_of rest.now))) ms)) }
{
    let Some(element) = item_at(items, key) else {
        return through(alloc, items, key, rest, question, opens);
    };
    let held = element_at_place(alloc, &element, rest, question, opens)?;
    if held {
        return Ok(true);
    }
    if stands_once(items.as_bytes(), key) {
        let absent = fits(alloc, None, question)?;
        if !absent {
            return Ok(false);
        }
    }
    through(alloc, items, key, rest, question, opens)
}

/// On from the item of an element that was reached by its place.
#[cycle(asking)]
fn element_at_place(
    alloc: Global,
    element: &RawElement<'_>,
    path: &[String],
    question: &Question,
    opens: bool,
) -> Result<bool, AllocError>
    ensures { (t : Asked) → Reads (form_of question.now) t → OfElement (parts_of element.now)
        (λ k v. Tells (HasPattern (form_of question.now)) result (AtPlace opens (Answers t) (path_of path.now) v)) }
{
    match value_of(element) {
        Some(found) => at_place(alloc, found, path, question, opens),
        None => Ok(false),
    }
}

/// Through the items of an array.
#[cycle(asking)]
fn through(
    alloc: Global,
    items: RawDocument<'_>,
    key: &str,
    rest: &[String],
    question: &Question,
    opens: bool,
) -> Result<bool, AllocError>
    ensures { (t : Asked) → Reads (form_of question.now) t → OfMembers (bytes_of items.entry)
        (λ ms. Tells (HasPattern (form_of question.now)) result (AnyMember (Through opens (Answers t) key.now (AtMember opens (Answers t) (path_of rest.now))
        (AtPlace opens (Answers t) (path_of rest.now))) ms)) }
{
    for item in items.iter_elements() {
        let Ok(element) = item else {
            return Ok(false);
        };
        let held = goes_through(alloc, &element, key, rest, question, opens)?;
        if held {
            return Ok(true);
        }
    }
    Ok(false)
}

/// Into a document, and into the item whose place is the key.
#[cycle(asking)]
fn goes_through(
    alloc: Global,
    element: &RawElement<'_>,
    key: &str,
    rest: &[String],
    question: &Question,
    opens: bool,
) -> Result<bool, AllocError>
    ensures { (t : Asked) → Reads (form_of question.now) t → OfElement (parts_of element.now)
        (λ k v. Tells (HasPattern (form_of question.now)) result (Through opens (Answers t) key.now (AtMember opens (Answers t) (path_of rest.now))
        (AtPlace opens (Answers t) (path_of rest.now)) k v)) }
{
    let Some(found) = value_of(element) else {
        return Ok(false);
    };
    let held = into_document(alloc, found, key, rest, question, opens)?;
    if held {
        return Ok(true);
    }
    if element.key() == key {
        return at_place(alloc, found, rest, question, opens);
    }
    Ok(false)
}

/// Into a value that is a document.
#[cycle(asking)]
fn into_document(
    alloc: Global,
    value: RawBsonRef<'_>,
    key: &str,
    rest: &[String],
    question: &Question,
    opens: bool,
) -> Result<bool, AllocError>
    ensures { (t : Asked) → Reads (form_of question.now) t → (v : Value) → Found value.entry v
        → Tells (HasPattern (form_of question.now)) result (IntoDocument opens (Answers t) key.now (AtMember opens (Answers t) (path_of rest.now)) v) }
{
    if value.as_document().is_some() {
        under_item(alloc, value, key, rest, question, opens)
    } else {
        Ok(false)
    }
}

/// The same as `under`, of an item of an array: its bytes may tell that it hasn't the key.
#[cycle(asking)]
fn under_item(
    alloc: Global,
    value: RawBsonRef<'_>,
    key: &str,
    rest: &[String],
    question: &Question,
    opens: bool,
) -> Result<bool, AllocError>
    ensures { (t : Asked) → Reads (form_of question.now) t → (v : Value) → Found value.entry v
        → Tells (HasPattern (form_of question.now)) result (Under opens (Answers t) key.now (AtMember opens (Answers t) (path_of rest.now)) (pairs v)) }
{
    if lacks_place(value, key) {
        return fits(alloc, None, question);
    }
    under(alloc, value, key, rest, question, opens)
}

/// On from an item that was reached by its place. Such an item at the end of the path isn't opened.
#[cycle(asking)]
fn at_place(
    alloc: Global,
    value: RawBsonRef<'_>,
    path: &[String],
    question: &Question,
    opens: bool,
) -> Result<bool, AllocError>
    ensures { (t : Asked) → Reads (form_of question.now) t → (v : Value) → Found value.entry v
        → Tells (HasPattern (form_of question.now)) result (AtPlace opens (Answers t) (path_of path.now) v) }
{
    let Some((key, rest)) = path.split_first() else {
        return fits(alloc, Some(value), question);
    };
    if value.as_document().is_some() {
        return under_place(alloc, value, key.as_str(), rest, question, opens);
    }
    match items_in(Some(value)) {
        Some(items) => into_items(alloc, items, key.as_str(), rest, question, opens),
        None => Ok(false),
    }
}

/// The same as `under`, of an item that was reached by its place: its bytes may tell that it doesn't answer.
#[cycle(asking)]
fn under_place(
    alloc: Global,
    value: RawBsonRef<'_>,
    key: &str,
    rest: &[String],
    question: &Question,
    opens: bool,
) -> Result<bool, AllocError>
    ensures { (t : Asked) → Reads (form_of question.now) t → (v : Value) → Found value.entry v
        → Tells (HasPattern (form_of question.now)) result (Under opens (Answers t) key.now (AtMember opens (Answers t) (path_of rest.now)) (pairs v)) }
{
    if lacks_inside(value, question) {
        return Ok(false);
    }
    under(alloc, value, key, rest, question, opens)
}

/// What a value has under a key: a document under its key, an array under the key of a place ("0", "1" and so on), any
/// other value nothing. Takes no memory. In bytes with a fault it looks up to the fault.
pub fn look_in<'a>(value: RawBsonRef<'a>, key: &str) -> Option<RawBsonRef<'a>>
    ensures { (v : Value) → Found value.entry v → FindsMember result (look_up key.now (pairs v)) }
{
    let document = elements_of(value)?;
    match find(document, key) {
        Some(element) => value_of(&element),
        None => None,
    }
}

/// The document whose elements a step looks through, if the value has any.
fn elements_of(value: RawBsonRef<'_>) -> Option<RawDocument<'_>>
    ensures { (v : Value) → Encodes value.entry v → HoldsPairs result v }
{
    if let Some(document) = value.as_document() {
        return Some(document);
    }
    let array = value.as_array()?;
    RawDocument::from_bytes(array.as_bytes()).ok()
}

/// The first element with the key.
fn find<'a>(document: RawDocument<'a>, key: &str) -> Option<RawElement<'a>>
    ensures { (ms : Members) → bytes_of document.entry ≡ encode ms → ComeBack ms
        → FindsElement result (look_up key.now ms) }
{
    let [_, _, _, _, elements @ ..] = document.as_bytes() else {
        return None;
    };
    let mut rest = elements;
    while let Some((element, behind)) = first_element(rest) {
        if key == element.key() {
            return Some(element);
        }
        rest = behind;
    }
    None
}

/// The element under a key of one digit. None says nothing.
fn item_at<'a>(items: RawDocument<'a>, key: &str) -> Option<RawElement<'a>>
    ensures { (ms : Members) → bytes_of items.entry ≡ encode ms → ComeBack ms
        → IfSome result (λ e. FindsElement (Some e) (look_up key.now ms)) }
{
    let [digit] = key.as_bytes() else {
        return None;
    };
    if digit.is_ascii_digit() {
        find(items, key)
    } else {
        None
    }
}

/// The value of an element, unless its payload has a fault. Takes no memory.
pub fn value_of<'a>(element: &RawElement<'a>) -> Option<RawBsonRef<'a>>
    ensures { (v : Value) → IsWrittenFor (parts_of element.now) v → ComesBack v → Finds result (Some v) }
{
    bson_raw::laws::payload_of_an_element(element);
    match element.value_or_kind() {
        Ok(value) => Some(value),
        Err(_) => None,
    }
}
