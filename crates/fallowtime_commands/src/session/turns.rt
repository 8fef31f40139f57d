//! A line, from its bytes to its answer.

ghost use Rattle.std.specs.Prelude.{◌≡◌, ℕ, IsSomeAnd, List, None};
ghost use Rattle.std.specs.Option.{option_map};
ghost use Rattle.json.specs.Strict.{HasUniqueKeys};
ghost use Rattle.json.specs.Tree.{HasNumbers, MembersHaveNumbers};
ghost use Rattle.json.specs.Json.{Json, document as tree_of};
ghost use Rattle.json.specs.Value.{items_view, members_view, value_view as data_of};
ghost use Rattle.bson_store.specs.Calls.{store_state};
ghost use Rattle.cli_convert.specs.Line.{Keeps};
ghost use Rattle.fallowtime_commands.specs.Answers.{line_of, words};
ghost use Rattle.fallowtime_commands.specs.Acts.{DoesOne};
ghost use Rattle.fallowtime_commands.specs.Lists.{IsList, behind_all};
ghost use Rattle.fallowtime_commands.specs.Objects.{IsWritable, Makes, id_tree};
ghost use Rattle.fallowtime_commands.specs.Places.{byte_place};
ghost use Rattle.fallowtime_commands.specs.Questions.{command_in, command_or, do_beside_id, id_after, id_of};
ghost use Rattle.fallowtime_commands.specs.Turns.{Carries, CarriesAll, Comes, IsOfBytes, IsOfText, IsOfTree, RepeatsKey, made_line};

use crate::session::answers::{answer_line, memory_line, words_line};
use crate::session::list_answers::{list_line, stop_line};
use crate::session::lists::{discard_all, questions_in};
use crate::session::places::Place;
use crate::session::questions::{behind_all, question_in, requests_in};
use crate::session::{ListError, perform_all};
use crate::{Answer, perform};
use bson_store::Store;
use cli_convert::{IdMaker, Kept, Line};
use fallowtime_requests::{Question, Stop, Unread};
use json::{MAX_DEPTH, Reader, Scratch, Value};
use sqlite::Alter;
use std::alloc::{AllocError, Global};

/// The id among the members of an object: the value under `id`, if that key is there once.
fn id_among<'t, 'w>(members: &'t [(&'w str, Value<'w>)]) -> Option<&'t Value<'w>>
    requires { MembersHaveNumbers (members_view members.now) }
    ensures id { id_tree result ≡ id_after None (members_view members.now) }
    ensures writable { IsWritable result }
{
    let mut found = None;
    for (key, value) in members {
        if *key == "id" {
            if found.is_some() {
                return None;
            }
            found = Some(value);
        }
    }
    found
}

/// The id of a question, if it has one.
fn id_in<'t, 'w>(tree: &'t Value<'w>) -> Option<&'t Value<'w>>
    requires { HasNumbers (data_of tree.now) }
    ensures id { id_tree result ≡ id_of (data_of tree.now) }
    ensures writable { IsWritable result }
{
    match tree {
        Value::Object(members) => id_among(members.as_slice()),
        _ => None,
    }
}

/// The value under `do`, if an object has this key and `id` alone.
fn do_among<'t, 'w>(members: &'t [(&'w str, Value<'w>)]) -> Option<&'t Value<'w>>
    ensures { option_map (λ v. data_of v.now) result ≡ do_beside_id (members_view members.now) }
{
    match members {
        [(key, first), (other_key, other)] => {
            if *key == "id" && *other_key == "do" {
                Some(other)
            } else if *key == "do" && *other_key == "id" {
                Some(first)
            } else {
                None
            }
        }
        _ => None,
    }
}

/// The value under `do` of a question with an id.
fn do_in<'t, 'w>(tree: &'t Value<'w>) -> Option<&'t Value<'w>>
    ensures { command_or (data_of tree.now) (option_map (λ v. data_of v.now) result)
        ≡ command_in (data_of tree.now) }
{
    match tree {
        Value::Object(members) => do_among(members.as_slice()),
        _ => None,
    }
}

/// What states the command of a question.
fn command_of<'t, 'w>(tree: &'t Value<'w>) -> &'t Value<'w>
    ensures { data_of result.now ≡ command_in (data_of tree.now) }
{
    do_in(tree).unwrap_or(tree)
}

/// Does what a question asks for, and returns the line of its answer.
fn answer_question<S: Alter + Drop>(
    alloc: Global,
    store: &mut Store<S>,
    id: Option<&Value<'_>>,
    question: Question<'_>,
) -> Result<Vec<u8>, AllocError>
    requires { IsWritable id }
    ensures { Carries (id_tree id.entry) question.entry result
        (store_state S.Store store.old) (store_state S.Store store.new) }
{
    let mut question = question;
    let outcome = perform(alloc, store, question.collection, &mut question.request);
    let line = answer_line(alloc, id, question.layout, &outcome);
    discard(question);
    line
}

/// Lets a question go. What a function that is generic over the database lets go is far dearer to prove.
fn discard(question: Question<'_>) {
    drop(question);
}

/// Does what a request asks for that is no list, and returns the line of its answer.
fn answer_request<S: Alter + Drop>(
    alloc: Global,
    store: &mut Store<S>,
    maker: &mut IdMaker,
    id: Option<&Value<'_>>,
    command: &Value<'_>,
) -> Result<Vec<u8>, AllocError>
    requires id { IsWritable id }
    requires single { behind_all (data_of command.now) ≡ None }
    ensures { DoesOne (Comes (IsOfTree maker.old maker.new (id_tree id.entry)
        (data_of command.now)) (made_line (id_tree id.entry) result))
        (store_state S.Store store.old) (store_state S.Store store.new) }
{
    let mut trial = maker.copy();
    match question_in(alloc, command, &mut trial) {
        Ok(question) => {
            *maker = trial;
            answer_question(alloc, store, id, question)
        }
        Err(Stop::Words(unread)) => words_line(alloc, id, &Place::Request(unread)),
        Err(Stop::Memory) => Err(AllocError),
    }
}

/// Does all that questions ask for, as one list, and returns the line of the answer.
fn answer_questions<S: Alter + Drop>(
    alloc: Global,
    store: &mut Store<S>,
    id: Option<&Value<'_>>,
    questions: Vec<Question<'_>>,
) -> Result<Vec<u8>, AllocError>
    requires { IsWritable id }
    ensures { CarriesAll (id_tree id.entry) questions.entry.items result
        (store_state S.Store store.old) (store_state S.Store store.new) }
{
    let outcome = perform_all(alloc, store, questions.as_slice());
    discard_all(questions);
    let line = list_line(alloc, id, &outcome);
    discard_outcome(outcome);
    line
}

/// Lets the outcome of a list go, for the reason that `discard` is there.
fn discard_outcome(outcome: Result<Vec<Answer>, ListError>) {
    drop(outcome);
}

/// Does all that the requests of a list ask for, or nothing, and returns the line of the answer.
fn answer_list<S: Alter + Drop>(
    alloc: Global,
    store: &mut Store<S>,
    maker: &mut IdMaker,
    id: Option<&Value<'_>>,
    requests: &[Value<'_>],
) -> Result<Vec<u8>, AllocError>
    requires { IsWritable id }
    ensures { (command : Json) → IsList command (items_view requests.now) → DoesOne (Comes
        (IsOfTree maker.old maker.new (id_tree id.entry) command) (made_line (id_tree id.entry) result))
        (store_state S.Store store.old) (store_state S.Store store.new) }
{
    let mut trial = maker.copy();
    match questions_in(alloc, requests, &mut trial) {
        Ok(questions) => {
            *maker = trial;
            answer_questions(alloc, store, id, questions)
        }
        Err(stop) => stop_line(alloc, id, &stop),
    }
}

/// Does what a tree asks for, and returns the line of its answer.
fn answer_command<S: Alter + Drop>(
    alloc: Global,
    store: &mut Store<S>,
    maker: &mut IdMaker,
    id: Option<&Value<'_>>,
    command: &Value<'_>,
) -> Result<Vec<u8>, AllocError>
    requires { IsWritable id }
    ensures { DoesOne (Comes (IsOfTree maker.old maker.new (id_tree id.entry)
        (data_of command.now)) (made_line (id_tree id.entry) result))
        (store_state S.Store store.old) (store_state S.Store store.new) }
{
    let Some(rest) = behind_all(command) else {
        return answer_request(alloc, store, maker, id, command);
    };
    match requests_in(rest) {
        Some(requests) => answer_list(alloc, store, maker, id, requests),
        None => words_line(alloc, id, &Place::Request(Unread::Arguments)),
    }
}

/// Does what the tree of a line asks for, and returns its answer. The one for out of memory is made first, so that it
/// is there if something was done.
fn answer_tree<S: Alter + Drop>(
    alloc: Global,
    store: &mut Store<S>,
    maker: &mut IdMaker,
    tree: &Value<'_>,
) -> Result<Vec<u8>, AllocError>
    requires { HasNumbers (data_of tree.now) }
    ensures { DoesOne (Comes (IsOfTree maker.old maker.new (id_of (data_of tree.now))
        (command_in (data_of tree.now))) (made_line None result))
        (store_state S.Store store.old) (store_state S.Store store.new) }
{
    let id = id_in(tree);
    let spare = memory_line(alloc, id)?;
    match answer_command(alloc, store, maker, id, command_of(tree)) {
        Ok(line) => Ok(line),
        Err(_) => Ok(spare),
    }
}

/// The byte at which a text is seen to be no JSON.
pub(crate) fn fault_in(text: &str, scratch: &mut Scratch) -> Result<usize, AllocError> {
    let mut reader = Reader::new(text, scratch)?;
    let _passed = reader.skip_value(MAX_DEPTH);
    Ok(reader.offset())
}

/// The line for a text that is no JSON.
fn no_json_line(alloc: Global, text: &str, scratch: &mut Scratch) -> Result<Vec<u8>, AllocError>
    ensures { Makes (λ line. (i : ℕ) × (line ≡ line_of None (words (byte_place i)))) result }
{
    let index = fault_in(text, scratch)?;
    words_line(alloc, None, &Place::Byte(index))
}

/// The line for a text in which an object has a key twice, with the id, if that can be read.
fn repeated_line(alloc: Global, text: &str, scratch: &mut Scratch) -> Result<Vec<u8>, AllocError>
    requires { IsSomeAnd (tree_of text.now) (λ j. HasUniqueKeys j → ⊥) }
    ensures { Makes (RepeatsKey text.now) result }
{
    match Value::parse(alloc, text, scratch) {
        Ok(tree) => words_line(alloc, id_in(&tree), &Place::RepeatedKey),
        Err(_) => Err(AllocError),
    }
}

/// Does what a text asks for, and returns its answer.
fn answer_text<S: Alter + Drop>(
    alloc: Global,
    store: &mut Store<S>,
    maker: &mut IdMaker,
    scratch: &mut Scratch,
    text: &str,
) -> Result<Vec<u8>, AllocError>
    ensures { DoesOne (Comes (IsOfText maker.old maker.new text.now) (made_line None result))
        (store_state S.Store store.old) (store_state S.Store store.new) }
{
    let error = match Value::parse_strict(alloc, text, scratch) {
        Ok(tree) => return answer_tree(alloc, store, maker, &tree),
        Err(error) => error,
    };
    match error {
        json::Error::OutOfMemory => Err(AllocError),
        json::Error::DuplicateKey => repeated_line(alloc, text, scratch),
        _ => no_json_line(alloc, text, scratch),
    }
}

/// Does what some bytes ask for, and returns their answer.
fn answer_bytes<S: Alter + Drop>(
    alloc: Global,
    store: &mut Store<S>,
    maker: &mut IdMaker,
    scratch: &mut Scratch,
    bytes: &[u8],
) -> Result<Vec<u8>, AllocError>
    ensures { DoesOne (Comes (IsOfText maker.old maker.new bytes.now) (made_line None result))
        (store_state S.Store store.old) (store_state S.Store store.new) }
{
    match str::from_utf8(bytes) {
        Ok(text) => answer_text(alloc, store, maker, scratch, text),
        Err(error) => words_line(alloc, None, &Place::Byte(error.valid_up_to())),
    }
}

/// Does what a line asks for, and returns its answer.
pub(crate) fn answer_of<S: Alter + Drop>(
    alloc: Global,
    store: &mut Store<S>,
    maker: &mut IdMaker,
    scratch: &mut Scratch,
    line: &Line,
) -> Result<Vec<u8>, AllocError>
    ensures { (text : List ℕ) → Keeps line.now text
        → DoesOne (Comes (IsOfBytes maker.old maker.new text) (made_line None result))
        (store_state S.Store store.old) (store_state S.Store store.new) }
{
    match line.kept {
        Kept::Whole => answer_bytes(alloc, store, maker, scratch, line.bytes.as_slice()),
        Kept::TooLong => words_line(alloc, None, &Place::TooLong),
        Kept::Memory => Err(AllocError),
    }
}
