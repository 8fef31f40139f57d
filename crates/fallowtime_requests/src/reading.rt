//! What a command with its arguments asks for.

ghost use Rattle.std.specs.Prelude.{◌≡◌, ◌≢◌, ◌∷◌, [], IfErr, IfOk, MatchResult, Some, map, true};
ghost use Rattle.bson_base.specs.Value.{has_key, look_up};
ghost use Rattle.bson_model.specs.View.{content, view};
ghost use Rattle.json.specs.Value.{items_view};
ghost use Rattle.fallowtime_requests.specs.Inputs.{seen, texts, trees};
ghost use Rattle.fallowtime_requests.specs.Reading.{IsUnread, KeepsMaker, Reads};
ghost use Rattle.fallowtime_requests.specs.Requests.{NameAlone, NameAndDocument, NameAndId, NameAndQuery, NameIdAndKey, NameIdKeyAndValue, NamePathAndQuery, NameQueryAndDocument, NameQueryAndMany, NameQueryUpdateAndMany, everything};
ghost use Rattle.cli_convert.specs.declared.made.IdMaker.{IdMaker as Maker};
ghost use Rattle.fallowtime_words.specs.declared.command.Command.TheVariants as commands;
ghost use Rattle.fallowtime_words.specs.declared.table.Argument.TheVariants as argument;
ghost use Rattle.store_question.specs.Filters.{path_of as path_view};
ghost use Rattle.store_model.specs.State.{id_key};
ghost use Rattle.store_question_read.specs.Outcome.{Asks as StandsFor};
ghost use Rattle.store_question_read.specs.UpdateOutcome.{plans_of};

use crate::aggregating::aggregate;
use crate::arranging::all_of;
use crate::indexing::{drop_index, index};
use crate::input::{Input, of_value, of_word};
use crate::options::many_of;
use crate::parts::{collection_of, document_of, id_of, key_of, path_of, query_in, value_of};
use crate::request::{Existing, Part, Request, Work};
use crate::returning::{find_and_delete, find_and_replace, find_and_update};
use crate::stop::Stop;
use crate::stream::stream_in;
use crate::transferring::{copy, drop_collection, rename};
use crate::unread::{Unread, beyond};
use crate::updates::parts_of;
use bson_json_read::Scratch;
use bson_model::{Bson, Document};
use cli_convert::{IdMaker, with_id};
use fallowtime_words::Command;
use json::Value;
use std::alloc::{AllocError, Global};
use store_update::Step;

/// How the documents that are returned are laid out in the answer.
#[derive(Clone, Copy, Debug, PartialEq, Eq)]
pub enum Layout {
    /// Each by itself, as Extended JSON.
    Each,
    /// Their bytes, one after the other.
    Stream,
}

/// What a command with its arguments asks for.
#[derive(Drop)]
pub struct Question<'w> {
    /// The collection; an empty text for `Collections` and `Check`.
    pub collection: &'w str,
    /// What is requested of the store.
    pub request: Request<'w>,
    /// How documents are laid out in the answer.
    pub layout: Layout,
}

/// A question to which documents are returned each by itself.
pub(crate) fn plain<'w>(collection: &'w str, request: Request<'w>) -> Question<'w>
    ensures { (result.collection ≡ collection.entry) × (result.request ≡ request.entry)
        × (result.layout ≡ Layout.Each) }
{
    Question {
        collection,
        request,
        layout: Layout::Each,
    }
}

/// The name of a collection.
pub(crate) fn name_of<'w>(arguments: &[Input<'_, 'w>]) -> Result<&'w str, Stop>
    ensures { (m : Maker) → MatchResult result (λ t. NameAlone (map seen arguments.now) t.now)
        (IsUnread m (argument.Collection ∷ []) (map seen arguments.now)) }
{
    match arguments {
        [name] => collection_of(*name),
        _ => Err(Stop::Words(Unread::Arguments)),
    }
}

/// A collection, and a document.
fn with_document<'w>(
    alloc: Global,
    arguments: &[Input<'_, 'w>],
    scratch: &mut Scratch,
) -> Result<(&'w str, Document), Stop>
    ensures { (m : Maker) → MatchResult result
        (λ p. NameAndDocument (map seen arguments.now) p.0.now (content p.1))
        (IsUnread m (argument.Collection ∷ argument.Document ∷ []) (map seen arguments.now)) }
{
    match arguments {
        [name, document] => {
            let name = collection_of(*name)?;
            Ok((name, document_of(alloc, *document, scratch)?))
        }
        _ => Err(Stop::Words(Unread::Arguments)),
    }
}

/// A collection, and an `_id`.
fn with_own_id<'w>(
    alloc: Global,
    arguments: &[Input<'_, 'w>],
    scratch: &mut Scratch,
) -> Result<(&'w str, Bson), Stop>
    ensures { (m : Maker) → MatchResult result
        (λ p. NameAndId (map seen arguments.now) p.0.now (view p.1))
        (IsUnread m (argument.Collection ∷ argument.Id ∷ []) (map seen arguments.now)) }
{
    match arguments {
        [name, id] => {
            let name = collection_of(*name)?;
            Ok((name, id_of(alloc, *id, scratch)?))
        }
        _ => Err(Stop::Words(Unread::Arguments)),
    }
}

/// A collection, an `_id` and a key.
fn with_key<'w>(
    alloc: Global,
    arguments: &[Input<'_, 'w>],
    scratch: &mut Scratch,
) -> Result<(&'w str, Bson, &'w str), Stop>
    ensures { (m : Maker) → MatchResult result
        (λ p. NameIdAndKey (map seen arguments.now) p.0.now (view p.1) p.2.now)
        (IsUnread m (argument.Collection ∷ argument.Id ∷ argument.Key ∷ [])
        (map seen arguments.now)) }
{
    match arguments {
        [name, id, key] => {
            let name = collection_of(*name)?;
            let id = id_of(alloc, *id, scratch)?;
            Ok((name, id, key_of(*key)?))
        }
        _ => Err(Stop::Words(Unread::Arguments)),
    }
}

/// A collection, an `_id`, a key and a value.
fn with_value<'w>(
    alloc: Global,
    arguments: &[Input<'_, 'w>],
    scratch: &mut Scratch,
) -> Result<(&'w str, Bson, &'w str, Bson), Stop>
    ensures { (m : Maker) → MatchResult result
        (λ p. NameIdKeyAndValue (map seen arguments.now) p.0.now (view p.1) p.2.now (view p.3))
        (IsUnread m (argument.Collection ∷ argument.Id ∷ argument.Key ∷ argument.Value ∷ [])
        (map seen arguments.now)) }
{
    match arguments {
        [name, id, key, value] => {
            let name = collection_of(*name)?;
            let id = id_of(alloc, *id, scratch)?;
            let key = key_of(*key)?;
            Ok((name, id, key, value_of(alloc, *value, scratch)?))
        }
        _ => Err(Stop::Words(Unread::Arguments)),
    }
}

/// All documents.
const WHOLE: Part = Part {
    skip: 0,
    limit: None,
};

/// The question that every document answers.
pub fn ask_for_all(alloc: Global) -> store_question::Question
    ensures { StandsFor result everything }
{
    store_question::Question::All(Vec::new(alloc))
}

/// A collection, and the question of the query, if there is one.
pub(crate) fn with_query<'w>(
    alloc: Global,
    arguments: &[Input<'_, 'w>],
    scratch: &mut Scratch,
) -> Result<(&'w str, store_question::Question), Stop>
    ensures { (m : Maker) → MatchResult result
        (λ p. NameAndQuery (map seen arguments.now) p.0.now p.1)
        (IsUnread m (argument.Collection ∷ argument.Query ∷ []) (map seen arguments.now)) }
{
    match arguments {
        [name] => Ok((collection_of(*name)?, ask_for_all(alloc))),
        [name, query] => {
            let name = collection_of(*name)?;
            Ok((name, query_in(alloc, *query, scratch)?))
        }
        _ => Err(Stop::Words(Unread::Arguments)),
    }
}

/// A collection, a path, and the question of the query, if there is one.
fn with_path_and_query<'w>(
    alloc: Global,
    arguments: &[Input<'_, 'w>],
    scratch: &mut Scratch,
) -> Result<(&'w str, Vec<String>, store_question::Question), Stop>
    ensures { (m : Maker) → MatchResult result
        (λ p. NamePathAndQuery (map seen arguments.now) p.0.now (path_view p.1.items) p.2)
        (IsUnread m (argument.Collection ∷ argument.IndexPath ∷ argument.Query ∷ []) (map seen arguments.now)) }
{
    match arguments {
        [name, path] => {
            let name = collection_of(*name)?;
            Ok((name, path_of(alloc, *path)?, ask_for_all(alloc)))
        }
        [name, path, query] => {
            let name = collection_of(*name)?;
            let path = path_of(alloc, *path)?;
            Ok((name, path, query_in(alloc, *query, scratch)?))
        }
        _ => Err(Stop::Words(Unread::Arguments)),
    }
}

/// A collection, the question of the query, the steps of the update, and whether all documents are meant.
fn with_update<'w>(
    alloc: Global,
    maker: &IdMaker,
    arguments: &[Input<'_, 'w>],
    scratch: &mut Scratch,
) -> Result<(&'w str, store_question::Question, Vec<Step>, bool), Stop>
    ensures { MatchResult result
        (λ p. NameQueryUpdateAndMany maker.now (map seen arguments.now) p.0.now p.1 (plans_of p.2) p.3)
        (IsUnread maker.now (argument.Collection ∷ argument.Selection ∷ argument.Update ∷ argument.Options ∷ [])
        (map seen arguments.now)) }
{
    match arguments {
        [name, query, update] => {
            let (name, question, steps) = parts_of(alloc, maker, *name, *query, *update, scratch)?;
            Ok((name, question, steps, false))
        }
        [name, query, update, options] => {
            let (name, question, steps) = parts_of(alloc, maker, *name, *query, *update, scratch)?;
            Ok((name, question, steps, many_of(*options)?))
        }
        _ => Err(Stop::Words(Unread::Arguments)),
    }
}

/// A collection, the question of the query, and whether all documents are meant.
fn with_selection<'w>(
    alloc: Global,
    arguments: &[Input<'_, 'w>],
    scratch: &mut Scratch,
) -> Result<(&'w str, store_question::Question, bool), Stop>
    ensures { (m : Maker) → MatchResult result
        (λ p. NameQueryAndMany (map seen arguments.now) p.0.now p.1 p.2)
        (IsUnread m (argument.Collection ∷ argument.Selection ∷ argument.Options ∷ [])
        (map seen arguments.now)) }
{
    match arguments {
        [name, query] => {
            let name = collection_of(*name)?;
            Ok((name, query_in(alloc, *query, scratch)?, false))
        }
        [name, query, options] => {
            let name = collection_of(*name)?;
            let question = query_in(alloc, *query, scratch)?;
            Ok((name, question, many_of(*options)?))
        }
        _ => Err(Stop::Words(Unread::Arguments)),
    }
}

/// A collection, the question of the query, and a document.
pub(crate) fn with_replacement<'w>(
    alloc: Global,
    arguments: &[Input<'_, 'w>],
    scratch: &mut Scratch,
) -> Result<(&'w str, store_question::Question, Document), Stop>
    ensures { (m : Maker) → MatchResult result
        (λ p. NameQueryAndDocument (map seen arguments.now) p.0.now p.1 (content p.2))
        (IsUnread m (argument.Collection ∷ argument.Selection ∷ argument.Document ∷ [])
        (map seen arguments.now)) }
{
    match arguments {
        [name, query, document] => {
            let name = collection_of(*name)?;
            let question = query_in(alloc, *query, scratch)?;
            Ok((name, question, document_of(alloc, *document, scratch)?))
        }
        _ => Err(Stop::Words(Unread::Arguments)),
    }
}

/// A copy of the `_id` of a document that has one.
pub(crate) fn own_id(alloc: Global, document: &Document) -> Result<Bson, AllocError>
    requires { has_key id_key (content document.now) ≡ true }
    ensures { IfOk result (λ id. look_up id_key (content document.now) ≡ Some (view id)) }
{
    match document.get("_id") {
        Some(id) => id.try_clone(alloc),
        None => unreachable!(),
    }
}

/// The request of `insert`: a document, with an `_id` that `maker` makes if it has none.
fn insert<'w>(
    alloc: Global,
    arguments: &[Input<'_, 'w>],
    maker: &mut IdMaker,
    scratch: &mut Scratch,
) -> Result<Question<'w>, Stop>
    ensures asked { Reads maker.old maker.new commands.Insert (map seen arguments.now) result }
    ensures maker { IfErr result (KeepsMaker maker.old maker.new) }
{
    let (collection, document) = with_document(alloc, arguments, scratch)?;
    let document = with_id(alloc, document, maker)?;
    let id = own_id(alloc, &document)?;
    Ok(plain(collection, Request::Insert(id, document)))
}

/// The request of `put`: a document with an `_id`.
fn put<'w>(
    alloc: Global,
    arguments: &[Input<'_, 'w>],
    scratch: &mut Scratch,
) -> Result<Question<'w>, Stop>
    ensures { (m : Maker) → Reads m m commands.Put (map seen arguments.now) result }
{
    let (collection, document) = with_document(alloc, arguments, scratch)?;
    Ok(plain(collection, Request::Put(document)))
}

/// The request of `replace`: a document with an `_id`.
fn replace<'w>(
    alloc: Global,
    arguments: &[Input<'_, 'w>],
    scratch: &mut Scratch,
) -> Result<Question<'w>, Stop>
    ensures { (m : Maker) → Reads m m commands.Replace (map seen arguments.now) result }
{
    let (collection, document) = with_document(alloc, arguments, scratch)?;
    Ok(plain(collection, Request::Replace(document)))
}

/// The request of `get`: an `_id`.
fn get<'w>(
    alloc: Global,
    arguments: &[Input<'_, 'w>],
    scratch: &mut Scratch,
) -> Result<Question<'w>, Stop>
    ensures { (m : Maker) → Reads m m commands.Get (map seen arguments.now) result }
{
    let (collection, id) = with_own_id(alloc, arguments, scratch)?;
    Ok(plain(collection, Request::Get(id)))
}

/// The request of `set`: an `_id`, a key, or a path of several, and a value.
fn set<'w>(
    alloc: Global,
    arguments: &[Input<'_, 'w>],
    scratch: &mut Scratch,
) -> Result<Question<'w>, Stop>
    ensures { (m : Maker) → Reads m m commands.Set (map seen arguments.now) result }
{
    let (collection, id, key, value) = with_value(alloc, arguments, scratch)?;
    Ok(plain(collection, Request::Set(id, key, value)))
}

/// The request of `unset`: an `_id` and a key, or a path of several.
fn unset<'w>(
    alloc: Global,
    arguments: &[Input<'_, 'w>],
    scratch: &mut Scratch,
) -> Result<Question<'w>, Stop>
    ensures { (m : Maker) → Reads m m commands.Unset (map seen arguments.now) result }
{
    let (collection, id, key) = with_key(alloc, arguments, scratch)?;
    Ok(plain(collection, Request::Unset(id, key)))
}

/// The request of `update`: a query, steps, and whether one document or each is changed.
fn update<'w>(
    alloc: Global,
    arguments: &[Input<'_, 'w>],
    maker: &IdMaker,
    scratch: &mut Scratch,
) -> Result<Question<'w>, Stop>
    ensures { Reads maker.now maker.now commands.Update (map seen arguments.now) result }
{
    let (collection, question, steps, many) = with_update(alloc, maker, arguments, scratch)?;
    let work = Work::Update(steps);
    Ok(plain(collection, Request::Change(question, work, many)))
}

/// The request of `replace-one`: a query and the document to put in the place of the first that answers.
fn replace_one<'w>(
    alloc: Global,
    arguments: &[Input<'_, 'w>],
    scratch: &mut Scratch,
) -> Result<Question<'w>, Stop>
    ensures { (m : Maker) → Reads m m commands.ReplaceOne (map seen arguments.now) result }
{
    let (collection, question, document) = with_replacement(alloc, arguments, scratch)?;
    let work = Work::Replace(document);
    Ok(plain(collection, Request::Change(question, work, false)))
}

/// The request of `delete`: a query, and whether one document or each is removed.
fn delete<'w>(
    alloc: Global,
    arguments: &[Input<'_, 'w>],
    scratch: &mut Scratch,
) -> Result<Question<'w>, Stop>
    ensures { (m : Maker) → Reads m m commands.Delete (map seen arguments.now) result }
{
    let (collection, question, many) = with_selection(alloc, arguments, scratch)?;
    Ok(plain(collection, Request::Change(question, Work::Remove, many)))
}

/// The request of `remove`: an `_id`.
fn remove<'w>(
    alloc: Global,
    arguments: &[Input<'_, 'w>],
    scratch: &mut Scratch,
) -> Result<Question<'w>, Stop>
    ensures { (m : Maker) → Reads m m commands.Remove (map seen arguments.now) result }
{
    let (collection, id) = with_own_id(alloc, arguments, scratch)?;
    Ok(plain(collection, Request::Remove(id)))
}

/// The request of `find`: a query, or none for all documents.
fn find<'w>(
    alloc: Global,
    arguments: &[Input<'_, 'w>],
    scratch: &mut Scratch,
) -> Result<Question<'w>, Stop>
    ensures { (m : Maker) → Reads m m commands.Find (map seen arguments.now) result }
{
    let (collection, query) = with_query(alloc, arguments, scratch)?;
    Ok(plain(collection, Request::Find(query, all_of(alloc))))
}

/// The request of `count`: a query, or none for all documents.
fn count<'w>(
    alloc: Global,
    arguments: &[Input<'_, 'w>],
    scratch: &mut Scratch,
) -> Result<Question<'w>, Stop>
    ensures { (m : Maker) → Reads m m commands.Count (map seen arguments.now) result }
{
    let (collection, query) = with_query(alloc, arguments, scratch)?;
    Ok(plain(collection, Request::Count(query, WHOLE)))
}

/// The request of `distinct`: a path, a query, and whether documents are counted.
fn distinct<'w>(
    alloc: Global,
    arguments: &[Input<'_, 'w>],
    scratch: &mut Scratch,
) -> Result<Question<'w>, Stop>
    ensures { (m : Maker) → Reads m m commands.Distinct (map seen arguments.now) result }
{
    let (collection, path, query) = with_path_and_query(alloc, arguments, scratch)?;
    Ok(plain(collection, Request::Distinct(path, query, false)))
}

/// The request of `import`: the documents of an input.
fn import<'w>(
    alloc: Global,
    arguments: &[Input<'_, 'w>],
    maker: &mut IdMaker,
) -> Result<Question<'w>, Stop>
    ensures { Reads maker.old maker.new commands.Import (map seen arguments.now) result }
{
    match arguments {
        [name, documents] => {
            let collection = collection_of(*name)?;
            let stream = stream_in(alloc, *documents, maker)?;
            Ok(plain(collection, Request::Import(stream, Existing::Refuse)))
        }
        _ => Err(Stop::Words(Unread::Arguments)),
    }
}

/// The request of `export`, which has a collection alone.
fn export<'w>(alloc: Global, arguments: &[Input<'_, 'w>]) -> Result<Question<'w>, Stop>
    ensures { (m : Maker) → Reads m m commands.Export (map seen arguments.now) result }
{
    let collection = name_of(arguments)?;
    Ok(Question {
        collection,
        request: Request::Find(ask_for_all(alloc), all_of(alloc)),
        layout: Layout::Stream,
    })
}

/// The request of `collections`, which has no argument.
fn collections<'w>(arguments: &[Input<'_, 'w>]) -> Result<Question<'w>, Stop>
    ensures { (m : Maker) → Reads m m commands.Collections (map seen arguments.now) result }
{
    match arguments {
        [] => Ok(plain("", Request::Collections)),
        _ => Err(Stop::Words(Unread::Arguments)),
    }
}

/// The request of `check`, which has no argument.
fn check<'w>(arguments: &[Input<'_, 'w>]) -> Result<Question<'w>, Stop>
    ensures { (m : Maker) → Reads m m commands.Check (map seen arguments.now) result }
{
    match arguments {
        [] => Ok(plain("", Request::Check)),
        _ => Err(Stop::Words(Unread::Arguments)),
    }
}

/// What a command asks for by its arguments, in whatever way they come.
fn question_of<'w>(
    alloc: Global,
    command: Command,
    arguments: &[Input<'_, 'w>],
    maker: &mut IdMaker,
    scratch: &mut Scratch,
) -> Result<Question<'w>, Stop>
    ensures asked { Reads maker.old maker.new command (map seen arguments.now) result }
    ensures maker { command ≢ commands.Import → IfErr result (KeepsMaker maker.old maker.new) }
{
    match command {
        Command::Insert => insert(alloc, arguments, maker, scratch),
        Command::Put => put(alloc, arguments, scratch),
        Command::Replace => replace(alloc, arguments, scratch),
        Command::Get => get(alloc, arguments, scratch),
        Command::Set => set(alloc, arguments, scratch),
        Command::Unset => unset(alloc, arguments, scratch),
        Command::Update => update(alloc, arguments, maker, scratch),
        Command::ReplaceOne => replace_one(alloc, arguments, scratch),
        Command::Delete => delete(alloc, arguments, scratch),
        Command::FindAndUpdate => find_and_update(alloc, arguments, maker, scratch),
        Command::FindAndReplace => find_and_replace(alloc, arguments, scratch),
        Command::FindAndDelete => find_and_delete(alloc, arguments, scratch),
        Command::Remove => remove(alloc, arguments, scratch),
        Command::Find => find(alloc, arguments, scratch),
        Command::Count => count(alloc, arguments, scratch),
        Command::Distinct => distinct(alloc, arguments, scratch),
        Command::Aggregate => aggregate(alloc, arguments, scratch),
        Command::Import => import(alloc, arguments, maker),
        Command::Export => export(alloc, arguments),
        Command::Drop => drop_collection(arguments),
        Command::Rename => rename(arguments),
        Command::Copy => copy(arguments),
        Command::Index => index(alloc, arguments),
        Command::DropIndex => drop_index(alloc, arguments),
        Command::Collections => collections(arguments),
        Command::Check => check(arguments),
        Command::Backup
        | Command::Apply
        | Command::Version
        | Command::ImportAll
        | Command::ExportAll
        | Command::Edit => Err(Stop::Words(Unread::Command)),
    }
}

/// What a command asks for by no argument.
fn ask_none<'w>(
    alloc: Global,
    command: Command,
    maker: &mut IdMaker,
    scratch: &mut Scratch,
) -> Result<Question<'w>, Stop>
    ensures asked { Reads maker.old maker.new command [] result }
    ensures maker { command ≢ commands.Import → IfErr result (KeepsMaker maker.old maker.new) }
{
    let none: [Input<'w, 'w>; 0] = [];
    question_of(alloc, command, &none, maker, scratch)
}

/// What a command asks for by one argument.
fn ask_one<'w>(
    alloc: Global,
    command: Command,
    first: Input<'_, 'w>,
    maker: &mut IdMaker,
    scratch: &mut Scratch,
) -> Result<Question<'w>, Stop>
    ensures asked { Reads maker.old maker.new command (seen first.entry ∷ []) result }
    ensures maker { command ≢ commands.Import → IfErr result (KeepsMaker maker.old maker.new) }
{
    question_of(alloc, command, &[first], maker, scratch)
}

/// What a command asks for by two arguments.
fn ask_two<'w>(
    alloc: Global,
    command: Command,
    first: Input<'_, 'w>,
    second: Input<'_, 'w>,
    maker: &mut IdMaker,
    scratch: &mut Scratch,
) -> Result<Question<'w>, Stop>
    ensures asked { Reads maker.old maker.new command (seen first.entry ∷ seen second.entry ∷ []) result }
    ensures maker { command ≢ commands.Import → IfErr result (KeepsMaker maker.old maker.new) }
{
    question_of(alloc, command, &[first, second], maker, scratch)
}

/// What a command asks for by three arguments.
fn ask_three<'w>(
    alloc: Global,
    command: Command,
    first: Input<'_, 'w>,
    second: Input<'_, 'w>,
    third: Input<'_, 'w>,
    maker: &mut IdMaker,
    scratch: &mut Scratch,
) -> Result<Question<'w>, Stop>
    ensures asked { Reads maker.old maker.new command (seen first.entry ∷ seen second.entry ∷ seen third.entry ∷ []) result }
    ensures maker { command ≢ commands.Import → IfErr result (KeepsMaker maker.old maker.new) }
{
    question_of(alloc, command, &[first, second, third], maker, scratch)
}

/// What a command asks for by four arguments, the most that a command has.
fn ask_four<'w>(
    alloc: Global,
    command: Command,
    first: Input<'_, 'w>,
    second: Input<'_, 'w>,
    third: Input<'_, 'w>,
    fourth: Input<'_, 'w>,
    maker: &mut IdMaker,
    scratch: &mut Scratch,
) -> Result<Question<'w>, Stop>
    ensures asked { Reads maker.old maker.new command (seen first.entry ∷ seen second.entry ∷ seen third.entry ∷ seen fourth.entry ∷ []) result }
    ensures maker { command ≢ commands.Import → IfErr result (KeepsMaker maker.old maker.new) }
{
    question_of(
        alloc,
        command,
        &[first, second, third, fourth],
        maker,
        scratch,
    )
}

/// What a command asks for whose arguments are words of a command line. A document that is to be inserted gets an `_id`
/// of the maker if it has none. `scratch` is room that is kept from text to text.
///
/// `Words` for the first argument, in the order of the table, that can't be read, and why; or `Arguments` if there are
/// too few or too many of them, or `Command` if it is one, as `backup`, that asks nothing of a store. `Memory` if a
/// growth was refused.
pub fn question_of_words<'w>(
    alloc: Global,
    command: Command,
    words: &'w [String],
    maker: &mut IdMaker,
    scratch: &mut Scratch,
) -> Result<Question<'w>, Stop>
    ensures asked { Reads maker.old maker.new command (texts words.now) result }
    ensures maker { command ≢ commands.Import → IfErr result (KeepsMaker maker.old maker.new) }
{
    match words {
        [] => ask_none(alloc, command, maker, scratch),
        [a] => ask_one(alloc, command, of_word(a), maker, scratch),
        [a, b] => ask_two(alloc, command, of_word(a), of_word(b), maker, scratch),
        [a, b, c] => ask_three(
            alloc,
            command,
            of_word(a),
            of_word(b),
            of_word(c),
            maker,
            scratch,
        ),
        [a, b, c, d] => ask_four(
            alloc,
            command,
            of_word(a),
            of_word(b),
            of_word(c),
            of_word(d),
            maker,
            scratch,
        ),
        _ => Err(Stop::Words(beyond(command))),
    }
}

/// What a command asks for whose arguments are the values of an array, as `question_of_words` says of words. Each
/// document of an array gets an `_id` of the maker if it has none.
pub fn question_of_items<'w>(
    alloc: Global,
    command: Command,
    items: &[Value<'w>],
    maker: &mut IdMaker,
    scratch: &mut Scratch,
) -> Result<Question<'w>, Stop>
    ensures asked { Reads maker.old maker.new command (trees (items_view items.now)) result }
    ensures maker { command ≢ commands.Import → IfErr result (KeepsMaker maker.old maker.new) }
{
    match items {
        [] => ask_none(alloc, command, maker, scratch),
        [a] => ask_one(alloc, command, of_value(a), maker, scratch),
        [a, b] => ask_two(alloc, command, of_value(a), of_value(b), maker, scratch),
        [a, b, c] => ask_three(
            alloc,
            command,
            of_value(a),
            of_value(b),
            of_value(c),
            maker,
            scratch,
        ),
        [a, b, c, d] => ask_four(
            alloc,
            command,
            of_value(a),
            of_value(b),
            of_value(c),
            of_value(d),
            maker,
            scratch,
        ),
        _ => Err(Stop::Words(beyond(command))),
    }
}
