//! What `find` returns of the documents that it finds: their order, which part of them, and which fields; and so of a
//! document that is found and changed.

ghost use Rattle.std.specs.Prelude.{◌≡◌, ◌≢◌, ◌⊎◌, [], ℕ, IfErr, IfOk, MatchOption, Err, MatchResult, None, OnOk, Some, true};
ghost use Rattle.std.specs.Option.{option_map};
ghost use Rattle.json.specs.Value.{items_view, members_view, value_view as data_of};
ghost use Rattle.store_pipeline.specs.Bodies.{key_of, keys_of};
ghost use Rattle.fallowtime_requests.specs.Arranging.{AsksWanted, FindsDocuments, IsOfNumbers, IsOfWords, IsPlan, Plan, PutsOption, PutsOptions, ReadsLine, ReadsThree, ReadsTwo, StopsOptions, StopsSort, StopsWanted, StopsWith, after_in, part_of, plan_of, whole, with_wanted};
ghost use Rattle.fallowtime_requests.specs.Orders.{IsCount, key_in, keys_behind, keys_under, turn_in};
ghost use Rattle.fallowtime_requests.specs.Plain.{are_plainly};
ghost use Rattle.fallowtime_requests.specs.Reading.{KeepsMaker};
ghost use Rattle.fallowtime_requests.specs.Requests.{WantsAll};
ghost use Rattle.fallowtime_requests.specs.declared.stop.Stop.TheVariants.{Memory, Words as InWords};
ghost use Rattle.fallowtime_requests.specs.declared.unread.Unread.TheVariants as unread;
ghost use Rattle.fallowtime_words.specs.Commands.{allowed};
ghost use Rattle.fallowtime_words.specs.declared.command.Command.TheVariants as commands;

use crate::choosing::change_of_line;
use crate::counting::distinct_of_line;
use crate::fields::{fields_in, fields_of_words};
use crate::importing::import_of_line;
use crate::keying::{set_of_line, unset_of_line};
use crate::limiting::count_of_line;
use crate::options::boolean_of;
use crate::plain::are_plainly;
use crate::reading::{Question, question_of_items};
use crate::request::{Part, Request, Wanted};
use crate::stop::{Stop, given_up};
use crate::transferring::rename_of_line;
use crate::unread::Unread;
use bson_json_read::Scratch;
use cli_convert::IdMaker;
use fallowtime_words::{Command, Words};
use json::Value;
use std::alloc::{AllocError, Global};
use std::mem::replace;
use store_pipeline::sorted::{Arrangement, SortKey, sort_key_by, sort_keys_of};

/// All documents, as they come, each whole.
pub(crate) fn all_of(alloc: Global) -> Wanted
    ensures { WantsAll result }
{
    Wanted {
        arrangement: Arrangement {
            keys: Vec::new(alloc),
            skip: 0,
            limit: None,
        },
        fields: None,
        after: false,
    }
}

/// The arrangement that the options of a command line ask for: the text of `--sort`, and the numbers of `--skip` and
/// `--limit`.
fn arrangement_of_words(
    alloc: Global,
    sort: Option<&str>,
    skip: Option<usize>,
    limit: Option<usize>,
) -> Result<Arrangement, AllocError>
    ensures { IfOk result (IsOfNumbers (option_map (λ t. t.now) sort.entry) skip limit) }
{
    let keys = match sort {
        Some(text) => sort_keys_of(alloc, text)?,
        None => Vec::new(alloc),
    };
    Ok(Arrangement {
        keys,
        skip: skip.unwrap_or(0),
        limit,
    })
}

/// The same, if its paths are plain: `Words` of `Options` if one of them isn't, so that it is likely to be meant as
/// something else.
fn plain_arrangement(
    alloc: Global,
    sort: Option<&str>,
    skip: Option<usize>,
    limit: Option<usize>,
) -> Result<Arrangement, Stop>
    ensures { MatchResult result
        (λ a. IsOfNumbers (option_map (λ t. t.now) sort.entry) skip limit a × (are_plainly (keys_of a.keys.items) ≡ true))
        (StopsSort (option_map (λ t. t.now) sort.entry)) }
{
    let arrangement = arrangement_of_words(alloc, sort, skip, limit)?;
    if are_plainly(arrangement.keys.as_slice()) {
        Ok(arrangement)
    } else {
        Err(Stop::Words(Unread::Options))
    }
}

/// What the options of a command line want of documents.
///
/// A path of `--sort`, `--fields` or `--without` is taken only if it is plain: it begins with neither a hyphen nor a
/// plus, none of its keys is empty, and none has a space, a double quote, a colon or a brace. In the text of `--sort`
/// that is the path without `:1` or `:-1`. So what is meant as an order, as JSON, or as a path behind a comma and a
/// space is refused, and is no other key than the one that was meant. A line of JSON can name any key.
///
/// `Words` of `Options` if a path of `--sort` isn't plain; of `Fields` if the paths of `--fields` and `--without` can't
/// name fields; of `Options` if one of these isn't plain. `Memory` if a growth was refused.
pub fn wanted_of_words(alloc: Global, words: &Words<'_>) -> Result<Wanted, Stop>
    ensures { MatchResult result (IsOfWords words.now) (StopsWanted words.now) }
{
    let options = words.options;
    let arrangement = plain_arrangement(alloc, words.sort, options.skip, options.limit)?;
    let fields = fields_of_words(alloc, words.fields, words.without)?;
    Ok(Wanted {
        arrangement,
        fields,
        after: options.after,
    })
}

/// Which part of the documents is wanted.
pub(crate) fn part_of(wanted: &Wanted) -> Part
    ensures { result ≡ part_of wanted.now }
{
    Part {
        skip: wanted.arrangement.skip,
        limit: wanted.arrangement.limit,
    }
}

/// Lets a question that finds documents return what is wanted of them, or of the one that it changes, and one that
/// counts documents count the part that is wanted. Any other stays as it is.
pub fn want(question: &mut Question<'_>, wanted: Wanted)
    ensures request { question.new.request ≡ with_wanted wanted question.old.request }
    ensures collection { question.new.collection ≡ question.old.collection }
    ensures layout { question.new.layout ≡ question.old.layout }
{
    match &mut question.request {
        Request::Find(_, place) => drop(replace(place, wanted)),
        Request::FindAndChange(_, place, _) => drop(replace(place, wanted)),
        Request::Count(_, place) => {
            *place = part_of(&wanted);
            drop(wanted);
        }
        _ => drop(wanted),
    }
}

/// The question, with what is wanted.
fn wanting<'w>(question: Question<'w>, wanted: Wanted) -> Question<'w>
    ensures { (result.request ≡ with_wanted wanted question.entry.request) × (result.collection ≡ question.entry.collection)
        × (result.layout ≡ question.entry.layout) }
{
    let mut question = question;
    want(&mut question, wanted);
    question
}

/// The number of documents that a value is: decimal digits alone.
pub(crate) fn count_in(value: &Value<'_>) -> Option<usize>
    ensures { MatchOption result ((n : ℕ) → IsCount (data_of value.now) n → ⊥) (λ n. IsCount (data_of value.now) n) }
{
    match value {
        Value::Number(text) if !text.starts_with('+') => text.parse::<usize>().ok(),
        _ => None,
    }
}

/// Whether the greatest comes first under a key: `1` says that the least does, `-1` that the greatest does.
fn is_descending(value: &Value<'_>) -> Option<bool>
    ensures { result ≡ turn_in (data_of value.now) }
{
    match value {
        Value::Number(text) => match *text {
            "1" => Some(false),
            "-1" => Some(true),
            _ => None,
        },
        _ => None,
    }
}

/// A key of an order.
fn key_in(alloc: Global, name: &str, value: &Value<'_>) -> Result<SortKey, Stop>
    ensures { MatchResult result (λ key. key_in name.now (data_of value.now) ≡ Some (key_of key))
        (λ s. (s ≡ Memory) ⊎ ((s ≡ InWords unread.Options) × (key_in name.now (data_of value.now) ≡ None))) }
{
    match is_descending(value) {
        Some(descending) => Ok(sort_key_by(alloc, name, descending)?),
        None => Err(Stop::Words(Unread::Options)),
    }
}

/// The keys of an order, one after the other.
fn keys_among(alloc: Global, members: &[(&str, Value<'_>)]) -> Result<Vec<SortKey>, Stop>
    ensures { MatchResult result (λ keys. keys_behind [] (members_view members.now) ≡ Some (keys_of keys.items))
        (λ s. (s ≡ Memory) ⊎ ((s ≡ InWords unread.Options) × (keys_behind [] (members_view members.now) ≡ None))) }
{
    let mut keys = Vec::new(alloc);
    for (name, value) in members {
        let key = key_in(alloc, *name, value)?;
        keys.push(key)?;
    }
    Ok(keys)
}

/// The keys that an object is as an order.
pub(crate) fn keys_in(alloc: Global, value: &Value<'_>) -> Result<Vec<SortKey>, Stop>
    ensures { MatchResult result (λ keys. keys_under (data_of value.now) ≡ Some (keys_of keys.items))
        (λ s. (s ≡ Memory) ⊎ ((s ≡ InWords unread.Options) × (keys_under (data_of value.now) ≡ None))) }
{
    match value {
        Value::Object(members) => keys_among(alloc, members.as_slice()),
        _ => Err(Stop::Words(Unread::Options)),
    }
}

/// Whether a document is returned as it is after the change, if there is one.
fn after_in(changes: bool, value: &Value<'_>) -> Option<bool>
    ensures { result ≡ after_in changes (data_of value.now) }
{
    if changes { boolean_of(value) } else { None }
}

/// Puts the option of one name to what is wanted.
fn put_option(
    alloc: Global,
    changes: bool,
    wanted: &mut Wanted,
    name: &str,
    value: &Value<'_>,
) -> Result<(), Stop>
    ensures put { OnOk result (PutsOption changes (plan_of wanted.old) name.now (data_of value.now) (plan_of wanted.new)) }
    ensures stop { IfErr result (StopsOptions ((q : Plan) → PutsOption changes (plan_of wanted.old) name.now (data_of value.now) q → ⊥)) }
{
    match name {
        "sort" => wanted.arrangement.keys = keys_in(alloc, value)?,
        "skip" => {
            wanted.arrangement.skip = count_in(value).ok_or(Stop::Words(Unread::Options))?;
        }
        "limit" => {
            wanted.arrangement.limit = Some(count_in(value).ok_or(Stop::Words(Unread::Options))?);
        }
        "fields" => wanted.fields = fields_in(alloc, value)?,
        "after" => wanted.after = after_in(changes, value).ok_or(Stop::Words(Unread::Options))?,
        _ => return Err(Stop::Words(Unread::Options)),
    }
    Ok(())
}

/// What the members of an object of options want.
fn wanted_among(alloc: Global, changes: bool, members: &[(&str, Value<'_>)]) -> Result<Wanted, Stop>
    ensures { MatchResult result (λ a. PutsOptions changes whole (members_view members.now) (plan_of a))
        (StopsOptions ((q : Plan) → PutsOptions changes whole (members_view members.now) q → ⊥)) }
{
    let mut wanted = all_of(alloc);
    for (name, value) in members {
        put_option(alloc, changes, &mut wanted, *name, value)?;
    }
    Ok(wanted)
}

/// What an object of options wants.
pub(crate) fn wanted_of(alloc: Global, changes: bool, tree: &Value<'_>) -> Result<Wanted, Stop>
    ensures { MatchResult result (λ a. IsPlan changes (data_of tree.now) (plan_of a))
        (StopsOptions ((q : Plan) → IsPlan changes (data_of tree.now) q → ⊥)) }
{
    match tree {
        Value::Object(members) => wanted_among(alloc, changes, members.as_slice()),
        _ => Err(Stop::Words(Unread::Options)),
    }
}

/// Whether a command changes the document that it finds and that it may return as it is afterwards.
fn has_after(command: Command) -> bool
    ensures { result ≡ (allowed command).after }
{
    command.signature().options.after
}

/// What a command that finds documents asks for by its arguments and an object of options.
fn find_by_options<'w>(
    alloc: Global,
    command: Command,
    items: &[Value<'w>],
    options: &Value<'_>,
    maker: &mut IdMaker,
    scratch: &mut Scratch,
) -> Result<Question<'w>, Stop>
    requires { FindsDocuments command }
    ensures asked { MatchResult result
        (λ q. AsksWanted maker.old maker.new command (items_view items.now) (data_of options.now) q.collection.now q.request q.layout)
        (StopsWith maker.old maker.new command (items_view items.now) (data_of options.now)) }
    ensures maker { IfErr result (KeepsMaker maker.old maker.new) }
{
    let question = question_of_items(alloc, command, items, maker, scratch)?;
    match wanted_of(alloc, has_after(command), options) {
        Ok(wanted) => Ok(wanting(question, wanted)),
        Err(stop) => Err(given_up(question, stop)),
    }
}

/// What a command that finds documents asks for by the values of a line, a collection and a query and maybe options.
fn find_of_two<'w>(
    alloc: Global,
    command: Command,
    items: &[Value<'w>],
    maker: &mut IdMaker,
    scratch: &mut Scratch,
) -> Result<Question<'w>, Stop>
    requires { FindsDocuments command }
    ensures asked { ReadsTwo maker.old maker.new command (items_view items.now) result }
    ensures maker { IfErr result (KeepsMaker maker.old maker.new) }
{
    match items {
        [_, _, options] => find_by_options(alloc, command, &items[..2], options, maker, scratch),
        _ => question_of_items(alloc, command, items, maker, scratch),
    }
}

/// The same of a command that has one more argument in front of the options.
fn find_of_three<'w>(
    alloc: Global,
    command: Command,
    items: &[Value<'w>],
    maker: &mut IdMaker,
    scratch: &mut Scratch,
) -> Result<Question<'w>, Stop>
    requires { FindsDocuments command }
    ensures asked { ReadsThree maker.old maker.new command (items_view items.now) result }
    ensures maker { IfErr result (KeepsMaker maker.old maker.new) }
{
    match items {
        [_, _, _, options] => {
            find_by_options(alloc, command, &items[..3], options, maker, scratch)
        }
        _ => question_of_items(alloc, command, items, maker, scratch),
    }
}

/// What a line asks for whose command has the values of an array as its arguments, as `question_of_items` says. Behind
/// them `find`, `find-and-update`, `find-and-replace` and `find-and-delete` have an object of the options `sort`,
/// `skip`, `limit` and `fields`, and the second and the third of these also `after`; `update` and `replace-one` have
/// one with the option `upsert`, `distinct` one with the option `count`, `count` one with the options `skip` and
/// `limit`, `rename` one with the option `drop`, `import` one with `upsert` or `skip-existing`, and `set` and `unset` one
/// with the option `key`, without which a key that has a dot is a path.
///
/// `Words` as there, `Options` if that object can't be read, and `Equalities` if the equality fields of a query can't
/// be set beside each other.
pub fn question_of_line<'w>(
    alloc: Global,
    command: Command,
    items: &[Value<'w>],
    maker: &mut IdMaker,
    scratch: &mut Scratch,
) -> Result<Question<'w>, Stop>
    ensures asked { ReadsLine maker.old maker.new command (items_view items.now) result }
    ensures maker { command ≢ commands.Import → IfErr result (KeepsMaker maker.old maker.new) }
{
    match command {
        Command::Find => find_of_two(alloc, Command::Find, items, maker, scratch),
        Command::FindAndUpdate => {
            find_of_three(alloc, Command::FindAndUpdate, items, maker, scratch)
        }
        Command::FindAndReplace => {
            find_of_three(alloc, Command::FindAndReplace, items, maker, scratch)
        }
        Command::FindAndDelete => {
            find_of_two(alloc, Command::FindAndDelete, items, maker, scratch)
        }
        Command::Update => change_of_line(alloc, Command::Update, true, items, maker, scratch),
        Command::ReplaceOne => {
            change_of_line(alloc, Command::ReplaceOne, false, items, maker, scratch)
        }
        Command::Distinct => distinct_of_line(alloc, items, maker, scratch),
        Command::Count => count_of_line(alloc, items, maker, scratch),
        Command::Rename => rename_of_line(alloc, items, maker, scratch),
        Command::Import => import_of_line(alloc, items, maker, scratch),
        Command::Set => set_of_line(alloc, items, maker, scratch),
        Command::Unset => unset_of_line(alloc, items, maker, scratch),
        _ => question_of_items(alloc, command, items, maker, scratch),
    }
}
