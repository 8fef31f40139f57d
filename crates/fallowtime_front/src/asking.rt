//! What a command of `fallowtime` asks for, read from its words and from the input.

ghost use Rattle.std.specs.Prelude.{◌≡◌, ◌≢◌, [], map, string_bytes};
ghost use Rattle.bson_base.specs.Device.{CanFail};
ghost use Rattle.fallowtime_front.specs.Asking.{Asks, AsksByWords, AsksForLines, AsksForStream, AsksToImport, existing_by, first_word, form_by};
ghost use Rattle.fallowtime_words.specs.declared.command.Command.TheVariants.{Import};

use crate::ending::Ended;
use bson_base::{ReadAllError, Source, read_all};
use bson_model::extjson::Mode;
use cli_convert::{IdMaker, read_lines};
use fallowtime_commands::{Form, Refusal};
use fallowtime_requests::{
    Existing, Question, Request, along_path, question_of_words, upsert_by_words, want,
    wanted_of_words,
};
use fallowtime_words::{Argument, Command, Options, Words};
use json::Scratch;
use std::alloc::Global;
use store_documents::Name;
use store_model::ErrorKind;

/// The form in which a command prints documents: lines of relaxed Extended JSON, except if its options say otherwise.
pub fn form_of(options: &Options) -> Form
    ensures { result ≡ form_by options.now.bytes options.now.canonical }
{
    if options.bytes {
        Form::Bytes
    } else if options.canonical {
        Form::Lines(Mode::Canonical)
    } else {
        Form::Lines(Mode::Relaxed)
    }
}

/// What a command asks of a store.
#[derive(Drop)]
pub struct Asked<'w> {
    /// The collection; an empty text if the command has none.
    pub collection: &'w str,
    /// The request; none to write all documents of the collection as BSON, one after the other.
    pub request: Option<Request<'w>>,
    /// For documents that came from lines, the line of each, counted from 1.
    pub lines: Vec<u64>,
}

/// The name of the collection: the first argument, if there is one.
fn collection_of<'w>(words: &Words<'w>) -> &'w str
    ensures { result.now ≡ first_word (map string_bytes words.now.arguments.now) }
{
    match words.arguments {
        [name, ..] => name.as_str(),
        _ => "",
    }
}

/// A request of no lines.
fn without_lines<'w>(alloc: Global, collection: &'w str, request: Option<Request<'w>>) -> Asked<'w>
    ensures collection { result.collection ≡ collection.entry }
    ensures request { result.request ≡ request.entry }
    ensures lines { result.lines.items ≡ [] }
{
    Asked {
        collection,
        request,
        lines: Vec::new(alloc),
    }
}

/// What becomes of a document that is imported if its `_id` is there.
fn existing_of(options: &Options) -> Existing
    ensures { result ≡ existing_by options.now.upsert options.now.skip_existing }
{
    if options.upsert {
        Existing::Replace
    } else if options.skip_existing {
        Existing::Skip
    } else {
        Existing::Refuse
    }
}

/// The documents of the input as lines of Extended JSON.
fn import_of_lines<'w, I: Source>(
    alloc: Global,
    collection: &'w str,
    existing: Existing,
    maker: &mut IdMaker,
    input: &mut I,
) -> Result<Asked<'w>, Ended>
    requires { CanFail (I.feed input.old) }
    ensures { AsksForLines collection.now existing (I.feed input.old) (I.feed input.new) maker.old maker.new
        result }
{
    match read_lines(alloc, input, maker) {
        Ok(taken) => Ok(Asked {
            collection,
            request: Some(Request::Import(taken.stream, existing)),
            lines: taken.lines,
        }),
        Err(stop) => Err(Ended::Lines(stop)),
    }
}

/// The documents of the input as BSON.
fn import_of_stream<'w, I: Source>(
    alloc: Global,
    collection: &'w str,
    existing: Existing,
    input: &mut I,
) -> Result<Asked<'w>, Ended>
    requires { CanFail (I.feed input.old) }
    ensures { AsksForStream collection.now existing (I.feed input.old) (I.feed input.new) result }
{
    match read_all(alloc, input) {
        Ok(stream) => {
            let request = Request::Import(stream, existing);
            Ok(without_lines(alloc, collection, Some(request)))
        }
        Err(ReadAllError::Reader) => Err(Ended::Refused(Refusal::from(ErrorKind::Reader))),
        Err(ReadAllError::Memory) => Err(Ended::Refused(Refusal::from(ErrorKind::Memory))),
    }
}

/// The documents of the input, as BSON or as lines of Extended JSON. Under a bad name nothing is read.
fn import_of<'w, I: Source>(
    alloc: Global,
    words: &Words<'w>,
    maker: &mut IdMaker,
    input: &mut I,
) -> Result<Asked<'w>, Ended>
    requires { CanFail (I.feed input.old) }
    ensures { AsksToImport words.now (I.feed input.old)
        (I.feed input.new) maker.old maker.new result }
{
    let collection = collection_of(words);
    if Name::new(collection).is_none() {
        return Err(Ended::Refused(Refusal::from(ErrorKind::BadName)));
    }
    let existing = existing_of(&words.options);
    if words.options.lines {
        import_of_lines(alloc, collection, existing, maker, input)
    } else {
        import_of_stream(alloc, collection, existing, input)
    }
}

/// What a command asks for by its words alone.
fn ask_by_words<'w>(
    alloc: Global,
    words: &Words<'w>,
    maker: &mut IdMaker,
) -> Result<Asked<'w>, Ended>
    requires { words.now.command ≢ Import }
    ensures { AsksByWords words.now maker.old maker.new result }
{
    let wanted = wanted_of_words(alloc, words)?;
    let mut scratch = Scratch::new(alloc);
    let read = question_of_words(alloc, words.command, words.arguments, maker, &mut scratch)?;
    let named = along_path(alloc, words.options.literal, read)?;
    let mut question = upsert_by_words(alloc, words, named, maker, &mut scratch)?;
    want(&mut question, wanted);
    let options = words.options;
    let request = question
        .request
        .with_many(options.many)
        .with_counts(options.counts)
        .with_drops(options.drops);
    Ok(without_lines(alloc, question.collection, Some(request)))
}

/// What the words and the input ask for: only `import` reads the input, to its end.
///
/// `Words` if the paths of `--fields` and `--without` can't name fields, or else if an argument can't be read, of the
/// first one, if, without `--key`, the path of `set` or `unset` isn't one, or if, with `--upsert`, a query's equality
/// fields can't be set beside each other. For `import`, `Refused`
/// by BadName, by Reader if a read failed, and by Memory; `Lines` if a line of `import --json` can't be read. `Refused`
/// by Memory if a growth was refused.
pub fn asked_of<'w, I: Source>(
    alloc: Global,
    words: &Words<'w>,
    maker: &mut IdMaker,
    input: &mut I,
) -> Result<Asked<'w>, Ended>
    requires { CanFail (I.feed input.old) }
    ensures { Asks words.now.command words.now (I.feed input.old)
        (I.feed input.new) maker.old maker.new result }
{
    match words.command {
        Command::Export => Ok(without_lines(alloc, collection_of(words), None)),
        Command::Import => import_of(alloc, words, maker, input),
        _ => ask_by_words(alloc, words, maker),
    }
}

/// The collection and the query of a command that has both.
fn selection_of<'w>(words: &Words<'w>) -> Option<&'w [String]> {
    match words.command.signature().arguments {
        [
            Argument::Collection,
            Argument::Query | Argument::Selection,
            ..
        ] => { words.arguments.get(..2) }
        _ => None,
    }
}

/// The query of a command, and the question how many documents answer it; none if the command has no query, or one that
/// can't be read.
pub fn count_of<'w>(alloc: Global, words: &Words<'w>) -> Option<(&'w str, Question<'w>)> {
    let given = selection_of(words)?;
    let (_, behind) = given.split_first()?;
    let (query, _) = behind.split_first()?;
    let mut maker = IdMaker::new(0, 0);
    let mut scratch = Scratch::new(alloc);
    match question_of_words(alloc, Command::Count, given, &mut maker, &mut scratch) {
        Ok(question) => Some((query.as_str(), question)),
        Err(_) => None,
    }
}
