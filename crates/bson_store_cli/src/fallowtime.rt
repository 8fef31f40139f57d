//! The program `fallowtime`: one command over a database file, or a session of requests.

ghost use Rattle.std.specs.Prelude.{◌≡◌, ◌⊎◌, Err, IsTrue, None, Result, map, option_map, string_bytes};
ghost use Rattle.sqlite_std_file.specs.File.{file_is_usable};
ghost use Rattle.sqlite.specs.Held.{state};
ghost use Rattle.store_table.specs.Crash.{AddsNothing};
ghost use Rattle.store_table.specs.Moves.{WasOpen};
ghost use Rattle.bson_base.specs.Device.{CanFail, CanRefuse};
ghost use Rattle.bson_store.specs.Calls.{Relates, store_state};
ghost use Rattle.bson_store.specs.Export.{SendsCollection};
ghost use Rattle.fallowtime_commands.specs.Reports.{plain};
ghost use Rattle.store_model.specs.declared.error.StoreError.{StoreError as StoreRefusal};
ghost use Rattle.fallowtime_front.specs.Asking.{form_by};
ghost use Rattle.fallowtime_front.specs.Ending.{TellsEnd};
ghost use Rattle.fallowtime_front.specs.declared.ending.Ended.{Ended as WhyEnded};
ghost use Rattle.fallowtime_front.specs.declared.ending.Ended.TheVariants.{Refused, Words as BadWords};
ghost use Rattle.fallowtime_requests.specs.declared.unread.Unread.TheVariants.{Command as Usage};
ghost use Rattle.fallowtime_words.specs.Words.{Asked as Asking, IsTask};
ghost use Rattle.fallowtime_words.specs.Topics.{IsTopic};
ghost use Rattle.fallowtime_words.specs.declared.topic.Topic.{Topic as About};
ghost use Rattle.bson_store_cli.specs.Over.{OpensFor};
ghost use Rattle.bson_store_cli.specs.Serving.{AnswersLines, AnswersMessages, AnswersRequests, ServesExport, ServesRequest, plainly};

use crate::applying::apply;
use crate::clock::{SystemClock, maker_of};
use crate::commands::judged;
use crate::help;
use bson_base::write_all;
use bson_store::{ErrorKind, Sink, Source, Store};
use cli_convert::{Clock, IdMaker};
use cli_files::{
    FileError, close, copy, lock_within, open_parts, open_within, options_of_few, read,
};
use fallowtime_commands::{Answer, Refusal, execute, export_all, look_up, print_found};
use fallowtime_front::{
    Asked, Ended, asked_of, count_of, ended_of, execute_in_pages, form_of, is_of_one, tell,
};
use fallowtime_messages::database_of;
use fallowtime_requests::{Request, Unread, question_of_words};
use fallowtime_words::{
    Argument, Command, Packing, Task, Words, advice_on_document, advice_on_query, field_of,
    packing_of, read_words, topic_of,
};
use json::Scratch;
use sqlite::{Alter, Connection, FileFrom, Files, Start, Unknown};
use std::alloc::{AllocError, Global};
use std::io::IsTerminal;
use std::{fs, io};
use store_table::pages::Writer;

/// How many seconds to wait for a file that another process has, if the words don't say.
pub(crate) const PATIENCE: u64 = 5;

/// Writes all documents of a collection as BSON.
fn export<S: Alter + Drop, O: Sink>(
    store: &mut Store<S>,
    coll: &str,
    output: &mut O,
) -> Result<(), Refusal>
    requires { CanRefuse (O.tally output.old) }
    ensures { (sent : Result (Unit {0}) StoreRefusal) × (result ≡ plainly sent)
        × Relates S.Store store.old store.new (SendsCollection coll.now (O.tally output.old)
        (O.tally output.new) sent) × AddsNothing (store_state S.Store store.old)
        (store_state S.Store store.new)
        × WasOpen (store_state S.Store store.old) (store_state S.Store store.new) sent }
{
    match store.export(coll, output) {
        Ok(()) => Ok(()),
        Err(error) => Err(Refusal::from(error)),
    }
}

/// Does what is asked over an open store.
fn serve_store<S: Alter + Drop, O: Sink>(
    alloc: Global,
    store: &mut Store<S>,
    words: &Words<'_>,
    asked: &mut Asked<'_>,
    output: &mut O,
) -> Result<(), Ended>
    requires { CanRefuse (O.tally output.old) }
    // A request is performed, and what it returns is printed in the form of the options.
    ensures request { ServesRequest asked.old
        (form_by words.now.options.bytes words.now.options.canonical) (O.tally output.old)
        (O.tally output.new) result (store_state S.Store store.old) (store_state S.Store store.new) }
    // Without one the collection is written as BSON.
    ensures export { ServesExport asked.old (O.tally output.old) (O.tally output.new) result
        (store_state S.Store store.old) (store_state S.Store store.new) }
{
    match &mut asked.request {
        None => {
            let done = export(store, asked.collection, output);
            ended_of(done, asked.lines.as_slice())
        }
        Some(request) => {
            let form = form_of(&words.options);
            let done = execute(alloc, store, asked.collection, request, form, output);
            ended_of(done, asked.lines.as_slice())
        }
    }
}

/// Does what is asked over a connection, and gives that back. It is over any store, since what closing one of files
/// does would otherwise be gone through at each of its ends.
fn over<S: Alter + Drop, O: Sink>(
    alloc: Global,
    connection: Connection<S>,
    words: &Words<'_>,
    asked: &mut Asked<'_>,
    output: &mut O,
) -> (Result<(), Ended>, Connection<S>)
    requires { CanRefuse (O.tally output.old) }
    // A store that is refused is asked nothing, and nothing is printed.
    ensures { OpensFor S.Store connection result.1 (λ opened. ServesRequest asked.old
        (form_by words.now.options.bytes words.now.options.canonical) (O.tally output.old)
        (O.tally output.new) result.0 (state S.Store opened) (state S.Store result.1)
        × ServesExport asked.old (O.tally output.old) (O.tally output.new) result.0
        (state S.Store opened) (state S.Store result.1)) (λ e. (result.0 ≡ Err (Refused (plain e)))
        × (output.new ≡ output.old)) }
{
    match Store::open(alloc, connection) {
        Ok(mut store) => {
            let ended = serve_store(alloc, &mut store, words, asked, output);
            (ended, store.close())
        }
        Err((error, connection)) => (Err(Ended::Refused(Refusal::from(error))), connection),
    }
}

/// Writes what a command that only reads finds in the pages that it needs; nothing, and none, if they don't tell. It
/// begins to write once it is seen that what was read is what the files held at one moment.
fn look_in_pages<S: Start, O: Sink>(
    rt: &HostRuntime,
    start: S,
    words: &Words<'_>,
    asked: &Asked<'_>,
    output: &mut O,
) -> Option<Result<(), Ended>>
    requires { CanRefuse (O.tally output.old) }
    // Nothing is written if they don't tell.
    ensures { result ≡ None → output.new ≡ output.old }
{
    let (files, moment) = open_parts(rt, words.file, start).ok()??;
    let alloc = rt.alloc();
    let done = match &asked.request {
        None => {
            let (documents, pages) = export_all(alloc, files, asked.collection)?;
            if !moment.is_still(rt, &pages).ok()? {
                return None;
            }
            match write_all(output, documents.as_slice()) {
                Ok(()) => Ok(()),
                Err(_) => Err(Refusal::from(ErrorKind::Writer)),
            }
        }
        Some(request) => {
            let (outcome, pages) = look_up(alloc, files, asked.collection, request)?;
            if !moment.is_still(rt, &pages).ok()? {
                return None;
            }
            print_found(alloc, request, outcome, form_of(&words.options), output)
        }
    };
    Some(ended_of(done, asked.lines.as_slice()))
}

/// Does a command that only reads: from the pages that it needs, or else over all that the files hold at this moment, in
/// memory.
fn look<O: Sink>(
    rt: &HostRuntime,
    words: &Words<'_>,
    asked: &mut Asked<'_>,
    output: &mut O,
) -> Result<(), Ended>
    requires { CanRefuse (O.tally output.old) }
{
    if let Some(ended) = look_in_pages(rt, Unknown, words, asked, output) {
        return ended;
    }
    let seconds = words.options.seconds.unwrap_or(PATIENCE);
    match read(rt, words.file, seconds) {
        Ok(connection) => {
            let (ended, connection) = over(rt.alloc(), connection, words, asked, output);
            drop(connection);
            ended
        }
        Err(error) => Err(Ended::File(error)),
    }
}

/// Whether a file isn't there.
fn is_missing(rt: &HostRuntime, file: &str) -> bool {
    match fs::metadata(rt, file) {
        Ok(_) => false,
        Err(error) => error.kind() == io::ErrorKind::NotFound,
    }
}

/// Whether a command finds no file that it needs.
fn lacks_file(rt: &HostRuntime, words: &Words<'_>) -> bool {
    !words.command.makes_file() && is_missing(rt, words.file)
}

/// Whether a file is there and has something in it.
fn has_bytes(rt: &HostRuntime, file: &str) -> bool {
    match fs::metadata(rt, file) {
        Ok(found) => found.len() > 0,
        Err(_) => false,
    }
}

/// Whether a change is one of a document that is named by its `_id`, in a file that may be a store.
fn is_of_one_in(rt: &HostRuntime, file: &str, request: &Option<Request<'_>>) -> bool {
    match request {
        Some(request) => is_of_one(request) && has_bytes(rt, file),
        None => false,
    }
}

/// Does a command that changes one document in the pages that it needs; none, and nothing is changed or written, if
/// they don't tell.
fn change_in_pages<S: Start, O: Sink>(
    rt: &HostRuntime,
    files: Files<FileFrom<S>>,
    words: &Words<'_>,
    asked: &mut Asked<'_>,
    output: &mut O,
) -> Option<Result<(), Ended>>
    requires log { IsTrue (file_is_usable S.Start files.log) }
    requires db { IsTrue (file_is_usable S.Start files.db) }
    requires output { CanRefuse (O.tally output.old) }
    // Nothing is written if they don't tell.
    ensures { result ≡ None → output.new ≡ output.old }
{
    let options = options_of_few(rt).ok()?;
    let request = asked.request.as_mut()?;
    let mut writer = Writer::open(rt.alloc(), files, options).ok()?;
    let form = form_of(&words.options);
    let done = execute_in_pages(
        rt.alloc(),
        &mut writer,
        asked.collection,
        request,
        form,
        output,
    );
    drop(writer.close());
    Some(ended_of(done?, asked.lines.as_slice()))
}

/// Does a command that changes the file.
fn change<O: Sink>(
    rt: &HostRuntime,
    words: &Words<'_>,
    asked: &mut Asked<'_>,
    output: &mut O,
) -> Result<(), Ended>
    requires { CanRefuse (O.tally output.old) }
{
    if lacks_file(rt, words) {
        return Err(Ended::File(FileError::NoFile));
    }
    let seconds = words.options.seconds.unwrap_or(PATIENCE);
    if is_of_one_in(rt, words.file, &asked.request) {
        let files = match lock_within(rt, words.file, seconds) {
            Ok(files) => files,
            Err(error) => return Err(Ended::File(error)),
        };
        if let Some(ended) = change_in_pages(rt, files, words, asked, output) {
            return ended;
        }
    }
    match open_within(rt, words.file, seconds) {
        Ok(connection) => {
            let (ended, connection) = over(rt.alloc(), connection, words, asked, output);
            close(connection);
            ended
        }
        Err(error) => Err(Ended::File(error)),
    }
}

/// Writes what the files hold at this moment into a new file, if that is a store.
fn back_up(rt: &HostRuntime, words: &Words<'_>) -> Result<(), Ended> {
    let Some(path) = words.arguments.first() else {
        return Err(Ended::Words(Unread::Command));
    };
    let seconds = words.options.seconds.unwrap_or(PATIENCE);
    let connection = match read(rt, words.file, seconds) {
        Ok(connection) => connection,
        Err(error) => return Err(Ended::File(error)),
    };
    let connection = match judged(rt.alloc(), connection) {
        Ok(connection) => connection,
        Err(kind) => return Err(Ended::Refused(Refusal::from(kind))),
    };
    match copy(rt, connection, words.file, path.as_str()) {
        Ok(()) => Ok(()),
        Err(error) => Err(Ended::File(error)),
    }
}

/// Does what is asked, over the file of the words.
fn do_asked<O: Sink>(
    rt: &HostRuntime,
    words: &Words<'_>,
    asked: &mut Asked<'_>,
    output: &mut O,
) -> Result<(), Ended>
    requires { CanRefuse (O.tally output.old) }
{
    if words.command.only_reads() {
        look(rt, words, asked, output)
    } else {
        change(rt, words, asked, output)
    }
}

/// What packed the documents that are imported, if they seem to be packed.
fn packing_in(asked: &Asked<'_>) -> Option<Packing> {
    match &asked.request {
        Some(Request::Import(stream, _)) => packing_of(stream.as_slice()),
        _ => None,
    }
}

/// Reads what the words ask for, and does that. What packed the documents of an import is told in `packing`.
fn ask_and_do<I: Source, O: Sink>(
    rt: &HostRuntime,
    words: &Words<'_>,
    maker: &mut IdMaker,
    input: &mut I,
    output: &mut O,
    packing: &mut Option<Packing>,
) -> Result<(), Ended>
    requires input { CanFail (I.feed input.old) }
    requires output { CanRefuse (O.tally output.old) }
{
    match asked_of(rt.alloc(), words, maker, input) {
        Ok(mut asked) => {
            *packing = packing_in(&asked);
            do_asked(rt, words, &mut asked, output)
        }
        Err(ended) => Err(ended),
    }
}

/// Does the command of the words. What packed the documents of an import is told in `packing`.
fn command<I: Source, O: Sink>(
    rt: &HostRuntime,
    words: &Words<'_>,
    input: &mut I,
    output: &mut O,
    packing: &mut Option<Packing>,
) -> Result<(), Ended>
    requires input { CanFail (I.feed input.old) }
    requires output { CanRefuse (O.tally output.old) }
{
    if words.command == Command::Backup {
        return back_up(rt, words);
    }
    if words.command == Command::Apply {
        return apply(rt, words, input, output);
    }
    let mut maker = maker_of(rt)?;
    ask_and_do(rt, words, &mut maker, input, output, packing)
}

/// The session of lines over an open store.
fn answer_lines<S: Alter + Drop, C: Clock, I: Source, O: Sink>(
    alloc: Global,
    store: &mut Store<S>,
    clock: &mut C,
    maker: &mut IdMaker,
    input: &mut I,
    output: &mut O,
) -> Result<(), Ended>
    requires input { CanFail (I.feed input.old) }
    requires output { CanRefuse (O.tally output.old) }
    ensures { AnswersLines maker.old maker.new (I.feed input.old) (I.feed input.new)
        (O.tally output.old) (O.tally output.new) result (store_state S.Store store.old)
        (store_state S.Store store.new) }
{
    match fallowtime_commands::session::serve(alloc, store, clock, maker, input, output) {
        Ok(()) => Ok(()),
        Err(kind) => Err(Ended::Refused(Refusal::from(kind))),
    }
}

/// The session of MongoDB's messages over an open store.
fn answer_messages<S: Alter + Drop, C: Clock, I: Source, O: Sink>(
    alloc: Global,
    store: &mut Store<S>,
    database: &str,
    clock: &mut C,
    maker: &IdMaker,
    input: &mut I,
    output: &mut O,
) -> Result<(), Ended>
    requires input { CanFail (I.feed input.old) }
    requires output { CanRefuse (O.tally output.old) }
    ensures { AnswersMessages database.now (I.feed input.old) (I.feed input.new) (O.tally output.old)
        (O.tally output.new) result (store_state S.Store store.old) (store_state S.Store store.new) }
{
    let mut own = maker.copy();
    match fallowtime_messages::wire::serve(alloc, store, clock, &mut own, database, input, output) {
        Ok(()) => Ok(()),
        Err(kind) => Err(Ended::Refused(Refusal::from(kind))),
    }
}

/// The session over an open store: of lines, or, if a database is named, of messages.
fn answer<S: Alter + Drop, C: Clock, I: Source, O: Sink>(
    alloc: Global,
    store: &mut Store<S>,
    database: Option<&str>,
    clock: &mut C,
    maker: &mut IdMaker,
    input: &mut I,
    output: &mut O,
) -> Result<(), Ended>
    requires input { CanFail (I.feed input.old) }
    requires output { CanRefuse (O.tally output.old) }
    ensures { AnswersRequests (option_map (λ t. t.now) database.entry) maker.old maker.new
        (I.feed input.old) (I.feed input.new) (O.tally output.old) (O.tally output.new) result
        (store_state S.Store store.old) (store_state S.Store store.new) }
{
    match database {
        None => answer_lines(alloc, store, clock, maker, input, output),
        Some(database) => answer_messages(alloc, store, database, clock, maker, input, output),
    }
}

/// The session over a connection, which it gives back. It is over any store, for the reason that `over` is.
fn answer_over<S: Alter + Drop, C: Clock, I: Source, O: Sink>(
    alloc: Global,
    connection: Connection<S>,
    database: Option<&str>,
    clock: &mut C,
    maker: &mut IdMaker,
    input: &mut I,
    output: &mut O,
) -> (Result<(), Ended>, Connection<S>)
    requires input { CanFail (I.feed input.old) }
    requires output { CanRefuse (O.tally output.old) }
    // A store that is refused answers nothing.
    ensures { OpensFor S.Store connection result.1 (λ opened. AnswersRequests
        (option_map (λ t. t.now) database.entry) maker.old maker.new (I.feed input.old)
        (I.feed input.new) (O.tally output.old) (O.tally output.new) result.0 (state S.Store opened)
        (state S.Store result.1)) (λ e. (result.0 ≡ Err (Refused (plain e)))
        × (maker.new ≡ maker.old) × (input.new ≡ input.old) × (output.new ≡ output.old)) }
{
    match Store::open(alloc, connection) {
        Ok(mut store) => {
            let ended = answer(alloc, &mut store, database, clock, maker, input, output);
            (ended, store.close())
        }
        Err((error, connection)) => (Err(Ended::Refused(Refusal::from(error))), connection),
    }
}

/// Whether a name has neither a dot nor a slash, as a file mostly has.
pub fn is_bare(name: &str) -> bool {
    for byte in name.as_bytes() {
        if *byte == b'.' || *byte == b'/' {
            return false;
        }
    }
    true
}

/// Answers the requests of the input over a file: lines, or, if a database is named, messages. The file is made if it
/// isn't there, except if its name is a single word, which may be meant for a command.
fn session<I: Source, O: Sink>(
    rt: &HostRuntime,
    file: &str,
    database: Option<&str>,
    seconds: u64,
    input: &mut I,
    output: &mut O,
) -> Result<(), Ended>
    requires input { CanFail (I.feed input.old) }
    requires output { CanRefuse (O.tally output.old) }
{
    if is_bare(file) && is_missing(rt, file) {
        return Err(Ended::File(FileError::NoFile));
    }
    let mut clock = SystemClock::new(rt)?;
    let mut maker = maker_of(rt)?;
    match open_within(rt, file, seconds) {
        Ok(connection) => {
            let (ended, connection) = answer_over(
                rt.alloc(),
                connection,
                database,
                &mut clock,
                &mut maker,
                input,
                output,
            );
            close(connection);
            ended
        }
        Err(error) => Err(Ended::File(error)),
    }
}

/// Does what the words ask of a store, as `serve` does.
fn serve_task<I: Source, O: Sink, F: Sink>(
    rt: &HostRuntime,
    words: &[String],
    input: &mut I,
    output: &mut O,
    faults: &mut F,
) -> u8
    requires input { CanFail (I.feed input.old) }
    requires output { CanRefuse (O.tally output.old) }
    requires faults { CanRefuse (F.tally faults.old) }
    ensures told { ((result ≡ 0) × (faults.new ≡ faults.old)) ⊎ ((ended : WhyEnded)
        × TellsEnd ended (F.tally faults.old) (F.tally faults.new) result) }
    ensures misuse { ((asked : Asking) → IsTask (map string_bytes words.now) asked → ⊥)
        → TellsEnd (BadWords Usage) (F.tally faults.old) (F.tally faults.new) result
        × (input.new ≡ input.old) × (output.new ≡ output.old) }
{
    let Some(task) = read_words(words) else {
        return tell(rt, faults, Ended::Words(Unread::Command));
    };
    let mut packing = None;
    let ended = match task {
        Task::Command(words) => command(rt, &words, input, output, &mut packing),
        Task::Session {
            file,
            messages,
            seconds,
        } => {
            let database = messages.then_some(database_of(file));
            session(
                rt,
                file,
                database,
                seconds.unwrap_or(PATIENCE),
                input,
                output,
            )
        }
    };
    match ended {
        Ok(()) => 0,
        Err(ended) => {
            let kind = ended.kind();
            let status = tell(rt, faults, ended);
            help::advise(rt, kind, words, packing);
            status
        }
    }
}

/// Reads the words, does what they ask for, of the program or of a store, and returns the program's status. Words that
/// can't be read are reported before any file is opened.
pub fn serve<I: Source, O: Sink, F: Sink>(
    rt: &HostRuntime,
    words: &[String],
    input: &mut I,
    output: &mut O,
    faults: &mut F,
) -> u8
    requires input { CanFail (I.feed input.old) }
    requires output { CanRefuse (O.tally output.old) }
    requires faults { CanRefuse (F.tally faults.old) }
    // Status 0, and nothing is reported; or it is reported why the program ended, with the status of that.
    ensures told { ((result ≡ 0) × (faults.new ≡ faults.old)) ⊎ ((ended : WhyEnded)
        × TellsEnd ended (F.tally faults.old) (F.tally faults.new) result) }
    // Words with no task and no topic touch nothing, and the usage is reported.
    ensures misuse { ((asked : Asking) → IsTask (map string_bytes words.now) asked → ⊥)
        → ((topic : About) → IsTopic (map string_bytes words.now) topic → ⊥)
        → TellsEnd (BadWords Usage) (F.tally faults.old) (F.tally faults.new) result
        × (input.new ≡ input.old) × (output.new ≡ output.old) }
{
    match topic_of(words) {
        Some(topic) => help::serve(rt, topic, output, faults),
        None => serve_task(rt, words, input, output, faults),
    }
}

/// What a request that only reads returns, if the pages of the file tell it.
fn found_in(
    rt: &HostRuntime,
    file: &str,
    collection: &str,
    request: &Request<'_>,
) -> Option<Answer> {
    let (files, moment) = open_parts(rt, file, Unknown).ok()??;
    let (outcome, pages) = look_up(rt.alloc(), files, collection, request)?;
    if !moment.is_still(rt, &pages).ok()? {
        return None;
    }
    outcome.ok()
}

/// The collections of a file, if its pages tell them.
fn names_in(rt: &HostRuntime, file: &str) -> Option<Vec<String>> {
    match found_in(rt, file, "", &Request::Collections)? {
        Answer::Names(names) => Some(names),
        _ => None,
    }
}

/// The collection that a command needs, as only some make one.
fn needed_collection<'w>(words: &Words<'w>) -> Option<&'w str> {
    if words.command.makes_file() {
        return None;
    }
    match (words.command.signature().arguments, words.arguments) {
        ([Argument::Collection, ..], [name, ..]) => Some(name.as_str()),
        _ => None,
    }
}

/// Says that there is no such collection as a command needs, and which one is meant. Whether it said so.
fn point_at_collection(rt: &HostRuntime, words: &Words<'_>) -> bool {
    let Some(name) = needed_collection(words) else {
        return false;
    };
    match names_in(rt, words.file) {
        Some(names) => help::hint_at_collection(rt, names.as_slice(), name),
        None => false,
    }
}

/// How many documents of a collection answer a query, if the pages of the file tell it.
fn count_in(rt: &HostRuntime, file: &str, asked: &[String]) -> Option<u64> {
    let mut maker = IdMaker::new(0, 0);
    let mut scratch = Scratch::new(rt.alloc());
    let read = question_of_words(rt.alloc(), Command::Count, asked, &mut maker, &mut scratch);
    let question = read.ok()?;
    let found = found_in(rt, file, question.collection, &question.request);
    // (let go here, as each arm that does it is dear to prove)
    drop(question);
    match found {
        Some(Answer::Number(count)) => Some(count),
        _ => None,
    }
}

/// The words of a question for the documents of a collection that have a field, which is written as a query has it.
fn words_for_field(
    rt: &HostRuntime,
    collection: &str,
    field: &str,
) -> Result<Vec<String>, AllocError> {
    let mut query = String::from_str(rt.alloc(), "{\"")?;
    query.push_str(field)?;
    query.push_str("\":{\"$exists\":true}}")?;
    let mut words = Vec::new(rt.alloc());
    words.push(String::from_str(rt.alloc(), collection)?)?;
    words.push(query)?;
    Ok(words)
}

/// Says that no document has the field about which a query asks first, if so.
fn point_at_field(rt: &HostRuntime, file: &str, collection: &str, query: &str) {
    if let Some(field) = field_of(query) {
        point_at_absent(rt, file, collection, field);
    }
}

/// Says that no document has a field, if so.
fn point_at_absent(rt: &HostRuntime, file: &str, collection: &str, field: &str) {
    let Ok(words) = words_for_field(rt, collection, field) else {
        return;
    };
    if count_in(rt, file, words.as_slice()) == Some(0) {
        help::hint_at_field(rt, field);
    }
}

/// Says that no document has the path of `distinct`, if so.
fn point_at_path(rt: &HostRuntime, words: &Words<'_>) {
    if !rt.stdout().is_terminal() {
        return;
    }
    match (words.command, words.arguments) {
        (Command::Distinct, [collection, path, ..]) => {
            point_at_absent(rt, words.file, collection.as_str(), path.as_str());
        }
        _ => {}
    }
}

/// Says that nothing answers the query of a command, and what may be meant by it.
fn point_at_query(rt: &HostRuntime, words: &Words<'_>) {
    let Some((query, question)) = count_of(rt.alloc(), words) else {
        return;
    };
    let advice = advice_on_query(query);
    if advice.is_none() && !rt.stdout().is_terminal() {
        return;
    }
    let found = found_in(rt, words.file, question.collection, &question.request);
    if !matches!(found, Some(Answer::Number(0))) {
        return;
    }
    match advice {
        Some(advice) => help::hint_at_query(rt, advice),
        None => point_at_field(rt, words.file, question.collection, query),
    }
}

/// The document or the value that the words put in; none if they put in none.
fn kept_of<'w>(words: &Words<'w>) -> Option<&'w str> {
    let place = match words.command.signature().arguments {
        [_, Argument::Document, ..] => 1,
        [_, _, Argument::Document, ..] => 2,
        [_, _, _, Argument::Value, ..] => 3,
        _ => return None,
    };
    let word = words.arguments.get(place)?;
    Some(word.as_str())
}

/// Says at a terminal that what was put in has the key of an operator, if so.
pub fn point_at_kept(rt: &HostRuntime, words: &[String]) {
    if !rt.stderr().is_terminal() {
        return;
    }
    let Some(Task::Command(words)) = read_words(words) else {
        return;
    };
    let Some(kept) = kept_of(&words) else {
        return;
    };
    if let Some(advice) = advice_on_document(kept) {
        help::hint_at_query(rt, advice);
    }
}

/// Says at a terminal what may be meant by the collection of the words, if it isn't there, or else by their query.
pub fn point_at_meant(rt: &HostRuntime, words: &[String]) {
    if !rt.stderr().is_terminal() {
        return;
    }
    if let Some(Task::Command(words)) = read_words(words) {
        if !point_at_collection(rt, &words) {
            point_at_query(rt, &words);
            point_at_path(rt, &words);
        }
    }
}
