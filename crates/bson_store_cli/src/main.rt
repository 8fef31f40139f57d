//! The programs, one under several names. `bson_store` does a command over a database file with words; without, it
//! reads one document from standard input, keeps it in a new store, and writes what the store exports to standard
//! output. `fallowtime` does a command over a database file, with texts of JSON in and out, or keeps the file open and
//! answers the requests of lines, or the messages of MongoDB's drivers. `bson_json` turns BSON documents into lines of
//! Extended JSON, and such lines into BSON.
#![tactic(auto)]

ghost use Rattle.std.specs.Prelude.{◌≡◌, ◌⊎◌, Bool};
ghost use Rattle.cli_convert.specs.Writing.{Begins};

mod applying;
mod clock;
mod closed;
mod commands;
mod fallowtime;
mod help;
mod levels;
mod stack;

use crate::closed::{Hushed, Reader, Watched};
use bson_store::{Counted, ErrorKind};
use cli_commands::pipe;
use cli_convert::{Output, convert};
use cli_files::{misuse, refuse, unread};
use fallowtime_front::{Program, program_of, words_of};
use fallowtime_words::is_session;
use std::io::{BufWriter, IsTerminal, Write};
use std::process::ExitCode;

/// How many bytes of output are gathered before they are written.
const OUTPUT_ROOM: usize = 65536;

/// The status for words that can't be read.
const MISUSE: u8 = 2;

/// Does what the words ask of bson_store, and returns the program's status.
fn run_words<O: Write>(rt: &HostRuntime, words: &[String], output: &mut Counted<O>) -> u8
    requires { output.old.failed ≡ 0 }
{
    let mut input = Counted::new(rt.stdin());
    let mut faults = Counted::new(rt.stderr());
    if words.is_empty() {
        pipe(rt.alloc(), &mut input, output, &mut faults)
    } else {
        commands::serve(rt, words, &mut input, output, &mut faults)
    }
}

/// Reports a refusal if nothing was reported yet, and returns the program's status.
fn report<F: Write + Drop>(faults: F, kind: ErrorKind) -> u8
    ensures { result ≡ 1 }
{
    refuse(&mut Counted::new(faults), kind)
}

/// Does what the words ask of bson_json, and returns the program's status.
fn run_conversion<O: Write>(
    rt: &HostRuntime,
    words: &[String],
    output: &mut Counted<O>,
    reader: &Reader,
) -> u8
    requires { output.old.failed ≡ 0 }
{
    let mut input = Counted::new(rt.stdin());
    let mut faults = Counted::new(Hushed::new(rt.stderr(), reader));
    convert(rt.alloc(), words, &mut input, output, &mut faults)
}

/// What is printed on: a writer to standard output. A terminal is given no character from U+007F to U+009F, which it may
/// obey, but what JSON has for it.
fn printed_on<W: Write>(rt: &HostRuntime, writer: W) -> Output<W>
    ensures { (is_terminal : Bool) × Begins W.contents result is_terminal (W.contents writer) }
{
    Output::new(writer, rt.stdout().is_terminal())
}

/// Writes the gathered output, and returns the program's status: a failure here is one of the output, like that of any
/// write before it.
fn let_out<W: Write + Drop, F: Write + Drop>(mut output: Counted<W>, faults: F, status: u8) -> u8
    // A status that reports something stays.
    ensures { (result ≡ status) ⊎ ((status ≡ 0) × (result ≡ 1)) }
{
    match output.device.flush() {
        Err(_) if status == 0 => report(faults, ErrorKind::Writer),
        _ => status,
    }
}

/// The program bson_store, over the words after its name; its output is gathered.
fn run_store(rt: &HostRuntime, words: &[String]) -> u8 {
    let Ok(writer) = BufWriter::with_capacity(rt.alloc(), OUTPUT_ROOM, rt.stdout()) else {
        return report(rt.stderr(), ErrorKind::Memory);
    };
    let mut output = Counted::new(printed_on(rt, writer));
    let status = run_words(rt, words, &mut output);
    let_out(output, rt.stderr(), status)
}

/// The program bson_json, over the words after its name; its output is gathered.
fn run_json(rt: &HostRuntime, words: &[String]) -> u8 {
    let reader = Reader::new();
    let watched = Watched::new(rt.stdout(), &reader);
    let Ok(writer) = BufWriter::with_capacity(rt.alloc(), OUTPUT_ROOM, watched) else {
        return report(rt.stderr(), ErrorKind::Memory);
    };
    let mut output = Counted::new(printed_on(rt, writer));
    let status = run_conversion(rt, words, &mut output, &reader);
    reader.status(let_out(output, Hushed::new(rt.stderr(), &reader), status))
}

/// Does what the words ask of fallowtime, and returns the program's status.
fn run_fallowtime<O: Write>(
    rt: &HostRuntime,
    words: &[String],
    output: &mut Counted<O>,
    reader: &Reader,
) -> u8
    requires { output.old.failed ≡ 0 }
{
    let mut input = Counted::new(rt.stdin());
    let mut faults = Counted::new(Hushed::new(rt.stderr(), reader));
    fallowtime::serve(rt, words, &mut input, output, &mut faults)
}

/// The program fallowtime over one command, by the words after its name; its output is gathered.
fn run_gathered(rt: &HostRuntime, words: &[String]) -> u8 {
    let reader = Reader::new();
    let watched = Watched::new(rt.stdout(), &reader);
    let Ok(writer) = BufWriter::with_capacity(rt.alloc(), OUTPUT_ROOM, watched) else {
        return report(rt.stderr(), ErrorKind::Memory);
    };
    let mut output = Counted::new(printed_on(rt, writer));
    let status = run_fallowtime(rt, words, &mut output, &reader);
    reader.status(let_out(output, Hushed::new(rt.stderr(), &reader), status))
}

/// The program fallowtime over many requests, by the words after its name; every answer is written at once.
fn run_at_once(rt: &HostRuntime, words: &[String]) -> u8 {
    let reader = Reader::new();
    let mut output = Counted::new(printed_on(rt, Watched::new(rt.stdout(), &reader)));
    let status = run_fallowtime(rt, words, &mut output, &reader);
    reader.status(status)
}

/// The program fallowtime, over the words after its name.
fn run_by_words(rt: &HostRuntime, words: &[String]) -> u8 {
    let status = if is_session(words) {
        run_at_once(rt, words)
    } else {
        run_gathered(rt, words)
    };
    if status == MISUSE {
        help::hint(rt, words);
    } else {
        fallowtime::point_at_meant(rt, words);
    }
    if status == 0 {
        fallowtime::point_at_kept(rt, words);
    }
    status
}

/// Runs the program of the name under which this one was started, if there is stack for its requests, and returns its
/// status.
fn run_program(rt: &HostRuntime, program: Program, words: &[String]) -> u8 {
    if stack::reserve(rt, program, words).is_err() {
        return report(rt.stderr(), ErrorKind::Memory);
    }
    match program {
        Program::Fallowtime => run_by_words(rt, words),
        Program::Json => run_json(rt, words),
        Program::Store => run_store(rt, words),
    }
}

/// Runs a program over the words of the command line, of which the first is its name, and returns its status. Without
/// a name and words it is bson_store.
fn start(rt: &HostRuntime, words: &[String]) -> u8 {
    match words.split_first() {
        Some((name, words)) => run_program(rt, program_of(name.as_str()), words),
        None => run_program(rt, Program::Store, words),
    }
}

/// Runs the program that the words of the command line name, and returns its status.
fn main(rt: HostRuntime) -> ExitCode {
    let status = match words_of(&rt) {
        Ok(words) => start(&rt, words.as_slice()),
        Err(error) => unread(error, &mut Counted::new(rt.stderr())),
    };
    ExitCode::from(status)
}
