//! The stack, of which as much is asked for as the levels of a request may need.
//!
//! What calls itself for each level of a document or of a query takes stack, and where that ends the system ends the
//! process. So the program first sees how far its stack may grow (`ulimit -s`), and refuses a request that may need
//! more. Where memory is limited (`ulimit -v`), the stack counts in it: as much is then asked for as memory, which is
//! refused without harm, given back, and taken.

ghost use Rattle.std.specs.Prelude.{◌<◌, ◌^◌};

use crate::levels::{MOST_LEVELS, most_levels};
use fallowtime_front::Program;
use fallowtime_words::{Command, Task, read_words};
use std::alloc::AllocError;
use std::fs;
use std::io::Read;

/// How many bytes of stack a request takes at the most besides its levels: by documents of 128 levels, and by patterns.
const BASE: usize = 768 << 10;

/// How many bytes of stack each level of a request takes at the most.
const LEVEL: usize = 12 << 10;

/// How many bytes of stack documents of 1000 levels take at the most, which are the deepest that are read of BSON.
const DEEP: usize = 5 << 20;

/// How many bytes of the stack are taken by one call.
const PART: usize = 1 << 16;

/// How many bytes the words and the environment of a process may take of its stack, if a quarter of that is less.
const WORDS: u64 = 1 << 17;

/// How many bytes of the stack are taken before this is called.
const BEGUN: u64 = 1 << 16;

/// How many bytes the stack may have if the system doesn't say it, which are as many as it gives by itself.
const USUAL_STACK: u64 = 8 << 20;

/// Where the system lists the limits of a process.
const LIMITS: &str = "/proc/self/limits";

/// What the lines of two of them begin with.
const STACK_LINE: &str = "Max stack size";

const MEMORY_LINE: &str = "Max address space";

/// Where the system says whether it hands out no more memory than there is.
const OVERCOMMIT: &str = "/proc/sys/vm/overcommit_memory";

/// The limits of a process that count here, in bytes.
#[derive(Clone, Copy)]
struct Limits {
    stack: u64,
    memory: u64,
}

/// The first of the limits that a line has after its name, if that is a number.
fn limit_in(limits: &str) -> Option<u64> {
    let first = limits.trim_start().split(' ').next().unwrap_or("");
    if first == "unlimited" {
        return Some(u64::MAX);
    }
    first.parse::<u64>().ok()
}

/// The limit in the line of a list that begins with this name, if there is one.
fn limit_of(list: &str, name: &str) -> Option<u64> {
    for line in list.lines() {
        if let Some(limits) = line.strip_prefix(name) {
            return limit_in(limits);
        }
    }
    None
}

/// The limits of the process, or the usual ones if the system doesn't say them.
fn read_limits(rt: &HostRuntime) -> Limits {
    let Ok(list) = fs::read_to_string(rt, LIMITS) else {
        return Limits {
            stack: USUAL_STACK,
            memory: u64::MAX,
        };
    };
    Limits {
        stack: limit_of(list.as_str(), STACK_LINE).unwrap_or(USUAL_STACK),
        memory: limit_of(list.as_str(), MEMORY_LINE).unwrap_or(u64::MAX),
    }
}

/// How many bytes a stack of so many at the most may grow by, at least: the system lets the words and the environment
/// of a process have a quarter of it at the most, or 128 kB.
fn room(limit: u64) -> u64 {
    limit.saturating_sub((limit / 4).max(WORDS) + BEGUN)
}

/// Whether memory for the stack may be refused as it grows.
fn is_scarce(rt: &HostRuntime, limits: Limits) -> bool {
    if limits.memory != u64::MAX {
        return true;
    }
    match fs::read_to_string(rt, OVERCOMMIT) {
        Ok(mode) => mode.starts_with('2'),
        Err(_) => false,
    }
}

/// Takes `parts` parts of the stack, and one more. Something is read into each, so that no compiler can do without it.
#[inline(never)]
fn take(zeros: &mut fs::File, parts: usize) -> u8 {
    let mut room = [0u8; PART];
    let _ = zeros.read(&mut room[..1]);
    if parts == 0 {
        return room[0];
    }
    take(zeros, parts - 1) | room[1]
}

/// How many bytes of stack requests of so many levels take at the most.
fn need_of(levels: usize) -> usize
    ensures { result < 2 ^ 32 }
{
    BASE + levels.min(MOST_LEVELS) * LEVEL
}

/// How many bytes of stack fallowtime takes at the most by these words. The requests of a session or of a list come
/// later, and may have the most levels; so may the documents of messages.
fn need_of_task(words: &[String]) -> usize
    ensures { result < 2 ^ 32 }
{
    match read_words(words) {
        Some(Task::Session { messages: true, .. }) => DEEP,
        Some(Task::Session { .. }) => need_of(MOST_LEVELS),
        Some(Task::Command(task)) => {
            if task.command == Command::Apply {
                need_of(MOST_LEVELS)
            } else {
                need_of(most_levels(words))
            }
        }
        None => need_of(0),
    }
}

/// How many bytes of stack a program takes at the most that is started with these words.
fn need_by(program: Program, words: &[String]) -> usize
    ensures { result < 2 ^ 32 }
{
    match program {
        Program::Fallowtime => need_of_task(words),
        Program::Json => DEEP,
        Program::Store => need_of(most_levels(words)),
    }
}

/// Makes sure of the stack that a program needs which is started with these words. An error says that it can't be had.
pub fn reserve(rt: &HostRuntime, program: Program, words: &[String]) -> Result<(), AllocError> {
    let parts = need_by(program, words) / PART;
    let taken = (parts + 1) * PART;
    let limits = read_limits(rt);
    if room(limits.stack) < taken as u64 {
        return Err(AllocError);
    }
    if is_scarce(rt, limits) {
        let Ok(mut zeros) = fs::File::open(rt, "/dev/zero") else {
            return Err(AllocError);
        };
        let asked: Vec<u8> = Vec::with_capacity(rt.alloc(), taken)?;
        drop(asked);
        let _ = take(&mut zeros, parts);
    }
    Ok(())
}
