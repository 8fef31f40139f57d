//! Database files, opened with room in memory for their pages.

ghost use Rattle.std.specs.Prelude.{IfOk, IsTrue};
ghost use Rattle.sqlite_std_file.specs.File.{file_is_usable};

use crate::fault::FileError;
use crate::looking::plain;
use sqlite::{Connection, File, FileFrom, FileStore, Files, Options, Start, Unknown};
use std::hash::{BuildHasher, RandomState};
use std::time::Duration;
use std::{fs, io, thread};

/// How many bytes a page of a new file has, and one of most others.
const PAGE: u64 = 4096;

/// How many pages are kept in memory at least. The room is taken and zeroed as a file is opened, so a small one has
/// little.
const LEAST_PAGES: usize = 256;

/// How many pages are kept in memory for a command that needs few: more than a change of one document reads on its ways
/// through table and index, and few enough that their room takes less than the command itself.
const FEW_PAGES: usize = 32;

/// How many pages are kept in memory at most, 64 MiB: else a file of gigabytes would take as much memory.
const MOST_PAGES: usize = 16384;

/// How many thousandths of a second pass between two tries to open a file.
const PAUSE: u64 = 50;

/// How many tries there are in a second.
const TRIES_A_SECOND: u64 = 1000 / PAUSE;

/// How many pages are kept in memory: those that the file has, and some more, as a page has one slot that it can be in.
/// The kit's own number is too large for small files, whose slots are zeroed at each start, and too small for large
/// ones, whose pages are then read and digested again at each walk.
fn cache_pages(rt: &HostRuntime, path: &str) -> usize {
    let pages = match fs::metadata(rt, path) {
        Ok(found) => found.len() / PAGE,
        Err(_) => 0,
    };
    let pages = pages.min(MOST_PAGES as u64) as usize;
    (pages + pages / 8 + 64).clamp(LEAST_PAGES, MOST_PAGES)
}

/// The options of a connection with `pages` pages in memory.
pub(crate) fn options_for(rt: &HostRuntime, pages: usize) -> io::Result<Options> {
    let mut options = Options::new(RandomState::new(rt)?.hash_one(&0u8));
    options.cache_pages = pages;
    Ok(options)
}

/// Refuses the paths `:memory:` and those that begin with `file:`, which name no file to SQLite.
pub(crate) fn judge_name(path: &str) -> Result<(), FileError> {
    if path == ":memory:" || path.starts_with("file:") {
        return Err(FileError::NoName);
    }
    Ok(())
}

/// Refuses a log or a journal beside a file that is no plain file with one name, before one is opened.
fn judge_beside(rt: &HostRuntime, file: &str) -> Result<(), FileError> {
    let _ = plain(rt, format!(in rt.alloc(); "{file}-wal")?.as_str())?;
    let _ = plain(rt, format!(in rt.alloc(); "{file}-journal")?.as_str())?;
    Ok(())
}

/// The database file at a path, which is made if it isn't there, and its log: no other process may have them. A refused
/// file is left as it is; an error says why.
fn lock<S: Start>(rt: &HostRuntime, path: &str, start: S) -> Result<Files<FileFrom<S>>, FileError>
    ensures log { IfOk result (λ files. IsTrue (file_is_usable S.Start files.log)) }
    ensures db { IfOk result (λ files. IsTrue (file_is_usable S.Start files.db)) }
{
    judge_name(path)?;
    match fs::canonicalize(rt, path) {
        Ok(file) => judge_beside(rt, file.as_str())?,
        Err(_) => judge_beside(rt, path)?,
    }
    let files = sqlite_std_file::open(rt, path, start)?;
    Ok(files)
}

/// The options of whoever needs few pages of a file, however large it is.
pub fn options_of_few(rt: &HostRuntime) -> io::Result<Options> {
    options_for(rt, FEW_PAGES)
}

/// Opens the database file at a path, which is made if it isn't there, and which no other process may have. A refused
/// one is left as it is; an error says why.
pub fn open(rt: &HostRuntime, path: &str) -> Result<Connection<FileStore<File>>, FileError> {
    let options = options_for(rt, cache_pages(rt, path))?;
    let files = lock(rt, path, Unknown)?;
    match Connection::open_files(rt.alloc(), files, options) {
        Ok(connection) => Ok(connection),
        Err((error, left)) => {
            drop(left);
            Err(FileError::from(error))
        }
    }
}

/// As `lock`, but if another process has the file, it is tried again for `seconds` seconds, 20 times in each.
pub fn lock_within(rt: &HostRuntime, path: &str, seconds: u64) -> Result<Files<File>, FileError>
    ensures log { IfOk result (λ files. IsTrue (file_is_usable ⟦<Unknown as Start>⟧ files.log)) }
    ensures db { IfOk result (λ files. IsTrue (file_is_usable ⟦<Unknown as Start>⟧ files.db)) }
{
    for _ in 0..seconds.saturating_mul(TRIES_A_SECOND) {
        match lock(rt, path, Unknown) {
            Err(FileError::Busy) => thread::sleep(rt, Duration::from_millis(PAUSE)),
            other => return other,
        }
    }
    lock(rt, path, Unknown)
}

/// As `open`, but if another process has the file, it is tried again for `seconds` seconds, 20 times in each.
pub fn open_within(
    rt: &HostRuntime,
    path: &str,
    seconds: u64,
) -> Result<Connection<FileStore<File>>, FileError> {
    for _ in 0..seconds.saturating_mul(TRIES_A_SECOND) {
        match open(rt, path) {
            Err(FileError::Busy) => thread::sleep(rt, Duration::from_millis(PAUSE)),
            other => return other,
        }
    }
    open(rt, path)
}

/// Closes the files. If that fails nothing is lost: what was committed is in the log beside the file, and the next open
/// finds it there.
pub fn close(connection: Connection<FileStore<File>>) {
    let _ = connection.close();
}
