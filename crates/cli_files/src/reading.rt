//! Database files, read into memory: nothing is made, written, locked or synced, so any number of processes may do it
//! at once, also while one has the file open.

ghost use Rattle.std.specs.Prelude.{IfErr, IfOk};
ghost use Rattle.sqlite.specs.State.{HasCleanDisk};
ghost use Rattle.sqlite.specs.Files.{file_state, Finds, IsOpened};
ghost use Rattle.cli_files.specs.Loaded.{IsUnopened};

use crate::fault::{FileError, fault_in_memory};
use crate::loaded::Loaded;
use crate::looking::{Look, Paths, is_one_state};
use crate::opening::{judge_name, options_for};
use sqlite::{Connection, FileStore, Options};
use sqlite_disk::Files;
use std::alloc::{AllocError, Global};
use std::io::{self, Read};
use std::time::{Duration, Instant};
use std::{fs, thread};

/// How many pages are kept in memory beside the file that is there already.
const PAGES: usize = 1024;

/// How many thousandths of a second pass before the files are read again.
const PAUSE: u64 = 10;

/// How many times the files are read in a second at most.
const READS_A_SECOND: u64 = 1000 / PAUSE;

/// How many bytes are read at once where a file is read a second time.
const PIECE: usize = 1 << 16;

/// All bytes of a file, none if it isn't there.
fn bytes_of(rt: &HostRuntime, path: &str) -> io::Result<Vec<u8>> {
    match fs::File::open(rt, path) {
        Ok(mut file) => {
            let len = file.metadata()?.len();
            let mut bytes = Vec::with_capacity(rt.alloc(), len.min(1 << 40) as usize + 1)?;
            file.read_to_end(&mut bytes)?;
            Ok(bytes)
        }
        Err(error) if error.kind() == io::ErrorKind::NotFound => Ok(Vec::new(rt.alloc())),
        Err(error) => Err(error),
    }
}

/// Room for a piece of a file.
fn piece_room(alloc: Global) -> Result<Vec<u8>, AllocError> {
    vec![in alloc; 0; PIECE]
}

/// Whether a file has these bytes still.
fn has_still(rt: &HostRuntime, path: &str, bytes: &[u8]) -> io::Result<bool> {
    let mut file = fs::File::open(rt, path)?;
    let mut piece = piece_room(rt.alloc())?;
    let mut rest = bytes;
    for _piece in 0..=bytes.len() {
        let read = file.read(piece.as_mut_slice())?;
        if read == 0 {
            return Ok(rest.is_empty());
        }
        match rest.strip_prefix(&piece[..read]) {
            Some(behind) => rest = behind,
            None => return Ok(false),
        }
    }
    Ok(false)
}

/// The file and its log in a state that was committed, whoever writes them; none if they may have changed between two
/// states meanwhile. The file is read before its log, between two looks: `is_one_state` says why that is enough.
/// No clause says so.
fn read_once(rt: &HostRuntime, paths: &Paths<'_>) -> Result<Option<Files<Loaded>>, FileError> {
    let before = Look::new(rt, paths)?;
    if before.lacks_file() {
        return Err(FileError::NoFile);
    }
    if before.is_hot() {
        return Ok(None);
    }
    let db = bytes_of(rt, paths.file)?;
    let frames = bytes_of(rt, paths.log)?;
    let stayed = before.tells_changes() || has_still(rt, paths.file, db.as_slice())?;
    let after = Look::new(rt, paths)?;
    if !stayed || !before.begins(frames.as_slice()) || !is_one_state(&before, &after) {
        return Ok(None);
    }
    Ok(Some(Files {
        log: Loaded::new(frames),
        db: Loaded::new(db),
    }))
}

/// Reads the files until they are found in one state, for `seconds` seconds; once, if these are 0.
fn read_calmly(
    rt: &HostRuntime,
    paths: &Paths<'_>,
    seconds: u64,
) -> Result<Files<Loaded>, FileError> {
    let patience = Duration::from_secs(seconds);
    let began = Instant::now(rt)?;
    for _ in 0..=seconds.saturating_mul(READS_A_SECOND) {
        if let Some(files) = read_once(rt, paths)? {
            return Ok(files);
        }
        if began.elapsed(rt)? >= patience {
            break;
        }
        thread::sleep(rt, Duration::from_millis(PAUSE));
    }
    if Look::new(rt, paths)?.is_hot() {
        return Err(FileError::Journal);
    }
    Err(FileError::Busy)
}

/// The files at a path, in memory. The log of a file with a second name may be beside that, so it isn't read.
fn load(rt: &HostRuntime, path: &str, seconds: u64) -> Result<Files<Loaded>, FileError> {
    judge_name(path)?;
    let file = match fs::canonicalize(rt, path) {
        Ok(file) => file,
        Err(error) if error.kind() == io::ErrorKind::NotFound => return Err(FileError::NoFile),
        Err(error) => return Err(FileError::from(error)),
    };
    let file = file.as_str();
    let log = format!(in rt.alloc(); "{file}-wal")?;
    let journal = format!(in rt.alloc(); "{file}-journal")?;
    let paths = Paths {
        file,
        log: log.as_str(),
        journal: journal.as_str(),
    };
    read_calmly(rt, &paths, seconds)
}

/// Opens files in memory. What is found is what they hold. Refused by `NoDatabase`, if they hold none, and else by
/// `Memory`.
pub(crate) fn over(
    alloc: Global,
    files: Files<Loaded>,
    options: Options,
) -> Result<Connection<FileStore<Loaded>>, FileError>
    ensures clean { IfOk result (λ c. HasCleanDisk (file_state c)) }
    ensures opened { IfOk result (λ c. HasCleanDisk (file_state c) → IsOpened c) }
    ensures found { IfOk result (λ c. HasCleanDisk (file_state c) → Finds files c) }
    ensures refused { IfErr result (IsUnopened files) }
{
    match Connection::open_files(alloc, files, options) {
        Ok(connection) => Ok(connection),
        Err((error, left)) => {
            drop(left);
            Err(fault_in_memory(error))
        }
    }
}

/// Opens the database that the files at a path hold at this moment: what is changed of it stays in memory. A file that
/// isn't there is refused by `NoFile`, and by `NotPlain` if it, its log or its journal is no plain file with one name.
/// One beside a rollback journal is refused by `Journal`, and by `Busy` one that was written again and again, after
/// `seconds` seconds; with 0 the files are read once. Memory returns what was written to it, so what is stated of the
/// connection needs no premise on a disk.
pub fn read(
    rt: &HostRuntime,
    path: &str,
    seconds: u64,
) -> Result<Connection<FileStore<Loaded>>, FileError>
    ensures clean { IfOk result (λ c. HasCleanDisk (file_state c)) }
    ensures opened { IfOk result (λ c. IsOpened c) }
{
    let options = options_for(rt, PAGES)?;
    let files = load(rt, path, seconds)?;
    over(rt.alloc(), files, options)
}
