//! The files of a database as they are at one moment, of which parts are read beside other processes.

ghost use Rattle.std.specs.Prelude.{◌≡◌, true, IfOk, IfSome};
ghost use Rattle.cli_files.specs.Parts.{is_clean_of, seen_of};

use crate::fault::FileError;
use crate::looking::{LOG_HEADER, Look, Paths, is_one_state};
use crate::opening::judge_name;
use crate::parts::FileParts;
use sqlite_disk::{Files, Start};
use std::fs;
use std::io::{self, Read};
use store_table::pages::Snapshot;

/// How many bytes of a log are read into memory.
const MOST_LOG: u64 = 1 << 25;

/// How many bytes the header of a frame has.
const FRAME_HEADER: usize = 24;

/// How many frames are looked at in a log.
const MOST_FRAMES: usize = 1 << 20;

/// How many bytes a page has at most.
const MOST_PAGE: usize = 65536;

/// All bytes of a log, none if there are too many. A log that isn't there has none.
fn log_bytes(rt: &HostRuntime, path: &str) -> io::Result<Option<Vec<u8>>> {
    match fs::File::open(rt, path) {
        Ok(mut file) => {
            let len = file.metadata()?.len();
            if len > MOST_LOG {
                return Ok(None);
            }
            let mut bytes = Vec::with_capacity(rt.alloc(), len as usize + 1)?;
            file.read_to_end(&mut bytes)?;
            Ok(Some(bytes))
        }
        Err(error) if error.kind() == io::ErrorKind::NotFound => Ok(Some(Vec::new(rt.alloc()))),
        Err(error) => Err(error),
    }
}

/// Four bytes as a number, the highest first, or 0.
fn number_at(bytes: &[u8], at: usize) -> u32 {
    match bytes.get(at..at.saturating_add(4)) {
        Some(four) if four.len() == 4 => {
            u32::from_be_bytes([four[0], four[1], four[2], four[3]])
        }
        _ => 0,
    }
}

/// Whether a frame is one of the log with this header, by its salt.
fn is_of(log: &[u8], at: usize) -> bool {
    match (
        log.get(16..24),
        log.get(at.saturating_add(8)..at.saturating_add(16)),
    ) {
        (Some(salt), Some(own)) => salt == own,
        _ => false,
    }
}

/// Whether the frames that came behind the first `done` ones are of no page of which something was read from the file.
fn spares_parts<S: Start>(log: &[u8], done: usize, size: usize, db: &FileParts<S>) -> bool {
    if done > MOST_FRAMES || size > MOST_PAGE {
        return false;
    }
    for i in done..MOST_FRAMES * 2 {
        let at = LOG_HEADER + i * (FRAME_HEADER + size);
        if !is_of(log, at) {
            return true;
        }
        let page = number_at(log, at) as usize;
        if page == 0 || !db.has_nothing_of((page - 1) * size, size) {
            return false;
        }
    }
    false
}

/// Where the files of a database are, and what was seen of them before they were read.
#[derive(Drop)]
pub struct Moment {
    before: Look,
    file: String,
    log: String,
    journal: String,
}

/// Where the files are.
fn paths_of(moment: &Moment) -> Paths<'_> {
    Paths {
        file: moment.file.as_str(),
        log: moment.log.as_str(),
        journal: moment.journal.as_str(),
    }
}

/// What is seen now of the files of the database at a path.
fn moment_of(rt: &HostRuntime, path: &str) -> Result<Moment, FileError> {
    let found = fs::canonicalize(rt, path)?;
    let file = format!(in rt.alloc(); "{}", found.as_str())?;
    let log = format!(in rt.alloc(); "{}-wal", found.as_str())?;
    let journal = format!(in rt.alloc(); "{}-journal", found.as_str())?;
    let before = Look::new(
        rt,
        &Paths {
            file: file.as_str(),
            log: log.as_str(),
            journal: journal.as_str(),
        },
    )?;
    Ok(Moment {
        before,
        file,
        log,
        journal,
    })
}

impl Moment {
    /// Whether what was read of the files since is what they held at one moment.
    ///
    /// The log was read before the pages of the file, and is read once more now. If there was none, nothing may have
    /// changed at all between two looks, as `is_one_state` says; and if the times of the file don't show each change, what
    /// was read of it has to be there still. If there was a log, it is the same one at the end, and what came to it since
    /// has to be of no page of which anything was read from the file: a checkpoint copies only pages that the log has, so
    /// no part that was read can have been written meanwhile. Frames that came count by their salt alone, committed or
    /// not. No clause says so.
    pub fn is_still<S: Start>(
        &self,
        rt: &HostRuntime,
        pages: &Snapshot<FileParts<S>>,
    ) -> Result<bool, FileError> {
        let files = pages.files();
        let stayed = self.before.tells_changes() || files.db.has_still()?;
        if !stayed || !self.before.begins(files.log.as_slice()) {
            return Ok(false);
        }
        let spared = if self.before.has_log() {
            match log_bytes(rt, self.log.as_str())? {
                Some(now) => spares_parts(
                    now.as_slice(),
                    pages.frame_count(),
                    pages.page_size(),
                    &files.db,
                ),
                None => false,
            }
        } else {
            true
        };
        let after = Look::new(rt, &paths_of(self))?;
        Ok(spared && is_one_state(&self.before, &after))
    }
}

/// The files of the database at a path: its log in memory, and the file, of which parts are read as they are asked for;
/// and the moment to hold them against once all is read. None of files beside a rollback journal with something to play
/// back, and of a long log.
///
/// Refused as `read` is, but never by Busy and Journal.
pub fn open_parts<S: Start>(
    rt: &HostRuntime,
    path: &str,
    _start: S,
) -> Result<Option<(Files<FileParts<S>>, Moment)>, FileError>
    ensures file { IfOk result (λ told. IfSome told (λ r. seen_of S.Start r.0.db ≡ S.Start.db)) }
    ensures log { IfOk result (λ told. IfSome told (λ r. is_clean_of S.Start r.0.log ≡ true)) }
{
    judge_name(path)?;
    let moment = moment_of(rt, path)?;
    if moment.before.is_hot() {
        return Ok(None);
    }
    let Some(log) = log_bytes(rt, moment.log.as_str())? else {
        return Ok(None);
    };
    let log = FileParts::held(rt.alloc(), log);
    let db = FileParts::of(rt.alloc(), fs::File::open(rt, moment.file.as_str())?)?;
    Ok(Some((Files { log, db }, moment)))
}
