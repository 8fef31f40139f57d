//! Looks at the files of a database, which don't read them whole, and what two looks say of the time between them.

ghost use Rattle.std.specs.Prelude.{◌≡◌, IsTrue};
ghost use Rattle.cli_files.specs.Looking.{IsCalm, IsOne};

use crate::fault::FileError;
use std::fs::{self, Metadata};
use std::io::{self, Read};
use std::os::unix::fs::MetadataExt;
use std::time::SystemTime;

/// How many bytes the header of a log has.
pub(crate) const LOG_HEADER: usize = 32;

/// How many bytes the header of a file has.
const FILE_HEADER: usize = 100;

/// What the header of a log begins with. The byte behind it says in which order its sums take bytes.
const LOG_MAGIC: [u8; 3] = [0x37, 0x7f, 0x06];

/// How many seconds a file has to be unchanged before its times alone say whether it changes. The coarsest times that a
/// file system keeps are of 2 seconds.
const COARSEST: i64 = 3;

/// Where the files of a database are.
#[derive(Clone, Copy)]
pub(crate) struct Paths<'a> {
    pub(crate) file: &'a str,
    pub(crate) log: &'a str,
    pub(crate) journal: &'a str,
}

/// A time as a file system keeps it.
#[derive(Clone, Copy)]
struct Moment {
    seconds: i64,
    nanos: i64,
}

impl Moment {
    ghost use Rattle.std.specs.Prelude.{◌≡◌, IsTrue};

    /// Whether it is the same time.
    fn is(self, other: Moment) -> bool
        ensures { IsTrue result → self ≡ other }
    {
        self.seconds == other.seconds && self.nanos == other.nanos
    }
}

/// What the system says of a file. Whoever changes the file changes this too, unless its times are too coarse.
#[derive(Clone, Copy)]
struct Seen {
    device: u64,
    number: u64,
    len: u64,
    written: Moment,
    changed: Moment,
}

impl Seen {
    ghost use Rattle.std.specs.Prelude.{◌≡◌, IsTrue};

    /// Whether the system said the same.
    fn is(self, other: Seen) -> bool
        ensures { IsTrue result → self ≡ other }
    {
        let is_file = self.device == other.device && self.number == other.number;
        let is_size = self.len == other.len;
        is_file && is_size && self.written.is(other.written) && self.changed.is(other.changed)
    }

    /// What the system said.
    fn new(found: &Metadata) -> Seen {
        Seen {
            device: found.dev(),
            number: found.ino(),
            len: found.size(),
            written: Moment {
                seconds: found.mtime(),
                nanos: found.mtime_nsec(),
            },
            changed: Moment {
                seconds: found.ctime(),
                nanos: found.ctime_nsec(),
            },
        }
    }

    /// Whether the file was changed so long before `now` that another change has another time.
    fn is_settled(&self, now: i64) -> bool {
        let last = self.written.seconds.max(self.changed.seconds);
        now.saturating_sub(last) > COARSEST
    }
}

/// A look at the files of a database: what the system says of the file and its log, none if one isn't there, what both
/// begin with, with zeros for what they don't have, whether the log has a header, whether a rollback journal has
/// something to play back, and whether the times of the file show each change from then on.
#[derive(Clone, Copy)]
pub(crate) struct Look {
    file: Option<Seen>,
    log: Option<Seen>,
    file_front: [u8; FILE_HEADER],
    log_front: [u8; LOG_HEADER],
    has_log: bool,
    is_hot: bool,
    is_settled: bool,
}

/// The seconds of the clock, 0 if they aren't known: then every time is too young.
fn seconds_now(rt: &HostRuntime) -> io::Result<i64> {
    match SystemTime::now(rt)?.duration_since(SystemTime::UNIX_EPOCH) {
        Ok(since) => Ok(i64::try_from(since.as_secs()).unwrap_or(0)),
        Err(_) => Ok(0),
    }
}

/// What the system says of the plain file with one name at a path, none if nothing is there. All else is refused before
/// it is opened: a pipe would be waited for, and a device read without an end.
pub(crate) fn plain(rt: &HostRuntime, path: &str) -> Result<Option<Metadata>, FileError> {
    match fs::symlink_metadata(rt, path) {
        // Its last name went as it was looked at: SQLite deletes its journal and its log.
        Ok(found) if found.nlink() == 0 => Ok(None),
        Ok(found) if found.is_file() && found.nlink() == 1 => Ok(Some(found)),
        Ok(_) => Err(FileError::NotPlain),
        Err(error) if error.kind() == io::ErrorKind::NotFound => Ok(None),
        Err(error) => Err(FileError::from(error)),
    }
}

/// The bytes that the file at a path begins with. Those that it doesn't have stay as they are.
fn read_front(rt: &HostRuntime, path: &str, front: &mut [u8]) -> io::Result<()> {
    match fs::File::open(rt, path) {
        Ok(mut file) => {
            let _ = file.read(front)?;
            Ok(())
        }
        Err(error) if error.kind() == io::ErrorKind::NotFound => Ok(()),
        Err(error) => Err(error),
    }
}

/// A look at one file, whose first bytes come into `front`.
fn look_at(rt: &HostRuntime, path: &str, front: &mut [u8]) -> Result<Option<Seen>, FileError> {
    match plain(rt, path)? {
        Some(found) => {
            read_front(rt, path, front)?;
            Ok(Some(Seen::new(&found)))
        }
        None => Ok(None),
    }
}

/// Whether a rollback journal has something to play back: it isn't empty, and doesn't begin with a zero.
fn is_hot(rt: &HostRuntime, journal: &str) -> Result<bool, FileError> {
    let mut first = [0];
    let _ = look_at(rt, journal, &mut first)?;
    Ok(first[0] != 0)
}

impl Look {
    /// Looks at the files. What isn't a plain file with one name is refused by `NotPlain`.
    pub(crate) fn new(rt: &HostRuntime, paths: &Paths<'_>) -> Result<Look, FileError> {
        let now = seconds_now(rt)?;
        let mut look = Look {
            file: None,
            log: None,
            file_front: [0; FILE_HEADER],
            log_front: [0; LOG_HEADER],
            has_log: false,
            is_hot: is_hot(rt, paths.journal)?,
            is_settled: false,
        };
        look.log = look_at(rt, paths.log, &mut look.log_front)?;
        look.has_log = look.log_front.starts_with(&LOG_MAGIC);
        look.file = look_at(rt, paths.file, &mut look.file_front)?;
        look.is_settled = look.file.is_some_and(|seen| seen.is_settled(now));
        Ok(look)
    }

    /// Whether a rollback journal had something to play back.
    pub(crate) fn is_hot(&self) -> bool {
        self.is_hot
    }

    /// Whether there was a log with a header.
    pub(crate) fn has_log(&self) -> bool
        ensures { result ≡ self.now.has_log }
    {
        self.has_log
    }

    /// Whether there was no file.
    pub(crate) fn lacks_file(&self) -> bool {
        self.file.is_none()
    }

    /// Whether the file need not be read again to know that it stayed as it was: what is written to it is in the log that
    /// was there, or the times of the file show it.
    pub(crate) fn tells_changes(&self) -> bool {
        self.has_log || self.is_settled
    }

    /// Whether a log that was read begins as the look saw it.
    pub(crate) fn begins(&self, frames: &[u8]) -> bool {
        let read = frames.len().min(LOG_HEADER);
        frames[..read] == self.log_front[..read]
    }
}

/// Whether both looks saw one file: it wasn't replaced.
fn is_one(before: Option<Seen>, after: Option<Seen>) -> bool
    ensures { IsTrue result → IsOne before after }
{
    match (before, after) {
        (Some(before), Some(after)) => {
            before.device == after.device && before.number == after.number
        }
        _ => false,
    }
}

/// Whether both looks saw the same of a file, also if none was there: it didn't change.
fn is_same(before: Option<Seen>, after: Option<Seen>) -> bool
    ensures { IsTrue result → before ≡ after }
{
    match (before, after) {
        (Some(before), Some(after)) => before.is(after),
        (None, None) => true,
        _ => false,
    }
}

/// Whether both looks saw files that begin alike.
fn begin_alike(before: &Look, after: &Look) -> bool {
    before.file_front == after.file_front && before.log_front == after.log_front
}

/// Whether what was read between two looks is one state, the log being read behind the file.
///
/// No rollback journal was there before or after, and both files begin as they did. Then there are two cases. If a log
/// is there, it is the same one: it didn't begin anew, so it has every page that was written into the file meanwhile,
/// and counts for these, as after a crash. If none is there, nothing may have changed at all, for whoever made a log,
/// took it in and deleted it, or made a journal and deleted that, has written the file.
pub(crate) fn is_one_state(before: &Look, after: &Look) -> bool
    ensures { IsTrue result → IsCalm before.now after.now }
{
    if before.is_hot || after.is_hot || !begin_alike(before, after) {
        return false;
    }
    if before.has_log && after.has_log {
        is_one(before.file, after.file) && is_one(before.log, after.log)
    } else {
        is_same(before.file, after.file) && is_same(before.log, after.log)
    }
}
