//! Why a file can't be used.

ghost use Rattle.std.specs.Prelude.{◌≡◌};
ghost use Rattle.cli_files.specs.Fault.{fault_in_memory, fault_line, kind_of};

use sqlite::ErrorCode;
use sqlite_std_file::OpenError;
use std::alloc::AllocError;
use std::io;
use store_model::ErrorKind;
use thiserror::Error;

/// Why a file can't be used. The texts are for a person at a terminal.
#[derive(Clone, Copy, Debug, PartialEq, Eq, Error)]
pub enum FileError {
    /// Out of memory.
    #[error("out of memory")]
    Memory,
    /// It isn't there, and nothing is made.
    #[error("it isn't there")]
    NoFile,
    /// The folder that it is to be in isn't there.
    #[error("its folder isn't there")]
    NoFolder,
    /// Another process has it, or writes it without a pause that is long enough to read it, or makes the same back-up.
    #[error("another process has it; --wait SECONDS in front of the words waits for it")]
    Busy,
    /// It, its log or its folder may not be read, or not be written.
    #[error("it, the log beside it or its folder can't be read or written by this user")]
    Denied,
    /// It is no database, one that isn't sound, or one with a table that the kit's SQL doesn't understand.
    #[error("it is no SQLite database or a damaged one, or another table of it isn't understood here")]
    NoDatabase,
    /// Another program left a rollback journal beside it, or is writing one.
    #[error("a rollback journal is beside it: open it with sqlite3 first, which plays that back")]
    Journal,
    /// It, its log or its journal isn't a plain file with one name.
    #[error("it, or the log or journal beside it, is no plain file: a folder, a pipe, a link, or one with a second name")]
    NotPlain,
    /// The name stands for something else to SQLite.
    #[error("SQLite has another use for this name")]
    NoName,
    /// The file that is to be made is there, or a log or journal of that name.
    #[error("there is a file of this name, or a log or journal of one, which is left as it is")]
    Exists,
    /// Every other fault, of the disk above all.
    #[error("the disk is full, or the system refused to read or write it")]
    Disk,
}

impl FileError {
    /// What the program reports of it: `Memory`, and `Database` for all others.
    pub fn kind(self) -> ErrorKind
        ensures { result ≡ kind_of self }
    {
        match self {
            FileError::Memory => ErrorKind::Memory,
            _ => ErrorKind::Database,
        }
    }

    /// What `fallowtime` reports of it, without the line feed.
    pub fn line(self) -> &'static str
        ensures { result.now ≡ fault_line self }
    {
        match self {
            FileError::Memory => "refused: Memory",
            FileError::NoFile => "refused: NoFile",
            FileError::NoFolder => "refused: NoFolder",
            FileError::Busy => "refused: Busy",
            FileError::Denied => "refused: Denied",
            FileError::NoDatabase => "refused: NoDatabase",
            FileError::Journal => "refused: Journal",
            FileError::NotPlain => "refused: NotPlain",
            FileError::NoName => "refused: NoName",
            FileError::Exists => "refused: Exists",
            FileError::Disk => "refused: Disk",
        }
    }
}

impl From<AllocError> for FileError {
    ghost use Rattle.std.specs.Prelude.{◌≡◌};
    ghost use Rattle.cli_files.specs.declared.fault.FileError.TheVariants.{Memory};

    ghost from_gives = { λ _ e. e ≡ Memory };

    fn from(_: AllocError) -> FileError {
        FileError::Memory
    }
}

/// Why a call of the system failed.
impl From<io::Error> for FileError {
    ghost use Rattle.std.specs.IoError.{error_kind};
    ghost use Rattle.std.specs.Prelude.{◌≡◌};
    ghost use Rattle.cli_files.specs.Fault.{fault_of_io};

    ghost from_gives = { λ e f. f ≡ fault_of_io (error_kind e) };

    /// `NoFolder` if a name isn't found, `Denied` if the system doesn't allow it or the disk is read-only, `Exists` if
    /// there is a file already, `NotPlain` if it is no plain file, `Memory` if there is no memory, and else `Disk`.
    fn from(error: io::Error) -> FileError {
        match error.kind() {
            io::ErrorKind::OutOfMemory => FileError::Memory,
            io::ErrorKind::NotFound | io::ErrorKind::NotADirectory => FileError::NoFolder,
            io::ErrorKind::PermissionDenied | io::ErrorKind::ReadOnlyFilesystem => {
                FileError::Denied
            }
            io::ErrorKind::AlreadyExists => FileError::Exists,
            io::ErrorKind::Unsupported | io::ErrorKind::IsADirectory => FileError::NotPlain,
            _ => FileError::Disk,
        }
    }
}

/// Why the files at a path can't be used.
impl From<OpenError> for FileError {
    ghost use Rattle.std.specs.Prelude.{◌≡◌};
    ghost use Rattle.cli_files.specs.Fault.{fault_of_opening};

    ghost from_gives = { λ e f. f ≡ fault_of_opening e };

    /// `Journal` if a rollback journal has yet to be played back. An error of a call of the system is taken by its
    /// kind.
    fn from(error: OpenError) -> FileError {
        match error {
            OpenError::OutOfMemory => FileError::Memory,
            OpenError::Busy => FileError::Busy,
            OpenError::HotJournal => FileError::Journal,
            OpenError::Io(error) => FileError::from(error),
        }
    }
}

/// Why files aren't opened as a database.
impl From<sqlite::Error> for FileError {
    ghost use Rattle.std.specs.Prelude.{◌≡◌};
    ghost use Rattle.cli_files.specs.Fault.{fault_of_sql};

    ghost from_gives = { λ e f. f ≡ fault_of_sql e };

    /// `NoDatabase` if the file is no database or a damaged one, `Memory` if there is no memory, and else `Disk`.
    fn from(error: sqlite::Error) -> FileError {
        match error {
            sqlite::Error::SqliteFailure(ErrorCode::OutOfMemory) => FileError::Memory,
            sqlite::Error::SqliteFailure(ErrorCode::NotADatabase | ErrorCode::DatabaseCorrupt) => {
                FileError::NoDatabase
            }
            _ => FileError::Disk,
        }
    }
}

/// Why files in memory (`Loaded`) aren't opened as a database, or can't be taken in: they are none, or there is no
/// memory. There is no disk whose fault it could be: a write to them fails for lack of memory alone.
pub(crate) fn fault_in_memory(error: sqlite::Error) -> FileError
    ensures { result ≡ fault_in_memory error }
{
    match error {
        sqlite::Error::SqliteFailure(ErrorCode::NotADatabase | ErrorCode::DatabaseCorrupt) => {
            FileError::NoDatabase
        }
        _ => FileError::Memory,
    }
}
