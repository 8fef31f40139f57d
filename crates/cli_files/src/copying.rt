//! A whole database file, made of one that was read into memory.

ghost use Rattle.std.specs.Prelude.{ℕ, List, IfErr, IfOk, [], ◌≡◌, ◌⊎◌, ◌+◌};
ghost use Rattle.std.specs.Io.KnownBytes.{Appends};
ghost use Rattle.sqlite.specs.Files.{file_state, HoldsDatabase, IsOpened};
ghost use Rattle.bson_base.specs.Device.{CanRefuse, TakesBeginning};
ghost use Rattle.cli_files.specs.declared.fault.FileError.TheVariants.{Disk};

use crate::fault::{FileError, fault_in_memory};
use crate::loaded::Loaded;
use crate::opening::judge_name;
use crate::reading::over;
use bson_base::{Counted, Sink, write_all};
use sqlite::{Connection, FileStore, Options};
use sqlite_disk::Files;
use std::alloc::Global;
use std::fs::{OpenOptions, Permissions, TryLockError};
use std::os::unix::fs::{MetadataExt, OpenOptionsExt, PermissionsExt};
use std::{fs, io};

/// The bytes of a database file that holds, without a log, what the connection last committed. A write to the file in
/// memory that fails is `Memory`.
pub fn whole(connection: Connection<FileStore<Loaded>>) -> Result<Vec<u8>, FileError>
    ensures { IfOk result (λ bytes. ∥ HoldsDatabase (record { log = []; db = bytes.items })
        (file_state connection).committed.trees ∥₁) }
{
    match connection.close_files() {
        Ok(files) => Ok(files.db.into_bytes()),
        Err((error, store)) => {
            drop(store);
            Err(fault_in_memory(error))
        }
    }
}

/// Writes such a file. After an error a prefix of it may have been written: `Disk` if a write failed.
pub fn write_whole<F: Sink>(
    connection: Connection<FileStore<Loaded>>,
    copy: &mut F,
) -> Result<(), FileError>
    requires { CanRefuse (F.tally copy.old) }
    ensures whole { IfOk result (λ _. (bytes : List ℕ) × Appends (F.tally copy.old).taken
        (F.tally copy.new).taken bytes × ∥ HoldsDatabase (record { log = []; db = bytes })
        (file_state connection).committed.trees ∥₁) }
    // After an error nothing was written; or a write failed, which is `Disk`, and a beginning of such a file was.
    ensures failed { IfErr result (λ e. (copy.new ≡ copy.old) ⊎ ((e ≡ Disk)
        × ((F.tally copy.new).failures ≡ (F.tally copy.old).failures + 1) × ((bytes : List ℕ)
        × TakesBeginning (F.tally copy.old).taken (F.tally copy.new).taken bytes
        × ∥ HoldsDatabase (record { log = []; db = bytes })
        (file_state connection).committed.trees ∥₁))) }
{
    let bytes = whole(connection)?;
    match write_all(copy, bytes.as_slice()) {
        Ok(()) => Ok(()),
        Err(_) => Err(FileError::Disk),
    }
}

/// A connection over such a file, as the next opening of it finds it: it shows what was committed.
pub fn reopened(
    alloc: Global,
    connection: Connection<FileStore<Loaded>>,
    options: Options,
) -> Result<Connection<FileStore<Loaded>>, FileError>
    ensures opened { IfOk result (λ c. IsOpened c) }
    ensures found { IfOk result (λ c. ∥ (file_state c).committed.trees ≡ (file_state
        connection).committed.trees ∥₁) }
{
    let bytes = whole(connection)?;
    let files = Files {
        log: Loaded::new(Vec::new(alloc)),
        db: Loaded::new(bytes),
    };
    match over(alloc, files, options) {
        Ok(found) => Ok(found),
        Err(error) => Err(error),
    }
}

/// What the names of the files end in that SQLite makes beside a database file.
const BESIDE: [&str; 3] = ["-wal", "-journal", "-shm"];

/// Refuses names that SQLite has another use for: such a file couldn't be opened, or would be taken for the log of
/// another one.
fn judge_copy_name(path: &str) -> Result<(), FileError> {
    judge_name(path)?;
    for ending in BESIDE {
        if path.ends_with(ending) {
            return Err(FileError::NoName);
        }
    }
    Ok(())
}

/// Refuses a path at which something is: the opening of a new file would find that beside it.
fn refuse_leftover(rt: &HostRuntime, path: &str) -> Result<(), FileError> {
    if fs::symlink_metadata(rt, path).is_ok() {
        return Err(FileError::Exists);
    }
    Ok(())
}

/// Refuses a path that can't be that of a copy, as something is there, or a log or a journal that would be played over
/// it.
fn judge_place(rt: &HostRuntime, path: &str) -> Result<(), FileError> {
    refuse_leftover(rt, path)?;
    refuse_leftover(rt, format!(in rt.alloc(); "{path}-wal")?.as_str())?;
    refuse_leftover(rt, format!(in rt.alloc(); "{path}-journal")?.as_str())
}

/// Takes a part of a copy for this process alone: `Busy` if another one has it, or has put its own in the place. A file
/// system without such locks is trusted.
fn hold(rt: &HostRuntime, part: &str, file: &fs::File) -> Result<(), FileError> {
    if let Err(TryLockError::WouldBlock) = file.try_lock() {
        return Err(FileError::Busy);
    }
    let (held, named) = (file.metadata()?, fs::symlink_metadata(rt, part)?);
    if held.dev() != named.dev() || held.ino() != named.ino() {
        return Err(FileError::Busy);
    }
    Ok(())
}

/// Removes the part that a copy which was killed has left. It may be a second name of the whole copy, so nothing is
/// written to it. What is no plain file isn't one, and stays: `Exists`.
fn remove_part(rt: &HostRuntime, part: &str) -> Result<(), FileError> {
    match fs::symlink_metadata(rt, part) {
        Ok(found) if found.is_file() => {}
        Ok(_) => return Err(FileError::Exists),
        Err(error) if error.kind() == io::ErrorKind::NotFound => return Ok(()),
        Err(error) => return Err(FileError::from(error)),
    }
    let left = fs::File::open(rt, part)?;
    hold(rt, part, &left)?;
    fs::remove_file(rt, part)?;
    Ok(())
}

/// A file that is to become a copy.
#[derive(Drop)]
struct Part {
    name: String,
    file: fs::File,
    /// The mode that it gets when it is whole.
    mode: u32,
}

/// Makes the file that is to become a copy of `file` at `path`, if one may be there. Nobody else may read it until it is
/// whole.
fn begin(rt: &HostRuntime, file: &str, path: &str) -> Result<Part, FileError> {
    judge_copy_name(path)?;
    let name = format!(in rt.alloc(); "{path}-copying")?;
    remove_part(rt, name.as_str())?;
    judge_place(rt, path)?;
    let mode = fs::metadata(rt, file)?.mode();
    let file = OpenOptions::new()
        .write(true)
        .create_new(true)
        .mode(0o600)
        .open(rt, name.as_str())?;
    hold(rt, name.as_str(), &file)?;
    Ok(Part { name, file, mode })
}

/// Gives a copy the mode of the file that was copied. A file system that has no modes is left as it is.
fn give_mode(file: &fs::File, mode: u32) -> io::Result<()> {
    match file.set_permissions(Permissions::from_mode(mode & 0o777)) {
        Err(error) if error.kind() == io::ErrorKind::PermissionDenied => Ok(()),
        other => other,
    }
}

/// Gives a part that is whole the name of the copy. Nothing that is there by now is replaced, except on a file system
/// without links, by whatever makes it in this moment.
fn publish(rt: &HostRuntime, part: &str, path: &str) -> Result<(), FileError> {
    match fs::hard_link(rt, part, path) {
        Ok(()) => {
            let removed = fs::remove_file(rt, part);
            if removed.is_err() {
                let _ = fs::remove_file(rt, path);
            }
            removed?;
        }
        Err(error) if error.kind() == io::ErrorKind::AlreadyExists => return Err(FileError::Exists),
        Err(_) => {
            refuse_leftover(rt, path)?;
            fs::rename(rt, part, path)?;
        }
    }
    Ok(())
}

/// Syncs the folder in which a file is: after a loss of power its name is there.
fn settle(rt: &HostRuntime, path: &str) -> Result<(), FileError> {
    let mut folder = fs::canonicalize(rt, path)?;
    folder.pop();
    fs::File::open(rt, folder.as_str())?.sync_all()?;
    Ok(())
}

/// Finishes a part that was written: its mode, a sync, and the name of the copy.
fn finish(
    rt: &HostRuntime,
    file: &fs::File,
    mode: u32,
    name: &str,
    path: &str,
) -> Result<(), FileError> {
    give_mode(file, mode)?;
    file.sync_all()?;
    publish(rt, name, path)
}

/// Writes a part, and makes it the copy. After an error there is neither.
fn fill(
    rt: &HostRuntime,
    connection: Connection<FileStore<Loaded>>,
    part: Part,
    path: &str,
) -> Result<(), FileError> {
    let Part { name, file, mode } = part;
    let mut copy = Counted::new(file);
    let written = match write_whole(connection, &mut copy) {
        Ok(()) => finish(rt, &copy.device, mode, name.as_str(), path),
        Err(error) => Err(error),
    };
    if written.is_err() {
        let _ = fs::remove_file(rt, name.as_str());
        return written;
    }
    let settled = settle(rt, path);
    if settled.is_err() {
        let _ = fs::remove_file(rt, path);
    }
    settled
}

/// Writes what the connection last committed into a new file, which has the mode of `file`, and syncs that. It is written
/// under another name beside it, `path` and `-copying`, and is there under its own only when it is whole. A part that a
/// copy which was killed has left is removed; while another process writes one, the copy is refused by `Busy`. A file
/// that is there stays as it is, as do a log and a journal of that name: `Exists`. A name that SQLite has another use
/// for is `NoName`. After every error except `Exists` there is no file.
pub fn copy(
    rt: &HostRuntime,
    connection: Connection<FileStore<Loaded>>,
    file: &str,
    path: &str,
) -> Result<(), FileError> {
    match begin(rt, file, path) {
        Ok(part) => fill(rt, connection, part, path),
        Err(error) => Err(error),
    }
}
