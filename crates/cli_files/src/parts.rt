//! A file that is read by parts, each of which is kept as it was read.

ghost use Rattle.std.specs.Prelude.{◌≡◌, ◌⊎◌, ◌+◌, ◌≤◌, ℕ, List, true, false, length, refl, IsTrue, IfOk, OnOk, OnErr};
ghost use Rattle.std.specs.List.{AllByRecursion};
ghost use Rattle.sqlite_disk.specs.Disk.{Holds, CountsFault};
ghost use Rattle.cli_files.specs.Agrees.{IsApart, agree};

use sqlite_disk::{Disk, Start, Tally};
use std::alloc::{AllocError, Global};
use std::marker::PhantomData;
use std::os::unix::fs::FileExt;
use std::{fs, io};

/// How many bytes of a file are kept at most.
const MOST_KEPT: usize = 64 << 20;

/// A part of a file, as it was read.
#[derive(Drop)]
pub struct Part {
    at: usize,
    bytes: Vec<u8>,
}

/// A file that is read by parts, or a whole one in memory. What is read of the file is kept, so a part is read once: all
/// that is kept agrees with what the file held if it was read at one moment, and what is said of the pages then holds.
/// Once more than `MOST_KEPT` bytes were read, no more are kept, and nothing is said.
#[derive(Drop)]
pub struct FileParts<S: Start> {
    /// None if all bytes are in memory.
    file: Option<fs::File>,
    held: Vec<u8>,
    /// How many bytes the file had as it was opened.
    len: usize,
    /// Ascending by where they begin.
    parts: Vec<Part>,
    /// How many bytes these have together.
    kept: usize,
    /// Something was read that isn't kept.
    has_forgotten: bool,
    faults: u64,
    alloc: Global,
    start: PhantomData<S>,
}

/// Copies bytes from an offset on.
fn copy_part(bytes: &[u8], at: usize, buf: &mut [u8]) -> io::Result<()>
    ensures { OnOk result (Holds bytes.now at buf.new) }
{
    if at > bytes.len() || buf.len() > bytes.len() - at {
        return Err(io::ErrorKind::UnexpectedEof.into());
    }
    buf.copy_from_slice(&bytes[at..at + buf.len()]);
    Ok(())
}

/// Where a part that begins at an offset is among those that ascend, or would be.
fn place_of(parts: &[Part], at: usize) -> usize
    ensures { result ≤ length parts.now }
{
    parts.partition_point(|part| part.at < at)
}

/// Copies a part from those that were read, if it is one of them.
fn recall(parts: &[Part], at: usize, buf: &mut [u8]) -> bool
    ensures { IsTrue result → (file : List ℕ) → IsTrue (agree file parts.now) → Holds file at buf.new }
{
    let Some(part) = parts.get(place_of(parts, at)) else {
        return false;
    };
    if part.at != at || part.bytes.len() != buf.len() {
        return false;
    }
    buf.copy_from_slice(part.bytes.as_slice());
    true
}

/// Whether a part ends before another begins.
fn ends_by(at: usize, len: usize, bound: usize) -> bool
    ensures { IsTrue result → at + len ≤ bound }
{
    match at.checked_add(len) {
        Some(end) => end <= bound,
        None => false,
    }
}

/// Whether a part that was read has nothing of these bytes.
fn is_apart(part: &Part, at: usize, len: usize) -> bool
    ensures { IsTrue result → IsApart at len part.now }
{
    ends_by(part.at, part.bytes.len(), at) || ends_by(at, len, part.at)
}

/// Whether none of the parts has anything of these bytes.
fn are_apart(parts: &[Part], at: usize, len: usize) -> bool
    ensures { IsTrue result → AllByRecursion (IsApart at len) parts.now }
{
    let mut i = parts.len();
    while i > 0 {
        i -= 1;
        if !is_apart(&parts[i], at, len) {
            return false;
        }
    }
    true
}

/// Whether a file has a part still, as it was read.
fn has_part(alloc: Global, file: &fs::File, part: &Part) -> io::Result<bool> {
    let mut now = vec![in alloc; 0; part.bytes.len()]?;
    file.read_exact_at(now.as_mut_slice(), part.at as u64)?;
    Ok(now.as_slice() == part.bytes.as_slice())
}

/// Counts a call that failed.
fn count(outcome: io::Result<()>, faults: &mut u64) -> io::Result<()>
    ensures same { result ≡ outcome }
    ensures faults { CountsFault result faults.old faults.new }
{
    if outcome.is_err() {
        *faults = faults.saturating_add(1);
    }
    outcome
}

impl<S: Start> FileParts<S> {
    ghost use Rattle.cli_files.specs.Parts.{HasNothingOf, faults_of, held_of, is_clean_of, is_file, seen_of};

    /// All bytes of a file, in memory.
    pub fn held(alloc: Global, bytes: Vec<u8>) -> FileParts<S>
        ensures seen { seen_of S.Start result ≡ bytes.items }
        ensures clean { is_clean_of S.Start result ≡ true }
        ensures held { held_of result ≡ bytes.items }
    {
        FileParts {
            file: None,
            held: bytes,
            len: 0,
            parts: Vec::new(alloc),
            kept: 0,
            has_forgotten: false,
            faults: 0,
            alloc,
            start: PhantomData,
        }
    }

    /// A file that is open to be read.
    pub fn of(alloc: Global, file: fs::File) -> io::Result<FileParts<S>>
        ensures seen { IfOk result (λ it. seen_of S.Start it ≡ S.Start.db) }
        ensures file { IfOk result (λ it. is_file it ≡ true) }
    {
        let len = file.metadata()?.len() as usize;
        Ok(FileParts {
            file: Some(file),
            held: Vec::new(alloc),
            len,
            parts: Vec::new(alloc),
            kept: 0,
            has_forgotten: false,
            faults: 0,
            alloc,
            start: PhantomData,
        })
    }

    /// The bytes in memory; none of a file that is read by parts.
    pub fn as_slice(&self) -> &[u8]
        ensures { result.now ≡ held_of self.now }
    {
        self.held.as_slice()
    }

    /// Whether no byte of a range has been read of the file. It may say that one has, though none was.
    pub fn has_nothing_of(&self, at: usize, len: usize) -> bool
        ensures { IsTrue result → HasNothingOf self.now at len }
    {
        !self.has_forgotten && are_apart(self.parts.as_slice(), at, len)
    }

    /// Whether the file has still all that was read of it: each part is read once more. It may say that it hasn't, though
    /// it has. No clause says more: what a file holds later is nobody's promise.
    pub fn has_still(&self) -> io::Result<bool> {
        let Some(file) = &self.file else {
            return Ok(true);
        };
        if self.has_forgotten {
            return Ok(false);
        }
        for part in &self.parts {
            if !has_part(self.alloc, file, part)? {
                return Ok(false);
            }
        }
        Ok(true)
    }

    /// Keeps a part that was read, unless enough is kept.
    fn keep(&mut self, at: usize, bytes: &[u8]) -> Result<(), AllocError>
        requires { IsTrue (is_file self.old) }
        ensures seen { seen_of S.Start self.new ≡ seen_of S.Start self.old }
        ensures faults { faults_of self.new ≡ faults_of self.old }
        ensures clean { IsTrue (is_clean_of S.Start self.new) → IsTrue (is_clean_of S.Start self.old) }
        ensures kept { OnOk result (IsTrue (is_clean_of S.Start self.new) → Holds S.Start.db at bytes.now) }
    {
        if self.kept > MOST_KEPT || bytes.len() > MOST_KEPT - self.kept {
            self.has_forgotten = true;
            return Ok(());
        }
        let part = Part {
            at,
            bytes: Vec::from_slice(self.alloc, bytes)?,
        };
        let place = place_of(self.parts.as_slice(), at);
        self.parts.insert(place, part)?;
        self.kept += bytes.len();
        Ok(())
    }

    /// Reads a part, or finds it among those that were read.
    fn read_part(&mut self, at: usize, buf: &mut [u8]) -> io::Result<()>
        ensures seen { seen_of S.Start self.new ≡ seen_of S.Start self.old }
        ensures faults { faults_of self.new ≡ faults_of self.old }
        ensures clean { IsTrue (is_clean_of S.Start self.new) → IsTrue (is_clean_of S.Start self.old) }
        ensures read { OnOk result (IsTrue (is_clean_of S.Start self.new) → Holds (seen_of S.Start self.old) at buf.new) }
    {
        let Some(file) = &self.file else {
            return copy_part(self.held.as_slice(), at, buf);
        };
        if recall(self.parts.as_slice(), at, buf) {
            return Ok(());
        }
        file.read_exact_at(buf, at as u64)?;
        match self.keep(at, buf) {
            Ok(()) => Ok(()),
            Err(_) => Err(io::ErrorKind::OutOfMemory.into()),
        }
    }
}

impl<S: Start> Disk for FileParts<S> {
    ghost use Rattle.cli_files.specs.Parts.{faults_of, is_clean_of, seen_of};

    ghost seen = { seen_of S.Start };

    ghost may_leave = { λ m c. c ≡ seen_of S.Start m };

    ghost is_usable = { λ _. true };

    ghost faults = { faults_of };

    ghost is_clean = { is_clean_of S.Start };

    ghost tally_of = { λ _. record { caught = 0; refused = 0 } };

    ghost key_of = { λ _. 0 };

    ghost is_fair = { λ _ _. true };

    ghost fair_if_clean = { λ _ _ _. refl };

    ghost seen_may_stay = { λ _. refl };

    /// False: nothing is written, so a crash leaves no torn write.
    fn mixes(&self) -> bool {
        false
    }

    /// 0: no digest is tested, so there is no secret.
    fn key(&self) -> u64 {
        0
    }

    /// Both counts stay 0: no digest is tested, and nothing is written.
    fn tally(&self) -> Tally {
        Tally {
            caught: 0,
            refused: 0,
        }
    }

    /// True: nothing is written that a sync could lose.
    fn may_be_used(&self) -> bool {
        true
    }

    /// The bytes that the file had as it was opened, or those that are in memory.
    fn len(&mut self) -> io::Result<usize> {
        match self.file {
            Some(_) => Ok(self.len),
            None => Ok(self.held.len()),
        }
    }

    /// Fills `buf` from this offset on. `UnexpectedEof` past the end, and `OutOfMemory` if what was read of the file
    /// can't be kept. Each failure is counted.
    fn read_at(&mut self, at: usize, buf: &mut [u8]) -> io::Result<()> {
        let read = self.read_part(at, buf);
        count(read, &mut self.faults)
    }

    /// Refuses: nobody keeps digests of a file that is only read.
    fn read_checked(
        &mut self,
        _key: u64,
        _want: u64,
        _at: usize,
        _buf: &mut [u8],
    ) -> io::Result<()> {
        let refused = Err(io::ErrorKind::Unsupported.into());
        count(refused, &mut self.faults)
    }

    /// Refuses: nothing is written.
    fn write_at(&mut self, _at: usize, _bytes: &[u8]) -> io::Result<()> {
        let refused = Err(io::ErrorKind::ReadOnlyFilesystem.into());
        count(refused, &mut self.faults)
    }

    /// Refuses: nothing is written.
    fn set_len(&mut self, _len: usize) -> io::Result<()> {
        let refused = Err(io::ErrorKind::ReadOnlyFilesystem.into());
        count(refused, &mut self.faults)
    }

    /// Has nothing to do.
    fn sync(&mut self) -> io::Result<()> {
        Ok(())
    }
}
