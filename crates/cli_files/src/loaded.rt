//! A file that was read into memory.

ghost use Rattle.std.specs.Prelude.{◌≡◌, true, false, refl, is_ok, length, OnOk};
ghost use Rattle.sqlite_disk.specs.Disk.{Holds, Torn, Cut, CountsFault};
ghost use Rattle.sqlite_disk.specs.Refusal.{finds_no_room};

use sqlite_disk::{Disk, Tally};
use std::alloc::AllocError;
use std::io;

/// The bytes of a file as they were read, and what was changed of them since, in memory alone: nothing goes back to the
/// file. It returns what was written to it, so nothing that is read is tested once more, and there is nothing that a
/// crash could leave.
#[derive(Drop)]
pub struct Loaded {
    bytes: Vec<u8>,
    faults: u64,
}

impl Loaded {
    ghost use Rattle.cli_files.specs.Loaded.{loaded_bytes};

    /// Takes the bytes of a file.
    pub fn new(bytes: Vec<u8>) -> Loaded
        ensures { loaded_bytes result ≡ bytes.items }
    {
        Loaded { bytes, faults: 0 }
    }

    /// Gives the bytes back.
    pub fn into_bytes(self) -> Vec<u8>
        ensures { result.items ≡ loaded_bytes self }
    {
        let Loaded { bytes, faults: _ } = self;
        bytes
    }
}

/// Counts a call that failed.
fn count(outcome: Result<(), AllocError>, faults: &mut u64) -> io::Result<()>
    ensures variant { is_ok result ≡ is_ok outcome }
    ensures kind { finds_no_room result ≡ false }
    ensures faults { CountsFault result faults.old faults.new }
{
    if outcome.is_err() {
        *faults = faults.saturating_add(1);
        return Err(io::Error::from(io::ErrorKind::OutOfMemory));
    }
    Ok(())
}

/// Gives the file this length.
fn resize(file: &mut Vec<u8>, len: usize) -> Result<(), AllocError>
    ensures len { OnOk result (length file.new.items ≡ len) }
    ensures others { Cut len file.old.items file.new.items }
{
    file.resize(len, 0)
}

/// Writes bytes into the file, which grows if they reach past its end.
fn overwrite(file: &mut Vec<u8>, at: usize, bytes: &[u8]) -> Result<(), AllocError>
    ensures written { OnOk result (Holds file.new.items at bytes.now) }
    ensures others { Torn at (length bytes.now) file.old.items file.new.items }
{
    let end = at.checked_add(bytes.len()).ok_or(AllocError)?;
    if end > file.len() {
        resize(file, end)?;
    }
    file[at..end].copy_from_slice(bytes);
    Ok(())
}

impl Disk for Loaded {
    ghost seen = { λ m. m.bytes.items };

    ghost may_leave = { λ m c. c ≡ m.bytes.items };

    ghost is_usable = { λ _. true };

    ghost faults = { λ m. m.faults };

    ghost is_clean = { λ _. true };

    ghost tally_of = { λ _. record { caught = 0; refused = 0 } };

    ghost key_of = { λ _. 0 };

    ghost is_fair = { λ _ _. true };

    ghost fair_if_clean = { λ _ _ _. refl };

    ghost seen_may_stay = { λ _. refl };

    /// False: a crash leaves no torn write, as nothing goes back to the file.
    fn mixes(&self) -> bool {
        false
    }

    /// 0: no digest is tested, so there is no secret.
    fn key(&self) -> u64 {
        0
    }

    /// Both counts stay 0: memory has no damage, and there is no disk that could be full.
    fn tally(&self) -> Tally {
        Tally {
            caught: 0,
            refused: 0,
        }
    }

    /// True: no sync fails.
    fn may_be_used(&self) -> bool {
        true
    }

    /// The length in bytes, with what was written since the file was read. It never fails.
    fn len(&mut self) -> io::Result<usize> {
        Ok(self.bytes.len())
    }

    /// Fills `buf` from this offset on. `UnexpectedEof` if that reaches past the end, which isn't counted as a fault.
    fn read_at(&mut self, at: usize, buf: &mut [u8]) -> io::Result<()> {
        if at > self.bytes.len() || buf.len() > self.bytes.len() - at {
            return Err(io::ErrorKind::UnexpectedEof.into());
        }
        buf.copy_from_slice(&self.bytes[at..at + buf.len()]);
        Ok(())
    }

    /// As `read_at`: the digest isn't tested, since memory returns what was written to it.
    fn read_checked(&mut self, _key: u64, _want: u64, at: usize, buf: &mut [u8]) -> io::Result<()> {
        self.read_at(at, buf)
    }

    /// Writes to memory alone, and grows if the bytes reach past the end, with zeros before them. `OutOfMemory`,
    /// counted as a fault, if it can't grow.
    fn write_at(&mut self, at: usize, bytes: &[u8]) -> io::Result<()> {
        count(overwrite(&mut self.bytes, at, bytes), &mut self.faults)
    }

    /// Cuts the end off, or puts zeros behind it. `OutOfMemory`, counted as a fault, if a growth was refused.
    fn set_len(&mut self, len: usize) -> io::Result<()> {
        count(resize(&mut self.bytes, len), &mut self.faults)
    }

    /// Has nothing to do: nothing goes back to the file.
    fn sync(&mut self) -> io::Result<()> {
        Ok(())
    }
}
