//! What gives and takes bytes and counts its failures.

ghost use Rattle.std.specs.Prelude.{◌≡◌, ℕ, ◌<◌, ◌≤◌, List, [], Option, Some, None, length, take, drop, IfOk, OnOk, OnErr};
ghost use Rattle.std.specs.Io.KnownBytes.{Appends};
ghost use Rattle.bson_base.specs.Device.{Counts, Feed, Tally, Gives, IsExhausted, ReadGives, WriteTakes, TakesBeginning, CanFail, CanRefuse};

use std::alloc::Global;
use std::io::{Read, Write};
use thiserror::Error;

/// A call of a device failed.
#[derive(Clone, Copy, Debug, PartialEq, Eq, Error)]
#[error("the device failed")]
pub struct DeviceFault;

/// What gives bytes.
pub trait Source {
    // How many calls have failed, and the bytes given so far and those left, if they are known.
    ghost feed: { Self → Feed };

    /// Gives up to as many bytes as `buf` has room for, and says how many; none only at the end, or if there is no
    /// room. The caller makes sure that fewer than 2⁶⁴ - 1 calls have failed.
    fn read(&mut self, buf: &mut [u8]) -> Result<usize, DeviceFault>
        requires { CanFail (feed self.old) }
        ensures counts { Counts (feed self.old).failures (feed self.new).failures result }
        ensures bound { IfOk result (λ n. n ≤ length buf.new) }
        ensures bytes { ReadGives (feed self.old).supply (feed self.new).supply result buf.new }
        ensures end { IfOk result (λ n. n ≡ 0 → 0 < length buf.new → IsExhausted (feed self.new).supply) };
}

/// What takes bytes.
pub trait Sink {
    // How many calls have failed, and the bytes taken so far, if they are known.
    ghost tally: { Self → Tally };

    /// Takes bytes from the front of `buf`, and says how many: at least one, if there are any. The caller makes sure
    /// that fewer than 2⁶⁴ - 1 calls have failed.
    fn write(&mut self, buf: &[u8]) -> Result<usize, DeviceFault>
        requires { CanRefuse (tally self.old) }
        ensures counts { Counts (tally self.old).failures (tally self.new).failures result }
        ensures bound { IfOk result (λ n. n ≤ length buf.now) }
        ensures some { IfOk result (λ n. 0 < length buf.now → 0 < n) }
        ensures bytes { WriteTakes (tally self.old).taken (tally self.new).taken result buf.now };
}

/// Bytes in memory, which are read from the front and never fail.
#[derive(Drop)]
pub struct SliceSource<'a> {
    /// All the bytes.
    pub bytes: &'a [u8],
    /// How many of them were given.
    pub at: usize,
    ghost within: { at ≤ length bytes.now },
}

impl<'a> SliceSource<'a> {
    /// A source of all of `bytes`.
    pub fn new(bytes: &'a [u8]) -> SliceSource<'a>
        ensures bytes { result.bytes.now ≡ bytes.now }
        ensures at { result.at ≡ 0 }
    {
        SliceSource { bytes, at: 0 }
    }
}

impl Source for SliceSource<'_> {
    ghost feed = { λ s. record { failures = 0; supply = record { given = Some (take s.at s.bytes.now); left = Some (drop s.at s.bytes.now) } } };

    fn read(&mut self, buf: &mut [u8]) -> Result<usize, DeviceFault> {
        let rest = &self.bytes[self.at..];
        let n = rest.len().min(buf.len());
        buf[..n].copy_from_slice(&rest[..n]);
        self.at += n;
        Ok(n)
    }
}

/// A vector that takes bytes at its end. Out of memory is its only failure.
#[derive(Drop)]
pub struct VecSink {
    /// The bytes taken.
    pub bytes: Vec<u8>,
    /// How many calls have failed.
    pub failed: u64,
}

impl VecSink {
    /// A sink that has taken nothing.
    pub fn new(alloc: Global) -> VecSink
        ensures bytes { result.bytes.items ≡ [] }
        ensures failed { result.failed ≡ 0 }
    {
        VecSink {
            bytes: Vec::new(alloc),
            failed: 0,
        }
    }
}

impl Sink for VecSink {
    ghost tally = { λ s. record { failures = s.failed; taken = Some s.bytes.items } };

    /// Takes all of `buf` in one call, or nothing if the vector can't grow.
    fn write(&mut self, buf: &[u8]) -> Result<usize, DeviceFault> {
        match self.bytes.extend_from_slice(buf) {
            Ok(()) => Ok(buf.len()),
            Err(_) => {
                self.failed += 1;
                Err(DeviceFault)
            }
        }
    }
}

/// A reader or writer of std with the count of its failures. Each error of the reader or writer is one, also an
/// interrupted call, and so is a write that takes none of some bytes.
#[derive(Drop)]
pub struct Counted<T> {
    /// The reader or writer.
    pub device: T,
    /// How many calls have failed.
    pub failed: u64,
}

impl<T> Counted<T> {
    /// A device that has not failed yet.
    pub fn new(device: T) -> Counted<T>
        ensures device { result.device ≡ device }
        ensures failed { result.failed ≡ 0 }
    {
        Counted { device, failed: 0 }
    }
}

impl<T: Read> Source for Counted<T> {
    ghost feed = { λ c. record { failures = c.failed; supply = record { given = None; left = T.remaining c.device } } };

    fn read(&mut self, buf: &mut [u8]) -> Result<usize, DeviceFault> {
        match self.device.read(buf) {
            Ok(n) => Ok(n),
            Err(_) => {
                self.failed += 1;
                Err(DeviceFault)
            }
        }
    }
}

impl<T: Write> Sink for Counted<T> {
    ghost tally = { λ c. record { failures = c.failed; taken = T.contents c.device } };

    fn write(&mut self, buf: &[u8]) -> Result<usize, DeviceFault> {
        match self.device.write(buf) {
            Ok(n) => {
                if n == 0 && !buf.is_empty() {
                    self.failed += 1;
                    return Err(DeviceFault);
                }
                Ok(n)
            }
            Err(_) => {
                self.failed += 1;
                Err(DeviceFault)
            }
        }
    }
}

/// Writes all of `bytes`, or reports the first failure, after which a prefix of them was taken.
pub fn write_all<S: Sink>(sink: &mut S, bytes: &[u8]) -> Result<(), DeviceFault>
    requires { CanRefuse (S.tally sink.old) }
    ensures counts { Counts (S.tally sink.old).failures (S.tally sink.new).failures result }
    ensures ok { OnOk result (Appends (S.tally sink.old).taken (S.tally sink.new).taken bytes.now) }
    ensures err { OnErr result (TakesBeginning (S.tally sink.old).taken (S.tally sink.new).taken bytes.now) }
{
    let mut at = 0usize;
    while at < bytes.len() {
        at += sink.write(&bytes[at..])?;
    }
    Ok(())
}

/// Reads until `buf` is full or the source is at its end, and says how many bytes were read. After a failure `buf` may
/// hold some of them.
pub fn read_full<S: Source>(source: &mut S, buf: &mut [u8]) -> Result<usize, DeviceFault>
    requires { CanFail (S.feed source.old) }
    ensures counts { Counts (S.feed source.old).failures (S.feed source.new).failures result }
    ensures bound { IfOk result (λ n. n ≤ length buf.new) }
    ensures bytes { IfOk result (λ n. Gives (S.feed source.old).supply (S.feed source.new).supply (take n buf.new)) }
    ensures end { IfOk result (λ n. n < length buf.new → IsExhausted (S.feed source.new).supply) }
{
    let mut at = 0usize;
    while at < buf.len() {
        let n = source.read(&mut buf[at..])?;
        if n == 0 {
            return Ok(at);
        }
        at += n;
    }
    Ok(at)
}
