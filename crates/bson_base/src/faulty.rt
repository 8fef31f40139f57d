//! Devices that go slowly and fail on purpose, for tests of what reads and writes.

ghost use Rattle.std.specs.Prelude.{◌≡◌, ◌↔◌, ◌≤◌, [], Some, length, take, drop, IsTrue};

use super::device::{DeviceFault, Sink, Source};
use std::alloc::Global;
use std::io;

/// Bytes in memory that are given one a call, until the calls are used up; from then on each call fails.
#[derive(Drop)]
pub struct FaultySource<'a> {
    /// All the bytes.
    pub bytes: &'a [u8],
    /// How many of them were given.
    pub at: usize,
    /// How many calls still succeed.
    pub calls: u64,
    /// How many calls have failed.
    pub failed: u64,
    ghost within: { at ≤ length bytes.now },
}

impl<'a> FaultySource<'a> {
    /// A source of all of `bytes`, which fails once `calls` calls have succeeded.
    pub fn new(bytes: &'a [u8], calls: u64) -> FaultySource<'a>
        ensures bytes { result.bytes.now ≡ bytes.now }
        ensures at { result.at ≡ 0 }
        ensures calls { result.calls ≡ calls }
        ensures failed { result.failed ≡ 0 }
    {
        FaultySource {
            bytes,
            at: 0,
            calls,
            failed: 0,
        }
    }
}

impl Source for FaultySource<'_> {
    ghost feed = { λ s. record { failures = s.failed; supply = record { given = Some (take s.at s.bytes.now); left = Some (drop s.at s.bytes.now) } } };

    /// Gives one byte. A call that succeeds without one, at the end or without room, uses up a call too.
    fn read(&mut self, buf: &mut [u8]) -> Result<usize, DeviceFault> {
        if self.calls == 0 {
            self.failed += 1;
            return Err(DeviceFault);
        }
        self.calls -= 1;
        if buf.is_empty() || self.at >= self.bytes.len() {
            return Ok(0);
        }
        buf[0] = self.bytes[self.at];
        self.at += 1;
        Ok(1)
    }
}

/// A vector that takes one byte a call, until its room is used up; from then on each call with bytes fails.
#[derive(Drop)]
pub struct FaultySink {
    /// The bytes taken.
    pub bytes: Vec<u8>,
    /// How many bytes it still takes.
    pub room: u64,
    /// How many calls have failed.
    pub failed: u64,
}

impl FaultySink {
    /// A sink that fails once it has taken `room` bytes.
    pub fn new(alloc: Global, room: u64) -> FaultySink
        ensures bytes { result.bytes.items ≡ [] }
        ensures room { result.room ≡ room }
        ensures failed { result.failed ≡ 0 }
    {
        FaultySink {
            bytes: Vec::new(alloc),
            room,
            failed: 0,
        }
    }
}

impl Sink for FaultySink {
    ghost tally = { λ s. record { failures = s.failed; taken = Some s.bytes.items } };

    /// Takes one byte. Also fails if the vector can't grow.
    fn write(&mut self, buf: &[u8]) -> Result<usize, DeviceFault> {
        if buf.is_empty() {
            return Ok(0);
        }
        if self.room == 0 || self.bytes.push(buf[0]).is_err() {
            self.failed += 1;
            return Err(DeviceFault);
        }
        self.room -= 1;
        Ok(1)
    }
}

/// A reader of std that gives one byte a call, and of which one call is interrupted.
#[derive(Drop)]
pub struct Interrupted<'a> {
    /// The bytes that it has left.
    pub bytes: &'a [u8],
    /// How many calls go well before the one that is interrupted. None after that one.
    pub calls: Option<u64>,
}

impl Interrupted<'_> {
    /// Counts a call, and says whether it is the one that is interrupted.
    fn interrupts(&mut self) -> bool
        ensures bytes { self.new.bytes.now ≡ self.old.bytes.now }
        ensures interrupted { IsTrue result ↔ (self.old.calls ≡ Some 0) }
    {
        match self.calls {
            Some(calls) => {
                self.calls = calls.checked_sub(1);
                calls == 0
            }
            None => false,
        }
    }
}

impl io::Read for Interrupted<'_> {
    ghost remaining = { λ s. Some s.bytes.now };

    /// Gives one byte. The call that is interrupted gives none and returns an error of the kind `Interrupted`.
    fn read(&mut self, buf: &mut [u8]) -> io::Result<usize> {
        if self.interrupts() {
            return Err(io::Error::from(io::ErrorKind::Interrupted));
        }
        if buf.is_empty() || self.bytes.is_empty() {
            return Ok(0);
        }
        buf[0] = self.bytes[0];
        self.bytes = &self.bytes[1..];
        Ok(1)
    }
}

/// A writer of std that takes no bytes.
#[derive(Drop)]
pub struct Full;

impl io::Write for Full {
    ghost contents = { λ _. Some [] };

    /// Returns 0 and no error for any bytes, as a writer without room does.
    fn write(&mut self, _buf: &[u8]) -> io::Result<usize> {
        Ok(0)
    }

    fn flush(&mut self) -> io::Result<()> {
        Ok(())
    }
}
