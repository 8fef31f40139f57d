//! The clock of the system, and what makes ids by it.

use cli_convert::{Clock, IdMaker};
use std::hash::{BuildHasher, RandomState};
use std::io;
use std::time::SystemTime;

/// The milliseconds since 1970; 0 before that.
fn millis_now(rt: &HostRuntime) -> io::Result<u64> {
    match SystemTime::now(rt)?.duration_since(SystemTime::UNIX_EPOCH) {
        Ok(since) => Ok(u64::try_from(since.as_millis()).unwrap_or(u64::MAX)),
        Err(_) => Ok(0),
    }
}

/// What makes the ids of this run: the time of the clock, and a number that no other run has, except by chance.
pub(crate) fn maker_of(rt: &HostRuntime) -> io::Result<IdMaker> {
    let millis = millis_now(rt)?;
    Ok(IdMaker::new(millis, RandomState::new(rt)?.hash_one(&0u8)))
}

/// The clock of the system. If it fails, the time is still the one that it told last.
#[derive(Drop)]
pub(crate) struct SystemClock<'r> {
    rt: &'r HostRuntime,
    last: u64,
}

impl<'r> SystemClock<'r> {
    /// The clock, if it tells the time now.
    pub(crate) fn new(rt: &'r HostRuntime) -> io::Result<SystemClock<'r>> {
        let last = millis_now(rt)?;
        Ok(SystemClock { rt, last })
    }
}

impl Clock for SystemClock<'_> {
    fn millis(&mut self) -> u64 {
        if let Ok(millis) = millis_now(self.rt) {
            self.last = millis;
        }
        self.last
    }
}
