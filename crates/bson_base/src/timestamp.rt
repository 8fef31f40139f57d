//! Timestamps of a replication log.

ghost use Rattle.std.specs.Prelude.{Some};
ghost use Rattle.bson_base.specs.ScalarTexts.{timestamp_text};

use crate::plain::write_plainly;
use std::fmt;

/// A moment in a log: seconds and a number within the second, each 32 bits (bsonspec.org 1.1, element type 11).
#[derive(Clone, Copy, Debug, PartialEq, Eq, PartialOrd, Ord, Hash)]
pub struct Timestamp {
    /// Seconds since 1970-01-01T00:00:00Z.
    pub time: u32,
    /// Which operation within the second.
    pub increment: u32,
}

/// `Timestamp(time, increment)`.
impl fmt::Display for Timestamp {
    ghost output = { λ t. Some (timestamp_text t) };

    ghost styled_output = { λ t s. Some (timestamp_text t) };

    fn fmt<W: fmt::Write>(&self, f: &mut fmt::Formatter<W>) -> fmt::Result {
        let (time, increment) = (self.time, self.increment);
        write_plainly(f, format_args!("Timestamp({time}, {increment})"))
    }
}
