//! Where a line asks for nothing.

ghost use Rattle.std.specs.Prelude.{◌≡◌, ◌++◌, IfOk, decimal, string_bytes};
ghost use Rattle.fallowtime_commands.specs.Places.{place_text};

use fallowtime_requests::Unread;
use itoa::Buffer;
use std::alloc::{AllocError, Global};

/// Where a line is no question.
#[derive(Drop)]
pub enum Place {
    /// The line is no text of JSON (RFC 8259), or its objects and arrays are nested more than 128 deep. The number is
    /// of the byte, counted from 0, at which that is seen.
    Byte(usize),
    /// An object has a key twice.
    RepeatedKey,
    /// There is no command, or one of its arguments can't be read.
    Request(Unread),
    /// The line has more than 64 MiB.
    TooLong,
}

/// A text, and a number after it.
fn with_number(alloc: Global, text: &str, number: u64) -> Result<String, AllocError>
    ensures { IfOk result (λ t. string_bytes t ≡ text.now ++ decimal number) }
{
    let mut digits = Buffer::new();
    let mut whole = String::from_str(alloc, text)?;
    whole.push_str(digits.format(number))?;
    Ok(whole)
}

impl Place {
    /// The text that says where.
    pub fn text(&self, alloc: Global) -> Result<String, AllocError>
        ensures { IfOk result (λ t. string_bytes t ≡ place_text self.now) }
    {
        match self {
            Place::Byte(index) => with_number(alloc, "byte ", (*index as u64).saturating_add(1)),
            Place::RepeatedKey => String::from_str(alloc, "repeated key"),
            Place::Request(unread) => unread.place(alloc),
            Place::TooLong => String::from_str(alloc, "64 MiB"),
        }
    }
}
