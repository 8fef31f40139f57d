//! A few bytes that a writer is still to be given.

ghost use Rattle.std.specs.Prelude.{◌≡◌, ◌<◌, ◌≤◌, List, ℕ, [], ◌∷◌, ◌++◌, ◌==◌, ◌&&◌, IfOk, OnOk, length, nat_lt};
ghost use Rattle.std.specs.Io.{WritesAtMost};
ghost use Rattle.std.specs.Io.KnownBytes.{Keeps, WriteAppends, append_known};
ghost use Rattle.std.specs.Char.{digit_char};
ghost use Rattle.cli_convert.specs.Terminal.{at_terminal, json_escape};

use std::io;
use std::io::Write;

/// The byte with which UTF-8 begins the characters from U+0080 to U+00BF.
pub(crate) const FIRST: u8 = 0xc2;

/// U+007F.
pub(crate) const DELETE: u8 = 0x7f;

/// How many bytes wait at the most: a first byte, and what JSON has for U+007F.
const ROOM: usize = 7;

/// The bytes from `start` on.
#[derive(Drop)]
pub(crate) struct Waiting {
    bytes: [u8; ROOM],
    start: usize,
    ghost within: { start ≤ 7 },
}

/// Gives a writer some of the bytes, at least one of them if there are any. If it takes none, that is an error.
pub(crate) fn write_some<W: Write>(writer: &mut W, bytes: &[u8]) -> io::Result<usize>
    ensures bound { WritesAtMost result bytes.now }
    ensures bytes { WriteAppends (W.contents writer.old) (W.contents writer.new) result bytes.now }
    ensures some { IfOk result (λ n. n ≡ 0 → length bytes.now ≡ 0) }
{
    let count = writer.write(bytes)?;
    if count == 0 && !bytes.is_empty() {
        return Err(io::Error::from(io::ErrorKind::WriteZero));
    }
    Ok(count)
}

/// A digit to the base 16.
fn digit(number: u8) -> u8
    requires { number < 16 }
    ensures { result ≡ digit_char number }
{
    if number < 10 {
        b'0' + number
    } else {
        b'a' + (number - 10)
    }
}

/// Whether a byte is the second one of a character from U+0080 to U+009F.
fn ends_control(is_begun: bool, byte: u8) -> bool
    ensures { result ≡ (is_begun && (nat_lt 127 byte && nat_lt byte 160)) }
{
    is_begun && byte > DELETE && byte < 0xa0
}

impl Waiting {
    ghost use Rattle.cli_convert.specs.Writing.{begun, text};

    /// No bytes.
    pub(crate) fn nothing() -> Waiting
        ensures { text result ≡ [] }
    {
        Waiting {
            bytes: [0; ROOM],
            start: ROOM,
        }
    }

    /// A control character as JSON has it, by its number, behind a first byte if one is begun.
    fn control(is_begun: bool, number: u8) -> Waiting
        ensures { text result ≡ begun is_begun ++ json_escape number }
    {
        let high = digit(number / 16);
        let low = digit(number % 16);
        Waiting {
            bytes: [FIRST, b'\\', b'u', b'0', b'0', high, low],
            start: if is_begun { 0 } else { 1 },
        }
    }

    /// A byte as it is, behind a first byte if one is begun.
    fn plain(is_begun: bool, byte: u8) -> Waiting
        ensures { text result ≡ begun is_begun ++ (byte ∷ []) }
    {
        Waiting {
            bytes: [0, 0, 0, 0, 0, FIRST, byte],
            start: if is_begun { ROOM - 2 } else { ROOM - 1 },
        }
    }

    /// A first byte if one is begun.
    fn begun(is_begun: bool) -> Waiting
        ensures { text result ≡ begun is_begun }
    {
        Waiting {
            bytes: [FIRST; ROOM],
            start: if is_begun { ROOM - 1 } else { ROOM },
        }
    }

    /// What is given for a byte, behind a first byte if one is begun. A first byte isn't given, but begun.
    pub(crate) fn of(is_begun: bool, byte: u8) -> Waiting
        ensures { (rest : List ℕ) → text result ++ at_terminal (begun (byte == 194) ++ rest)
            ≡ at_terminal (begun is_begun ++ (byte ∷ rest)) }
    {
        if ends_control(is_begun, byte) {
            Waiting::control(false, byte)
        } else if byte == DELETE {
            Waiting::control(is_begun, byte)
        } else if byte == FIRST {
            Waiting::begun(is_begun)
        } else {
            Waiting::plain(is_begun, byte)
        }
    }

    /// Gives a writer all of it. After an error the rest still waits.
    pub(crate) fn write_to<W: Write>(&mut self, writer: &mut W) -> io::Result<()>
        ensures all { OnOk result (text self.new ≡ []) }
        ensures bytes { Keeps (append_known (W.contents writer.old) (text self.old))
            (append_known (W.contents writer.new) (text self.new)) }
    {
        while self.start < ROOM {
            self.start += write_some(writer, &self.bytes[self.start..])?;
        }
        Ok(())
    }
}
