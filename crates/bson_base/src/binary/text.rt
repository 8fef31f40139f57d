//! The texts of bytes.

ghost use Rattle.std.specs.Prelude.{◌≡◌, ◌++◌, false, codes, Some, IfOk, IfErr, unwrap_or};
ghost use Rattle.std.specs.Fmt.{WritesOnOk, digits};
ghost use Rattle.base64.specs.GeneralPurpose.{encode_of, decode_of};
ghost use Rattle.base64.specs.Engines.{standard};
ghost use Rattle.bson_base.specs.ScalarTexts.{binary_text, RefusesBase64};

use super::{Binary, Error, Result};
use crate::plain::write_plainly;
use crate::spec::BinarySubtype;
use base64::DecodeAllocError;
use base64::display::Base64Display;
use base64::engine::general_purpose::STANDARD;
use std::alloc::Global;
use std::fmt;

impl Binary {
    /// The bytes of a Base64 text with padding (RFC 4648, section 4), as a subtype, or as Generic if none is given.
    /// `DecodingError` if the text isn't Base64, `Memory` if a growth was refused.
    pub fn from_base64(
        alloc: Global,
        base64: &str,
        subtype: Option<BinarySubtype>,
    ) -> Result<Binary>
        ensures subtype { IfOk result (λ b. b.subtype ≡ unwrap_or subtype BinarySubtype.Generic) }
        ensures decoded { IfOk result (λ b. decode_of standard base64.now ≡ Ok b.bytes.items) }
        ensures encoded { IfOk result (λ b. base64.now ≡ encode_of standard b.bytes.items) }
        ensures refused { IfErr result (RefusesBase64 base64.now) }
    {
        let subtype = subtype.unwrap_or(BinarySubtype::Generic);
        match STANDARD.decode(alloc, base64.as_bytes()) {
            Ok(bytes) => Ok(Binary { subtype, bytes }),
            Err(DecodeAllocError::DecodeError(_)) => Err(Error::DecodingError),
            Err(DecodeAllocError::OutOfMemory) => Err(Error::Memory),
        }
    }
}

/// Writes the beginning of a shown binary value: `Binary(0x` and the subtype byte in lower-case hexadecimal, without
/// leading zeros.
fn write_subtype<W: fmt::Write>(f: &mut fmt::Formatter<W>, subtype: u8) -> fmt::Result
    ensures { WritesOnOk W.write_str_gives f.old result (codes "Binary(0x" ++ digits 16 false subtype) f.new }
{
    write!(f, "Binary(0x{subtype:x}")
}

/// Writes the rest of a shown binary value: a comma and a space, the bytes in Base64 with padding (RFC 4648, section
/// 4), and the closing parenthesis.
fn write_base64<W: fmt::Write>(f: &mut fmt::Formatter<W>, bytes: &[u8]) -> fmt::Result
    ensures { WritesOnOk W.write_str_gives f.old result (codes ", " ++ encode_of standard bytes.now ++ codes ")") f.new }
{
    let text = Base64Display::new(bytes, &STANDARD);
    write!(f, ", {text})")
}

// A binary value as it is shown by a formatter without options.
#[derive(Clone, Copy)]
struct Shown<'a> {
    binary: &'a Binary,
}

impl<'a> fmt::Display for Shown<'a> {
    ghost output = { λ s. Some (binary_text s.binary.now) };

    /// Prints for instance `Binary(0x0, AAEC)`: the subtype in hexadecimal and the bytes in Base64.
    fn fmt<W: fmt::Write>(&self, f: &mut fmt::Formatter<W>) -> fmt::Result {
        write_subtype(f, u8::from(self.binary.subtype))?;
        write_base64(f, &self.binary.bytes)
    }
}

/// The subtype in hexadecimal and the bytes in Base64.
impl fmt::Display for Binary {
    ghost output = { λ b. Some (binary_text b) };

    ghost styled_output = { λ b s. Some (binary_text b) };

    fn fmt<W: fmt::Write>(&self, f: &mut fmt::Formatter<W>) -> fmt::Result {
        write_plainly(f, Shown { binary: self })
    }
}
