//! The texts of UUIDs. They are in a crate of their own, since a crate that has a module `uuid` can't use the crate of
//! that name.
#![tactic(auto)]

ghost use Rattle.std.specs.Prelude.{◌≡◌};
ghost use Rattle.std.specs.Fmt.{WritesOnOk, WritesStyledOnOk};
ghost use Rattle.uuid_text.specs.UuidText.{with_hyphens, uuid_of};

use std::fmt;
use uuid::Uuid;

/// The 16 bytes of a UUID's text: 32 hexadecimal digits in either case, the same with hyphens, and that form in braces
/// or after `urn:uuid:`.
#[tactic(auto, unfolding(crate::specs::UuidText::uuid_of))]
pub fn parse(text: &str) -> Option<[u8; 16]>
    ensures { result ≡ uuid_of text.now }
{
    match Uuid::parse_str(text) {
        Ok(id) => Some(id.into_bytes()),
        Err(_) => None,
    }
}

/// Writes the form with hyphens, in lower case, whatever options the formatter has.
#[tactic(auto, unfolding(crate::specs::UuidText::with_hyphens))]
pub fn write_hyphenated<W: fmt::Write>(f: &mut fmt::Formatter<W>, bytes: [u8; 16]) -> fmt::Result
    ensures plain { WritesOnOk W.write_str_gives f.old result (with_hyphens bytes) f.new }
    ensures styled { WritesStyledOnOk W.write_str_gives f.old result (with_hyphens bytes) f.new }
{
    let mut buffer = Uuid::encode_buffer();
    let text = Uuid::from_bytes(bytes)
        .hyphenated()
        .encode_lower(&mut buffer);
    f.write_str(text)
}
