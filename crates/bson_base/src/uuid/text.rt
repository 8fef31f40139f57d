//! The texts of UUIDs.

ghost use Rattle.std.specs.Prelude.{◌≡◌, Some};
ghost use Rattle.uuid_text.specs.UuidText.{with_hyphens};
ghost use Rattle.bson_base.specs.Answer.{result_map};
ghost use Rattle.bson_base.specs.ScalarTexts.{read_uuid};
ghost use Rattle.bson_base.specs.Scalars.{uuid_bytes};

use super::{Error, Result, Uuid};
use std::fmt;

impl Uuid {
    /// The UUID of a text: 32 hexadecimal digits in either case, the same with hyphens, and that form in braces or
    /// after `urn:uuid:`. Any other text is refused by `InvalidUuidString`.
    pub fn parse_str(text: &str) -> Result<Uuid>
        ensures { result_map uuid_bytes result ≡ read_uuid text.now }
    {
        match uuid_text::parse(text) {
            Some(bytes) => Ok(Uuid::from_bytes(bytes)),
            None => Err(Error::InvalidUuidString),
        }
    }
}

/// The form with hyphens, in lower case.
impl fmt::Display for Uuid {
    ghost output = { λ u. Some (with_hyphens (uuid_bytes u)) };

    ghost styled_output = { λ u s. Some (with_hyphens (uuid_bytes u)) };

    fn fmt<W: fmt::Write>(&self, f: &mut fmt::Formatter<W>) -> fmt::Result {
        uuid_text::write_hyphenated(f, self.bytes())
    }
}
