//! Regular expressions.

ghost use Rattle.std.specs.Prelude.{◌≡◌, IfOk, string_bytes, chars, encode_utf8_all, Some};
ghost use Rattle.bson_base.specs.Options.{sorted_text};
ghost use Rattle.bson_base.specs.ScalarTexts.{regex_text};

use crate::plain::write_plainly;
use std::alloc::{AllocError, Global};
use std::fmt;

/// A regular expression (bsonspec.org 1.1, element type 0B). Nothing here runs it.
#[derive(Debug, PartialEq, Eq, Hash, Drop)]
pub struct Regex {
    /// What it matches.
    pub pattern: String,
    /// Its options, one character each.
    pub options: String,
}

impl Regex {
    /// A regular expression with its options in the order of their characters, each as often as it occurs in `options`.
    /// The error is a refused growth.
    pub fn new(alloc: Global, pattern: String, options: String) -> Result<Regex, AllocError>
        ensures pattern { IfOk result (λ r. r.pattern ≡ pattern) }
        ensures options { IfOk result (λ r. string_bytes r.options ≡ sorted_text (string_bytes options)) }
    {
        let options = in_order(alloc, &options)?;
        Ok(Regex { pattern, options })
    }

    /// A copy with memory of its own. The error is a refused growth.
    pub fn try_clone(&self, alloc: Global) -> Result<Regex, AllocError>
        ensures pattern { IfOk result (λ r. string_bytes r.pattern ≡ string_bytes self.now.pattern) }
        ensures options { IfOk result (λ r. string_bytes r.options ≡ string_bytes self.now.options) }
    {
        let pattern = String::from_str(alloc, &self.pattern)?;
        let options = String::from_str(alloc, &self.options)?;
        Ok(Regex { pattern, options })
    }
}

/// `/pattern/options`.
impl fmt::Display for Regex {
    ghost output = { λ r. Some (regex_text r) };

    ghost styled_output = { λ r s. Some (regex_text r) };

    fn fmt<W: fmt::Write>(&self, f: &mut fmt::Formatter<W>) -> fmt::Result {
        let (pattern, options) = (self.pattern.as_str(), self.options.as_str());
        write_plainly(f, format_args!("/{pattern}/{options}"))
    }
}

/// The text with its characters ascending by code point, as options of a regular expression are stored. The error is a
/// refused growth.
fn in_order(alloc: Global, text: &str) -> Result<String, AllocError>
    ensures { IfOk result (λ t. string_bytes t ≡ sorted_text text.now) }
{
    let mut characters = characters_of(alloc, text)?;
    characters.sort_unstable();
    text_of(alloc, characters)
}

/// The characters of a text, in its order. The error is a refused growth.
fn characters_of(alloc: Global, text: &str) -> Result<Vec<char>, AllocError>
    ensures { IfOk result (λ v. v.items ≡ chars text.now) }
{
    text.chars().collect(alloc)
}

/// The text of characters in the order given, in UTF-8. The error is a refused growth.
fn text_of(alloc: Global, characters: Vec<char>) -> Result<String, AllocError>
    ensures { IfOk result (λ t. string_bytes t ≡ encode_utf8_all characters.items) }
{
    characters.into_iter().collect(alloc)
}
