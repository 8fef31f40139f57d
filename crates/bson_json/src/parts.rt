//! A writer over the room of a text, and the pieces of JSON that wrappers are made of.

ghost use Rattle.std.specs.Prelude.{◌≡◌, [], ◌∷◌, OnOk, decimal, string_bytes};
ghost use Rattle.std.specs.Fmt.{signed_decimal};
ghost use Rattle.json.specs.Lex.{tokens};
ghost use Rattle.json.specs.Print.{print};
ghost use Rattle.json.specs.Token.{begin_object, end_object, key as key_token, number as number_token, string as string_token};
ghost use Rattle.bson_json.specs.Prints.{Adds};

use json::Writer;
use std::alloc::{AllocError, Global};
use std::mem::replace;

/// A writer that replaces what `text` held, and uses its room again.
pub fn writer_over(alloc: Global, text: &mut String) -> Writer
    ensures before { result.before ≡ [] }
    ensures tokens { result.tokens ≡ [] }
    ensures taken { string_bytes text.new ≡ [] }
{
    let mut room = replace(text, String::new(alloc));
    room.clear();
    Writer::new(room.into_bytes())
}

/// The text that was written.
pub fn text_of(out: Writer) -> String
    requires { out.before ≡ [] }
    ensures text { string_bytes result ≡ print out.tokens }
    ensures reads_back { tokens (print out.tokens) ≡ out.tokens }
{
    // The clauses of the writer say that what it wrote is UTF-8.
    unsafe { String::from_utf8_unchecked(out.into_inner()) }
}

/// Begins an object with a key.
pub fn begin(out: &mut Writer, key: &str) -> Result<(), AllocError>
    ensures { OnOk result (Adds (begin_object ∷ key_token key.now ∷ []) out.old out.new) }
{
    out.begin_object()?;
    out.key(key)
}

/// Ends two objects, one in the other.
pub fn end_both(out: &mut Writer) -> Result<(), AllocError>
    ensures { OnOk result (Adds (end_object ∷ end_object ∷ []) out.old out.new) }
{
    out.end_object()?;
    out.end_object()
}

/// Writes a member with a text.
pub fn put_text(out: &mut Writer, key: &str, text: &str) -> Result<(), AllocError>
    ensures { OnOk result (Adds (key_token key.now ∷ string_token text.now ∷ []) out.old out.new) }
{
    out.key(key)?;
    out.string(text)
}

/// Writes a member with a number.
pub fn put_number(out: &mut Writer, key: &str, number: u32) -> Result<(), AllocError>
    ensures { OnOk result (Adds (key_token key.now ∷ number_token (decimal number) ∷ []) out.old out.new) }
{
    out.key(key)?;
    out.u64(u64::from(number))
}

/// Writes an object of one member, a text.
pub fn wrap_text(out: &mut Writer, key: &str, text: &str) -> Result<(), AllocError>
    ensures { OnOk result (Adds (begin_object ∷ key_token key.now ∷ string_token text.now ∷ end_object ∷ []) out.old out.new) }
{
    begin(out, key)?;
    out.string(text)?;
    out.end_object()
}

/// Writes an object of one member, the digits of a number as a text.
pub fn wrap_digits(out: &mut Writer, key: &str, number: i64) -> Result<(), AllocError>
    ensures { OnOk result (Adds (begin_object ∷ key_token key.now ∷ string_token (signed_decimal number) ∷ end_object ∷ []) out.old out.new) }
{
    begin(out, key)?;
    out.quoted_i64(number)?;
    out.end_object()
}

/// Writes an object of one member, an object of two texts.
pub fn wrap_texts(
    out: &mut Writer,
    outer: &str,
    key: &str,
    text: &str,
    next_key: &str,
    next_text: &str,
) -> Result<(), AllocError>
    ensures { OnOk result (Adds (begin_object ∷ key_token outer.now ∷ begin_object ∷ key_token key.now ∷ string_token text.now
        ∷ key_token next_key.now ∷ string_token next_text.now ∷ end_object ∷ end_object ∷ []) out.old out.new) }
{
    begin(out, outer)?;
    out.begin_object()?;
    put_text(out, key, text)?;
    put_text(out, next_key, next_text)?;
    end_both(out)
}
