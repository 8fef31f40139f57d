//! Texts on a line that a terminal may show: names of collections, and the keys of paths.

ghost use Rattle.std.specs.Prelude.{◌≡◌, ◌<◌, ◌/◌, ◌%◌, ◌++◌, ◌∷◌, [], chars, codes, IfOk, OnOk, string_bytes};
ghost use Rattle.std.specs.List.{list_any};
ghost use Rattle.cli_convert.specs.Shown.{begins_with_quote, hex_digit, is_control, is_odd, quoted_char, quoted_rest, shown};

use std::alloc::{AllocError, Global};

/// Whether a terminal, or whoever reads lines, may obey a character: U+0000 to U+001F, and U+007F to U+009F.
fn is_control(character: char) -> bool
    ensures { result ≡ is_control character }
{
    character < ' ' || character > '~' && character < '\u{a0}'
}

/// Whether one of the characters is such a one.
fn has_control(text: &str) -> bool
    ensures { result ≡ list_any is_control (chars text.now) }
{
    for character in text.chars() {
        if is_control(character) {
            return true;
        }
    }
    false
}

/// A digit to the base 16.
fn hex_digit(number: u8) -> char
    requires { number < 16 }
    ensures { result ≡ hex_digit number }
{
    if number < 10 {
        char::from(b'0' + number)
    } else {
        char::from(b'a' + (number - 10))
    }
}

/// Appends a control character as JSON has it.
fn push_control(line: &mut String, character: char) -> Result<(), AllocError>
    requires { character < 256 }
    ensures { OnOk result (string_bytes line.new ≡ string_bytes line.old
        ++ (codes "\\u00" ++ (hex_digit (character / 16) ∷ hex_digit (character % 16) ∷ []))) }
{
    let code = character as u8;
    line.push_str("\\u00")?;
    line.push(hex_digit(code / 16))?;
    line.push(hex_digit(code % 16))
}

/// Appends a character as JSON has it between quotes.
fn push_quoted(line: &mut String, character: char) -> Result<(), AllocError>
    ensures { OnOk result (string_bytes line.new ≡ string_bytes line.old ++ quoted_char character) }
{
    match character {
        '"' => line.push_str("\\\""),
        '\\' => line.push_str("\\\\"),
        '\n' => line.push_str("\\n"),
        '\r' => line.push_str("\\r"),
        '\t' => line.push_str("\\t"),
        _ => {
            if is_control(character) {
                push_control(line, character)
            } else {
                line.push(character)
            }
        }
    }
}

/// A text as JSON.
fn quoted(alloc: Global, text: &str) -> Result<String, AllocError>
    ensures { IfOk result (λ line. string_bytes line ≡ codes "\"" ++ quoted_rest (chars text.now)) }
{
    let mut line = String::from_str(alloc, "\"")?;
    for character in text.chars() {
        push_quoted(&mut line, character)?;
    }
    line.push_str("\"")?;
    Ok(line)
}

/// Whether the first character is a double quote, as in what is shown as JSON. False for an empty text.
fn begins_with_quote(text: &str) -> bool
    ensures { result ≡ begins_with_quote text.now }
{
    match text.as_bytes() {
        [first, ..] => *first == b'"',
        [] => false,
    }
}

/// Whether a text isn't shown as it is.
fn is_odd(text: &str) -> bool
    ensures { result ≡ is_odd text.now }
{
    begins_with_quote(text) || has_control(text)
}

/// A text as it is put on a line: as it is, or as JSON if it has a control character, which a terminal may obey, or a
/// line feed that ends the line, and if it begins with a quote, so that no two texts are shown alike.
pub fn shown(alloc: Global, text: &str) -> Result<String, AllocError>
    ensures { IfOk result (λ line. string_bytes line ≡ shown text.now) }
{
    if is_odd(text) {
        quoted(alloc, text)
    } else {
        String::from_str(alloc, text)
    }
}
