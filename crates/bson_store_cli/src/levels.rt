//! How deep the brackets of texts nest, which bounds how deep whatever reads them goes down.

ghost use Rattle.std.specs.Prelude.{◌≡◌, ◌<◌, ◌-◌, ◌^◌, map, max, string_bytes};
ghost use Rattle.bson_store_cli.specs.Levels.{deepest_from, depth_behind, levels_in, part_behind};

/// The most levels that a text of JSON has: a deeper one is read as no JSON.
pub const MOST_LEVELS: usize = 128;

/// What a byte of a text stands in.
#[derive(Clone, Copy)]
pub enum Part {
    /// In no string.
    Outside,
    /// In a string.
    String,
    /// In a string, behind the backslash that escapes it.
    Escape,
}

/// What a byte stands in behind another one.
fn part_behind(part: Part, byte: u8) -> Part
    ensures { result ≡ part_behind part byte }
{
    match part {
        Part::Outside => {
            if byte == b'"' {
                Part::String
            } else {
                Part::Outside
            }
        }
        Part::String => {
            if byte == b'"' {
                Part::Outside
            } else if byte == b'\\' {
                Part::Escape
            } else {
                Part::String
            }
        }
        Part::Escape => Part::String,
    }
}

/// How many brackets are open behind a byte, if so many were.
fn depth_behind(part: Part, depth: usize, byte: u8) -> usize
    requires { depth < 2 ^ 64 - 1 }
    ensures { result ≡ depth_behind part depth byte }
{
    match part {
        Part::Outside => {
            if byte == b'{' || byte == b'[' {
                depth + 1
            } else if byte == b'}' || byte == b']' {
                depth.saturating_sub(1)
            } else {
                depth
            }
        }
        _ => depth,
    }
}

/// The greater of two numbers.
fn greater(one: usize, other: usize) -> usize
    ensures { result ≡ max one other }
{
    if one < other { other } else { one }
}

/// The most brackets that are open at once in a text, of those outside of its strings.
pub fn levels_in(text: &[u8]) -> usize
    ensures { result ≡ levels_in text.now }
{
    let mut part = Part::Outside;
    let mut depth = 0;
    let mut deepest = 0;
    for byte in text {
        depth = depth_behind(part, depth, *byte);
        part = part_behind(part, *byte);
        deepest = greater(deepest, depth);
    }
    deepest
}

/// The most brackets that are open at once in one of the texts.
pub fn most_levels(texts: &[String]) -> usize
    ensures { result ≡ deepest_from 0 (map string_bytes texts.now) }
{
    let mut most = 0;
    for text in texts {
        most = greater(most, levels_in(text.as_bytes()));
    }
    most
}
