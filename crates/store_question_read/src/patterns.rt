//! The patterns under `$regex`: those that ask for a fixed beginning, and others.

ghost use Rattle.std.specs.Prelude.{◌≡◌, false, option_map, None, IfErr, IfOk, MatchOption};
ghost use Rattle.bson_base.specs.Value.{Value as Tree};
ghost use Rattle.bson_raw.specs.Convert.{SpellsRawValue};
ghost use Rattle.bson_raw.specs.Raw.{ref_value};
ghost use Rattle.regex.specs.Strings.{regex_pattern};
ghost use Rattle.store_question.specs.Patterns.{IsReadFrom, has_option as option_among, pattern_in};
ghost use Rattle.store_question_read.specs.Outcome.{AsksOf};
ghost use Rattle.store_question_read.specs.Patterns.{Denies, are_options as option_letters, asked_by as asked_by_source, asked_beside as asked_with, asked_of as asked_by_value, beginning_in as beginning_read, beginning_under as beginning_read_under, expression_of as expression_seen, is_option as option_letter, is_special as special_byte, literal as literal_read, one_of as one_place, opens as opens_so, searched as search_for, stands as stands_so, with_own as with_options};

use crate::made;
use bson_raw::RawBsonRef;
use regex::{Error, Regex, RegexBuilder};
use std::alloc::{AllocError, Global};
use store_question::Question;

/// Whether a byte stands for something else in a pattern.
fn is_special(byte: u8) -> bool
    ensures { result ≡ special_byte byte }
{
    ".^$*+?()[]{}|\\".as_bytes().contains(&byte)
}

/// Whether a byte stands for itself: behind a backslash any punctuation does, and else what isn't special.
fn stands(escaped: bool, byte: u8) -> bool
    ensures { result ≡ stands_so escaped byte }
{
    if escaped {
        byte.is_ascii_punctuation()
    } else {
        !is_special(byte)
    }
}

/// Whether a byte is a backslash in front of another byte.
fn opens(escaped: bool, byte: u8) -> bool
    ensures { result ≡ opens_so escaped byte }
{
    !escaped && byte == b'\\'
}

/// The bytes for which those of a pattern behind its `^` stand. None if one of them asks for something else. The error
/// is a refused growth.
fn literal(alloc: Global, pattern: &[u8]) -> Result<Option<Vec<u8>>, AllocError>
    ensures { IfOk result (λ o. option_map (λ v. v.items) o ≡ literal_read false pattern.now) }
{
    let mut bytes = Vec::new(alloc);
    let mut escaped = false;
    for byte in pattern {
        if opens(escaped, *byte) {
            escaped = true;
        } else {
            if !stands(escaped, *byte) {
                return Ok(None);
            }
            bytes.push(*byte)?;
            escaped = false;
        }
    }
    if escaped { Ok(None) } else { Ok(Some(bytes)) }
}

/// The bytes with which a text begins that a pattern matches. None if it asks for something else than such a beginning.
/// The error is a refused growth.
fn beginning_in(alloc: Global, pattern: &str) -> Result<Option<Vec<u8>>, AllocError>
    ensures { IfOk result (λ o. option_map (λ v. v.items) o ≡ beginning_read pattern.now) }
{
    match pattern.as_bytes() {
        [first, rest @ ..] => {
            if *first == b'^' {
                literal(alloc, rest)
            } else {
                Ok(None)
            }
        }
        _ => Ok(None),
    }
}

/// The same under options: with some of them a pattern isn't looked at for a fixed beginning.
fn beginning_under(
    alloc: Global,
    options: &str,
    pattern: &str,
) -> Result<Option<Vec<u8>>, AllocError>
    ensures { IfOk result (λ o. option_map (λ v. v.items) o ≡ beginning_read_under options.now pattern.now) }
{
    match options.as_bytes() {
        [] => beginning_in(alloc, pattern),
        _ => Ok(None),
    }
}

/// Whether a letter stands for an option.
fn is_option(byte: u8) -> bool
    ensures { result ≡ option_letter byte }
{
    "imsux".as_bytes().contains(&byte)
}

/// Whether each of some letters stands for an option.
fn are_letters(letters: &[u8]) -> bool
    ensures { result ≡ option_letters letters.now }
{
    for letter in letters {
        if !is_option(*letter) {
            return false;
        }
    }
    true
}

/// Whether each letter of a text stands for an option.
pub(crate) fn are_options(options: &str) -> bool
    ensures { result ≡ option_letters options.now }
{
    are_letters(options.as_bytes())
}

/// Whether an option is among those of a text.
fn has_option(options: &str, option: u8) -> bool
    ensures { result ≡ option_among options.now option }
{
    options.as_bytes().contains(&option)
}

/// A pattern under options, by the kit's grammar.
fn built(alloc: Global, options: &str, pattern: &str) -> Result<Regex, Error>
    ensures read { IfOk result (λ r. IsReadFrom options.now pattern.now (regex_pattern r)) }
    ensures refused { IfErr result (λ e. Denies e (pattern_in options.now pattern.now)) }
{
    RegexBuilder::new(pattern)
        .case_insensitive(has_option(options, b'i'))
        .multi_line(has_option(options, b'm'))
        .dot_matches_new_line(has_option(options, b's'))
        .ignore_whitespace(has_option(options, b'x'))
        .build(alloc)
}

/// A pattern under options. None if the text is none, or nests more than 250 deep. The error is a refused growth, or a
/// pattern that takes more than 10 MiB.
fn compiled(alloc: Global, options: &str, pattern: &str) -> Result<Option<Regex>, AllocError>
    ensures { IfOk result (λ o. MatchOption o (pattern_in options.now pattern.now ≡ None)
        (λ r. IsReadFrom options.now pattern.now (regex_pattern r))) }
{
    match built(alloc, options, pattern) {
        Ok(regex) => Ok(Some(regex)),
        Err(error) => match error {
            Error::Syntax(_) => Ok(None),
            Error::Internal => unreachable!(),
            _ => Err(AllocError),
        },
    }
}

/// What a pattern under options asks of a text. None if it is none. The error is that of `compiled`.
// What building a pattern keeps on the stack stays out of the frames of `tests`, which is called for each level.
#[inline(never)]
fn searched(alloc: Global, options: &str, pattern: &str) -> Result<Option<Question>, AllocError>
    ensures { IfOk result (λ o. AsksOf o (search_for options.now pattern.now)) }
{
    let compiled = compiled(alloc, options, pattern)?;
    match compiled {
        Some(regex) => Ok(Some(made::searched(alloc, regex)?)),
        None => Ok(None),
    }
}

/// What a source under options asks of a text: a fixed beginning, or else its pattern.
fn asked_by(alloc: Global, options: &str, source: &str) -> Result<Option<Question>, AllocError>
    ensures { IfOk result (λ o. AsksOf o (asked_by_source options.now source.now)) }
{
    let beginning = beginning_under(alloc, options, source)?;
    match beginning {
        Some(bytes) => Ok(Some(made::beginning(bytes))),
        None => searched(alloc, options, source),
    }
}

/// The source and the options of a regular expression. None if a letter stands for no option.
fn with_own<'a>(source: &'a str, options: &'a str) -> Option<(&'a str, &'a str)>
    ensures { option_map (λ p. (p.0.now, p.1.now)) result ≡ with_options source.now options.now }
{
    if are_options(options) {
        Some((source, options))
    } else {
        None
    }
}

/// The source and the options of a value: a text, or a regular expression.
fn expression_of(value: RawBsonRef<'_>) -> Option<(&str, &str)>
    ensures { (v : Tree) → SpellsRawValue (ref_value value.entry) v
        → option_map (λ p. (p.0.now, p.1.now)) result ≡ expression_seen v }
{
    match value {
        RawBsonRef::String(text) => Some((text, "")),
        RawBsonRef::RegularExpression(expression) => {
            with_own(expression.pattern, expression.options)
        }
        _ => None,
    }
}

/// The options, which are in one place.
fn one_of<'a>(own: &'a str, beside: &'a str) -> Option<&'a str>
    ensures { option_map (λ t. t.now) result ≡ one_place own.now beside.now }
{
    match own.as_bytes() {
        [] => Some(beside),
        _ => match beside.as_bytes() {
            [] => Some(own),
            _ => None,
        },
    }
}

/// What a value asks of a text as a pattern, with the options beside it. None if it is no pattern that is taken. The error
/// is that of `compiled`.
pub(crate) fn asked_of(
    alloc: Global,
    beside: &str,
    value: RawBsonRef<'_>,
) -> Result<Option<Question>, AllocError>
    ensures { (v : Tree) → SpellsRawValue (ref_value value.entry) v
        → IfOk result (λ o. AsksOf o (asked_by_value beside.now v)) }
{
    match expression_of(value) {
        Some((source, own)) => asked_beside(alloc, beside, source, own),
        None => Ok(None),
    }
}

/// What a source with its own options asks, beside others.
fn asked_beside(
    alloc: Global,
    beside: &str,
    source: &str,
    own: &str,
) -> Result<Option<Question>, AllocError>
    ensures { IfOk result (λ o. AsksOf o (asked_with beside.now (source.now, own.now))) }
{
    match one_of(own, beside) {
        Some(options) => asked_by(alloc, options, source),
        None => Ok(None),
    }
}
