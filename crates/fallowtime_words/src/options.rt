//! The options after the places of a command.

ghost use Rattle.std.specs.Prelude.{◌≡◌, ◌↔◌, ◌<◌, ◌≤◌, ℕ, List, Some, IfSome, MatchOption, length, map, string_bytes};
ghost use Rattle.fallowtime_words.specs.Options.{AreOptions, HasValue, IsNamed, IsNumber, Lead, value_taken_by, option_named};
ghost use Rattle.fallowtime_words.specs.declared.options.Given.{Given};
ghost use Rattle.fallowtime_words.specs.declared.options.OptionName.{OptionName};
ghost use Rattle.fallowtime_words.specs.declared.options.Options.{Options};

use crate::table::Allowed;

/// The options that are given.
#[derive(Clone, Copy, Debug, PartialEq, Eq)]
pub struct Options {
    /// `--canonical`: Extended JSON in its canonical form; else it is relaxed.
    pub canonical: bool,
    /// `--bson`: documents are written as BSON; else as lines of Extended JSON.
    pub bytes: bool,
    /// `--json`: documents are read from lines of Extended JSON; else from BSON.
    pub lines: bool,
    /// `--many`: all selected documents are changed; else the first of them.
    pub many: bool,
    /// `--after`: a document that is changed is returned as it is afterwards; else as it was before.
    pub after: bool,
    /// `--upsert`: a document is put in if none is selected, or, of an import, takes the place of the one with its `_id`.
    pub upsert: bool,
    /// `--skip-existing`: a document of an import whose `_id` is there is left out; else the import is refused.
    pub skip_existing: bool,
    /// `--count`: of each value it is said how many documents have it; else not.
    pub counts: bool,
    /// `--key`: what names a value of a document is one key, as it is; else a path.
    pub literal: bool,
    /// `--drop`: what the new collection has is removed; else it may have no document.
    pub drops: bool,
    /// `--messages`: MongoDB's messages are answered; else lines.
    pub messages: bool,
    /// `--wait SECONDS`: how many seconds to wait for a file that another process has, if that is given.
    pub seconds: Option<u64>,
    /// `--sort KEYS`: how many words are behind KEYS, if that is given.
    pub sort: Option<usize>,
    /// `--skip NUMBER`: how many documents are passed over, if that is given.
    pub skip: Option<usize>,
    /// `--limit NUMBER`: how many documents are returned at most, if that is given.
    pub limit: Option<usize>,
    /// `--fields PATHS`: how many words are behind PATHS, if that is given.
    pub fields: Option<usize>,
    /// `--without PATHS`: how many words are behind PATHS, if that is given.
    pub without: Option<usize>,
}

/// An option, by its name.
#[derive(Clone, Copy, Debug, PartialEq, Eq)]
pub enum OptionName {
    /// `--canonical`.
    Canonical,
    /// `--bson`.
    Bytes,
    /// `--json`.
    Lines,
    /// `--many`.
    Many,
    /// `--after`.
    After,
    /// `--upsert`.
    Upsert,
    /// `--skip-existing`.
    SkipExisting,
    /// `--count`.
    Counts,
    /// `--key`.
    Literal,
    /// `--drop`.
    Drops,
    /// `--messages`.
    Messages,
    /// `--wait`.
    Wait,
    /// `--sort`.
    Sort,
    /// `--skip`.
    Skip,
    /// `--limit`.
    Limit,
    /// `--fields`.
    Fields,
    /// `--without`.
    Without,
}

/// What follows the name of an option.
#[derive(Clone, Copy)]
enum OptionValue {
    Nothing,
    Number,
    Text,
}

/// An option that is given, and its number: of a text how many words are behind it, and 0 if nothing follows.
#[derive(Clone, Copy)]
struct Given {
    name: OptionName,
    number: usize,
}

/// The option that a word names, without its hyphens.
fn option_named(word: &str) -> Option<OptionName>
    ensures { result ≡ option_named word.now }
{
    match word {
        "canonical" => Some(OptionName::Canonical),
        "bson" => Some(OptionName::Bytes),
        "json" => Some(OptionName::Lines),
        "many" => Some(OptionName::Many),
        "after" => Some(OptionName::After),
        "upsert" => Some(OptionName::Upsert),
        "skip-existing" => Some(OptionName::SkipExisting),
        "count" => Some(OptionName::Counts),
        "key" => Some(OptionName::Literal),
        "drop" => Some(OptionName::Drops),
        "messages" => Some(OptionName::Messages),
        "wait" => Some(OptionName::Wait),
        "sort" => Some(OptionName::Sort),
        "skip" => Some(OptionName::Skip),
        "limit" => Some(OptionName::Limit),
        "fields" => Some(OptionName::Fields),
        "without" => Some(OptionName::Without),
        _ => None,
    }
}

/// What follows the name of an option.
fn value_taken_by(name: OptionName) -> OptionValue
    ensures { result ≡ value_taken_by name }
{
    match name {
        OptionName::Wait | OptionName::Skip | OptionName::Limit => OptionValue::Number,
        OptionName::Sort | OptionName::Fields | OptionName::Without => OptionValue::Text,
        _ => OptionValue::Nothing,
    }
}

/// The number that a word names: decimal digits alone, below 2^64.
fn number_of(word: &str) -> Option<usize>
    ensures { MatchOption result ((n : ℕ) → IsNumber word.now n → ⊥) (λ n. IsNumber word.now n) }
{
    let signed = word.starts_with('+');
    if signed {
        return None;
    }
    word.parse::<usize>().ok()
}

/// The number of an option, by the words behind its name, and the words behind that.
fn split_value(value: OptionValue, words: &[String]) -> Option<(usize, &[String])>
    ensures value { MatchOption result
        ((n : ℕ) (behind : List (List ℕ)) → HasValue value n (map string_bytes words.now) behind → ⊥)
        (λ r. HasValue value r.0 (map string_bytes words.now) (map string_bytes r.1.now)) }
    ensures fewer { IfSome result (λ r. length r.1.now ≤ length words.now) }
{
    match value {
        OptionValue::Nothing => Some((0, words)),
        OptionValue::Number => {
            let (text, behind) = words.split_first()?;
            Some((number_of(text.as_str())?, behind))
        }
        OptionValue::Text => {
            let (_, behind) = words.split_first()?;
            Some((behind.len(), behind))
        }
    }
}

/// The option that the first word names.
fn named_first(words: &[String]) -> Option<(OptionName, &[String])>
    ensures named { MatchOption result
        ((name : OptionName) (rest : List (List ℕ)) → IsNamed (map string_bytes words.now) name rest → ⊥)
        (λ r. IsNamed (map string_bytes words.now) r.0 (map string_bytes r.1.now)) }
    ensures fewer { IfSome result (λ r. length r.1.now < length words.now) }
{
    let (word, rest) = words.split_first()?;
    let name = option_named(word.strip_prefix("--")?)?;
    Some((name, rest))
}

/// The option at the front of the words, and the words after it.
fn split_option(words: &[String]) -> Option<(Given, &[String])>
    ensures lead { MatchOption result
        ((given : Given) (behind : List (List ℕ)) → Lead (map string_bytes words.now) given behind → ⊥)
        (λ r. Lead (map string_bytes words.now) r.0 (map string_bytes r.1.now)) }
    ensures fewer { IfSome result (λ r. length r.1.now < length words.now) }
{
    let (name, rest) = named_first(words)?;
    let (number, behind) = split_value(value_taken_by(name), rest)?;
    Some((Given { name, number }, behind))
}

impl Options {
    ghost use Rattle.std.specs.Prelude.{◌≡◌, ◌↔◌, IsTrue};
    ghost use Rattle.fallowtime_words.specs.Options.{AreAllowed, ChangesAreAllowed, FormsAreAllowed, IsArranged, IsOfSession, IsPart, added, with_change, with_form, with_number};

    /// No option.
    const NONE: Options = Options {
        canonical: false,
        bytes: false,
        lines: false,
        many: false,
        after: false,
        upsert: false,
        skip_existing: false,
        counts: false,
        literal: false,
        drops: false,
        messages: false,
        seconds: None,
        sort: None,
        skip: None,
        limit: None,
        fields: None,
        without: None,
    };

    /// Whether an order or fields are asked for.
    fn is_arranged(self) -> bool
        ensures { IsTrue result ↔ IsArranged self }
    {
        self.sort.is_some() || self.fields.is_some() || self.without.is_some()
    }

    /// Whether a part is asked for.
    fn is_part(self) -> bool
        ensures { IsTrue result ↔ IsPart self }
    {
        self.skip.is_some() || self.limit.is_some()
    }

    /// Whether a row allows those of them that say in which form, and which, documents are read or printed.
    fn forms_are_among(self, row: Allowed) -> bool
        ensures { IsTrue result ↔ FormsAreAllowed row self }
    {
        (!self.canonical || row.canonical)
            && (!self.bytes || row.bytes)
            && (!self.lines || row.lines)
            && (!self.counts || row.counts)
            && (!self.is_arranged() || row.arranged)
            && (!self.is_part() || row.part)
    }

    /// Whether it allows those that say what a change does.
    fn changes_are_among(self, row: Allowed) -> bool
        ensures { IsTrue result ↔ ChangesAreAllowed row self }
    {
        (!self.many || row.many)
            && (!self.after || row.after)
            && (!self.upsert || row.upsert)
            && (!self.skip_existing || row.skip_existing)
            && (!self.literal || row.literal)
            && (!self.drops || row.drops)
    }

    /// Whether each is among those that a row allows.
    pub(crate) fn are_among(self, row: Allowed) -> bool
        ensures { IsTrue result ↔ AreAllowed row self }
    {
        self.forms_are_among(row) && self.changes_are_among(row) && !self.messages
    }

    /// Whether there is none except `--messages` and `--wait`.
    pub(crate) fn are_of_session(self) -> bool
        ensures { IsTrue result ↔ IsOfSession self }
    {
        !self.canonical
            && !self.bytes
            && !self.lines
            && !self.many
            && !self.after
            && !self.upsert
            && !self.skip_existing
            && !self.counts
            && !self.literal
            && !self.drops
            && !self.is_arranged()
            && !self.is_part()
    }

    /// These options and one that says in which form, and which, documents are read or printed; none if it is among
    /// them, or is another one.
    fn with_form(self, name: OptionName) -> Option<Options>
        ensures { result ≡ with_form name self }
    {
        match name {
            OptionName::Canonical if !self.canonical => Some(Options {
                canonical: true,
                ..self
            }),
            OptionName::Bytes if !self.bytes => Some(Options {
                bytes: true,
                ..self
            }),
            OptionName::Lines if !self.lines => Some(Options {
                lines: true,
                ..self
            }),
            OptionName::Counts if !self.counts => Some(Options {
                counts: true,
                ..self
            }),
            OptionName::Messages if !self.messages => Some(Options {
                messages: true,
                ..self
            }),
            _ => None,
        }
    }

    /// These options and one that says what a change does; none if it is among them, or is another one.
    fn with_change(self, name: OptionName) -> Option<Options>
        ensures { result ≡ with_change name self }
    {
        match name {
            OptionName::Many if !self.many => Some(Options { many: true, ..self }),
            OptionName::After if !self.after => Some(Options {
                after: true,
                ..self
            }),
            OptionName::Upsert if !self.upsert => Some(Options {
                upsert: true,
                ..self
            }),
            OptionName::SkipExisting if !self.skip_existing => Some(Options {
                skip_existing: true,
                ..self
            }),
            OptionName::Literal if !self.literal => Some(Options {
                literal: true,
                ..self
            }),
            OptionName::Drops if !self.drops => Some(Options {
                drops: true,
                ..self
            }),
            _ => None,
        }
    }

    /// These options and one that has a number; none if it is among them, or is another one.
    fn with_number(self, name: OptionName, number: usize) -> Option<Options>
        ensures { result ≡ with_number name number self }
    {
        match name {
            OptionName::Wait if self.seconds.is_none() => Some(Options {
                seconds: Some(number as u64),
                ..self
            }),
            OptionName::Sort if self.sort.is_none() => Some(Options {
                sort: Some(number),
                ..self
            }),
            OptionName::Skip if self.skip.is_none() => Some(Options {
                skip: Some(number),
                ..self
            }),
            OptionName::Limit if self.limit.is_none() => Some(Options {
                limit: Some(number),
                ..self
            }),
            OptionName::Fields if self.fields.is_none() => Some(Options {
                fields: Some(number),
                ..self
            }),
            OptionName::Without if self.without.is_none() => Some(Options {
                without: Some(number),
                ..self
            }),
            _ => None,
        }
    }

    /// These options and one more; none if it is among them.
    fn with(self, given: Given) -> Option<Options>
        ensures { result ≡ added given self }
    {
        match given.name {
            OptionName::Canonical
            | OptionName::Bytes
            | OptionName::Lines
            | OptionName::Counts
            | OptionName::Messages => self.with_form(given.name),
            OptionName::Many
            | OptionName::After
            | OptionName::Upsert
            | OptionName::SkipExisting
            | OptionName::Literal
            | OptionName::Drops => self.with_change(given.name),
            _ => self.with_number(given.name, given.number),
        }
    }
}

/// The options that are the words, in any order, each at most once; none if the words are anything else.
pub fn read_options(words: &[String]) -> Option<Options>
    ensures { (options : Options) → AreOptions (map string_bytes words.now) options ↔ (result ≡ Some options) }
{
    let mut options = Options::NONE;
    let mut rest = words;
    while !rest.is_empty() {
        let (given, behind) = split_option(rest)?;
        options = options.with(given)?;
        rest = behind;
    }
    Some(options)
}
