//! Arguments that can't be read.

ghost use Rattle.std.specs.Prelude.{◌≡◌, ◌++◌, OnOk, codes, decimal, string_bytes};
ghost use Rattle.fallowtime_requests.specs.Reading.{beyond};
ghost use Rattle.fallowtime_requests.specs.Reports.{byte_text, error_text, fault_text, query_text, reason_text, update_text};

use bson_json_read::Error;
use fallowtime_words::Command;
use itoa::Buffer;
use std::alloc::{AllocError, Global};
use store_question_read::{QueryError, ReadError, Reason};

/// What can't be read, and why.
#[derive(Debug, Drop)]
pub enum Unread {
    /// There is no command of this name, or it asks nothing of a store.
    Command,
    /// The command has another number of arguments.
    Arguments,
    /// The name of a collection is no text.
    Collection,
    /// It is no document of Extended JSON.
    Document(Error),
    /// This one of several documents, counted from 0, is none of Extended JSON, or has no written form.
    DocumentAt(u64),
    /// It is no value of Extended JSON, where an `_id` has to be.
    Id(Error),
    /// The name of a key is no text.
    Key,
    /// It is no value of Extended JSON.
    Value(Error),
    /// It is no query.
    Query(QueryError),
    /// It is no update.
    Update(ReadError),
    /// It is a query whose equality fields can't be set beside each other.
    Equalities(ReadError),
    /// It is no object of the options that the command has.
    Options,
    /// It is no array of the stages of a pipeline.
    Stages,
    /// The paths of `--fields` and `--without` can't name fields: a key is empty or begins with `$`, one path is the
    /// beginning of another, or beside kept fields others than the `_id` are left out.
    Fields,
    /// The path of an index is no text.
    Path,
    /// It is neither bytes of subtype 00 nor an array.
    Stream,
}

/// Why a command asks for nothing with more arguments than any command has.
pub(crate) fn beyond(command: Command) -> Unread
    ensures { result ≡ beyond command }
{
    match command {
        Command::Backup
        | Command::Apply
        | Command::Version
        | Command::ImportAll
        | Command::ExportAll
        | Command::Edit => Unread::Command,
        _ => Unread::Arguments,
    }
}

/// Appends the place of a byte, counted from 1, to a line.
fn push_byte(line: &mut String, byte: usize) -> Result<(), AllocError>
    ensures { OnOk result (string_bytes line.new ≡ string_bytes line.old ++ byte_text byte) }
{
    let mut digits = Buffer::new();
    line.push_str(" byte ")?;
    line.push_str(digits.format(byte.saturating_add(1)))
}

/// Appends to a line why a text of Extended JSON can't be read.
fn push_error(line: &mut String, error: Error) -> Result<(), AllocError>
    ensures { OnOk result (string_bytes line.new ≡ string_bytes line.old ++ error_text error) }
{
    match error {
        Error::NotJson(byte) => {
            push_byte(line, byte)?;
            line.push_str(" NotJson")
        }
        Error::RepeatedKey => line.push_str(" RepeatedKey"),
        Error::InvalidObjectId(_) => line.push_str(" InvalidObjectId"),
        Error::NumberOutOfRange => line.push_str(" NumberOutOfRange"),
        Error::NotExtendedJson => line.push_str(" NotExtendedJson"),
        Error::Memory => line.push_str(" Memory"),
    }
}

/// Appends a text between two others to a line.
fn push_between(line: &mut String, front: &str, text: &str, back: &str) -> Result<(), AllocError>
    ensures { OnOk result (string_bytes line.new ≡ string_bytes line.old
        ++ (front.now ++ (text.now ++ back.now))) }
{
    line.push_str(front)?;
    line.push_str(text)?;
    line.push_str(back)
}

/// Appends to a line why a query can't be read.
fn push_query_error(line: &mut String, error: &QueryError) -> Result<(), AllocError>
    ensures { OnOk result (string_bytes line.new ≡ string_bytes line.old ++ query_text error.now) }
{
    match error {
        QueryError::Json(byte) => {
            push_byte(line, *byte)?;
            line.push_str(" NotJson")
        }
        QueryError::RepeatedKey => line.push_str(" RepeatedKey"),
        QueryError::Query => line.push_str(" is no object"),
        QueryError::Operator(name) => push_between(line, " no operator ", name.as_str(), ""),
        QueryError::Operand(key) => push_between(line, " ", key.as_str(), " takes no such value"),
        QueryError::Memory => line.push_str(" Memory"),
    }
}

/// Why an operator isn't made at a path.
fn reason_text(reason: Reason) -> &'static str
    ensures { result.now ≡ reason_text reason }
{
    match reason {
        Reason::Path => " is no path of keys",
        Reason::Id => " is of the _id, which is never changed",
        Reason::Conflict => " meets another path",
        Reason::Operand => " takes no such value",
    }
}

/// Appends to a line why an operator isn't made at a path.
fn push_fault(line: &mut String, reason: Reason, name: &str, path: &str) -> Result<(), AllocError>
    ensures { OnOk result (string_bytes line.new ≡ string_bytes line.old ++ fault_text reason name.now path.now) }
{
    push_between(line, " ", name, " ")?;
    line.push_str(path)?;
    line.push_str(reason_text(reason))
}

/// Appends to a line why an update can't be read.
fn push_update_error(line: &mut String, error: &ReadError) -> Result<(), AllocError>
    ensures { OnOk result (string_bytes line.new ≡ string_bytes line.old ++ update_text error.now) }
{
    match error {
        ReadError::Json(byte) => {
            push_byte(line, *byte)?;
            line.push_str(" NotJson")
        }
        ReadError::RepeatedKey => line.push_str(" RepeatedKey"),
        ReadError::Update => line.push_str(" is no object"),
        ReadError::Operator(name) => push_between(line, " no operator ", name.as_str(), ""),
        ReadError::Fields(name) => {
            push_between(line, " ", name.as_str(), " takes an object of paths")
        }
        ReadError::At(reason, name, path) => {
            push_fault(line, *reason, name.as_str(), path.as_str())
        }
        ReadError::Memory => line.push_str(" Memory"),
    }
}

/// Appends the number of one of several documents to a line.
fn push_document(line: &mut String, index: u64) -> Result<(), AllocError>
    ensures { OnOk result (string_bytes line.new ≡ string_bytes line.old ++ (codes "document " ++ decimal index)) }
{
    let mut digits = Buffer::new();
    line.push_str("document ")?;
    line.push_str(digits.format(index))
}

impl Unread {
    ghost use Rattle.std.specs.Prelude.{◌≡◌, ◌++◌, IfOk, OnOk, string_bytes};
    ghost use Rattle.fallowtime_requests.specs.Reports.{at_text, unread_text, why_text};

    /// Appends which of the arguments it is, as the answer to a line reports it. Of a query and of
    /// an update that includes why.
    fn push_place(&self, line: &mut String) -> Result<(), AllocError>
        ensures { OnOk result (string_bytes line.new ≡ string_bytes line.old ++ at_text self.now) }
    {
        match self {
            Unread::Command => line.push_str("command"),
            Unread::Arguments => line.push_str("arguments"),
            Unread::Collection => line.push_str("collection"),
            Unread::Document(_) => line.push_str("document"),
            Unread::DocumentAt(index) => push_document(line, *index),
            Unread::Id(_) => line.push_str("id"),
            Unread::Key => line.push_str("key"),
            Unread::Value(_) => line.push_str("value"),
            Unread::Options => line.push_str("options"),
            Unread::Stages => line.push_str("stages"),
            Unread::Fields => line.push_str("fields"),
            Unread::Path => line.push_str("path"),
            Unread::Stream => line.push_str("stream"),
            Unread::Query(error) => {
                line.push_str("query")?;
                push_query_error(line, error)
            }
            Unread::Update(error) => {
                line.push_str("update")?;
                push_update_error(line, error)
            }
            Unread::Equalities(error) => {
                line.push_str("query")?;
                push_update_error(line, error)
            }
        }
    }

    /// Appends what can't be read and why, as the program reports it of words.
    fn push_reason(&self, line: &mut String) -> Result<(), AllocError>
        ensures { OnOk result (string_bytes line.new ≡ string_bytes line.old ++ why_text self.now) }
    {
        match self {
            Unread::Command | Unread::Arguments => line.push_str("usage"),
            Unread::Document(error) | Unread::Value(error) => {
                line.push_str("JSON")?;
                push_error(line, *error)
            }
            Unread::Id(error) => {
                line.push_str("id")?;
                push_error(line, *error)
            }
            _ => self.push_place(line),
        }
    }

    /// Which of the arguments can't be read, as the answer to a line reports it.
    pub fn place(&self, alloc: Global) -> Result<String, AllocError>
        ensures { IfOk result (λ text. string_bytes text ≡ at_text self.now) }
    {
        let mut text = String::new(alloc);
        self.push_place(&mut text)?;
        Ok(text)
    }

    /// The line that reports it of words: `words: ` and what can't be read, followed by why.
    pub fn line(&self, alloc: Global) -> Result<String, AllocError>
        ensures { IfOk result (λ line. string_bytes line ≡ unread_text self.now) }
    {
        let mut line = String::from_str(alloc, "words: ")?;
        self.push_reason(&mut line)?;
        line.push_str("\n")?;
        Ok(line)
    }
}
