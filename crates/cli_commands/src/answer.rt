//! What a command returns.

ghost use Rattle.std.specs.Prelude.{◌≡◌};
ghost use Rattle.cli_commands.specs.Answers.{answer_by, as_nothing, flag_answer, number_answer, as_tree, as_documents, names_answer};

use crate::stop::Failure;
use bson_store::StoreError;
use serde_json::Value;

/// What is printed of a command that is done.
#[derive(Drop)]
pub enum Answer {
    /// Nothing.
    Nothing,
    /// `true` or `false`.
    Flag(bool),
    /// A number, in decimal.
    Number(u64),
    /// A JSON tree, on one line.
    Tree(Value),
    /// Written documents, one after the other.
    Documents(Vec<Vec<u8>>),
    /// Names, one a line.
    Names(Vec<String>),
}

/// A change returns nothing.
pub fn nothing(outcome: Result<(), StoreError>) -> Result<Answer, Failure>
    ensures { result ≡ answer_by as_nothing outcome }
{
    outcome?;
    Ok(Answer::Nothing)
}

/// Whether something was there.
pub fn flag(outcome: Result<bool, StoreError>) -> Result<Answer, Failure>
    ensures { result ≡ answer_by flag_answer outcome }
{
    Ok(Answer::Flag(outcome?))
}

/// A document as a tree.
pub fn tree(outcome: Result<Value, StoreError>) -> Result<Answer, Failure>
    ensures { result ≡ answer_by as_tree outcome }
{
    Ok(Answer::Tree(outcome?))
}

/// How many there are.
pub fn number(outcome: Result<u64, StoreError>) -> Result<Answer, Failure>
    ensures { result ≡ answer_by number_answer outcome }
{
    Ok(Answer::Number(outcome?))
}

/// Documents as they are written.
pub fn documents(outcome: Result<Vec<Vec<u8>>, StoreError>) -> Result<Answer, Failure>
    ensures { result ≡ answer_by as_documents outcome }
{
    Ok(Answer::Documents(outcome?))
}

/// Names of collections.
pub fn names(outcome: Result<Vec<String>, StoreError>) -> Result<Answer, Failure>
    ensures { result ≡ answer_by names_answer outcome }
{
    Ok(Answer::Names(outcome?))
}
