//! What a command returns.

ghost use Rattle.std.specs.Prelude.{◌≡◌, IfOk};
ghost use Rattle.bson_store.specs.Questions.{as_list, as_names};
ghost use Rattle.bson_store.specs.Refusals.{as_bytes, as_done, as_flag, as_number, reply_by};
ghost use Rattle.fallowtime_commands.specs.Aggregating.{returned};
ghost use Rattle.fallowtime_commands.specs.Asking.{values_by};
ghost use Rattle.fallowtime_commands.specs.Performing.{IsAggregate, IsDocument, IsFlag, IsNumber, AreDocuments, AreNames, AreValues, reply_of};
ghost use Rattle.fallowtime_commands.specs.declared.answer.Answer.TheVariants.{Id, Nothing, Upserted};

use bson_store::{Bson, StoreError};
use std::mem::replace;
use store_pipeline::PipelineError;
use store_pipeline::sorted::Counted;
use store_update::UpdateError;

/// What a command that is done returns.
#[derive(Drop)]
pub enum Answer {
    /// Nothing.
    Nothing,
    /// The `_id` of the document that went in.
    Id(Bson),
    /// Whether a key was there.
    Flag(bool),
    /// How many documents.
    Number(u64),
    /// A written document.
    Document(Vec<u8>),
    /// Written documents, each by itself.
    Documents(Vec<Vec<u8>>),
    /// The written document that was found and changed, if one was found.
    Found(Option<Vec<u8>>),
    /// Names of collections.
    Names(Vec<String>),
    /// Different values; if so, with how many documents have each.
    Values(Vec<Counted>, bool),
    /// How many documents answered the query of an update or a replacement, and how many of them are other ones now.
    Updated(u64, u64),
    /// Nothing was changed: why nothing is made of this one of the documents that answered, counted from 0.
    NotUpdated(u64, UpdateError),
    /// No document answered the query of a change, and the one with this `_id` went in.
    Upserted(Bson),
    /// No document answered, and nothing was changed: why none is made of the query's equality fields.
    NotUpserted(UpdateError),
    /// Why a sum or an average of a pipeline isn't calculated: `Decimal` or `Overflow`.
    NotCalculated(UpdateError),
}

/// A change returns nothing.
pub fn nothing(outcome: Result<(), StoreError>) -> Result<Answer, StoreError>
    ensures reply { reply_of result ≡ reply_by as_done outcome }
    ensures shape { IfOk result (λ a. a ≡ Nothing) }
{
    outcome?;
    Ok(Answer::Nothing)
}

/// An insertion returns the `_id`, which is taken; after a refusal it stays.
pub fn inserted(id: &mut Bson, outcome: Result<(), StoreError>) -> Result<Answer, StoreError>
    ensures reply { reply_of result ≡ reply_by as_done outcome }
    ensures shape { IfOk result (λ a. a ≡ Id id.old) }
{
    outcome?;
    Ok(Answer::Id(replace(id, Bson::Null)))
}

/// A change that put a document in returns the `_id`, which is taken; after a refusal it stays.
pub(crate) fn upserted(id: &mut Bson, outcome: Result<(), StoreError>) -> Result<Answer, StoreError>
    ensures reply { reply_of result ≡ reply_by as_done outcome }
    ensures shape { IfOk result (λ a. a ≡ Upserted id.old) }
{
    outcome?;
    Ok(Answer::Upserted(replace(id, Bson::Null)))
}

/// Whether something was there.
pub fn flag(outcome: Result<bool, StoreError>) -> Result<Answer, StoreError>
    ensures reply { reply_of result ≡ reply_by as_flag outcome }
    ensures shape { IfOk result IsFlag }
{
    Ok(Answer::Flag(outcome?))
}

/// How many there are.
pub fn number(outcome: Result<u64, StoreError>) -> Result<Answer, StoreError>
    ensures reply { reply_of result ≡ reply_by as_number outcome }
    ensures shape { IfOk result IsNumber }
{
    Ok(Answer::Number(outcome?))
}

/// A document as it is written.
pub fn document(outcome: Result<Vec<u8>, StoreError>) -> Result<Answer, StoreError>
    ensures reply { reply_of result ≡ reply_by as_bytes outcome }
    ensures shape { IfOk result IsDocument }
{
    Ok(Answer::Document(outcome?))
}

/// Documents as they are written.
pub fn documents(outcome: Result<Vec<Vec<u8>>, StoreError>) -> Result<Answer, StoreError>
    ensures reply { reply_of result ≡ reply_by as_list outcome }
    ensures shape { IfOk result AreDocuments }
{
    Ok(Answer::Documents(outcome?))
}

/// Names of collections.
pub(crate) fn names(outcome: Result<Vec<String>, StoreError>) -> Result<Answer, StoreError>
    ensures reply { reply_of result ≡ reply_by as_names outcome }
    ensures shape { IfOk result AreNames }
{
    Ok(Answer::Names(outcome?))
}

/// Different values, and whether they are counted.
pub fn values(outcome: Result<Vec<Counted>, StoreError>, counts: bool) -> Result<Answer, StoreError>
    ensures reply { result ≡ values_by counts outcome }
    ensures shape { IfOk result (AreValues counts) }
{
    Ok(Answer::Values(outcome?, counts))
}

/// The documents that a pipeline makes, or why it is stopped.
pub(crate) fn aggregate_of(
    outcome: Result<Vec<Vec<u8>>, PipelineError>,
) -> Result<Answer, StoreError>
    ensures answer { result ≡ returned outcome }
    ensures shape { IfOk result IsAggregate }
{
    match outcome {
        Ok(bodies) => Ok(Answer::Documents(bodies)),
        Err(stop) => match stop {
            PipelineError::Calculation(error) => Ok(Answer::NotCalculated(error)),
            PipelineError::Document(kind) => Err(StoreError::from(kind)),
        },
    }
}
