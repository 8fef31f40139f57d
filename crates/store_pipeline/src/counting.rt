//! `$count`: how many documents there are.

ghost use Rattle.std.specs.Prelude.{◌≡◌, ◌<◌, ◌^◌, IfOk, IsUtf8, length, map};
ghost use Rattle.bson_base.specs.Value.{member, no_members};
ghost use Rattle.bson_model.specs.View.{content, view};
ghost use Rattle.store_model.specs.Reading.{Documents};
ghost use Rattle.store_pipeline.specs.Bodies.{AreBodies};
ghost use Rattle.store_pipeline.specs.Faithful.{AnswersMade, AreFaithful};
ghost use Rattle.store_pipeline.specs.Stages.{count_of, number_value};

use crate::error::PipelineError;
use crate::writing::write_each;
use bson_model::{Bson, Document};
use std::alloc::{AllocError, Global};

/// A number of documents as a value: of 32 bits if it fits, else of 64. None is greater.
fn number_of(count: usize) -> Result<Bson, AllocError>
    ensures { IfOk result (λ v. (view v ≡ number_value count) × (count < 2 ^ 63)) }
{
    match i32::try_from(count) {
        Ok(number) => Ok(Bson::Int32(number)),
        Err(_) => match i64::try_from(count) {
            Ok(number) => Ok(Bson::Int64(number)),
            Err(_) => Err(AllocError),
        },
    }
}

/// A document with one value alone.
fn document_with(alloc: Global, name: &str, value: Bson) -> Result<Document, AllocError>
    ensures is { IfOk result (λ d. content d ≡ member name.now (view value) no_members) }
    ensures text { IsUtf8 name.now }
{
    let mut document = Document::new(alloc);
    let key = String::from_str(alloc, name)?;
    document.put(key, value)?;
    Ok(document)
}

/// The document that has a number of documents under a name; none, if that is 0.
fn count_under(alloc: Global, name: &str, count: usize) -> Result<Vec<Document>, AllocError>
    ensures is { IfOk result (λ made. map content made.items ≡ count_of name.now count) }
    ensures faithful { IfOk result (λ made. AreFaithful (map content made.items)) }
{
    let mut made = Vec::new(alloc);
    if count > 0 {
        made.push(document_with(alloc, name, number_of(count)?)?)?;
    }
    Ok(made)
}

/// The body of the document that has the number of documents under a name; none, if there are none.
pub(crate) fn count(
    alloc: Global,
    bodies: &[Vec<u8>],
    name: &str,
) -> Result<Vec<Vec<u8>>, PipelineError>
    ensures { (ds : Documents) → AreBodies bodies.now ds → AnswersMade (count_of name.now (length ds)) result }
{
    let documents = count_under(alloc, name, bodies.len())?;
    write_each(alloc, documents.as_slice())
}
