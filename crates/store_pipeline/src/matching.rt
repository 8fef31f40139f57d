//! `$match`: the documents that answer a question.

ghost use Rattle.std.specs.Prelude.{◌≡◌, ◌++◌, ◌∷◌, [], if◌then◌else◌, IfOk, OnOk, Some};
ghost use Rattle.bson_base.specs.Value.{document as tree};
ghost use Rattle.store_model.specs.Reading.{Documents};
ghost use Rattle.store_question.specs.Asked.{Answers, Asked};
ghost use Rattle.store_question.specs.Keeps.{Keeps};
ghost use Rattle.store_question.specs.Reads.{HasPattern, Reads, Tells, form_of};
ghost use Rattle.store_pipeline.specs.Bodies.{AreBodies, OfBody};
ghost use Rattle.store_pipeline.specs.Faithful.{BodiesOf};

use bson_raw::RawDocument;
use std::alloc::{AllocError, Global};
use store_question::{Question, answers};

/// Whether the document that has this body answers a question. The error is a refused growth, where the question has a
/// pattern.
fn answers_it(alloc: Global, body: &[u8], question: &Question) -> Result<bool, AllocError>
    ensures { (q : Asked) → Reads (form_of question.now) q → OfBody body.now
        (λ d. Tells (HasPattern (form_of question.now)) result (Answers q (Some (tree d)))) }
{
    let Ok(document) = RawDocument::from_bytes(body) else {
        return Ok(false);
    };
    answers(alloc, document, question)
}

/// Puts a body behind others, if it is to be kept. The error is a refused growth.
fn put_if(held: bool, left: &mut Vec<Vec<u8>>, body: Vec<u8>) -> Result<(), AllocError>
    ensures { OnOk result (left.new.items ≡ (if held then left.old.items ++ body ∷ [] else left.old.items)) }
{
    if held {
        left.push(body)?;
    }
    Ok(())
}

/// The bodies of those documents that answer a question, in their order. The error is a refused growth.
pub(crate) fn keep(
    alloc: Global,
    bodies: Vec<Vec<u8>>,
    question: &Question,
) -> Result<Vec<Vec<u8>>, AllocError>
    ensures { (ds : Documents) → AreBodies bodies.items ds
        → IfOk result (BodiesOf (λ es. (q : Asked) → Reads (form_of question.now) q → Keeps q ds es)) }
{
    let mut left = Vec::new(alloc);
    for body in bodies {
        let held = answers_it(alloc, body.as_slice(), question)?;
        put_if(held, &mut left, body)?;
    }
    Ok(left)
}
