//! The documents that answer a question.

use crate::selecting::TakeRow;
use bson_raw::RawDocument;
use bson_store::{StoreError, Take};
use std::alloc::Global;
use store_question::{Question, answers};
use store_table::pages::RowRef;

/// Hands on the documents that answer a question, and none of the others, to another taker. A pattern in the question is
/// searched for with memory of the allocator.
#[derive(Drop)]
pub struct Answering<'a, T> {
    pub alloc: Global,
    pub question: &'a Question,
    pub taker: T,
}

impl<'a, T: Take> Take for Answering<'a, T> {
    ghost use Rattle.store_asked.specs.Keeps.{TookAnswers};

    ghost took = { λ first t out. TookAnswers T.took first t out };

    fn take(&mut self, document: RawDocument<'_>) -> Result<(), StoreError> {
        let held = answers(self.alloc, document, self.question)?;
        if held {
            self.taker.take(document)?;
        }
        Ok(())
    }

    fn is_done(&self) -> bool {
        self.taker.is_done()
    }
}

impl<'a, T: TakeRow> TakeRow for Answering<'a, T> {
    fn take_row(
        &mut self,
        alloc: Global,
        row: &RowRef<'_>,
        document: RawDocument<'_>,
    ) -> Result<(), StoreError> {
        let held = answers(self.alloc, document, self.question)?;
        if !held {
            return Ok(());
        }
        self.taker.take_row(alloc, row, document)?;
        Ok(())
    }
}
