//! Streams of documents, one after the other, as they come in.

ghost use Rattle.std.specs.Prelude.{◌≡◌, ◌<◌, ◌++◌, length, IfOk, MatchResult};
ghost use Rattle.bson_meaning.specs.Gate.{IsCounted};
ghost use Rattle.store_model.specs.Reading.{IsUncut, ReadsBytes, ReadsStream};
ghost use Rattle.store_documents.specs.Judging.{AnswersFront, AnswersRow, Judges};

use crate::stored::row_of_bytes;
use crate::write::KeptRow;
use bson_frame::SIZE_LIMIT;
use std::alloc::Global;
use store_model::{ErrorKind, StoreError};

/// The least length that a document declares: that of one without elements.
const SHORTEST: usize = 5;

/// Cuts the first document off by its declared length (bsonspec.org 1.1, "document"), which counts itself. `EndInside`
/// if there are fewer than four bytes, or fewer than declared; `BadLength` if the length is under 5 or over
/// 16777216.
fn cut(bytes: &[u8]) -> Result<(&[u8], &[u8]), ErrorKind>
    ensures { MatchResult result (λ r. (bytes.now ≡ r.0.now ++ r.1.now) × IsCounted r.0.now)
        (IsUncut bytes.now) }
{
    let [a, b, c, d, ..] = bytes else {
        return Err(ErrorKind::EndInside);
    };
    let declared = u32::from_le_bytes([*a, *b, *c, *d]) as usize;
    if declared < SHORTEST || declared > SIZE_LIMIT {
        return Err(ErrorKind::BadLength);
    }
    if bytes.len() < declared {
        return Err(ErrorKind::EndInside);
    }
    Ok(bytes.split_at(declared))
}

/// The row of the document that bytes mean.
#[tactic(auto, using(crate::proofs::ManyLemmas::kept_row))]
fn row_of_piece(alloc: Global, bytes: &[u8]) -> Result<KeptRow<'_>, ErrorKind>
    ensures { AnswersRow (ReadsBytes bytes.now) result }
{
    row_of_bytes(alloc, bytes)
}

/// The row of the first document of a stream that isn't at its end, and what follows the document.
fn first_row(alloc: Global, bytes: &[u8]) -> Result<(KeptRow<'_>, &[u8]), ErrorKind>
    requires { 0 < length bytes.now }
    ensures answer { AnswersFront bytes.now result }
    ensures shorter { IfOk result (λ r. length r.1.now < length bytes.now) }
{
    let (document, rest) = cut(bytes)?;
    let row = row_of_piece(alloc, document)?;
    Ok((row, rest))
}

/// Judges the documents of a stream, which follow each other and each declare their length (bsonspec.org 1.1,
/// "document"), and returns the rows that they are kept as.
///
/// The first document that is refused decides: `EndInside`, `BadLength`, `NotTerminated`, `Faulty` and `TooDeep` of its
/// bytes, then `NoId` and `TooLong`. `Memory` if a growth was refused. Takes time in proportion to the bytes.
pub fn judge_stream(alloc: Global, bytes: &[u8]) -> Result<Vec<KeptRow<'_>>, StoreError>
    ensures { Judges (ReadsStream bytes.now) result }
{
    let mut rows = Vec::new(alloc);
    let mut rest = bytes;
    while !rest.is_empty() {
        match first_row(alloc, rest) {
            Ok((row, more)) => {
                rows.push(row)?;
                rest = more;
            }
            Err(kind) => return Err(StoreError::at(kind, rows.len() as u64)),
        }
    }
    Ok(rows)
}
