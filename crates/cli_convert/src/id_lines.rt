//! Documents of lines.

ghost use Rattle.bson_base.specs.Device.{CanFail};
ghost use Rattle.bson_model.specs.View.{content};
ghost use Rattle.cli_convert.specs.IdLines.{PutsBehind, ReadsLines};

use crate::made::{IdMaker, with_id};
use crate::{LineFault, Stop, Take, take_lines};
use bson_base::Source;
use bson_bytes::write_document;
use bson_model::Document;
use bson_raw::ErrorKind;
use std::alloc::Global;

/// Documents that were taken from lines.
#[derive(Drop)]
pub struct Taken {
    /// Their bytes as BSON, one after the other.
    pub stream: Vec<u8>,
    /// The line of each, counted from 1.
    pub lines: Vec<u64>,
}

/// Documents that were taken, and what makes ids for those without one.
#[derive(Drop)]
struct Taking {
    taken: Taken,
    maker: IdMaker,
}

/// Documents with an `_id` are added to those that were taken.
struct WithIds;

impl Take<Taking> for WithIds {
    ghost use Rattle.cli_convert.specs.IdLines.{TakesWithId};

    ghost can_take = { λ _. Unit {0} };

    ghost takes = { λ n d before after r. TakesWithId n d before after r };

    fn take(
        alloc: Global,
        number: u64,
        document: Document,
        target: &mut Taking,
    ) -> Result<(), Stop> {
        let document = with_id(alloc, document, &mut target.maker)?;
        put_behind(&document, number, &mut target.taken)
    }
}

/// Adds the document of a line to those that were taken.
fn put_behind(document: &Document, number: u64, taken: &mut Taken) -> Result<(), Stop>
    ensures { PutsBehind number (content document.now) taken.old taken.new result }
{
    match write_document(document, &mut taken.stream) {
        Ok(()) => {
            taken.lines.push(number)?;
            Ok(())
        }
        Err(error) => match error.kind {
            ErrorKind::OutOfMemory => Err(Stop::Memory),
            _ => Err(Stop::Line(number, LineFault::Raw(error))),
        },
    }
}

/// Reads the documents of the lines of the input, up to its end. Each line is a text of Extended JSON; an empty one is
/// skipped, and counts. A document without an `_id` gets one of the maker.
///
/// `Line` if a line, counted from 1, has over 64 MiB, is no UTF-8, is no text of Extended JSON, or if its document with
/// its `_id` has no written form; `Reader` if a read failed; `Memory` if a growth of memory was refused, or more than
/// 1000 levels are nested in each other. Then the maker is as it was.
pub fn read_lines<I: Source>(
    alloc: Global,
    input: &mut I,
    maker: &mut IdMaker,
) -> Result<Taken, Stop>
    requires { CanFail (I.feed input.old) }
    ensures { ReadsLines (I.feed input.old) (I.feed input.new) maker.old maker.new result }
{
    let mut taking = Taking {
        taken: Taken {
            stream: Vec::new(alloc),
            lines: Vec::new(alloc),
        },
        maker: maker.copy(),
    };
    take_lines::<I, Taking, WithIds>(alloc, input, &mut taking)?;
    *maker = taking.maker;
    Ok(taking.taken)
}
