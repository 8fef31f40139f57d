//! Documents that are written to devices.

ghost use Rattle.bson_base.specs.Device.{CanRefuse};
ghost use Rattle.bson_model.specs.View.{content};
ghost use Rattle.bson_raw.specs.Trees.{SendsDocument};

use crate::write_error::WriteError;
use bson_base::{Sink, write_all};
use bson_bytes::encode_document;
use bson_frame::ErrorKind;
use bson_model::Document;
use std::alloc::Global;

/// Writes a document (bsonspec.org 1.1, "document"). All its bytes are made before the first write.
///
/// `Raw` if a 00 is in a key, a pattern or options, or the document would be over 2147483647 bytes; `Memory` if a
/// growth is refused; nothing was written then. `Writer` if a write failed, or took none of some bytes; a prefix was
/// written.
pub fn to_writer<W: Sink>(
    alloc: Global,
    document: &Document,
    writer: &mut W,
) -> Result<(), WriteError>
    requires { CanRefuse (W.tally writer.old) }
    ensures { SendsDocument (content document.now) (W.tally writer.old) (W.tally writer.new) result }
{
    match encode_document(alloc, document) {
        Ok(bytes) => match write_all(writer, &bytes) {
            Ok(()) => Ok(()),
            Err(_) => Err(WriteError::Writer),
        },
        Err(e) => match e.kind {
            ErrorKind::OutOfMemory => Err(WriteError::Memory),
            _ => Err(WriteError::Raw(e)),
        },
    }
}
