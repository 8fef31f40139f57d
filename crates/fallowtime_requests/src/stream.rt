//! The documents that `import` takes.

ghost use Rattle.std.specs.Prelude.{◌≡◌, MatchResult, Ok};
ghost use Rattle.std.specs.Option.{option_map};
ghost use Rattle.json.specs.Find.{as_array};
ghost use Rattle.json.specs.Value.{items_view, value_view as data_of};
ghost use Rattle.bson_base.specs.Value.{binary, scalar};
ghost use Rattle.bson_base.specs.declared.spec.BinarySubtype.TheVariants.{Generic};
ghost use Rattle.bson_json_read.specs.Reading.{read, read_top};
ghost use Rattle.bson_model.specs.View.{content, view};
ghost use Rattle.fallowtime_requests.specs.Inputs.{seen};
ghost use Rattle.fallowtime_requests.specs.Reading.{StopsStream};
ghost use Rattle.fallowtime_requests.specs.Requests.{IsStream};
ghost use Rattle.fallowtime_requests.specs.Streams.{PutsAll, PutsBehind, StopsBytes, StopsDocumentAt};

use crate::input::Input;
use crate::stop::Stop;
use crate::unread::Unread;
use bson_bytes::write_document;
use bson_frame::ErrorKind;
use bson_json_read::Error;
use bson_model::{BinarySubtype, Bson, Document};
use cli_convert::{IdMaker, with_id};
use json::Value;
use std::alloc::Global;
use std::mem::replace;

/// The items of an array.
pub fn items_of<'t, 'w>(tree: &'t Value<'w>) -> Option<&'t [Value<'w>]>
    ensures { option_map (λ items. items_view items.now) result ≡ as_array (data_of tree.now) }
{
    match tree {
        Value::Array(items) => Some(items.as_slice()),
        _ => None,
    }
}

/// The bytes of a binary value of the subtype 00, which are taken out of it.
fn take_bytes(alloc: Global, value: &mut Bson) -> Result<Vec<u8>, Stop>
    ensures { MatchResult result (λ v. view value.old ≡ scalar (binary Generic v.items))
        (λ s. StopsBytes (Ok (view value.old)) s) }
{
    match value {
        Bson::Binary(binary) => match binary.subtype {
            BinarySubtype::Generic => Ok(replace(&mut binary.bytes, Vec::new(alloc))),
            _ => Err(Stop::Words(Unread::Stream)),
        },
        _ => Err(Stop::Words(Unread::Stream)),
    }
}

/// The bytes of a tree that is a binary value of the subtype 00.
fn bytes_of(alloc: Global, tree: &Value<'_>) -> Result<Vec<u8>, Stop>
    ensures { MatchResult result (λ v. read (data_of tree.now) ≡ Ok (scalar (binary Generic v.items)))
        (StopsBytes (read (data_of tree.now))) }
{
    match bson_json_read::bson_of(alloc, tree) {
        Ok(value) => {
            let mut value = value;
            take_bytes(alloc, &mut value)
        }
        Err(Error::Memory) => Err(Stop::Memory),
        Err(_) => Err(Stop::Words(Unread::Stream)),
    }
}

/// The document of a tree of several.
fn document_at(alloc: Global, tree: &Value<'_>, index: u64) -> Result<Document, Stop>
    ensures { MatchResult result (λ d. read_top (data_of tree.now) ≡ Ok (content d))
        (StopsDocumentAt index (read_top (data_of tree.now))) }
{
    match bson_json_read::document_of(alloc, tree) {
        Ok(document) => Ok(document),
        Err(Error::Memory) => Err(Stop::Memory),
        Err(_) => Err(Stop::Words(Unread::DocumentAt(index))),
    }
}

/// Appends the bytes of the document of a tree, with its `_id`, to those of others. `index` is how many these are.
fn put_behind(
    alloc: Global,
    tree: &Value<'_>,
    index: u64,
    maker: &mut IdMaker,
    stream: &mut Vec<u8>,
) -> Result<(), Stop>
    ensures { PutsBehind maker.old maker.new index
        (data_of tree.now) stream.old.items stream.new.items result }
{
    let document = document_at(alloc, tree, index)?;
    let document = with_id(alloc, document, maker)?;
    match write_document(&document, stream) {
        Ok(()) => Ok(()),
        Err(error) => match error.kind {
            ErrorKind::OutOfMemory => Err(Stop::Memory),
            _ => Err(Stop::Words(Unread::DocumentAt(index))),
        },
    }
}

/// The bytes of the documents of trees, each with its `_id`, one after the other.
fn stream_of(alloc: Global, items: &[Value<'_>], maker: &mut IdMaker) -> Result<Vec<u8>, Stop>
    ensures { PutsAll maker.old maker.new (items_view items.now) result }
{
    let mut stream = Vec::new(alloc);
    for (index, item) in items.iter().enumerate() {
        put_behind(alloc, item, index as u64, maker, &mut stream)?;
    }
    Ok(stream)
}

/// The stream of documents that an array of them, or bytes, are.
pub(crate) fn stream_in(
    alloc: Global,
    input: Input<'_, '_>,
    maker: &mut IdMaker,
) -> Result<Vec<u8>, Stop>
    ensures { MatchResult result (λ v. IsStream maker.old maker.new (seen input.entry) v.items)
        (StopsStream maker.old (seen input.entry)) }
{
    let Input::Tree(tree) = input else {
        return Err(Stop::Words(Unread::Stream));
    };
    match items_of(tree) {
        Some(items) => stream_of(alloc, items, maker),
        None => bytes_of(alloc, tree),
    }
}
