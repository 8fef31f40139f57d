//! What `import` does with documents whose `_id` is there, by the values of a line.

ghost use Rattle.std.specs.Prelude.{◌≡◌, length};
ghost use Rattle.json.specs.Json.{item, no_items};
ghost use Rattle.json.specs.Value.{items_view, value_view as data_of};
ghost use Rattle.fallowtime_requests.specs.Arranging.{ReadsLine, ReadsSaid, SaysExisting, existing_of, replacing, skipping};
ghost use Rattle.fallowtime_requests.specs.Requests.{with_existing};
ghost use Rattle.fallowtime_words.specs.declared.command.Command.TheVariants as commands;

use crate::input::of_value;
use crate::options::flag_of;
use crate::parts::collection_of;
use crate::reading::{Question, plain, question_of_items};
use crate::request::{Existing, Request};
use crate::stop::Stop;
use crate::stream::stream_in;
use crate::unread::Unread;
use bson_json_read::Scratch;
use cli_convert::IdMaker;
use fallowtime_words::Command;
use json::Value;
use std::alloc::Global;

/// What is done by `upsert`.
fn replacing(upsert: bool) -> Existing
    ensures { result ≡ replacing upsert }
{
    if upsert {
        Existing::Replace
    } else {
        Existing::Refuse
    }
}

/// What is done by `skip-existing`.
fn skipping(skip: bool) -> Existing
    ensures { result ≡ skipping skip }
{
    if skip {
        Existing::Skip
    } else {
        Existing::Refuse
    }
}

/// What an object of options says of it; none if it is no such object.
fn existing_of(options: &Value<'_>) -> Option<Existing>
    ensures { result ≡ existing_of (data_of options.now) }
{
    match flag_of("upsert", options) {
        Some(upsert) => Some(replacing(upsert)),
        None => {
            let skip = flag_of("skip-existing", options)?;
            Some(skipping(skip))
        }
    }
}

/// What `import` asks for by a collection, documents and an object of options.
fn import_by_options<'w>(
    alloc: Global,
    name: &Value<'w>,
    documents: &Value<'w>,
    options: &Value<'_>,
    maker: &mut IdMaker,
) -> Result<Question<'w>, Stop>
    ensures { ReadsSaid SaysExisting with_existing maker.old maker.new commands.Import
        (item (data_of name.now) (item (data_of documents.now) no_items)) (data_of options.now) result }
{
    let collection = collection_of(of_value(name))?;
    let stream = stream_in(alloc, of_value(documents), maker)?;
    match existing_of(options) {
        Some(existing) => Ok(plain(collection, Request::Import(stream, existing))),
        None => Err(Stop::Words(Unread::Options)),
    }
}

/// What `import` asks for by values among which there are no options.
fn import_without_options<'w>(
    alloc: Global,
    items: &[Value<'w>],
    maker: &mut IdMaker,
    scratch: &mut Scratch,
) -> Result<Question<'w>, Stop>
    requires { length items.now ≡ 3 → ⊥ }
    ensures { ReadsLine maker.old maker.new commands.Import (items_view items.now) result }
{
    question_of_items(alloc, Command::Import, items, maker, scratch)
}

/// What `import` asks for by the values of a line.
pub(crate) fn import_of_line<'w>(
    alloc: Global,
    items: &[Value<'w>],
    maker: &mut IdMaker,
    scratch: &mut Scratch,
) -> Result<Question<'w>, Stop>
    ensures { ReadsLine maker.old maker.new commands.Import (items_view items.now) result }
{
    match items {
        [name, documents, options] => import_by_options(alloc, name, documents, options, maker),
        _ => import_without_options(alloc, items, maker, scratch),
    }
}
