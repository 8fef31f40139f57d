//! What the words of a command ask for.

ghost use Rattle.std.specs.Prelude.{MatchResult};
ghost use Rattle.cli_commands.specs.Requests.{IsRequestOf, StopsRequest};

use crate::stop::Failure;
use crate::texts::{filter_of_text, id_of, json_of_text, mode_of, text_at};
use crate::{Call, UsageError, Words};
use bson_store::Bson;
use bson_store::extjson::Mode;
use serde_json::Value;
use std::alloc::Global;
use store_question::Filter;

/// What the words ask for, with every text among them read.
#[derive(Drop)]
pub enum Request<'w> {
    Insert(Value),
    Replace(Value),
    Get(Bson, Mode),
    Set(Bson, &'w str, Value),
    Unset(Bson, &'w str),
    Remove(Bson),
    Find(Filter),
    Count(Filter),
    Import,
    Export,
    Dump,
    Load,
    Collections,
}

/// Reads what the words ask for. All that can be wrong with the words is reported here, before the store is asked.
pub fn request_of<'w>(alloc: Global, words: &Words<'w>) -> Result<Request<'w>, Failure>
    ensures { MatchResult result (IsRequestOf words.now) (StopsRequest words.now) }
{
    if !words.call.takes(words.rest) {
        return Err(Failure::Words(UsageError::Usage));
    }
    let first = text_at(words.rest, 0);
    let second = text_at(words.rest, 1);
    let third = text_at(words.rest, 2);
    match words.call {
        Call::Insert => Ok(Request::Insert(json_of_text(alloc, first)?)),
        Call::Replace => Ok(Request::Replace(json_of_text(alloc, first)?)),
        Call::Get => Ok(Request::Get(id_of(alloc, first)?, mode_of(words.rest))),
        Call::Set => {
            let id = id_of(alloc, first)?;
            let json = json_of_text(alloc, third)?;
            Ok(Request::Set(id, second, json))
        }
        Call::Unset => Ok(Request::Unset(id_of(alloc, first)?, second)),
        Call::Remove => Ok(Request::Remove(id_of(alloc, first)?)),
        Call::Find => Ok(Request::Find(filter_of_text(alloc, first)?)),
        Call::Count => Ok(Request::Count(filter_of_text(alloc, first)?)),
        Call::Import => Ok(Request::Import),
        Call::Export => Ok(Request::Export),
        Call::Dump => Ok(Request::Dump),
        Call::Load => Ok(Request::Load),
        Call::Collections => Ok(Request::Collections),
    }
}
