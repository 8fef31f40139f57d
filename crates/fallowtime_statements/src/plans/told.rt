//! Documents that commands are answered with that ask nothing of a store, and how any answer is made.

ghost use Rattle.std.specs.Prelude.{◌≡◌, IfOk, codes, map};
ghost use Rattle.bson_base.specs.Value.{double, scalar};
ghost use Rattle.bson_model.specs.View.{content, items_of, pairs_of, view};
ghost use Rattle.bson_pairs.specs.Keyed.{put as put_pair};
ghost use Rattle.fallowtime_statements.specs.Told as answer;

use crate::{one_member, put};
use bson_base::DoubleBits;
use bson_model::{Bson, Document};
use std::alloc::{AllocError, Global};

/// The double 1.0.
const ONE: DoubleBits = DoubleBits(0x3FF0_0000_0000_0000);

/// Ends the answer to a command that was done.
pub fn done(mut document: Document, alloc: Global) -> Result<Document, AllocError>
    ensures { IfOk result (λ d. pairs_of d ≡ put_pair (codes "ok") (scalar (double 4607182418800017408)) (pairs_of document)) }
{
    put(&mut document, alloc, "ok", Bson::Double(ONE))?;
    Ok(document)
}

/// The answer to `ping`.
pub(crate) fn ping(alloc: Global) -> Result<Document, AllocError>
    ensures { IfOk result (λ d. content d ≡ answer.ping) }
{
    done(Document::new(alloc), alloc)
}

/// The answer to `hello`: a server that stands alone.
pub fn hello(alloc: Global) -> Result<Document, AllocError>
    ensures { IfOk result (λ d. content d ≡ answer.hello) }
{
    let mut told = Document::new(alloc);
    put(&mut told, alloc, "helloOk", Bson::Boolean(true))?;
    put(&mut told, alloc, "ismaster", Bson::Boolean(true))?;
    put(&mut told, alloc, "isWritablePrimary", Bson::Boolean(true))?;
    put(&mut told, alloc, "maxBsonObjectSize", Bson::Int32(16777216))?;
    put(
        &mut told,
        alloc,
        "maxMessageSizeBytes",
        Bson::Int32(48000000),
    )?;
    put(&mut told, alloc, "maxWriteBatchSize", Bson::Int32(100000))?;
    put(
        &mut told,
        alloc,
        "logicalSessionTimeoutMinutes",
        Bson::Int32(30),
    )?;
    put(&mut told, alloc, "minWireVersion", Bson::Int32(0))?;
    put(&mut told, alloc, "maxWireVersion", Bson::Int32(9))?;
    put(&mut told, alloc, "readOnly", Bson::Boolean(false))?;
    done(told, alloc)
}

/// The answer to `buildInfo`.
pub(crate) fn build_info(alloc: Global) -> Result<Document, AllocError>
    ensures { IfOk result (λ d. content d ≡ answer.build_info) }
{
    let mut parts = Vec::new(alloc);
    parts.push(Bson::Int32(4))?;
    parts.push(Bson::Int32(4))?;
    parts.push(Bson::Int32(0))?;
    parts.push(Bson::Int32(0))?;
    let mut told = Document::new(alloc);
    put(
        &mut told,
        alloc,
        "version",
        Bson::String(String::from_str(alloc, "4.4.0")?),
    )?;
    put(&mut told, alloc, "versionArray", Bson::Array(parts))?;
    put(&mut told, alloc, "bits", Bson::Int32(64))?;
    put(&mut told, alloc, "maxBsonObjectSize", Bson::Int32(16777216))?;
    done(told, alloc)
}

/// The answer to `createIndexes`: there is one index, of the `_id`, before and behind it.
pub(crate) fn indexed(alloc: Global) -> Result<Document, AllocError>
    ensures { IfOk result (λ d. content d ≡ answer.indexed) }
{
    let mut told = Document::new(alloc);
    put(&mut told, alloc, "numIndexesBefore", Bson::Int32(1))?;
    put(&mut told, alloc, "numIndexesAfter", Bson::Int32(1))?;
    put(
        &mut told,
        alloc,
        "note",
        Bson::String(String::from_str(alloc, "an index has no effect here")?),
    )?;
    done(told, alloc)
}

/// The answer to `listDatabases`: the only one, by its name.
pub(crate) fn databases(alloc: Global, database: &str) -> Result<Document, AllocError>
    ensures { IfOk result (λ d. content d ≡ answer.databases database.now) }
{
    let name = Bson::String(String::from_str(alloc, database)?);
    let mut items = Vec::new(alloc);
    items.push(Bson::Document(one_member(alloc, "name", name)?))?;
    let mut told = Document::new(alloc);
    put(&mut told, alloc, "databases", Bson::Array(items))?;
    done(told, alloc)
}
