//! Documents of a few keys, as lines have them for options.

ghost use Rattle.std.specs.Prelude.{◌≡◌, IfOk, OnOk};
ghost use Rattle.bson_base.specs.Value.{member, no_members};
ghost use Rattle.bson_model.specs.View.{content, pairs_of, view};
ghost use Rattle.bson_pairs.specs.Keyed.{put as put_pair};
ghost use Rattle.fallowtime_statements.specs.Changes.{change_options, many_option, upsert_option};
ghost use Rattle.fallowtime_statements.specs.Lines.{options};
ghost use Rattle.fallowtime_statements.specs.Modifying.{by_id, changed_options, fields_option, found_options};

use bson_model::{Bson, Document};
use std::alloc::{AllocError, Global};

/// Puts a value under a key.
pub fn put(document: &mut Document, alloc: Global, key: &str, value: Bson) -> Result<(), AllocError>
    ensures { OnOk result (pairs_of document.new ≡ put_pair key.now (view value) (pairs_of document.old)) }
{
    document.put(String::from_str(alloc, key)?, value)
}

/// The options of the line of `find`.
pub(crate) fn find_options(
    alloc: Global,
    sort: Document,
    skip: i64,
    most: i64,
    fields: Document,
) -> Result<Document, AllocError>
    ensures { IfOk result (λ d. content d ≡ options (content sort) skip most (content fields)) }
{
    let mut told = Document::new(alloc);
    put(&mut told, alloc, "sort", Bson::Document(sort))?;
    put(&mut told, alloc, "skip", Bson::Int64(skip))?;
    put(&mut told, alloc, "limit", Bson::Int64(most))?;
    put(&mut told, alloc, "fields", Bson::Document(fields))?;
    Ok(told)
}

/// The options of the line of `update`.
pub(crate) fn change_options(
    alloc: Global,
    many: bool,
    upsert: bool,
) -> Result<Document, AllocError>
    ensures { IfOk result (λ d. content d ≡ change_options many upsert) }
{
    let mut told = Document::new(alloc);
    put(&mut told, alloc, "many", Bson::Boolean(many))?;
    put(&mut told, alloc, "upsert", Bson::Boolean(upsert))?;
    Ok(told)
}

/// The options of the line of `replace-one`.
pub(crate) fn upsert_option(alloc: Global, upsert: bool) -> Result<Document, AllocError>
    ensures { IfOk result (λ d. content d ≡ upsert_option upsert) }
{
    let mut told = Document::new(alloc);
    put(&mut told, alloc, "upsert", Bson::Boolean(upsert))?;
    Ok(told)
}

/// The options of the line of `delete`.
pub(crate) fn many_option(alloc: Global, many: bool) -> Result<Document, AllocError>
    ensures { IfOk result (λ d. content d ≡ many_option many) }
{
    let mut told = Document::new(alloc);
    put(&mut told, alloc, "many", Bson::Boolean(many))?;
    Ok(told)
}

/// The options of the line of `find-and-delete`.
pub(crate) fn found_options(
    alloc: Global,
    sort: Document,
    fields: Document,
) -> Result<Document, AllocError>
    ensures { IfOk result (λ d. content d ≡ found_options (content sort) (content fields)) }
{
    let mut told = Document::new(alloc);
    put(&mut told, alloc, "sort", Bson::Document(sort))?;
    put(&mut told, alloc, "fields", Bson::Document(fields))?;
    Ok(told)
}

/// The options of the lines of `find-and-update` and `find-and-replace`.
pub(crate) fn changed_options(
    alloc: Global,
    sort: Document,
    fields: Document,
    after: bool,
) -> Result<Document, AllocError>
    ensures { IfOk result (λ d. content d ≡ changed_options (content sort) (content fields) after) }
{
    let mut told = Document::new(alloc);
    put(&mut told, alloc, "sort", Bson::Document(sort))?;
    put(&mut told, alloc, "fields", Bson::Document(fields))?;
    put(&mut told, alloc, "after", Bson::Boolean(after))?;
    Ok(told)
}

/// The options of the line of `find` that asks for fields alone.
pub(crate) fn fields_option(alloc: Global, fields: Document) -> Result<Document, AllocError>
    ensures { IfOk result (λ d. content d ≡ fields_option (content fields)) }
{
    let mut told = Document::new(alloc);
    put(&mut told, alloc, "fields", Bson::Document(fields))?;
    Ok(told)
}

/// A document with one key.
pub fn one_member(alloc: Global, key: &str, value: Bson) -> Result<Document, AllocError>
    ensures { IfOk result (λ d. content d ≡ member key.now (view value) no_members) }
{
    let mut told = Document::new(alloc);
    put(&mut told, alloc, key, value)?;
    Ok(told)
}

/// The query for the document with this `_id`.
pub(crate) fn by_id(alloc: Global, id: Bson) -> Result<Document, AllocError>
    ensures { IfOk result (λ d. content d ≡ by_id (view id)) }
{
    let equal = one_member(alloc, "$eq", id)?;
    one_member(alloc, "_id", Bson::Document(equal))
}
