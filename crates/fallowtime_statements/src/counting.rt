//! The pipelines of `aggregate` by which drivers count: a query, how many are passed over, how many there are at most, and
//! one group of all with their number.

ghost use Rattle.std.specs.Prelude.{◌≡◌, IfOk, Some, codes, map, pos};
ghost use Rattle.std.specs.Option.{option_map};
ghost use Rattle.bson_base.specs.Value.{int32, look_up, scalar};
ghost use Rattle.bson_model.specs.View.{content, view};
ghost use Rattle.fallowtime_statements.specs.Counting.{CountsAll, CountsBy, CountsIn, HasNumber, IsConstant, IsCounting, IsCountingOf, IsGroup, IsGroupIn, IsGroupOf, IsLimit, IsMatch, IsSkip, IsSum, only, operand_of, size};
ghost use Rattle.fallowtime_statements.specs.Lines.{IsWhole};

use crate::fault::{Code, Fault, refuse};
use crate::lines::{copy_of_value, value_in};
use bson_model::{Bson, Document};
use std::alloc::Global;

/// What a pipeline counts.
#[derive(Drop)]
pub struct Counting {
    /// The documents that answer this query.
    pub query: Document,
    /// How many of them are passed over.
    pub skip: u64,
    /// How many are counted at most.
    pub most: u64,
    /// The `_id` of the group.
    pub id: Bson,
}

/// Why a pipeline isn't had.
pub(crate) fn absent(alloc: Global) -> Fault {
    refuse(alloc, Code::NotImplemented, "pipeline")
}

/// How many keys a document has.
pub(crate) fn size_of(document: &Document) -> usize
    ensures { result ≡ size (content document.now) }
{
    document.len()
}

/// The value under a key, if that is the only one of the document.
fn only<'d>(document: &'d Document, key: &str) -> Option<&'d Bson>
    ensures { option_map (λ v. view v.now) result ≡ only key.now (content document.now) }
{
    if size_of(document) == 1 {
        value_in(document, key)
    } else {
        None
    }
}

/// The operand of a stage of this name.
pub fn operand_of<'b>(stage: &'b Bson, name: &str) -> Option<&'b Bson>
    ensures { option_map (λ v. view v.now) result ≡ operand_of name.now (view stage.now) }
{
    match stage {
        Bson::Document(document) => only(document, name),
        _ => None,
    }
}

/// A whole number.
fn integer_of(alloc: Global, value: &Bson) -> Result<i64, Fault>
    ensures { IfOk result (λ z. IsWhole (Some (view value.now)) z) }
{
    match value {
        Bson::Int32(number) => Ok(*number as i64),
        Bson::Int64(number) => Ok(*number),
        _ => Err(absent(alloc)),
    }
}

/// A whole number from 0.
pub(crate) fn number_of(alloc: Global, value: &Bson) -> Result<u64, Fault>
    ensures { IfOk result (λ n. HasNumber (view value.now) n) }
{
    let number = integer_of(alloc, value)?;
    let Ok(number) = u64::try_from(number) else {
        return Err(absent(alloc));
    };
    Ok(number)
}

/// How many a stage passes over.
fn skip_in(alloc: Global, stage: &Bson) -> Result<u64, Fault>
    ensures { IfOk result (λ n. IsSkip (Some (view stage.now)) n) }
{
    match operand_of(stage, "$skip") {
        Some(value) => number_of(alloc, value),
        None => Err(absent(alloc)),
    }
}

/// The same, if there is a stage.
fn skip_of(alloc: Global, stage: Option<&Bson>) -> Result<u64, Fault>
    ensures { IfOk result (λ n. IsSkip (option_map (λ v. view v.now) stage.entry) n) }
{
    match stage {
        Some(stage) => skip_in(alloc, stage),
        None => Ok(0),
    }
}

/// How many a stage lets through at most.
fn limit_in(alloc: Global, stage: &Bson) -> Result<u64, Fault>
    ensures { IfOk result (λ n. IsLimit (Some (view stage.now)) n) }
{
    match operand_of(stage, "$limit") {
        Some(value) => number_of(alloc, value),
        None => Err(absent(alloc)),
    }
}

/// The same, if there is a stage.
fn limit_of(alloc: Global, stage: Option<&Bson>) -> Result<u64, Fault>
    ensures { IfOk result (λ n. IsLimit (option_map (λ v. view v.now) stage.entry) n) }
{
    match stage {
        Some(stage) => limit_in(alloc, stage),
        None => Ok(9223372036854775807),
    }
}

/// The query of a stage.
fn query_of(alloc: Global, stage: &Bson) -> Result<Document, Fault>
    ensures { IfOk result (λ d. IsMatch (view stage.now) (content d)) }
{
    match operand_of(stage, "$match") {
        Some(value) => copy_of_value(alloc, value, "pipeline"),
        None => Err(absent(alloc)),
    }
}

/// Refuses a number that isn't 1.
fn one(alloc: Global, number: i32) -> Result<(), Fault>
    ensures { IfOk result (λ _. number ≡ pos 1) }
{
    if number == 1 {
        Ok(())
    } else {
        Err(absent(alloc))
    }
}

/// Refuses a value that isn't the number 1.
fn one_in(alloc: Global, value: &Bson) -> Result<(), Fault>
    ensures { IfOk result (λ _. view value.now ≡ scalar (int32 (pos 1))) }
{
    match value {
        Bson::Int32(number) => one(alloc, *number),
        _ => Err(absent(alloc)),
    }
}

/// Refuses what doesn't count.
fn sum_in(alloc: Global, count: &Bson) -> Result<(), Fault>
    ensures { IfOk result (λ _. IsSum (view count.now)) }
{
    match operand_of(count, "$sum") {
        Some(value) => one_in(alloc, value),
        None => Err(absent(alloc)),
    }
}

/// Refuses a group that doesn't count under `n`.
fn count_in(alloc: Global, group: &Document) -> Result<(), Fault>
    ensures { IfOk result (λ _. CountsAll (content group.now)) }
{
    match value_in(group, "n") {
        Some(count) => sum_in(alloc, count),
        None => Err(absent(alloc)),
    }
}

/// A copy of a number or of null.
fn constant_of(alloc: Global, value: &Bson) -> Result<Bson, Fault>
    ensures { IfOk result (λ id. (view id ≡ view value.now) × IsConstant (view id)) }
{
    match value {
        Bson::Int32(number) => Ok(Bson::Int32(*number)),
        Bson::Null => Ok(Bson::Null),
        _ => Err(absent(alloc)),
    }
}

/// The `_id` of a group of all, a number or null, which counts them under `n`.
fn id_in(alloc: Global, group: &Document) -> Result<Bson, Fault>
    ensures { IfOk result (λ id. IsGroupOf (content group.now) (view id)) }
{
    if size_of(group) != 2 {
        return Err(absent(alloc));
    }
    count_in(alloc, group)?;
    match value_in(group, "_id") {
        Some(id) => constant_of(alloc, id),
        None => Err(absent(alloc)),
    }
}

/// The same of a value that is a document.
fn group_in(alloc: Global, value: &Bson) -> Result<Bson, Fault>
    ensures { IfOk result (λ id. IsGroupIn (view value.now) (view id)) }
{
    match value {
        Bson::Document(group) => id_in(alloc, group),
        _ => Err(absent(alloc)),
    }
}

/// The same of a stage.
fn group_of(alloc: Global, stage: &Bson) -> Result<Bson, Fault>
    ensures { IfOk result (λ id. IsGroup (view stage.now) (view id)) }
{
    match operand_of(stage, "$group") {
        Some(value) => group_in(alloc, value),
        None => Err(absent(alloc)),
    }
}

/// What stages count.
fn counting_by(
    alloc: Global,
    first: &Bson,
    skip: Option<&Bson>,
    limit: Option<&Bson>,
    group: &Bson,
) -> Result<Counting, Fault>
    ensures { IfOk result (λ c. CountsBy (view first.now) (option_map (λ v. view v.now) skip.entry) (option_map (λ v. view v.now) limit.entry) (view group.now) (content c.query) c.skip c.most (view c.id)) }
{
    let query = query_of(alloc, first)?;
    let skip = skip_of(alloc, skip)?;
    let most = limit_of(alloc, limit)?;
    let id = group_of(alloc, group)?;
    Ok(Counting {
        query,
        skip,
        most,
        id,
    })
}

/// What a pipeline of three stages counts.
fn counting_of_three(
    alloc: Global,
    first: &Bson,
    second: &Bson,
    group: &Bson,
) -> Result<Counting, Fault>
    ensures { IfOk result (λ c. IsCountingOf (view first.now) (view second.now) (view group.now) (content c.query) c.skip c.most (view c.id)) }
{
    if operand_of(second, "$skip").is_some() {
        counting_by(alloc, first, Some(second), None, group)
    } else {
        counting_by(alloc, first, None, Some(second), group)
    }
}

/// What a pipeline counts. `NotImplemented` if it is another one.
fn counting_of(alloc: Global, stages: &[Bson]) -> Result<Counting, Fault>
    ensures { IfOk result (λ c. IsCounting (map view stages.now) (content c.query) c.skip c.most (view c.id)) }
{
    match stages {
        [first, group] => counting_by(alloc, first, None, None, group),
        [first, second, group] => counting_of_three(alloc, first, second, group),
        [first, skip, limit, group] => { counting_by(alloc, first, Some(skip), Some(limit), group) }
        _ => Err(absent(alloc)),
    }
}

/// What the stages of a value count, which is an array. `BadValue` if it is none.
fn counting_in_value(alloc: Global, value: &Bson) -> Result<Counting, Fault>
    ensures { IfOk result (λ c. CountsIn (Some (view value.now)) (content c.query) c.skip c.most (view c.id)) }
{
    match value {
        Bson::Array(stages) => counting_of(alloc, stages.as_slice()),
        _ => Err(refuse(alloc, Code::BadValue, "pipeline")),
    }
}

/// What the pipeline of a command counts. `BadValue` if there is none, `NotImplemented` if it is another one.
pub fn counting_in(alloc: Global, command: &Document) -> Result<Counting, Fault>
    ensures { IfOk result (λ c. CountsIn (look_up (codes "pipeline") (content command.now)) (content c.query) c.skip c.most (view c.id)) }
{
    match value_in(command, "pipeline") {
        Some(value) => counting_in_value(alloc, value),
        None => Err(refuse(alloc, Code::BadValue, "pipeline")),
    }
}
