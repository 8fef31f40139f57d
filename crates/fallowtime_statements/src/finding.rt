//! The pipelines of `aggregate` that find: a query, an order, a part and fields, as one `find` does them.

ghost use Rattle.std.specs.Prelude.{◌≡◌, [], IfOk, OnOk, Some, codes, false, map};
ghost use Rattle.std.specs.Option.{option_map};
ghost use Rattle.bson_base.specs.Value.{look_up};
ghost use Rattle.bson_model.specs.View.{content, pairs_of, view};
ghost use Rattle.fallowtime_statements.specs.Finding.{AreUsed, FindsIn, IsFromOne, IsUsed, behind_order, behind_query, finds_by, first_member, only_member, part_of, place_behind, place_in, stage_of, up_to, with_part, with_stage};

use crate::counting::{absent, number_of, size_of};
use crate::fault::{Code, Fault, refuse};
use crate::fields::is_empty;
use crate::lines::value_in;
use crate::options::put;
use bson_model::{Bson, Document};
use std::alloc::Global;

/// The first key of a document, with its value.
fn first_member(document: &Document) -> Option<(&str, &Bson)>
    ensures { option_map (λ p. (p.0.now, view p.1.now)) result ≡ first_member (content document.now) }
{
    match document.iter().next() {
        Some((key, value)) => Some((key.as_str(), value)),
        None => None,
    }
}

/// The only key of a document, with its value.
fn only_member(document: &Document) -> Option<(&str, &Bson)>
    ensures { option_map (λ p. (p.0.now, view p.1.now)) result ≡ only_member (content document.now) }
{
    if size_of(document) == 1 {
        first_member(document)
    } else {
        None
    }
}

/// The name of a stage, and its operand.
pub(crate) fn stage_of(stage: &Bson) -> Option<(&str, &Bson)>
    ensures { option_map (λ p. (p.0.now, view p.1.now)) result ≡ stage_of (view stage.now) }
{
    match stage {
        Bson::Document(document) => only_member(document),
        _ => None,
    }
}

/// The part of `find` that a stage of this name is.
fn part_of(name: &str) -> Option<&'static str>
    ensures { option_map (λ p. p.now) result ≡ part_of name.now }
{
    match name {
        "$match" => Some("filter"),
        "$sort" => Some("sort"),
        "$skip" => Some("skip"),
        "$limit" => Some("limit"),
        "$project" => Some("projection"),
        "$out" => Some("out"),
        _ => None,
    }
}

/// How far a pipeline is behind a query.
fn behind_query(place: u64) -> Option<u64>
    ensures { result ≡ behind_query place }
{
    match place {
        0 => Some(1),
        2 => Some(3),
        _ => None,
    }
}

/// How far it is behind an order.
fn behind_order(place: u64) -> Option<u64>
    ensures { result ≡ behind_order place }
{
    match place {
        0 => Some(2),
        1 => Some(3),
        _ => None,
    }
}

/// A place, if it is behind the other one.
fn up_to(place: u64, before: u64) -> Option<u64>
    ensures { result ≡ up_to place before }
{
    if before < place { Some(place) } else { None }
}

/// How far a pipeline is behind a stage of this name, if that may stand there.
fn place_behind(place: u64, name: &str) -> Option<u64>
    ensures { result ≡ place_behind place name.now }
{
    match name {
        "$match" => behind_query(place),
        "$sort" => behind_order(place),
        "$skip" => up_to(4, place),
        "$limit" => up_to(5, place),
        "$project" => up_to(6, place),
        "$out" => up_to(7, place),
        _ => None,
    }
}

/// How far a pipeline is behind a stage. `NotImplemented` if that may not stand there.
fn place_in(alloc: Global, place: u64, stage: &Bson) -> Result<u64, Fault>
    ensures { IfOk result (λ n. place_in place (view stage.now) ≡ Some n) }
{
    let Some((name, _)) = stage_of(stage) else {
        return Err(absent(alloc));
    };
    match place_behind(place, name) {
        Some(place) => Ok(place),
        None => Err(absent(alloc)),
    }
}

/// Puts the part that a stage of this name is to the others.
fn put_part(alloc: Global, parts: &mut Document, name: &str, operand: &Bson) -> Result<(), Fault>
    ensures { OnOk result (with_part (pairs_of parts.old) (name.now, view operand.now) ≡ Some (pairs_of parts.new)) }
{
    let Some(part) = part_of(name) else {
        return Err(absent(alloc));
    };
    let operand = operand.try_clone(alloc)?;
    put(parts, alloc, part, operand)?;
    Ok(())
}

/// Puts the part that a stage is to the others.
fn put_stage(alloc: Global, parts: &mut Document, stage: &Bson) -> Result<(), Fault>
    ensures { OnOk result (with_stage (pairs_of parts.old) (view stage.now) ≡ Some (pairs_of parts.new)) }
{
    let Some((name, operand)) = stage_of(stage) else {
        return Err(absent(alloc));
    };
    put_part(alloc, parts, name, operand)
}

/// The parts of the `find` that stages are.
fn parts_of(alloc: Global, stages: &[Bson]) -> Result<Document, Fault>
    ensures { IfOk result (λ d. finds_by 0 [] (map view stages.now) ≡ Some (pairs_of d)) }
{
    let mut parts = Document::new(alloc);
    let mut place = 0;
    for stage in stages {
        place = place_in(alloc, place, stage)?;
        put_stage(alloc, &mut parts, stage)?;
    }
    Ok(parts)
}

/// Refuses a part that says nothing. `BadValue` then.
fn used(alloc: Global, parts: &Document, key: &str) -> Result<(), Fault>
    ensures { IfOk result (λ _. IsUsed (look_up key.now (content parts.now))) }
{
    match value_in(parts, key) {
        None => Ok(()),
        Some(value) => {
            if is_empty(value) {
                Err(refuse(alloc, Code::BadValue, key))
            } else {
                Ok(())
            }
        }
    }
}

/// Refuses a number that isn't one from 1.
fn from_one(alloc: Global, value: &Bson) -> Result<(), Fault>
    ensures { IfOk result (λ _. IsFromOne (Some (view value.now))) }
{
    let number = number_of(alloc, value)?;
    if number == 0 {
        return Err(refuse(alloc, Code::BadValue, "limit"));
    }
    Ok(())
}

/// Refuses a limit that isn't one from 1.
fn limited(alloc: Global, parts: &Document) -> Result<(), Fault>
    ensures { IfOk result (λ _. IsFromOne (look_up (codes "limit") (content parts.now))) }
{
    match value_in(parts, "limit") {
        None => Ok(()),
        Some(value) => from_one(alloc, value),
    }
}

/// The same of all parts.
fn all_used(alloc: Global, parts: &Document) -> Result<(), Fault>
    ensures { IfOk result (λ _. AreUsed (content parts.now)) }
{
    used(alloc, parts, "sort")?;
    used(alloc, parts, "projection")?;
    limited(alloc, parts)
}

/// The `find` that stages are.
fn finding_of(alloc: Global, stages: &Vec<Bson>) -> Result<Document, Fault>
    ensures { IfOk result (λ d. (finds_by 0 [] (map view stages.now.items) ≡ Some (pairs_of d)) × AreUsed (content d)) }
{
    let parts = parts_of(alloc, stages.as_slice())?;
    all_used(alloc, &parts)?;
    Ok(parts)
}

/// The same of a value that is an array. `BadValue` if it is none.
fn finding_in_value(alloc: Global, value: &Bson) -> Result<Document, Fault>
    ensures { IfOk result (λ d. FindsIn (Some (view value.now)) (content d)) }
{
    match value {
        Bson::Array(stages) => finding_of(alloc, stages),
        _ => Err(refuse(alloc, Code::BadValue, "pipeline")),
    }
}

/// The `find` that the pipeline of a command is, as its members, and what `$out` has under `out`. `BadValue` if there is no pipeline, or a stage says
/// nothing; `NotImplemented` if it is none that one `find` is.
pub fn finding_in(alloc: Global, command: &Document) -> Result<Document, Fault>
    ensures { IfOk result (λ d. FindsIn (look_up (codes "pipeline") (content command.now)) (content d)) }
{
    match value_in(command, "pipeline") {
        Some(value) => finding_in_value(alloc, value),
        None => Err(refuse(alloc, Code::BadValue, "pipeline")),
    }
}
