//! Documents of groups.

ghost use Rattle.std.specs.Prelude.{◌≡◌, ◌⊎◌, ◌∷◌, [], ◌++◌, Err as Refused, IfOk, MatchResult, Ok as Fine, OnOk, List, None as Nothing, Option as Maybe, length, map};
ghost use Rattle.std.specs.List.{AllByRecursion, cons_option};
ghost use Rattle.std.specs.List.Sorted.{IsBinarySearchResult, IsSearchInRange};
ghost use Rattle.bson_base.specs.Value.{Members, Value, member, no_members};
ghost use Rattle.bson_model.specs.View.{content, view};
ghost use Rattle.bson_order.specs.Order.{order};
ghost use Rattle.store_model.specs.Reading.{Documents};
ghost use Rattle.store_model.specs.State.{id_key};
ghost use Rattle.store_model.specs.declared.error.ErrorKind.TheVariants.{Memory as Short};
ghost use Rattle.store_pipeline.specs.Faithful.{IsFaithful};
ghost use Rattle.store_pipeline.specs.Grouped.{AreGrouped, IsGroup, ReturnsDocument, ReturnsDocuments, ReturnsValue, contents, key_of};
ghost use Rattle.store_pipeline.specs.Groups.{accumulated as accumulates, given as is_given, groups_of, values_for, with_fields};
ghost use Rattle.store_pipeline.specs.Operands.{key_in as key_of_members, taken as is_taken};
ghost use Rattle.store_pipeline.specs.Stages.{Makes, Stops};
ghost use Rattle.store_pipeline.specs.Taken.{AreTrees, IsTree, IsTreeIfAny};
ghost use Rattle.store_pipeline.specs.declared.error.PipelineError.TheVariants.{Calculation, Document as InDocument};
ghost use Rattle.store_pipeline.specs.declared.stage.Operand.{Operand as Taking};
ghost use Rattle.store_pipeline.specs.declared.stage.Stage.TheVariants.{Group as OfGroups};
ghost use Rattle.store_pipeline.specs.Bodies.{AreBodies, AreLent, IsBody, OfBody};
ghost use Rattle.store_update.specs.declared.error.UpdateError.TheVariants.{Memory};

use crate::accumulating::accumulated;
use crate::error::PipelineError;
use crate::operand::{key_in, taken};
use crate::stage::{Accumulated, Accumulator, Grouping, Operand};
use crate::writing::write_each;
use bson_model::{Bson, Document};
use bson_order::compare_trees;
use std::alloc::{AllocError, Global};
use std::cmp::Ordering;
use store_documents::ID_KEY;
use store_model::ErrorKind;
use store_update::{UpdateError, put_value};

/// The documents that have one key, as bodies, in the order in which they came.
#[derive(Drop)]
pub(crate) struct KeyGroup<'a> {
    key: Bson,
    bodies: Vec<&'a [u8]>,
}

/// The bodies of the documents that are made of groups of those that have these bodies.
///
/// - `Calculation`: a sum or an average of a group has a decimal among its numbers, or its integers don't fit in 64 bits.
/// - `Document`: that of the first document that can't be written; or `Memory`.
pub(crate) fn group(
    alloc: Global,
    grouping: &Grouping,
    bodies: &[Vec<u8>],
) -> Result<Vec<Vec<u8>>, PipelineError>
    ensures { (ds : Documents) → AreBodies bodies.now ds → MatchResult result
        (λ made. (es : Documents) × Makes (OfGroups grouping.now) ds (Fine es) × AreBodies made.items es)
        (Stops (OfGroups grouping.now) ds) }
{
    let groups = grouped(alloc, &grouping.key, bodies)?;
    match documents_of(alloc, grouping, groups.as_slice()) {
        Ok(documents) => write_each(alloc, documents.as_slice()),
        Err(error) => Err(stopped(error)),
    }
}

/// Why a pipeline is stopped that can't calculate a field.
fn stopped(error: UpdateError) -> PipelineError
    ensures { ((error ≡ Memory → ⊥) × (result ≡ Calculation error)) ⊎ ((error ≡ Memory) × (result ≡ InDocument Short)) }
{
    match error {
        UpdateError::Memory => PipelineError::Document(ErrorKind::Memory),
        _ => PipelineError::Calculation(error),
    }
}

/// How the key of a group lies to another one.
fn compare_to(group: &KeyGroup<'_>, key: &Bson) -> Ordering
    ensures { result ≡ order (key_of group.now) (view key.now) }
{
    compare_trees(&group.key, key)
}

/// Where the group of a key is, or where it belongs.
fn place_of(groups: &[KeyGroup<'_>], key: &Bson) -> Result<usize, usize>
    ensures bound { IsSearchInRange result (length groups.now) }
    ensures place { IsBinarySearchResult (λ g. order (key_of g) (view key.now)) groups.now result }
{
    groups.binary_search_by(
        |other|
            ensures { result ≡ order (key_of other.now) (view key.entry.now) }
        { compare_to(other, key) },
    )
}

/// A group of one document. The error is a refused growth.
fn group_of_one<'a>(alloc: Global, key: Bson, body: &'a [u8]) -> Result<KeyGroup<'a>, AllocError>
    ensures { IfOk result (λ g. (key_of g ≡ view key) × ((d : Members) → IsBody body.entry.now d → AreLent g.bodies.items (d ∷ []))) }
{
    let mut bodies = Vec::new(alloc);
    bodies.push(body)?;
    Ok(KeyGroup { key, bodies })
}

/// Puts a document last in a group. The error is a refused growth.
fn put_last<'a>(group: &mut KeyGroup<'a>, body: &'a [u8]) -> Result<(), AllocError>
    ensures { OnOk result ((key_of group.new ≡ key_of group.old) × ((ds : Documents) (d : Members) → IsBody body.entry.now d
        → AreLent group.old.bodies.items ds → AreLent group.new.bodies.items (ds ++ d ∷ []))) }
{
    group.bodies.push(body)?;
    Ok(())
}

/// Puts a document that has this key in its group. The error is a refused growth.
fn put_in<'a>(
    alloc: Global,
    groups: &mut Vec<KeyGroup<'a>>,
    key: Bson,
    body: &'a [u8],
) -> Result<(), AllocError>
    ensures { (o : Taking) (ds : Documents) (d : Members) → AreGrouped o ds groups.old.items → IsBody body.entry.now d
        → IsTree key (key_of_members o d) → OnOk result (AreGrouped o (ds ++ d ∷ []) groups.new.items) }
{
    match place_of(groups.as_slice(), &key) {
        Ok(place) => put_last(&mut groups[place], body),
        Err(place) => {
            groups.insert(place, group_of_one(alloc, key, body)?)?;
            Ok(())
        }
    }
}

/// The groups of documents, in the order of their keys. The error is a refused growth.
fn grouped<'a>(
    alloc: Global,
    key: &Operand,
    bodies: &'a [Vec<u8>],
) -> Result<Vec<KeyGroup<'a>>, AllocError>
    ensures { (ds : Documents) → AreBodies bodies.entry.now ds → IfOk result (λ groups. AreGrouped key.now ds groups.items) }
{
    let mut groups = Vec::new(alloc);
    for body in bodies {
        let bytes = body.as_slice();
        let found = key_in(alloc, key, bytes)?;
        put_in(alloc, &mut groups, found, bytes)?;
    }
    Ok(groups)
}

/// What counts as the value of a document that has none for a field, if anything does.
fn absent(accumulator: Accumulator) -> Option<Bson>
    ensures { IsTreeIfAny result (is_given accumulator Nothing) }
{
    match accumulator {
        Accumulator::First => Some(Bson::Null),
        Accumulator::Last => Some(Bson::Null),
        Accumulator::Sum => None,
        Accumulator::Average => None,
        Accumulator::Least => None,
        Accumulator::Greatest => None,
        Accumulator::Push => None,
        Accumulator::Include => None,
    }
}

/// The value that counts of what a document has for a field, if any does.
fn given(accumulator: Accumulator, value: Option<Bson>) -> Option<Bson>
    ensures { (o : Maybe Value) → IsTreeIfAny value o → IsTreeIfAny result (is_given accumulator o) }
{
    match value {
        Some(value) => Some(value),
        None => absent(accumulator),
    }
}

/// Adds the value that a document has for a field, if it has any. The error is a refused growth.
fn add_value(
    alloc: Global,
    field: &Accumulated,
    body: &[u8],
    values: &mut Vec<Bson>,
) -> Result<(), AllocError>
    ensures { (vs : List Value) (d : Members) → AreTrees values.old.items vs → IsBody body.now d
        → OnOk result (AreTrees values.new.items (vs ++ cons_option (is_given field.now.accumulator (is_taken field.now.operand d)) [])) }
{
    let found = taken(alloc, &field.operand, body)?;
    if let Some(value) = given(field.accumulator, found) {
        values.push(value)?;
    }
    Ok(())
}

/// The values that documents have for a field. The error is a refused growth.
fn values_of(alloc: Global, field: &Accumulated, bodies: &[&[u8]]) -> Result<Vec<Bson>, AllocError>
    ensures { (ds : Documents) → AreLent bodies.now ds → IfOk result (λ values. AreTrees values.items (values_for field.now ds)) }
{
    let mut values = Vec::new(alloc);
    for body in bodies {
        add_value(alloc, field, *body, &mut values)?;
    }
    Ok(values)
}

/// The value of a field of a group that has these documents. Errors as of `accumulated`.
fn value_of(alloc: Global, field: &Accumulated, bodies: &[&[u8]]) -> Result<Bson, UpdateError>
    ensures { (ds : Documents) → AreLent bodies.now ds → ReturnsValue result (accumulates field.now.accumulator (values_for field.now ds)) }
{
    let values = values_of(alloc, field, bodies)?;
    accumulated(alloc, field.accumulator, values)
}

/// A document that has the key of a group alone. The error is a refused growth.
fn identified(alloc: Global, key: &Bson) -> Result<Document, AllocError>
    ensures { IfOk result (λ document. content document ≡ member id_key (view key.now) no_members) }
{
    let mut document = Document::new(alloc);
    put_value(alloc, &mut document, ID_KEY, key.try_clone(alloc)?)?;
    Ok(document)
}

/// The document of a group. The error is that of its first field that isn't calculated, or `Memory`.
fn document_of(
    alloc: Global,
    fields: &[Accumulated],
    group: &KeyGroup<'_>,
) -> Result<Document, UpdateError>
    ensures { (ds : Documents) → IsFaithful (key_of group.now) → AreLent group.now.bodies.items ds
        → ReturnsDocument result (with_fields fields.now ds (member id_key (key_of group.now) no_members)) }
{
    let mut document = identified(alloc, &group.key)?;
    for field in fields {
        let value = value_of(alloc, field, group.bodies.as_slice())?;
        put_value(alloc, &mut document, field.name.as_str(), value)?;
    }
    Ok(document)
}

/// Adds a document to others. The error is a refused growth.
fn add_document(documents: &mut Vec<Document>, document: Document) -> Result<(), AllocError>
    ensures { OnOk result (contents documents.new ≡ contents documents.old ++ content document ∷ []) }
{
    documents.push(document)?;
    Ok(())
}

/// The documents of groups, in their order. The error is that of the first one that isn't calculated, or `Memory`.
fn documents_of(
    alloc: Global,
    grouping: &Grouping,
    groups: &[KeyGroup<'_>],
) -> Result<Vec<Document>, UpdateError>
    ensures { (ds : Documents) → AllByRecursion (IsGroup grouping.now.key ds) groups.now
        → ReturnsDocuments result (groups_of grouping.now ds (map key_of groups.now)) }
{
    let mut documents = Vec::new(alloc);
    for group in groups {
        let document = document_of(alloc, grouping.fields.as_slice(), group)?;
        add_document(&mut documents, document)?;
    }
    Ok(documents)
}
