//! Whether a filter selects a document.

ghost use Rattle.std.specs.Prelude.{◌↔◌, IsTrue, map};
ghost use Rattle.bson_base.specs.Value.{document as tree};
ghost use Rattle.bson_model.specs.View.{view};
ghost use Rattle.bson_raw.specs.View.{bytes_of};
ghost use Rattle.store_question.specs.Filters.{filter_of, path_of, tests_of};
ghost use Rattle.store_question.specs.Views.{OfWritten};
ghost use Rattle.store_model.specs.Filter.{equals, exists, is_of, Selects, SelectsAll, SelectsAny};

use crate::filter::Filter;
use crate::paths::look_up;
use bson_base::ElementType;
use bson_meaning::same_as_raw;
use bson_model::Bson;
use bson_raw::RawDocument;

/// Whether a filter selects the document of these bytes. Takes no memory, and has a result for any bytes.
#[cycle(filters)]
pub fn selects(document: RawDocument<'_>, filter: &Filter) -> bool
    ensures { OfWritten (bytes_of document.entry) (λ d. IsTrue result ↔ Selects (filter_of filter.now) (tree d)) }
{
    match filter {
        Filter::Eq(path, value) => equals_at(document, path, value),
        Filter::Exists(path) => exists_at(document, path),
        Filter::Kind(path, kind) => has_kind_at(document, path, *kind),
        Filter::Not(filter) => !selects(document, filter),
        Filter::And(filters) => selects_all(document, filters),
        Filter::Or(filters) => selects_any(document, filters),
    }
}

/// Whether each of the filters selects the document. An empty list selects every document.
#[cycle(filters)]
fn selects_all(document: RawDocument<'_>, filters: &[Filter]) -> bool
    ensures { OfWritten (bytes_of document.entry) (λ d. IsTrue result ↔ SelectsAll (tests_of (map filter_of filters.now)) (tree d)) }
{
    for filter in filters {
        if !selects(document, filter) {
            return false;
        }
    }
    true
}

/// Whether one of the filters selects the document. An empty list selects none.
#[cycle(filters)]
fn selects_any(document: RawDocument<'_>, filters: &[Filter]) -> bool
    ensures { OfWritten (bytes_of document.entry) (λ d. IsTrue result ↔ SelectsAny (tests_of (map filter_of filters.now)) (tree d)) }
{
    for filter in filters {
        if selects(document, filter) {
            return true;
        }
    }
    false
}

/// Whether the value at the path means the same as this one.
fn equals_at(document: RawDocument<'_>, path: &[String], value: &Bson) -> bool
    ensures { OfWritten (bytes_of document.entry) (λ d. IsTrue result ↔ Selects (equals (path_of path.now) (view value.now)) (tree d)) }
{
    match look_up(document, path).0 {
        Some(found) => same_as_raw(found, value),
        None => false,
    }
}

/// Whether there is a value at the path.
fn exists_at(document: RawDocument<'_>, path: &[String]) -> bool
    ensures { OfWritten (bytes_of document.entry) (λ d. IsTrue result ↔ Selects (exists (path_of path.now)) (tree d)) }
{
    look_up(document, path).0.is_some()
}

/// Whether there is a value of the kind at the path.
fn has_kind_at(document: RawDocument<'_>, path: &[String], kind: ElementType) -> bool
    ensures { OfWritten (bytes_of document.entry) (λ d. IsTrue result ↔ Selects (is_of (path_of path.now) kind) (tree d)) }
{
    match look_up(document, path).0 {
        Some(found) => found.element_type() == kind,
        None => false,
    }
}
