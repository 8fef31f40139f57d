//! The filter and the ranges by which a store is read for a question.

ghost use Rattle.store_question.specs.Filters.{filter_of};
ghost use Rattle.store_question.specs.Reads.{form_of};
ghost use Rattle.store_asked.specs.Fronts.{Bounds, Fronts};

use crate::{prefilter, ranges_of};
use bson_store::indexed::Range;
use bson_store::{Store, select_all};
use sqlite::Alter;
use std::alloc::Global;
use store_question::{Filter, Question};

/// Whether the collection `name` has an index on a path that the question names. If it has none, no index serves the
/// question, and a filter in front of it would only cost time.
#[cycle(indexed)]
fn is_indexed<S: Alter + Drop>(store: &Store<S>, name: &str, question: &Question) -> bool {
    match question {
        Question::At(path, _) => store.has_index(name, path.as_slice()),
        Question::Whole(path, _) => store.has_index(name, path.as_slice()),
        Question::All(list) => has_indexed(store, name, list.as_slice()),
        Question::Any(list) => has_indexed(store, name, list.as_slice()),
        _ => false,
    }
}

/// Whether the collection `name` has an index on a path that one of the questions names.
#[cycle(indexed)]
fn has_indexed<S: Alter + Drop>(store: &Store<S>, name: &str, list: &[Question]) -> bool {
    for question in list {
        if is_indexed(store, name, question) {
            return true;
        }
    }
    false
}

/// A filter that selects each document which answers the question, so that an index can serve it: that of everything, if
/// no index is on a path of the question, or if there is no memory for a better one.
pub(crate) fn filter_in_front<S: Alter + Drop>(
    alloc: Global,
    store: &Store<S>,
    name: &str,
    question: &Question,
) -> Filter
    ensures { Fronts (form_of question.now) (filter_of result) }
{
    if !is_indexed(store, name, question) {
        return select_all(alloc);
    }
    match prefilter(alloc, question) {
        Ok(filter) => filter,
        Err(_) => select_all(alloc),
    }
}

/// Ranges in each of which each document lies that answers the question, so that an index can serve them: none, if no
/// index is on a path of the question, or if there is no memory for them.
pub(crate) fn ranges_in_front<S: Alter + Drop>(
    alloc: Global,
    store: &Store<S>,
    name: &str,
    question: &Question,
) -> Vec<Range>
    ensures { Bounds (form_of question.now) result.items }
{
    if !is_indexed(store, name, question) {
        return Vec::new(alloc);
    }
    match ranges_of(alloc, question) {
        Ok(ranges) => ranges,
        Err(_) => Vec::new(alloc),
    }
}
