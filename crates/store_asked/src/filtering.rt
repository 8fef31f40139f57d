//! Questions as filters.

ghost use Rattle.std.specs.Prelude.{map, IfOk};
ghost use Rattle.store_question.specs.Filters.{filter_of, path_of};
ghost use Rattle.store_question.specs.Asked.{Asked, Askeds, at as Within, whole as WholeAt};
ghost use Rattle.store_question.specs.Reads.{ReadEach, Reads, form_of, forms_of};
ghost use Rattle.store_asked.specs.Front.{Meets, Pairwise, Passes};

use crate::equal::{arrays, compared, either, everything, of_kind, there};
use std::alloc::{AllocError, Global};
use store_question::{Filter, Question};

/// A filter that selects each document which answers the question, and maybe others: all of them, if nothing better is
/// known. What is asked of a path by equality is served as an equality at that path, of a number for each kind that can
/// hold it; a document whose way along the path meets an array, or ends at a decimal, is always selected, so an index
/// has to know these. The error is a refused growth.
#[cycle(front)]
pub fn prefilter(alloc: Global, question: &Question) -> Result<Filter, AllocError>
    ensures { IfOk result (λ f. (t : Asked) → Reads (form_of question.now) t → Passes t (filter_of f)) }
{
    match question {
        Question::At(path, inner) => along(alloc, path.as_slice(), inner),
        Question::Whole(path, inner) => along(alloc, path.as_slice(), inner),
        Question::All(list) => {
            let filters = each(alloc, list.as_slice())?;
            Ok(Filter::And(filters))
        }
        Question::Any(list) => {
            let filters = each(alloc, list.as_slice())?;
            Ok(Filter::Or(filters))
        }
        _ => Ok(everything(alloc)),
    }
}

/// The filter in front of each question, in the order of the questions. The error is a refused growth.
#[cycle(front)]
fn each(alloc: Global, list: &[Question]) -> Result<Vec<Filter>, AllocError>
    ensures { IfOk result (λ fs. (ts : Askeds) → ReadEach (forms_of (map form_of list.now)) ts
        → Pairwise Passes ts (map filter_of fs.items)) }
{
    let mut filters = Vec::new(alloc);
    for question in list {
        let filter = prefilter(alloc, question)?;
        filters.push(filter)?;
    }
    Ok(filters)
}

/// In front of what is asked of a path: it leads to what answers, or meets an array.
fn along(alloc: Global, path: &[String], inner: &Question) -> Result<Filter, AllocError>
    ensures opened { IfOk result (λ f. (t : Asked) → Reads (form_of inner.now) t
        → Passes (Within (path_of path.now) t) (filter_of f)) }
    ensures taken_whole { IfOk result (λ f. (t : Asked) → Reads (form_of inner.now) t
        → Passes (WholeAt (path_of path.now) t) (filter_of f)) }
{
    let here = at_place(alloc, path, inner)?;
    let arrays = arrays(alloc, path)?;
    either(alloc, here, Filter::Or(arrays))
}

/// In front of what is asked of the one value to which a filter's path leads.
#[cycle(place)]
fn at_place(alloc: Global, path: &[String], question: &Question) -> Result<Filter, AllocError>
    ensures { IfOk result (λ f. (t : Asked) → Reads (form_of question.now) t
        → Meets (path_of path.now) t (filter_of f)) }
{
    match question {
        Question::Compare(comparison, value) => {
            compared(alloc, path, *comparison, value.as_raw_bson_ref())
        }
        Question::Kind(kind) => of_kind(alloc, path, *kind),
        Question::Exists => there(alloc, path),
        Question::All(list) => {
            let filters = each_at(alloc, path, list.as_slice())?;
            Ok(Filter::And(filters))
        }
        Question::Any(list) => {
            let filters = each_at(alloc, path, list.as_slice())?;
            Ok(Filter::Or(filters))
        }
        _ => Ok(everything(alloc)),
    }
}

/// The same of what is asked of the one value at the path.
#[cycle(place)]
fn each_at(alloc: Global, path: &[String], list: &[Question]) -> Result<Vec<Filter>, AllocError>
    ensures { IfOk result (λ fs. (ts : Askeds) → ReadEach (forms_of (map form_of list.now)) ts
        → Pairwise (Meets (path_of path.now)) ts (map filter_of fs.items)) }
{
    let mut filters = Vec::new(alloc);
    for question in list {
        let filter = at_place(alloc, path, question)?;
        filters.push(filter)?;
    }
    Ok(filters)
}
