//! Filters.

use bson_base::ElementType;
use bson_model::Bson;

/// A test on documents. A path is a list of keys: a step looks up a key in a document, or the key of a position in an
/// array ("0", "1" and so on), and nowhere else. The empty path is the document itself.
///
/// If there is nothing at the path, `Eq`, `Exists` and `Kind` are false.
#[derive(Debug, PartialEq, Drop)]
pub enum Filter {
    /// The value at the path means the same as this one.
    Eq(Vec<String>, Bson),
    /// There is a value at the path.
    Exists(Vec<String>),
    /// There is a value of this kind at the path.
    Kind(Vec<String>, ElementType),
    /// The filter doesn't select the document.
    Not(Box<Filter>),
    /// All of these select it, also if there are none.
    And(Vec<Filter>),
    /// One of these selects it.
    Or(Vec<Filter>),
}
