//! Which fields of a document stay.

ghost use Rattle.std.specs.Prelude.{◌≡◌, IfOk};
ghost use Rattle.bson_base.specs.Value.{Members};
ghost use Rattle.store_pipeline.specs.Fields.{fields_alone as alone, kept_fields as named_and_id, other_fields as others};
ghost use Rattle.store_pipeline.specs.Views.{left_of, paths_of};

use crate::sorted::paths::begins;
use std::alloc::{AllocError, Global};

/// Which fields of a document stay: those that the paths name, or all others.
#[derive(Debug, PartialEq, Drop)]
pub struct Fields {
    pub kept: bool,
    pub paths: Vec<Vec<String>>,
}

/// The fields that the paths name, and the `_id`, whole if no path begins there. The error is a refused growth.
pub fn kept_fields(alloc: Global, paths: Vec<Vec<String>>) -> Result<Fields, AllocError>
    ensures { IfOk result (λ fields. (d : Members) → left_of fields d ≡ named_and_id (paths_of paths.items) d) }
{
    let mut paths = paths;
    if !begins("_id", paths.as_slice()) {
        let mut path = Vec::new(alloc);
        path.push(String::from_str(alloc, "_id")?)?;
        paths.insert(0, path)?;
    }
    Ok(Fields { kept: true, paths })
}

/// The fields that the paths name, and no others: the `_id` only if a path begins there.
pub fn fields_alone(paths: Vec<Vec<String>>) -> Fields
    ensures { (d : Members) → left_of result d ≡ alone (paths_of paths.items) d }
{
    Fields { kept: true, paths }
}

/// The fields that the paths don't name.
pub fn other_fields(paths: Vec<Vec<String>>) -> Fields
    ensures { (d : Members) → left_of result d ≡ others (paths_of paths.items) d }
{
    Fields { kept: false, paths }
}
