//! The name of the database that a file is.

ghost use Rattle.std.specs.Prelude.{◌≡◌};
ghost use Rattle.fallowtime_messages.specs.Databases.{database_name, file_name, stem};

use std::path::Path;

/// What a database is called whose file has no name before a dot.
const OTHERWISE: &str = "test";

/// The name of a file, without its folders; empty if the path ends in none.
fn file_name(path: &str) -> &str
    ensures { result.now ≡ file_name path.now }
{
    match Path::new(path).file_name() {
        Some(name) => name,
        None => "",
    }
}

/// What is before the first dot of a name.
fn stem(name: &str) -> &str
    ensures { result.now ≡ stem name.now }
{
    match name.split_once('.') {
        Some((stem, _)) => stem,
        None => name,
    }
}

/// The name of the database that a file is: its own name without folders, up to its first dot, or `test` if nothing is
/// before that.
pub fn database_of(path: &str) -> &str
    ensures { result.now ≡ database_name path.now }
{
    let name = stem(file_name(path));
    if name.is_empty() {
        return OTHERWISE;
    }
    name
}
