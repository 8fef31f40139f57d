//! Databases and collections that commands name.

ghost use Rattle.std.specs.Prelude.{◌≡◌, IfOk, Some, codes, string_bytes};
ghost use Rattle.bson_base.specs.Value.{look_up, scalar, string};
ghost use Rattle.bson_model.specs.View.{content};
ghost use Rattle.fallowtime_statements.specs.Plans.{IsOf, IsSpace, namespace};

use crate::{Code, Fault, refuse, text_in};
use bson_model::Document;
use std::alloc::{AllocError, Global};

/// Refuses a command over another database. `InvalidNamespace` if it is one, `BadValue` if its name is no text.
pub(crate) fn of_database(alloc: Global, database: &str, command: &Document) -> Result<(), Fault>
    ensures { IfOk result (λ _. look_up (codes "$db") (content command.now) ≡ Some (scalar (string database.now))) }
{
    if text_in(alloc, command, "$db")? != database {
        return Err(refuse(alloc, Code::InvalidNamespace, database));
    }
    Ok(())
}

/// The collection that a command is of. `InvalidNamespace` if it is one of another database or of none, `BadValue` if
/// its name is no text.
pub(crate) fn collection_of<'d>(
    alloc: Global,
    database: &str,
    command: &'d Document,
    key: &str,
) -> Result<&'d str, Fault>
    ensures { IfOk result (λ n. IsOf database.now key.now (content command.now) n.now) }
{
    if text_in(alloc, command, "$db")? != database {
        return Err(refuse(alloc, Code::InvalidNamespace, database));
    }
    text_in(alloc, command, key)
}

/// The name of a collection behind that of its database.
pub(crate) fn namespace(alloc: Global, database: &str, name: &str) -> Result<String, AllocError>
    ensures { IfOk result (λ t. string_bytes t ≡ namespace database.now name.now) }
{
    let mut text = String::from_str(alloc, database)?;
    text.push_str(".")?;
    text.push_str(name)?;
    Ok(text)
}

/// The collection that a text names behind this database. `InvalidNamespace` if it names none of it.
fn behind<'t>(alloc: Global, database: &str, text: &'t str) -> Result<&'t str, Fault>
    ensures { IfOk result (λ n. text.now ≡ namespace database.now n.now) }
{
    let Some((_, name)) = text.split_once('.') else {
        return Err(refuse(alloc, Code::InvalidNamespace, text));
    };
    let whole = namespace(alloc, database, name)?;
    if whole.as_str() != text {
        return Err(refuse(alloc, Code::InvalidNamespace, text));
    }
    Ok(name)
}

/// The collection that the text under a key names behind this database. `BadValue` if there is no text, or as of
/// `behind`.
pub(crate) fn space_in<'d>(
    alloc: Global,
    database: &str,
    command: &'d Document,
    key: &str,
) -> Result<&'d str, Fault>
    ensures { IfOk result (λ n. IsSpace database.now (look_up key.now (content command.now)) n.now) }
{
    let text = text_in(alloc, command, key)?;
    behind(alloc, database, text)
}
