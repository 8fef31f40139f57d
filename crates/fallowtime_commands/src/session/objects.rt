//! The objects of answers.

ghost use Rattle.std.specs.Prelude.{◌≡◌, ◌++◌, ◌∷◌, [], IfOk, OnOk, codes, decimal};
ghost use Rattle.bson_json.specs.Prints.{Adds};
ghost use Rattle.json.specs.Print.{print};
ghost use Rattle.json.specs.Token.{end_object, key as key_token, number as number_token};
ghost use Rattle.fallowtime_commands.specs.Objects.{IsWritable, begun, id_tree};

use json::{Value, Writer};
use std::alloc::{AllocError, Global};

/// A writer in which the object of an answer is begun, with the id of the question, if it has one.
pub(crate) fn begin(alloc: Global, id: Option<&Value<'_>>) -> Result<Writer, AllocError>
    requires { IsWritable id }
    ensures before { IfOk result (λ out. out.before ≡ []) }
    ensures tokens { IfOk result (λ out. out.tokens ≡ begun (id_tree id.entry)) }
{
    let mut out = Writer::new(Vec::new(alloc));
    out.begin_object()?;
    if let Some(id) = id {
        out.key("id")?;
        out.value(id)?;
    }
    Ok(out)
}

/// The line of an object whose members were written.
pub(crate) fn end(mut out: Writer) -> Result<Vec<u8>, AllocError>
    requires { out.before ≡ [] }
    ensures { IfOk result (λ line. line.items ≡ print (out.tokens ++ end_object ∷ []) ++ 10 ∷ []) }
{
    out.end_object()?;
    let mut line = out.into_inner();
    line.push(b'\n')?;
    Ok(line)
}

/// The line of an object whose last key was written, with a text of JSON under it.
pub(crate) fn end_with(out: Writer, text: &str) -> Result<Vec<u8>, AllocError>
    requires { out.before ≡ [] }
    ensures { IfOk result (λ line. line.items ≡ print out.tokens ++ (text.now ++ codes "}\n")) }
{
    let mut line = out.into_inner();
    line.extend_from_slice(text.as_bytes())?;
    line.extend_from_slice(b"}\n")?;
    Ok(line)
}

/// A member that is a number.
pub(crate) fn put_number(out: &mut Writer, key: &str, number: u64) -> Result<(), AllocError>
    ensures { OnOk result (Adds (key_token key.now ∷ number_token (decimal number) ∷ []) out.old
        out.new) }
{
    out.key(key)?;
    out.u64(number)
}
