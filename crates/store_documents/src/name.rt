//! Names of collections.

ghost use Rattle.std.specs.Prelude.{◌≡◌, ◌↔◌, IsSome, IsTrue, IfSome};
ghost use Rattle.store_model.specs.State.{IsName};
ghost use Rattle.store_documents.specs.Propositions.{name_is_one};

use bson_bytes::put::has_no_zero;

/// The name of a collection: a text that isn't empty and holds no byte 00.
#[derive(Clone, Copy, Debug)]
pub struct Name<'a> {
    text: &'a str,
    ghost named: { IsName text.now } by { name_is_one text.now },
}

impl<'a> Name<'a> {
    ghost use Rattle.store_documents.specs.Names.{name_bytes};

    /// The name that a text is, if it is one.
    pub fn new(text: &'a str) -> Option<Name<'a>>
        ensures some { IsSome result ↔ (IsName text.now) }
        ensures text { IfSome result (λ n. name_bytes n ≡ text.now) }
    {
        if is_name(text.as_bytes()) {
            Some(Name { text })
        } else {
            None
        }
    }

    /// The text of the name.
    pub fn as_str(&self) -> &'a str
        ensures text { result.now ≡ name_bytes self.now }
        ensures named { IsName result.now }
    {
        self.text
    }
}

/// Whether a collection can have the bytes as its name.
fn is_name(bytes: &[u8]) -> bool
    ensures { IsTrue result ↔ (IsName bytes.now) }
{
    !bytes.is_empty() && has_no_zero(bytes)
}
