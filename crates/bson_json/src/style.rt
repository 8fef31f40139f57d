//! The two texts that a document has.

ghost use Rattle.std.specs.Prelude.{◌≡◌};

use bson_model::extjson::Mode;

/// Which text of a document is written.
#[derive(Clone, Copy, Debug)]
pub enum Style {
    /// What a store prints: canonical, with the keys of each object ascending by their bytes. No finite double but the
    /// zeros has a text.
    Stored,
    /// With the keys in the order of the document. All doubles have a text.
    Full(Mode),
}

impl Style {
    ghost use Rattle.bson_json.specs.Styles.{mode_of};

    /// The form of the values that are written in either style.
    pub(crate) fn mode(self) -> Mode
        ensures { result ≡ mode_of self }
    {
        match self {
            Style::Stored => Mode::Canonical,
            Style::Full(mode) => mode,
        }
    }
}
