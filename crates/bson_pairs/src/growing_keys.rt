//! Keys to which many are added.
ghost use Rattle.std.specs.Prelude.{◌≡◌, ◌<◌, None, ◌∷◌, ◌++◌, [], length, bytes_eq, string_bytes, IfSome, IfOk, OnOk, OnErr};
ghost use Rattle.std.specs.List.{IsDistinct, position};
ghost use Rattle.bson_pairs.specs.Keyed.{key_bytes};
ghost use Rattle.bson_pairs.specs.Index.{index_of, is_key, seen_places};

use crate::keys::Keys;
use std::alloc::{AllocError, Global};
use std::collections::BTreeMap;
use std::marker::Model;

/// Distinct texts in their order, with a tree of their places in which a new one moves few others. Contracts see the
/// list of the texts.
#[derive(Drop)]
pub(crate) struct GrowingKeys {
    texts: Vec<String>,
    places: BTreeMap<String, usize>,
    // Empty, with room for the place of each text, so that the end takes no memory.
    order: Vec<usize>,
}

impl Model for GrowingKeys {
    ghost use Rattle.std.specs.Prelude.{◌≡◌, ◌≤◌, [], List, String, bytes_eq, length};
    ghost use Rattle.std.specs.List.{IsDistinct};
    ghost use Rattle.std.specs.Vec.{vec_capacity};
    ghost use Rattle.std.specs.declared.alloc.Global.{Global};
    ghost use Rattle.bson_pairs.specs.Keyed.{key_bytes};
    ghost use Rattle.bson_pairs.specs.Index.{index_of, seen_places};

    ghost Value = { List (String Global) };

    ghost view = { λ k. k.texts.items };

    ghost invariant = { λ k. (seen_places k.places.entries ≡ index_of (key_bytes k.texts.items)) × IsDistinct bytes_eq (key_bytes k.texts.items)
        × (k.order.items ≡ []) × (length k.texts.items ≤ vec_capacity k.order) };
}

/// The places of these texts, in a tree.
pub(crate) fn tree_of(
    alloc: Global,
    texts: &[String],
) -> Result<BTreeMap<String, usize>, AllocError>
    requires { IsDistinct bytes_eq (key_bytes texts.now) }
    ensures { IfOk result (λ m. seen_places m.entries ≡ index_of (key_bytes texts.now)) }
{
    let mut tree = BTreeMap::new(alloc);
    for (place, text) in texts.iter().enumerate() {
        tree.insert(text.clone()?, place)?;
    }
    Ok(tree)
}

impl GrowingKeys {
    /// The same keys, with their tree.
    pub(crate) fn new(keys: Keys, places: BTreeMap<String, usize>) -> GrowingKeys
        requires { seen_places places.entries ≡ index_of (key_bytes keys) }
        ensures { result ≡ keys }
    {
        let (texts, mut order) = keys.into_parts();
        order.clear();
        GrowingKeys {
            texts,
            places,
            order,
        }
    }

    /// The place of a text.
    pub(crate) fn get_index_of(&self, key: &str) -> Option<usize>
        ensures index { result ≡ position (is_key key.now) self.now }
        ensures within { IfSome result (λ i. i < length self.now) }
    {
        self.places.get(key).copied()
    }

    /// Puts a text last that isn't there. If it fails nothing has changed.
    pub(crate) fn push(&mut self, key: String) -> Result<(), AllocError>
        requires { None ≡ position (is_key (string_bytes key)) self.old }
        ensures ok { OnOk result (self.new ≡ self.old ++ key ∷ []) }
        ensures err { OnErr result (self.new ≡ self.old) }
    {
        let place = self.texts.len();
        self.texts.reserve(1)?;
        self.order.reserve(place + 1)?;
        self.places.insert(key.clone()?, place)?;
        self.texts.push(key)?;
        Ok(())
    }

    /// The same keys with their index. It takes no memory.
    pub(crate) fn finish(self) -> Keys
        ensures { result ≡ self }
    {
        let GrowingKeys {
            texts,
            places,
            mut order,
        } = self;
        for place in places.values() {
            order.push_reserved(*place);
        }
        Keys::from_parts(texts, order)
    }
}
