//! What an index has the place of a document under: the key of the value at its path, the rank and the part of that
//! value, and that the document is wide.

ghost use Rattle.std.specs.Prelude.{◌≡◌, ◌↔◌, ℕ, ℤ, IfOk, IsTrue};
ghost use Rattle.bson_base.specs.Value.{Members};
ghost use Rattle.bson_bytes.specs.Encode.{encode};
ghost use Rattle.bson_raw.specs.View.{bytes_of};
ghost use Rattle.store_question.specs.Filters.{path_of};
ghost use Rattle.store_question.specs.Views.{OfWritten};
ghost use Rattle.store_model.specs.State.{IsKept};
ghost use Rattle.bson_store.specs.Marks.{AreMarks, IsWide, is_wide_kind, LeadsToWide};
ghost use Rattle.bson_store.specs.Ranked.{AreThese, RankedAt};

use crate::indexed::keys::key_at;
use crate::indexed::parts::part_of;
use bson_base::ElementType;
use bson_order::rank_of;
use bson_raw::RawDocument;
use std::alloc::{AllocError, Global};
use store_question::look_up;

/// The marks of a document on a path.
#[derive(Drop)]
pub struct Marks {
    /// The key of the value at the path, if one is there.
    pub key: Option<Vec<u8>>,
    /// Its rank and its part.
    pub ranked: Option<(u8, i64)>,
    /// Whether the way along the path meets an array or a decimal: such a value can be equal to those of other keys.
    pub wide: bool,
}

/// The marks of a body's document on a path. Bytes that are no document have none.
pub(crate) fn marks_on(alloc: Global, body: &[u8], path: &[String]) -> Result<Marks, AllocError>
    ensures { (d : Members) → IsKept d → body.now ≡ encode d
        → IfOk result (AreMarks d (path_of path.now)) }
{
    let key = key_at(alloc, body, path)?;
    Ok(Marks {
        key,
        ranked: rank_at(body, path),
        wide: is_wide(body, path),
    })
}

/// Whether values of this kind can be equal to values of other keys.
pub(crate) fn is_wide_kind(kind: ElementType) -> bool
    ensures { result ≡ is_wide_kind kind }
{
    match kind {
        ElementType::Array | ElementType::Decimal128 => true,
        _ => false,
    }
}

/// Whether such a value is at a path.
fn leads_to_wide(document: RawDocument<'_>, path: &[String]) -> bool
    ensures { OfWritten (bytes_of document.entry) (λ d. IsTrue result ↔ LeadsToWide d (path_of path.now)) }
{
    match look_up(document, path).0 {
        Some(found) => is_wide_kind(found.element_type()),
        None => false,
    }
}

/// Whether the way along a path meets such a value. In bytes that are no document it meets nothing.
fn is_wide(body: &[u8], path: &[String]) -> bool
    ensures { (d : Members) → IsKept d → body.now ≡ encode d
        → IsTrue result ↔ IsWide d (path_of path.now) }
{
    let Ok(document) = RawDocument::from_bytes(body) else {
        return false;
    };
    for n in 0..path.len() {
        if leads_to_wide(document, &path[..n + 1]) {
            return true;
        }
    }
    false
}

/// The rank and the part of the value at a path, if one is there.
fn rank_in(document: RawDocument<'_>, path: &[String]) -> Option<(u8, i64)>
    ensures { OfWritten (bytes_of document.entry) (λ d. (r : ℕ) (q : ℤ)
        → RankedAt d (path_of path.now) r q ↔ AreThese result r q) }
{
    match look_up(document, path).0 {
        Some(found) => Some((rank_of(found), part_of(found))),
        None => None,
    }
}

/// The same in a body's document. Bytes that are no document have none.
fn rank_at(body: &[u8], path: &[String]) -> Option<(u8, i64)>
    ensures { (d : Members) → IsKept d → body.now ≡ encode d → (r : ℕ) (q : ℤ)
        → RankedAt d (path_of path.now) r q ↔ AreThese result r q }
{
    let Ok(document) = RawDocument::from_bytes(body) else {
        return None;
    };
    rank_in(document, path)
}
