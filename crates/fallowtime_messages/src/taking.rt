//! The find that has a number.

ghost use Rattle.std.specs.Prelude.{◌≡◌, ◌<◌, ◌↔◌, IsTrue, MatchOption, length, map};
ghost use Rattle.std.specs.List.{slice_index_or};
ghost use Rattle.fallowtime_messages.specs.Waiting.{IsGone, IsOf, TakesOut, wait_of};
ghost use Rattle.fallowtime_messages.specs.declared.keeping.Cursor.{Cursor as Waiting};

use crate::keeping::Cursor;

/// Whether a number is that of a find.
fn is_of(cursor: &Cursor, id: i64, space: &str) -> bool
    ensures { IsTrue result ↔ IsOf id space.now (wait_of cursor.now) }
{
    cursor.id == id && cursor.space.as_str() == space
}

/// The place of the find with this number.
fn place_of(cursors: &[Cursor], id: i64, space: &str) -> Option<usize>
    ensures { MatchOption result (IsGone id space.now (map wait_of cursors.now))
        (λ n. (n < length cursors.now) × ((c : Waiting) → IsOf id space.now (wait_of (slice_index_or cursors.now n c)))) }
{
    let mut place = 0usize;
    while place < cursors.len() {
        if is_of(&cursors[place], id, space) {
            return Some(place);
        }
        place += 1;
    }
    None
}

/// Takes out the find with this number.
pub(crate) fn take_out(cursors: &mut Vec<Cursor>, id: i64, space: &str) -> Option<Cursor>
    ensures { MatchOption result
        ((cursors.new ≡ cursors.old) × IsGone id space.now (map wait_of cursors.old.items))
        (λ c. TakesOut id space.now (wait_of c) (map wait_of cursors.old.items) (map wait_of cursors.new.items)) }
{
    match place_of(cursors.as_slice(), id, space) {
        Some(place) => Some(cursors.remove(place)),
        None => None,
    }
}
