//! One row changed in the pages, and the change made durable.

ghost use Rattle.std.specs.Prelude.{◌≡◌, ◌≢◌, ◌⊎◌, None, find, List, ℕ, Err, IfErr, IfSome, IsTrue, OnOk};
ghost use Rattle.sqlite_btree.specs.Cut.{IsIn};
ghost use Rattle.sqlite_wal.specs.State.{StaysOrFails};
ghost use Rattle.sqlite_pool.specs.Stored.{Keeps};
ghost use Rattle.sqlite.specs.Effect.{Database};
ghost use Rattle.store_table.specs.Rows.{TableRow, is_row_named, with_body_at, without_place};
ghost use Rattle.store_table.specs.Moves.{IsRoomFor, with_row};
ghost use Rattle.store_table.specs.declared.fault.Fault.TheVariants.{Places};
ghost use Rattle.store_table.specs.Store.{row_at};
ghost use Rattle.store_table.specs.Writer.{Leaves, LeavesEither, Serves, state_of};
ghost use Rattle.fallowtime_front.specs.Changes.{Committed};

use sqlite_disk::Disk;
use store_table::Fault;
use store_table::pages::Writer;

/// Makes what was changed durable.
///
/// Refused by Memory and Database.
fn settle<D: Disk + Drop>(writer: &mut Writer<D>) -> Result<(), Fault>
    ensures done { IsTrue (state_of writer.new).is_clean → (first : Database) (docs : List TableRow)
        → Serves first writer.old docs
        → OnOk result (Leaves first writer.new docs) }
    ensures crash { (first : Database) (docs : List TableRow) (made : List TableRow)
        → Leaves first writer.old docs → Serves first writer.old made
        → LeavesEither first writer.new docs made }
    ensures stays { StaysOrFails (state_of writer.old) (state_of writer.new) }
    ensures faults { IfErr result (λ e. e ≢ Places) }
{
    writer.commit()
}

/// Puts a row behind all others, if none has its collection and key. None if it isn't put in, but for want of places,
/// and then nothing of it is durable.
///
/// Refused by Places, and by Memory and Database if it is put in and that can't be made durable.
pub(crate) fn add<D: Disk + Drop>(
    writer: &mut Writer<D>,
    coll: &[u8],
    key: &[u8],
    body: &[u8],
) -> Option<Result<(), Fault>>
    ensures commits { IfSome result (λ r. IsTrue (state_of writer.new).is_clean
        → (first : Database) (docs : List TableRow)
        → Serves first writer.old docs
        → find (is_row_named coll.now key.now) docs ≡ None
        → Committed first writer.old writer.new r docs (with_row coll.now key.now body.now docs)) }
    ensures room { IfSome result (λ r. IsTrue (state_of writer.new).is_clean
        → (first : Database) (docs : List TableRow)
        → Serves first writer.old docs
        → (IsRoomFor 1 docs × IfErr r (λ e. e ≢ Places)) ⊎ ((r ≡ Err Places) × ¬ IsRoomFor 1 docs)) }
    ensures stays { StaysOrFails (state_of writer.old) (state_of writer.new) }
    ensures untold { result ≡ None → Keeps (state_of writer.old) (state_of writer.new) }
{
    match writer.append(coll, key, body) {
        Ok(()) => Some(settle(writer)),
        Err(Fault::Places) => Some(Err(Fault::Places)),
        Err(_) => None,
    }
}

/// Puts another body in the place of that of the row with this place, collection and key. None if that isn't done, and
/// then nothing of it is durable.
///
/// Refused by Memory and Database if it is done and can't be made durable.
pub(crate) fn rewrite<D: Disk + Drop>(
    writer: &mut Writer<D>,
    place: i64,
    coll: &[u8],
    key: &[u8],
    body: &[u8],
) -> Option<Result<(), Fault>>
    ensures commits { IfSome result (λ r. IsTrue (state_of writer.new).is_clean
        → (first : Database) (docs : List TableRow) (was : List ℕ)
        → Serves first writer.old docs
        → IsIn (row_at place coll.now key.now was) docs
        → Committed first writer.old writer.new r docs (with_body_at place body.now docs)) }
    ensures faults { IfSome result (λ r. IfErr r (λ e. e ≢ Places)) }
    ensures stays { StaysOrFails (state_of writer.old) (state_of writer.new) }
    ensures untold { result ≡ None → Keeps (state_of writer.old) (state_of writer.new) }
{
    match writer.rewrite(place, coll, key, body) {
        Ok(()) => Some(settle(writer)),
        Err(_) => None,
    }
}

/// Takes the row with this place, collection and key away. None if that isn't done, and then nothing of it is durable.
///
/// Refused by Memory and Database if it is done and can't be made durable.
pub(crate) fn take_away<D: Disk + Drop>(
    writer: &mut Writer<D>,
    place: i64,
    coll: &[u8],
    key: &[u8],
) -> Option<Result<(), Fault>>
    ensures commits { IfSome result (λ r. IsTrue (state_of writer.new).is_clean
        → (first : Database) (docs : List TableRow) (was : List ℕ)
        → Serves first writer.old docs
        → IsIn (row_at place coll.now key.now was) docs
        → Committed first writer.old writer.new r docs (without_place place docs)) }
    ensures faults { IfSome result (λ r. IfErr r (λ e. e ≢ Places)) }
    ensures stays { StaysOrFails (state_of writer.old) (state_of writer.new) }
    ensures untold { result ≡ None → Keeps (state_of writer.old) (state_of writer.new) }
{
    match writer.remove(place, coll, key) {
        Ok(()) => Some(settle(writer)),
        Err(_) => None,
    }
}
