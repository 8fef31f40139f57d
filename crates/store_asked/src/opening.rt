//! The store whose table some files hold.

ghost use Rattle.std.specs.Prelude.{IfOk, IfSome, IsTrue};
ghost use Rattle.sqlite_wal.specs.Files.{seen_image};
ghost use Rattle.store_table.specs.Snapshot.{is_clean_of, pages_of, size_of};
ghost use Rattle.store_table.specs.Bridge.{ShowsRows};

use crate::store::ReadOnlyStore;
use sqlite_btree::Scratch;
use sqlite_disk::{Disk, Files};
use sqlite_pages::Error;
use std::alloc::Global;
use store_table::pages::{Snapshot, open_rows};

/// The store that two files hold, if its table is alone in their database, as a store makes it; none if pages alone
/// don't tell. No row is looked at.
///
/// Refused as `open_rows` is.
pub fn open_files<D: Disk + Drop>(
    alloc: Global,
    files: Files<D>,
) -> Result<Option<ReadOnlyStore<Snapshot<D>>>, Error>
    requires log_usable { IsTrue (D.Disk.is_usable files.log) }
    requires db_usable { IsTrue (D.Disk.is_usable files.db) }
    ensures { IfOk result (λ told. IfSome told (λ s. IsTrue (is_clean_of s.pages)
        → ShowsRows (seen_image D.Disk files.log files.db) (size_of s.pages) (pages_of s.pages)
        s.roots.table s.roots.index)) }
{
    match open_rows(alloc, files)? {
        Some((pages, roots)) => Ok(Some(ReadOnlyStore {
            pages,
            roots,
            scratch: Scratch::new(alloc),
            alloc,
        })),
        None => Ok(None),
    }
}
