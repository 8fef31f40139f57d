//! The pages that files stand for, and where the table begins in them.

ghost use Rattle.std.specs.Prelude.{IfOk, IfSome, IsTrue};
ghost use Rattle.sqlite_wal.specs.Files.{seen_image};
ghost use Rattle.store_table.specs.Snapshot.{is_clean_of, pages_of, size_of};
ghost use Rattle.store_table.specs.Bridge.{ShowsRows};

use crate::pages::{Roots, Snapshot, find_roots};
use sqlite_btree::Scratch;
use sqlite_disk::{Disk, Files};
use sqlite_pages::Error;
use std::alloc::Global;

/// The pages that two files stand for, and where the table of documents and its index begin in them. None if pages alone
/// don't tell: if the schema has anything else, or the header says that pages end in reserved bytes.
///
/// Refused by Io and OutOfMemory; by Corrupt if the files don't name a size, or what is read is no tree; and by Full if
/// there are too many pages.
pub fn open_rows<D: Disk + Drop>(
    alloc: Global,
    files: Files<D>,
) -> Result<Option<(Snapshot<D>, Roots)>, Error>
    requires log_usable { IsTrue (D.Disk.is_usable files.log) }
    requires db_usable { IsTrue (D.Disk.is_usable files.db) }
    ensures { IfOk result (λ told. IfSome told (λ r. IsTrue (is_clean_of r.0)
        → ShowsRows (seen_image D.Disk files.log files.db) (size_of r.0) (pages_of r.0) r.1.table r.1.index)) }
{
    let mut snapshot = Snapshot::open(alloc, files)?;
    let mut scratch = Scratch::new(alloc);
    match find_roots(alloc, &mut snapshot, &mut scratch)? {
        Some(roots) => Ok(Some((snapshot, roots))),
        None => Ok(None),
    }
}
