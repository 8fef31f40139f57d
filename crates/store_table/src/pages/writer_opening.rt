//! The pages of two files, opened without reading all of them.

ghost use Rattle.std.specs.Prelude.{◌≡◌, false, IsTrue, IfErr, IfOk, IfSome};
ghost use Rattle.sqlite_wal.specs.Files.{seen_image};
ghost use Rattle.sqlite_wal.specs.PageSize.{IsPageSize, bytes_of};
ghost use Rattle.sqlite_wal.specs.Reads.{AreClean, OnlyReads};
ghost use Rattle.sqlite_pool.specs.Pool.{files as files_of, state};
ghost use Rattle.sqlite_pool.specs.Stored.{used_size};
ghost use Rattle.sqlite_pages.specs.Calls.{IsClean, Continues};
ghost use Rattle.sqlite.specs.Files.{BeginsWell, IsNothing, image_of};
ghost use Rattle.store_table.specs.Frames.{NamesSize};
ghost use Rattle.store_table.specs.Roots.{ListsTwo};
ghost use Rattle.store_table.specs.GivenBack.{AreGivenBack, StandAlike};
ghost use Rattle.store_table.specs.Store.{IsOpenOn};

use crate::pages::snapshot::page_size;
use crate::pages::{Roots, find_roots};
use sqlite_btree::Scratch;
use sqlite_disk::{Disk, Files};
use sqlite_pager::{Options, Pager};
use sqlite_pages::Pages;
use sqlite_pool::Pool;
use sqlite_wal::{PageSize, probe_first_page};
use std::alloc::Global;

/// Whether the first page that two files stand for begins as one of a database. Where a database is still to be made, by
/// an opening that was killed, it doesn't, and what tells so is in the log, over which a recovery writes.
fn begins_well<D: Disk>(alloc: Global, files: &mut Files<D>, size: PageSize) -> bool
    requires log_usable { IsTrue (D.Disk.is_usable files.old.log) }
    requires db_usable { IsTrue (D.Disk.is_usable files.old.db) }
    ensures log { OnlyReads D.Disk files.old.log files.new.log }
    ensures db { OnlyReads D.Disk files.old.db files.new.db }
    ensures begins { IsTrue result → AreClean D.Disk files.new.log files.new.db → BeginsWell (bytes_of size) (image_of D.Disk files.old) }
{
    let probed = probe_first_page(alloc, files, size);
    match probed {
        Ok(head) => head.0 == b'S',
        Err(_) => false,
    }
}

/// A pool over two files, of which nothing was read. Without memory the files are given back.
fn unread<D: Disk>(
    alloc: Global,
    files: Files<D>,
    size: PageSize,
    options: Options,
) -> Result<Pool<D>, Files<D>>
    ensures back { IfErr result (λ left. left ≡ files) }
    ensures files { IfOk result (λ it. files_of it ≡ (files.log, files.db)) }
    ensures size { IfOk result (λ it. (state it).page_size ≡ used_size (bytes_of size) false) }
{
    let pager = match Pager::new(alloc, files, size, options) {
        Ok(pager) => pager,
        Err(failed) => return Err(failed.value),
    };
    match Pool::new(alloc, pager, false) {
        Ok(pool) => Ok(pool),
        Err(failed) => Err(failed.value.close()),
    }
}

/// The pages that two files stand for, of which the header and the free list were read. A refusal gives the files back.
pub(crate) fn recover<D: Disk + Drop>(
    alloc: Global,
    mut files: Files<D>,
    options: Options,
) -> Result<Pool<D>, Files<D>>
    requires log_usable { IsTrue (D.Disk.is_usable files.log) }
    requires db_usable { IsTrue (D.Disk.is_usable files.db) }
    ensures open { IfOk result (λ it. IsTrue (state it).is_clean → IsOpenOn (seen_image D.Disk files.log files.db) it) }
    ensures something { IfOk result (λ it. IsTrue (state it).is_clean → ¬ IsNothing (image_of D.Disk files)) }
    ensures alike { IfOk result (λ it. StandAlike D.Disk files (state it).may_leave) }
    ensures back { IfErr result (λ left. AreClean D.Disk left.log left.db → AreGivenBack D.Disk files left) }
{
    let Some(size) = page_size(&mut files) else {
        return Err(files);
    };
    if !begins_well(alloc, &mut files, size) {
        return Err(files);
    }
    let mut pool = match unread(alloc, files, size, options) {
        Ok(pool) => pool,
        Err(files) => return Err(files),
    };
    match pool.recover(false) {
        Ok(()) => Ok(pool),
        Err(_) => Err(pool.close()),
    }
}

/// Where the store's table and its index begin, if these two are all that the pages have, and can be read.
pub(crate) fn own_roots<P: Pages>(
    alloc: Global,
    pages: &mut P,
    scratch: &mut Scratch,
) -> Option<Roots>
    ensures found { IfSome result (λ roots. IsClean P.Pages pages.new → ListsTwo (P.Pages.size pages.old) (P.Pages.pages pages.old) roots.table roots.index) }
    ensures kept { Continues P.Pages pages.old pages.new }
    ensures pages { P.Pages.pages pages.new ≡ P.Pages.pages pages.old }
{
    match find_roots(alloc, pages, scratch) {
        Ok(found) => found,
        Err(_) => None,
    }
}
