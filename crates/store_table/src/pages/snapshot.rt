//! The pages that a database file and its log stand for.

ghost use Rattle.std.specs.Prelude.{◌≡◌, ◌+◌, ◌<◌, ◌≤◌, length, MatchOption, IsTrue, IfOk, IfSome, OnOk, Some};
ghost use Rattle.sqlite_pages.specs.PageMap.{IsUsableSize};
ghost use Rattle.sqlite_wal.specs.Recovery.{AreFramesOf, Recovers, frame_at, page_after, page_count, pages_after};
ghost use Rattle.sqlite_wal.specs.Files.{seen_image};
ghost use Rattle.sqlite_wal.specs.Format.{be32};
ghost use Rattle.sqlite_wal.specs.PageSize.{IsPageSize, bytes_of};
ghost use Rattle.sqlite_wal.specs.Reads.{AreClean, IsClean, OnlyReads};
ghost use Rattle.store_table.specs.Frames.{NamesSize, AreNumbered, HasNoFrame};
ghost use Rattle.sqlite_wal.specs.Index.{IsLatest};

use sqlite_disk::{Disk, Files};
use sqlite_pages::{Error, Pages};
use sqlite_wal::{PageSize, probe_frames, probe_page_size};
use std::alloc::Global;
use std::io;

/// How many bytes the header of a log has.
const LOG_HEADER: usize = 32;

/// How many bytes the header of a frame has.
const FRAME_HEADER: usize = 24;

/// How many frames a log may have.
const MOST_FRAMES: usize = 0xffff_fffe;

/// How many pages are read at most.
const MOST_PAGES: u32 = 1 << 24;

/// The pages of the last commit, one of them in memory. Nothing is written.
#[derive(Drop)]
pub struct Snapshot<D: Disk> {
    files: Files<D>,
    size: usize,
    /// The page of each frame of the log up to the last commit.
    frames: Vec<u32>,
    /// How many pages there are.
    count: u32,
    /// The page that was loaded last, and its number; 0 is none.
    page: Vec<u8>,
    number: u32,
    /// A call failed, and each later one is refused.
    has_failed: bool,
    ghost log_usable: { IsTrue (D.Disk.is_usable files.log) },
    ghost db_usable: { IsTrue (D.Disk.is_usable files.db) },
    ghost sized: { length page.items ≡ size },
    ghost size_ok: { IsUsableSize size },
    ghost few: { length frames.items ≤ 0xffff_fffe },
    ghost numbered: { IsClean D.Disk files.log → AreNumbered size (D.Disk.seen files.log) frames.items },
    ghost counted: { AreClean D.Disk files.log files.db → count ≡ page_count size (D.Disk.seen files.log) (D.Disk.seen files.db) (length frames.items) },
    ghost loaded: { AreClean D.Disk files.log files.db → 0 < number → pages_after size (D.Disk.seen files.log) (D.Disk.seen files.db) (length frames.items) number ≡ Some page.items },
}

/// The last of the frames that has a page.
fn last_frame(frames: &[u32], page: u32) -> Option<usize>
    ensures { MatchOption result (HasNoFrame frames.now page) (IsLatest frames.now page) }
{
    let mut at = frames.len();
    while at > 0 {
        at -= 1;
        if frames[at] == page {
            return Some(at);
        }
    }
    None
}

/// Where a frame begins.
fn frame_offset(size: usize, at: usize) -> usize
    requires { (size ≤ 65536) × (at ≤ 0xffff_fffe) }
    ensures value { result ≡ frame_at size at }
    ensures small { result ≤ 0x2_0000_0000_0000 }
{
    LOG_HEADER + at * (FRAME_HEADER + size)
}

/// Reads a page from the last frame that has it, or else from the file.
fn read_page<D: Disk>(
    files: &mut Files<D>,
    size: usize,
    frames: &[u32],
    page: u32,
    buf: &mut [u8],
) -> io::Result<()>
    requires log_usable { IsTrue (D.Disk.is_usable files.old.log) }
    requires db_usable { IsTrue (D.Disk.is_usable files.old.db) }
    requires sized { length buf.old ≡ size }
    requires size { (0 < size) × (size ≤ 65536) }
    requires few { length frames.now ≤ 0xffff_fffe }
    requires page { 1 ≤ page }
    requires numbered { IsClean D.Disk files.old.log → AreNumbered size (D.Disk.seen files.old.log) frames.now }
    ensures ok { OnOk result (AreClean D.Disk files.new.log files.new.db → page_after size (D.Disk.seen files.old.log) (D.Disk.seen files.old.db) page (length frames.now) ≡ buf.new) }
    ensures counts { D.Disk.faults files.old.log + D.Disk.faults files.old.db ≤ D.Disk.faults files.new.log + D.Disk.faults files.new.db }
    ensures log { OnlyReads D.Disk files.old.log files.new.log }
    ensures db { OnlyReads D.Disk files.old.db files.new.db }
{
    match last_frame(frames, page) {
        Some(at) => files
            .log
            .read_at(frame_offset(size, at) + FRAME_HEADER, buf),
        None => files.db.read_at((page - 1) as usize * size, buf),
    }
}

/// How many pages there are after these frames.
fn count_pages<D: Disk>(files: &mut Files<D>, size: usize, frames: &[u32]) -> Result<u32, Error>
    requires log_usable { IsTrue (D.Disk.is_usable files.old.log) }
    requires db_usable { IsTrue (D.Disk.is_usable files.old.db) }
    requires size { (0 < size) × (size ≤ 65536) }
    requires few { length frames.now ≤ 0xffff_fffe }
    requires numbered { IsClean D.Disk files.old.log → AreNumbered size (D.Disk.seen files.old.log) frames.now }
    ensures ok { IfOk result (λ n. AreClean D.Disk files.new.log files.new.db → n ≡ page_count size (D.Disk.seen files.old.log) (D.Disk.seen files.old.db) (length frames.now)) }
    ensures present { OnOk result (AreClean D.Disk files.new.log files.new.db → 0 < length (D.Disk.seen files.old.db)) }
    ensures log { OnlyReads D.Disk files.old.log files.new.log }
    ensures db { OnlyReads D.Disk files.old.db files.new.db }
{
    let Ok(len) = files.db.len() else {
        return Err(Error::Io);
    };
    if len == 0 {
        return Err(Error::Corrupt);
    }
    if frames.is_empty() {
        return u32::try_from(len / size).map_err(|_| Error::Full);
    }
    let mut count = [0; 4];
    match files
        .log
        .read_at(frame_offset(size, frames.len() - 1) + 4, &mut count)
    {
        Ok(()) => Ok(number_of(&count)),
        Err(_) => Err(Error::Io),
    }
}

/// Four bytes as a number, the highest first.
fn number_of(bytes: &[u8; 4]) -> u32
    ensures { result ≡ be32 bytes.now 0 }
{
    bytes[0] as u32 * 0x100_0000
        + bytes[1] as u32 * 0x1_0000
        + bytes[2] as u32 * 0x100
        + bytes[3] as u32
}

/// The size of a page, by the log or the file.
pub(crate) fn page_size<D: Disk>(files: &mut Files<D>) -> Option<PageSize>
    requires log_usable { IsTrue (D.Disk.is_usable files.old.log) }
    requires db_usable { IsTrue (D.Disk.is_usable files.old.db) }
    ensures log { OnlyReads D.Disk files.old.log files.new.log }
    ensures db { OnlyReads D.Disk files.old.db files.new.db }
    ensures named { IfSome result (λ size. AreClean D.Disk files.new.log files.new.db → NamesSize (seen_image D.Disk files.old.log files.old.db) (bytes_of size)) }
{
    let probed = probe_page_size(files);
    match probed {
        Ok(found) => found,
        Err(_) => None,
    }
}

/// The page of each frame that is read of a log.
fn frames_of<D: Disk>(alloc: Global, log: &mut D, size: PageSize) -> Result<Vec<u32>, Error>
    requires { IsTrue (D.Disk.is_usable log.old) }
    ensures ok { IfOk result (λ numbers. IsClean D.Disk log.new → AreFramesOf (bytes_of size) (D.Disk.seen log.old) numbers.items) }
    ensures few { IfOk result (λ numbers. length numbers.items ≤ 0xffff_fffe) }
    ensures same { OnlyReads D.Disk log.old log.new }
{
    match probe_frames(alloc, log, size) {
        Ok(frames) if frames.len() <= MOST_FRAMES => Ok(frames),
        _ => Err(Error::Io),
    }
}

impl<D: Disk + Drop> Snapshot<D> {
    ghost use Rattle.store_table.specs.Snapshot.{is_clean_of, size_of, pages_of};

    /// The pages that the files stand for.
    pub fn open(alloc: Global, mut files: Files<D>) -> Result<Snapshot<D>, Error>
        requires log_usable { IsTrue (D.Disk.is_usable files.log) }
        requires db_usable { IsTrue (D.Disk.is_usable files.db) }
        ensures found { IfOk result (λ it. IsTrue (is_clean_of it) → Recovers (size_of it) (seen_image D.Disk files.log files.db) (pages_of it)) }
        ensures size { IfOk result (λ it. IsPageSize (size_of it)) }
        ensures named { IfOk result (λ it. IsTrue (is_clean_of it) → NamesSize (seen_image D.Disk files.log files.db) (size_of it)) }
        ensures honest { IfOk result (λ it. IsTrue (is_clean_of it) → AreClean D.Disk files.log files.db) }
    {
        let Some(size) = page_size(&mut files) else {
            return Err(Error::Corrupt);
        };
        let frames = frames_of(alloc, &mut files.log, size)?;
        let size = size.bytes();
        let count = count_pages(&mut files, size, frames.as_slice())?;
        if count > MOST_PAGES {
            return Err(Error::Full);
        }
        let page = vec![in alloc; 0u8; size]?;
        Ok(Snapshot {
            files,
            size,
            frames,
            count,
            page,
            number: 0,
            has_failed: false,
        })
    }
}

impl<D: Disk> Snapshot<D> {
    ghost use Rattle.store_table.specs.Snapshot.{files_of, frame_count_of, size_of};

    /// Gives the files back.
    pub fn close(self) -> Files<D>
        ensures { result ≡ files_of self }
    {
        let Snapshot {
            files,
            size: _,
            frames: _,
            count: _,
            page: _,
            number: _,
            has_failed: _,
        } = self;
        files
    }

    /// Lends the files.
    pub fn files(&self) -> &Files<D>
        ensures { result.now ≡ files_of self.now }
    {
        &self.files
    }

    /// How many frames the log has up to its last commit.
    pub fn frame_count(&self) -> usize
        ensures { result ≡ frame_count_of self.now }
    {
        self.frames.len()
    }

    /// How many bytes a page has.
    pub fn page_size(&self) -> usize
        ensures { result ≡ size_of self.now }
    {
        self.size
    }
}

impl<D: Disk> Pages for Snapshot<D> {
    ghost use Rattle.std.specs.Prelude.{true, ⊤};
    ghost use Rattle.store_table.specs.Snapshot.{pages_of, size_of, current_of, faults_of, is_clean_of, has_failed, Stays};
    ghost use Rattle.store_table.specs.SnapshotLaws.{Stays-refl, Stays-trans};

    ghost pages = { pages_of };

    ghost size = { size_of };

    ghost current = { current_of };

    ghost faults = { faults_of };

    ghost is_clean = { is_clean_of };

    ghost is_shut = { λ it. IsTrue (has_failed it) };

    ghost is_full = { λ _. ⊤ };

    ghost follows = { Stays };

    ghost follows_refl = { Stays-refl };

    ghost follows_trans = { Stays-trans };

    /// Refused by Corrupt if there is no page of the number, which counts from 1; and by Io if a read fails, and at
    /// each load after that.
    fn load(&mut self, page: u32) -> Result<(), Error> {
        if self.has_failed {
            return Err(Error::Io);
        }
        if page == 0 {
            return Err(Error::Corrupt);
        }
        if page > self.count {
            return Err(Error::Corrupt);
        }
        if page == self.number {
            return Ok(());
        }
        self.number = 0;
        match read_page(
            &mut self.files,
            self.size,
            self.frames.as_slice(),
            page,
            self.page.as_mut_slice(),
        ) {
            Ok(()) => {
                self.number = page;
                Ok(())
            }
            Err(_) => {
                self.has_failed = true;
                Err(Error::Io)
            }
        }
    }

    /// After a load that ended in Io, these bytes are of no page.
    fn loaded(&self) -> &[u8] {
        self.page.as_slice()
    }

    /// Refused by Full: nothing is written to a snapshot.
    fn write(&mut self, _page: u32, _bytes: &[u8]) -> Result<(), Error> {
        Err(Error::Full)
    }

    /// Refused by Full: a snapshot gets no new pages.
    fn allocate(&mut self) -> Result<u32, Error> {
        Err(Error::Full)
    }

    /// Refused by Full: a snapshot gives no page up.
    fn free(&mut self, _page: u32) -> Result<(), Error> {
        Err(Error::Full)
    }
}
