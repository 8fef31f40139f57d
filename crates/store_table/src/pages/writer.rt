//! The table of a store in two files, opened without reading all of it.

ghost use Rattle.std.specs.Prelude.{◌≡◌, ◌≢◌, ◌+ℤ◌, pos, List, None, find, map, option_map, IsTrue, IfErr, IfOk, OnOk, Vec, ℕ, ℤ};
ghost use Rattle.std.specs.declared.alloc.Global.{Global as GlobalType};
ghost use Rattle.sqlite_wal.specs.Files.{seen_image, outcomes};
ghost use Rattle.sqlite_wal.specs.Reads.{AreClean};
ghost use Rattle.sqlite_wal.specs.Recovery.{Image};
ghost use Rattle.sqlite_wal.specs.State.{StaysOrFails};
ghost use Rattle.sqlite_btree.specs.Cut.{IsIn};
ghost use Rattle.sqlite_trees.specs.Tree.{Trees};
ghost use Rattle.sqlite.specs.Effect.{Database};
ghost use Rattle.sqlite.specs.Files.{HoldsDatabase, IsNothing, image_of};
ghost use Rattle.store_table.specs.Rows.{TableRow, HasRows, is_row_named, last_place, with_body_at, without_place};
ghost use Rattle.store_table.specs.Moves.{IsRoomFor, with_row};
ghost use Rattle.store_table.specs.declared.fault.Fault.TheVariants.{Places};
ghost use Rattle.store_table.specs.GivenBack.{AreGivenBack};
ghost use Rattle.store_table.specs.Store.{HoldRows, row_at};

use crate::Fault;
use crate::pages::writer_opening::{own_roots, recover};
use crate::pages::{Roots, body_named, place_named, rows};
use sqlite_btree::Scratch;
use sqlite_disk::{Disk, Files};
use sqlite_pager::Options;
use sqlite_pages::Error;
use sqlite_pool::Pool;
use std::alloc::Global;

/// The table of documents in a file and its log, of which a call reads only the pages that it needs.
///
/// Changes are kept in memory until `commit`. After a refused change the writer is to be given up.
#[derive(Drop)]
pub struct Writer<D: Disk> {
    pool: Pool<D>,
    roots: Roots,
    scratch: Scratch,
    alloc: Global,
}

/// Why pages give no answer, in the words of the table.
fn fault_of(error: Error) -> Fault
    ensures { result ≢ Places }
{
    match error {
        Error::OutOfMemory => Fault::Memory,
        _ => Fault::Database,
    }
}

impl<D: Disk + Drop> Writer<D> {
    ghost use Rattle.sqlite_pool.specs.Stored.{Keeps};
    ghost use Rattle.store_table.specs.Writer.{state_of, size_of, Serves, Leaves, LeavesEither};

    /// Opens the table of a store in its files. They are given back if they can't be read, or if pages alone don't tell
    /// what they have: if there is no database yet, if the schema has anything else, or if the header says that pages
    /// end in reserved bytes. Where there is none yet nothing of them is written, so whoever makes one finds what an
    /// opening that was killed has left.
    pub fn open(alloc: Global, files: Files<D>, options: Options) -> Result<Writer<D>, Files<D>>
        requires log_usable { IsTrue (D.Disk.is_usable files.log) }
        requires db_usable { IsTrue (D.Disk.is_usable files.db) }
        ensures serves { IfOk result (λ it. IsTrue (state_of it).is_clean → (first : Database) (trees : Trees) (docs : List TableRow)
            → HoldsDatabase (seen_image D.Disk files.log files.db) trees → HasRows first trees docs → Serves first it docs) }
        ensures leaves { IfOk result (λ it. IsTrue (state_of it).is_clean → (first : Database) (trees : Trees) (docs : List TableRow)
            → HoldsDatabase (seen_image D.Disk files.log files.db) trees → HasRows first trees docs → Leaves first it docs) }
        ensures something { IfOk result (λ it. IsTrue (state_of it).is_clean → ¬ IsNothing (image_of D.Disk files)) }
        ensures back { IfErr result (λ left. AreClean D.Disk left.log left.db → AreGivenBack D.Disk files left) }
    {
        let mut pool = match recover(alloc, files, options) {
            Ok(pool) => pool,
            Err(files) => return Err(files),
        };
        let mut scratch = Scratch::new(alloc);
        match own_roots(alloc, &mut pool, &mut scratch) {
            Some(roots) => Ok(Writer {
                pool,
                roots,
                scratch,
                alloc,
            }),
            None => Err(pool.close()),
        }
    }

    /// The place of the first row with a collection and a key.
    ///
    /// Refused by Memory and Database.
    pub fn place_of(&mut self, coll: &[u8], idkey: &[u8]) -> Result<Option<i64>, Fault>
        ensures found { IsTrue (state_of self.new).is_clean → (first : Database) (docs : List TableRow) → Serves first self.old docs
            → IfOk result (λ place. place ≡ option_map (λ (d : TableRow). d.place) (find (is_row_named coll.now idkey.now) docs)) }
        ensures same { IsTrue (state_of self.new).is_clean → (first : Database) (docs : List TableRow) → Serves first self.old docs → Serves first self.new docs }
        ensures faults { IfErr result (λ e. e ≢ Places) }
        ensures keeps { Keeps (state_of self.old) (state_of self.new) }
    {
        if !self.pool.is_open() {
            return Err(Fault::Database);
        }
        match place_named(
            self.alloc,
            &mut self.pool,
            &mut self.scratch,
            self.roots,
            coll,
            idkey,
        ) {
            Ok(place) => Ok(place),
            Err(error) => Err(fault_of(error)),
        }
    }

    /// The body of the first row with a collection and a key.
    ///
    /// Refused by Memory and Database.
    pub fn body_of(&mut self, coll: &[u8], idkey: &[u8]) -> Result<Option<Vec<u8>>, Fault>
        ensures found { IsTrue (state_of self.new).is_clean → (first : Database) (docs : List TableRow) → Serves first self.old docs
            → IfOk result (λ body. option_map (λ (v : Vec ℕ GlobalType). v.items) body ≡ option_map (λ (d : TableRow). d.body) (find (is_row_named coll.now idkey.now) docs)) }
        ensures same { IsTrue (state_of self.new).is_clean → (first : Database) (docs : List TableRow) → Serves first self.old docs → Serves first self.new docs }
        ensures faults { IfErr result (λ e. e ≢ Places) }
        ensures keeps { Keeps (state_of self.old) (state_of self.new) }
    {
        if !self.pool.is_open() {
            return Err(Fault::Database);
        }
        match body_named(
            self.alloc,
            &mut self.pool,
            &mut self.scratch,
            self.roots,
            coll,
            idkey,
        ) {
            Ok(body) => Ok(body),
            Err(error) => Err(fault_of(error)),
        }
    }

    /// The place after the greatest one.
    ///
    /// Refused by Memory and Database, and by Places if there is none.
    fn next_place(&mut self) -> Result<i64, Fault>
        ensures found { IsTrue (state_of self.new).is_clean → (first : Database) (docs : List TableRow) → Serves first self.old docs
            → IfOk result (λ place. (place ≡ (last_place docs +ℤ pos 1)) × IsRoomFor 1 docs) }
        ensures full { IsTrue (state_of self.new).is_clean → (first : Database) (docs : List TableRow) → Serves first self.old docs
            → IfErr result (λ e. e ≡ Places → ¬ IsRoomFor 1 docs) }
        ensures same { IsTrue (state_of self.new).is_clean → (first : Database) (docs : List TableRow) → Serves first self.old docs → Serves first self.new docs }
        ensures keeps { Keeps (state_of self.old) (state_of self.new) }
    {
        if !self.pool.is_open() {
            return Err(Fault::Database);
        }
        let last = match rows::last_row(self.alloc, &mut self.pool, &mut self.scratch, self.roots) {
            Ok(last) => last,
            Err(error) => return Err(fault_of(error)),
        };
        match last.checked_add(1) {
            Some(place) => Ok(place),
            None => Err(Fault::Places),
        }
    }

    /// Adds a row at the place after the greatest one, if none has its collection and key.
    ///
    /// Refused by Memory and Database, and by Places if there is no place.
    pub fn append(&mut self, coll: &[u8], idkey: &[u8], body: &[u8]) -> Result<(), Fault>
        ensures done { IsTrue (state_of self.new).is_clean → (first : Database) (docs : List TableRow) → Serves first self.old docs
            → find (is_row_named coll.now idkey.now) docs ≡ None
            → OnOk result (Serves first self.new (with_row coll.now idkey.now body.now docs)) }
        ensures room { IsTrue (state_of self.new).is_clean → (first : Database) (docs : List TableRow) → Serves first self.old docs
            → OnOk result (IsRoomFor 1 docs) }
        ensures full { IsTrue (state_of self.new).is_clean → (first : Database) (docs : List TableRow) → Serves first self.old docs
            → IfErr result (λ e. e ≡ Places → ¬ IsRoomFor 1 docs) }
        ensures keeps { Keeps (state_of self.old) (state_of self.new) }
    {
        let place = match self.next_place() {
            Ok(place) => place,
            Err(fault) => return Err(fault),
        };
        match rows::add(
            self.alloc,
            &mut self.pool,
            &mut self.scratch,
            self.roots,
            place,
            coll,
            idkey,
            body,
        ) {
            Ok(()) => Ok(()),
            Err(error) => Err(fault_of(error)),
        }
    }

    /// Puts another body in the place of that of the row with this place, collection and key.
    ///
    /// Refused by Memory and Database.
    pub fn rewrite(
        &mut self,
        place: i64,
        coll: &[u8],
        idkey: &[u8],
        body: &[u8],
    ) -> Result<(), Fault>
        ensures done { IsTrue (state_of self.new).is_clean → (first : Database) (docs : List TableRow) (old : List ℕ) → Serves first self.old docs
            → IsIn (row_at place coll.now idkey.now old) docs
            → OnOk result (Serves first self.new (with_body_at place body.now docs)) }
        ensures faults { IfErr result (λ e. e ≢ Places) }
        ensures keeps { Keeps (state_of self.old) (state_of self.new) }
    {
        match rows::rewrite(
            self.alloc,
            &mut self.pool,
            &mut self.scratch,
            self.roots,
            place,
            coll,
            idkey,
            body,
        ) {
            Ok(()) => Ok(()),
            Err(error) => Err(fault_of(error)),
        }
    }

    /// Removes the row with this place, collection and key. The others keep their places.
    ///
    /// Refused by Memory and Database.
    pub fn remove(&mut self, place: i64, coll: &[u8], idkey: &[u8]) -> Result<(), Fault>
        ensures done { IsTrue (state_of self.new).is_clean → (first : Database) (docs : List TableRow) (body : List ℕ) → Serves first self.old docs
            → IsIn (row_at place coll.now idkey.now body) docs
            → OnOk result (Serves first self.new (without_place place docs)) }
        ensures faults { IfErr result (λ e. e ≢ Places) }
        ensures keeps { Keeps (state_of self.old) (state_of self.new) }
    {
        match rows::remove(
            self.alloc,
            &mut self.pool,
            &mut self.scratch,
            self.roots,
            place,
            coll,
            idkey,
        ) {
            Ok(()) => Ok(()),
            Err(error) => Err(fault_of(error)),
        }
    }

    /// Makes the changes durable: a crash leaves all of them or none.
    ///
    /// Refused by Memory and Database.
    pub fn commit(&mut self) -> Result<(), Fault>
        ensures done { IsTrue (state_of self.new).is_clean → (first : Database) (docs : List TableRow) → Serves first self.old docs
            → OnOk result (Leaves first self.new docs) }
        ensures crash { (first : Database) (docs : List TableRow) (made : List TableRow) → Leaves first self.old docs → Serves first self.old made
            → LeavesEither first self.new docs made }
        ensures stays { StaysOrFails (state_of self.old) (state_of self.new) }
        ensures faults { IfErr result (λ e. e ≢ Places) }
    {
        // The trees' calls don't say that they keep it.
        let version = self.pool.stored_version();
        self.pool.set_version(version);
        match self.pool.commit() {
            Ok(()) => Ok(()),
            Err(error) => Err(fault_of(error)),
        }
    }

    /// Copies the log into the file, and gives both back. What isn't committed is lost; whatever a crash may leave of
    /// them, and so what they have, has the rows of before.
    pub fn close(self) -> Files<D>
        ensures { (first : Database) (docs : List TableRow) → Leaves first self docs → AreClean D.Disk result.log result.db
            → (left : Image) → outcomes D.Disk result.log result.db left → ∥ HoldRows first (size_of self) left docs ∥₁ }
    {
        let Writer {
            mut pool,
            roots: _,
            scratch: _,
            alloc: _,
        } = self;
        let _ = pool.checkpoint();
        pool.close()
    }
}
