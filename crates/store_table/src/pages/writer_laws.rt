//! Laws on the definitions alone: each is the contract of a function that does nothing.

ghost use Rattle.std.specs.Prelude.{ℕ, List};
ghost use Rattle.sqlite_wal.specs.Recovery.{Image};
ghost use Rattle.sqlite_trees.specs.Tree.{Trees};
ghost use Rattle.sqlite.specs.Effect.{Database};
ghost use Rattle.sqlite.specs.Files.{HoldsDatabase};
ghost use Rattle.store_table.specs.Rows.{TableRow, HasRows};
ghost use Rattle.store_table.specs.Store.{HoldRows};

/// Files that a writer leaves with some rows hold a database that has the table with them, which is what it asks of
/// files that it opens.
pub fn holds_rows()
    ensures { (first : Database) (size : ℕ) (image : Image) (docs : List TableRow) → HoldRows first size image docs
        → (trees : Trees) × HoldsDatabase image trees × HasRows first trees docs }
{}
