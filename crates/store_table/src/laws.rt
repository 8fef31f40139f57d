//! Laws on the definitions alone: each is the contract of a function that does nothing.

ghost use Rattle.std.specs.Prelude.{◌≡◌, ℕ, List};
ghost use Rattle.sqlite_value.specs.Order.{Row};
ghost use Rattle.sqlite.specs.Schema.{Schema};
ghost use Rattle.sqlite.specs.Table.{Table};
ghost use Rattle.sqlite_catalog.specs.Listing.{Lists};
ghost use Rattle.store_table.specs.Schema.{HasDocuments};

/// A list of objects is that of one schema, in which the table of documents is at one place, over one tree.
pub fn one_schema()
    ensures listed { (objects : List Row) (a b : Schema) → Lists objects a → Lists objects b
        → b ≡ a }
    ensures stands { (tables : List Table) (p q m n : ℕ) → HasDocuments tables p m
        → HasDocuments tables q n → (q ≡ p) × (n ≡ m) }
{}
