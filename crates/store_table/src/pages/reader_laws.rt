//! What the pages of a file show of the store that it holds.

ghost use Rattle.store_table.specs.Bridge.{Bridges, FindsAlike, NamesAlike, Shows, VisitsAlike};

/// Pages that hold a database whose trees show rows of the store are the table of these rows, and its index: if the
/// size of the pages is known, and if it is the one that the files name. One row, the rows of a collection and the names
/// of all are then those of the store.
pub fn holds_documents()
    ensures sized { Bridges }
    ensures named { Shows }
    ensures alike { FindsAlike }
    ensures visits { VisitsAlike }
    ensures names { NamesAlike }
{}
