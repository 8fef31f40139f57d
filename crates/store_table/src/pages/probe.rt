//! The place of an entry in an index.

ghost use Rattle.sqlite_value.specs.Keys.{entry_cmp, plain};
ghost use Rattle.sqlite_record.specs.Record.{decode};

use sqlite_btree::Probe;
use sqlite_record::compare;
use sqlite_value::keys::Order;
use sqlite_value::row::Row;
use std::cmp::Ordering;

const PLAIN: Order = Order { digits: 0 };

/// Where an entry is, or would be, if each of its values ascends by its bytes.
#[derive(Clone, Copy, Debug)]
pub struct AtEntry<'a>(pub &'a Row);

impl Probe for AtEntry<'_> {
    ghost use Rattle.sqlite_value.specs.Keys.{entry_cmp, plain};
    ghost use Rattle.sqlite_record.specs.Record.{decode};

    ghost side = { λ it bytes. entry_cmp plain (decode bytes) it.0.now };

    fn compare(&self, bytes: &[u8]) -> Ordering {
        compare::with_row(PLAIN, bytes, self.0)
    }
}
