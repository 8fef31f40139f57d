//! Laws on the texts and bits of decimals.

ghost use Rattle.std.specs.Prelude.{◌≡◌, ◌<◌, ◌^◌, ℕ, Bool, IsTrue};
ghost use Rattle.bson_base.specs.Answer.{result_map};
ghost use Rattle.bson_base.specs.Decimal.{Decimal, finite, is_finite, IsUnpacked, pack, print, read, unpack};

/// The bits that were packed have the parts that were packed.
pub fn packed_decimals_come_back()
    ensures { (d : Decimal) → IsUnpacked d → unpack (pack d) ≡ d }
{}

/// The parts of 128 bits can be packed.
pub fn unpacked_decimals_can_be_packed()
    ensures { (n : ℕ) → IsUnpacked (unpack n) }
{}

/// Every printed finite decimal reads back to its sign, coefficient and exponent.
pub fn printed_decimals_come_back()
    ensures parts { (s : Bool) (c e : ℕ) → c < 10 ^ 34 → e < 12288 → result_map unpack (read (print (finite s c e))) ≡ Ok (finite s c e) }
    ensures bits { (n : ℕ) → IsTrue (is_finite (unpack n)) → result_map unpack (read (print (unpack n))) ≡ Ok (unpack n) }
{}
