//! What values and documents feed to a hasher.
ghost use Rattle.std.specs.Hash as feeds;
ghost use Rattle.std.specs.Prelude.{◌≡◌, ◌++◌, Bool, ℤ, String, string_bytes};
ghost use Rattle.std.specs.declared.alloc.Global.{Global};
ghost use Rattle.std.specs.declared.vec.Vec.{Vec};
ghost use Rattle.bson_base.specs.Scalars.{millis_of};
ghost use Rattle.bson_base.specs.declared.binary.Binary.{Binary as AnyBinary};
ghost use Rattle.bson_base.specs.declared.datetime.DateTime.{DateTime as AnyDateTime};
ghost use Rattle.bson_base.specs.declared.decimal128.Decimal128.{Decimal128 as AnyDecimal};
ghost use Rattle.bson_base.specs.declared.double.DoubleBits.{DoubleBits as AnyDouble};
ghost use Rattle.bson_base.specs.declared.oid.ObjectId.{ObjectId as AnyObjectId};
ghost use Rattle.bson_base.specs.declared.pointer.DbPointer.{DbPointer as AnyPointer};
ghost use Rattle.bson_base.specs.declared.regex.Regex.{Regex as AnyRegex};
ghost use Rattle.bson_base.specs.declared.timestamp.Timestamp.{Timestamp as AnyTimestamp};
ghost use Rattle.bson_pairs.specs.Ascending.{pairs_writes};
ghost use Rattle.bson_model.specs.Laws.{bson_writes, document_writes};
ghost use Rattle.bson_model.specs.declared.bson.Bson as bson;
ghost use Rattle.bson_model.specs.declared.bson.Bson.{Bson as Tree};
ghost use Rattle.bson_model.specs.declared.bson.JavaScriptCodeWithScope.{JavaScriptCodeWithScope as AnyCode};
ghost use Rattle.bson_model.specs.declared.document.Document.{Document as Pairs};

use bson_base::{Binary, DbPointer, Decimal128, ObjectId};
use std::hash::Hash;

/// What a document feeds to a hasher: its pairs ascending by their keys, of each the key's text and then what the value
/// feeds.
pub fn what_documents_feed()
    ensures { (x : Pairs) → document_writes x ≡ pairs_writes bson_writes x.pairs }
{}

/// What a value feeds to a hasher: the place of its kind among those that `Bson` lists, and then what it holds.
pub fn what_values_feed()
    ensures doubles { (x : AnyDouble) → bson_writes (bson.Double x) ≡ feeds.usize 0 ++ feeds.u64 x.0 }
    ensures texts { (x : String Global) → bson_writes (bson.String x) ≡ feeds.usize 1 ++ feeds.str (string_bytes x) }
    ensures arrays { (x : Vec Tree Global) → bson_writes (bson.Array x) ≡ feeds.usize 2 ++ feeds.slice bson_writes x.items }
    ensures documents { (x : Pairs) → bson_writes (bson.Document x) ≡ feeds.usize 3 ++ document_writes x }
    ensures truths { (x : Bool) → bson_writes (bson.Boolean x) ≡ feeds.usize 4 ++ feeds.bool x }
    ensures nulls { bson_writes bson.Null ≡ feeds.usize 5 }
    ensures expressions { (x : AnyRegex) → bson_writes (bson.RegularExpression x)
        ≡ feeds.usize 6 ++ feeds.str (string_bytes x.pattern) ++ feeds.str (string_bytes x.options) }
    ensures codes { (x : String Global) → bson_writes (bson.JavaScriptCode x) ≡ feeds.usize 7 ++ feeds.str (string_bytes x) }
    ensures scoped_codes { (x : AnyCode) → bson_writes (bson.JavaScriptCodeWithScope x)
        ≡ feeds.usize 8 ++ feeds.str (string_bytes x.code) ++ document_writes x.scope }
    ensures small_integers { (x : ℤ) → bson_writes (bson.Int32 x) ≡ feeds.usize 9 ++ feeds.i32 x }
    ensures integers { (x : ℤ) → bson_writes (bson.Int64 x) ≡ feeds.usize 10 ++ feeds.i64 x }
    ensures timestamps { (x : AnyTimestamp) → bson_writes (bson.Timestamp x) ≡ feeds.usize 11 ++ feeds.u32 x.time ++ feeds.u32 x.increment }
    ensures binaries { (x : AnyBinary) → bson_writes (bson.Binary x) ≡ feeds.usize 12 ++ ⟦<Binary as Hash>⟧.hash_input x }
    ensures object_ids { (x : AnyObjectId) → bson_writes (bson.ObjectId x) ≡ feeds.usize 13 ++ ⟦<ObjectId as Hash>⟧.hash_input x }
    ensures moments { (x : AnyDateTime) → bson_writes (bson.DateTime x) ≡ feeds.usize 14 ++ feeds.i64 (millis_of x) }
    ensures symbols { (x : String Global) → bson_writes (bson.Symbol x) ≡ feeds.usize 15 ++ feeds.str (string_bytes x) }
    ensures decimals { (x : AnyDecimal) → bson_writes (bson.Decimal128 x) ≡ feeds.usize 16 ++ ⟦<Decimal128 as Hash>⟧.hash_input x }
    ensures undefined { bson_writes bson.Undefined ≡ feeds.usize 17 }
    ensures greatest { bson_writes bson.MaxKey ≡ feeds.usize 18 }
    ensures least { bson_writes bson.MinKey ≡ feeds.usize 19 }
    ensures pointers { (x : AnyPointer) → bson_writes (bson.DbPointer x) ≡ feeds.usize 20 ++ ⟦<DbPointer as Hash>⟧.hash_input x }
{}
