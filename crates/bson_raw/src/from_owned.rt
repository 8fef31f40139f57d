//! Conversions into values that own their bytes.

ghost use Rattle.std.specs.Prelude.{◌≡◌};
ghost use Rattle.bson_raw.specs.declared.bson.RawBson.TheVariants as raw;

use crate::array_buf::RawArrayBuf;
use crate::bson::{RawBson, RawJavaScriptCodeWithScope};
use crate::document_buf::RawDocumentBuf;
use bson_base::{Binary, DateTime, DbPointer, Decimal128, DoubleBits, ObjectId, Regex, Timestamp};

impl From<i32> for RawBson {
    ghost from_gives = { λ value result. result ≡ raw.Int32 value };

    fn from(value: i32) -> RawBson {
        RawBson::Int32(value)
    }
}

impl From<i64> for RawBson {
    ghost from_gives = { λ value result. result ≡ raw.Int64 value };

    /// An int64, even if the number fits 32 bits.
    fn from(value: i64) -> RawBson {
        RawBson::Int64(value)
    }
}

impl From<String> for RawBson {
    ghost from_gives = { λ value result. result ≡ raw.String value };

    /// A string, neither code nor a symbol.
    fn from(value: String) -> RawBson {
        RawBson::String(value)
    }
}

impl From<DoubleBits> for RawBson {
    ghost from_gives = { λ value result. result ≡ raw.Double value };

    fn from(value: DoubleBits) -> RawBson {
        RawBson::Double(value)
    }
}

impl From<bool> for RawBson {
    ghost from_gives = { λ value result. result ≡ raw.Boolean value };

    fn from(value: bool) -> RawBson {
        RawBson::Boolean(value)
    }
}

impl From<RawDocumentBuf> for RawBson {
    ghost from_gives = { λ value result. result ≡ raw.Document value };

    fn from(value: RawDocumentBuf) -> RawBson {
        RawBson::Document(value)
    }
}

impl From<RawArrayBuf> for RawBson {
    ghost from_gives = { λ value result. result ≡ raw.Array value };

    fn from(value: RawArrayBuf) -> RawBson {
        RawBson::Array(value)
    }
}

impl From<DateTime> for RawBson {
    ghost from_gives = { λ value result. result ≡ raw.DateTime value };

    fn from(value: DateTime) -> RawBson {
        RawBson::DateTime(value)
    }
}

impl From<Timestamp> for RawBson {
    ghost from_gives = { λ value result. result ≡ raw.Timestamp value };

    fn from(value: Timestamp) -> RawBson {
        RawBson::Timestamp(value)
    }
}

impl From<ObjectId> for RawBson {
    ghost from_gives = { λ value result. result ≡ raw.ObjectId value };

    fn from(value: ObjectId) -> RawBson {
        RawBson::ObjectId(value)
    }
}

impl From<Decimal128> for RawBson {
    ghost from_gives = { λ value result. result ≡ raw.Decimal128 value };

    fn from(value: Decimal128) -> RawBson {
        RawBson::Decimal128(value)
    }
}

impl From<RawJavaScriptCodeWithScope> for RawBson {
    ghost from_gives = { λ value result. result ≡ raw.JavaScriptCodeWithScope value };

    fn from(value: RawJavaScriptCodeWithScope) -> RawBson {
        RawBson::JavaScriptCodeWithScope(value)
    }
}

impl From<Binary> for RawBson {
    ghost from_gives = { λ value result. result ≡ raw.Binary value };

    fn from(value: Binary) -> RawBson {
        RawBson::Binary(value)
    }
}

impl From<Regex> for RawBson {
    ghost from_gives = { λ value result. result ≡ raw.RegularExpression value };

    fn from(value: Regex) -> RawBson {
        RawBson::RegularExpression(value)
    }
}

impl From<DbPointer> for RawBson {
    ghost from_gives = { λ value result. result ≡ raw.DbPointer value };

    fn from(value: DbPointer) -> RawBson {
        RawBson::DbPointer(value)
    }
}
