//! Conversions into values that borrow their bytes.

ghost use Rattle.std.specs.Prelude.{◌≡◌};
ghost use Rattle.bson_raw.specs.declared.bson_ref.RawBsonRef.TheVariants as views;

use crate::array::RawArray;
use crate::array_buf::RawArrayBuf;
use crate::bson_ref::{RawBinaryRef, RawBsonRef, RawJavaScriptCodeWithScopeRef, RawRegexRef};
use crate::document::RawDocument;
use crate::document_buf::RawDocumentBuf;
use bson_base::{DateTime, Decimal128, DoubleBits, ObjectId, Timestamp};

impl<'a> From<&'a str> for RawBsonRef<'a> {
    ghost from_gives = { λ value result. result ≡ views.String value };

    /// A string, neither code nor a symbol.
    fn from(value: &'a str) -> RawBsonRef<'a> {
        RawBsonRef::String(value)
    }
}

impl<'a> From<i32> for RawBsonRef<'a> {
    ghost from_gives = { λ value result. result ≡ views.Int32 value };

    fn from(value: i32) -> RawBsonRef<'a> {
        RawBsonRef::Int32(value)
    }
}

impl<'a> From<i64> for RawBsonRef<'a> {
    ghost from_gives = { λ value result. result ≡ views.Int64 value };

    /// An int64, even if the number fits 32 bits.
    fn from(value: i64) -> RawBsonRef<'a> {
        RawBsonRef::Int64(value)
    }
}

impl<'a> From<DoubleBits> for RawBsonRef<'a> {
    ghost from_gives = { λ value result. result ≡ views.Double value };

    fn from(value: DoubleBits) -> RawBsonRef<'a> {
        RawBsonRef::Double(value)
    }
}

impl<'a> From<bool> for RawBsonRef<'a> {
    ghost from_gives = { λ value result. result ≡ views.Boolean value };

    fn from(value: bool) -> RawBsonRef<'a> {
        RawBsonRef::Boolean(value)
    }
}

impl<'a> From<RawDocument<'a>> for RawBsonRef<'a> {
    ghost from_gives = { λ value result. result ≡ views.Document value };

    fn from(value: RawDocument<'a>) -> RawBsonRef<'a> {
        RawBsonRef::Document(value)
    }
}

impl<'a> From<RawArray<'a>> for RawBsonRef<'a> {
    ghost from_gives = { λ value result. result ≡ views.Array value };

    fn from(value: RawArray<'a>) -> RawBsonRef<'a> {
        RawBsonRef::Array(value)
    }
}

impl<'a> From<&'a RawDocumentBuf> for RawBsonRef<'a> {
    ghost use Rattle.bson_raw.specs.Buffer.{buffer_bytes};
    ghost use Rattle.bson_raw.specs.Raw.{ref_value, document};

    ghost from_gives = { λ value result. ref_value result ≡ document (buffer_bytes value.now) };

    fn from(value: &'a RawDocumentBuf) -> RawBsonRef<'a> {
        RawBsonRef::Document(value.as_ref())
    }
}

impl<'a> From<&'a RawArrayBuf> for RawBsonRef<'a> {
    ghost use Rattle.bson_raw.specs.Buffer.{array_buffer_bytes};
    ghost use Rattle.bson_raw.specs.Raw.{ref_value, array};

    ghost from_gives = { λ value result. ref_value result ≡ array (array_buffer_bytes value.now) };

    fn from(value: &'a RawArrayBuf) -> RawBsonRef<'a> {
        RawBsonRef::Array(value.as_ref())
    }
}

impl<'a> From<DateTime> for RawBsonRef<'a> {
    ghost from_gives = { λ value result. result ≡ views.DateTime value };

    fn from(value: DateTime) -> RawBsonRef<'a> {
        RawBsonRef::DateTime(value)
    }
}

impl<'a> From<Timestamp> for RawBsonRef<'a> {
    ghost from_gives = { λ value result. result ≡ views.Timestamp value };

    fn from(value: Timestamp) -> RawBsonRef<'a> {
        RawBsonRef::Timestamp(value)
    }
}

impl<'a> From<ObjectId> for RawBsonRef<'a> {
    ghost from_gives = { λ value result. result ≡ views.ObjectId value };

    fn from(value: ObjectId) -> RawBsonRef<'a> {
        RawBsonRef::ObjectId(value)
    }
}

impl<'a> From<Decimal128> for RawBsonRef<'a> {
    ghost from_gives = { λ value result. result ≡ views.Decimal128 value };

    fn from(value: Decimal128) -> RawBsonRef<'a> {
        RawBsonRef::Decimal128(value)
    }
}

impl<'a> From<RawBinaryRef<'a>> for RawBsonRef<'a> {
    ghost from_gives = { λ value result. result ≡ views.Binary value };

    fn from(value: RawBinaryRef<'a>) -> RawBsonRef<'a> {
        RawBsonRef::Binary(value)
    }
}

impl<'a> From<RawRegexRef<'a>> for RawBsonRef<'a> {
    ghost from_gives = { λ value result. result ≡ views.RegularExpression value };

    fn from(value: RawRegexRef<'a>) -> RawBsonRef<'a> {
        RawBsonRef::RegularExpression(value)
    }
}

impl<'a> From<RawJavaScriptCodeWithScopeRef<'a>> for RawBsonRef<'a> {
    ghost from_gives = { λ value result. result ≡ views.JavaScriptCodeWithScope value };

    fn from(value: RawJavaScriptCodeWithScopeRef<'a>) -> RawBsonRef<'a> {
        RawBsonRef::JavaScriptCodeWithScope(value)
    }
}
