//! Values of the 21 kinds of BSON.
ghost use Rattle.std.specs.Prelude.{◌≡◌, is_some, string_bytes, map, IfOk};
ghost use Rattle.std.specs.Option.{option_map};
ghost use Rattle.std.specs.Borrow.{LendsIf, sem};
ghost use Rattle.bson_base.specs.Scalars.{id_bytes, millis_of, decimal_bytes, uuid_bytes};
ghost use Rattle.bson_base.specs.VectorBytes.{vector_bytes};
ghost use Rattle.bson_base.specs.Vectors.{vector_value};
ghost use Rattle.bson_base.specs.Value.{value_kind, scalar, array, binary, string, null, object_id};
ghost use Rattle.bson_model.specs.View.{view, items_of, content};
ghost use Rattle.bson_model.specs.Trees.{array_tree, binary_tree, bool_tree, date_time_tree, db_pointer_tree, decimal128_tree, document_tree, f64_tree, i32_tree, i64_tree, object_id_tree, option_tree, regex_tree, scoped_code_tree, text_tree, timestamp_tree, u32_tree};
ghost use Rattle.bson_model.specs.Accessors as kinds;
ghost use Rattle.bson_model.specs.Rows.{binary_row, bytes_row, with_bytes};

use crate::copy::{copy_items, copy_value};
use crate::document::Document;
use bson_base::binary::Vector;
use bson_base::{
    Binary, BinarySubtype, DateTime, DbPointer, Decimal128, DoubleBits, ElementType, ObjectId,
    Regex, Timestamp, Uuid,
};
use std::alloc::{AllocError, Global};

/// The items of an array, in their order.
pub type Array = Vec<Bson>;

/// A value of one of the 21 kinds of BSON (bsonspec.org 1.1). Contracts see it as its tree, by `view`.
///
/// Two values are equal if their trees are, with documents compared as maps at every depth: the order of the keys
/// does not count. Doubles are equal if their patterns are.
#[cycle(bson)]
#[derive(Debug, PartialEq, Eq, Hash, Drop)]
pub enum Bson {
    Double(DoubleBits),
    String(String),
    Array(Array),
    Document(Document),
    Boolean(bool),
    Null,
    RegularExpression(Regex),
    JavaScriptCode(String),
    JavaScriptCodeWithScope(JavaScriptCodeWithScope),
    Int32(i32),
    Int64(i64),
    Timestamp(Timestamp),
    Binary(Binary),
    ObjectId(ObjectId),
    DateTime(DateTime),
    Symbol(String),
    Decimal128(Decimal128),
    Undefined,
    MaxKey,
    MinKey,
    DbPointer(DbPointer),
}

/// Code, and the values of its free variables (bsonspec.org 1.1, element type 0F).
#[cycle(bson)]
#[derive(Debug, PartialEq, Eq, Hash, Drop)]
pub struct JavaScriptCodeWithScope {
    /// The text of the code.
    pub code: String,
    /// The values of its free variables, by their names.
    pub scope: Document,
}

impl JavaScriptCodeWithScope {
    /// A copy with memory of its own. It fails if there is no memory.
    pub fn try_clone(&self, alloc: Global) -> Result<JavaScriptCodeWithScope, AllocError>
        ensures { IfOk result (λ c. scoped_code_tree c ≡ scoped_code_tree self.now) }
    {
        let scope = self.scope.try_clone()?;
        let code = String::from_str(alloc, &self.code)?;
        Ok(JavaScriptCodeWithScope { code, scope })
    }
}

impl Bson {
    ghost use Rattle.bson_model.specs.contracts.bson.Bson.{the_row};
    ghost use Rattle.bson_model.specs.declared.bson.Bson as bson;
    ghost use Rattle.bson_model.specs.Rows.{array_row, document_row, text_row, object_id_row, date_time_row};

    /// A text, copied. It fails if there is no memory.
    pub fn from_text(alloc: Global, text: &str) -> Result<Bson, AllocError>
        ensures { IfOk result (λ v. view v ≡ scalar (string text.now)) }
    {
        Ok(Bson::String(String::from_str(alloc, text)?))
    }

    /// An array of these items, copied. It fails if there is no memory.
    pub fn from_slice(alloc: Global, items: &[Bson]) -> Result<Bson, AllocError>
        ensures { IfOk result (λ v. view v ≡ array (items_of (map view items.now))) }
    {
        Ok(Bson::Array(copy_items(alloc, items)?))
    }

    /// A UUID as a binary value of subtype Uuid (bsonspec.org 1.1, subtype 04). It fails if there is no memory.
    pub fn from_uuid(alloc: Global, uuid: Uuid) -> Result<Bson, AllocError>
        ensures { IfOk result (λ v. view v ≡ scalar (binary BinarySubtype.Uuid (uuid_bytes uuid))) }
    {
        Ok(Bson::Binary(Binary::from_uuid(alloc, uuid)?))
    }

    /// A vector as a binary value of subtype Vector (bsonspec.org 1.1, subtype 09). It fails if there is no memory.
    pub fn from_vector(alloc: Global, vector: &Vector) -> Result<Bson, AllocError>
        ensures { IfOk result (λ v. view v ≡ scalar (binary BinarySubtype.Vector (vector_bytes (vector_value vector.now)))) }
    {
        Ok(Bson::Binary(Binary::from_vector(alloc, vector)?))
    }

    /// A copy with memory of its own. It fails if there is no memory.
    pub fn try_clone(&self, alloc: Global) -> Result<Bson, AllocError>
        ensures { IfOk result (λ v. view v ≡ view self.now) }
    {
        copy_value(alloc, self)
    }

    /// Its kind.
    pub fn element_type(&self) -> ElementType
        ensures { result ≡ value_kind (view self.now) }
    {
        match self {
            Bson::Double(_) => ElementType::Double,
            Bson::String(_) => ElementType::String,
            Bson::Array(_) => ElementType::Array,
            Bson::Document(_) => ElementType::EmbeddedDocument,
            Bson::Boolean(_) => ElementType::Boolean,
            Bson::Null => ElementType::Null,
            Bson::RegularExpression(_) => ElementType::RegularExpression,
            Bson::JavaScriptCode(_) => ElementType::JavaScriptCode,
            Bson::JavaScriptCodeWithScope(_) => ElementType::JavaScriptCodeWithScope,
            Bson::Int32(_) => ElementType::Int32,
            Bson::Int64(_) => ElementType::Int64,
            Bson::Timestamp(_) => ElementType::Timestamp,
            Bson::Binary(_) => ElementType::Binary,
            Bson::ObjectId(_) => ElementType::ObjectId,
            Bson::DateTime(_) => ElementType::DateTime,
            Bson::Symbol(_) => ElementType::Symbol,
            Bson::Decimal128(_) => ElementType::Decimal128,
            Bson::Undefined => ElementType::Undefined,
            Bson::MaxKey => ElementType::MaxKey,
            Bson::MinKey => ElementType::MinKey,
            Bson::DbPointer(_) => ElementType::DbPointer,
        }
    }

    /// The double, if it is one.
    pub fn as_f64(&self) -> Option<DoubleBits>
        ensures { option_map (λ d. d.0) result ≡ kinds.as_f64 (view self.now) }
    {
        match self {
            Bson::Double(double) => Some(*double),
            _ => None,
        }
    }

    /// The text, if it is one.
    pub fn as_str(&self) -> Option<&str>
        ensures { option_map (λ s. s.now) result ≡ kinds.as_str (view self.now) }
    {
        match self {
            Bson::String(text) => Some(text.as_str()),
            _ => None,
        }
    }

    /// The items, if it is an array.
    pub fn as_array(&self) -> Option<&Array>
        ensures { option_map (λ a. items_of (map view a.now.items)) result ≡ kinds.as_array (view self.now) }
    {
        match self {
            Bson::Array(items) => Some(items),
            _ => None,
        }
    }

    /// The document, if it is one.
    pub fn as_document(&self) -> Option<&Document>
        ensures { option_map (λ d. content d.now) result ≡ kinds.as_document (view self.now) }
    {
        match self {
            Bson::Document(document) => Some(document),
            _ => None,
        }
    }

    /// The truth value, if it is one.
    pub fn as_bool(&self) -> Option<bool>
        ensures { result ≡ kinds.as_bool (view self.now) }
    {
        match self {
            Bson::Boolean(truth) => Some(*truth),
            _ => None,
        }
    }

    /// The number, if it is an Int32.
    pub fn as_i32(&self) -> Option<i32>
        ensures { result ≡ kinds.as_i32 (view self.now) }
    {
        match self {
            Bson::Int32(number) => Some(*number),
            _ => None,
        }
    }

    /// The number, if it is an Int64.
    pub fn as_i64(&self) -> Option<i64>
        ensures { result ≡ kinds.as_i64 (view self.now) }
    {
        match self {
            Bson::Int64(number) => Some(*number),
            _ => None,
        }
    }

    /// The object id, if it is one.
    pub fn as_object_id(&self) -> Option<ObjectId>
        ensures { option_map id_bytes result ≡ kinds.as_object_id (view self.now) }
    {
        match self {
            Bson::ObjectId(id) => Some(*id),
            _ => None,
        }
    }

    /// The moment, if it is a DateTime.
    pub fn as_datetime(&self) -> Option<&DateTime>
        ensures { option_map (λ t. millis_of t.now) result ≡ kinds.as_datetime (view self.now) }
    {
        match self {
            Bson::DateTime(moment) => Some(moment),
            _ => None,
        }
    }

    /// The text, if it is a symbol.
    pub fn as_symbol(&self) -> Option<&str>
        ensures { option_map (λ s. s.now) result ≡ kinds.as_symbol (view self.now) }
    {
        match self {
            Bson::Symbol(text) => Some(text.as_str()),
            _ => None,
        }
    }

    /// The timestamp, if it is one.
    pub fn as_timestamp(&self) -> Option<Timestamp>
        ensures { option_map (λ t. (t.time, t.increment)) result ≡ kinds.as_timestamp (view self.now) }
    {
        match self {
            Bson::Timestamp(timestamp) => Some(*timestamp),
            _ => None,
        }
    }

    /// `Some` if it is Null.
    pub fn as_null(&self) -> Option<()>
        ensures { is_some result ≡ kinds.is_null (view self.now) }
    {
        match self {
            Bson::Null => Some(()),
            _ => None,
        }
    }

    /// The pointer, if it is a DbPointer.
    pub fn as_db_pointer(&self) -> Option<&DbPointer>
        ensures { option_map (λ p. (string_bytes p.now.namespace, id_bytes p.now.id)) result ≡ kinds.as_db_pointer (view self.now) }
    {
        match self {
            Bson::DbPointer(pointer) => Some(pointer),
            _ => None,
        }
    }

    /// The text, if it is one, to be written to.
    pub fn as_str_mut(&mut self) -> Option<&mut String>
        ensures* writes_back { sem 𝓛 (LendsIf the_row text_row self.entry result bson.String self.old) }
        ensures value { option_map (λ s. string_bytes s.now) result ≡ kinds.as_str (view self.old) }
    {
        if let Bson::String(text) = self {
            Some(text)
        } else {
            None
        }
    }

    /// The items, if it is an array, to be written to.
    pub fn as_array_mut(&mut self) -> Option<&mut Array>
        ensures* writes_back { sem 𝓛 (LendsIf the_row array_row self.entry result bson.Array self.old) }
        ensures value { option_map (λ a. items_of (map view a.now.items)) result ≡ kinds.as_array (view self.old) }
    {
        if let Bson::Array(items) = self {
            Some(items)
        } else {
            None
        }
    }

    /// The document, if it is one, to be written to.
    pub fn as_document_mut(&mut self) -> Option<&mut Document>
        ensures* writes_back { sem 𝓛 (LendsIf the_row document_row self.entry result bson.Document self.old) }
        ensures value { option_map (λ d. content d.now) result ≡ kinds.as_document (view self.old) }
    {
        if let Bson::Document(document) = self {
            Some(document)
        } else {
            None
        }
    }

    /// The object id, if it is one, to be written to.
    pub fn as_object_id_mut(&mut self) -> Option<&mut ObjectId>
        ensures* writes_back { sem 𝓛 (LendsIf the_row object_id_row self.entry result bson.ObjectId self.old) }
        ensures value { option_map (λ i. id_bytes i.now) result ≡ kinds.as_object_id (view self.old) }
    {
        if let Bson::ObjectId(id) = self {
            Some(id)
        } else {
            None
        }
    }

    /// The moment, if it is a DateTime, to be written to.
    pub fn as_datetime_mut(&mut self) -> Option<&mut DateTime>
        ensures* writes_back { sem 𝓛 (LendsIf the_row date_time_row self.entry result bson.DateTime self.old) }
        ensures value { option_map (λ t. millis_of t.now) result ≡ kinds.as_datetime (view self.old) }
    {
        if let Bson::DateTime(moment) = self {
            Some(moment)
        } else {
            None
        }
    }

    /// The text, if it is a symbol, to be written to.
    pub fn as_symbol_mut(&mut self) -> Option<&mut String>
        ensures* writes_back { sem 𝓛 (LendsIf the_row text_row self.entry result bson.Symbol self.old) }
        ensures value { option_map (λ s. string_bytes s.now) result ≡ kinds.as_symbol (view self.old) }
    {
        if let Bson::Symbol(text) = self {
            Some(text)
        } else {
            None
        }
    }
}

// What the typed getters that lend go through.
impl Bson {
    ghost use Rattle.std.specs.Borrow.{bool as truth_row, i32 as i32_row, i64 as i64_row};
    ghost use Rattle.bson_model.specs.contracts.bson.Bson.{the_row};
    ghost use Rattle.bson_model.specs.declared.bson.Bson as bson;
    ghost use Rattle.bson_model.specs.Rows.{double_row, decimal128_row, timestamp_row};
    ghost use Rattle.bson_model.specs.Lending.{LendsGeneric};

    /// The 64 bits of a double's IEEE 754 pattern, to be written to; None if the value isn't a Double.
    pub(crate) fn as_f64_mut(&mut self) -> Option<&mut DoubleBits>
        ensures* writes_back { sem 𝓛 (LendsIf the_row double_row self.entry result bson.Double self.old) }
        ensures value { option_map (λ d. d.now.0) result ≡ kinds.as_f64 (view self.old) }
    {
        if let Bson::Double(double) = self {
            Some(double)
        } else {
            None
        }
    }

    /// The 16 bytes of a decimal number, to be written to; None if the value isn't a Decimal128.
    pub(crate) fn as_decimal128_mut(&mut self) -> Option<&mut Decimal128>
        ensures* writes_back { sem 𝓛 (LendsIf the_row decimal128_row self.entry result bson.Decimal128 self.old) }
        ensures value { option_map (λ d. decimal_bytes d.now) result ≡ kinds.as_decimal128 (view self.old) }
    {
        if let Bson::Decimal128(decimal) = self {
            Some(decimal)
        } else {
            None
        }
    }

    /// The truth value, to be written to; None if the value isn't a Boolean: no other kind counts as true or false.
    pub(crate) fn as_bool_mut(&mut self) -> Option<&mut bool>
        ensures* writes_back { sem 𝓛 (LendsIf the_row truth_row self.entry result bson.Boolean self.old) }
        ensures value { option_map (λ b. b.now) result ≡ kinds.as_bool (view self.old) }
    {
        if let Bson::Boolean(truth) = self {
            Some(truth)
        } else {
            None
        }
    }

    /// The signed number of 32 bits, to be written to; None if the value isn't an Int32: an Int64 isn't narrowed.
    pub(crate) fn as_i32_mut(&mut self) -> Option<&mut i32>
        ensures* writes_back { sem 𝓛 (LendsIf the_row i32_row self.entry result bson.Int32 self.old) }
        ensures value { option_map (λ z. z.now) result ≡ kinds.as_i32 (view self.old) }
    {
        if let Bson::Int32(number) = self {
            Some(number)
        } else {
            None
        }
    }

    /// The signed number of 64 bits, to be written to; None if the value isn't an Int64: an Int32 isn't widened.
    pub(crate) fn as_i64_mut(&mut self) -> Option<&mut i64>
        ensures* writes_back { sem 𝓛 (LendsIf the_row i64_row self.entry result bson.Int64 self.old) }
        ensures value { option_map (λ z. z.now) result ≡ kinds.as_i64 (view self.old) }
    {
        if let Bson::Int64(number) = self {
            Some(number)
        } else {
            None
        }
    }

    /// The seconds since 1970 and the increment, 32 bits each, to be written to; None if the value isn't a Timestamp: a
    /// DateTime doesn't count as one.
    pub(crate) fn as_timestamp_mut(&mut self) -> Option<&mut Timestamp>
        ensures* writes_back { sem 𝓛 (LendsIf the_row timestamp_row self.entry result bson.Timestamp self.old) }
        ensures value { option_map (λ t. (t.now.time, t.now.increment)) result ≡ kinds.as_timestamp (view self.old) }
    {
        if let Bson::Timestamp(timestamp) = self {
            Some(timestamp)
        } else {
            None
        }
    }

    /// The bytes with their subtype, whichever it is, to be written to; None if the value isn't a Binary.
    fn as_binary_mut(&mut self) -> Option<&mut Binary>
        ensures* writes_back { sem 𝓛 (LendsIf the_row binary_row self.entry result bson.Binary self.old) }
        ensures value { option_map (λ b. binary_tree b.now) result ≡ kinds.as_binary (view self.old) }
    {
        if let Bson::Binary(binary) = self {
            Some(binary)
        } else {
            None
        }
    }

    /// The bytes of a binary of subtype Generic (BSON specification, subtype 00), to be written to; None for any other
    /// subtype or kind.
    pub(crate) fn as_binary_generic_mut(&mut self) -> Option<&mut Vec<u8>>
        ensures* writes_back { sem 𝓛 (LendsGeneric self.entry result) }
        ensures value { option_map (λ b. b.now.items) result ≡ kinds.as_binary_generic (view self.old) }
    {
        match self.as_binary_mut() {
            Some(binary) => generic_bytes(binary),
            None => None,
        }
    }
}

/// The bytes of a binary of subtype 00, to be written to; `None` for any other subtype.
fn generic_bytes(binary: &mut Binary) -> Option<&mut Vec<u8>>
    ensures* writes_back { sem 𝓛 (LendsIf binary_row bytes_row binary.entry result (with_bytes binary.old) binary.old) }
    ensures value { option_map (λ b. b.now.items) result ≡ kinds.as_binary_generic (binary_tree binary.old) }
{
    if binary.subtype == BinarySubtype::Generic {
        Some(&mut binary.bytes)
    } else {
        None
    }
}

/// Null.
impl Default for Bson {
    ghost is_default = { λ v. view v ≡ scalar null };

    fn default() -> Bson {
        Bson::Null
    }
}

/// A double, as its pattern.
impl From<DoubleBits> for Bson {
    ghost from_gives = { λ x v. view v ≡ f64_tree x };

    fn from(double: DoubleBits) -> Bson {
        Bson::Double(double)
    }
}

/// A text.
impl From<String> for Bson {
    ghost from_gives = { λ x v. view v ≡ text_tree x };

    fn from(text: String) -> Bson {
        Bson::String(text)
    }
}

/// A document.
impl From<Document> for Bson {
    ghost from_gives = { λ x v. view v ≡ document_tree x };

    fn from(document: Document) -> Bson {
        Bson::Document(document)
    }
}

/// A truth value.
impl From<bool> for Bson {
    ghost from_gives = { λ x v. view v ≡ bool_tree x };

    fn from(truth: bool) -> Bson {
        Bson::Boolean(truth)
    }
}

/// A regular expression.
impl From<Regex> for Bson {
    ghost from_gives = { λ x v. view v ≡ regex_tree x };

    fn from(regex: Regex) -> Bson {
        Bson::RegularExpression(regex)
    }
}

/// Code with its scope.
impl From<JavaScriptCodeWithScope> for Bson {
    ghost from_gives = { λ x v. view v ≡ scoped_code_tree x };

    fn from(code: JavaScriptCodeWithScope) -> Bson {
        Bson::JavaScriptCodeWithScope(code)
    }
}

/// Bytes with their subtype.
impl From<Binary> for Bson {
    ghost from_gives = { λ x v. view v ≡ binary_tree x };

    fn from(binary: Binary) -> Bson {
        Bson::Binary(binary)
    }
}

/// A timestamp.
impl From<Timestamp> for Bson {
    ghost from_gives = { λ x v. view v ≡ timestamp_tree x };

    fn from(timestamp: Timestamp) -> Bson {
        Bson::Timestamp(timestamp)
    }
}

/// An array.
impl From<Array> for Bson {
    ghost from_gives = { λ x v. view v ≡ array_tree x };

    fn from(items: Array) -> Bson {
        Bson::Array(items)
    }
}

/// An Int32.
impl From<i32> for Bson {
    ghost from_gives = { λ x v. view v ≡ i32_tree x };

    fn from(number: i32) -> Bson {
        Bson::Int32(number)
    }
}

/// An Int64.
impl From<i64> for Bson {
    ghost from_gives = { λ x v. view v ≡ i64_tree x };

    fn from(number: i64) -> Bson {
        Bson::Int64(number)
    }
}

/// An object id.
impl From<ObjectId> for Bson {
    ghost from_gives = { λ x v. view v ≡ object_id_tree x };

    fn from(id: ObjectId) -> Bson {
        Bson::ObjectId(id)
    }
}

/// A moment.
impl From<DateTime> for Bson {
    ghost from_gives = { λ x v. view v ≡ date_time_tree x };

    fn from(moment: DateTime) -> Bson {
        Bson::DateTime(moment)
    }
}

/// A pointer.
impl From<DbPointer> for Bson {
    ghost from_gives = { λ x v. view v ≡ db_pointer_tree x };

    fn from(pointer: DbPointer) -> Bson {
        Bson::DbPointer(pointer)
    }
}

/// A decimal number.
impl From<Decimal128> for Bson {
    ghost from_gives = { λ x v. view v ≡ decimal128_tree x };

    fn from(decimal: Decimal128) -> Bson {
        Bson::Decimal128(decimal)
    }
}

/// An Int32 if the number fits, else an Int64.
impl From<u32> for Bson {
    ghost from_gives = { λ x v. view v ≡ u32_tree x };

    fn from(number: u32) -> Bson {
        if number < 0x8000_0000 {
            Bson::Int32(number as i32)
        } else {
            Bson::Int64(i64::from(number))
        }
    }
}

/// The object id of twelve bytes.
impl From<[u8; 12]> for Bson {
    ghost from_gives = { λ x v. view v ≡ scalar (object_id x) };

    fn from(bytes: [u8; 12]) -> Bson {
        Bson::ObjectId(ObjectId::from_bytes(bytes))
    }
}

/// The value, or Null if there is none.
impl From<Option<Bson>> for Bson {
    ghost from_gives = { λ x v. view v ≡ option_tree x };

    fn from(value: Option<Bson>) -> Bson {
        match value {
            Some(value) => value,
            None => Bson::Null,
        }
    }
}
