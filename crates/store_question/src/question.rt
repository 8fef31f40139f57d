//! Questions.

use bson_base::ElementType;
use bson_raw::RawBson;
use regex::Regex;

/// How a value lies to another in the order of values.
#[derive(Clone, Copy, Debug, PartialEq, Eq)]
pub enum Comparison {
    Less,
    AtMost,
    Equal,
    AtLeast,
    Greater,
}

/// What is asked of a value, or of nothing, where a path leads to none.
#[derive(Debug, Drop)]
pub enum Question {
    /// Something that the path leads to answers this; of an array at its end, the array or one of its items.
    At(Vec<String>, Box<Question>),
    /// The same, where an array at the end is taken whole.
    Whole(Vec<String>, Box<Question>),
    /// There is a value.
    Exists,
    /// It is of this kind.
    Kind(ElementType),
    /// It lies so to this value, and is of a kind that is compared with it by what it holds.
    Compare(Comparison, RawBson),
    /// It is an array of so many items.
    Size(u64),
    /// It is a number whose whole part, divided by the first of these, leaves the second. No value has a remainder under
    /// a divisor of 0.
    Remainder(i64, i64),
    /// It is a text that begins with these bytes.
    Begins(Vec<u8>),
    /// It is a text in which this pattern finds something.
    Matches(Box<Regex>),
    /// It is an array, and one of its items answers this.
    Item(Box<Question>),
    Not(Box<Question>),
    /// All of these, also if there are none.
    All(Vec<Question>),
    /// One of these.
    Any(Vec<Question>),
}
