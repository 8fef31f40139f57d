//! Updates, as they are read.

use bson_model::Bson;

/// A place among the items of an array, by how many are before it or behind it. If there are fewer, it is at an end.
#[derive(Clone, Copy, Debug)]
pub enum Place {
    FromFirst(usize),
    FromLast(usize),
}

/// An end of an array.
#[derive(Clone, Copy, Debug)]
pub enum End {
    First,
    Last,
}

/// Items for an array.
#[derive(Drop)]
pub struct Push {
    /// `$each`: the items.
    pub items: Vec<Bson>,
    /// `$position`: where they are put among the others.
    pub place: Place,
    /// `$slice`: the first or the last items, as many as are kept.
    pub slice: Option<Place>,
}

/// What becomes of the value at a path. Values are compared in the order of values across their kinds.
#[derive(Drop)]
pub enum Operation {
    /// `$set`: this value. `$currentDate`: the date, which the caller hands over.
    Set(Bson),
    /// `$setOnInsert`: this value, if the document is inserted; else nothing is changed.
    SetOnInsert(Bson),
    /// `$unset`: none.
    Unset,
    /// `$inc`: the sum with this number.
    Add(Bson),
    /// `$mul`: the product with this number.
    Multiply(Bson),
    /// `$min`: this value, if it is less than the one there.
    Least(Bson),
    /// `$max`: this value, if it is greater than the one there.
    Greatest(Bson),
    /// `$push`: the array with these items.
    Push(Push),
    /// `$addToSet` with `$each`: the array with each of these items, at its end, that isn't among its own yet.
    Include(Vec<Bson>),
    /// `$pull` of a value, `$pullAll`: the array without the items that are equal to one of these.
    Exclude(Vec<Bson>),
    /// `$pop`: the array without the item at an end.
    Pop(End),
}

/// A step of an update.
#[derive(Drop)]
pub enum Step {
    /// A path of keys, and what becomes of the value there.
    At(Vec<String>, Operation),
    /// `$rename`: the value at the first path goes to the second one, whatever was there.
    Rename(Vec<String>, Vec<String>),
}
