//! The words of the language of queries.

ghost use Rattle.std.specs.Prelude.{◌≡◌};
ghost use Rattle.json.specs.Value.{members_view, value_view as data_of};
ghost use Rattle.store_question_read.specs.Query.{are_of_items as of_items_in, are_operators as operators_in, begins_with_dollar as dollar_in, has_key as has_key_in, has_lone_options as lone_options_in, has_operators as operators_inside, joining_of, names_operator as operator_named_by, operator_of, options_in as options_among, text_or_none as text_of_tree};

use bson_model::extjson::de::is_reserved_key;
use json::Value;
use store_question::Comparison;

/// What a key that begins with `$` is at the top of a query.
#[derive(Clone, Copy, Drop)]
pub(crate) enum Joining {
    And,
    Or,
    Nor,
    Comment,
}

/// The operators under a path.
#[derive(Clone, Copy, Drop)]
pub(crate) enum Operator {
    Eq,
    Ne,
    Lies(Comparison),
    In,
    Nin,
    All,
    ElementMatch,
    Size,
    Exists,
    Kind,
    Mod,
    Regex,
    /// Those of `$regex` beside it.
    Options,
    Not,
}

/// What the items of an array under an operator are.
#[derive(Clone, Copy, Drop)]
pub(crate) enum Listed {
    Queries,
    Values,
    /// Under `$all`: a value, or `$elemMatch` alone.
    Parts,
    Kinds,
}

/// What a key with `$` means as a member of a query. None for all but `$and`, `$or`, `$nor` and `$comment`.
#[tactic(auto, unfolding(crate::specs::Query::joining_of))]
pub(crate) fn joining_named(key: &str) -> Option<Joining>
    ensures { result ≡ joining_of key.now }
{
    match key {
        "$and" => Some(Joining::And),
        "$or" => Some(Joining::Or),
        "$nor" => Some(Joining::Nor),
        "$comment" => Some(Joining::Comment),
        _ => None,
    }
}

/// The operator that is written so under a path, with its `$`. None if no operator has this name.
#[tactic(auto, unfolding(crate::specs::Query::operator_of))]
pub(crate) fn operator_named(key: &str) -> Option<Operator>
    ensures { result ≡ operator_of key.now }
{
    match key {
        "$eq" => Some(Operator::Eq),
        "$ne" => Some(Operator::Ne),
        "$gt" => Some(Operator::Lies(Comparison::Greater)),
        "$gte" => Some(Operator::Lies(Comparison::AtLeast)),
        "$lt" => Some(Operator::Lies(Comparison::Less)),
        "$lte" => Some(Operator::Lies(Comparison::AtMost)),
        "$in" => Some(Operator::In),
        "$nin" => Some(Operator::Nin),
        "$all" => Some(Operator::All),
        "$elemMatch" => Some(Operator::ElementMatch),
        "$size" => Some(Operator::Size),
        "$exists" => Some(Operator::Exists),
        "$type" => Some(Operator::Kind),
        "$mod" => Some(Operator::Mod),
        "$regex" => Some(Operator::Regex),
        "$options" => Some(Operator::Options),
        "$not" => Some(Operator::Not),
        _ => None,
    }
}

/// Whether a key is, or should be, an operator: it begins with `$`.
pub fn begins_with_dollar(key: &str) -> bool
    ensures { result ≡ dollar_in key.now }
{
    match key.as_bytes() {
        [] => false,
        [first, ..] => *first == b'$',
    }
}

/// Whether a key makes the object that begins with it one of operators.
fn names_operator(key: &str) -> bool
    ensures { result ≡ operator_named_by key.now }
{
    begins_with_dollar(key) && !is_reserved_key(key) && key != "$ref"
}

/// Whether an object with these members is one of operators: its first key is for an operator.
pub(crate) fn are_operators(members: &[(&str, Value<'_>)]) -> bool
    ensures { result ≡ operators_in (members_view members.now) }
{
    match members {
        [] => false,
        [(key, _), ..] => names_operator(*key),
    }
}

/// Whether a tree is an object of operators: its first key begins with `$`, and marks no value of Extended JSON.
pub fn has_operators(tree: &Value<'_>) -> bool
    ensures { result ≡ operators_inside (data_of tree.now) }
{
    match tree {
        Value::Object(members) => are_operators(members.as_slice()),
        _ => false,
    }
}

/// Whether these members are operators that are asked of each item itself.
pub(crate) fn are_of_items(members: &[(&str, Value<'_>)]) -> bool
    ensures { result ≡ of_items_in (members_view members.now) }
{
    match members {
        [] => false,
        [(key, _), ..] => operator_named(*key).is_some(),
    }
}

/// Whether an object has a member of this key.
fn has_key(members: &[(&str, Value<'_>)], wanted: &str) -> bool
    ensures { result ≡ has_key_in wanted.now (members_view members.now) }
{
    for (key, _) in members {
        if *key == wanted {
            return true;
        }
    }
    false
}

/// Whether these members have `$options` without `$regex`, whose options they are.
pub(crate) fn has_lone_options(members: &[(&str, Value<'_>)]) -> bool
    ensures { result ≡ lone_options_in (members_view members.now) }
{
    has_key(members, "$options") && !has_key(members, "$regex")
}

/// The text that a tree is, and an empty one for any other tree.
fn text_or_none<'a>(tree: &'a Value<'_>) -> &'a str
    ensures { result.now ≡ text_of_tree (data_of tree.now) }
{
    match tree {
        Value::String(text) => *text,
        _ => "",
    }
}

/// The options beside a pattern: the first of them, if that is a text.
pub(crate) fn options_in<'a>(members: &'a [(&str, Value<'_>)]) -> &'a str
    ensures { result.now ≡ options_among (members_view members.now) }
{
    for (key, body) in members {
        if *key == "$options" {
            return text_or_none(body);
        }
    }
    ""
}
