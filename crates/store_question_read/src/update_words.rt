//! The words of the language of updates.

ghost use Rattle.std.specs.Prelude.{◌≡◌};
ghost use Rattle.store_question_read.specs.Read.{operator_of};

/// The operators that change the value at a path.
#[derive(Clone, Copy, Drop)]
pub(crate) enum Changing {
    Set,
    SetOnInsert,
    Unset,
    Inc,
    Mul,
    Min,
    Max,
    CurrentDate,
    Push,
    AddToSet,
    Pull,
    PullAll,
    Pop,
}

/// The operators.
#[derive(Clone, Copy, Drop)]
pub(crate) enum Operator {
    At(Changing),
    Rename,
}

/// The operator that is written so at the top of an update, with its `$`. None if no operator has this name.
#[tactic(auto, unfolding(crate::specs::Read::operator_of))]
pub(crate) fn operator_named(name: &str) -> Option<Operator>
    ensures { result ≡ operator_of name.now }
{
    match name {
        "$set" => Some(Operator::At(Changing::Set)),
        "$setOnInsert" => Some(Operator::At(Changing::SetOnInsert)),
        "$unset" => Some(Operator::At(Changing::Unset)),
        "$inc" => Some(Operator::At(Changing::Inc)),
        "$mul" => Some(Operator::At(Changing::Mul)),
        "$min" => Some(Operator::At(Changing::Min)),
        "$max" => Some(Operator::At(Changing::Max)),
        "$currentDate" => Some(Operator::At(Changing::CurrentDate)),
        "$push" => Some(Operator::At(Changing::Push)),
        "$addToSet" => Some(Operator::At(Changing::AddToSet)),
        "$pull" => Some(Operator::At(Changing::Pull)),
        "$pullAll" => Some(Operator::At(Changing::PullAll)),
        "$pop" => Some(Operator::At(Changing::Pop)),
        "$rename" => Some(Operator::Rename),
        _ => None,
    }
}
