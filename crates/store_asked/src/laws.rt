//! Laws of what a question keeps. Each function below does nothing, and its contract is the law.

ghost use Rattle.std.specs.List.{AllByRecursion};
ghost use Rattle.std.specs.Prelude.{Some};
ghost use Rattle.bson_base.specs.Value.{Members, document as tree};
ghost use Rattle.store_model.specs.Filter.{Filter, Selects};
ghost use Rattle.store_model.specs.Reading.{Documents};
ghost use Rattle.store_model.specs.State.{Picks};
ghost use Rattle.store_question.specs.Asked.{Answers, Asked};
ghost use Rattle.store_question.specs.Keeps.{Keeps};

/// If a filter selects each of some documents that answers a question, the question keeps of what the filter selects of
/// them what it keeps of all.
pub fn filter_in_front()
    ensures { (q : Asked) (f : Filter) (ds chosen kept : Documents)
        → AllByRecursion (λ (d : Members). Answers q (Some (tree d)) → Selects f (tree d)) ds
        → Picks f ds chosen → Keeps q chosen kept → Keeps q ds kept }
{}
