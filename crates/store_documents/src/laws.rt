//! Laws on the definitions alone: each is the contract of a function that does nothing.

ghost use Rattle.std.specs.Prelude.{◌≡◌, ◌++◌, ℕ, List, length, Some, None, MatchOption, Option};
ghost use Rattle.serde_json.specs.Data.{Data};
ghost use Rattle.store_model.specs.Reading.{Documents, Reading, AreRead, ReadsBytes, ReadsStream, ReadsTrees};
ghost use Rattle.store_model.specs.State.{Appends, AreKept, first_refusal, number, refused};
ghost use Rattle.store_model.specs.declared.error.ErrorKind.{ErrorKind as Kind};
ghost use Rattle.store_model.specs.declared.error.ErrorKind.TheVariants.{DuplicateId};
ghost use Rattle.store_documents.specs.Keys.{first_taken, keys_of};

/// Bytes read as a document or can't be read: there is no third case. So every stream of bytes reads as some documents
/// down to its end or to what can't be read, and so does every list of trees.
pub fn inputs_have_readings()
    ensures bytes { (bytes : List ℕ) → (a : Reading) × ReadsBytes bytes a }
    ensures stream { (bytes : List ℕ) → (ds : Documents) × (stop : Option Kind)
        × ReadsStream bytes ds stop }
    ensures trees { (js : List Data) → (ds : Documents) × (stop : Option Kind)
        × ReadsTrees js ds stop }
{}

/// Documents as they are read, none of which is refused, are such as are kept.
pub fn judged_documents_are_kept()
    ensures { (ds : Documents) → AreRead ds → first_refusal 0 ds None ≡ None → AreKept ds }
{}

/// Documents go into a list by the written keys of their ids: all of them, or none if some key is there already, in
/// the list or from a document before.
pub fn rows_go_in()
    ensures { (ds more : Documents) → AreKept ds → AreKept more
        → MatchOption (first_taken 0 (keys_of ds) (keys_of more))
        (Appends 0 ds ds more (number (length more)) (ds ++ more))
        (λ i. Appends 0 ds ds more (refused DuplicateId (Some i)) ds) }
{}
