//! Laws on what the calls are proved to do: each is the contract of a function that does nothing.

ghost use Rattle.std.specs.Prelude.{◌≡◌, ◌++◌, ℕ, List, [], map, Ok, Some};
ghost use Rattle.serde_json.specs.Data.{Data};
ghost use Rattle.bson_base.specs.Device.{Feed, Tally};
ghost use Rattle.bson_meaning.specs.Meaning.{norm_members_in_order};
ghost use Rattle.store_table.specs.Rows.{TableRow};
ghost use Rattle.store_model.specs.Reading.{ReadsStream, ReadsTrees};
ghost use Rattle.store_model.specs.Same.{SameReplies, SameStates};
ghost use Rattle.store_model.specs.State.{bytes, dump, export, json_list, number, on};
ghost use Rattle.store_model.specs.Table.{DocumentTable, documents_of, state_of};
ghost use Rattle.sqlite.specs.Effect.{Database};
ghost use Rattle.sqlite.specs.Held.{state};
ghost use Rattle.sqlite.specs.State.{IsLive, Opens};
ghost use Rattle.store_model.specs.Left.{HoldsEndOrOneMore, IsEndOrOneMore};
ghost use Rattle.store_model.specs.State as model;
ghost use Rattle.store_model.specs.State.{State as Lists};
ghost use Rattle.bson_store.specs.Left.{FindsState, Holds, HoldsOnce};
ghost use Rattle.bson_store.specs.Calls.{Does};
ghost use Rattle.bson_store.specs.Export.{SendsCollection};
ghost use Rattle.bson_store.specs.Many.{DoesMany, Imports, Restored};
ghost use Rattle.bson_store.specs.Runs.{MeanTheSame, RunsOnLists, reply_of};
ghost use Rattle.bson_store.specs.Shown.{Represents};
ghost use Rattle.bson_store.specs.declared.command.Command.{Command};
ghost use Rattle.bson_store.specs.declared.command.Reply.{Reply};

use sqlite::{Alter, Connection};

/// Two lists of commands that mean the same, run from tables that mean the same with the same denied to both, have
/// replies that mean the same and leave tables that mean the same.
pub fn runs_go_by_meaning()
    ensures { (xs ys : List Command) (rs qs : List Reply) (old older new newer : List TableRow)
        (a b : DocumentTable) → MeanTheSame xs ys → Represents old a → Represents older b
        → SameStates (state_of a) (state_of b) → (h : RunsOnLists a xs rs new) (k : RunsOnLists b ys qs newer)
        → h.denials ≡ k.denials → SameReplies h.asked (map reply_of rs) (map reply_of qs)
        × SameStates (state_of h.b) (state_of k.b) }
{}

/// What an accepted export wrote, an accepted import into an empty collection brings back, pattern for pattern: by
/// commands, and by calls over a writer and a reader that has just these bytes left.
pub fn exports_are_restored()
    ensures commands { (n m bs : List ℕ) (count : ℕ) (docs after more last : List TableRow)
        (a b : DocumentTable) → Does (on n export) (bytes bs) docs after → Represents docs a
        → DoesMany m (ReadsStream bs) (number count) more last → Represents more b
        → documents_of b m ≡ [] → Restored m (documents_of a n) count last }
    ensures calls { (n m taken bs : List ℕ) (old new : Tally) (fed left : Feed) (count : ℕ)
        (docs after more last : List TableRow) (a b : DocumentTable)
        → SendsCollection n old new (Ok tt) docs after → Represents docs a → old.taken ≡ Some taken
        → new.taken ≡ Some (taken ++ bs) → Imports m fed left (Ok count) more last → Represents more b
        → fed.supply.left ≡ Some bs → documents_of b m ≡ [] → Restored m (documents_of a n) count last }
{}

/// What an accepted dump gave, an accepted load into an empty collection brings back, in normal form with the keys in
/// order.
pub fn dumps_are_restored()
    ensures { (n m : List ℕ) (js : List Data) (count : ℕ) (docs after more last : List TableRow)
        (a b : DocumentTable) → Does (on n dump) (json_list js) docs after → Represents docs a
        → DoesMany m (ReadsTrees js) (number count) more last → Represents more b
        → documents_of b m ≡ [] → Restored m (map (λ d. norm_members_in_order d) (documents_of a n))
        count last }
{}

/// What a crash leaves is found again: if `sqlite` opens a connection over trees that hold a state, `Store::open`
/// finds that state by its clause `finds`. `crash` of each call says which state a crash leaves it; after `run` it is
/// that at the end of the commands, or what one of them makes of it (`ends`).
pub fn crashes_are_found<S: Alter>(_connection: &Connection<S>)
    ensures calls { (first : Database) (x : Lists) → Opens (state S.Store _connection.now)
        → IsLive (state S.Store _connection.now) → Holds first
        (state S.Store _connection.now).committed.trees x
        → FindsState HoldsOnce (state S.Store _connection.now) x }
    ensures runs { (first : Database) (asked : List model.Command) (end : Lists)
        → Opens (state S.Store _connection.now) → IsLive (state S.Store _connection.now)
        → HoldsEndOrOneMore (Holds first) asked end (state S.Store _connection.now).committed.trees
        → (x : Lists) × FindsState HoldsOnce (state S.Store _connection.now) x
        × IsEndOrOneMore asked end x }
{}
