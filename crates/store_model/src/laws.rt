//! Laws on the definitions alone: each is the contract of a function that does nothing.

ghost use Rattle.std.specs.Prelude.{◌≡◌, ◌≤◌, ◌↔◌, ◌⊎◌, ℕ, ◌+◌, ◌*◌, List, [], ◌∷◌, ◌++◌, length, map, codes, true, false, Option, Some, None};
ghost use Rattle.bson_base.specs.declared.spec.ElementType.TheVariants.{Array};
ghost use Rattle.std.specs.List.{flat_map};
ghost use Rattle.serde_json.specs.Data.{Data, object, Members as JsonMembers};
ghost use Rattle.bson_base.specs.Kinds.{AreBytes, IsPlain, IsSound};
ghost use Rattle.bson_base.specs.Value.{Value, document, Members, no_members};
ghost use Rattle.bson_bytes.specs.Encode.{encode, size};
ghost use Rattle.bson_frame.specs.Frame.{length_limit, size_limit};
ghost use Rattle.bson_meaning.specs.JsonTrees.{IsJson};
ghost use Rattle.bson_meaning.specs.Meaning.{norm_members_in_order, Same, key};
ghost use Rattle.store_model.specs.Filter.{at, equals, is_of, no, any_of, no_filters, Filter, Path, SameFilter, Selects, IsSoundFilter, frames};
ghost use Rattle.store_model.specs.Rows.{int_one, a_text, with_array, with_a, with_id, with_two, to_v, broken_stream};
ghost use Rattle.store_model.specs.declared.error.ErrorKind.TheVariants.{BadKey, JsonRefused, EndInside, BadLength, NoId, DuplicateId};
ghost use Rattle.store_model.specs.Reading.{Documents, Reading, readable, unreadable, read_value, ReadsBytes, ReadsTree, Cuts, ReadsStream, ReadsTrees, AreAllJson, AreRead, IsReading, IsStop, MayBoth};
ghost use Rattle.store_model.specs.State.{State, HasId, id_key, in_bytes, in_json, replace, set, unset, import, export, first_refusal, done, flag, refused, dump, Command, on, Reply, number, bytes, json_list, Answers, IsName, Step, IsCommand, AreCommands, IsKept, AreKept, HaveOwnIds, IsStore, IsSoundIfAny, list_of, store};
ghost use Rattle.store_model.specs.declared.error.ErrorKind.{ErrorKind as Kind};
ghost use Rattle.store_model.specs.Same.{SameStates, SameCommand, SameCommands, SameReply, SameReplies};
ghost use Rattle.store_model.specs.Run.{Denial, Denials, Run, SparesDecided, IsUnread, Turn, calls_of, replies_of};
ghost use Rattle.store_model.specs.Left.{Is, IsEndOrOneMore, LeftAlong, LeftBy};
ghost use Rattle.store_model.specs.Table.{Follows, DocumentRow, DocumentTable, state_of, documents_of, AreOf, with_document, Serves, RunThrough, only_id, own_id, AreRows};

/// A filter selects both or neither of two values of the same meaning, and so do two filters of one shape with values
/// of the same meaning.
pub fn filters_go_by_meaning()
    ensures one { (f : Filter) (v w : Value) → IsSoundFilter f → IsSound v → IsSound w → Same v w
        → Selects f v ↔ Selects f w }
    ensures two { (f g : Filter) (v w : Value) → SameFilter f g → IsSound v → IsSound w → Same v w
        → Selects f v ↔ Selects g w }
{}

/// A path meets few members.
pub fn paths_are_short()
    ensures { (path : Path) (d : Members) → 2 * frames (document d) path + 4 ≤ size d }
{}

/// A step has one reply, and leaves one state.
pub fn one_answer()
    ensures { (s : State) (c : Command) (r q : Reply) (t u : State) → Step s c r t → Step s c q u → (r ≡ q) × (t ≡ u) }
{}

/// A step of a command as it is read leaves a state as states are: nonempty lists of kept documents under good names,
/// no two of one list with the same `_id`. There the list of a name stored again changes nothing, so a refused call
/// leaves the state.
pub fn steps_keep_states()
    ensures whole { (s : State) (c : Command) (r : Reply) (t : State) → IsStore s → IsCommand c → Step s c r t → IsStore t }
    ensures refused { (s : State) (n : List ℕ) → IsStore s → store s n (list_of s n) ≡ s }
{}

/// From states of the same meaning, two commands of the same meaning have replies of the same meaning, and leave states
/// of the same meaning.
pub fn step_congruence()
    ensures { (c d : Command) (s t : State) (r q : Reply) (s2 t2 : State)
        → SameCommand c d → IsCommand c → IsCommand d → SameStates s t → IsStore s → IsStore t
        → Step s c r s2 → Step t d q t2 → SameReply c r q × SameStates s2 t2 }
{}

/// The same of whole lists of commands, if the same is denied to both.
pub fn congruence()
    ensures { (w : Denials) (cs ds : List Command) (s t : State) (rs qs : List Reply) (s2 t2 : State)
        → SameCommands cs ds → AreCommands cs → AreCommands ds → SameStates s t → IsStore s → IsStore t
        → Run w 0 s cs rs s2 → Run w 0 t ds qs t2 → SameReplies cs rs qs × SameStates s2 t2 }
{}

/// A run leaves a state as states are.
pub fn runs_keep_states()
    ensures { (w : Denials) (cs : List Command) (rs : List Reply) (s t : State) → AreCommands cs → IsStore s
        → Run w 0 s cs rs t → IsStore t }
{}

/// Replies about one collection, and its list at the end, depend only on its list, the calls to it, and what is denied
/// to these.
pub fn one_collection()
    ensures { (n : List ℕ) (w v : Denials) (cs ds : List Command) (rs qs : List Reply) (s t s2 t2 : State)
        → list_of s n ≡ list_of t n → calls_of n w 0 cs ≡ calls_of n v 0 ds
        → Run w 0 s cs rs s2 → Run v 0 t ds qs t2
        → (replies_of n cs rs ≡ replies_of n ds qs) × (list_of s2 n ≡ list_of t2 n) }
{}

/// A run through tables is a run of the states that they stand for, and denies nothing to what is decided before
/// anything grows.
pub fn tables_run_as_states()
    ensures run { (w : Denials) (a b : DocumentTable) (cs : List Command) (rs : List Reply) → RunThrough w 0 a cs rs b
        → Run w 0 (state_of a) cs rs (state_of b) }
    ensures spared { (w : Denials) (a b : DocumentTable) (cs : List Command) (rs : List Reply) → RunThrough w 0 a cs rs b
        → SparesDecided w 0 cs }
{}

/// What inputs read as is clean, has numbers and texts of its kinds and no key twice, and at most 100 levels. Else a
/// kind of 3 to 11 is reported.
pub fn readings_are_sound()
    ensures bytes { (bs : List ℕ) (a : Reading) → AreBytes bs → ReadsBytes bs a → IsReading a }
    ensures tree { (j : Data) (a : Reading) → IsJson j → ReadsTree j a → IsReading a }
    ensures value { (j : Data) → IsJson j → IsSoundIfAny (read_value j) }
    ensures stream { (bs : List ℕ) (ds : Documents) (stop : Option Kind) → AreBytes bs → ReadsStream bs ds stop → AreRead ds × IsStop stop }
    ensures trees { (js : List Data) (ds : Documents) (stop : Option Kind) → AreAllJson js → ReadsTrees js ds stop → AreRead ds × IsStop stop }
{}

/// Bytes read as one document or are refused with one kind, except that either of Faulty and TooDeep is reported if
/// both hold. A JSON tree has one reading.
pub fn one_reading()
    ensures document { (bs : List ℕ) (d e : Members) → ReadsBytes bs (readable d) → ReadsBytes bs (readable e) → d ≡ e }
    ensures either { (bs : List ℕ) (d : Members) (k : Kind) → ReadsBytes bs (readable d) → ReadsBytes bs (unreadable k) → ⊥ }
    ensures refusal { (bs : List ℕ) (k l : Kind) → ReadsBytes bs (unreadable k) → ReadsBytes bs (unreadable l)
        → (k ≡ l) ⊎ (MayBoth k × MayBoth l) }
    ensures tree { (j : Data) (a b : Reading) → ReadsTree j a → ReadsTree j b → a ≡ b }
{}

/// Bytes of many documents, and lists of trees, that all read, read as nothing else.
pub fn many_have_one_reading()
    ensures stream { (bs : List ℕ) (ds more : Documents) (stop : Option Kind) → ReadsStream bs ds None → ReadsStream bs more stop
        → (more ≡ ds) × (stop ≡ None) }
    ensures trees { (js : List Data) (ds more : Documents) (stop : Option Kind) → ReadsTrees js ds None → ReadsTrees js more stop
        → (more ≡ ds) × (stop ≡ None) }
{}

/// Every JSON tree has a reading. That of an object is never decided before anything grows.
pub fn trees_have_readings()
    ensures any { (j : Data) → (a : Reading) × ReadsTree j a }
    ensures object { (js : JsonMembers) → (a : Reading) × ReadsTree (object js) a × (IsUnread in_json a → ⊥) }
{}

/// The written form of a kept document reads as that document, and as nothing else.
pub fn written_documents_read()
    ensures { (d : Members) (a : Reading) → IsKept d → ReadsBytes (encode d) a ↔ (a ≡ readable d) }
{}

/// Kept documents with ids of their own go into an empty list.
pub fn documents_go_in()
    ensures { (ds : Documents) → AreKept ds → HaveOwnIds ds → Answers (import ds None) [] (number (length ds)) ds }
{}

/// What an accepted export wrote reads as the documents of the list and nothing else, and an import of it into an empty
/// collection returns their number and leaves that list.
pub fn exports_come_back()
    ensures read { (ds more : Documents) (stop : Option Kind) → AreKept ds
        → ReadsStream (flat_map encode ds) more stop ↔ ((more ≡ ds) × (stop ≡ None)) }
    ensures restored { (s s2 t u : State) (n m bs : List ℕ) (more : Documents) (stop : Option Kind) (q : Reply) → IsStore s
        → Step s (on n export) (bytes bs) s2 → ReadsStream bs more stop
        → IsName m → list_of t m ≡ [] → Step t (on m (import more stop)) q u
        → (q ≡ number (length (list_of s n))) × (list_of u m ≡ list_of s n) }
{}

/// What an accepted dump gave, loaded into an empty collection, leaves the list in normal form with the keys in order.
pub fn dumps_come_back()
    ensures restored { (s s2 t u : State) (n m : List ℕ) (js : List Data) (more : Documents) (stop : Option Kind) (q : Reply) → IsStore s
        → Step s (on n dump) (json_list js) s2 → ReadsTrees js more stop
        → IsName m → list_of t m ≡ [] → Step t (on m (import more stop)) q u
        → (q ≡ number (length (list_of s n))) × (list_of u m ≡ map (λ d. norm_members_in_order d) (list_of s n)) }
{}

/// A run through tables can go on by one more call. So a list of calls, each served by itself, is a run.
pub fn runs_go_on()
    ensures { (w : Denials) (a m b : DocumentTable) (cs : List Command) (rs : List Reply) (c : Command) (r : Reply)
        → RunThrough w 0 a cs rs m → Serves m c r b
        → (v : Denials) × RunThrough v 0 a (cs ++ c ∷ []) (rs ++ r ∷ []) b }
{}

/// After a run that began with a single state, a crash leaves the state at its end, or what one of the commands makes
/// of that: one that was refused, out of memory or by the database, after the last accepted one.
pub fn crashes_leave_the_end()
    ensures { (w : Denials) (s t : State) (cs : List Command) (rs : List Reply) (run : Run w 0 s cs rs t)
        → IsStore s → (x : State) → LeftAlong Is (λ y. y ≡ s) w 0 s cs rs t run x → IsEndOrOneMore cs t x }
{}

/// What a crash leaves after a run that began with a single state goes on by one more command.
pub fn crashes_go_on()
    ensures { (w : Denials) (s t u : State) (cs : List Command) (rs : List Reply) (c : Command) (r : Reply) (run : Run w 0 s cs rs t)
        (o : Option Denial) → Turn o t c r u → (v : Denials) × (more : Run v 0 s (cs ++ c ∷ []) (rs ++ r ∷ []) u)
        × ((x : State) → LeftBy Is (LeftAlong Is (λ y. y ≡ s) w 0 s cs rs t run)
        t c r x → LeftAlong Is (λ y. y ≡ s) v 0 s (cs ++ c ∷ []) (rs ++ r ∷ []) u more x) }
{}

/// A refused command leaves the state.
pub fn refusals_stay()
    ensures { (s t : State) (c : Command) (k : Kind) (i : Option ℕ) → IsStore s → Step s c (refused k i) t → t ≡ s }
{}

/// A table stands for the documents of its rows, in their order. Rows that come last put their documents last in the
/// list of their name; a row that changes or goes does so in its place there.
pub fn tables_stand_for_lists()
    ensures lists { (a : DocumentTable) (n : List ℕ) → list_of (state_of a) n ≡ documents_of a n }
    ensures last { (a new : DocumentTable) (n : List ℕ) → AreOf n new
        → state_of (a ++ new) ≡ store (state_of a) n (list_of (state_of a) n ++ map (λ r. r.document) new) }
    ensures there { (front : DocumentTable) (r : DocumentRow) (back : DocumentTable)
        → list_of (state_of (front ++ r ∷ back)) r.name ≡ documents_of front r.name ++ r.document ∷ documents_of back r.name }
    ensures changed { (front : DocumentTable) (r : DocumentRow) (back : DocumentTable) (d : Members)
        → state_of (front ++ with_document d r ∷ back)
        ≡ store (state_of (front ++ r ∷ back)) r.name (documents_of front r.name ++ d ∷ documents_of back r.name) }
    ensures gone { (front : DocumentTable) (r : DocumentRow) (back : DocumentTable)
        → state_of (front ++ back) ≡ store (state_of (front ++ r ∷ back)) r.name (documents_of front r.name ++ documents_of back r.name) }
{}

/// Worked rows: the values at paths and how far they go, what is selected, what calls return on small lists.
pub fn worked_rows()
    ensures found { at (document with_array) (codes "v" ∷ codes "0" ∷ []) ≡ Some a_text }
    ensures absent { at (document with_array) (codes "v" ∷ codes "7" ∷ []) ≡ None }
    ensures whole { frames (document with_array) [] ≡ 0 }
    ensures second { frames (document with_array) to_v ≡ 2 }
    ensures none { frames (document with_array) (codes "x" ∷ []) ≡ 2 }
    ensures no_place { frames (document with_array) (codes "v" ∷ codes "01" ∷ []) ≡ 3 }
    ensures behind { frames (document with_array) (codes "v" ∷ codes "0" ∷ codes "z" ∷ []) ≡ 3 }
    ensures equal { Selects (equals (codes "v" ∷ codes "0" ∷ []) a_text) (document with_array) }
    ensures kind { Selects (is_of to_v Array) (document with_array) }
    ensures nothing { Selects (no (any_of no_filters)) (document with_array) }
    ensures first_without { first_refusal 0 (no_members ∷ []) None ≡ Some (NoId, 0) }
    ensures then_unread { first_refusal 0 (with_id ∷ []) (Some BadLength) ≡ Some (BadLength, 1) }
    ensures cut { Cuts broken_stream (encode with_id ∷ []) (Some BadLength) }
    ensures empty { ReadsStream [] [] None }
    ensures few { ReadsStream (0x1F ∷ 0 ∷ 0 ∷ []) [] (Some EndInside) }
    ensures set_a { Answers (set int_one (codes "a") (Some a_text)) (with_a int_one ∷ with_two ∷ []) done (with_a a_text ∷ with_two ∷ []) }
    ensures set_id { Answers (set int_one id_key (Some a_text)) (with_a int_one ∷ []) (refused BadKey None) (with_a int_one ∷ []) }
    ensures set_none { Answers (set int_one (codes "a") None) [] (refused JsonRefused None) [] }
    ensures unset_a { Answers (unset int_one (codes "a")) (with_a int_one ∷ []) (flag true) (with_id ∷ []) }
    ensures unset_again { Answers (unset int_one (codes "a")) (with_id ∷ []) (flag false) (with_id ∷ []) }
    ensures in_its_place { Answers (replace in_bytes (readable (with_a int_one))) (with_id ∷ with_two ∷ []) done (with_a int_one ∷ with_two ∷ []) }
    ensures again { Answers (import (with_two ∷ with_id ∷ []) None) (with_id ∷ []) (refused DuplicateId (Some 1)) (with_id ∷ []) }
{}

/// Ids are compared by their written keys: an id that a kept document has can be written, with the key of that
/// document's own; and a key that is equal to it is that of an id which the document has.
pub fn ids_go_by_keys()
    ensures plain { (d : Members) (id : Value) → IsKept d → IsSound id → HasId id d → IsPlain id }
    ensures short { (d : Members) (id : Value) → IsKept d → IsSound id → HasId id d → length (key (only_id id)) ≤ size_limit }
    ensures keys { (d : Members) (id : Value) → IsKept d → IsSound id → HasId id d → key (only_id id) ≡ key (own_id d) }
    ensures back { (d : Members) (id : Value) → IsKept d → IsSound id → IsPlain id → length (key (only_id id)) ≤ length_limit
        → key (only_id id) ≡ key (own_id d) → HasId id d }
{}

/// Rows of kept documents under good names, no two of one name with the same written key, stand for a state, and no
/// others do.
pub fn rows_are_a_state()
    ensures { (rows : DocumentTable) → AreRows rows ↔ IsStore (state_of rows) }
{}

/// If a command leaves the state, it leaves every row as it was.
pub fn rows_stay()
    ensures { (a b : DocumentTable) → Follows a b → state_of b ≡ state_of a → b ≡ a }
{}
