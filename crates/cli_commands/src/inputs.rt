//! The command that reads the lines of its input.

ghost use Rattle.std.specs.Prelude.{◌≡◌, ℕ, [], IfOk};
ghost use Rattle.bson_base.specs.Device.{CanFail};
ghost use Rattle.bson_store.specs.Calls.{Relates, store_state};
ghost use Rattle.cli_commands.specs.declared.call.Call.TheVariants.{Load};
ghost use Rattle.cli_commands.specs.Commands.{AsksFor, Complains};
ghost use Rattle.store_table.specs.Moves.{WasOpen};
ghost use Rattle.store_model.specs.declared.error.ErrorKind.TheVariants.{Reader};
ghost use Rattle.cli_commands.specs.Execute.{IsReported, IsUnasked, Performs};
ghost use Rattle.cli_commands.specs.Leaving.{LeavesBy};
ghost use Rattle.cli_commands.specs.declared.answer.Answer.TheVariants.{Number};

use crate::answer::{Answer, number};
use crate::stop::Failure;
use crate::texts::judged_input;
use bson_store::{Source, Store};
use sqlite::Alter;
use std::alloc::Global;

/// `load COLL`: the number of documents that the input had, one a line. The lines are the only texts that aren't among
/// the words: one that can't be read is found here, before the store is asked.
pub fn load<S: Alter + Drop, I: Source>(
    alloc: Global,
    store: &mut Store<S>,
    name: &str,
    input: &mut I,
) -> Result<Answer, Failure>
    requires { CanFail (I.feed input.old) }
    ensures moves { Relates S.Store store.old store.new
        (Performs (AsksFor Load name.now [] (I.feed input.old) (I.feed input.new))
        (IsUnasked Load name.now [] (I.feed input.old) (I.feed input.new))
        (Complains Load [] (I.feed input.old) (I.feed input.new)) result) }
    ensures open { WasOpen (store_state S.Store store.old) (store_state S.Store store.new) result }
    ensures device { IsReported Reader result (I.feed input.old).failures
        (I.feed input.new).failures }
    ensures crash { LeavesBy (AsksFor Load name.now [] (I.feed input.old) (I.feed input.new))
        (λ _. ⊥) result (store_state S.Store store.old) (store_state S.Store store.new) }
    ensures number { IfOk result (λ answer. (count : ℕ) × (answer ≡ Number count)) }
{
    let loader = judged_input(alloc, input)?;
    number(store.load(name, loader))
}
