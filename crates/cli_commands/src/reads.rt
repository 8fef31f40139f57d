//! The commands that print while they read.

ghost use Rattle.store_table.specs.Crash.{AddsNothing};
ghost use Rattle.bson_store.specs.Calls.{Relates, store_state};
ghost use Rattle.cli_commands.specs.declared.call.Call.TheVariants.{Export, Dump};
ghost use Rattle.store_table.specs.Moves.{WasOpen};
ghost use Rattle.store_model.specs.declared.error.ErrorKind.TheVariants.{Writer};
ghost use Rattle.cli_commands.specs.Execute.{Comes, Executed, Fails, SilentUnread, line_on, streams};
ghost use Rattle.bson_base.specs.Device.{Feed, CanRefuse};

use crate::dumping::Printer;
use crate::stop::Failure;
use bson_store::{Sink, Store};
use sqlite::Alter;

/// `export COLL`: the written documents are written to the output one after the other.
pub fn export<S: Alter + Drop, O: Sink>(
    store: &mut Store<S>,
    name: &str,
    output: &mut O,
) -> Result<(), Failure>
    requires { CanRefuse (O.tally output.old) }
    ensures step { (f : Feed) → Relates S.Store store.old store.new
        (Comes (Executed (line_on Export name.now) (streams f f (O.tally output.old)
        (O.tally output.new)) result)) }
    ensures open { WasOpen (store_state S.Store store.old) (store_state S.Store store.new) result }
    ensures crash { AddsNothing (store_state S.Store store.old) (store_state S.Store store.new) }
    ensures device { Fails Writer result (O.tally output.old).failures
        (O.tally output.new).failures }
    ensures unread { SilentUnread result output.old output.new }
{
    match store.export(name, output) {
        Ok(()) => Ok(()),
        Err(error) => Err(Failure::Refused(error)),
    }
}

/// `dump COLL`: the documents as canonical Extended JSON, one a line. A document that has no such form is reported
/// before anything is printed: the collection is walked twice, with one document held at a time.
pub fn dump<S: Alter + Drop, O: Sink>(
    store: &mut Store<S>,
    name: &str,
    output: &mut O,
) -> Result<(), Failure>
    requires { CanRefuse (O.tally output.old) }
    ensures step { (f : Feed) → Relates S.Store store.old store.new
        (Comes (Executed (line_on Dump name.now) (streams f f (O.tally output.old)
        (O.tally output.new)) result)) }
    ensures open { WasOpen (store_state S.Store store.old) (store_state S.Store store.new) result }
    ensures crash { AddsNothing (store_state S.Store store.old) (store_state S.Store store.new) }
    ensures device { Fails Writer result (O.tally output.old).failures
        (O.tally output.new).failures }
    ensures unread { SilentUnread result output.old output.new }
{
    if let Err(error) = store.check_json(name) {
        return Err(Failure::Refused(error));
    }
    let printer = Printer {
        output,
        failed: false,
    };
    match store.each_text(name, printer) {
        // What is taken out of the printer is known to be the output that went in.
        Ok(printer) => {
            let _output = printer.output;
            Ok(())
        }
        Err((error, printer)) => {
            let _output = printer.output;
            Err(Failure::Refused(error))
        }
    }
}
