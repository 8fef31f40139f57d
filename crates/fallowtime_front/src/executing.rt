//! A change of one document over a writer, and what is printed of it.

ghost use Rattle.std.specs.Prelude.{◌≡◌, IfSome, None};
ghost use Rattle.bson_base.specs.Device.{CanRefuse};
ghost use Rattle.sqlite_pool.specs.Stored.{Keeps};
ghost use Rattle.store_table.specs.Writer.{state_of};
ghost use Rattle.fallowtime_front.specs.Left.{ExecutesInPages};

use crate::changing::change;
use bson_base::Sink;
use fallowtime_commands::{Form, Refusal, insert_text, print_outcome};
use fallowtime_requests::Request;
use sqlite_disk::Disk;
use std::alloc::Global;
use store_table::pages::Writer;

/// Does what is requested of the collection `name` as `change` does, and prints what that returns. None as of `change`,
/// and then nothing is printed.
///
/// Refused as `change` is, and then nothing is printed; or by Writer, and then what was requested is done.
#[tactic(auto, using(crate::proofs::WayLemmas::untouched))]
pub fn execute_in_pages<D: Disk + Drop, O: Sink>(
    alloc: Global,
    writer: &mut Writer<D>,
    name: &str,
    request: &mut Request<'_>,
    form: Form,
    output: &mut O,
) -> Option<Result<(), Refusal>>
    requires { CanRefuse (O.tally output.old) }
    ensures executes { IfSome result (λ r. ExecutesInPages name.now request.old form
        (O.tally output.old) (O.tally output.new) r writer.old writer.new) }
    ensures untold { result ≡ None → Keeps (state_of writer.old) (state_of writer.new) }
    ensures kept { result ≡ None → request.new ≡ request.old }
    ensures silent { result ≡ None → output.new ≡ output.old }
{
    let Ok(id) = insert_text(alloc, name, request, form) else {
        return None;
    };
    let outcome = change(alloc, writer, name, request)?;
    Some(print_outcome(alloc, request, outcome, id.as_str(), form, output))
}
