//! Documents as lines of JSON, printed while the store hands them out.

ghost use Rattle.std.specs.Prelude.{◌≡◌, false};
ghost use Rattle.bson_base.specs.Device.{CanRefuse};

use crate::write_line;
use bson_store::{ErrorKind, Sink, StoreError, TakeText};

/// Prints the texts, one a line, until that fails.
#[derive(Drop)]
pub struct Printer<'w, O: Sink> {
    pub output: &'w mut O,
    pub failed: bool,
    ghost ready: { failed ≡ false → CanRefuse (O.tally output.now) },
}

impl<'w, O: Sink> TakeText for Printer<'w, O> {
    ghost use Rattle.store_model.specs.declared.error.ErrorKind.TheVariants.{Writer};
    ghost use Rattle.store_model.specs.State.{json_list};
    ghost use Rattle.cli_commands.specs.Execute.{IsFault};
    ghost use Rattle.cli_commands.specs.Printing.{Prints};

    ghost took = { λ first p js. (first.output.ghost_name ≡ p.output.ghost_name) × (p.failed ≡ false)
        × Prints (json_list js) (O.tally first.output.now) (O.tally p.output.now) };

    ghost refused = { λ first p _ e. (first.output.ghost_name ≡ p.output.ghost_name)
        × IsFault Writer (O.tally first.output.now).failures (O.tally p.output.now).failures e };

    ghost stands = { λ first p. (first.output.ghost_name ≡ p.output.ghost_name) × (p.failed ≡ false)
        × ((O.tally p.output.now).failures ≡ (O.tally first.output.now).failures) };

    ghost stopped = { λ first p e. (first.output.ghost_name ≡ p.output.ghost_name)
        × IsFault Writer (O.tally first.output.now).failures (O.tally p.output.now).failures e };

    /// Writes the text and a line feed. Refused by Writer if that fails; each later text is then refused unwritten.
    fn take_text(&mut self, text: &str) -> Result<(), StoreError> {
        if self.failed {
            return Err(StoreError::from(ErrorKind::Writer));
        }
        self.failed = true;
        write_line(self.output, text)?;
        self.failed = false;
        Ok(())
    }
}
