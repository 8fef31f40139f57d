//! Display that leaves a formatter's options aside, so that no width, fill or precision takes effect.

ghost use Rattle.std.specs.Prelude.{◌≡◌};
ghost use Rattle.std.specs.Fmt.{IsFlush, HasWrittenStyled, DisplaysOnOk, DisplaysStyledOnOk};

use std::fmt;

// A writer that passes each text to a formatter as it is.
#[derive(Drop)]
struct Through<'a, W> {
    f: &'a mut fmt::Formatter<W>,
}

impl<'a, W: fmt::Write> fmt::Write for Through<'a, W> {
    ghost write_str_gives = { λ s bs t. (IsFlush s.f.now → HasWrittenStyled W.write_str_gives s.f.now bs t.f.now) × (t.f.ghost_name ≡ s.f.ghost_name) };

    fn write_str(&mut self, text: &str) -> fmt::Result {
        self.f.write_str(text)
    }
}

/// Writes a value as `{}` does, whatever options the formatter has.
pub fn write_plainly<W: fmt::Write, D: fmt::Display + Drop>(
    f: &mut fmt::Formatter<W>,
    value: D,
) -> fmt::Result
    ensures plain { DisplaysOnOk W.write_str_gives f.old result (D.output value) f.new }
    ensures styled { DisplaysStyledOnOk W.write_str_gives f.old result (D.output value) f.new }
{
    let mut through = Through { f };
    fmt::Write::write(&mut through, value)
}
