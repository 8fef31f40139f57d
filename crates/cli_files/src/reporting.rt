//! What a program reports if it does no command, and the status that goes with it.

ghost use Rattle.std.specs.Prelude.{◌≡◌, ◌≢◌, None};
ghost use Rattle.std.specs.IoError.{error_kind};
ghost use Rattle.std.specs.declared.io.ErrorKind.TheVariants.{OutOfMemory};
ghost use Rattle.bson_base.specs.Device.{CanRefuse, TakesText};
ghost use Rattle.store_model.specs.declared.error.ErrorKind.TheVariants.{Memory};
ghost use Rattle.cli_commands.specs.Lines.{complaint_line, line, refusal_line};
ghost use Rattle.cli_commands.specs.declared.lines.UsageError.TheVariants.{Usage};
ghost use Rattle.cli_files.specs.Fault.{fault_line, kind_of};

use crate::fault::FileError;
use bson_base::Sink;
use cli_commands::{UsageError, write_complaint, write_line, write_refusal};
use std::io::{self, IsTerminal};
use store_model::ErrorKind;

/// The status of a refusal.
const REFUSED: u8 = 1;

/// The status of words that can't be read.
const MISUSED: u8 = 2;

/// Reports a refusal, and returns the status of one.
#[tactic(auto, using(crate::proofs::ReportLemmas::writes))]
pub fn refuse<F: Sink>(faults: &mut F, kind: ErrorKind) -> u8
    requires { CanRefuse (F.tally faults.old) }
    ensures status { result ≡ 1 }
    ensures line { TakesText (F.tally faults.old) (F.tally faults.new) (refusal_line kind None) }
{
    let _ = write_refusal(faults, kind, None);
    REFUSED
}

/// Reports that a file can't be used, and returns the status of that. At a terminal a second line says why.
pub fn refuse_file<F: Sink>(rt: &HostRuntime, faults: &mut F, error: FileError) -> u8
    requires { CanRefuse (F.tally faults.old) }
    ensures status { result ≡ 1 }
    ensures line { TakesText (F.tally faults.old) (F.tally faults.new)
        (refusal_line (kind_of error) None) }
{
    let status = refuse(faults, error.kind());
    if rt.stderr().is_terminal() {
        let _ = eprintln!(rt; "the file: {error}");
    }
    status
}

/// Reports why a file can't be used, as `fallowtime` does, and returns the status of that. At a terminal a second line
/// says it in words.
#[tactic(auto, using(crate::proofs::ReportLemmas::writes))]
pub fn report_file<F: Sink>(rt: &HostRuntime, faults: &mut F, error: FileError) -> u8
    requires { CanRefuse (F.tally faults.old) }
    ensures status { result ≡ 1 }
    ensures line { TakesText (F.tally faults.old) (F.tally faults.new) (line (fault_line error)) }
{
    let _ = write_line(faults, error.line());
    if rt.stderr().is_terminal() {
        let _ = eprintln!(rt; "the file: {error}");
    }
    REFUSED
}

/// Reports that the words are no line of the program's, and returns the status of that.
#[tactic(auto, using(crate::proofs::ReportLemmas::writes))]
pub fn misuse<F: Sink>(faults: &mut F) -> u8
    requires { CanRefuse (F.tally faults.old) }
    ensures status { result ≡ 2 }
    ensures line { TakesText (F.tally faults.old) (F.tally faults.new) (complaint_line Usage) }
{
    let _ = write_complaint(faults, UsageError::Usage);
    MISUSED
}

/// Reports that the words can't be read as texts, or out of memory, and returns the status of that.
pub fn unread<F: Sink>(error: io::Error, faults: &mut F) -> u8
    requires { CanRefuse (F.tally faults.old) }
    ensures memory { error_kind error ≡ OutOfMemory → (result ≡ 1)
        × TakesText (F.tally faults.old) (F.tally faults.new) (refusal_line Memory None) }
    ensures words { error_kind error ≢ OutOfMemory → (result ≡ 2)
        × TakesText (F.tally faults.old) (F.tally faults.new) (complaint_line Usage) }
{
    match error.kind() {
        io::ErrorKind::OutOfMemory => refuse(faults, ErrorKind::Memory),
        _ => misuse(faults),
    }
}
