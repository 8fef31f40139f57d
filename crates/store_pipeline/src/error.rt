//! Why a pipeline is stopped.

use std::alloc::AllocError;
use store_model::ErrorKind;
use store_update::UpdateError;

/// Why a pipeline is stopped.
#[derive(Clone, Copy, Debug, PartialEq, Eq)]
pub enum PipelineError {
    /// A sum or an average isn't calculated: `Decimal` of a number that is a decimal, `Overflow` of integers whose sum
    /// doesn't fit in 64 bits.
    Calculation(UpdateError),
    /// A document that a stage makes can't be written, by `TooDeep`, `Nul` or `TooLong`; or `Memory`, if memory ran out.
    Document(ErrorKind),
}

impl From<AllocError> for PipelineError {
    ghost use Rattle.std.specs.Prelude.{◌≡◌};
    ghost use Rattle.store_model.specs.declared.error.ErrorKind.TheVariants.{Memory};
    ghost use Rattle.store_pipeline.specs.declared.error.PipelineError.TheVariants.{Document};

    ghost from_gives = { λ _ fault. fault ≡ Document Memory };

    fn from(_error: AllocError) -> PipelineError {
        PipelineError::Document(ErrorKind::Memory)
    }
}
