//! Why the names of a message give no message by number.

ghost use Rattle.std.specs.Prelude.{◌≡◌};
ghost use Rattle.message_reader.specs.declared.resolve_error.ResolveError.TheVariants.{Refused, OutOfMemory};

use delay_model::messages::Refusal;
use std::alloc::{AllocError, AllocFailed};

/// Why a message has no message by number.
#[derive(Clone, Copy, Debug, PartialEq, Eq)]
pub enum ResolveError {
    /// It is refused: `Unknown` or `Known`.
    Refused(Refusal),
    /// There was no memory for the new calls.
    OutOfMemory,
}

impl From<Refusal> for ResolveError {
    ghost from_gives = { λ refusal e. e ≡ Refused refusal };

    fn from(refusal: Refusal) -> ResolveError {
        ResolveError::Refused(refusal)
    }
}

impl From<AllocError> for ResolveError {
    ghost from_gives = { λ _ e. e ≡ OutOfMemory };

    fn from(_e: AllocError) -> ResolveError {
        ResolveError::OutOfMemory
    }
}

impl<T: Drop> From<AllocFailed<T>> for ResolveError {
    ghost from_gives = { λ _ e. e ≡ OutOfMemory };

    fn from(_e: AllocFailed<T>) -> ResolveError {
        ResolveError::OutOfMemory
    }
}
