//! Why a phase has no answer.

use rb_base::NoMemory;
use rdl_base::Fault;
use std::alloc::{AllocError, AllocFailed};
use thiserror::Error;

/// Why a phase has no answer: rules of it are broken, or memory was refused.
#[derive(Debug, Drop, Error)]
pub enum PhaseError {
    /// All failures of the phase, by place, and at one place in the order of the table of rules.
    #[error("the source breaks rules")]
    Faults(Vec<Fault>),
    /// Memory was refused.
    #[error("out of memory")]
    NoMemory,
}

impl From<AllocError> for PhaseError {
    ghost use Rattle.std.specs.Prelude.{◌≡◌};
    ghost use Rattle.rdl_failures.specs.declared.error.PhaseError.TheVariants.{NoMemory};

    ghost from_gives = { λ _ e. e ≡ NoMemory };

    fn from(_: AllocError) -> Self {
        PhaseError::NoMemory
    }
}

impl<T: Drop> From<AllocFailed<T>> for PhaseError {
    ghost use Rattle.std.specs.Prelude.{◌≡◌};
    ghost use Rattle.rdl_failures.specs.declared.error.PhaseError.TheVariants.{NoMemory};

    ghost from_gives = { λ _ e. e ≡ NoMemory };

    fn from(_: AllocFailed<T>) -> Self {
        PhaseError::NoMemory
    }
}

impl From<NoMemory> for PhaseError {
    ghost use Rattle.std.specs.Prelude.{◌≡◌};
    ghost use Rattle.rdl_failures.specs.declared.error.PhaseError.TheVariants as error;

    ghost from_gives = { λ _ e. e ≡ error.NoMemory };

    fn from(_: NoMemory) -> Self {
        PhaseError::NoMemory
    }
}
