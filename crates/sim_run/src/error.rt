use rb_base::NoMemory;
use std::alloc::{AllocError, AllocFailed};
use thiserror::Error;
use v_syntax::VError;

/// Why there is no run.
#[derive(Debug, Drop, Error)]
pub enum SimError {
    /// The bytes are no well-formed module.
    #[error("no well-formed module")]
    Verilog(VError),
    /// The table has a problem, which this text tells.
    #[error("no table for the module")]
    Stimulus(Vec<u8>),
    /// Memory was refused.
    #[error("out of memory")]
    NoMemory,
}

impl From<NoMemory> for SimError {
    ghost use Rattle.std.specs.Prelude.{◌≡◌};
    ghost use Rattle.sim_run.specs.declared.error.SimError.TheVariants.{NoMemory};

    ghost from_gives = { λ _ e. e ≡ NoMemory };

    fn from(_: NoMemory) -> Self {
        SimError::NoMemory
    }
}

impl From<AllocError> for SimError {
    ghost use Rattle.std.specs.Prelude.{◌≡◌};
    ghost use Rattle.sim_run.specs.declared.error.SimError.TheVariants.{NoMemory};

    ghost from_gives = { λ _ e. e ≡ NoMemory };

    fn from(_: AllocError) -> Self {
        SimError::NoMemory
    }
}

impl<T: Drop> From<AllocFailed<T>> for SimError {
    ghost use Rattle.std.specs.Prelude.{◌≡◌};
    ghost use Rattle.sim_run.specs.declared.error.SimError.TheVariants.{NoMemory};

    ghost from_gives = { λ _ e. e ≡ NoMemory };

    fn from(_: AllocFailed<T>) -> Self {
        SimError::NoMemory
    }
}
