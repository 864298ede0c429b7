//! Why items have no order.

use rb_base::NoMemory;
use std::alloc::{AllocError, AllocFailed};
use thiserror::Error;

/// Why the items have no order.
#[derive(Debug, Drop, Error)]
pub enum OrderError {
    /// Numbers of different items, each referring to the next and the last to the first.
    #[error("items refer to each other in a circle")]
    Loop(Vec<u32>),
    /// Memory was refused.
    #[error("out of memory")]
    NoMemory,
}

impl From<AllocError> for OrderError {
    ghost use Rattle.std.specs.Prelude.{◌≡◌};
    ghost use Rattle.rdl_refs.specs.declared.circle.OrderError.TheVariants.{NoMemory};

    ghost from_gives = { λ _ e. e ≡ NoMemory };

    fn from(_: AllocError) -> Self {
        OrderError::NoMemory
    }
}

impl<T: Drop> From<AllocFailed<T>> for OrderError {
    ghost use Rattle.std.specs.Prelude.{◌≡◌};
    ghost use Rattle.rdl_refs.specs.declared.circle.OrderError.TheVariants.{NoMemory};

    ghost from_gives = { λ _ e. e ≡ NoMemory };

    fn from(_: AllocFailed<T>) -> Self {
        OrderError::NoMemory
    }
}

impl From<NoMemory> for OrderError {
    ghost use Rattle.std.specs.Prelude.{◌≡◌};
    ghost use Rattle.rdl_refs.specs.declared.circle.OrderError.TheVariants.{NoMemory};

    ghost from_gives = { λ _ e. e ≡ NoMemory };

    fn from(_: NoMemory) -> Self {
        OrderError::NoMemory
    }
}
