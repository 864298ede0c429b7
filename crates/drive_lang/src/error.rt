//! Why bytes are no script.

use rb_base::NoMemory;
use std::alloc::{AllocError, AllocFailed};
use thiserror::Error;

/// Why bytes are no script for a block. Lines count from 1.
#[derive(Clone, Copy, Debug, PartialEq, Eq, Error)]
pub enum DriveError {
    /// The words of a line are of no form.
    #[error("line {line}: form")]
    Form { line: u32 },
    /// A line names no word, or no pin that it takes.
    #[error("line {line}: unknown name")]
    Unknown { line: u32 },
    /// A value does not fit its word or pin.
    #[error("line {line}: too wide")]
    TooWide { line: u32 },
    /// With a line there are more than 1,000,000 vectors.
    #[error("line {line}: too many")]
    Many { line: u32 },
    /// Memory was refused.
    #[error("out of memory")]
    NoMemory,
}

impl From<NoMemory> for DriveError {
    ghost use Rattle.std.specs.Prelude.{◌≡◌};
    ghost use Rattle.drive_lang.specs.declared.error.DriveError.TheVariants.{NoMemory};

    ghost from_gives = { λ _ e. e ≡ NoMemory };

    fn from(_: NoMemory) -> Self {
        DriveError::NoMemory
    }
}

impl From<AllocError> for DriveError {
    ghost use Rattle.std.specs.Prelude.{◌≡◌};
    ghost use Rattle.drive_lang.specs.declared.error.DriveError.TheVariants.{NoMemory};

    ghost from_gives = { λ _ e. e ≡ NoMemory };

    fn from(_: AllocError) -> Self {
        DriveError::NoMemory
    }
}

impl<T: Drop> From<AllocFailed<T>> for DriveError {
    ghost use Rattle.std.specs.Prelude.{◌≡◌};
    ghost use Rattle.drive_lang.specs.declared.error.DriveError.TheVariants.{NoMemory};

    ghost from_gives = { λ _ e. e ≡ NoMemory };

    fn from(_: AllocFailed<T>) -> Self {
        DriveError::NoMemory
    }
}
