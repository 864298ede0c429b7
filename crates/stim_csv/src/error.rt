ghost use Rattle.std.specs.Prelude.{◌≡◌};
ghost use Rattle.stim_csv.specs.declared.error.StimError.TheVariants.{NoMemory as no_memory};

use std::alloc::{AllocError, AllocFailed};
use thiserror::Error;

/// Why bytes are no table of pins. Columns and rows count from 0, the rows below the header.
#[derive(Clone, Copy, Debug, PartialEq, Eq, Error)]
pub enum StimError {
    /// A column of the header names no pin.
    #[error("column {column}: unknown pin")]
    UnknownPin { column: u64 },
    /// A column of the header names the pin of an earlier one.
    #[error("column {column}: pin named twice")]
    TwicePin { column: u64 },
    /// The header lacks the pin at this place in the list of pins.
    #[error("pin {pin} missing")]
    MissingPin { pin: u64 },
    /// A row stands past the most that a table may have.
    #[error("row {row}: too many")]
    TooMany { row: u64 },
    /// A row has not as many cells as the header, or a cell that is no number.
    #[error("row {row}: form")]
    Form { row: u64 },
    /// A cell's number does not fit its pin.
    #[error("row {row} column {column}: too wide")]
    TooWide { row: u64, column: u64 },
    /// Memory was refused.
    #[error("out of memory")]
    NoMemory,
}

impl From<AllocError> for StimError {
    ghost from_gives = { λ _ e. e ≡ no_memory };

    fn from(_: AllocError) -> Self {
        StimError::NoMemory
    }
}

impl<T: Drop> From<AllocFailed<T>> for StimError {
    ghost from_gives = { λ _ e. e ≡ no_memory };

    fn from(_: AllocFailed<T>) -> Self {
        StimError::NoMemory
    }
}
