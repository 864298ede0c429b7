//! Why a source has no block.

use rdl_base::Fault;
use thiserror::Error;

/// Why a source has no block.
#[derive(Debug, Drop, Error)]
pub enum JudgeError {
    /// The verdict: the failures of the first phase that has any, by place, and at one place in the order of the table of rules.
    #[error("the source breaks rules")]
    Faults(Vec<Fault>),
    /// Memory was refused.
    #[error("out of memory")]
    NoMemory,
}
