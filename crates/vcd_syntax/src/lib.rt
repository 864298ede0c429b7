//! Value change dumps (IEEE 1364-2005, clause 18): words, grammar and meaning, where a reader is among the words, and the laws of dumps.
#![tactic(auto)]

mod dump_laws;
mod error;
mod kind;
mod laws;
mod leading;
mod numbers;
mod state;
mod words;

pub use dump_laws::{
    dumps_are_read_back, modules_are_read_back, no_both, one_problem, one_table,
    table_has_no_problem, table_or_problem,
};
pub use error::VcdError;
pub use kind::Kind;
pub use laws::{kinds_by_states, one_marking};
pub use leading::exit_of;
pub use numbers::{binary, decimal};
pub use state::State;
