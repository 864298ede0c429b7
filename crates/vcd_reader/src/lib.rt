//! A dump read back: its variables, and their values at each time (IEEE 1364-2005, clause 18).
#![tactic(auto)]

mod code_set;
mod exits;
mod last_values;
mod naming;
mod pins;
mod reading;
mod rows;
mod said;
mod variables;
mod waves;
mod word_set;
mod words;

pub use naming::variable_name;
pub use reading::read;
pub use waves::Waves;
