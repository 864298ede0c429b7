//! The run of a block's register machine over a table of pin values, as text; that modules run so too; what an engineer expects of the machine.
#![tactic(auto)]

mod answer;
mod error;
mod laws;
mod machine_laws;
mod pins;
mod running;

pub use answer::run_machine;
pub use error::RunError;
pub use laws::runs_agree;
pub use machine_laws::{
    counting_is_whole, other_words_stay, protocol_runs, quiet_fields_stay, reset_wins,
};
pub use pins::{Pins, pins_of};
