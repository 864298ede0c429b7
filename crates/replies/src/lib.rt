//! What a command line is answered: a status, and texts, a module, a run, waves or a page for the sinks. Files are read, and nothing is written yet.
#![tactic(auto)]

mod answer;
mod checking;
mod commands;
mod compiling;
mod describing;
mod documenting;
mod driving;
mod fronting;
mod generating;
mod heading;
mod loading;
mod modules;
mod places;
mod reading;
mod running;
mod simulating;
mod status;
mod waving;

pub use answer::{Answer, Reply};
pub use commands::answer_words;
pub use status::Status;
