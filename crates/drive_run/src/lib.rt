//! The transcript of a script on a block's register machine, and that modules of the block show the same.
#![tactic(auto)]

mod laws;
mod playing;
mod running;
mod telling;

pub use laws::{one_transcript, transcripts_agree};
pub use playing::Transcript;
pub use running::run_script;
