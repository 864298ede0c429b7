//! One theory of lexical and context-free grammars.
#![tactic(auto)]

mod brackets;
mod laws;
mod nesting;
mod separators;
mod stop;

pub use brackets::{Bracket, first_too_deep};
pub use laws::{
    beginnings_go_on, fronts_begin, one_fault, one_judgement, one_reading, one_spelling, one_stop,
    printed, spelling_excludes_fault,
};
pub use nesting::Nesting;
pub use separators::{Unclosed, is_blank, separators_len};
pub use stop::Stop;
