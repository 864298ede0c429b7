//! The C header of a register block: the offsets, shifts, masks and reset values of its words and fields and the values of enumerators as macros (ISO C11, clause 6.10.3).
#![tactic(auto)]

mod enumerations;
mod laws;
mod lines;
mod macros;
mod names;
mod repeats;
mod text;

pub use laws::{
    entries_are, macros_differ, masked_read, masked_write, offsets_reach, one_entry, resets_read,
    slots_decoded, words_decoded,
};
pub use repeats::{Repeats, Seen};
pub use text::header;
