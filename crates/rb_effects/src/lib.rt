//! What software and hardware make of a field's value, as programs on numbers of at most 64 bits.
#![tactic(auto)]

mod effects;

pub use effects::{
    acts, after_read, after_write, counted, counting, finished, has_read_effect, is_gated,
    is_interrupt, is_latching, is_on, is_storage, keeps_last, latched, loaded, loads, ones,
    overflows, underflows,
};
