//! Notes and encodings of a block whose texts stand in an arena of their own, so that the source and its trees may go before they are
//! written.
#![tactic(auto)]

mod enumerations;
mod notes;
mod text;

pub use enumerations::keep_encodings;
pub use notes::keep_notes;
