//! What all crates share: pins, texts, places in a source, bits of numbers, and numbers as text.
#![tactic(auto)]

mod bits;
mod hex;
mod laws;
mod lines;
mod memory;
mod place;
mod ports;
mod text;
mod trigger;

pub use bits::{ones, part, put};
pub use hex::hex_digits;
pub use laws::{bits_of_part, bits_of_put};
pub use lines::line_column;
pub use memory::NoMemory;
pub use place::Place;
pub use ports::{Dir, Pin, Port};
pub use text::{Text, copy_of};
pub use trigger::Trigger;
