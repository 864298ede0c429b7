//! The register machine of a block as a program, one rising edge of the clock at a time.
//!
//! `Machine` holds what the block keeps, and block_plan's `Plan` what is looked up once for a block. At an edge, `Scene` is what the
//! whole block finds there (the access, the pins, the kept values) and gives the values of its items; `Sight` is what one field
//! finds there, and what hardware makes of it; `moves` is what the fields keep after the edge.
#![tactic(auto)]

mod bus;
mod keeping;
mod machine;
mod moves;
mod plain;
mod quiet;
mod reset;
mod scene;
mod sight;
mod slots;
mod sources;
mod table;

pub use machine::Machine;
