//! The lines of address tables and of runs, and of what is wrong with a table of pin values.
#![tactic(auto)]

mod lines;
mod path;
mod printed;
mod problems;
mod row_printer;

pub use lines::{address_lines, push_register};
pub use printed::{push_names, push_number, push_numbers};
pub use problems::problem_text;
pub use row_printer::RowPrinter;
