//! The words that software reads and writes, by address, and the parts of fields that each of them shows.
#![tactic(auto)]

mod access;
mod entry;
mod lists;
mod register;
mod registers;
mod slot;
mod tree;
mod word;

pub use lists::Words;
pub use tree::all_words;
pub use word::{Shape, add_words};
