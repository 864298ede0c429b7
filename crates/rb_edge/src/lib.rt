//! The edge of the program: where sources are read from, where texts are written to, and a page on which bytes wait, so that a sink is called once for many.
#![tactic(auto)]

mod count_sink;
mod mem_shelf;
mod mem_sink;
mod page;
mod real;
mod shelf;
mod sink;

pub use count_sink::CountSink;
pub use mem_shelf::MemShelf;
pub use mem_sink::MemSink;
pub use page::Page;
pub use real::{FileShelf, StdSink};
pub use shelf::{LoadError, Shelf, load};
pub use sink::{Failed, Sink, write_all};
