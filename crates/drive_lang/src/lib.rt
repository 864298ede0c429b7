//! Drive scripts: what software and hardware do to a block, line by line, the vectors that the lines mean, and what is asked at them.
#![tactic(auto)]

mod advancing;
mod error;
mod judge;
mod laws;
mod lines;
mod names;
mod order;
mod order_laws;
mod position;
mod reading;
mod script;
mod showing;
mod verb;
mod words;

pub use advancing::advance;
pub use error::DriveError;
pub use laws::scripts_are;
pub use order::{Line, Order, Turn};
pub use order_laws::lines_keep_the_protocol;
pub use position::{Position, vectors_of};
pub use script::Script;
