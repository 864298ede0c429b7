//! A small language, read with the theory of grammars: names that are bound to values or stand for other names.
//!
//! ```text
//! source = { entry } .
//! entry  = name bound ";" .
//! bound  = "=" value | "=>" name .
//! value  = number [ ".." number ] | name | values .
//! values = "[" [ value { "," value } ] "]" .
//! ```
#![tactic(auto)]

mod laws;
mod lexer;
mod parser;
mod token;
mod tree;

pub use laws::one_reading;
pub use lexer::{Fault, Found, LexError, Rule, next, tokens};
pub use parser::{ParseError, parse};
pub use token::{Mark, Terminal, Token, TokenKind};
pub use tree::{Bound, Entry, Name, Source, Value};
