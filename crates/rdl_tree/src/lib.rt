//! The tokens of a SystemRDL source, its syntax tree and its tree of instances. Trees lie in an arena of the caller's,
//! and every name is a slice of the source.
#![tactic(auto)]

mod expr;
mod item;
mod laws;
mod node;
mod token;
mod value;

pub use expr::{Expr, Name, Op, Path, Step};
pub use item::{Arg, Assigned, Def, Entry, Inst, Insts, Item, Kind, PType, Param, Set, Source};
pub use laws::{derived_in_order, derived_is_source};
pub use node::{Elab, Node};
pub use token::{Mark, Terminal, Token, TokenKind};
pub use value::{Bound, EntryValue, EnumValues, Env, Value};
