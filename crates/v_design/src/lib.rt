//! A Verilog module of the subset (IEEE 1364-2005), and what it means.
#![tactic(auto)]

mod design;
mod laws;

pub use design::{Decl, Design, Stmt, VExpr, VOne, VReset, VTwo};
pub use laws::{has_run, one_run, one_tree, values_fit};
