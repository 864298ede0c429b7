//! What software and hardware make of a field's value, as nodes of a netlist (SystemRDL 2.0, 9.6 and 9.5).
//!
//! Ids that may be absent belong to parts that a field or view may lack. Where one is absent, its value counts as 0.
#![tactic(auto)]

mod access;
mod hardware;

pub use access::{SoftHit, acting, software};
pub use hardware::{FinishIds, LoadIds, finish, load};
