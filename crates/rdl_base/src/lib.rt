//! The rules, failures and reserved words of the front end.
#![tactic(auto)]

mod fault;
mod keyword;
mod laws;
mod rule;

pub use fault::Fault;
pub use keyword::Keyword;
pub use laws::{order_of_faults, order_of_rules, spelling_of_keywords};
pub use rule::Rule;
