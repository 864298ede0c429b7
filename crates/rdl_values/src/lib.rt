//! The values of constant expressions and of parameters, and what the instances of a source are.
#![tactic(auto)]

mod chain;
mod constants;
mod defaults;
mod firsts;
mod laws;
mod lookup;
mod name_table;
mod numbers;
mod operators;
mod overlaid;
mod parameters;
mod places;
mod readers;
mod reads;
mod table;
mod visible;
mod wanted;

pub use chain::{Chain, eval_along, number_along};
pub use constants::{eval, eval_in};
pub use defaults::Defaults;
pub use firsts::Firsts;
pub use laws::{
    clean_source, lists_merge, name_decides_the_top, nodes_are_given, nodes_are_numbered,
    none_fails, over_the_count, primaries_stand, rows_by_number, scopes_are_bodies, sorted_once,
    values_by_look_ups,
};
pub use overlaid::{
    look_ups_are_overlaid, touched_decide, touched_in_order, untouched_are_passed,
    values_are_overlaid, values_grow,
};
pub use parameters::Parameters;
pub use places::Places;
pub use reads::reads_of;
pub use table::{EnumTable, Table};
pub use visible::Visible;
pub use wanted::{as_type, number_of, number_of_in, start_of};
