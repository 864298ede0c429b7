//! Tests of the two readers by calls that no command shows: trees, constants and the table of properties of sources; tokens, a tree, a module and runs of Verilog.
#![tactic(auto)]

#[cfg(test)]
mod constants;
#[cfg(test)]
mod faults;
#[cfg(test)]
mod lexemes;
#[cfg(test)]
mod properties;
#[cfg(test)]
mod runs;
#[cfg(test)]
mod source_tree;
#[cfg(test)]
mod syntax;
