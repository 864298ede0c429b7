//! Lemmas on booleans, numbers, lists and optional values that several crates use, each stated once. This crate has no code.
#![tactic(auto)]
