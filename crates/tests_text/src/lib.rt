//! Tests of texts: the rule table and keywords, where bytes come from and go to, and the example grammar.
#![tactic(auto)]

#[cfg(test)]
mod edges;
#[cfg(test)]
mod example;
#[cfg(test)]
mod rules;
