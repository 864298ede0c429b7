//! What the rules on settings leave.

use crate::fact::Fact;
use encodings::Encodings;
use rdl_layers::Props;

/// What is known of the nodes of a tree of which no rule on settings fails.
#[derive(Drop)]
pub struct Settled<'a> {
    /// What their properties are set to.
    pub props: Props<'a>,
    /// What is known of the fields and signals beside that, each at its number.
    pub facts: Vec<Fact>,
    /// The enumerations that the fields of its block are encoded by.
    pub encodings: Encodings<'a>,
}
