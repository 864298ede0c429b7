use crate::rule::Rule;
use rb_base::Place;

/// The failure of a rule at a place. Failures go by their places, and at one place by the order
/// of the rules.
#[derive(Clone, Copy, Debug, PartialEq, Eq, PartialOrd, Ord)]
pub struct Fault {
    pub place: Place,
    pub rule: Rule,
}
