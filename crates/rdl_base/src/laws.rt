//! The orders of rules and failures, and how keywords are spelled.
ghost use Rattle.std.specs.Prelude.{◌≡◌, IsTrue};
ghost use Rattle.std.specs.Ordering.{nat_cmp};
ghost use Rattle.rdl_base.specs.declared.fault.Fault.{Fault as AnyFault};
ghost use Rattle.rdl_base.specs.declared.keyword.Keyword.{Keyword as AnyKeyword};
ghost use Rattle.rdl_base.specs.declared.rule.Rule.{Rule as AnyRule};
ghost use Rattle.rdl_base.specs.Faults.{fault_cmp};
ghost use Rattle.rdl_base.specs.Keywords.{word, is_reserved};
ghost use Rattle.rdl_base.specs.Rules.{row};

use crate::fault::Fault;
use crate::rule::Rule;

/// Rules are in the order of the table.
pub fn order_of_rules()
    ensures { (a b : AnyRule) → ⟦<Rule as Ord>⟧.cmp a b ≡ nat_cmp (row a).number (row b).number }
{}

/// Failures are in the order of their places, and at one place in that of the rules.
pub fn order_of_faults()
    ensures { (a b : AnyFault) → ⟦<Fault as Ord>⟧.cmp a b ≡ fault_cmp a b }
{}

/// Each keyword is a reserved word, and no two are spelled alike.
pub fn spelling_of_keywords()
    ensures reserved { (keyword : AnyKeyword) → IsTrue (is_reserved (word keyword)) }
    ensures apart { (a b : AnyKeyword) → word a ≡ word b → a ≡ b }
{}
