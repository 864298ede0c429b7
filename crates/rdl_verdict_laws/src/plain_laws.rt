//! What is judged of a tree, in the order of the phases.

ghost use Rattle.std.specs.Prelude.{◌≡◌, ◌↔◌, ℕ, List, Option};
ghost use Rattle.rb_base.specs.declared.place.Place.{Place};
ghost use Rattle.rdl_base.specs.declared.rule.Rule.{Rule};
ghost use Rattle.rb_model.specs.declared.block.Block.{Block};
ghost use Rattle.rdl_tree.specs.declared.item.Source.{Source};
ghost use Rattle.rdl_verdict_laws.specs.Plain.{plain_source};
ghost use Rattle.rdl_values.specs.Lineages.{lineages};
ghost use Rattle.rdl_values.specs.Phase3.{failures3};
ghost use Rattle.rdl_layers.specs.Phase4.{failures4};
ghost use Rattle.rdl_addr.specs.Rules.{failures_ab};
ghost use Rattle.rdl_refs.specs.Items.{failures_r};
ghost use Rattle.rdl_refs.specs.Follows.{edges_of};
ghost use Rattle.rdl_rules.specs.Block.{IsBlockOf};
ghost use Rattle.rdl_rules.specs.Phase6.{failures6, fails6};

/// The failures of the instances of a plain tree are those of the tree.
pub fn instances_of_plain()
    ensures { (wanted : Option (List ℕ)) (s : Source) → failures3 wanted (plain_source s) ≡ failures3 wanted s }
{}

/// The failures of the settings of a plain tree are those of the tree.
pub fn settings_of_plain()
    ensures { (wanted : Option (List ℕ)) (s : Source) → failures4 wanted (plain_source s) ≡ failures4 wanted s }
{}

/// The failures of the addresses and bits of a plain tree are those of the tree.
pub fn places_of_plain()
    ensures { (wanted : Option (List ℕ)) (s : Source) → failures_ab wanted (plain_source s) ≡ failures_ab wanted s }
{}

/// The failures of the references of a plain tree, and what refers to what in it, are those of the tree.
pub fn references_of_plain()
    ensures failures { (wanted : Option (List ℕ)) (s : Source) → failures_r wanted (plain_source s) ≡ failures_r wanted s }
    ensures edges { (wanted : Option (List ℕ)) (s : Source) → edges_of (lineages wanted (plain_source s)) ≡ edges_of (lineages wanted s) }
{}

/// The failures of the meaning of a plain tree, circles of references among them, and the block that it describes are those of
/// the tree.
pub fn meaning_of_plain()
    ensures failures { (wanted : Option (List ℕ)) (s : Source) → failures6 wanted (plain_source s) ≡ failures6 wanted s }
    ensures circles { (wanted : Option (List ℕ)) (s : Source) (r : Rule) (p : Place) → fails6 wanted (plain_source s) r p ↔ fails6 wanted s r p }
    ensures block { (wanted : Option (List ℕ)) (s : Source) (waits : ℕ) (b : Block) → IsBlockOf wanted (plain_source s) waits b ↔ IsBlockOf wanted s waits b }
{}
