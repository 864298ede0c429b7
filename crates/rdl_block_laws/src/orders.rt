//! The order of a block's items.

ghost use Rattle.std.specs.Prelude.{[], ℕ, List, Some, IsPermutation};
ghost use Rattle.rb_model.specs.declared.block.Block.{Block};
ghost use Rattle.rb_model.specs.Items.{items};
ghost use Rattle.rb_model.specs.References.{IsOrdered};
ghost use Rattle.rdl_tree.specs.declared.node.Elab.{Elab};
ghost use Rattle.rdl_values.specs.Elaborated.{top_name};
ghost use Rattle.rdl_values.specs.Elaboration.{IsClean};
ghost use Rattle.rdl_values.specs.Lineages.{lineages_of};
ghost use Rattle.rdl_values.specs.Verdict.{IsListOf};
ghost use Rattle.rdl_refs.specs.Answers.{IsBound};
ghost use Rattle.rdl_refs.specs.Follows.{edges_of};
ghost use Rattle.rdl_refs.specs.Graph.{IsOrder};
ghost use Rattle.rdl_rules.specs.Answers.{meaning_fails};
ghost use Rattle.rdl_sound_laws.specs.Lists.{HasLists};
ghost use Rattle.rdl_block_laws.specs.Ordered.{in_turn};

/// Where no rule on references or on meaning fails, an order of all items of a source, each behind those that it refers to, gives a
/// list of items of each block whose signals, fields and registers are the source's, in which each stands behind those that it refers to.
pub fn order_is_the_blocks()
    ensures { (e : Elab) (b : Block) (ks : List ℕ) → IsClean e → IsBound e → IsListOf (meaning_fails e) [] → HasLists (Some (top_name e)) e.source.now b → IsOrder (edges_of (lineages_of e)) ks → IsOrdered b (in_turn (lineages_of e) ks) }
{}

/// Such an order of a source's items gives all items of the block, each once.
pub fn order_has_all_items()
    ensures { (e : Elab) (b : Block) (ks : List ℕ) → IsClean e → IsBound e → IsListOf (meaning_fails e) [] → HasLists (Some (top_name e)) e.source.now b → IsOrder (edges_of (lineages_of e)) ks → IsPermutation (items b) (in_turn (lineages_of e) ks) }
{}
