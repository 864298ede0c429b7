//! The nodes of a tree by their numbers in its block.

ghost use Rattle.std.specs.Prelude.{◌≡◌, ℕ, Contains, List, Option, Some, map, slice_get};
ghost use Rattle.rdl_tree.specs.declared.item.Source.{Source};
ghost use Rattle.rdl_values.specs.Instances.{Instance, nodes};
ghost use Rattle.rdl_values.specs.Lineages.{Lineage, lineages};
ghost use Rattle.rdl_refs.specs.Items.{Item};
ghost use Rattle.rdl_rules.specs.Block.{IsBlockOf, fields, reg_of, signal_of};
ghost use Rattle.rdl_rules.specs.Feeds.{ref_to};
ghost use Rattle.rdl_rules.specs.Fields.{field_of};
ghost use Rattle.rdl_rules.specs.Numbers.{Numbered, all_fields, all_signals, number_of, registers};
ghost use Rattle.rdl_rules.specs.ReferenceRules as rules;
ghost use Rattle.rb_model.specs.declared.block.Block.{Block};
ghost use Rattle.rb_model.specs.Items.{items};
ghost use Rattle.rb_model.specs.References.{item_width};
ghost use Rattle.rdl_sound_laws.specs.Standing.{HasItem};

/// A signal, a register, and a field of a register that is no alias stand in the lists of the block at their numbers.
pub fn nodes_are_listed()
    ensures signals_ { (wanted : Option (List ℕ)) (s : Source) (n : Instance) → Contains (all_signals (nodes wanted s)) n
        → slice_get (map signal_of (all_signals (nodes wanted s))) (number_of n (all_signals (nodes wanted s))) ≡ Some (signal_of n) }
    ensures registers_ { (wanted : Option (List ℕ)) (s : Source) (n : Instance) → Contains (registers (nodes wanted s)) n
        → slice_get (map reg_of (registers (nodes wanted s))) (number_of n (registers (nodes wanted s))) ≡ Some (reg_of n) }
    ensures fields_ { (wanted : Option (List ℕ)) (s : Source) (n : Instance) → Contains (all_fields (nodes wanted s)) n
        → (r : Numbered Lineage) × (slice_get (fields s (lineages wanted s)) (number_of n (all_fields (nodes wanted s))) ≡ Some (field_of s (lineages wanted s) r n)) }
{}

/// An item of a node that has it is one of the block's, and is as wide there.
pub fn items_are_listed()
    ensures listed { (wanted : Option (List ℕ)) (s : Source) (waits : ℕ) (b : Block) (i : Item) → IsBlockOf wanted s waits b → HasItem (nodes wanted s) i → Contains (items b) (ref_to (lineages wanted s) i) }
    ensures wide { (wanted : Option (List ℕ)) (s : Source) (waits : ℕ) (b : Block) (i : Item) → IsBlockOf wanted s waits b → HasItem (nodes wanted s) i → item_width b (ref_to (lineages wanted s) i) ≡ rules.item_width i }
{}
