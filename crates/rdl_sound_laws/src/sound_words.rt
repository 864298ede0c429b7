//! The words of a source's block.

ghost use Rattle.std.specs.Prelude.{AllPairs, ◌≡◌, ◌+◌, ◌≤◌, ℕ, Contains, List, Option, Some, length, slice_get};
ghost use Rattle.rdl_tree.specs.declared.item.Source.{Source};
ghost use Rattle.rdl_tree.specs.declared.node.Elab.{Elab};
ghost use Rattle.rdl_values.specs.Elaborated.{top_name};
ghost use Rattle.rdl_values.specs.Instances.{Instance};
ghost use Rattle.rdl_values.specs.Lineages.{lineages};
ghost use Rattle.rdl_layers.specs.Answers.{IsSettled};
ghost use Rattle.rdl_layers.specs.Fields.{fields_of};
ghost use Rattle.rdl_addr.specs.Answers.{IsPlaced};
ghost use Rattle.rdl_addr.specs.Layout.{Placed};
ghost use Rattle.rdl_addr.specs.Rules.{registers};
ghost use Rattle.rb_model.specs.declared.block.Block.{Block};
ghost use Rattle.rb_model.specs.References.{Each};
ghost use Rattle.rdl_rules.specs.Block.{IsBlockOf};
ghost use Rattle.rdl_rules.specs.Fields.{view_of};
ghost use Rattle.rdl_rules.specs.Numbers.{Numbered, numbered};
ghost use Rattle.rdl_sound_laws.specs.Shown.{IsOfRegister, IsShown, StandApart};

/// Each field of a register is a view of the block, at its place behind the register's first one.
pub fn views_are_listed()
    ensures { (wanted : Option (List ℕ)) (s : Source) (waits : ℕ) (b : Block) (r : Numbered Placed) (j : ℕ) (f : Instance) → IsBlockOf wanted s waits b → Contains (numbered (λ p. p.node) (registers wanted s)) r
        → slice_get (fields_of r.register.node) j ≡ Some f → slice_get b.views (r.first_view + j) ≡ Some (view_of (lineages wanted s) r.register.node f) }
{}

/// Where no rule on settings or addresses fails, each word of a source's block has 8, 16 or 32 bits and is one of a register.
pub fn words_have_widths()
    ensures reads { (e : Elab) (waits : ℕ) (b : Block) → IsSettled e → IsPlaced e → IsBlockOf (Some (top_name e)) e.source.now waits b → Each (IsOfRegister b) b.reads }
    ensures writes { (e : Elab) (waits : ℕ) (b : Block) → IsSettled e → IsPlaced e → IsBlockOf (Some (top_name e)) e.source.now waits b → Each (IsOfRegister b) b.writes }
{}

/// There are no more than 65536 words.
pub fn words_are_few()
    ensures reads { (e : Elab) (waits : ℕ) (b : Block) → IsSettled e → IsPlaced e → IsBlockOf (Some (top_name e)) e.source.now waits b → length b.reads ≤ 65536 }
    ensures writes { (e : Elab) (waits : ℕ) (b : Block) → IsSettled e → IsPlaced e → IsBlockOf (Some (top_name e)) e.source.now waits b → length b.writes ≤ 65536 }
{}

/// Each slot of a word shows bits of a view, within the word.
pub fn slots_show_views()
    ensures reads { (e : Elab) (waits : ℕ) (b : Block) → IsSettled e → IsPlaced e → IsBlockOf (Some (top_name e)) e.source.now waits b → Each (λ w. Each (IsShown b w) w.slots) b.reads }
    ensures writes { (e : Elab) (waits : ℕ) (b : Block) → IsSettled e → IsPlaced e → IsBlockOf (Some (top_name e)) e.source.now waits b → Each (λ w. Each (IsShown b w) w.slots) b.writes }
{}

/// Of the slots of one word, no two that software reads share a bit, and no two that it writes.
pub fn slots_stand_apart()
    ensures reads { (e : Elab) (waits : ℕ) (b : Block) → IsSettled e → IsPlaced e → IsBlockOf (Some (top_name e)) e.source.now waits b → Each (λ w. AllPairs (StandApart b) w.slots) b.reads }
    ensures writes { (e : Elab) (waits : ℕ) (b : Block) → IsSettled e → IsPlaced e → IsBlockOf (Some (top_name e)) e.source.now waits b → Each (λ w. AllPairs (StandApart b) w.slots) b.writes }
{}
