//! What the fields and views of a block refer to.

ghost use Rattle.std.specs.Prelude.{◌≡◌, [], ℕ, false, IsTrue, List, Option, Some, slice_get};
ghost use Rattle.rb_model.specs.declared.block.Block.{Block};
ghost use Rattle.rb_model.specs.declared.block.Reg.{Reg};
ghost use Rattle.rb_model.specs.declared.block.Signal.{Signal};
ghost use Rattle.rb_model.specs.References.{AreWide, Each, WithSome, gate_refs};
ghost use Rattle.rb_model.specs.SoundField.{RefersWell, is_gate_fed};
ghost use Rattle.rdl_tree.specs.declared.item.Source.{Source};
ghost use Rattle.rdl_tree.specs.declared.node.Elab.{Elab};
ghost use Rattle.rdl_values.specs.Elaborated.{top_name};
ghost use Rattle.rdl_values.specs.Verdict.{IsListOf};
ghost use Rattle.rdl_refs.specs.Answers.{IsBound};
ghost use Rattle.rdl_rules.specs.Answers.{meaning_fails};
ghost use Rattle.rdl_rules.specs.Block.{IsBlockOf};

/// Where no rule fails, what a field of a source's block refers to are items of the block, as wide as the field asks; its register is
/// one of the block's, and no alias; and the signal that resets it is one of the block's, and one bit wide.
pub fn references_are_sound()
    ensures refer { (e : Elab) (waits : ℕ) (b : Block) → IsListOf (meaning_fails e) [] → IsBlockOf (Some (top_name e)) e.source.now waits b → Each (RefersWell b) b.fields }
    ensures in_register { (wanted : Option (List ℕ)) (s : Source) (waits : ℕ) (b : Block) → IsBlockOf wanted s waits b → Each (λ f. (r : Reg) × (slice_get b.regs f.reg ≡ Some r) × (r.alias ≡ false)) b.fields }
    ensures reset_signal { (e : Elab) (waits : ℕ) (b : Block) → IsBound e → IsListOf (meaning_fails e) [] → IsBlockOf (Some (top_name e)) e.source.now waits b
        → Each (λ f. WithSome f.reset_by.signal (λ s. (g : Signal) × (slice_get b.signals s ≡ Some g) × (g.width ≡ 1))) b.fields }
{}

/// Where no rule fails, the gate of a view of a source's block is fed, and an item that it refers to is one of the block's, and one
/// bit wide.
pub fn gates_are_sound()
    ensures fed { (e : Elab) (waits : ℕ) (b : Block) → IsBound e → IsBlockOf (Some (top_name e)) e.source.now waits b → Each (λ v. IsTrue (is_gate_fed v.gate)) b.views }
    ensures bit { (e : Elab) (waits : ℕ) (b : Block) → IsListOf (meaning_fails e) [] → IsBlockOf (Some (top_name e)) e.source.now waits b → Each (λ v. AreWide b 1 (gate_refs v.gate)) b.views }
{}
