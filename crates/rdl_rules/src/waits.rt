//! What the definitions determine.

ghost use Rattle.std.specs.Prelude.{ℕ, ◌≤◌, List, Option};
ghost use Rattle.rb_model.specs.declared.block.Block.{Block};
ghost use Rattle.rb_model.specs.Sound.{IsSound};
ghost use Rattle.rdl_tree.specs.declared.item.Source.{Source};
ghost use Rattle.rdl_rules.specs.Block.{IsBlockOf};
ghost use Rattle.rdl_rules.specs.Waits.{with_waits};

/// The block of a source without wait states is, with some, that of the source with these, and a sound block is sound with at
/// most one.
pub fn blocks_with_waits()
    ensures block { (wanted : Option (List ℕ)) (s : Source) (b : Block) (waits : ℕ) → IsBlockOf wanted s 0 b → IsBlockOf wanted s waits (with_waits waits b) }
    ensures sound { (b : Block) (waits : ℕ) → waits ≤ 1 → IsSound b → IsSound (with_waits waits b) }
{}
