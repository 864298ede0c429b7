//! The first word.

ghost use Rattle.std.specs.Prelude.{◌<◌, [], ℕ, Some, length};
ghost use Rattle.rdl_tree.specs.declared.node.Elab.{Elab};
ghost use Rattle.rdl_values.specs.Elaborated.{top_name};
ghost use Rattle.rdl_values.specs.Verdict.{IsListOf};
ghost use Rattle.rdl_layers.specs.Answers.{IsSettled};
ghost use Rattle.rdl_addr.specs.Answers.{IsPlaced};
ghost use Rattle.rb_model.specs.declared.block.Block.{Block};
ghost use Rattle.rdl_rules.specs.Answers.{meaning_fails};
ghost use Rattle.rdl_rules.specs.Block.{IsBlockOf};

use crate::word_order::some_words;

/// Where no rule fails, the block of a source has a word that software reads: the top is an address map, which holds a register.
pub fn some_word()
    ensures { (e : Elab) (waits : ℕ) (b : Block) → IsSettled e → IsPlaced e → IsListOf (meaning_fails e) [] → IsBlockOf (Some (top_name e)) e.source.now waits b → 0 < length b.reads }
{
    some_words();
}
