//! That the words of a source's block, and the slots of a word, can be told apart.

ghost use Rattle.std.specs.Prelude.{[], Some};
ghost use Rattle.rb_model.specs.declared.block.Block.{Block};
ghost use Rattle.rb_model.specs.Apart.{IsApart};
ghost use Rattle.rb_model.specs.Sound.{IsSound};
ghost use Rattle.rdl_tree.specs.declared.node.Elab.{Elab};
ghost use Rattle.rdl_values.specs.Elaborated.{top_name};
ghost use Rattle.rdl_values.specs.Verdict.{IsListOf};
ghost use Rattle.rdl_rules.specs.Answers.{IsReady, meaning_fails};
ghost use Rattle.rdl_rules.specs.Block.{IsBlockOf};

/// Where no rule fails, a register has one word of a number, at one address, the slots of a word are of different views, and each view's
/// path is its register's and a name.
pub fn words_are_apart()
    ensures { (e : Elab) (b : Block) → IsReady e → IsListOf (meaning_fails e) [] → IsBlockOf (Some (top_name e)) e.source.now 0 b → IsSound b → IsApart b }
{}
