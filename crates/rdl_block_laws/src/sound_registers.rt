//! What a block says of its registers.

ghost use Rattle.std.specs.Prelude.{List, Option, ℕ};
ghost use Rattle.std.specs.List.{AllByRecursion, enumerate_from};
ghost use Rattle.rdl_tree.specs.declared.item.Source.{Source};
ghost use Rattle.rdl_values.specs.Instances.{nodes};
ghost use Rattle.rdl_values.specs.Lineages.{lineages};
ghost use Rattle.rb_model.specs.declared.block.Block.{Block};
ghost use Rattle.rb_model.specs.References.{Each};
ghost use Rattle.rb_model.specs.Sound.{RegIsSound};
ghost use Rattle.rdl_rules.specs.Block.{IsBlockOf};
ghost use Rattle.rdl_rules.specs.Numbers.{all_fields};
ghost use Rattle.rdl_sound_laws.specs.Faultless.{Leads};

use rdl_layers::settings_have_forms;

/// Each register of a source's block has the lines that its interrupt fields raise, where the references of fields lead to items.
pub fn registers_are_sound()
    ensures { (wanted : Option (List ℕ)) (s : Source) (waits : ℕ) (b : Block) → IsBlockOf wanted s waits b
        → AllByRecursion (Leads (lineages wanted s)) (all_fields (nodes wanted s)) → Each (RegIsSound b) (enumerate_from 0 b.regs) }
{
    settings_have_forms();
}
