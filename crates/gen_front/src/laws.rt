//! What the definitions determine.

ghost use Rattle.std.specs.Prelude.{ℕ, List};
ghost use Rattle.rtl_net.specs.Net.{Net};
ghost use Rattle.v_printer.specs.TextOf.{IsTextOf};
ghost use Rattle.rb_model.specs.declared.block.Block.{Block};
ghost use Rattle.rb_model.specs.Agreement.{Agrees};
ghost use Rattle.rb_model.specs.Run.{apb};
ghost use Rattle.gen_front.specs.Netlist.{IsNetlistOf};

/// A text of a block's netlist behind an APB slave port agrees with the block there.
pub fn text_agrees()
    ensures { (net : Net) (b : Block) (text : List ℕ) → IsNetlistOf net (apb b) → IsTextOf net text → Agrees text (apb b) }
{}
