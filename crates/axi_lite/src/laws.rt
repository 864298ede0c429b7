//! That a module's text is one of the block behind the port.

ghost use Rattle.std.specs.Prelude.{ℕ, List};
ghost use Rattle.rtl_net.specs.Net.{Net};
ghost use Rattle.v_printer.specs.TextOf.{IsTextOf};
ghost use Rattle.rb_model.specs.declared.block.Block.{Block};
ghost use Rattle.rb_model.specs.Agreement.{Agrees};
ghost use Rattle.gen_front.specs.Netlist.{IsNetlistOf};
ghost use Rattle.axi_model.specs.Axi.{axi};

/// A text of a block's netlist behind an AXI4-Lite slave port agrees with the block there.
pub fn axi_text_agrees()
    ensures { (net : Net) (b : Block) (text : List ℕ) → IsNetlistOf net (axi b) → IsTextOf net text → Agrees text (axi b) }
{}
