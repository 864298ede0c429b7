//! The module of a block.

ghost use Rattle.std.specs.Prelude.{IfOk};
ghost use Rattle.rb_model.specs.Agreement.{Agrees};
ghost use Rattle.rb_model.specs.Run.{apb as apb_front};
ghost use Rattle.axi_model.specs.Axi.{axi as axi_front};
ghost use Rattle.rb_model.specs.Sound.{IsSound};
ghost use Rattle.v_printer.specs.Layout.{text_of};
ghost use Rattle.v_printer.specs.TextOf.{IsTextOf, IsWhole};

use axi_lite::{axi, axi_text_agrees};
use gen_apb::apb;
use gen_front::text_agrees;
use rb_base::NoMemory;
use rb_model::Block;
use rtl_net::Netlist;
use std::alloc::Global;

/// The netlist of a module that agrees with a block, behind an APB slave port (IHI 0024B). That its text is one of its module
/// is what printing it ensures. The only error is want of memory.
pub(crate) fn module_net(alloc: Global, block: &Block) -> Result<Netlist, NoMemory>
    requires { IsSound block.now }
    ensures whole { IfOk result IsWhole }
    ensures agrees { IfOk result (λ net. IsTextOf net (text_of net) → Agrees (text_of net) (apb_front block.now)) }
{
    text_agrees();
    let net = apb(alloc, block)?;
    Ok(net)
}

/// The netlist of a module that agrees with a block, behind an AXI4-Lite slave port (IHI 0022, chapter B1). The only error is want of
/// memory.
pub(crate) fn axi_net(alloc: Global, block: &Block) -> Result<Netlist, NoMemory>
    requires { IsSound block.now }
    ensures whole { IfOk result IsWhole }
    ensures agrees { IfOk result (λ net. IsTextOf net (text_of net) → Agrees (text_of net) (axi_front block.now)) }
{
    axi_text_agrees();
    let net = axi(alloc, block)?;
    Ok(net)
}
