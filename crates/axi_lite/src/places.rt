//! The nodes of pins and registers, by their places.

ghost use Rattle.std.specs.Prelude.{◌≡◌, IfOk, length};
ghost use Rattle.rtl_net.specs.Net.{Net};
ghost use Rattle.rtl_net.specs.declared.node.Id.{Id as IdOf};
ghost use Rattle.rb_model.specs.Front.{front_inputs};
ghost use Rattle.rb_model.specs.Sound.{IsSound};
ghost use Rattle.axi_model.specs.Axi.{axi};
ghost use Rattle.gen_scene.specs.Bases.{HasPins};
ghost use Rattle.gen_ports.specs.Laid.{AreInputs};
ghost use Rattle.gen_ports.specs.Registers.{AreCleared, IsResetn};
ghost use Rattle.gen_channels.specs.Nodes.{HasChannelPins, HasChannels};
ghost use Rattle.axi_lite.specs.Tables.{own_registers};

use gen_channels::{ChannelNodes, ChannelPins};
use rb_base::NoMemory;
use rb_model::Block;
use rtl_net::Id;
use std::alloc::Global;

/// The pins of the port, which stand before all other inputs than the clock.
pub(crate) fn channel_pins(block: &Block, ids: &[Id]) -> ChannelPins
    requires { (net : Net) × AreInputs net ids.now (front_inputs (axi block.now)) }
    ensures pins { (net : Net) → AreInputs net ids.now (front_inputs (axi block.now)) → HasChannelPins net result }
    ensures resetn { (net : Net) → AreInputs net ids.now (front_inputs (axi block.now)) → IsResetn net result.resetn }
{
    ChannelPins {
        resetn: ids[0],
        awaddr: ids[1],
        awvalid: ids[3],
        wdata: ids[4],
        wstrb: ids[5],
        wvalid: ids[6],
        bready: ids[7],
        araddr: ids[8],
        arvalid: ids[10],
        rready: ids[11],
    }
}

/// The registers of the port but for that of the read data.
pub(crate) fn channel_nodes(ids: &[Id]) -> ChannelNodes
    requires { length ids.now ≡ 9 }
    ensures { (net : Net) (resetn : IdOf) → AreCleared net resetn own_registers ids.now → HasChannels net result }
{
    ChannelNodes {
        aw: ids[0],
        awaddr: ids[1],
        w: ids[2],
        wdata: ids[3],
        wstrb: ids[4],
        b: ids[5],
        bresp: ids[6],
        r: ids[7],
        rresp: ids[8],
    }
}

/// The block's input pins by their places behind an APB slave port. The node of PRESETn stands in the places of that port's own pins, of
/// which a core asks for that alone.
pub(crate) fn core_pins(alloc: Global, block: &Block, ids: &[Id]) -> Result<Vec<Id>, NoMemory>
    requires sound { IsSound block.now }
    requires pins { (net : Net) × AreInputs net ids.now (front_inputs (axi block.now)) }
    ensures { IfOk result (λ pins. (net : Net) → AreInputs net ids.now (front_inputs (axi block.now)) → HasPins block.now net pins.items) }
{
    let resetn = ids[0];
    let mut pins = Vec::new(alloc);
    pins.extend_from_slice(&[resetn, resetn, resetn, resetn, resetn, resetn])?;
    pins.extend_from_slice(&ids[12..])?;
    Ok(pins)
}
