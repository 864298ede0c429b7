//! The ports of a block's module behind an AXI4-Lite slave port.

ghost use Rattle.std.specs.Prelude.{◌≡◌, ◌++◌, IfOk, OnOk};
ghost use Rattle.rb_model.specs.Sound.{IsSound};
ghost use Rattle.axi_model.specs.Ports as spec;
ghost use Rattle.axi_model.specs.Ports.{channel_ports};

use rb_base::{Dir, NoMemory, Port};
use rb_model::{Block, push_block_ports, push_port};
use std::alloc::Global;

/// The clock, the reset and the pins of an AXI4-Lite slave (IHI 0022, B1), in port order.
const CHANNELS: [(Dir, &[u8], u8); 21] = [
    (Dir::In, b"PCLK", 1),
    (Dir::In, b"PRESETn", 1),
    (Dir::In, b"AWADDR", 32),
    (Dir::In, b"AWPROT", 3),
    (Dir::In, b"AWVALID", 1),
    (Dir::Out, b"AWREADY", 1),
    (Dir::In, b"WDATA", 32),
    (Dir::In, b"WSTRB", 4),
    (Dir::In, b"WVALID", 1),
    (Dir::Out, b"WREADY", 1),
    (Dir::Out, b"BRESP", 2),
    (Dir::Out, b"BVALID", 1),
    (Dir::In, b"BREADY", 1),
    (Dir::In, b"ARADDR", 32),
    (Dir::In, b"ARPROT", 3),
    (Dir::In, b"ARVALID", 1),
    (Dir::Out, b"ARREADY", 1),
    (Dir::Out, b"RDATA", 32),
    (Dir::Out, b"RRESP", 2),
    (Dir::Out, b"RVALID", 1),
    (Dir::In, b"RREADY", 1),
];

/// Adds the pins of an AXI4-Lite slave.
fn push_channels(alloc: Global, out: &mut Vec<Port>) -> Result<(), NoMemory>
    ensures { OnOk result (out.new.items ≡ out.old.items ++ channel_ports) }
{
    for (dir, name, width) in CHANNELS {
        push_port(alloc, out, dir, name, b"", width)?;
    }
    Ok(())
}

/// The ports of a block's module behind an AXI4-Lite slave port, in order: those of the port, and those of the block. Widths are in
/// bits. The only error is want of memory.
pub fn axi_ports(alloc: Global, block: &Block) -> Result<Vec<Port>, NoMemory>
    requires { IsSound block.now }
    ensures { IfOk result (λ all. all.items ≡ spec.axi_ports block.now) }
{
    let mut out = Vec::new(alloc);
    push_channels(alloc, &mut out)?;
    push_block_ports(alloc, &mut out, block)?;
    Ok(out)
}
