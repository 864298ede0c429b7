//! What is kept of the channels on which a master asks for writes.

ghost use Rattle.std.specs.Prelude.{◌≡◌, if◌then◌else◌, IfOk};
ghost use Rattle.rtl_net.specs.Net.{Grows, IsNode};
ghost use Rattle.axi_model.specs.Channels as spec;
ghost use Rattle.gen_channels.specs.Nodes.{kept_seen, pins_seen};
ghost use Rattle.gen_channels.specs.Slaves.{IsSlave};

use crate::nexts::{request_bit, taken};
use crate::slave::Slave;
use net_gates::choose;
use rb_base::NoMemory;
use rb_model::Block;
use rtl_net::{Id, Netlist};

/// The nodes that the registers of the write address channel take.
#[derive(Clone, Copy)]
pub(crate) struct AddressNexts {
    pub aw: Id,
    pub awaddr: Id,
}

/// The nodes that the registers of the write data channel take.
#[derive(Clone, Copy)]
pub(crate) struct DataNexts {
    pub w: Id,
    pub wdata: Id,
    pub wstrb: Id,
}

/// What is kept of the write address channel after an edge without reset.
#[tactic(auto, using(rtl_net::proofs::Nets::building))]
pub(crate) fn address_nexts(
    net: &mut Netlist,
    block: &Block,
    slave: Slave,
) -> Result<AddressNexts, NoMemory>
    requires { IsSlave block.now net.old slave }
    ensures older { Grows net.old net.new }
    ensures name { net.new.name ≡ net.old.name }
    ensures aw { IfOk result (λ n. IsNode net.new n.aw 1 (λ v. if spec.writes (pins_seen v) (kept_seen v) then 0 else (if spec.takes_address (pins_seen v) (kept_seen v) then 1 else (kept_seen v).aw))) }
    ensures awaddr { IfOk result (λ n. IsNode net.new n.awaddr 32 (λ v. if spec.takes_address (pins_seen v) (kept_seen v) then (pins_seen v).awaddr else (kept_seen v).awaddr)) }
{
    let takes = taken(net, slave.pins.awvalid, slave.kept.aw)?;
    let aw = request_bit(net, slave.acts.writes, takes, slave.kept.aw)?;
    let awaddr = choose(net, takes, slave.pins.awaddr, slave.kept.awaddr)?;
    Ok(AddressNexts { aw, awaddr })
}

/// What is kept of the write data channel after an edge without reset.
#[tactic(auto, using(rtl_net::proofs::Nets::building))]
pub(crate) fn data_nexts(
    net: &mut Netlist,
    block: &Block,
    slave: Slave,
) -> Result<DataNexts, NoMemory>
    requires { IsSlave block.now net.old slave }
    ensures older { Grows net.old net.new }
    ensures name { net.new.name ≡ net.old.name }
    ensures w { IfOk result (λ n. IsNode net.new n.w 1 (λ v. if spec.writes (pins_seen v) (kept_seen v) then 0 else (if spec.takes_data (pins_seen v) (kept_seen v) then 1 else (kept_seen v).w))) }
    ensures wdata { IfOk result (λ n. IsNode net.new n.wdata 32 (λ v. if spec.takes_data (pins_seen v) (kept_seen v) then (pins_seen v).wdata else (kept_seen v).wdata)) }
    ensures wstrb { IfOk result (λ n. IsNode net.new n.wstrb 4 (λ v. if spec.takes_data (pins_seen v) (kept_seen v) then (pins_seen v).wstrb else (kept_seen v).wstrb)) }
{
    let takes = taken(net, slave.pins.wvalid, slave.kept.w)?;
    let w = request_bit(net, slave.acts.writes, takes, slave.kept.w)?;
    let wdata = choose(net, takes, slave.pins.wdata, slave.kept.wdata)?;
    let wstrb = choose(net, takes, slave.pins.wstrb, slave.kept.wstrb)?;
    Ok(DataNexts { w, wdata, wstrb })
}
