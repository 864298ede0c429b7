//! What is kept of the channels on which a master is answered.

ghost use Rattle.std.specs.Prelude.{◌≡◌, ◌==◌, ◌&&◌, if◌then◌else◌, is_some, IfOk};
ghost use Rattle.rtl_net.specs.Value.{bit_of};
ghost use Rattle.rtl_net.specs.Net.{Grows, IsNode, Stands};
ghost use Rattle.rb_model.specs.Sound.{IsSound};
ghost use Rattle.axi_model.specs.Channels as spec;
ghost use Rattle.gen_channels.specs.Nodes.{kept_seen, pins_seen};
ghost use Rattle.gen_channels.specs.Slaves.{IsSlave};

use crate::nexts::response_bit;
use crate::slave::Slave;
use net_gates::{choose, number, zero};
use rb_base::NoMemory;
use rb_model::Block;
use rtl_net::{Id, Netlist};

/// The nodes that the registers of the write response channel take.
#[derive(Clone, Copy)]
pub(crate) struct WriteNexts {
    pub b: Id,
    pub bresp: Id,
}

/// The nodes that the registers of the read data channel take, but for the data.
#[derive(Clone, Copy)]
pub(crate) struct ReadNexts {
    pub r: Id,
    pub rresp: Id,
}

/// A response of two bits (IHI 0022, A3.4.4): this where the word is there, and else DECERR.
#[tactic(auto, using(rtl_net::proofs::Nets::building))]
fn response(net: &mut Netlist, hit: Id, there: Id) -> Result<Id, NoMemory>
    requires hit { Stands net.old hit 1 }
    requires there { Stands net.old there 2 }
    ensures older { Grows net.old net.new }
    ensures name { net.new.name ≡ net.old.name }
    ensures response { IfOk result (λ id. IsNode net.new id 2 (λ v. if v.node hit.0 == 1 then v.node there.0 else 3)) }
{
    let missed = number(net, 2, 3)?;
    choose(net, hit, there, missed)
}

/// OKAY where all bytes are written, and else SLVERR.
#[tactic(auto, using(rtl_net::proofs::Nets::building))]
fn written(net: &mut Netlist, whole: Id) -> Result<Id, NoMemory>
    requires { Stands net.old whole 1 }
    ensures older { Grows net.old net.new }
    ensures name { net.new.name ≡ net.old.name }
    ensures written { IfOk result (λ id. IsNode net.new id 2 (λ v. if v.node whole.0 == 1 then 0 else 2)) }
{
    let fine = zero(net, 2)?;
    let parted = number(net, 2, 2)?;
    choose(net, whole, fine, parted)
}

/// What is kept of the write response channel after an edge without reset.
#[tactic(auto, using(rtl_net::proofs::Nets::building))]
pub(crate) fn write_nexts(
    net: &mut Netlist,
    block: &Block,
    slave: Slave,
) -> Result<WriteNexts, NoMemory>
    requires sound { IsSound block.now }
    requires slave { IsSlave block.now net.old slave }
    ensures older { Grows net.old net.new }
    ensures name { net.new.name ≡ net.old.name }
    ensures b { IfOk result (λ n. IsNode net.new n.b 1 (λ v. if spec.writes (pins_seen v) (kept_seen v) then 1 else (if (kept_seen v).b == 1 && (pins_seen v).bready == 1 then 0 else (kept_seen v).b))) }
    ensures bresp { IfOk result (λ n. IsNode net.new n.bresp 2 (λ v. if spec.writes (pins_seen v) (kept_seen v) then spec.write_response block.now (kept_seen v).awaddr (kept_seen v).wstrb else (kept_seen v).bresp)) }
{
    let b = response_bit(net, slave.acts.writes, slave.kept.b, slave.pins.bready)?;
    let there = written(net, slave.request.whole)?;
    let answer = response(net, slave.request.hit, there)?;
    let bresp = choose(net, slave.acts.writes, answer, slave.kept.bresp)?;
    Ok(WriteNexts { b, bresp })
}

/// What is kept of the read data channel, but for the data, after an edge without reset.
#[tactic(auto, using(rtl_net::proofs::Nets::building))]
pub(crate) fn read_nexts(
    net: &mut Netlist,
    block: &Block,
    slave: Slave,
) -> Result<ReadNexts, NoMemory>
    requires { IsSlave block.now net.old slave }
    ensures older { Grows net.old net.new }
    ensures name { net.new.name ≡ net.old.name }
    ensures r { IfOk result (λ n. IsNode net.new n.r 1 (λ v. if spec.reads (pins_seen v) (kept_seen v) then 1 else (if (kept_seen v).r == 1 && (pins_seen v).rready == 1 then 0 else (kept_seen v).r))) }
    ensures rresp { IfOk result (λ n. IsNode net.new n.rresp 2 (λ v. if spec.reads (pins_seen v) (kept_seen v) then spec.read_response block.now (pins_seen v).araddr else (kept_seen v).rresp)) }
{
    let r = response_bit(net, slave.acts.reads, slave.kept.r, slave.pins.rready)?;
    let fine = zero(net, 2)?;
    let told = response(net, slave.request.hit, fine)?;
    let rresp = choose(net, slave.acts.reads, told, slave.kept.rresp)?;
    Ok(ReadNexts { r, rresp })
}
