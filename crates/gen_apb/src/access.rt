//! What an access of the bus is.

ghost use Rattle.std.specs.Prelude.{◌≡◌, IfOk};
ghost use Rattle.rtl_net.specs.Value.{bit_of};
ghost use Rattle.rtl_net.specs.Net.{Grows};
ghost use Rattle.rb_model.specs.Run as run;
ghost use Rattle.rb_model.specs.Sound.{IsSound};
ghost use Rattle.gen_apb.specs.Bus.{IsOfBus};
ghost use Rattle.gen_apb.specs.Accesses.{HasAddress, IsCarried};
ghost use Rattle.gen_apb.specs.Pins.{HasBusPins};

use crate::pins::BusPins;
use gen_decode::Decoded;
use gen_ports::word_node;
use gen_scene::Inlet;
use net_gates::{both, opposite};
use rb_base::NoMemory;
use rb_model::Block;
use rtl_net::{Id, Netlist};
use std::alloc::Global;

/// The nodes of an access, and whether it fails: its address is no word's.
#[derive(Clone, Copy)]
pub(crate) struct Request {
    pub inlet: Inlet,
    pub fails: Id,
}

/// The address of the access, decoded.
pub(crate) fn address(
    alloc: Global,
    net: &mut Netlist,
    block: &Block,
    pins: BusPins,
) -> Result<Decoded, NoMemory>
    requires sound { IsSound block.now }
    requires pins { HasBusPins net.old pins }
    ensures older { Grows net.old net.new }
    ensures name { net.new.name ≡ net.old.name }
    ensures address { IfOk result (λ d. HasAddress block.now net.new d) }
{
    let found = word_node(alloc, net, block, pins.address)?;
    Ok(found)
}

/// Whether the bus's slave is accessed.
pub(crate) fn accessed(net: &mut Netlist, block: &Block, pins: BusPins) -> Result<Id, NoMemory>
    requires { HasBusPins net.old pins }
    ensures older { Grows net.old net.new }
    ensures name { net.new.name ≡ net.old.name }
    ensures accessed { IfOk result (λ id. IsOfBus block.now net.new id 1 (λ p m. bit_of (run.is_access p))) }
{
    both(net, pins.select, pins.enable)
}

/// The access of a vector that carries one.
#[tactic(auto, using(rtl_net::proofs::Nets::building))]
pub(crate) fn requested(
    net: &mut Netlist,
    block: &Block,
    pins: BusPins,
    carries: Id,
    address: Decoded,
) -> Result<Request, NoMemory>
    requires sound { IsSound block.now }
    requires pins { HasBusPins net.old pins }
    requires carries { IsOfBus block.now net.old carries 1 (λ p m. bit_of (run.carries block.now p m)) }
    requires address { HasAddress block.now net.old address }
    ensures older { Grows net.old net.new }
    ensures name { net.new.name ≡ net.old.name }
    ensures carried { IfOk result (λ c. IsCarried block.now net.new c) }
{
    let valid = both(net, carries, address.hit)?;
    let missed = opposite(net, address.hit)?;
    let fails = both(net, carries, missed)?;
    let inlet = Inlet {
        valid,
        write: pins.write,
        word: address.word,
        bits: pins.data_in,
    };
    Ok(Request { inlet, fails })
}
