//! The access of a bus with one wait state.

ghost use Rattle.std.specs.Prelude.{◌≡◌, ◌++◌, ◌∷◌, ◌+◌, ◌&&◌, [], true, if◌then◌else◌, IfOk, OnOk, codes};
ghost use Rattle.rtl_net.specs.Net.{Extends, Grows, HasClock, IsNode, registers_of, undriven};
ghost use Rattle.rtl_net.specs.Ports.{IsNew};
ghost use Rattle.rtl_net.specs.Value.{bit_of};
ghost use Rattle.rb_model.specs.Kept.{Error, has_wait};
ghost use Rattle.rb_model.specs.Run as run;
ghost use Rattle.rb_model.specs.Sound.{IsSound};
ghost use Rattle.gen_apb.specs.Accesses.{HasAddress};
ghost use Rattle.gen_apb.specs.Bus.{IsOfBus, cleared};
ghost use Rattle.gen_apb.specs.Fronts.{IsFront, KeepsAccess, access_registers};
ghost use Rattle.gen_apb.specs.Pins.{HasBusPins};
ghost use Rattle.gen_apb.specs.Waits.{AreHeld};

use crate::access::requested;
use crate::front::Front;
use crate::pins::BusPins;
use gen_decode::Decoded;
use net_gates::{both, opposite};
use rb_base::NoMemory;
use rb_model::Block;
use rtl_net::{Id, NetReset, Netlist};

/// The registers of a wait state: that the vector before carried an access, and that this failed.
#[derive(Clone, Copy)]
pub(crate) struct Held {
    pub waited: Id,
    pub error: Id,
}

/// How PRESETn clears a register.
fn cleared_by(resetn: Id) -> NetReset
    ensures { result ≡ NetReset.Async resetn true 0 }
{
    NetReset::Async {
        pin: resetn,
        low: true,
        value: 0,
    }
}

/// Adds the registers of a wait state, which are still to be driven.
fn wait_registers(net: &mut Netlist, pins: BusPins) -> Result<Held, NoMemory>
    requires clock { HasClock net.old }
    requires pins { HasBusPins net.old pins }
    requires wait { IsNew net.old (codes "apb$wait") }
    requires error { IsNew net.old (codes "apb$error") }
    ensures older { OnOk result (Extends net.old net.new) }
    ensures name { OnOk result (net.new.name ≡ net.old.name) }
    ensures seats { OnOk result (net.new.seats ≡ net.old.seats) }
    ensures registers { OnOk result (registers_of net.new.nodes ≡ registers_of net.old.nodes ++ record { name = codes "apb$wait"; width = 1 } ∷ record { name = codes "apb$error"; width = 1 } ∷ []) }
    ensures undriven { OnOk result (undriven net.new.nodes ≡ undriven net.old.nodes + 2) }
    ensures held { IfOk result (AreHeld net.new pins.resetn) }
{
    let waited = net.register(b"apb$wait", 1, cleared_by(pins.resetn))?;
    let error = net.register(b"apb$error", 1, cleared_by(pins.resetn))?;
    Ok(Held { waited, error })
}

/// The vectors of an access: the first, which carries it, and the second, which closes it.
#[derive(Clone, Copy)]
struct Vectors {
    carries: Id,
    closes: Id,
}

/// Which of its vectors an access is at.
#[tactic(auto, using(rtl_net::proofs::Nets::building))]
fn which_vector(
    net: &mut Netlist,
    block: &Block,
    accessed: Id,
    waited: Id,
) -> Result<Vectors, NoMemory>
    requires wait { has_wait block.now ≡ true }
    requires accessed { IsOfBus block.now net.old accessed 1 (λ p m. bit_of (run.is_access p)) }
    requires waited { IsNode net.old waited 1 (cleared (codes "apb$wait")) }
    ensures older { Grows net.old net.new }
    ensures name { net.new.name ≡ net.old.name }
    ensures carries { IfOk result (λ t. IsOfBus block.now net.new t.carries 1 (λ p m. bit_of (run.carries block.now p m))) }
    ensures closes { IfOk result (λ t. IsOfBus block.now net.new t.closes 1 (λ p m. bit_of (run.closes block.now p m))) }
{
    let first = opposite(net, waited)?;
    let carries = both(net, accessed, first)?;
    let closes = both(net, accessed, waited)?;
    Ok(Vectors { carries, closes })
}

/// Whether the vector that closes an access says that it failed.
fn failed(net: &mut Netlist, block: &Block, closes: Id, error: Id) -> Result<Id, NoMemory>
    requires wait { has_wait block.now ≡ true }
    requires closes { IsOfBus block.now net.old closes 1 (λ p m. bit_of (run.closes block.now p m)) }
    requires error { IsNode net.old error 1 (cleared (codes "apb$error")) }
    ensures older { Grows net.old net.new }
    ensures name { net.new.name ≡ net.old.name }
    ensures failed { IfOk result (λ id. IsOfBus block.now net.new id 1 (λ p m. if run.closes block.now p m then m Error else 0)) }
{
    both(net, closes, error)
}

/// Drives the registers of a wait state.
fn tied(net: &mut Netlist, block: &Block, pins: BusPins, held: Held, carries: Id, fails: Id)
    requires pins { HasBusPins net.old pins }
    requires held { AreHeld net.old pins.resetn held }
    requires carries { IsOfBus block.now net.old carries 1 (λ p m. bit_of (run.carries block.now p m)) }
    requires fails { IsOfBus block.now net.old fails 1 (λ p m. bit_of (run.carries block.now p m && run.is_unmapped block.now p)) }
    ensures older { Extends net.old net.new }
    ensures name { net.new.name ≡ net.old.name }
    ensures seats { net.new.seats ≡ net.old.seats }
    ensures registers { registers_of net.new.nodes ≡ registers_of net.old.nodes }
    ensures undriven { undriven net.new.nodes + 2 ≡ undriven net.old.nodes }
    ensures keeps { KeepsAccess block.now net.new }
{
    net.drive(held.waited, carries);
    net.drive(held.error, fails);
}

/// The access of a bus with one wait state: its first vector carries it, and the second closes it with what was kept.
pub(crate) fn waiting(
    net: &mut Netlist,
    block: &Block,
    pins: BusPins,
    accessed: Id,
    address: Decoded,
) -> Result<Front, NoMemory>
    requires sound { IsSound block.now }
    requires wait { has_wait block.now ≡ true }
    requires clock { HasClock net.old }
    requires pins { HasBusPins net.old pins }
    requires new_wait { IsNew net.old (codes "apb$wait") }
    requires new_error { IsNew net.old (codes "apb$error") }
    requires accessed { IsOfBus block.now net.old accessed 1 (λ p m. bit_of (run.is_access p)) }
    requires address { HasAddress block.now net.old address }
    ensures older { OnOk result (Extends net.old net.new) }
    ensures name { OnOk result (net.new.name ≡ net.old.name) }
    ensures seats { OnOk result (net.new.seats ≡ net.old.seats) }
    ensures registers { OnOk result (registers_of net.new.nodes ≡ registers_of net.old.nodes ++ access_registers block.now) }
    ensures undriven { OnOk result (undriven net.new.nodes ≡ undriven net.old.nodes) }
    ensures front { IfOk result (IsFront block.now net.new) }
{
    let held = wait_registers(net, pins)?;
    let vectors = which_vector(net, block, accessed, held.waited)?;
    let access = requested(net, block, pins, vectors.carries, address)?;
    let error = failed(net, block, vectors.closes, held.error)?;
    tied(net, block, pins, held, vectors.carries, access.fails);
    Ok(Front {
        inlet: access.inlet,
        ready: vectors.closes,
        error,
        closes: Some(vectors.closes),
    })
}
