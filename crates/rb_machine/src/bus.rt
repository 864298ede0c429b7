//! The bus at a vector (IHI 0024B): what access it carries.
ghost use Rattle.std.specs.Prelude.{◌≡◌, ◌==◌, ◌&&◌, false, not, if◌then◌else◌, length, position};
ghost use Rattle.std.specs.List.Sorted.{IsStrictlyIncreasing};
ghost use Rattle.std.specs.Option.{option_map_or};
ghost use Rattle.v_design.specs.Expr.{bit_of};
ghost use Rattle.rb_model.specs.declared.block.Block.{Block};
ghost use Rattle.rb_model.specs.Items as items;
ghost use Rattle.rb_model.specs.Kept.{Map, Kept, Waited, has_wait};
ghost use Rattle.rb_model.specs.Machine as spec;
ghost use Rattle.rb_model.specs.Ports.{input_pins};
ghost use Rattle.rb_model.specs.Protocol.{bus_of};
ghost use Rattle.rb_model.specs.Run as run;
ghost use Rattle.rb_model.specs.Run.{pins_of};
ghost use Rattle.rb_model.specs.Sound.{IsSound};
ghost use Rattle.block_plan.specs.Plan.{IsPlanOf};
ghost use Rattle.rb_machine.specs.Keeping.{AreMoving, IsStill};
ghost use Rattle.rb_machine.specs.Resets.{NoneReset};
ghost use Rattle.rb_machine.specs.Scene.{map_of};
ghost use Rattle.rb_machine.specs.Transfers as transfers;
ghost use Rattle.rb_machine.specs.Transfers.{IsThere, IsTransfer, access_seen, bus_seen};

use crate::keeping::take_fields;
use crate::reset::hold_fields;
use crate::scene::Held;
use crate::sight::FieldState;
use crate::table::number_at;
use block_plan::Plan;
use rb_model::Block;

/// The numbers at the bus's input pins.
#[derive(Clone, Copy)]
pub(crate) struct Bus {
    pub resetn: u64,
    pub address: u64,
    pub select: u64,
    pub enable: u64,
    pub write: u64,
    pub data_in: u64,
}

/// What software does at a vector: nothing, a read of the word of a number, or a write of it with data.
#[derive(Clone, Copy)]
pub(crate) enum Access {
    Off,
    Read(usize),
    Write(usize, u64),
}

/// The bus's part in a vector: its access, whether the vector carries one, whether it is the second of one that waits,
/// and whether no word has the address.
#[derive(Clone, Copy)]
pub(crate) struct Transfer {
    pub access: Access,
    pub carries: bool,
    pub closes: bool,
    pub unmapped: bool,
}

/// The numbers of the bus's output pins.
#[derive(Clone, Copy)]
pub(crate) struct BusOuts {
    pub ready: u64,
    pub data: u64,
    pub error: u64,
}

/// The numbers at the bus's input pins.
pub(crate) fn bus_at(plan: &Plan, pins: &[u64]) -> Bus
    ensures { (b : Block) → IsSound b → IsPlanOf b plan.now → length pins.now ≡ length (input_pins b) → bus_seen result ≡ bus_of (pins_of b pins.now) }
{
    Bus {
        resetn: number_at(pins, plan.bus.resetn),
        address: number_at(pins, plan.bus.address),
        select: number_at(pins, plan.bus.select),
        enable: number_at(pins, plan.bus.enable),
        write: number_at(pins, plan.bus.write),
        data_in: number_at(pins, plan.bus.data_in),
    }
}

/// The number of the word at an address.
fn word_at(addresses: &[u64], address: u64) -> Option<usize>
    requires { IsStrictlyIncreasing addresses.now }
    ensures { result ≡ position (λ a. address == a) addresses.now }
{
    match addresses.binary_search(&address) {
        Ok(number) => Some(number),
        Err(_) => None,
    }
}

/// The access of a vector that carries one, where the word at its address has this number.
fn carried(bus: &Bus, word: Option<usize>) -> Access
    ensures { access_seen result ≡ (if bus.now.write == 0 then option_map_or items.Read word items.NoAccess
        else option_map_or (λ i. items.Write i bus.now.data_in) word items.NoAccess) }
{
    match word {
        None => Access::Off,
        Some(number) => {
            if bus.write == 0 {
                Access::Read(number)
            } else {
                Access::Write(number, bus.data_in)
            }
        }
    }
}

/// Whether the vector is one of an access.
fn is_access(bus: &Bus) -> bool
    ensures { result ≡ run.is_access (bus_seen bus.now) }
{
    bus.resetn == 1 && bus.select == 1 && bus.enable == 1
}

/// Whether the access has waited, where `waited` says that the vector before carried one.
fn has_waited(block: &Block, waited: bool) -> bool
    ensures { result ≡ (has_wait block.now && waited) }
{
    block.waits == 1 && waited
}

/// The access of a vector, if it carries one.
fn access_of(bus: &Bus, word: Option<usize>, carries: bool) -> Access
    ensures { access_seen result ≡ (if carries then (if bus.now.write == 0 then option_map_or items.Read word items.NoAccess
        else option_map_or (λ i. items.Write i bus.now.data_in) word items.NoAccess) else items.NoAccess) }
{
    if carries {
        carried(bus, word)
    } else {
        Access::Off
    }
}

/// Whether the vector is the first of an access, and whether it is the second of one that waits.
fn carries_or_closes(bus: &Bus, waited: bool) -> (bool, bool)
    ensures { result ≡ (run.is_access (bus_seen bus.now) && not waited, run.is_access (bus_seen bus.now) && waited) }
{
    let accesses = is_access(bus);
    (accesses && !waited, accesses && waited)
}

/// The bus's part in a vector, where `waited` says that the vector before carried an access.
pub(crate) fn transfer_of(block: &Block, plan: &Plan, bus: &Bus, waited: bool) -> Transfer
    requires sound { IsSound block.now }
    requires planned { IsPlanOf block.now plan.now }
    ensures { (m : Map) → m Waited ≡ bit_of waited → IsTransfer block.now (bus_seen bus.now) m result }
{
    let word = word_at(&plan.addresses, bus.address);
    let (carries, closes) = carries_or_closes(bus, has_waited(block, waited));
    Transfer {
        access: access_of(bus, word, carries),
        carries,
        closes,
        unmapped: word.is_none(),
    }
}

/// Asserted asynchronous resets act before anything is read, and under PRESETn the bus forgets its access. `is_reset` is false
/// only where no reset of a field is asserted.
pub(crate) fn hold(
    block: &Block,
    plan: &Plan,
    pins: &[u64],
    bus: &Bus,
    is_reset: bool,
    held: &mut Held,
)
    requires sound { IsSound block.now }
    requires planned { IsPlanOf block.now plan.now }
    requires sized { length pins.now ≡ length (input_pins block.now) }
    requires fields { length held.old.fields.items ≡ length block.now.fields }
    requires calm { is_reset ≡ false → NoneReset block.now (pins_of block.now pins.now) }
    ensures map { (k : Kept) → map_of held.new k ≡ run.bus_held block.now (bus_seen bus.now) (spec.held block.now (pins_of block.now pins.now) (map_of held.old)) k }
    ensures fields { length held.new.fields.items ≡ length block.now.fields }
    ensures still { is_reset ≡ false → held.new.fields.items ≡ held.old.fields.items }
{
    hold_fields(block, plan, pins, is_reset, &mut held.fields);
    if bus.resetn == 0 {
        held.waited = false;
        held.data = 0;
        held.error = false;
    }
}

/// The numbers of the bus's output pins, where the access is answered this. With a wait state the vector that closes an
/// access shows what is held, and else none does.
pub(crate) fn outs_shown(block: &Block, transfer: Transfer, held: &Held, answer: u64) -> BusOuts
    ensures { result ≡ transfers.outs_shown block.now transfer held.now answer }
{
    if block.waits != 1 {
        return BusOuts {
            ready: 1,
            data: answer,
            error: u64::from(transfer.carries && transfer.unmapped),
        };
    }
    if transfer.closes {
        BusOuts {
            ready: 1,
            data: held.data,
            error: u64::from(held.error),
        }
    } else {
        BusOuts {
            ready: 0,
            data: 0,
            error: 0,
        }
    }
}

/// Holds what the fields keep after the edge, and with a wait state the access and its answer.
pub(crate) fn commit(
    block: &Block,
    moving: &[usize],
    transfer: Transfer,
    is_reset: bool,
    answer: u64,
    states: &[FieldState],
    held: &mut Held,
)
    requires sound { IsSound block.now }
    requires there { IsThere block.now transfer.access }
    requires moving { AreMoving block.now.fields moving.now }
    requires room { length states.now ≡ length block.now.fields }
    requires sized { length held.old.fields.items ≡ length block.now.fields }
    requires still { is_reset ≡ false → IsStill block.now (access_seen transfer.access) held.old.fields.items states.now }
    ensures fields { held.new.fields.items ≡ states.now }
    ensures waited { held.new.waited ≡ (has_wait block.now && transfer.carries) }
    ensures answer { held.new.«data» ≡ (if has_wait block.now then answer else 0) }
    ensures error { held.new.error ≡ (has_wait block.now && (transfer.carries && transfer.unmapped)) }
{
    take_fields(
        block,
        moving,
        transfer.access,
        is_reset,
        states,
        &mut held.fields,
    );
    let waits = block.waits == 1;
    held.waited = waits && transfer.carries;
    held.data = if waits { answer } else { 0 };
    held.error = waits && (transfer.carries && transfer.unmapped);
}
