//! A register machine.
ghost use Rattle.std.specs.Prelude.{◌≡◌, ◌∷◌, ◌+◌, ◌<◌, ◌^◌, ℕ, false, IfOk, length, map, replicate, slice_index};
ghost use Rattle.rb_model.specs.Kept.{Kept};
ghost use Rattle.rb_model.specs.Machine as spec;
ghost use Rattle.rb_model.specs.Ports.{input_pins};
ghost use Rattle.rb_model.specs.Protocol.{bus_of};
ghost use Rattle.rb_model.specs.Run.{bus_held, pins_of};
ghost use Rattle.rb_model.specs.Sound.{IsSound};
ghost use Rattle.block_plan.specs.Plan.{IsPlanOf};
ghost use Rattle.rb_machine.specs.Scene.{map_of, no_mark, no_state};
ghost use Rattle.rb_machine.specs.Resets.{AreWays, NoneReset};
ghost use Rattle.rb_machine.specs.Transfers.{IsTransfer};
ghost use Rattle.rb_machine.specs.Table.{place_of};

use crate::bus::{Access, BusOuts, Transfer, bus_at, commit, hold, outs_shown, transfer_of};
use crate::keeping::moving_places;
use crate::moves::{answer, mark_access, move_fields};
use crate::plain::{PlainField, pin_steps};
use crate::quiet::{Brief, briefs, busy_places};
use crate::reset::{reset_ways, some_asserted};
use crate::scene::{EdgeState, Held, Strobes};
use crate::sight::FieldState;
use crate::sources::{Source, item_sources};
use crate::table::{item_places, number_at, place_of, table_len};
use block_plan::{Outlet, Plan, wanted, wanted_items};
use rb_base::NoMemory;
use rb_model::{Block, RefItem, ResetBy};
use std::alloc::Global;

/// A register machine of a sound block: what it looked up, what it holds from one clock edge to the next, and room for an edge.
#[derive(Drop)]
pub struct Machine<'b> {
    block: &'b Block,
    plan: Plan,
    order: Vec<RefItem>,
    places: Vec<usize>,
    resets: Vec<ResetBy>,
    briefs: Vec<Brief>,
    next: Vec<usize>,
    steps: Vec<PlainField>,
    moving: Vec<usize>,
    shown: Vec<usize>,
    sources: Vec<Source>,
    held: Held,
    pins: Vec<u64>,
    last: Access,
    marks: Vec<Strobes>,
    table: Vec<u64>,
    states: Vec<FieldState>,
}

/// What a vector brings: the bus's part in it, and whether some reset of a field is asserted.
#[derive(Clone, Copy)]
struct Vector {
    transfer: Transfer,
    is_reset: bool,
}

/// Takes the numbers of the pins, which have at most 64 bits.
fn read_pins(from: &[u128], into: &mut [u64])
    requires sized { length into.old ≡ length from.now }
    requires narrow { (k : ℕ) → slice_index from.now k < 2 ^ 64 }
    ensures { into.new ≡ from.now }
{
    for (index, number) in from.iter().enumerate() {
        into[index] = *number as u64;
    }
}

/// Takes the pins, lets asynchronous resets act on what is held, and answers what the vector brings.
fn observe(
    block: &Block,
    plan: &Plan,
    ways: &[ResetBy],
    from: &[u128],
    pins: &mut [u64],
    held: &mut Held,
) -> Vector
    requires sound { IsSound block.now }
    requires planned { IsPlanOf block.now plan.now }
    requires ways { AreWays block.now.fields ways.now }
    requires sized { length from.now ≡ length (input_pins block.now) }
    requires narrow { (k : ℕ) → slice_index from.now k < 2 ^ 64 }
    requires room { length pins.old ≡ length (input_pins block.now) }
    requires fields { length held.old.fields.items ≡ length block.now.fields }
    ensures pins { pins.new ≡ from.now }
    ensures held { (k : Kept) → map_of held.new k
        ≡ bus_held block.now (bus_of (pins_of block.now from.now)) (spec.held block.now (pins_of block.now from.now) (map_of held.old)) k }
    ensures fields { length held.new.fields.items ≡ length block.now.fields }
    ensures calm { result.is_reset ≡ false → NoneReset block.now (pins_of block.now from.now) }
    ensures still { result.is_reset ≡ false → held.new.fields.items ≡ held.old.fields.items }
    ensures transfer { IsTransfer block.now (bus_of (pins_of block.now from.now)) (map_of held.new) result.transfer }
{
    read_pins(from, pins);
    let bus = bus_at(plan, pins);
    let is_reset = some_asserted(block, plan, pins, ways);
    hold(block, plan, pins, &bus, is_reset, held);
    Vector {
        transfer: transfer_of(block, plan, &bus, held.waited),
        is_reset,
    }
}

/// What is kept of so many fields where nothing is.
fn no_states(alloc: Global, fields: usize) -> Result<Vec<FieldState>, NoMemory>
    ensures items { IfOk result (λ all. all.items ≡ replicate fields no_state) }
    ensures sized { IfOk result (λ all. length all.items ≡ fields) }
{
    let state = FieldState {
        value: 0,
        last: 0,
        done: 0,
    };
    Ok(vec![in alloc; state; fields]?)
}

/// The marks of so many fields where no access reaches one.
fn no_marks(alloc: Global, fields: usize) -> Result<Vec<Strobes>, NoMemory>
    ensures items { IfOk result (λ all. all.items ≡ replicate fields no_mark) }
    ensures sized { IfOk result (λ all. length all.items ≡ fields) }
{
    let mark = Strobes {
        modified: false,
        accessed: false,
    };
    Ok(vec![in alloc; mark; fields]?)
}

/// The places in the table of the items that outlets show.
fn outlet_places(alloc: Global, outlets: &[Outlet]) -> Result<Vec<usize>, NoMemory>
    ensures { IfOk result (λ all. all.items ≡ map (λ o. place_of o.item) outlets.now) }
{
    let mut all = Vec::new(alloc);
    for outlet in outlets {
        all.push(place_of(outlet.item))?;
    }
    Ok(all)
}

/// Shows the bus's outputs, and then what stands in the table at these places.
fn show(bus: BusOuts, places: &[usize], table: &[u64], outs: &mut [u128])
    requires { length outs.old ≡ 3 + length places.now }
    ensures { outs.new ≡ bus.ready ∷ bus.«data» ∷ bus.error ∷ map (slice_index table.now) places.now }
{
    outs[0] = u128::from(bus.ready);
    outs[1] = u128::from(bus.data);
    outs[2] = u128::from(bus.error);
    for (index, place) in places.iter().enumerate() {
        outs[index + 3] = u128::from(number_at(table, *place));
    }
}

impl<'b> Machine<'b> {
    ghost use Rattle.std.specs.Prelude.{◌≡◌, IfOk, length};
    ghost use Rattle.v_design.specs.Design.{outputs_among};
    ghost use Rattle.v_design.specs.Fits.{FitsPins};
    ghost use Rattle.rb_model.specs.Kept.{Fits, Kept};
    ghost use Rattle.rb_model.specs.Sound.{IsSound};
    ghost use Rattle.rb_model.specs.Ports.{input_pins, ports};
    ghost use Rattle.rb_model.specs.Run.{ClockEdge};
    ghost use Rattle.rb_machine.specs.Machines.{IsReady, held_map};

    /// A machine of a sound block, which holds 0 for each value. It takes time in proportion to the size of the block. The only
    /// error is want of memory, after which there is no machine.
    pub fn new(alloc: Global, block: &'b Block) -> Result<Machine<'b>, NoMemory>
        requires { IsSound block.now }
        ensures ready { IfOk result IsReady }
        ensures block { IfOk result (λ m. m.block.now ≡ block.now) }
        ensures zeros { IfOk result (λ m. (k : Kept) → held_map m k ≡ 0) }
    {
        let plan = Plan::new(alloc, block)?;
        let needed = wanted(alloc, block, &plan)?;
        let order = wanted_items(alloc, block, &needed)?;
        let places = item_places(alloc, &order)?;
        let items = table_len(&order);
        let resets = reset_ways(alloc, &block.fields.items)?;
        let briefs = briefs(alloc, &block.fields.items)?;
        let next = busy_places(alloc, &block.fields.items)?;
        let steps = pin_steps(alloc, &block.fields.items, &plan.fields)?;
        let moving = moving_places(alloc, &block.fields.items)?;
        let shown = outlet_places(alloc, &plan.outlets)?;
        let sources = item_sources(alloc, block, &plan, &order)?;
        let inputs = plan.inputs;
        let fields = block.fields.items.len();
        Ok(Machine {
            block,
            plan,
            order,
            places,
            resets,
            briefs,
            next,
            steps,
            moving,
            shown,
            sources,
            held: Held {
                fields: no_states(alloc, fields)?,
                waited: false,
                data: 0,
                error: false,
            },
            pins: vec![in alloc; 0; inputs]?,
            last: Access::Off,
            marks: no_marks(alloc, fields)?,
            table: vec![in alloc; 0; items]?,
            states: no_states(alloc, fields)?,
        })
    }

    /// One rising edge of the clock. The pins are the numbers of the block's inputs without PCLK, and `outs` takes those
    /// of its outputs, each in port order. The machine moves from the map that it held to the map that the edge keeps,
    /// and its values stay within their widths. It takes no memory, and time in proportion to the size of the block.
    pub fn step(&mut self, pins: &[u128], outs: &mut [u128])
        requires ready { IsReady self.old }
        requires pins { FitsPins (input_pins self.old.block.now) pins.now }
        requires outs { length outs.old ≡ length (outputs_among (ports self.old.block.now)) }
        ensures edge { ClockEdge self.old.block.now (held_map self.old) pins.now outs.new (held_map self.new) }
        ensures fits { Fits self.old.block.now (held_map self.old) → Fits self.old.block.now (held_map self.new) }
        ensures ready { IsReady self.new }
        ensures block { self.new.block ≡ self.old.block }
    {
        let block = self.block;
        let vector = observe(
            block,
            &self.plan,
            &self.resets,
            pins,
            &mut self.pins,
            &mut self.held,
        );
        let transfer = vector.transfer;
        mark_access(block, self.last, transfer.access, &mut self.marks);
        self.last = transfer.access;
        let scene = EdgeState {
            block,
            plan: &self.plan,
            pins: &self.pins,
            held: &self.held,
            marks: &self.marks,
            briefs: &self.briefs,
            next: &self.next,
            steps: &self.steps,
            sources: &self.sources,
            is_reset: vector.is_reset,
        };
        scene.settle(&self.order, &self.places, &mut self.table);
        move_fields(&scene, &self.table, transfer.access, &mut self.states);
        let answered = answer(block, &self.table, transfer.access);
        let bus_outs = outs_shown(block, transfer, &self.held, answered);
        show(bus_outs, &self.shown, &self.table, outs);
        commit(
            block,
            &self.moving,
            transfer,
            vector.is_reset,
            answered,
            &self.states,
            &mut self.held,
        );
    }
}
