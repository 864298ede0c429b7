//! The registers of what a block's fields keep.

ghost use Rattle.std.specs.Prelude.{◌≡◌, ◌<◌, ◌+◌, ◌++◌, ◌∷◌, [], ℕ, Some, IfOk, OnOk, IsTrue, Contains, length, map, slice_get};
ghost use Rattle.rtl_net.specs.Value.{At, under};
ghost use Rattle.rtl_net.specs.Names.{is_net_name};
ghost use Rattle.rtl_net.specs.Net.{Extends, Keeps, Awaits, CanReset, HasClock, IsNode, IsWidth, registers_of, undriven};
ghost use Rattle.rtl_net.specs.Ids.{at};
ghost use Rattle.rtl_net.specs.Ports.{IsNew};
ghost use Rattle.rb_model.specs.Kept.{Kept, register_name, register_width, field_kept, kept_pin};
ghost use Rattle.rb_model.specs.Sound.{IsSound};
ghost use Rattle.block_plan.specs.Kept.{kept_seen};
ghost use Rattle.block_plan.specs.Plan.{IsPlanOf};
ghost use Rattle.gen_scene.specs.declared.base.Inlet.{Inlet};
ghost use Rattle.gen_scene.specs.Bases.{HasKept, HasPins, kept_number, kept_reset, kept_width, kept_word, reset_in, reset_of};

use crate::base::field_at;
use crate::resets::{reset_for, reset_id};
use block_plan::{KeptValue, Plan};
use rb_base::NoMemory;
use rb_model::{Block, Field, names_differ};
use rtl_net::{Id, NetReset, Netlist};
use std::alloc::Global;

/// The number of the field of a kept value.
fn number_of(kept: KeptValue) -> u32
    ensures { kept_number (kept_seen kept) ≡ Some result }
{
    match kept {
        KeptValue::Val(number) => number,
        KeptValue::Last(number) => number,
        KeptValue::Done(number) => number,
    }
}

/// The word before the path in the name of the register of a kept value.
fn word_of(kept: KeptValue) -> &'static [u8]
    ensures { result.now ≡ kept_word (kept_seen kept) }
{
    match kept {
        KeptValue::Val(_) => b"val$",
        KeptValue::Last(_) => b"last$",
        KeptValue::Done(_) => b"done$",
    }
}

/// The width in bits of the register of a kept value of a field.
fn width_of(kept: KeptValue, field: &Field) -> u8
    ensures { result ≡ kept_width (kept_seen kept) field.now }
{
    match kept {
        KeptValue::Val(_) => field.width,
        KeptValue::Last(_) => field.width,
        KeptValue::Done(_) => 1,
    }
}

/// What a reset leaves of a kept value of a field, if it changes it.
fn reset_value(kept: KeptValue, field: &Field) -> Option<u128>
    ensures { result ≡ kept_reset (kept_seen kept) field.now }
{
    match kept {
        KeptValue::Val(_) => match field.reset {
            Some(value) => Some(u128::from(value)),
            None => None,
        },
        KeptValue::Last(_) => Some(0),
        KeptValue::Done(_) => Some(0),
    }
}

/// The path of a field.
fn path_of(field: &Field) -> &[u8]
    ensures { result.now ≡ field.now.path }
{
    &field.path.bytes
}

/// Adds a register whose name is the word and the path.
fn add(
    alloc: Global,
    net: &mut Netlist,
    word: &[u8],
    path: &[u8],
    width: u8,
    reset: NetReset,
) -> Result<Id, NoMemory>
    requires named { IsTrue (is_net_name (word.now ++ path.now)) }
    requires new { IsNew net.old (word.now ++ path.now) }
    requires wide { IsWidth width }
    requires clock { HasClock net.old }
    requires reset { CanReset net.old width reset }
    ensures older { Extends net.old net.new }
    ensures name { net.new.name ≡ net.old.name }
    ensures keeps { Keeps net.old net.new }
    ensures seats { net.new.seats ≡ net.old.seats }
    ensures registers { OnOk result (registers_of net.new.nodes ≡ registers_of net.old.nodes ++ record { name = word.now ++ path.now; width = width } ∷ []) }
    ensures undriven { OnOk result (undriven net.new.nodes ≡ undriven net.old.nodes + 1) }
    ensures awaits { IfOk result (λ id. Awaits net.new id (word.now ++ path.now) width reset) }
    ensures node { IfOk result (λ id. IsNode net.new id width (λ v. under v.node reset (v.kept (word.now ++ path.now)))) }
{
    let mut name = Vec::new(alloc);
    name.extend_from_slice(word)?;
    name.extend_from_slice(path)?;
    net.register(&name, width, reset)
}

/// Adds the register of a kept value.
fn register(
    alloc: Global,
    net: &mut Netlist,
    block: &Block,
    plan: &Plan,
    pins: &[Id],
    kept: KeptValue,
) -> Result<Id, NoMemory>
    requires sound { IsSound block.now }
    requires planned { IsPlanOf block.now plan.now }
    requires own { Contains (field_kept block.now) (kept_seen kept) }
    requires clock { HasClock net.old }
    requires pins { HasPins block.now net.old pins.now }
    requires new { IsNew net.old (register_name block.now (kept_seen kept)) }
    ensures older { Extends net.old net.new }
    ensures name { net.new.name ≡ net.old.name }
    ensures keeps { Keeps net.old net.new }
    ensures seats { net.new.seats ≡ net.old.seats }
    ensures registers { OnOk result (registers_of net.new.nodes ≡ registers_of net.old.nodes ++ kept_pin block.now (kept_seen kept) ∷ []) }
    ensures undriven { OnOk result (undriven net.new.nodes ≡ undriven net.old.nodes + 1) }
    ensures awaits { IfOk result (λ id. Awaits net.new id (register_name block.now (kept_seen kept)) (register_width block.now (kept_seen kept))
        (reset_of block.now plan.now pins.now (kept_seen kept))) }
    ensures node { IfOk result (λ id. IsNode net.new id (register_width block.now (kept_seen kept))
        (λ v. under v.node (reset_of block.now plan.now pins.now (kept_seen kept)) (v.kept (register_name block.now (kept_seen kept))))) }
{
    let field = field_at(block, number_of(kept) as usize);
    let pin = reset_id(plan, pins, field.reset_by);
    let reset = reset_for(pin, field.reset_by, reset_value(kept, field));
    add(
        alloc,
        net,
        word_of(kept),
        path_of(field),
        width_of(kept, field),
        reset,
    )
}

/// Adds the registers of what the fields keep, in the order of the plan, which are still to be driven. A register that has an
/// asynchronous reset is reset by its field's pin. The only error is want of memory, after which the netlist has some of them.
pub fn registers(
    alloc: Global,
    net: &mut Netlist,
    block: &Block,
    plan: &Plan,
    pins: &[Id],
) -> Result<Vec<Id>, NoMemory>
    requires sound { IsSound block.now }
    requires planned { IsPlanOf block.now plan.now }
    requires clock { HasClock net.old }
    requires pins { HasPins block.now net.old pins.now }
    requires new { (k : Kept) → Contains (field_kept block.now) k → IsNew net.old (register_name block.now k) }
    ensures older { Extends net.old net.new }
    ensures name { net.new.name ≡ net.old.name }
    ensures keeps { Keeps net.old net.new }
    ensures seats { net.new.seats ≡ net.old.seats }
    ensures registers { OnOk result (registers_of net.new.nodes ≡ registers_of net.old.nodes ++ map (kept_pin block.now) (field_kept block.now)) }
    ensures undriven { OnOk result (undriven net.new.nodes ≡ undriven net.old.nodes + length (field_kept block.now)) }
    ensures awaits { IfOk result (λ ids. (j : ℕ) (k : Kept) → slice_get (field_kept block.now) j ≡ Some k
        → Awaits net.new (at ids.items j) (register_name block.now k) (register_width block.now k) (reset_of block.now plan.now pins.now k)) }
    ensures worth { IfOk result (λ ids. (a : Inlet) → HasKept block.now a net.new ids.items) }
{
    names_differ();
    let mut ids = Vec::new(alloc);
    for kept in &plan.kept.all {
        ids.push(register(alloc, net, block, plan, pins, *kept)?)?;
    }
    Ok(ids)
}
