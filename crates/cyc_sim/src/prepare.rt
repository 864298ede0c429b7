//! A module's statements as operations.
ghost use Rattle.std.specs.Prelude.{◌≡◌, ◌+◌, ◌<◌, ◌^◌, IfOk, OnOk, length, map};
ghost use Rattle.v_design.specs.Design.{inputs, outputs, registers};
ghost use Rattle.v_design.specs.Seen.{module_seen, reset_seen};
ghost use Rattle.cyc_sim.specs.Accepted.{IsAccepted};
ghost use Rattle.cyc_sim.specs.Compiled.{AreBelow, end_of};
ghost use Rattle.cyc_sim.specs.Order.{IsSettlingOrder};
ghost use Rattle.cyc_sim.specs.Preparing.{ArePlaced, ArePlacesOf, Guards, KnowsNets, KnowsPins, KnowsRegisters, KnowsReset, Moving, Prepared};

use crate::compile::{bytes_of, compile, wire_of};
use crate::listing::{Listing, Wire};
use crate::operation::Operation;
use rb_base::{NoMemory, Pin};
use std::alloc::Global;
use std::collections::BTreeMap;
use v_design::{Design, VReset};

/// The wires of pins, the places of which follow each other from the first on.
pub(crate) fn place_pins(
    alloc: Global,
    pins: &[Pin],
    first: usize,
) -> Result<BTreeMap<&[u8], Wire>, NoMemory>
    requires { first + length pins.now < 2 ^ 64 }
    ensures { IfOk result (ArePlaced pins.now first) }
{
    let mut placed = BTreeMap::new(alloc);
    for (index, pin) in pins.iter().enumerate() {
        let wire = Wire {
            place: first + index,
            width: pin.width,
        };
        placed.insert(bytes_of(&pin.name), wire)?;
    }
    Ok(placed)
}

/// The wire of what a register takes, under its reset.
fn guarded(
    known: &BTreeMap<&[u8], Wire>,
    reset: &Option<VReset>,
    next: Wire,
    listing: &mut Listing,
) -> Result<Wire, NoMemory>
    requires known { AreBelow known.now (end_of listing.old) }
    requires next { next.place < end_of listing.old }
    requires pin { KnowsReset known.now (reset_seen reset.now) }
    ensures { IfOk result (Guards known.now (reset_seen reset.now) next listing.old listing.new) }
{
    match reset {
        None => Ok(next),
        Some(reset) => {
            let pin = wire_of(known, &reset.pin);
            let place = listing.push(Operation::Guard {
                pin: pin.place,
                low: reset.low,
                value: reset.value,
                next: next.place,
            })?;
            Ok(Wire {
                place,
                width: next.width,
            })
        }
    }
}

/// The wires of names, in the order of the pins that have these names.
pub(crate) fn places_in(
    alloc: Global,
    known: &BTreeMap<&[u8], Wire>,
    pins: &[Pin],
) -> Result<Vec<usize>, NoMemory>
    requires { KnowsPins known.now pins.now }
    ensures { IfOk result (λ r. ArePlacesOf known.now pins.now r.items) }
{
    let mut places = Vec::new(alloc);
    for pin in pins {
        places.push(wire_of(known, &pin.name).place)?;
    }
    Ok(places)
}

/// Adds the values of the registers: what they contain, or their constants where their resets are asserted.
pub(crate) fn place_registers<'d>(
    design: &'d Design,
    kept: &BTreeMap<&'d [u8], Wire>,
    known: &mut BTreeMap<&'d [u8], Wire>,
    listing: &mut Listing,
) -> Result<(), NoMemory>
    requires accepted { IsAccepted (module_seen design.now) }
    requires kept { ArePlaced (registers (module_seen design.now)) (length (inputs (module_seen design.now))) kept.now }
    requires prepared { Prepared (module_seen design.now) known.old listing.old }
    requires pins { KnowsPins known.old (inputs (module_seen design.now)) }
    ensures prepared { OnOk result (Prepared (module_seen design.now) known.new listing.new) }
    ensures pins { OnOk result (KnowsPins known.new (inputs (module_seen design.now))) }
    ensures registers { OnOk result (KnowsRegisters known.new (module_seen design.now).steps) }
{
    for stmt in &design.stmts {
        if !stmt.clocked {
            continue;
        }
        let contents = wire_of(kept, &stmt.to);
        let wire = guarded(known, &stmt.reset, contents, listing)?;
        known.insert(bytes_of(&stmt.to), wire)?;
    }
    Ok(())
}

/// Adds the values of the nets that assignments drive, in an order in which they settle.
pub(crate) fn place_nets<'d>(
    design: &'d Design,
    order: &[u32],
    known: &mut BTreeMap<&'d [u8], Wire>,
    listing: &mut Listing,
) -> Result<(), NoMemory>
    requires accepted { IsAccepted (module_seen design.now) }
    requires order { IsSettlingOrder (module_seen design.now).steps order.now }
    requires prepared { Prepared (module_seen design.now) known.old listing.old }
    requires pins { KnowsPins known.old (inputs (module_seen design.now)) }
    requires registers { KnowsRegisters known.old (module_seen design.now).steps }
    ensures prepared { OnOk result (Prepared (module_seen design.now) known.new listing.new) }
    ensures pins { OnOk result (KnowsPins known.new (inputs (module_seen design.now))) }
    ensures nets { OnOk result (KnowsNets known.new (module_seen design.now).steps) }
{
    for index in order {
        let stmt = &design.stmts[*index as usize];
        if stmt.clocked {
            continue;
        }
        let wire = compile(known, &stmt.expr, listing)?;
        known.insert(bytes_of(&stmt.to), wire)?;
    }
    Ok(())
}

/// Adds what the registers contain after an edge, by their names.
pub(crate) fn place_moves<'d>(
    alloc: Global,
    design: &'d Design,
    known: &BTreeMap<&'d [u8], Wire>,
    listing: &mut Listing,
) -> Result<BTreeMap<&'d [u8], Wire>, NoMemory>
    requires accepted { IsAccepted (module_seen design.now) }
    requires prepared { Prepared (module_seen design.now) known.now listing.old }
    requires pins { KnowsPins known.now (inputs (module_seen design.now)) }
    requires nets { KnowsNets known.now (module_seen design.now).steps }
    ensures prepared { OnOk result (Prepared (module_seen design.now) known.now listing.new) }
    ensures moves { IfOk result (λ moves. Moving (module_seen design.now) moves listing.new) }
    ensures registers { IfOk result (λ moves. KnowsRegisters moves (module_seen design.now).steps) }
{
    let mut moves = BTreeMap::new(alloc);
    for stmt in &design.stmts {
        if !stmt.clocked {
            continue;
        }
        let next = compile(known, &stmt.expr, listing)?;
        let wire = guarded(known, &stmt.reset, next, listing)?;
        moves.insert(bytes_of(&stmt.to), wire)?;
    }
    Ok(moves)
}
