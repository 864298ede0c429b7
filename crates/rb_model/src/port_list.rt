//! The ports of a block's module.

ghost use Rattle.std.specs.Prelude.{◌≡◌, ℕ, ◌<◌, false, [], ◌∷◌, ◌++◌, length, map, filter, slice_get, slice_index, not, ◌&&◌, ◌==◌, count_by, if◌then◌else◌, IfOk, OnOk, codes};
ghost use Rattle.std.specs.List.{flat_map, enumerate_from};
ghost use Rattle.rb_model.specs.Kept.{when};
ghost use Rattle.rb_model.specs.Ports as spec;
ghost use Rattle.rb_model.specs.Ports.{amount_pins, block_ports, bus_inputs, bus_outputs, count_pins, field_ports, gate_pins, input, is_pin, output, part_pins, pin, reg_outlets, shown_word, signal_name, signal_pins, view_pins};
ghost use Rattle.rb_model.specs.Own.{IsOwnView, own_pins, shown_ports, outlet_ports};
ghost use Rattle.rb_model.specs.Sound.{IsSound};

use crate::block::{Block, Field, Reg, Signal, View};
use crate::kinds::{Amount, Count, Feed, Gate, Part, Shown};
use crate::own::own_views;
use rb_base::{Dir, NoMemory, Port, Text};
use std::alloc::Global;

/// Adds a port whose name is the word and the path. The only error is want of memory.
pub fn push_port(
    alloc: Global,
    out: &mut Vec<Port>,
    dir: Dir,
    word: &[u8],
    path: &[u8],
    width: u8,
) -> Result<(), NoMemory>
    ensures { OnOk result (out.new.items ≡ out.old.items ++ record { dir = dir; name = word.now ++ path.now; width = width } ∷ []) }
{
    let mut bytes = Vec::new(alloc);
    bytes.extend_from_slice(word)?;
    bytes.extend_from_slice(path)?;
    out.push(Port {
        dir,
        name: Text { bytes },
        width,
    })?;
    Ok(())
}

/// Adds the pin of a feed, if it has one.
fn push_feed(
    alloc: Global,
    out: &mut Vec<Port>,
    from: Feed,
    word: &[u8],
    path: &[u8],
    width: u8,
) -> Result<(), NoMemory>
    ensures { OnOk result (out.new.items ≡ out.old.items ++ map input (when (is_pin from) (pin (word.now ++ path.now) width))) }
{
    match from {
        Feed::Pin => push_port(alloc, out, Dir::In, word, path, width)?,
        Feed::Off => (),
        Feed::Item(_) => (),
    }
    Ok(())
}

/// Adds the pin of a gate, if it has one.
fn push_gate(
    alloc: Global,
    out: &mut Vec<Port>,
    gate: Gate,
    high: &[u8],
    low: &[u8],
    path: &[u8],
) -> Result<(), NoMemory>
    ensures { OnOk result (out.new.items ≡ out.old.items ++ map input (gate_pins gate high.now low.now path.now)) }
{
    match gate {
        Gate::Always => (),
        Gate::High(from) => push_feed(alloc, out, from, high, path, 1)?,
        Gate::Low(from) => push_feed(alloc, out, from, low, path, 1)?,
    }
    Ok(())
}

/// Adds the pin of an amount, if it has one.
fn push_amount(
    alloc: Global,
    out: &mut Vec<Port>,
    amount: Amount,
    word: &[u8],
    path: &[u8],
) -> Result<(), NoMemory>
    ensures { OnOk result (out.new.items ≡ out.old.items ++ map input (amount_pins amount (word.now ++ path.now))) }
{
    match amount {
        Amount::Pin(width) => push_port(alloc, out, Dir::In, word, path, width)?,
        Amount::Number(_) => (),
        Amount::Item(_) => (),
    }
    Ok(())
}

/// Adds the pins of one direction of a counter.
fn push_part(
    alloc: Global,
    out: &mut Vec<Port>,
    part: Option<Part>,
    pulse: &[u8],
    value: &[u8],
    path: &[u8],
) -> Result<(), NoMemory>
    ensures { OnOk result (out.new.items ≡ out.old.items ++ map input (part_pins part (pulse.now ++ path.now) (value.now ++ path.now))) }
{
    if let Some(part) = part {
        push_feed(alloc, out, part.pulse, pulse, path, 1)?;
        push_amount(alloc, out, part.amount, value, path)?;
    }
    Ok(())
}

/// Adds the pins of a counter.
fn push_count(
    alloc: Global,
    out: &mut Vec<Port>,
    count: Option<Count>,
    path: &[u8],
) -> Result<(), NoMemory>
    ensures { OnOk result (out.new.items ≡ out.old.items ++ map input (count_pins count path.now)) }
{
    if let Some(count) = count {
        push_part(alloc, out, count.up, b"incr$", b"incrvalue$", path)?;
        push_part(alloc, out, count.down, b"decr$", b"decrvalue$", path)?;
    }
    Ok(())
}

/// The word of an output.
fn word_of(shown: Shown) -> &'static [u8]
    ensures { result.now ≡ shown_word shown }
{
    match shown {
        Shown::Anded => b"anded$",
        Shown::Ored => b"ored$",
        Shown::Xored => b"xored$",
        Shown::IncrThreshold => b"incrthreshold$",
        Shown::DecrThreshold => b"decrthreshold$",
        Shown::Overflow => b"overflow$",
        Shown::Underflow => b"underflow$",
        Shown::SwMod => b"swmod$",
        Shown::SwAcc => b"swacc$",
    }
}

/// Adds the pin of a view's gate, if it has one.
fn push_view(alloc: Global, out: &mut Vec<Port>, view: &View) -> Result<(), NoMemory>
    ensures { OnOk result (out.new.items ≡ out.old.items ++ map input (view_pins view.now)) }
{
    push_gate(alloc, out, view.gate, b"swwe$", b"swwel$", &view.path.bytes)
}

/// Adds the input pins of the field of a number, which `view` is the field's own view of.
fn push_field_pins(
    alloc: Global,
    out: &mut Vec<Port>,
    field: &Field,
    view: &View,
) -> Result<(), NoMemory>
    ensures { OnOk result (out.new.items ≡ out.old.items ++ map input (own_pins field.now view.now)) }
{
    let path = &field.path.bytes;
    push_feed(alloc, out, field.source, b"in$", path, field.width)?;
    push_gate(alloc, out, field.gate, b"we$", b"wel$", path)?;
    push_view(alloc, out, view)?;
    push_feed(alloc, out, field.set, b"hwset$", path, 1)?;
    push_feed(alloc, out, field.clear, b"hwclr$", path, 1)?;
    push_count(alloc, out, field.count, path)
}

/// Adds the outputs that a field has beside its value.
fn push_shown(
    alloc: Global,
    out: &mut Vec<Port>,
    shown: &[Shown],
    path: &[u8],
) -> Result<(), NoMemory>
    ensures { OnOk result (out.new.items ≡ out.old.items ++ shown_ports path.now shown.now) }
{
    for item in shown {
        push_port(alloc, out, Dir::Out, word_of(*item), path, 1)?;
    }
    Ok(())
}

/// Adds the outputs of a field.
fn push_field_outlets(alloc: Global, out: &mut Vec<Port>, field: &Field) -> Result<(), NoMemory>
    ensures { OnOk result (out.new.items ≡ out.old.items ++ outlet_ports field.now) }
{
    let path = &field.path.bytes;
    if field.hw_reads {
        push_port(alloc, out, Dir::Out, b"out$", path, field.width)?;
    }
    push_shown(alloc, out, &field.shown.items, path)
}

/// Adds the outputs of a register.
fn push_reg(alloc: Global, out: &mut Vec<Port>, reg: &Reg) -> Result<(), NoMemory>
    ensures { (k : ℕ) → OnOk result (out.new.items ≡ out.old.items ++ map output (reg_outlets (k, reg.now))) }
{
    if reg.intr {
        push_port(alloc, out, Dir::Out, b"intr$", &reg.path.bytes, 1)?;
    }
    if reg.halt {
        push_port(alloc, out, Dir::Out, b"halt$", &reg.path.bytes, 1)?;
    }
    Ok(())
}

/// Adds the pins of the signals at the root, or of those under the top.
fn push_signals(
    alloc: Global,
    out: &mut Vec<Port>,
    signals: &[Signal],
    root: bool,
) -> Result<(), NoMemory>
    ensures { OnOk result (out.new.items ≡ out.old.items ++ map input (signal_pins root signals.now)) }
{
    for signal in signals {
        if signal.root == root {
            let word: &[u8] = if root { b"global$" } else { b"signal$" };
            push_port(alloc, out, Dir::In, word, &signal.path.bytes, signal.width)?;
        }
    }
    Ok(())
}

/// Adds the gates' pins of the views that stand in aliases.
fn push_alias_views(alloc: Global, out: &mut Vec<Port>, views: &[View]) -> Result<(), NoMemory>
    ensures { OnOk result (out.new.items ≡ out.old.items ++ map input (flat_map view_pins (filter (λ v. v.alias) views.now))) }
{
    for view in views {
        if view.alias {
            push_view(alloc, out, view)?;
        }
    }
    Ok(())
}

/// Adds the outputs of the registers.
fn push_regs(alloc: Global, out: &mut Vec<Port>, regs: &[Reg]) -> Result<(), NoMemory>
    ensures { OnOk result (out.new.items ≡ out.old.items ++ map output (flat_map reg_outlets (enumerate_from 0 regs.now))) }
{
    for reg in regs {
        push_reg(alloc, out, reg)?;
    }
    Ok(())
}

/// The pins of an APB slave (IHI 0024B), in port order.
const BUS: [(Dir, &[u8], u8); 10] = [
    (Dir::In, b"PCLK", 1),
    (Dir::In, b"PRESETn", 1),
    (Dir::In, b"PADDR", 32),
    (Dir::In, b"PSEL", 1),
    (Dir::In, b"PENABLE", 1),
    (Dir::In, b"PWRITE", 1),
    (Dir::In, b"PWDATA", 32),
    (Dir::Out, b"PREADY", 1),
    (Dir::Out, b"PRDATA", 32),
    (Dir::Out, b"PSLVERR", 1),
];

/// Adds the pins of an APB slave.
fn push_bus(alloc: Global, out: &mut Vec<Port>) -> Result<(), NoMemory>
    ensures { OnOk result (out.new.items ≡ out.old.items ++ (map input bus_inputs ++ bus_outputs)) }
{
    for (dir, name, width) in BUS {
        push_port(alloc, out, dir, name, b"", width)?;
    }
    Ok(())
}

/// Adds the ports of the fields, whose own views have these numbers.
fn push_fields(
    alloc: Global,
    out: &mut Vec<Port>,
    fields: &[Field],
    views: &[View],
    own: &[usize],
) -> Result<(), NoMemory>
    requires len { length own.now ≡ length fields.now }
    requires own { (k : ℕ) → k < length fields.now → IsOwnView views.now k (slice_index own.now k) }
    requires one { (k : ℕ) → k < length fields.now → count_by (λ v. v.field == k && not v.alias) views.now ≡ 1 }
    ensures { OnOk result (out.new.items ≡ out.old.items ++ flat_map (field_ports views.now) (enumerate_from 0 fields.now)) }
{
    for (number, field) in fields.iter().enumerate() {
        push_field_pins(alloc, out, field, &views[own[number]])?;
        push_field_outlets(alloc, out, field)?;
    }
    Ok(())
}

/// Adds the ports that a block's module has behind those of its bus, in order: the pins of its signals, the pins and outputs
/// of its fields, the pins of its aliases, and the outputs of its registers. The only error is want of memory.
pub fn push_block_ports(alloc: Global, out: &mut Vec<Port>, block: &Block) -> Result<(), NoMemory>
    requires { IsSound block.now }
    ensures { OnOk result (out.new.items ≡ out.old.items ++ block_ports block.now) }
{
    let views: &[View] = &block.views.items;
    let fields: &[Field] = &block.fields.items;
    let own = own_views(alloc, views, fields.len())?;
    push_signals(alloc, out, &block.signals.items, true)?;
    push_signals(alloc, out, &block.signals.items, false)?;
    push_fields(alloc, out, fields, views, &own)?;
    push_alias_views(alloc, out, views)?;
    push_regs(alloc, out, &block.regs.items)
}

/// The ports of a block's module, in order: those of an APB slave, and those of the block. Widths are in bits. The only error
/// is want of memory.
pub fn ports(alloc: Global, block: &Block) -> Result<Vec<Port>, NoMemory>
    requires { IsSound block.now }
    ensures { IfOk result (λ all. all.items ≡ spec.ports block.now) }
{
    let mut out = Vec::new(alloc);
    push_bus(alloc, &mut out)?;
    push_block_ports(alloc, &mut out, block)?;
    Ok(out)
}
