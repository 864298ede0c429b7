//! Modules that start with a number in their register.

ghost use Rattle.std.specs.Prelude.{◌≡◌, IfOk, length};
ghost use Rattle.v_design.specs.Design.{inputs, outputs, registers};
ghost use Rattle.v_design.specs.Seen.{module_seen};
ghost use Rattle.v_design.specs.Fits.{FitsPins};
ghost use Rattle.cyc_sim.specs.Accepted.{IsAccepted};
ghost use Rattle.cyc_sim.specs.Simulation.{IsSimOf};
ghost use Rattle.tests_cases.specs.Going.{Goes};

use cyc_sim::Sim;
use rb_base::NoMemory;
use rb_edge::{MemShelf, MemSink};
use regblock::{Status, run};
use std::alloc::Global;
use std::io;
use v_design::Design;
use v_reader::read;

// More than the module of such a source has, in bytes.
const ROOM: usize = 100_000;

// The module of a source, by `compile`. None where there is none.
fn module_of(alloc: Global, text: &str) -> Option<MemSink> {
    let mut shelf = MemShelf::new(alloc, &[]).ok()?;
    shelf.put("a.rdl", text.as_bytes()).ok()?;
    let mut out = MemSink::new(alloc, ROOM, ROOM, &[]).ok()?;
    let mut err = MemSink::new(alloc, ROOM, ROOM, &[]).ok()?;
    let mut words = Vec::new(alloc);
    words.push(String::from_str(alloc, "compile").ok()?).ok()?;
    words.push(String::from_str(alloc, "a.rdl").ok()?).ok()?;
    match run(alloc, &words, &mut shelf, &mut out, &mut err) {
        Status::Done => Some(out),
        _ => None,
    }
}

// A number of 0 for each input of a module.
fn zeros(alloc: Global, design: &Design) -> Result<Vec<u128>, NoMemory>
    ensures { IfOk result (λ v. FitsPins (inputs (module_seen design.now)) v.items) }
{
    let numbers = vec![in alloc; 0u128; design.inputs().len()]?;
    Ok(numbers)
}

// A simulation of a module of one register goes on.
fn one_register_goes(design: &Design, sim: &Sim)
    requires is_sim { IsSimOf (module_seen design.now) sim.now }
    requires one { length (registers (module_seen design.now)) ≡ 1 }
    ensures { Goes (module_seen design.now) sim.now }
{}

// One edge.
fn edge(design: &Design, sim: &mut Sim, pins: &[u128], outs: &mut [u128])
    requires goes { Goes (module_seen design.now) sim.old }
    requires pins { FitsPins (inputs (module_seen design.now)) pins.now }
    requires outs { length outs.old ≡ length (outputs (module_seen design.now)) }
    ensures { Goes (module_seen design.now) sim.new }
{
    sim.step(pins, outs);
}

// Prints the outputs at three edges.
fn print_edges(
    rt: HostRuntime,
    design: &Design,
    sim: &mut Sim,
    pins: &[u128],
    outs: &mut [u128],
) -> io::Result<()>
    requires goes { Goes (module_seen design.now) sim.old }
    requires pins { FitsPins (inputs (module_seen design.now)) pins.now }
    requires outs { length outs.old ≡ length (outputs (module_seen design.now)) }
{
    edge(design, sim, pins, outs);
    println!(rt; "  {outs:?}")?;
    edge(design, sim, pins, outs);
    println!(rt; "  {outs:?}")?;
    edge(design, sim, pins, outs);
    println!(rt; "  {outs:?}")
}

fn print_sim(rt: HostRuntime, design: &Design, sim: &mut Sim) -> io::Result<()>
    requires { Goes (module_seen design.now) sim.old }
{
    let Ok(pins) = zeros(rt.alloc(), design) else {
        return println!(rt; "  no memory");
    };
    let mut outs = vec![in rt.alloc(); 0u128; design.outputs().len()]?;
    print_edges(rt, design, sim, &pins, &mut outs)
}

fn print_run(rt: HostRuntime, design: &Design) -> io::Result<()>
    requires { IsAccepted (module_seen design.now) }
{
    let [register] = design.registers() else {
        return println!(rt; "  no register, or more than one");
    };
    if register.width != 32 {
        return println!(rt; "  a register of another width");
    }
    let Ok(mut sim) = Sim::new(rt.alloc(), design, &[7]) else {
        return println!(rt; "  no memory");
    };
    one_register_goes(design, &sim);
    print_sim(rt, design, &mut sim)
}

fn print_module(rt: HostRuntime, module: &[u8]) -> io::Result<()> {
    if module.len() >= u32::MAX as usize {
        return println!(rt; "  no module");
    }
    match read(rt.alloc(), module) {
        Ok(design) => print_run(rt, &design),
        Err(_) => println!(rt; "  no module"),
    }
}

/// Prints the outputs of a source's module at three vectors of zeros, its one register of 32 bits containing 7 before the
/// first.
pub(crate) fn print_start(rt: HostRuntime, text: &str) -> io::Result<()> {
    match module_of(rt.alloc(), text) {
        Some(module) => print_module(rt, module.bytes()),
        None => println!(rt; "  no module"),
    }
}
