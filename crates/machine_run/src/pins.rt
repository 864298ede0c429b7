//! The pins of a block.

ghost use Rattle.std.specs.Prelude.{◌≡◌, IfOk};
ghost use Rattle.v_design.specs.Design.{inputs_among, is_data_input, outputs_among, port_pin};
ghost use Rattle.rb_model.specs.Ports.{input_pins};
ghost use Rattle.rb_model.specs.Sound.{IsSound};
ghost use Rattle.machine_run.specs.Runs.{output_pins};

use rb_base::{Dir, NoMemory, Pin, Port, Text};
use rb_model::{Block, ports};
use std::alloc::Global;

/// The pins of a block's module, in port order: its inputs but the clock, and its outputs.
#[derive(Drop)]
pub struct Pins {
    pub inputs: Vec<Pin>,
    pub outputs: Vec<Pin>,
}

/// The pin that a port is.
fn pin(alloc: Global, port: &Port) -> Result<Pin, NoMemory>
    ensures { IfOk result (λ pin. pin ≡ port_pin port.now) }
{
    let bytes = Vec::from_slice(alloc, &port.name.bytes)?;
    Ok(Pin {
        name: Text { bytes },
        width: port.width,
    })
}

/// Whether a port is an input other than the clock.
fn is_data_input(port: &Port) -> bool
    ensures { result ≡ is_data_input port.now }
{
    port.dir == Dir::In && port.name.bytes.as_slice() != b"PCLK".as_slice()
}

/// The inputs among ports but the clock.
fn inputs(alloc: Global, ports: &[Port]) -> Result<Vec<Pin>, NoMemory>
    ensures { IfOk result (λ pins. pins.items ≡ inputs_among ports.now) }
{
    let mut pins = Vec::new(alloc);
    for port in ports {
        if is_data_input(port) {
            pins.push(pin(alloc, port)?)?;
        }
    }
    Ok(pins)
}

/// The outputs among ports.
fn outputs(alloc: Global, ports: &[Port]) -> Result<Vec<Pin>, NoMemory>
    ensures { IfOk result (λ pins. pins.items ≡ outputs_among ports.now) }
{
    let mut pins = Vec::new(alloc);
    for port in ports {
        if port.dir == Dir::Out {
            pins.push(pin(alloc, port)?)?;
        }
    }
    Ok(pins)
}

/// The pins of a sound block. The only error is want of memory.
pub fn pins_of(alloc: Global, block: &Block) -> Result<Pins, NoMemory>
    requires { IsSound block.now }
    ensures inputs { IfOk result (λ p. p.inputs.items ≡ input_pins block.now) }
    ensures outputs { IfOk result (λ p. p.outputs.items ≡ output_pins block.now) }
{
    let all = ports(alloc, block)?;
    Ok(Pins {
        inputs: inputs(alloc, &all)?,
        outputs: outputs(alloc, &all)?,
    })
}
