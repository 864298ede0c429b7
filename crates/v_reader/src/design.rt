//! The design of a module that was parsed.

ghost use Rattle.std.specs.Prelude.{◌≡◌, IfOk, OnOk};
ghost use Rattle.v_design.specs.Design.{inputs_among, outputs_among, registers_among, port_pin, decl_pin, is_data_input, is_output};
ghost use Rattle.v_reader.specs.Made.{IsMadeOf};

use rb_base::{Dir, NoMemory, Pin, Port, Text};
use std::alloc::Global;
use v_design::{Decl, Design};
use v_syntax::Parsed;

fn copied(alloc: Global, name: &[u8]) -> Result<Text, NoMemory>
    ensures { IfOk result (λ text. text ≡ name.now) }
{
    Ok(Text {
        bytes: Vec::from_slice(alloc, name)?,
    })
}

fn pin(alloc: Global, name: &Text, width: u8) -> Result<Pin, NoMemory>
    ensures { IfOk result (λ pin. pin ≡ record { name = name.now; width = width }) }
{
    Ok(Pin {
        name: copied(alloc, &name.bytes)?,
        width,
    })
}

fn is_data_input(port: &Port) -> bool
    ensures { result ≡ is_data_input port.now }
{
    port.dir == Dir::In && port.name.bytes.as_slice() != b"PCLK".as_slice()
}

fn inputs(alloc: Global, ports: &[Port]) -> Result<Vec<Pin>, NoMemory>
    ensures { IfOk result (λ pins. pins.items ≡ inputs_among ports.now) }
{
    let mut pins = Vec::new(alloc);
    for port in ports {
        if is_data_input(port) {
            pins.push(pin(alloc, &port.name, port.width)?)?;
        }
    }
    Ok(pins)
}

fn outputs(alloc: Global, ports: &[Port]) -> Result<Vec<Pin>, NoMemory>
    ensures { IfOk result (λ pins. pins.items ≡ outputs_among ports.now) }
{
    let mut pins = Vec::new(alloc);
    for port in ports {
        if port.dir == Dir::Out {
            pins.push(pin(alloc, &port.name, port.width)?)?;
        }
    }
    Ok(pins)
}

fn registers(alloc: Global, decls: &[Decl]) -> Result<Vec<Pin>, NoMemory>
    ensures { IfOk result (λ pins. pins.items ≡ registers_among decls.now) }
{
    let mut pins = Vec::new(alloc);
    for decl in decls {
        if decl.reg {
            pins.push(pin(alloc, &decl.name, decl.width)?)?;
        }
    }
    Ok(pins)
}

/// The design of what was parsed.
pub(crate) fn design_of(alloc: Global, parsed: Parsed<'_>) -> Result<Design, NoMemory>
    ensures { IfOk result (IsMadeOf parsed.entry) }
{
    let ins = inputs(alloc, &parsed.ports)?;
    let outs = outputs(alloc, &parsed.ports)?;
    let regs = registers(alloc, &parsed.decls)?;
    Ok(Design {
        name: copied(alloc, parsed.name)?,
        ports: parsed.ports,
        decls: parsed.decls,
        stmts: parsed.stmts,
        ins,
        outs,
        regs,
    })
}
