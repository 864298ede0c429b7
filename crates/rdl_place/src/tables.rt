//! What is known of a tree before it is known whether a rule fails.

ghost use Rattle.std.specs.Prelude.{◌≡◌, IfOk, OnOk, ◌++◌};
ghost use Rattle.rdl_values.specs.Elaboration.{IsClean};
ghost use Rattle.rdl_layers.specs.Answers.{IsSettled};
ghost use Rattle.rdl_place.specs.Known.{IsKnown};

use crate::areas::areas;
use rb_base::NoMemory;
use rdl_addr::Area;
use rdl_base::Fault;
use rdl_bits::{address_faults, bit_table, bits_are_judged, bodies_are_judged};
use rdl_layers::Props;
use rdl_nodes::rows;
use rdl_sizes::{addresses, sizes};
use rdl_tree::Elab;
use std::alloc::Global;

/// Where nodes stand, the bits of fields, and all failures of the rules on them.
#[derive(Drop)]
pub(crate) struct Laid {
    pub areas: Vec<Area>,
    pub bits: Vec<(u8, u8)>,
    pub faults: Vec<Fault>,
}

/// Adds failures to others.
fn add_all(faults: &mut Vec<Fault>, more: &[Fault]) -> Result<(), NoMemory>
    ensures { OnOk result (faults.new.items ≡ faults.old.items ++ more.now) }
{
    for fault in more {
        faults.push(*fault)?;
    }
    Ok(())
}

/// What is known of a tree. The only error is want of memory, or a number at or above 2^128.
pub(crate) fn lay_out<'a>(
    alloc: Global,
    elab: &Elab<'a>,
    props: &Props<'a>,
) -> Result<Laid, NoMemory>
    requires clean { IsClean elab.now }
    requires settled { IsSettled elab.now }
    requires tree { props.now ≡ elab.now }
    ensures { IfOk result (IsKnown elab.now) }
{
    bodies_are_judged();
    bits_are_judged();
    let rows = rows(alloc, elab)?;
    let sizes = sizes(alloc, props, &rows)?;
    let table = bit_table(alloc, props, &rows)?;
    let addresses = addresses(alloc, props, &rows, &sizes)?;
    let mut faults = address_faults(alloc, elab, props, &rows, &addresses)?;
    add_all(&mut faults, &sizes.faults)?;
    add_all(&mut faults, &table.faults)?;
    let areas = areas(alloc, &addresses, &sizes.measures)?;
    Ok(Laid {
        areas,
        bits: table.bits,
        faults,
    })
}
