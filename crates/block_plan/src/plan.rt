//! What is looked up once for a block.

use crate::kept::{KeptValues, kept_values};
use crate::members::{addresses, members};
use crate::outlets::{Outlet, outlets};
use crate::places::Places;
use rb_base::NoMemory;
use rb_model::{Block, Reg, ports};
use std::alloc::Global;

/// The places of the pins of one direction of a counter.
#[derive(Clone, Copy, Debug, PartialEq, Eq)]
pub struct PartPlaces {
    pub pulse: usize,
    pub amount: usize,
}

/// The places of a field's pins among the block's input pins.
#[derive(Clone, Copy, Debug, PartialEq, Eq)]
pub struct FieldPlaces {
    pub source: usize,
    pub gate: usize,
    pub set: usize,
    pub clear: usize,
    pub up: PartPlaces,
    pub down: PartPlaces,
}

/// The places of the bus's pins among the block's input pins.
#[derive(Clone, Copy, Debug, PartialEq, Eq)]
pub struct BusPlaces {
    pub resetn: usize,
    pub address: usize,
    pub select: usize,
    pub enable: usize,
    pub write: usize,
    pub data_in: usize,
}

/// What is looked up once for a block: how many input pins it has (without PCLK), the places of the pins of its bus, signals, fields
/// and views, the interrupts of each register by the numbers of the fields, its outputs, the addresses of its words, and what its
/// fields keep. A pin that there isn't has a place behind all pins.
#[derive(Drop)]
pub struct Plan {
    pub inputs: usize,
    pub bus: BusPlaces,
    pub signals: Vec<usize>,
    pub fields: Vec<FieldPlaces>,
    pub gates: Vec<usize>,
    pub members: Vec<Vec<u32>>,
    pub outlets: Vec<Outlet>,
    pub addresses: Vec<u64>,
    pub kept: KeptValues,
}

impl Plan {
    ghost use Rattle.std.specs.Prelude.{IfOk};
    ghost use Rattle.rb_model.specs.Sound.{IsSound};
    ghost use Rattle.block_plan.specs.Plan.{IsPlanOf};

    /// The plan of a sound block. It takes time in proportion to the size of the block. The only error is want of memory.
    pub fn new(alloc: Global, block: &Block) -> Result<Plan, NoMemory>
        requires { IsSound block.now }
        ensures { IfOk result (IsPlanOf block.now) }
    {
        let ports = ports(alloc, block)?;
        let places = Places::new(alloc, block, &ports)?;
        let signals = places.signals(alloc, &block.signals.items)?;
        let fields = places.fields(alloc, &block.fields.items)?;
        let gates = places.gates(alloc, &block.views.items)?;
        let regs: &[Reg] = &block.regs.items;
        Ok(Plan {
            inputs: places.end,
            bus: places.bus(),
            signals,
            fields,
            gates,
            members: members(alloc, &block.fields.items, regs.len())?,
            outlets: outlets(alloc, block)?,
            addresses: addresses(alloc, &block.reads.items)?,
            kept: kept_values(alloc, &block.fields.items)?,
        })
    }
}
