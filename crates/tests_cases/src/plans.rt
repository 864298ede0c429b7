//! What is looked up once for a block, and the items that its module needs.

ghost use Rattle.rb_model.specs.Sound.{IsSound};

use crate::blocks::block_of;
use block_plan::{Plan, wanted, wanted_items};
use rb_base::NoMemory;
use rb_model::{Block, RefItem};
use std::alloc::Global;
use std::io;

fn print_kept(rt: HostRuntime, plan: &Plan) -> io::Result<()> {
    for (at, kept) in plan.kept.of.iter().enumerate() {
        println!(rt; "  field {at}: {kept:?}")?;
    }
    Ok(())
}

fn print_all(rt: HostRuntime, plan: &Plan) -> io::Result<()> {
    print_kept(rt, plan)?;
    for (at, members) in plan.members.iter().enumerate() {
        println!(rt; "  register {at}: interrupts {members:?}")?;
    }
    for outlet in &plan.outlets {
        println!(rt; "  output of {} bits: {:?}", outlet.width, outlet.item)?;
    }
    Ok(())
}

fn print_plan_of(rt: HostRuntime, block: &Block) -> io::Result<()>
    requires { IsSound block.now }
{
    match Plan::new(rt.alloc(), block) {
        Ok(plan) => print_all(rt, &plan),
        Err(NoMemory) => println!(rt; "  no memory"),
    }
}

/// Prints what the fields of a source keep, the interrupts of its registers, and where its outputs come from.
pub(crate) fn print_plan(rt: HostRuntime, text: &str) -> io::Result<()> {
    match block_of(rt.alloc(), text) {
        Some(block) => print_plan_of(rt, &block),
        None => println!(rt; "  no block"),
    }
}

// The items that the module of a block needs, each behind those that it refers to.
fn needed(alloc: Global, block: &Block) -> Result<Vec<RefItem>, NoMemory>
    requires { IsSound block.now }
{
    let plan = Plan::new(alloc, block)?;
    let wanted = wanted(alloc, block, &plan)?;
    wanted_items(alloc, block, &wanted)
}

fn print_needed(rt: HostRuntime, block: &Block) -> io::Result<()>
    requires { IsSound block.now }
{
    match needed(rt.alloc(), block) {
        Ok(items) => println!(rt; "  wanted: {items:?}"),
        Err(NoMemory) => println!(rt; "  no memory"),
    }
}

/// Prints the items that the module of a source needs, of all that it has.
pub(crate) fn print_wanted(rt: HostRuntime, text: &str) -> io::Result<()> {
    match block_of(rt.alloc(), text) {
        Some(block) => print_needed(rt, &block),
        None => println!(rt; "  no block"),
    }
}
