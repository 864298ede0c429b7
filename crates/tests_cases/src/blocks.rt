//! The register block of a source, as lines of text.

ghost use Rattle.std.specs.Prelude.{◌<◌, ◌^◌, ◌-◌, IfSome, length};
ghost use Rattle.rb_model.specs.Sound.{IsSound};

use crate::lines::{field_line, name_of, register_line, signal_line, view_line, word_line};
use bumpalo::Bump;
use rb_base::{Dir, Port};
use rb_model::{Block, ports};
use rdl_verdict::judge;
use std::alloc::Global;
use std::io;

// The register block of a text. None where it breaks a rule, or for want of memory.
fn described(alloc: Global, text: &[u8]) -> Option<Block>
    requires { length text.now < 2 ^ 32 - 1 }
    ensures { IfSome result (λ b. IsSound b) }
{
    let arena = Bump::new(alloc);
    match judge(alloc, &arena, text, None) {
        Ok(judged) => Some(judged.block),
        Err(_) => None,
    }
}

/// The register block of a source. None where it breaks a rule, or for want of memory.
pub(crate) fn block_of(alloc: Global, text: &str) -> Option<Block>
    ensures { IfSome result (λ b. IsSound b) }
{
    let text = text.as_bytes();
    if text.len() >= u32::MAX as usize {
        return None;
    }
    described(alloc, text)
}

fn print_nodes(rt: HostRuntime, block: &Block) -> io::Result<()> {
    for (at, signal) in block.signals.items.iter().enumerate() {
        println!(rt; "{}", signal_line(rt.alloc(), at, signal)?)?;
    }
    for (at, field) in block.fields.items.iter().enumerate() {
        println!(rt; "{}", field_line(rt.alloc(), at, field)?)?;
    }
    for (at, view) in block.views.items.iter().enumerate() {
        println!(rt; "{}", view_line(rt.alloc(), at, view)?)?;
    }
    Ok(())
}

fn print_words(rt: HostRuntime, block: &Block) -> io::Result<()> {
    for word in &block.reads.items {
        println!(rt; "{}", word_line(rt.alloc(), "read", word)?)?;
    }
    for word in &block.writes.items {
        println!(rt; "{}", word_line(rt.alloc(), "write", word)?)?;
    }
    for (at, reg) in block.regs.items.iter().enumerate() {
        println!(rt; "{}", register_line(rt.alloc(), at, reg)?)?;
    }
    Ok(())
}

fn print_order(rt: HostRuntime, block: &Block) -> io::Result<()> {
    print!(rt; "  {} items in order:", block.order.items.len())?;
    for item in &block.order.items {
        print!(rt; " {item:?}")?;
    }
    println!(rt; "")
}

fn print_parts(rt: HostRuntime, block: &Block) -> io::Result<()> {
    let name = name_of(&block.name);
    println!(rt; "  block {name}, {} wait states", block.waits)?;
    print_nodes(rt, block)?;
    print_words(rt, block)?;
    print_order(rt, block)
}

/// Prints a source's block: its name and wait states, and then a line for each part of it.
pub(crate) fn print_block(rt: HostRuntime, text: &str) -> io::Result<()> {
    match block_of(rt.alloc(), text) {
        Some(block) => print_parts(rt, &block),
        None => println!(rt; "  no block"),
    }
}

fn print_counts(rt: HostRuntime, block: &Block) -> io::Result<()> {
    println!(rt;
        "  {} fields, {} views, {} registers, {} items",
        block.fields.items.len(),
        block.views.items.len(),
        block.regs.items.len(),
        block.order.items.len()
    )?;
    println!(rt;
        "  {} words to read, {} words to write",
        block.reads.items.len(),
        block.writes.items.len()
    )
}

/// Prints how long the lists of a source's block are.
pub(crate) fn print_lengths(rt: HostRuntime, text: &str) -> io::Result<()> {
    match block_of(rt.alloc(), text) {
        Some(block) => print_counts(rt, &block),
        None => println!(rt; "  no block"),
    }
}

fn print_port(rt: HostRuntime, port: &Port) -> io::Result<()> {
    let side = match port.dir {
        Dir::In => "input",
        Dir::Out => "output",
    };
    println!(rt; "  {side} {}: {} bits", name_of(&port.name), port.width)
}

fn print_all_ports(rt: HostRuntime, block: &Block) -> io::Result<()>
    requires { IsSound block.now }
{
    let Ok(ports) = ports(rt.alloc(), block) else {
        return println!(rt; "  no memory");
    };
    for port in &ports {
        print_port(rt, port)?;
    }
    Ok(())
}

/// Prints the ports of the module of a source's block, in order.
pub(crate) fn print_ports(rt: HostRuntime, text: &str) -> io::Result<()> {
    match block_of(rt.alloc(), text) {
        Some(block) => print_all_ports(rt, &block),
        None => println!(rt; "  no block"),
    }
}
