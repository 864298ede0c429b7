//! Runs of the program in memory.

use crate::setup::{Setup, Stream};
use crate::shelves::shelf_of;
use rb_base::NoMemory;
use rb_edge::MemSink;
use regblock::{Status, run};
use std::alloc::Global;
use std::{io, str};

// A longer text is told by its length.
const SHOWN: usize = 400;

// How a run ended, and what it wrote.
#[derive(Drop)]
struct Ran {
    status: Status,
    out: MemSink,
    err: MemSink,
}

// The words of a command line, which stand apart by a blank.
fn words_of(alloc: Global, line: &str) -> Result<Vec<String>, NoMemory> {
    let mut words = Vec::new(alloc);
    for word in line.split(' ') {
        words.push(String::from_str(alloc, word)?)?;
    }
    Ok(words)
}

fn sink(alloc: Global, stream: Stream) -> Result<MemSink, NoMemory> {
    let piece = stream.piece.max(1) as usize;
    MemSink::new(alloc, piece, stream.room as usize, &[stream.fails])
}

fn run_of(rt: HostRuntime, line: &str, setup: Setup) -> Result<Ran, NoMemory> {
    let words = words_of(rt.alloc(), line)?;
    let mut shelf = shelf_of(rt, &words, setup)?;
    let mut out = sink(rt.alloc(), setup.out)?;
    let mut err = sink(rt.alloc(), setup.err)?;
    let status = run(rt.alloc(), &words, &mut shelf, &mut out, &mut err);
    Ok(Ran { status, out, err })
}

fn print_text(rt: HostRuntime, name: &str, bytes: &[u8]) -> io::Result<()> {
    match str::from_utf8(bytes) {
        Ok(text) if bytes.len() <= SHOWN => println!(rt; "  {name} {text:?}"),
        _ => println!(rt; "  {name} {} bytes", bytes.len()),
    }
}

/// Runs the program by a command line, and prints how it ended and what it wrote.
pub(crate) fn print_run(rt: HostRuntime, line: &str, setup: Setup) -> io::Result<()> {
    let Ok(ran) = run_of(rt, line, setup) else {
        return println!(rt; "  no memory");
    };
    println!(rt; "  status {}", ran.status.number())?;
    print_text(rt, "err", ran.err.bytes())?;
    print_text(rt, "out", ran.out.bytes())
}
