//! Cases of `run` in memory and looks into what no command shows, both read from lists in `data/`, and netlists.
//!
//! A list has one thing a line: a word, and what it is about. Blank lines and those that begin with `#` say nothing,
//! and `case TITLE` begins a case.
//!
//! `cases.txt`: `run WORDS` runs the program over those files of `data/` that the words name, two at most, and prints its
//! status by number and what it wrote. Lines before it say what fails in this one run: `shelf fails N` (the call of the
//! shelf with this number), `out fails N`, `out piece N` (bytes at a call), `out room N` (bytes in all), and the same
//! with `err`. After `shelf spaces N` the shelf holds but `spaces.rdl`, of so many spaces.
//!
//! `looks.txt`: the lines from `source` to `end` are a source. Among them `repeat N TEXT` stands for N lines of the text,
//! with the number of the line, from 0, in place of each `#`. `look WHAT` prints what it is: `nodes [TOP]`, how many there
//! are; `value NODE PROPERTY`, what a property is set to; `names`, what settings refer to, and how many items there are in
//! order or in a circle; `circle`, these numbers alone; `block`, the register block part by part; `lengths`, how long its
//! lists are; `ports`; `plan`, what its fields keep and where its outputs come from; `wanted`, the items that its module
//! needs; `start`, the outputs of its module at three vectors of zeros, with 7 in its one register of 32 bits before.
#![tactic(auto)]

mod blocks;
mod cases;
mod lines;
mod lists;
mod looks;
mod names;
mod netlist;
mod nets;
mod nodes;
mod plans;
mod printed;
mod runs;
mod settings;
mod setup;
mod shelves;
mod starts;
mod texts;
mod trees;

use std::io;

fn main(rt: HostRuntime) -> io::Result<()> {
    cases::print_cases(rt)?;
    looks::print_looks(rt)?;
    nets::print_nets(rt)
}
