//! The list of looks.

use crate::blocks::{print_block, print_lengths, print_ports};
use crate::lists::{number, parts, text_of};
use crate::names::{print_circle, print_names};
use crate::nodes::print_nodes;
use crate::plans::{print_plan, print_wanted};
use crate::settings::print_value;
use crate::starts::print_start;
use std::alloc::{AllocError, Global};
use std::io;

/// The source that is looked into, and whether the next line belongs to it.
#[derive(Drop)]
struct Source {
    text: String,
    is_open: bool,
}

// Adds a text, with a number in place of each `#`.
fn push_numbered(
    alloc: Global,
    text: &mut String,
    pattern: &str,
    at: u64,
) -> Result<(), AllocError> {
    let mut is_first = true;
    for part in pattern.split('#') {
        if !is_first {
            text.push_str(format!(in alloc; "{at}")?.as_str())?;
        }
        text.push_str(part)?;
        is_first = false;
    }
    text.push('\n')
}

// Adds a text so often, each with its number.
fn push_repeated(alloc: Global, text: &mut String, rest: &str) -> Result<(), AllocError> {
    let (count, pattern) = parts(rest);
    for at in 0..number(count).unwrap_or(0) {
        push_numbered(alloc, text, pattern, at)?;
    }
    Ok(())
}

// Takes a line of the source, or its end.
fn take_source(alloc: Global, source: &mut Source, line: &str) -> Result<(), AllocError> {
    match parts(line) {
        ("end", "") => {
            source.is_open = false;
            Ok(())
        }
        ("repeat", rest) => push_repeated(alloc, &mut source.text, rest),
        _ => {
            source.text.push_str(line)?;
            source.text.push('\n')
        }
    }
}

// Looks into a source.
fn look(rt: HostRuntime, text: &str, what: &str) -> io::Result<()> {
    let (word, rest) = parts(what);
    match word {
        "nodes" => print_nodes(rt, text, rest),
        "value" => print_value(rt, text, rest),
        "names" => print_names(rt, text),
        "circle" => print_circle(rt, text),
        "block" => print_block(rt, text),
        "lengths" => print_lengths(rt, text),
        "ports" => print_ports(rt, text),
        "plan" => print_plan(rt, text),
        "wanted" => print_wanted(rt, text),
        "start" => print_start(rt, text),
        _ => println!(rt; "no such look: {what}"),
    }
}

fn take_line(rt: HostRuntime, source: &mut Source, line: &str) -> io::Result<()> {
    let (word, rest) = parts(line);
    match word {
        "" | "#" => Ok(()),
        "case" => println!(rt; "{rest}"),
        "source" => {
            source.text = String::new(rt.alloc());
            source.is_open = true;
            Ok(())
        }
        "look" => look(rt, source.text.as_str(), rest),
        _ => println!(rt; "no such line: {line}"),
    }
}

/// Does what each line of the list says.
pub(crate) fn print_looks(rt: HostRuntime) -> io::Result<()> {
    let Some(list) = text_of(rt, "looks.txt") else {
        return println!(rt; "no list of looks");
    };
    let mut source = Source {
        text: String::new(rt.alloc()),
        is_open: false,
    };
    for line in list.as_str().split('\n') {
        if source.is_open {
            take_source(rt.alloc(), &mut source, line)?;
        } else {
            take_line(rt, &mut source, line)?;
        }
    }
    Ok(())
}
