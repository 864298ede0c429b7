//! The list of runs.

use crate::lists::{parts, text_of};
use crate::runs::print_run;
use crate::setup::{Setup, change, plain};
use std::io;

fn take_line(rt: HostRuntime, line: &str, setup: &mut Setup) -> io::Result<()> {
    let (word, rest) = parts(line);
    match word {
        "" | "#" => Ok(()),
        "case" => println!(rt; "{rest}"),
        "run" => {
            print_run(rt, rest, *setup)?;
            *setup = plain();
            Ok(())
        }
        _ if change(setup, word, rest) => Ok(()),
        _ => println!(rt; "no such line: {line}"),
    }
}

/// Does what each line of the list says.
pub(crate) fn print_cases(rt: HostRuntime) -> io::Result<()> {
    let Some(text) = text_of(rt, "cases.txt") else {
        return println!(rt; "no list of cases");
    };
    let mut setup = plain();
    for line in text.as_str().split('\n') {
        take_line(rt, line, &mut setup)?;
    }
    Ok(())
}
