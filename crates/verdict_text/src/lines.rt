//! Lines on failures.

ghost use Rattle.std.specs.Prelude.{◌≡◌, ◌<◌, ◌^◌, ◌-◌, ◌++◌, OnOk, length};
ghost use Rattle.verdict_text.specs.Lines.{broken_at, numbers, ok_line, rule_text, verdict_lines};

use crate::line_column::{START, spot_at};
use rb_base::NoMemory;
use rdl_base::{Fault, Rule};
use std::alloc::Global;

// Adds a line and a column.
fn push_numbers(alloc: Global, text: &mut Vec<u8>, line: u32, column: u32) -> Result<(), NoMemory>
    ensures { OnOk result (text.new.items ≡ text.old.items ++ numbers line column) }
{
    let numbers = format!(in alloc; ":{line}:{column}: ")?;
    text.extend_from_slice(numbers.as_bytes())?;
    Ok(())
}

// Adds what a rule is called and says.
fn push_rule(text: &mut Vec<u8>, rule: Rule) -> Result<(), NoMemory>
    ensures { OnOk result (text.new.items ≡ text.old.items ++ rule_text rule) }
{
    text.extend_from_slice(rule.code().as_bytes())?;
    text.push(b' ')?;
    text.extend_from_slice(rule.phrase().as_bytes())?;
    Ok(())
}

// Adds the line of a rule that is broken at this line and column.
fn push_line(
    alloc: Global,
    text: &mut Vec<u8>,
    file: &str,
    rule: Rule,
    line: u32,
    column: u32,
) -> Result<(), NoMemory>
    ensures { OnOk result (text.new.items ≡ text.old.items ++ broken_at file.now line column rule) }
{
    text.extend_from_slice(file.as_bytes())?;
    push_numbers(alloc, text, line, column)?;
    push_rule(text, rule)?;
    text.push(b'\n')?;
    Ok(())
}

/// Adds the lines of a source's failures, in their order. The only error is want of memory. Takes time in proportion to the source and the
/// failures where their places rise.
pub fn push_verdict(
    alloc: Global,
    text: &mut Vec<u8>,
    file: &str,
    source: &[u8],
    faults: &[Fault],
) -> Result<(), NoMemory>
    requires { length source.now < 2 ^ 32 - 1 }
    ensures { OnOk result (text.new.items ≡ text.old.items ++ verdict_lines file.now source.now faults.now) }
{
    let mut spot = START;
    for fault in faults {
        spot = spot_at(source, spot, fault.place.0);
        push_line(alloc, text, file, fault.rule, spot.line, spot.column)?;
    }
    Ok(())
}

/// Adds the line that says of a file that its source breaks no rule. The only error is want of memory.
pub fn push_ok(text: &mut Vec<u8>, file: &str) -> Result<(), NoMemory>
    ensures { OnOk result (text.new.items ≡ text.old.items ++ ok_line file.now) }
{
    text.extend_from_slice(file.as_bytes())?;
    text.extend_from_slice(b": ok\n")?;
    Ok(())
}
