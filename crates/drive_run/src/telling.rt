//! The lines of a transcript.

ghost use Rattle.std.specs.Prelude.{◌≡◌, ◌++◌, OnOk, codes, decimal, slice_index};
ghost use Rattle.report_text.specs.Printed.{cell};
ghost use Rattle.drive_run.specs.Transcript.{of_line};

use itoa::Buffer;
use rb_base::NoMemory;
use report_text::push_number;

fn push_decimal(text: &mut Vec<u8>, number: u32) -> Result<(), NoMemory>
    ensures { OnOk result (text.new.items ≡ text.old.items ++ decimal number) }
{
    let mut buffer = Buffer::new();
    text.extend_from_slice(buffer.format(number).as_bytes())?;
    Ok(())
}

/// Adds the line and the name of what is told.
fn push_where(text: &mut Vec<u8>, line: u32, name: &[u8]) -> Result<(), NoMemory>
    ensures { OnOk result (text.new.items ≡ text.old.items ++ (decimal line ++ codes " " ++ name.now)) }
{
    push_decimal(text, line)?;
    text.push(b' ')?;
    text.extend_from_slice(name)?;
    Ok(())
}

/// Adds the line of a show.
pub(crate) fn push_shown(
    text: &mut Vec<u8>,
    line: u32,
    name: &[u8],
    number: u128,
) -> Result<(), NoMemory>
    ensures { OnOk result (text.new.items ≡ text.old.items ++ of_line line name.now (codes " " ++ cell number)) }
{
    push_where(text, line, name)?;
    text.push(b' ')?;
    push_number(text, number)?;
    text.push(b'\n')?;
    Ok(())
}

/// Adds the line of a check whose value differs.
pub(crate) fn push_difference(
    text: &mut Vec<u8>,
    line: u32,
    name: &[u8],
    wanted: u128,
    number: u128,
) -> Result<(), NoMemory>
    ensures { OnOk result (text.new.items ≡ text.old.items ++ of_line line name.now (codes " expected " ++ cell wanted ++ codes " got " ++ cell number)) }
{
    push_where(text, line, name)?;
    text.extend_from_slice(b" expected ")?;
    push_number(text, wanted)?;
    text.extend_from_slice(b" got ")?;
    push_number(text, number)?;
    text.push(b'\n')?;
    Ok(())
}

/// Adds the counts of checks.
pub(crate) fn push_counts(text: &mut Vec<u8>, checks: u32, failed: u32) -> Result<(), NoMemory>
    ensures { OnOk result (text.new.items ≡ text.old.items ++ (codes "checks " ++ decimal checks ++ codes " failed " ++ decimal failed ++ codes "\n")) }
{
    text.extend_from_slice(b"checks ")?;
    push_decimal(text, checks)?;
    text.extend_from_slice(b" failed ")?;
    push_decimal(text, failed)?;
    text.push(b'\n')?;
    Ok(())
}

/// The number of an output, or 0 behind the last.
pub(crate) fn number_at(outs: &[u128], place: u32) -> u128
    ensures { result ≡ slice_index outs.now place }
{
    match outs.get(place as usize) {
        Some(number) => *number,
        None => 0,
    }
}
