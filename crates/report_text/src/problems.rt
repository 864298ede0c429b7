//! What is wrong with a table, as text.

ghost use Rattle.std.specs.Prelude.{◌≡◌, ◌≢◌, ◌++◌, IfOk, OnOk, codes};
ghost use Rattle.std.specs.Fmt.{decimal};
ghost use Rattle.report_text.specs.Problems.{problem_text, name_at};

use rb_base::{NoMemory, Pin};
use std::alloc::Global;
use stim_csv::StimError;

fn column_text(alloc: Global, column: u64, what: &str) -> Result<Vec<u8>, NoMemory>
    ensures { IfOk result (λ text. text.items ≡ codes "column " ++ (decimal column ++ what.now)) }
{
    let text = format!(in alloc; "column {column}{what}")?;
    Ok(text.into_bytes())
}

fn row_text(alloc: Global, row: u64, what: &str) -> Result<Vec<u8>, NoMemory>
    ensures { IfOk result (λ text. text.items ≡ codes "row " ++ (decimal row ++ what.now)) }
{
    let text = format!(in alloc; "row {row}{what}")?;
    Ok(text.into_bytes())
}

fn cell_text(alloc: Global, row: u64, column: u64) -> Result<Vec<u8>, NoMemory>
    ensures { IfOk result (λ text. text.items ≡ codes "row " ++ (decimal row ++ (codes " column " ++ (decimal column ++ codes ": too wide")))) }
{
    let text = format!(in alloc; "row {row} column {column}: too wide")?;
    Ok(text.into_bytes())
}

fn pin_text(alloc: Global, pins: &[Pin], place: u64) -> Result<Vec<u8>, NoMemory>
    ensures { IfOk result (λ text. text.items ≡ codes "pin " ++ (name_at pins.now place ++ codes " missing")) }
{
    let mut text = Vec::from_slice(alloc, b"pin ")?;
    if let Some(pin) = pins.get(place as usize) {
        text.extend_from_slice(&pin.name.bytes)?;
    }
    text.extend_from_slice(b" missing")?;
    Ok(text)
}

/// The text of a table's problem, unless that is want of memory.
pub fn problem_text(alloc: Global, pins: &[Pin], problem: StimError) -> Result<Vec<u8>, NoMemory>
    ensures text { IfOk result (λ text. text.items ≡ problem_text pins.now problem) }
    ensures problem { OnOk result (problem ≢ StimError.NoMemory) }
{
    match problem {
        StimError::UnknownPin { column } => column_text(alloc, column, ": unknown pin"),
        StimError::TwicePin { column } => column_text(alloc, column, ": pin named twice"),
        StimError::MissingPin { pin } => pin_text(alloc, pins, pin),
        StimError::TooMany { row } => row_text(alloc, row, ": too many"),
        StimError::Form { row } => row_text(alloc, row, ": form"),
        StimError::TooWide { row, column } => cell_text(alloc, row, column),
        StimError::NoMemory => Err(NoMemory),
    }
}
