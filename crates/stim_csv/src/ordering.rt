//! Rows in the order of the pins.
ghost use Rattle.std.specs.Prelude.{◌≡◌, ◌*◌, ◌+◌, ◌<◌, ◌≤◌, ◌++◌, true, ℕ, OnOk, IfOk, length, map, slice_index};
ghost use Rattle.std.specs.List.{AllByRecursion};
ghost use Rattle.stim_csv.specs.Columns.{picked};
ghost use Rattle.stim_csv.specs.Vectors.{cut};

use crate::numbers::Numbers;
use std::alloc::{AllocError, Global};

/// Whether each pin's column is its own place, and there are no more columns.
fn are_in_order(columns: &[usize], width: usize) -> bool
    ensures count { result ≡ true → length columns.now ≡ width }
    ensures places { result ≡ true → (k : ℕ) → k < width → slice_index columns.now k ≡ k }
{
    for (place, column) in columns.iter().enumerate() {
        if *column != place {
            return false;
        }
    }
    columns.len() == width
}

/// Adds the numbers of a row that stand in these columns.
fn push_picked(
    vectors: &mut Numbers,
    cells: &Numbers,
    row: u64,
    width: usize,
    columns: &[usize],
) -> Result<(), AllocError>
    requires row { row * width + width ≤ length cells.now }
    requires columns { AllByRecursion (λ c. c < width) columns.now }
    ensures { OnOk result (vectors.new ≡ vectors.old ++ map (λ c. slice_index cells.now (row * width + c)) columns.now) }
{
    for column in columns {
        vectors.push(cells.get(row, width, *column), columns.len())?;
    }
    Ok(())
}

/// The numbers of so many rows, each row in the order of the pins, which have these columns.
pub(crate) fn by_pins(
    alloc: Global,
    cells: Numbers,
    rows: u64,
    width: usize,
    columns: &[usize],
) -> Result<Numbers, AllocError>
    requires whole { length cells ≡ rows * width }
    requires columns { AllByRecursion (λ c. c < width) columns.now }
    ensures whole { IfOk result (λ r. length r ≡ rows * length columns.now) }
    ensures rows { IfOk result (λ r. cut (length columns.now) rows r ≡ map (picked columns.now) (cut width rows cells)) }
{
    if are_in_order(columns, width) {
        return Ok(cells);
    }
    let mut vectors = Numbers::new(alloc);
    for row in 0..rows {
        push_picked(&mut vectors, &cells, row, width, columns)?;
    }
    Ok(vectors)
}
