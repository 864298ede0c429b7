//! Rows of cells, of which most stay as they were.

ghost use Rattle.std.specs.Prelude.{◌≡◌, ◌++◌, ◌∷◌, [], IfOk, OnOk, drop, length, map};
ghost use Rattle.report_text.specs.Printed.{cell, line};
ghost use Rattle.report_text.specs.KeptRow.{AreCells, cell_lengths, next_cell, next_cells};

use crate::printed::{push_next, push_numbers};
use rb_base::NoMemory;
use std::alloc::Global;
use std::marker::Model;
use std::mem::swap;

/// How many rows are printed with no look at what is kept, after one of which more than half of the numbers moved.
const PLAIN: u8 = 15;

/// A printer of rows of numbers. It keeps the cells of one row, so that a number that is as it was there is not printed anew.
///
/// Contracts see the numbers of the row that it keeps.
#[derive(Drop)]
pub struct RowPrinter {
    numbers: Vec<u128>,
    lengths: Vec<u8>,
    cells: Vec<u8>,
    next: Vec<u8>,
    plain: u8,
}

impl Model for RowPrinter {
    ghost use Rattle.std.specs.Prelude.{ℕ, List};
    ghost use Rattle.report_text.specs.KeptRow.{AreCells};

    ghost Value = { List ℕ };

    ghost view = { λ r. r.numbers.items };

    ghost invariant = { λ r. AreCells r.numbers.items r.lengths.items r.cells.items };
}

/// Adds a number as a cell behind a comma, and gives how many bytes that took.
fn push_measured(next: &mut Vec<u8>, number: u128) -> Result<u8, NoMemory>
    ensures cell { OnOk result (next.new.items ≡ next.old.items ++ next_cell number) }
    ensures length { IfOk result (λ n. n ≡ length (next_cell number)) }
{
    let before = next.len();
    push_next(next, number)?;
    Ok((next.len() - before) as u8)
}

/// Adds the cells of numbers, each behind a comma, where these are those of the kept ones, as many; and makes the numbers
/// and lengths the kept ones. It gives how many numbers moved.
fn push_changes(
    kept: &mut [u128],
    lengths: &mut [u8],
    cells: &[u8],
    next: &mut Vec<u8>,
    numbers: &[u128],
) -> Result<usize, NoMemory>
    requires many { length kept.old ≡ length numbers.now }
    requires cells { AreCells kept.old lengths.old cells.now }
    ensures numbers { OnOk result (kept.new ≡ numbers.now) }
    ensures lengths { OnOk result (lengths.new ≡ cell_lengths numbers.now) }
    ensures next { OnOk result (next.new.items ≡ next.old.items ++ next_cells numbers.now) }
{
    let mut moved = 0;
    let mut from = 0;
    let mut to = 0;
    for index in 0..numbers.len() {
        let end = to + usize::from(lengths[index]);
        if numbers[index] != kept[index] {
            next.extend_from_slice(&cells[from..to])?;
            lengths[index] = push_measured(next, numbers[index])?;
            kept[index] = numbers[index];
            moved += 1;
            from = end;
        }
        to = end;
    }
    next.extend_from_slice(&cells[from..])?;
    Ok(moved)
}

/// Makes a row of as many numbers the kept one, and gives how many of its numbers moved. After want of memory nothing is kept.
fn renew(
    kept: &mut Vec<u128>,
    lengths: &mut Vec<u8>,
    cells: &mut Vec<u8>,
    next: &mut Vec<u8>,
    numbers: &[u128],
) -> Result<usize, NoMemory>
    requires many { length kept.old.items ≡ length numbers.now }
    requires cells { AreCells kept.old.items lengths.old.items cells.old.items }
    ensures cells { AreCells kept.new.items lengths.new.items cells.new.items }
    ensures numbers { OnOk result (kept.new.items ≡ numbers.now) }
{
    next.clear();
    match push_changes(kept, lengths, cells, next, numbers) {
        Ok(moved) => {
            swap(cells, next);
            Ok(moved)
        }
        Err(error) => {
            kept.clear();
            lengths.clear();
            cells.clear();
            Err(error)
        }
    }
}

/// Adds cells, each behind a comma, as a line with commas between.
fn push_line(text: &mut Vec<u8>, cells: &[u8]) -> Result<(), NoMemory>
    ensures { OnOk result (text.new.items ≡ text.old.items ++ (drop 1 cells.now ++ 10 ∷ [])) }
{
    if let [_, behind @ ..] = cells {
        text.extend_from_slice(behind)?;
    }
    text.push(b'\n')?;
    Ok(())
}

/// How many of the next rows are to be printed with no look at what is kept, after so many of a row's numbers moved.
fn plain_after(moved: usize, count: usize) -> u8 {
    if moved > count / 2 { PLAIN } else { 0 }
}

impl RowPrinter {
    /// A printer of rows of as many numbers as these, the first row that it keeps. The only error is want of memory.
    #[tactic(auto, using(crate::proofs::Kept::cells_more, crate::proofs::Kept::lengths_more))]
    pub fn new(alloc: Global, numbers: &[u128]) -> Result<Self, NoMemory>
        ensures { IfOk result (λ rows. rows ≡ numbers.now) }
    {
        let mut lengths = Vec::new(alloc);
        let mut cells = Vec::new(alloc);
        for number in numbers {
            let length = push_measured(&mut cells, *number)?;
            lengths.push(length)?;
        }
        Ok(RowPrinter {
            numbers: Vec::from_slice(alloc, numbers)?,
            lengths,
            cells,
            next: Vec::new(alloc),
            plain: 0,
        })
    }

    /// Adds numbers in hexadecimal digits as a line, with commas between, as [`crate::push_numbers`] does, whatever rows were
    /// added before. It is fast where most numbers are those of the kept row, of as many. The only error is want of memory.
    pub fn push(&mut self, text: &mut Vec<u8>, numbers: &[u128]) -> Result<(), NoMemory>
        ensures { OnOk result (text.new.items ≡ text.old.items ++ line (map cell numbers.now)) }
    {
        if self.plain > 0 || numbers.len() != self.numbers.len() {
            self.plain = self.plain.saturating_sub(1);
            return push_numbers(text, numbers);
        }
        let moved = renew(
            &mut self.numbers,
            &mut self.lengths,
            &mut self.cells,
            &mut self.next,
            numbers,
        )?;
        self.plain = plain_after(moved, numbers.len());
        push_line(text, &self.cells)
    }
}
