//! Numbers that are kept in few bytes.

ghost use Rattle.std.specs.Prelude.{◌≡◌, true, length, IfOk, IfSome};
ghost use Rattle.stim_csv.specs.Numbers.{AreCells, IsMore, is_cell, number_in};

use std::alloc::{AllocError, Global};
use std::marker::Model;

/// The least number that has no cell of its own: 2^31.
const WIDE: u32 = 2_147_483_648;

/// Numbers below 2^128, by their places. Contracts see the list of the numbers.
///
/// Each takes a cell of four bytes, in which a number below 2^31 stands itself. A greater one stands among the wide ones, in
/// 16 bytes, once for all cells in a row of it, and its cell says where.
#[derive(Drop)]
pub struct Numbers {
    cells: Vec<u32>,
    wide: Vec<u128>,
}

impl Model for Numbers {
    ghost use Rattle.std.specs.Prelude.{ℕ, List, map};
    ghost use Rattle.stim_csv.specs.Numbers.{AreCells, numbers_in};

    ghost Value = { List ℕ };

    ghost view = { λ n. numbers_in n.wide.items n.cells.items };

    ghost invariant = { λ n. AreCells n.wide.items n.cells.items };
}

// The number of a cell.
fn number_of(wide: &[u128], cell: u32) -> u128
    requires { is_cell (length wide.now) cell ≡ true }
    ensures { result ≡ number_in wide.now cell }
{
    if cell < WIDE {
        u128::from(cell)
    } else {
        wide[(cell - WIDE) as usize]
    }
}

// The cell so many places before the end, if it has the number.
fn same(cells: &[u32], wide: &[u128], number: u128, back: usize) -> Option<u32>
    requires { AreCells wide.now cells.now }
    ensures { IfSome result (λ cell. (is_cell (length wide.now) cell ≡ true) × (number_in wide.now cell ≡ number)) }
{
    let at = cells.len().checked_sub(back)?;
    let cell = *cells.get(at)?;
    if number_of(wide, cell) == number {
        Some(cell)
    } else {
        None
    }
}

// A new wide cell for a number.
fn new_cell(wide: &mut Vec<u128>, number: u128) -> Result<u32, AllocError>
    ensures more { IsMore wide.old.items wide.new.items }
    ensures cell { IfOk result (λ cell. (is_cell (length wide.new.items) cell ≡ true) × (number_in wide.new.items cell ≡ number)) }
{
    let at = wide.len();
    if at >= WIDE as usize {
        return Err(AllocError);
    }
    wide.push(number)?;
    Ok(WIDE + at as u32)
}

// A wide cell for a number, that of the same number so many places before the end if it has it.
#[cold]
fn wide_cell_for(
    cells: &[u32],
    wide: &mut Vec<u128>,
    number: u128,
    back: usize,
) -> Result<u32, AllocError>
    requires { AreCells wide.old.items cells.now }
    ensures more { IsMore wide.old.items wide.new.items }
    ensures cell { IfOk result (λ cell. (is_cell (length wide.new.items) cell ≡ true) × (number_in wide.new.items cell ≡ number)) }
{
    match same(cells, wide, number, back) {
        Some(cell) => Ok(cell),
        None => new_cell(wide, number),
    }
}

// A cell for a number.
#[inline(always)]
fn cell_for(
    cells: &[u32],
    wide: &mut Vec<u128>,
    number: u128,
    back: usize,
) -> Result<u32, AllocError>
    requires { AreCells wide.old.items cells.now }
    ensures more { IsMore wide.old.items wide.new.items }
    ensures cell { IfOk result (λ cell. (is_cell (length wide.new.items) cell ≡ true) × (number_in wide.new.items cell ≡ number)) }
{
    if number < u128::from(WIDE) {
        Ok(number as u32)
    } else {
        wide_cell_for(cells, wide, number, back)
    }
}

impl Numbers {
    ghost use Rattle.std.specs.Prelude.{◌≡◌, ◌+◌, ◌*◌, ◌<◌, ◌≤◌, ◌++◌, ◌∷◌, [], OnOk, length, slice_index, take, drop};

    /// No numbers.
    pub fn new(alloc: Global) -> Self
        ensures { result ≡ [] }
    {
        Numbers {
            cells: Vec::new(alloc),
            wide: Vec::new(alloc),
        }
    }

    /// Adds a number, that may be the same as the one so many places before.
    #[inline(always)]
    pub fn push(&mut self, number: u128, back: usize) -> Result<(), AllocError>
        ensures { OnOk result (self.new ≡ self.old ++ number ∷ []) }
    {
        let cell = cell_for(&self.cells, &mut self.wide, number, back)?;
        self.cells.push(cell)?;
        Ok(())
    }

    /// How many numbers there are.
    pub(crate) fn len(&self) -> usize
        ensures { result ≡ length self.now }
    {
        self.cells.len()
    }

    /// Adds so many of the numbers from a place on once more.
    pub(crate) fn repeat(&mut self, from: usize, count: usize) -> Result<(), AllocError>
        requires { from + count ≤ length self.old }
        ensures { OnOk result (self.new ≡ self.old ++ take count (drop from self.old)) }
    {
        self.cells.extend_from_within(from..from + count)?;
        Ok(())
    }

    /// The number in a row, where rows have so many numbers.
    pub fn get(&self, row: u64, width: usize, at: usize) -> u128
        requires { row * width + at < length self.now }
        ensures { result ≡ slice_index self.now (row * width + at) }
    {
        let cells = self.cells.as_slice();
        number_of(&self.wide, cells[row as usize * width + at])
    }
    /// Writes the first numbers of a row into a slice, as many as it has room for, where rows have so many numbers.
    pub fn row_into(&self, row: u64, width: usize, into: &mut [u128])
        requires { row * width + length into.old ≤ length self.now }
        ensures { into.new ≡ take (length into.old) (drop (row * width) self.now) }
    {
        let cells = self.cells.as_slice();
        let start = row as usize * width;
        for at in 0..into.len() {
            into[at] = number_of(&self.wide, cells[start + at]);
        }
    }
}
