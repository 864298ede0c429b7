//! The last value of each variable.

use std::alloc::{AllocError, Global};
use std::marker::Model;

/// The least number that has no cell of its own, and the cell of such a one: 2^31.
const WIDE: u32 = 2_147_483_648;

/// The cell of a variable without a value.
const NONE: u32 = 4_294_967_295;

/// The last values of variables, by their numbers: below 2^128, or none yet. Contracts see the list of them.
///
/// Each takes a cell of four bytes, in which a number below 2^31 stands itself. For a greater one the cell is 2^31, and the
/// number stands at the same place among the wide ones. So changes to narrow variables stay within few lines of the cache.
#[derive(Drop)]
pub(crate) struct LastValues {
    cells: Vec<u32>,
    wide: Vec<u128>,
}

impl Model for LastValues {
    ghost use Rattle.std.specs.Prelude.{◌≤◌, ℕ, List, Option, length};
    ghost use Rattle.vcd_reader.specs.LastValues.{values_in};

    ghost Value = { List (Option ℕ) };

    ghost view = { λ v. values_in v.cells.items v.wide.items };

    ghost invariant = { λ v. length v.cells.items ≤ length v.wide.items };
}

impl LastValues {
    ghost use Rattle.std.specs.Prelude.{◌≡◌, ◌<◌, ◌++◌, ◌∷◌, [], None, OnOk, length, slice_index_or, slice_set};

    /// No variables.
    pub fn new(alloc: Global) -> Self
        ensures { result ≡ [] }
    {
        LastValues {
            cells: Vec::new(alloc),
            wide: Vec::new(alloc),
        }
    }

    /// How many variables there are.
    pub fn len(&self) -> usize
        ensures { result ≡ length self.now }
    {
        self.cells.len()
    }

    /// Adds a variable without a value.
    pub fn push_none(&mut self) -> Result<(), AllocError>
        ensures { OnOk result (self.new ≡ self.old ++ None ∷ []) }
    {
        self.wide.push(0)?;
        self.cells.push(NONE)?;
        Ok(())
    }

    /// The last value of a variable.
    pub fn get(&self, at: usize) -> Option<u128>
        requires { at < length self.now }
        ensures { result ≡ slice_index_or self.now at None }
    {
        let cell = self.cells[at];
        if cell < WIDE {
            Some(u128::from(cell))
        } else if cell == WIDE {
            Some(self.wide[at])
        } else {
            None
        }
    }

    /// Makes a value the last one of a variable.
    #[inline(always)]
    pub fn set(&mut self, at: usize, value: Option<u128>)
        requires { at < length self.old }
        ensures { self.new ≡ slice_set self.old at value }
    {
        match value {
            Some(number) if number < u128::from(WIDE) => self.cells[at] = number as u32,
            Some(number) => {
                self.cells[at] = WIDE;
                self.wide[at] = number;
            }
            None => self.cells[at] = NONE,
        }
    }
}
