//! The table of a dump.

use rb_base::Pin;
use std::marker::Model;
use stim_csv::Numbers;

/// The values of a dump's variables, a row for each time. Contracts see the variables as pins, and the list of the rows.
#[derive(Drop)]
pub struct Waves {
    pub(crate) pins: Vec<Pin>,
    pub(crate) values: Numbers,
    pub(crate) rows: u64,
}

impl Model for Waves {
    ghost use Rattle.std.specs.Prelude.{◌≡◌, ◌*◌, length};
    ghost use Rattle.stim_csv.specs.Vectors.{cut};
    ghost use Rattle.vcd_reader.specs.Tables.{Table};

    ghost Value = { Table };

    ghost view = { λ w. record { pins = w.pins.items; rows = cut (length w.pins.items) w.rows w.values } };

    ghost invariant = { λ w. length w.values ≡ w.rows * length w.pins.items };
}

impl Waves {
    ghost use Rattle.std.specs.Prelude.{◌≡◌, ℕ, ◌<◌, [], length, slice_index, slice_index_or};

    /// The variables in the order of their declarations, with their widths in bits (1 to 128). It takes no memory.
    pub fn pins(&self) -> &[Pin]
        ensures { result.now ≡ self.now.pins }
    {
        &self.pins
    }

    /// How many rows the table has, each with as many values as there are variables. It takes no memory.
    pub fn rows(&self) -> u64
        ensures rows { result ≡ length self.now.rows }
        ensures wide { (k : ℕ) → k < length self.now.rows → length (slice_index_or self.now.rows k []) ≡ length self.now.pins }
    {
        self.rows
    }

    /// The value of a variable in a row, both by their numbers from 0. It takes no memory.
    pub fn value(&self, at: u64, pin: usize) -> u128
        requires row { at < length self.now.rows }
        requires pin { pin < length self.now.pins }
        ensures { result ≡ slice_index (slice_index_or self.now.rows at []) pin }
    {
        self.values.get(at, self.pins.len(), pin)
    }
}
