//! The header of a table: which pin each column is of.
ghost use Rattle.std.specs.Prelude.{◌≡◌, ◌≢◌, ℕ, ◌<◌, ◌++◌, None, Some, Option, OnOk, IfOk, IfErr, IfSome, AllPairs, List, map, take, length, []};
ghost use Rattle.std.specs.BTreeMap.{get_by};
ghost use Rattle.std.specs.Cmp.Lexicographic.{slice_cmp};
ghost use Rattle.std.specs.Ordering.{nat_cmp};
ghost use Rattle.csv.specs.Records.{fields_of};
ghost use Rattle.stim_csv.specs.Numeral.{cell_value};
ghost use Rattle.stim_csv.specs.Columns.{IsHeaderOf, unfound_problem};
ghost use Rattle.stim_csv.specs.PinTable.{header_problem, width_of, cells_problem, value_problem, first_problem, pin_problem, column_problem, place_of, column_of, number_of};

use crate::cells::cell as read_cell;
use crate::error::StimError;
use crate::numbers::Numbers;
use crate::numeral::{Cell, is_within};
use crate::records::cell_at;
use csv::ByteRecord;
use rb_base::Pin;
use std::alloc::{AllocError, Global};
use std::collections::BTreeMap;

/// Where the pins stand in a table.
#[derive(Drop)]
pub(crate) struct Header {
    /// The column of each pin, in the order of the pins.
    pub columns: Vec<usize>,
    /// The width in bits of the pin of each column.
    pub widths: Vec<u8>,
}

/// The place of each pin by its name.
fn places_of(alloc: Global, pins: &[Pin]) -> Result<BTreeMap<&[u8], usize>, AllocError>
    requires { AllPairs (λ p q. p.name ≢ q.name) pins.now }
    ensures { IfOk result
        (λ m. (name : List ℕ) → get_by (λ k. slice_cmp nat_cmp name k.now) m ≡ place_of pins.now name) }
{
    let mut places = BTreeMap::new(alloc);
    for (place, pin) in pins.iter().enumerate() {
        places.insert(pin.name.bytes.as_slice(), place)?;
    }
    Ok(places)
}

/// The place of the pin of this name, if there is one.
fn place_in(places: &BTreeMap<&[u8], usize>, pins: &[Pin], name: &[u8]) -> Option<usize>
    requires { (name : List ℕ) → get_by (λ k. slice_cmp nat_cmp name k.now) places.now ≡ place_of pins.now name }
    ensures value { result ≡ place_of pins.now name.now }
    ensures within { IfSome result (λ place. place < length pins.now) }
{
    places.get(name).copied()
}

/// The column of each pin, where it has one, and the width of each column.
fn find_columns(
    alloc: Global,
    pins: &[Pin],
    names: &ByteRecord,
) -> Result<(Vec<Option<usize>>, Vec<u8>), StimError>
    requires { AllPairs (λ p q. p.name ≢ q.name) pins.now }
    ensures sound { OnOk result (first_problem (column_problem pins.now (fields_of names.now)) 0 (fields_of names.now) ≡ None) }
    ensures columns { IfOk result (λ r. r.0.items ≡ map (λ p. column_of (fields_of names.now) p.name) pins.now) }
    ensures widths { IfOk result (λ r. r.1.items ≡ map (width_of pins.now) (fields_of names.now)) }
    ensures problem { IfErr result (λ e. e ≢ StimError.NoMemory
        → first_problem (column_problem pins.now (fields_of names.now)) 0 (fields_of names.now) ≡ Some e) }
{
    let places = places_of(alloc, pins)?;
    let mut columns = vec![in alloc; None; pins.len()]?;
    let mut widths = Vec::new(alloc);
    for column in 0..names.len() {
        let Some(place) = place_in(&places, pins, cell_at(names, column)) else {
            return Err(StimError::UnknownPin {
                column: column as u64,
            });
        };
        if columns[place].is_some() {
            return Err(StimError::TwicePin {
                column: column as u64,
            });
        }
        columns[place] = Some(column);
        widths.push(pins[place].width)?;
    }
    Ok((columns, widths))
}

/// The column of each pin, if each has one.
fn all_found(alloc: Global, columns: &[Option<usize>]) -> Result<Vec<usize>, StimError>
    ensures sound { OnOk result (first_problem unfound_problem 0 columns.now ≡ None) }
    ensures found { IfOk result (λ r. map Some r.items ≡ columns.now) }
    ensures problem { IfErr result (λ e. e ≢ StimError.NoMemory → first_problem unfound_problem 0 columns.now ≡ Some e) }
{
    let mut found = Vec::new(alloc);
    for (pin, column) in columns.iter().enumerate() {
        match column {
            Some(column) => found.push(*column)?,
            None => return Err(StimError::MissingPin { pin: pin as u64 }),
        }
    }
    Ok(found)
}

impl Header {
    /// The header that names these pins, or its first problem.
    pub fn read(alloc: Global, pins: &[Pin], names: &ByteRecord) -> Result<Header, StimError>
        requires { AllPairs (λ p q. p.name ≢ q.name) pins.now }
        ensures sound { OnOk result (header_problem pins.now (fields_of names.now) ≡ None) }
        ensures header { IfOk result (IsHeaderOf pins.now (fields_of names.now)) }
        ensures problem { IfErr result (λ e. e ≢ StimError.NoMemory
            → header_problem pins.now (fields_of names.now) ≡ Some e) }
    {
        let (columns, widths) = find_columns(alloc, pins, names)?;
        let columns = all_found(alloc, &columns)?;
        Ok(Header { columns, widths })
    }
}

/// The number of a cell, unless it has a problem.
fn number_in(cell: &[u8], width: u8, row: u64, column: u64) -> Result<u128, StimError>
    ensures number { IfOk result (λ n. cell_value cell.now ≡ Some n) }
    ensures sound { OnOk result (value_problem width row column (cell_value cell.now) ≡ None) }
    ensures problem { IfErr result (λ e. value_problem width row column (cell_value cell.now) ≡ Some e) }
{
    match read_cell(cell) {
        Cell::Bad => Err(StimError::Form { row }),
        Cell::Number(number) if is_within(number, width) => Ok(number),
        _ => Err(StimError::TooWide { row, column }),
    }
}

/// Adds the numbers of a row's cells, in the order of the columns, or answers its first problem.
pub(crate) fn read_cells(
    widths: &[u8],
    cells: &ByteRecord,
    row: u64,
    numbers: &mut Numbers,
) -> Result<(), StimError>
    ensures sound { OnOk result (cells_problem widths.now row (fields_of cells.now) ≡ None) }
    ensures numbers { OnOk result (numbers.new ≡ numbers.old ++ map number_of (fields_of cells.now)) }
    ensures problem { IfErr result (λ e. e ≢ StimError.NoMemory
        → cells_problem widths.now row (fields_of cells.now) ≡ Some e) }
{
    if cells.len() != widths.len() {
        return Err(StimError::Form { row });
    }
    for (column, width) in widths.iter().enumerate() {
        let number = number_in(cell_at(cells, column), *width, row, column as u64)?;
        numbers.push(number, widths.len())?;
    }
    Ok(())
}
