//! A table of pins.
ghost use Rattle.std.specs.Prelude.{◌≡◌, ◌≢◌, ℕ, ◌*◌, ◌+◌, ◌<◌, ◌≤◌, None, Some, Ok, Err, Option, OnOk, IfOk, IfErr, AllPairs, List, map, length, slice_index, slice_index_or, [], IfSome};
ghost use Rattle.std.specs.List.{AllByRecursion};
ghost use Rattle.csv.specs.Records.{fields_of};
ghost use Rattle.stim_csv.specs.Columns.{AreColumns, numbers_in};
ghost use Rattle.stim_csv.specs.Plain.{HeadsLine, rows_at};
ghost use Rattle.stim_csv.specs.Records.{Reads, records_left};
ghost use Rattle.stim_csv.specs.PinTable.{is_too_many, table_of, records_of, vector_of, row_problem, first_problem, width_of};

use crate::error::StimError;
use crate::header::{Header, read_cells};
use crate::numbers::Numbers;
use crate::ordering::by_pins;
use crate::plain::{line_end, row_at};
use crate::records::next_record;
use csv::{ByteRecord, Reader, ReaderBuilder};
use rb_base::Pin;
use std::alloc::{AllocError, Global};
use std::marker::Model;

/// The most rows that a table may have.
const MOST_ROWS: u64 = 1_000_000;

/// The most numbers that the outputs of all rows may be.
const MOST_OUTPUTS: u64 = 16_777_216;

/// The vectors of a table of pins, one for each row. Contracts see the list of the vectors.
#[derive(Drop)]
pub struct Stimulus {
    vectors: Numbers,
    width: usize,
    rows: u64,
}

impl Model for Stimulus {
    ghost use Rattle.std.specs.Prelude.{◌≡◌, ◌*◌, ℕ, List, length};
    ghost use Rattle.stim_csv.specs.Vectors.{cut};

    ghost Value = { List (List ℕ) };

    ghost view = { λ s. cut s.width s.rows s.vectors };

    ghost invariant = { λ s. length s.vectors ≡ s.rows * s.width };
}

/// Whether a row is one too many.
fn is_past_the_end(row: u64, outputs: u32) -> bool
    requires { row ≤ 1000000 }
    ensures { result ≡ is_too_many row outputs }
{
    row == MOST_ROWS || MOST_OUTPUTS < (row + 1) * u64::from(outputs)
}

/// The table of the rows that a reader has left, under this header.
fn read_rows(
    alloc: Global,
    reader: &mut Reader<&[u8]>,
    header: &Header,
    outputs: u32,
) -> Result<Stimulus, StimError>
    requires reads { Reads reader.old }
    requires columns { AreColumns header.now }
    ensures sound { OnOk result
        (first_problem (row_problem header.now.widths.items outputs) 0 (records_left reader.old) ≡ None) }
    ensures vectors { IfOk result
        (λ s. s ≡ map (numbers_in header.now.columns.items) (records_left reader.old)) }
    ensures problem { IfErr result (λ e. e ≢ StimError.NoMemory
        → first_problem (row_problem header.now.widths.items outputs) 0 (records_left reader.old) ≡ Some e) }
{
    let mut cells = ByteRecord::new(alloc);
    let mut numbers = Numbers::new(alloc);
    let mut row = 0;
    while next_record(reader, &mut cells)? {
        if is_past_the_end(row, outputs) {
            return Err(StimError::TooMany { row });
        }
        read_cells(&header.widths, &cells, row, &mut numbers)?;
        row += 1;
    }
    let vectors = by_pins(alloc, numbers, row, header.widths.len(), &header.columns)?;
    Ok(Stimulus {
        vectors,
        width: header.columns.len(),
        rows: row,
    })
}

/// The rows of a text from a place on, under a header with these widths and columns, where each of them is plain and has no
/// problem.
fn read_plain_rows(
    alloc: Global,
    text: &[u8],
    start: usize,
    widths: &[u8],
    columns: &[usize],
    outputs: u32,
) -> Result<Option<Stimulus>, StimError>
    requires within { start ≤ length text.now }
    requires columns { AllByRecursion (λ c. c < length widths.now) columns.now }
    ensures sound { IfOk result (λ found. IfSome found
        (λ s. first_problem (row_problem widths.now outputs) 0 (rows_at text.now start) ≡ None)) }
    ensures vectors { IfOk result (λ found. IfSome found (λ s. s ≡ map (numbers_in columns.now) (rows_at text.now start))) }
    ensures refused { IfErr result (λ e. e ≡ StimError.NoMemory) }
{
    let mut numbers = Numbers::new(alloc);
    let mut lengths = vec![in alloc; 0; widths.len()]?;
    let mut before = start;
    let mut at = start;
    let mut row = 0;
    while at < text.len() {
        if is_past_the_end(row, outputs) {
            return Ok(None);
        }
        let found = row_at(widths, text, before, at, &mut lengths, &mut numbers)?;
        let Some(end) = found else {
            return Ok(None);
        };
        before = at;
        at = end;
        row += 1;
    }
    let vectors = by_pins(alloc, numbers, row, widths.len(), columns)?;
    Ok(Some(Stimulus {
        vectors,
        width: columns.len(),
        rows: row,
    }))
}

/// The header of a line, where it has no problem.
fn line_header(alloc: Global, line: &[u8], pins: &[Pin]) -> Result<Option<Header>, StimError>
    requires { AllPairs (λ p q. p.name ≢ q.name) pins.now }
    ensures header { IfOk result (λ found. IfSome found (λ header. HeadsLine pins.now line.now header)) }
    ensures refused { IfErr result (λ e. e ≡ StimError.NoMemory) }
{
    let mut reader = ReaderBuilder::new()
        .has_headers(false)
        .flexible(true)
        .from_reader(alloc, line);
    let mut names = ByteRecord::new(alloc);
    let headed = next_record(&mut reader, &mut names)?;
    if !headed {
        return Ok(None);
    }
    match Header::read(alloc, pins, &names) {
        Ok(header) => Ok(Some(header)),
        Err(_) => Ok(None),
    }
}

/// The table of a text without quotes and without problems, in which a line feed ends each line.
fn read_plain(
    alloc: Global,
    bytes: &[u8],
    pins: &[Pin],
    outputs: u32,
) -> Result<Option<Stimulus>, StimError>
    requires { AllPairs (λ p q. p.name ≢ q.name) pins.now }
    ensures vectors { IfOk result (λ found. IfSome found (λ s. table_of pins.now outputs (records_of bytes.now) ≡ Ok s)) }
    ensures refused { IfErr result (λ e. e ≡ StimError.NoMemory) }
{
    let Some(end) = line_end(bytes) else {
        return Ok(None);
    };
    let found = line_header(alloc, &bytes[..end], pins)?;
    let Some(header) = found else {
        return Ok(None);
    };
    let rows = end + 1;
    read_plain_rows(alloc, bytes, rows, &header.widths, &header.columns, outputs)
}

impl Stimulus {
    /// The table that bytes are, record by record, or the first problem in them.
    fn read_records(
        alloc: Global,
        bytes: &[u8],
        pins: &[Pin],
        outputs: u32,
    ) -> Result<Stimulus, StimError>
        requires { AllPairs (λ p q. p.name ≢ q.name) pins.now }
        ensures vectors { IfOk result (λ s. table_of pins.now outputs (records_of bytes.now) ≡ Ok s) }
        ensures problem { IfErr result (λ e. e ≢ StimError.NoMemory
            → table_of pins.now outputs (records_of bytes.now) ≡ Err e) }
    {
        let mut reader = ReaderBuilder::new()
            .has_headers(false)
            .flexible(true)
            .from_reader(alloc, bytes);
        let mut names = ByteRecord::new(alloc);
        let headed = next_record(&mut reader, &mut names)?;
        let header = Header::read(alloc, pins, &names)?;
        if headed {
            read_rows(alloc, &mut reader, &header, outputs)
        } else {
            Ok(Stimulus {
                vectors: Numbers::new(alloc),
                width: pins.len(),
                rows: 0,
            })
        }
    }

    /// The table that bytes are, for these input pins of a module that has so many outputs, or the first problem in
    /// them.
    ///
    /// The header is judged first, its columns from the left; then missing pins, in the order of the pins; then the
    /// rows in order. In a row the number of rows is judged first, then the number of cells, then the cells from the
    /// left. Want of memory may be answered in place of the table or of a problem.
    pub fn read(
        alloc: Global,
        bytes: &[u8],
        pins: &[Pin],
        outputs: u32,
    ) -> Result<Stimulus, StimError>
        requires { AllPairs (λ p q. p.name ≢ q.name) pins.now }
        ensures vectors { IfOk result (λ s. table_of pins.now outputs (records_of bytes.now) ≡ Ok s) }
        ensures problem { IfErr result (λ e. e ≢ StimError.NoMemory
            → table_of pins.now outputs (records_of bytes.now) ≡ Err e) }
    {
        let found = read_plain(alloc, bytes, pins, outputs)?;
        match found {
            Some(table) => Ok(table),
            None => Self::read_records(alloc, bytes, pins, outputs),
        }
    }

    /// How many rows the table has.
    pub fn rows(&self) -> u64
        ensures { result ≡ length self.now }
    {
        self.rows
    }

    /// How many numbers each row has, one for each pin. It takes no memory.
    pub fn width(&self) -> usize
        ensures { (k : ℕ) → k < length self.now → length (slice_index_or self.now k []) ≡ result }
    {
        self.width
    }

    /// Writes the numbers of the pins in a row into a slice, in the order of the pins. It takes no memory.
    pub fn row_into(&self, at: u64, into: &mut [u128])
        requires row { at < length self.now }
        requires room { length into.old ≡ length (slice_index_or self.now at []) }
        ensures { into.new ≡ slice_index_or self.now at [] }
    {
        self.vectors.row_into(at, self.width, into);
    }

    /// The number of a pin in a row, both by their places from 0.
    pub(crate) fn number(&self, at: u64, pin: usize) -> u128
        requires row { at < length self.now }
        requires pin { pin < length (slice_index_or self.now at []) }
        ensures { result ≡ slice_index (slice_index_or self.now at []) pin }
    {
        self.vectors.get(at, self.width, pin)
    }
}
